//! The extension additions of a SEQUENCE or SET (X.691 19.7).
ghost use Rattle.std.specs.Prelude.{◌≡◌, IfSome, IfNone};
ghost use Rattle.per_codec_decoder.specs.Additions.{HasNextBit};

use per_codec_reading_values::Stretch;

/// The additions that are still to come.
#[derive(Drop)]
pub struct Additions<'input> {
    /// The number of those that the type defines.
    pub left: usize,
    /// The bits of the presence bitmap: those of the type's additions, followed by those of unknown ones.
    pub bitmap: Stretch<'input>,
}

impl Additions<'_> {
    /// Whether the type's next addition is present; `None` if none is due. Additions after the end of the bitmap are
    /// absent.
    #[inline(always)]
    pub(crate) fn next(&mut self) -> Option<bool>
        ensures some { IfSome result (λ is_there. HasNextBit is_there self.old self.new) }
        ensures none { IfNone result (self.old.left ≡ 0) }
    {
        if self.left == 0 {
            return None;
        }
        self.left -= 1;
        match self.bitmap.next_bit() {
            Some(is_there) => Some(is_there),
            None => Some(false),
        }
    }
}
