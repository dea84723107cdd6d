//! Extension additions (X.696 16.4).
ghost use Rattle.std.specs.Prelude.{◌≡◌, ◌∷◌, [], Some, IfOk, IfErr, IfSome, IfNone};
ghost use Rattle.oer_codec_laws.specs.Takes.{AdditionsBegin, added, components};
ghost use Rattle.oer_codec_reading.specs.Fronts.{freedoms};
ghost use Rattle.oer_codec_decoder.specs.Refusals.{NoAdditions};
ghost use Rattle.oer_codec_decoder.specs.Scopes.{own_presence, unknown_presence};

use asn1_schema_errors::DecodeError;
use asn1_values_bits::BitStr;
use oer_codec_reading::{Cursor, EncodingRules, read_bitmap, take_bit};

/// The extension additions of a SEQUENCE that are still to come (X.696 16.4).
#[derive(Drop)]
pub(crate) struct Additions<'input> {
    /// The number of those that the type defines.
    pub(crate) left: usize,
    /// The bits of the presence bitmap: those of the type's additions, followed by those of unknown ones.
    pub(crate) bitmap: BitStr<'input>,
}

impl<'input> Additions<'input> {
    /// Whether the type's next addition is present. Additions after the end of the bitmap are absent. `None` if none is
    /// to come.
    #[inline(always)]
    pub(crate) fn next(&mut self) -> Option<bool>
        ensures some { IfSome result (λ present. own_presence self.old ≡ present ∷ own_presence self.new) }
        ensures unknown { IfSome result (λ _. unknown_presence self.new ≡ unknown_presence self.old) }
        ensures none { IfNone result (own_presence self.old ≡ []) }
    {
        if self.left == 0 {
            return None;
        }
        self.left -= 1;
        match take_bit(&mut self.bitmap) {
            Some(present) => Some(present),
            None => Some(false),
        }
    }
}

/// Reads what precedes the additions of a SEQUENCE, of which the type has `count`: nothing if the extension bit is 0,
/// otherwise a presence bitmap of any width.
///
/// # Errors
///
/// Those of a presence bitmap.
#[inline(always)]
pub(crate) fn read_additions<'input>(
    cursor: &mut Cursor<'input>,
    rules: EncodingRules,
    is_extended: bool,
    count: usize,
) -> Result<Additions<'input>, DecodeError>
    ensures ok { IfOk result (λ a. (k : _) → AdditionsBegin (freedoms rules) count cursor.old
        (components (Some is_extended) [] ∷ k) (cursor.new, added (own_presence a) (unknown_presence a) ∷ k)) }
    ensures only { IfErr result (NoAdditions (freedoms rules) is_extended count cursor.old) }
{
    let left = count;
    if !is_extended {
        let bitmap = BitStr::new();
        return Ok(Additions { left, bitmap });
    }
    let bitmap = read_bitmap(cursor, rules)?;
    Ok(Additions { left, bitmap })
}
