//! The two variants of PER.
ghost use Rattle.std.specs.Prelude.{◌≡◌};
ghost use Rattle.per_codec_rules.specs.Variants.{is_aligned};

/// The unaligned or the aligned variant of PER (X.691).
#[derive(Clone, Copy, Debug, PartialEq, Eq)]
pub enum Variant {
    /// No padding bits.
    Unaligned,
    /// Padding bits precede some fields, so that these begin at an octet boundary.
    Aligned,
}

impl Variant {
    /// Whether padding bits precede some fields.
    #[inline(always)]
    pub fn is_aligned(self) -> bool
        ensures { result ≡ is_aligned self }
    {
        match self {
            Variant::Unaligned => false,
            Variant::Aligned => true,
        }
    }
}
