//! The packed encoding rules of a reader.
ghost use Rattle.std.specs.Prelude.{◌≡◌};
ghost use Rattle.per_codec_reading.specs.Fronts as fronts;

use per_codec_rules::Variant;

/// UPER or APER (X.691), each with a lenient or a strict reader.
#[derive(Clone, Copy, Debug, PartialEq, Eq)]
pub enum PackedRules {
    /// Unaligned PER: a decoder accepts all forms.
    Uper,
    /// Aligned PER: a decoder accepts all forms.
    Aper,
    /// Unaligned PER: a decoder accepts only the forms that an encoder writes, except for the freedoms of strict rules.
    UperStrict,
    /// Aligned PER: a decoder accepts only the forms that an encoder writes, except for the freedoms of strict rules.
    AperStrict,
}

impl PackedRules {
    /// The variant of PER.
    #[inline(always)]
    pub fn variant(self) -> Variant
        ensures { result ≡ fronts.variant_of self }
    {
        match self {
            PackedRules::Uper => Variant::Unaligned,
            PackedRules::Aper => Variant::Aligned,
            PackedRules::UperStrict => Variant::Unaligned,
            PackedRules::AperStrict => Variant::Aligned,
        }
    }

    /// Whether padding bits precede some fields.
    #[inline(always)]
    pub fn is_aligned(self) -> bool
        ensures { result ≡ fronts.is_aligned self }
    {
        self as u8 & 1 == 1
    }

    /// Whether a decoder accepts only the forms that an encoder writes, except for the freedoms of strict rules.
    #[inline(always)]
    pub fn is_strict(self) -> bool
        ensures { result ≡ fronts.is_strict self }
    {
        self as u8 >= 2
    }
}
