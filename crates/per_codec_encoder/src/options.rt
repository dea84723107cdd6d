//! Options of encoders.
ghost use Rattle.std.specs.Prelude.{◌≡◌};

use per_codec_rules::Variant;

/// Options of an encoder: the variant of PER.
#[derive(Clone, Copy, Debug)]
pub struct EncoderOptions {
    variant: Variant,
}

impl EncoderOptions {
    ghost use Rattle.per_codec_encoder.specs.Stepping.{variant_of};
    ghost use Rattle.per_codec_rules.specs.Variants.{is_aligned};

    /// The aligned variant, APER.
    pub fn aligned() -> Self
        ensures { variant_of result ≡ Variant.Aligned }
    {
        EncoderOptions {
            variant: Variant::Aligned,
        }
    }

    /// The unaligned variant, UPER.
    pub fn unaligned() -> Self
        ensures { variant_of result ≡ Variant.Unaligned }
    {
        EncoderOptions {
            variant: Variant::Unaligned,
        }
    }

    /// Whether it is the aligned variant.
    pub fn is_aligned(&self) -> bool
        ensures { result ≡ is_aligned (variant_of self.now) }
    {
        self.variant.is_aligned()
    }

    /// The variant.
    pub(crate) fn variant(&self) -> Variant
        ensures { result ≡ variant_of self.now }
    {
        self.variant
    }
}
