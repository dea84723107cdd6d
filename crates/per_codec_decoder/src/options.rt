//! The options of a decoder.
ghost use Rattle.std.specs.Prelude.{◌≡◌};

use per_codec_reading::PackedRules;

/// How a decoder of the packed encoding rules (X.691) reads.
#[derive(Clone, Copy, Debug)]
pub struct DecoderOptions {
    /// The encoding rules, with a lenient or a strict reader.
    pub rules: PackedRules,
}

impl DecoderOptions {
    /// The aligned variant; all forms are accepted.
    pub fn aligned() -> Self
        ensures { result.rules ≡ PackedRules.Aper }
    {
        DecoderOptions {
            rules: PackedRules::Aper,
        }
    }

    /// The unaligned variant; all forms are accepted.
    pub fn unaligned() -> Self
        ensures { result.rules ≡ PackedRules.Uper }
    {
        DecoderOptions {
            rules: PackedRules::Uper,
        }
    }

    /// The aligned variant; only the forms that an encoder writes are accepted.
    pub fn aligned_strict() -> Self
        ensures { result.rules ≡ PackedRules.AperStrict }
    {
        DecoderOptions {
            rules: PackedRules::AperStrict,
        }
    }

    /// The unaligned variant; only the forms that an encoder writes are accepted.
    pub fn unaligned_strict() -> Self
        ensures { result.rules ≡ PackedRules.UperStrict }
    {
        DecoderOptions {
            rules: PackedRules::UperStrict,
        }
    }
}
