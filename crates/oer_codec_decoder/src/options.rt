//! The options of a decoder.
ghost use Rattle.std.specs.Prelude.{◌≡◌};

use oer_codec_reading::EncodingRules;

/// How a decoder of the octet encoding rules (X.696) reads.
#[derive(Clone, Copy, Debug)]
pub struct DecoderOptions {
    /// The basic rules, with all the forms that they allow, or the canonical rules.
    pub rules: EncodingRules,
}

impl DecoderOptions {
    /// The basic rules: all forms that they allow are accepted.
    pub fn oer() -> Self
        ensures { result.rules ≡ EncodingRules.Oer }
    {
        DecoderOptions {
            rules: EncodingRules::Oer,
        }
    }

    /// The canonical rules: only the canonical forms are accepted.
    pub fn coer() -> Self
        ensures { result.rules ≡ EncodingRules.Coer }
    {
        DecoderOptions {
            rules: EncodingRules::Coer,
        }
    }
}
