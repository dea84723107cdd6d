//! Readers of the message with which octets begin, for each set of rules.
ghost use Rattle.std.specs.Prelude.{◌≡◌};

use asn1_schema_decode::{Decode, FrontReader};
use asn1_schema_errors::{CodecKind, DecodeError};
use std::alloc::Global;

/// Reads the message with which octets begin, by the basic octet encoding rules (X.696).
#[derive(Clone, Copy, Debug, PartialEq, Eq)]
pub struct OerFront;

impl OerFront {
    /// The rules, as an encoder and a decoder name them.
    pub fn codec(&self) -> CodecKind
        ensures { result ≡ CodecKind.Oer }
    {
        CodecKind::Oer
    }
}

impl<T: Decode> FrontReader<T> for OerFront {
    ghost use Rattle.asn1_model.specs.Rules.{oer};
    ghost use Rattle.asn1_schema_decode.specs.Messages.{NoMessage};

    ghost rules = { oer };

    ghost refuses = { NoMessage oer T.schema };

    fn read_front(&self, alloc: Global, input: &[u8]) -> Result<(T, usize), DecodeError> {
        let (value, rest): (T, &[u8]) = crate::oer::decode_with_remainder(alloc, input)?;
        Ok((value, input.len() - rest.len()))
    }
}

/// Reads the message with which octets begin, by the canonical octet encoding rules (X.696).
#[derive(Clone, Copy, Debug, PartialEq, Eq)]
pub struct CoerFront;

impl CoerFront {
    /// The rules, as an encoder and a decoder name them.
    pub fn codec(&self) -> CodecKind
        ensures { result ≡ CodecKind.Coer }
    {
        CodecKind::Coer
    }
}

impl<T: Decode> FrontReader<T> for CoerFront {
    ghost use Rattle.asn1_model.specs.Rules.{coer};
    ghost use Rattle.asn1_schema_decode.specs.Messages.{NoMessage};

    ghost rules = { coer };

    ghost refuses = { NoMessage coer T.schema };

    fn read_front(&self, alloc: Global, input: &[u8]) -> Result<(T, usize), DecodeError> {
        let (value, rest): (T, &[u8]) = crate::coer::decode_with_remainder(alloc, input)?;
        Ok((value, input.len() - rest.len()))
    }
}
