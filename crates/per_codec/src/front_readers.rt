//! Readers of the message with which octets begin, for each set of rules.
ghost use Rattle.std.specs.Prelude.{◌≡◌};

use asn1_schema_decode::{Decode, FrontReader};
use asn1_schema_errors::{CodecKind, DecodeError};
use std::alloc::Global;

/// Reads the message with which octets begin, by the unaligned packed encoding rules (X.691).
#[derive(Clone, Copy, Debug, PartialEq, Eq)]
pub struct UperFront;

impl UperFront {
    /// The rules, as an encoder and a decoder name them.
    pub fn codec(&self) -> CodecKind
        ensures { result ≡ CodecKind.Uper }
    {
        CodecKind::Uper
    }
}

impl<T: Decode> FrontReader<T> for UperFront {
    ghost use Rattle.asn1_model.specs.Rules.{uper};
    ghost use Rattle.asn1_schema_decode.specs.Messages.{NoMessage};

    ghost rules = { uper };

    ghost refuses = { NoMessage uper T.schema };

    fn read_front(&self, alloc: Global, input: &[u8]) -> Result<(T, usize), DecodeError> {
        let (value, rest): (T, &[u8]) = crate::uper::decode_with_remainder(alloc, input)?;
        Ok((value, input.len() - rest.len()))
    }
}

/// Reads the message with which octets begin, by the aligned packed encoding rules (X.691).
#[derive(Clone, Copy, Debug, PartialEq, Eq)]
pub struct AperFront;

impl AperFront {
    /// The rules, as an encoder and a decoder name them.
    pub fn codec(&self) -> CodecKind
        ensures { result ≡ CodecKind.Aper }
    {
        CodecKind::Aper
    }
}

impl<T: Decode> FrontReader<T> for AperFront {
    ghost use Rattle.asn1_model.specs.Rules.{aper};
    ghost use Rattle.asn1_schema_decode.specs.Messages.{NoMessage};

    ghost rules = { aper };

    ghost refuses = { NoMessage aper T.schema };

    fn read_front(&self, alloc: Global, input: &[u8]) -> Result<(T, usize), DecodeError> {
        let (value, rest): (T, &[u8]) = crate::aper::decode_with_remainder(alloc, input)?;
        Ok((value, input.len() - rest.len()))
    }
}

/// Reads the message with which octets begin, by the unaligned packed encoding rules (X.691), strictly: only the forms
/// that an encoder writes.
#[derive(Clone, Copy, Debug, PartialEq, Eq)]
pub struct UperStrictFront;

impl UperStrictFront {
    /// The rules, as an encoder and a decoder name them.
    pub fn codec(&self) -> CodecKind
        ensures { result ≡ CodecKind.Uper }
    {
        CodecKind::Uper
    }
}

impl<T: Decode> FrontReader<T> for UperStrictFront {
    ghost use Rattle.asn1_model.specs.Rules.{uper_strict};
    ghost use Rattle.asn1_schema_decode.specs.Messages.{NoMessage};

    ghost rules = { uper_strict };

    ghost refuses = { NoMessage uper_strict T.schema };

    fn read_front(&self, alloc: Global, input: &[u8]) -> Result<(T, usize), DecodeError> {
        let (value, rest): (T, &[u8]) = crate::uper_strict::decode_with_remainder(alloc, input)?;
        Ok((value, input.len() - rest.len()))
    }
}

/// Reads the message with which octets begin, by the aligned packed encoding rules (X.691), strictly: only the forms
/// that an encoder writes.
#[derive(Clone, Copy, Debug, PartialEq, Eq)]
pub struct AperStrictFront;

impl AperStrictFront {
    /// The rules, as an encoder and a decoder name them.
    pub fn codec(&self) -> CodecKind
        ensures { result ≡ CodecKind.Aper }
    {
        CodecKind::Aper
    }
}

impl<T: Decode> FrontReader<T> for AperStrictFront {
    ghost use Rattle.asn1_model.specs.Rules.{aper_strict};
    ghost use Rattle.asn1_schema_decode.specs.Messages.{NoMessage};

    ghost rules = { aper_strict };

    ghost refuses = { NoMessage aper_strict T.schema };

    fn read_front(&self, alloc: Global, input: &[u8]) -> Result<(T, usize), DecodeError> {
        let (value, rest): (T, &[u8]) = crate::aper_strict::decode_with_remainder(alloc, input)?;
        Ok((value, input.len() - rest.len()))
    }
}
