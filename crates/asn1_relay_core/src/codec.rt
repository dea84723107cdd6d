//! The sets of encoding rules.
ghost use Rattle.std.specs.Prelude.{◌≡◌, ◌++◌, List, ℕ, Some, IfOk, IfErr, OnErr, OnOk};
ghost use Rattle.asn1_schema_decode.specs.Messages.{NeedsMore, NoMessage, Tells};
ghost use Rattle.asn1_relay_core.specs.Coding.{rules_of, kind_of, IsWritten, NotWritten};
ghost use Rattle.asn1_schema_encode.specs.Written.{IsOfValue};

use asn1_schema_decode::{Decode, Refusal};
use asn1_schema_encode::Encode;
use asn1_schema_errors::{CodecKind, DecodeError, EncodeError};
use oer_codec::{coer, oer};
use per_codec::{aper, aper_strict, uper, uper_strict};
use std::alloc::Global;

/// A set of encoding rules.
#[derive(Clone, Copy, Debug, PartialEq, Eq)]
pub enum Codec {
    /// The unaligned packed encoding rules (X.691).
    Uper,
    /// The aligned packed encoding rules (X.691).
    Aper,
    /// UPER with a strict reader: values are written as in UPER, and only what UPER writes is read, except that a
    /// presence bitmap of extension additions may have any width if a bit of it is set (X.691 19.7), that it may
    /// describe additions unknown to the type, and that the elements of a SET OF may come in any order (X.691 22).
    UperStrict,
    /// APER with a strict reader, with the same three exceptions.
    AperStrict,
    /// The basic octet encoding rules (X.696).
    Oer,
    /// The canonical octet encoding rules (X.696).
    Coer,
}

impl Codec {
    /// Which of the four codecs encodes and decodes by these rules; strict UPER belongs to UPER, and strict APER to
    /// APER.
    pub fn kind(self) -> CodecKind
        ensures { result ≡ kind_of self }
    {
        match self {
            Codec::Uper | Codec::UperStrict => CodecKind::Uper,
            Codec::Aper | Codec::AperStrict => CodecKind::Aper,
            Codec::Oer => CodecKind::Oer,
            Codec::Coer => CodecKind::Coer,
        }
    }

    /// Encodes a value canonically by these rules, and returns all octets of the message.
    ///
    /// # Errors
    ///
    /// `OutOfMemory` if memory runs out, and `TooLongValue` for an encoding of 2^60 octets or more. Otherwise it fails
    /// only if the value has no encoding, for example because it violates a constraint.
    pub fn encode<T: Encode>(self, alloc: Global, value: &T) -> Result<Vec<u8>, EncodeError>
        ensures ok { IfOk result
            (λ octets. IsWritten (rules_of self) T.schema (T.meaning value.now) (Some octets.items)) }
        ensures only { IfErr result (NotWritten (rules_of self) T.schema (T.meaning value.now)) }
        ensures kinds { IfErr result IsOfValue }
    {
        let octets = match self {
            Codec::Uper | Codec::UperStrict => uper::encode(alloc, value)?,
            Codec::Aper | Codec::AperStrict => aper::encode(alloc, value)?,
            Codec::Oer => oer::encode(alloc, value)?,
            Codec::Coer => coer::encode(alloc, value)?,
        };
        Ok(octets)
    }

    /// Appends the canonical encoding of a value by these rules to the octets in `out`. That of PER is first written in
    /// `room`, whose contents it replaces. The octets need no memory if both have capacity for them (OER: `out`).
    ///
    /// # Errors
    ///
    /// As for `encode`; `out` then has its previous contents, and `room` may have lost its capacity.
    pub fn encode_into<T: Encode>(
        self,
        alloc: Global,
        value: &T,
        room: &mut Vec<u8>,
        out: &mut Vec<u8>,
    ) -> Result<(), EncodeError>
        ensures ok { OnOk result ((octets : List ℕ)
            × IsWritten (rules_of self) T.schema (T.meaning value.now) (Some octets)
            × (out.new.items ≡ out.old.items ++ octets)) }
        ensures only { IfErr result (NotWritten (rules_of self) T.schema (T.meaning value.now)) }
        ensures kinds { IfErr result IsOfValue }
        ensures same { OnErr result (out.new.items ≡ out.old.items) }
    {
        match self {
            Codec::Oer => return oer::encode_buf(alloc, value, out),
            Codec::Coer => return coer::encode_buf(alloc, value, out),
            Codec::Uper | Codec::UperStrict => uper::encode_buf(alloc, value, room)?,
            Codec::Aper | Codec::AperStrict => aper::encode_buf(alloc, value, room)?,
        }
        out.extend_from_slice(room.as_slice())?;
        Ok(())
    }

    /// Decodes the value whose encoding by these rules begins the input. Octets after that encoding are ignored.
    ///
    /// # Errors
    ///
    /// `OutOfMemory` if memory runs out. Otherwise it fails only if no prefix of the input, of fewer than 2^60 octets,
    /// is an encoding of a value with at most 128 nested levels.
    pub fn decode<T: Decode>(self, alloc: Global, input: &[u8]) -> Result<T, DecodeError>
        ensures ok { IfOk result (λ x. (rest : List ℕ) × Tells (rules_of self) T.schema (T.meaning x) input.now rest) }
        ensures only { IfErr result (NoMessage (rules_of self) T.schema input.now) }
        ensures fresh { IfErr result (λ e. e ≡ DecodeError.AlreadyFailed → ⊥) }
    {
        let (value, _rest) = self.read_front(alloc, input)?;
        Ok(value)
    }

    /// Decodes the value whose encoding by these rules begins the input, and borrows the octets after that encoding.
    ///
    /// # Errors
    ///
    /// As for `decode`.
    pub fn read_front<'input, T: Decode>(
        self,
        alloc: Global,
        input: &'input [u8],
    ) -> Result<(T, &'input [u8]), DecodeError>
        ensures ok { IfOk result (λ x. Tells (rules_of self) T.schema (T.meaning x.0) input.now x.1.now) }
        ensures only { IfErr result (NoMessage (rules_of self) T.schema input.now) }
        ensures fresh { IfErr result (λ e. e ≡ DecodeError.AlreadyFailed → ⊥) }
    {
        let front = match self {
            Codec::Uper => uper::decode_with_remainder(alloc, input)?,
            Codec::Aper => aper::decode_with_remainder(alloc, input)?,
            Codec::UperStrict => uper_strict::decode_with_remainder(alloc, input)?,
            Codec::AperStrict => aper_strict::decode_with_remainder(alloc, input)?,
            Codec::Oer => oer::decode_with_remainder(alloc, input)?,
            Codec::Coer => coer::decode_with_remainder(alloc, input)?,
        };
        Ok(front)
    }

    /// As `read_front`, but the error also says how many more octets are needed at least.
    ///
    /// # Errors
    ///
    /// As for `read_front`.
    pub(crate) fn decode_or_need<'input, T: Decode>(
        self,
        alloc: Global,
        input: &'input [u8],
    ) -> Result<(T, &'input [u8]), Refusal>
        ensures ok { IfOk result (λ x. Tells (rules_of self) T.schema (T.meaning x.0) input.now x.1.now) }
        ensures only { IfErr result (λ x. NoMessage (rules_of self) T.schema input.now x.error) }
        ensures needed { IfErr result (λ x. NeedsMore (rules_of self) T.schema input.now x.needed x.error) }
        ensures fresh { IfErr result (λ x. x.error ≡ DecodeError.AlreadyFailed → ⊥) }
    {
        let front = match self {
            Codec::Uper => uper::decode_or_need(alloc, input)?,
            Codec::Aper => aper::decode_or_need(alloc, input)?,
            Codec::UperStrict => uper_strict::decode_or_need(alloc, input)?,
            Codec::AperStrict => aper_strict::decode_or_need(alloc, input)?,
            Codec::Oer => oer::decode_or_need(alloc, input)?,
            Codec::Coer => coer::decode_or_need(alloc, input)?,
        };
        Ok(front)
    }
}
