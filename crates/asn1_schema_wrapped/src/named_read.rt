//! The calls of a decoder, by the names of types.
ghost use Rattle.std.specs.Prelude.{◌≡◌, OnOk, OnErr, IfOk, IfErr};
ghost use Rattle.asn1_model.specs.Schema.{visible, ia5, printable, numeric, general, graphic, teletex, bmp};
ghost use Rattle.asn1_model.specs.Schema.{any_count, any_size};
ghost use Rattle.asn1_schema_types.specs.Told.{characters_under, asks_characters_under};
ghost use Rattle.asn1_schema_decode.specs.Reads.{NoRecord, Reads, Unread};
ghost use Rattle.asn1_schema_laws.specs.Records.{octets, asks_octets};
ghost use Rattle.asn1_schema_errors.specs.Calls.{DecoderCall, SameLevel};

use crate::Any;
use asn1_schema_constraints::{Bounded, Constraints};
use asn1_schema_decode::{Decode, Decoder, ReadOctets};
use asn1_schema_errors::DecodeError;
use asn1_schema_tags::Tag;
use asn1_values_strings::{
    BmpString, GeneralString, GraphicString, Ia5String, NumericString, PrintableString,
    TeletexString, VisibleString,
};
use std::alloc::Global;

/// Decodes values, by the names of types.
pub trait DecodeNamed: Decoder {
    /// A value of any type, as its octets: OCTET STRING (X.680 23) without constraints. After an error the
    /// decoder has failed.
    final fn decode_any(&mut self, alloc: Global, tag: Tag) -> Result<Any, DecodeError>
    where
        Self: Sized,
        ensures ok { IfOk result (λ x. Self.step self.old (octets any_size any_count x) self.new) }
        ensures only { IfErr result
            (NoRecord Self.step Self.too_few (asks_octets any_size any_count) self.old self.new) }
        ensures call { DecoderCall Self.has_failed (SameLevel Self.levels) self.old self.new result }
    {
        let octets = self.decode_octet_string(alloc, tag, &Constraints::NONE, Bounded::None)?;
        let Ok(owned) = octets.into_vec(alloc) else {
            return Err(self.refuse(DecodeError::OutOfMemory));
        };
        Ok(Any::new(owned))
    }

    /// A value with a further, explicit tag (X.680 31.2.8), which PER and OER do not encode. After an error the decoder
    /// has failed.
    final fn decode_explicit_prefix<T: Decode>(
        &mut self,
        alloc: Global,
        _tag: Tag,
    ) -> Result<T, DecodeError>
    where
        Self: Sized,
        ensures ok { IfOk result
            (λ x. Reads Self.step T.schema (Self.levels self.old) (T.meaning x) self.old self.new) }
        ensures only { IfErr result (Unread Self.step Self.too_few T.schema (Self.levels self.old) self.old self.new) }
        ensures call { DecoderCall Self.has_failed (SameLevel Self.levels) self.old self.new result }
    {
        T::decode(alloc, self)
    }

    /// VisibleString (X.680 41) under size and alphabet constraints.
    final fn decode_visible_string(
        &mut self,
        alloc: Global,
        tag: Tag,
        constraints: &Constraints,
    ) -> Result<VisibleString, DecodeError>
    where
        Self: Sized,
        ensures ok { IfOk result (λ x. Self.step self.old (characters_under visible constraints.now x) self.new) }
        ensures only { IfErr result
            (NoRecord Self.step Self.too_few (asks_characters_under visible constraints.now) self.old self.new) }
        ensures call { DecoderCall Self.has_failed (SameLevel Self.levels) self.old self.new result }
    {
        self.decode_characters(alloc, tag, constraints)
    }

    /// IA5String (X.680 41) under size and alphabet constraints.
    final fn decode_ia5_string(
        &mut self,
        alloc: Global,
        tag: Tag,
        constraints: &Constraints,
    ) -> Result<Ia5String, DecodeError>
    where
        Self: Sized,
        ensures ok { IfOk result (λ x. Self.step self.old (characters_under ia5 constraints.now x) self.new) }
        ensures only { IfErr result
            (NoRecord Self.step Self.too_few (asks_characters_under ia5 constraints.now) self.old self.new) }
        ensures call { DecoderCall Self.has_failed (SameLevel Self.levels) self.old self.new result }
    {
        self.decode_characters(alloc, tag, constraints)
    }

    /// PrintableString (X.680 41) under size and alphabet constraints.
    final fn decode_printable_string(
        &mut self,
        alloc: Global,
        tag: Tag,
        constraints: &Constraints,
    ) -> Result<PrintableString, DecodeError>
    where
        Self: Sized,
        ensures ok { IfOk result (λ x. Self.step self.old (characters_under printable constraints.now x) self.new) }
        ensures only { IfErr result
            (NoRecord Self.step Self.too_few (asks_characters_under printable constraints.now) self.old self.new) }
        ensures call { DecoderCall Self.has_failed (SameLevel Self.levels) self.old self.new result }
    {
        self.decode_characters(alloc, tag, constraints)
    }

    /// NumericString (X.680 41) under size and alphabet constraints.
    final fn decode_numeric_string(
        &mut self,
        alloc: Global,
        tag: Tag,
        constraints: &Constraints,
    ) -> Result<NumericString, DecodeError>
    where
        Self: Sized,
        ensures ok { IfOk result (λ x. Self.step self.old (characters_under numeric constraints.now x) self.new) }
        ensures only { IfErr result
            (NoRecord Self.step Self.too_few (asks_characters_under numeric constraints.now) self.old self.new) }
        ensures call { DecoderCall Self.has_failed (SameLevel Self.levels) self.old self.new result }
    {
        self.decode_characters(alloc, tag, constraints)
    }

    /// GeneralString (X.680 41) under size and alphabet constraints.
    final fn decode_general_string(
        &mut self,
        alloc: Global,
        tag: Tag,
        constraints: &Constraints,
    ) -> Result<GeneralString, DecodeError>
    where
        Self: Sized,
        ensures ok { IfOk result (λ x. Self.step self.old (characters_under general constraints.now x) self.new) }
        ensures only { IfErr result
            (NoRecord Self.step Self.too_few (asks_characters_under general constraints.now) self.old self.new) }
        ensures call { DecoderCall Self.has_failed (SameLevel Self.levels) self.old self.new result }
    {
        self.decode_characters(alloc, tag, constraints)
    }

    /// GraphicString (X.680 41) under size and alphabet constraints.
    final fn decode_graphic_string(
        &mut self,
        alloc: Global,
        tag: Tag,
        constraints: &Constraints,
    ) -> Result<GraphicString, DecodeError>
    where
        Self: Sized,
        ensures ok { IfOk result (λ x. Self.step self.old (characters_under graphic constraints.now x) self.new) }
        ensures only { IfErr result
            (NoRecord Self.step Self.too_few (asks_characters_under graphic constraints.now) self.old self.new) }
        ensures call { DecoderCall Self.has_failed (SameLevel Self.levels) self.old self.new result }
    {
        self.decode_characters(alloc, tag, constraints)
    }

    /// TeletexString (X.680 41) under size and alphabet constraints.
    final fn decode_teletex_string(
        &mut self,
        alloc: Global,
        tag: Tag,
        constraints: &Constraints,
    ) -> Result<TeletexString, DecodeError>
    where
        Self: Sized,
        ensures ok { IfOk result (λ x. Self.step self.old (characters_under teletex constraints.now x) self.new) }
        ensures only { IfErr result
            (NoRecord Self.step Self.too_few (asks_characters_under teletex constraints.now) self.old self.new) }
        ensures call { DecoderCall Self.has_failed (SameLevel Self.levels) self.old self.new result }
    {
        self.decode_characters(alloc, tag, constraints)
    }

    /// BMPString (X.680 41) under size and alphabet constraints.
    final fn decode_bmp_string(
        &mut self,
        alloc: Global,
        tag: Tag,
        constraints: &Constraints,
    ) -> Result<BmpString, DecodeError>
    where
        Self: Sized,
        ensures ok { IfOk result (λ x. Self.step self.old (characters_under bmp constraints.now x) self.new) }
        ensures only { IfErr result
            (NoRecord Self.step Self.too_few (asks_characters_under bmp constraints.now) self.old self.new) }
        ensures call { DecoderCall Self.has_failed (SameLevel Self.levels) self.old self.new result }
    {
        self.decode_characters(alloc, tag, constraints)
    }
}

impl<D: Decoder> DecodeNamed for D {}
