//! The calls of an encoder, by the names of types.
ghost use Rattle.std.specs.Prelude.{◌≡◌, OnOk, OnErr, IfErr};
ghost use Rattle.asn1_model.specs.Schema.{visible, ia5, printable, numeric, general, graphic, teletex, bmp};
ghost use Rattle.asn1_model.specs.Schema.{any_count, any_size};
ghost use Rattle.asn1_schema_encode.specs.Writes.{Refused, Writes, CannotWrite};
ghost use Rattle.asn1_schema_laws.specs.Records.{octets};
ghost use Rattle.asn1_schema_types.specs.Told.{characters_under};
ghost use Rattle.asn1_schema_errors.specs.Calls.{EncoderCall};

use crate::Any;
use asn1_schema_constraints::{Bounded, Constraints};
use asn1_schema_encode::{Encode, Encoder};
use asn1_schema_errors::EncodeError;
use asn1_schema_tags::{Identifier, Tag};
use asn1_values_strings::{
    BmpString, GeneralString, GraphicString, Ia5String, NumericString, PrintableString,
    TeletexString, VisibleString,
};

/// Encodes values, by the names of types.
pub trait EncodeNamed: Encoder {
    /// A value of any type, as its octets: OCTET STRING (X.680 23) without constraints.
    final fn encode_any(
        &mut self,
        tag: Tag,
        value: &Any,
        identifier: Identifier,
    ) -> Result<(), EncodeError>
    where
        Self: Sized,
        ensures ok { OnOk result (Self.step self.old (octets any_size any_count value.now) self.new) }
        ensures only { IfErr result (Refused Self.step (octets any_size any_count value.now) self.old) }
        ensures call { EncoderCall Self.has_failed Self.front self.old self.new result }
    {
        self.encode_octet_string(
            tag,
            &Constraints::NONE,
            Bounded::None,
            value.as_bytes(),
            identifier,
        )
    }

    /// A value with a further, explicit tag (X.680 31.2.8), which PER and OER do not encode.
    final fn encode_explicit_prefix<T: Encode>(
        &mut self,
        _tag: Tag,
        value: &T,
        _identifier: Identifier,
    ) -> Result<(), EncodeError>
    where
        Self: Sized,
        ensures ok { OnOk result (Writes Self.step T.schema (T.meaning value.now) self.old self.new) }
        ensures only { IfErr result (CannotWrite Self.step T.schema (T.meaning value.now) self.old) }
        ensures call { EncoderCall Self.has_failed Self.front self.old self.new result }
    {
        value.encode(self)
    }

    /// VisibleString (X.680 41) under size and alphabet constraints.
    final fn encode_visible_string(
        &mut self,
        tag: Tag,
        constraints: &Constraints,
        value: &VisibleString,
        identifier: Identifier,
    ) -> Result<(), EncodeError>
    where
        Self: Sized,
        ensures ok { OnOk result (Self.step self.old (characters_under visible constraints.now value.now) self.new) }
        ensures only { IfErr result
            (Refused Self.step (characters_under visible constraints.now value.now) self.old) }
        ensures call { EncoderCall Self.has_failed Self.front self.old self.new result }
    {
        self.encode_characters(tag, constraints, value, identifier)
    }

    /// IA5String (X.680 41) under size and alphabet constraints.
    final fn encode_ia5_string(
        &mut self,
        tag: Tag,
        constraints: &Constraints,
        value: &Ia5String,
        identifier: Identifier,
    ) -> Result<(), EncodeError>
    where
        Self: Sized,
        ensures ok { OnOk result (Self.step self.old (characters_under ia5 constraints.now value.now) self.new) }
        ensures only { IfErr result (Refused Self.step (characters_under ia5 constraints.now value.now) self.old) }
        ensures call { EncoderCall Self.has_failed Self.front self.old self.new result }
    {
        self.encode_characters(tag, constraints, value, identifier)
    }

    /// PrintableString (X.680 41) under size and alphabet constraints.
    final fn encode_printable_string(
        &mut self,
        tag: Tag,
        constraints: &Constraints,
        value: &PrintableString,
        identifier: Identifier,
    ) -> Result<(), EncodeError>
    where
        Self: Sized,
        ensures ok { OnOk result
            (Self.step self.old (characters_under printable constraints.now value.now) self.new) }
        ensures only { IfErr result
            (Refused Self.step (characters_under printable constraints.now value.now) self.old) }
        ensures call { EncoderCall Self.has_failed Self.front self.old self.new result }
    {
        self.encode_characters(tag, constraints, value, identifier)
    }

    /// NumericString (X.680 41) under size and alphabet constraints.
    final fn encode_numeric_string(
        &mut self,
        tag: Tag,
        constraints: &Constraints,
        value: &NumericString,
        identifier: Identifier,
    ) -> Result<(), EncodeError>
    where
        Self: Sized,
        ensures ok { OnOk result (Self.step self.old (characters_under numeric constraints.now value.now) self.new) }
        ensures only { IfErr result
            (Refused Self.step (characters_under numeric constraints.now value.now) self.old) }
        ensures call { EncoderCall Self.has_failed Self.front self.old self.new result }
    {
        self.encode_characters(tag, constraints, value, identifier)
    }

    /// GeneralString (X.680 41) under size and alphabet constraints.
    final fn encode_general_string(
        &mut self,
        tag: Tag,
        constraints: &Constraints,
        value: &GeneralString,
        identifier: Identifier,
    ) -> Result<(), EncodeError>
    where
        Self: Sized,
        ensures ok { OnOk result (Self.step self.old (characters_under general constraints.now value.now) self.new) }
        ensures only { IfErr result
            (Refused Self.step (characters_under general constraints.now value.now) self.old) }
        ensures call { EncoderCall Self.has_failed Self.front self.old self.new result }
    {
        self.encode_characters(tag, constraints, value, identifier)
    }

    /// GraphicString (X.680 41) under size and alphabet constraints.
    final fn encode_graphic_string(
        &mut self,
        tag: Tag,
        constraints: &Constraints,
        value: &GraphicString,
        identifier: Identifier,
    ) -> Result<(), EncodeError>
    where
        Self: Sized,
        ensures ok { OnOk result (Self.step self.old (characters_under graphic constraints.now value.now) self.new) }
        ensures only { IfErr result
            (Refused Self.step (characters_under graphic constraints.now value.now) self.old) }
        ensures call { EncoderCall Self.has_failed Self.front self.old self.new result }
    {
        self.encode_characters(tag, constraints, value, identifier)
    }

    /// TeletexString (X.680 41) under size and alphabet constraints.
    final fn encode_teletex_string(
        &mut self,
        tag: Tag,
        constraints: &Constraints,
        value: &TeletexString,
        identifier: Identifier,
    ) -> Result<(), EncodeError>
    where
        Self: Sized,
        ensures ok { OnOk result (Self.step self.old (characters_under teletex constraints.now value.now) self.new) }
        ensures only { IfErr result
            (Refused Self.step (characters_under teletex constraints.now value.now) self.old) }
        ensures call { EncoderCall Self.has_failed Self.front self.old self.new result }
    {
        self.encode_characters(tag, constraints, value, identifier)
    }

    /// BMPString (X.680 41) under size and alphabet constraints.
    final fn encode_bmp_string(
        &mut self,
        tag: Tag,
        constraints: &Constraints,
        value: &BmpString,
        identifier: Identifier,
    ) -> Result<(), EncodeError>
    where
        Self: Sized,
        ensures ok { OnOk result (Self.step self.old (characters_under bmp constraints.now value.now) self.new) }
        ensures only { IfErr result (Refused Self.step (characters_under bmp constraints.now value.now) self.old) }
        ensures call { EncoderCall Self.has_failed Self.front self.old self.new result }
    {
        self.encode_characters(tag, constraints, value, identifier)
    }
}

impl<E: Encoder> EncodeNamed for E {}
