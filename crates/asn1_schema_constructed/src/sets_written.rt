//! How SET types are encoded.
ghost use Rattle.std.specs.Prelude.{◌≡◌, OnOk, OnErr, IfErr};
ghost use Rattle.asn1_model.specs.Value.{fields};
ghost use Rattle.asn1_schema_laws.specs.Tables.{optional_field_count};
ghost use Rattle.asn1_schema_encode.specs.Writes.{Writes, CannotWrite};
ghost use Rattle.asn1_schema_constructed.specs.Sets.{set_type};
ghost use Rattle.asn1_schema_errors.specs.Calls.{EncoderCall};

use crate::Constructed;
use asn1_schema_encode::{EncodeComponents, Encoder};
use asn1_schema_errors::EncodeError;
use asn1_schema_tags::{Identifier, Tag};

/// Encodes SET types.
pub trait EncodeSet: Encoder {
    /// Encodes a SET (X.680 27) of these components, with or without an extension marker; `optional` of its root
    /// components may be absent.
    final fn encode_set_components<C: EncodeComponents>(
        &mut self,
        tag: Tag,
        extensible: bool,
        optional: usize,
        components: &C,
    ) -> Result<(), EncodeError>
    where
        Self: Sized,
        requires presence_bits { optional ≡ optional_field_count C.table.root }
        requires marker { C.table.extensible ≡ extensible }
        ensures ok { OnOk result
            (Writes Self.step (set_type C.table) (fields (C.root components.now) (C.added components.now)) self.old
            self.new) }
        ensures only { IfErr result
            (CannotWrite Self.step (set_type C.table) (fields (C.root components.now) (C.added components.now))
            self.old) }
        ensures call { EncoderCall Self.has_failed Self.front self.old self.new result }
    {
        self.begin_set(tag, extensible, optional)?;
        components.encode_components(self)?;
        Ok(())
    }

    /// Encodes a SET (X.680 27). Its table of fields gives the number of root components that may be absent, and
    /// whether there is an extension marker.
    final fn encode_set<T: Constructed>(
        &mut self,
        tag: Tag,
        value: &T,
        _identifier: Identifier,
    ) -> Result<(), EncodeError>
    where
        Self: Sized,
        ensures ok { OnOk result
            (Writes Self.step (set_type T.table) (fields (T.root value.now) (T.added value.now)) self.old self.new) }
        ensures only { IfErr result
            (CannotWrite Self.step (set_type T.table) (fields (T.root value.now) (T.added value.now)) self.old) }
        ensures call { EncoderCall Self.has_failed Self.front self.old self.new result }
    {
        let optional = T::fields().number_of_optional_and_default_fields();
        let extensible = T::is_extensible();
        self.begin_set(tag, extensible, optional)?;
        value.write_fields(self)?;
        Ok(())
    }
}

impl<E: Encoder> EncodeSet for E {}
