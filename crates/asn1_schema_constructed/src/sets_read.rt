//! How SET types are decoded.
ghost use Rattle.std.specs.Prelude.{◌≡◌, OnOk, OnErr, IfErr, IfOk};
ghost use Rattle.asn1_model.specs.Value.{fields};
ghost use Rattle.asn1_schema_laws.specs.Tables.{optional_field_count};
ghost use Rattle.asn1_schema_decode.specs.Reads.{Reads, Unread};
ghost use Rattle.asn1_schema_constructed.specs.Sets.{set_type};
ghost use Rattle.asn1_schema_errors.specs.Calls.{DecoderCall, SameLevel};

use crate::Constructed;
use asn1_schema_decode::{DecodeComponents, Decoder};
use asn1_schema_errors::DecodeError;
use asn1_schema_tags::Tag;
use std::alloc::Global;

/// Decodes SET types.
pub trait DecodeSet: Decoder {
    /// Decodes a SET (X.680 27) of these components, with or without an extension marker; `optional` of its root
    /// components may be absent.
    final fn decode_set_components<C: DecodeComponents>(
        &mut self,
        alloc: Global,
        tag: Tag,
        extensible: bool,
        optional: usize,
    ) -> Result<C, DecodeError>
    where
        Self: Sized,
        requires presence_bits { optional ≡ optional_field_count C.table.root }
        requires marker { C.table.extensible ≡ extensible }
        ensures ok { IfOk result
            (λ x. Reads Self.step (set_type C.table) (Self.levels self.old) (fields (C.root x) (C.added x))
            self.old self.new) }
        ensures only { IfErr result
            (Unread Self.step Self.too_few (set_type C.table) (Self.levels self.old) self.old self.new) }
        ensures call { DecoderCall Self.has_failed (SameLevel Self.levels) self.old self.new result }
    {
        self.begin_set(tag, extensible, optional)?;
        let components = C::decode_components(alloc, self)?;
        Ok(components)
    }

    /// Decodes a SET (X.680 27). Its table of fields gives the number of root components that may be absent, and
    /// whether there is an extension marker.
    final fn decode_set<T: Constructed>(
        &mut self,
        alloc: Global,
        tag: Tag,
    ) -> Result<T, DecodeError>
    where
        Self: Sized,
        ensures ok { IfOk result
            (λ x. Reads Self.step (set_type T.table) (Self.levels self.old) (fields (T.root x) (T.added x))
            self.old self.new) }
        ensures only { IfErr result
            (Unread Self.step Self.too_few (set_type T.table) (Self.levels self.old) self.old self.new) }
        ensures call { DecoderCall Self.has_failed (SameLevel Self.levels) self.old self.new result }
    {
        let optional = T::fields().number_of_optional_and_default_fields();
        let extensible = T::is_extensible();
        self.begin_set(tag, extensible, optional)?;
        let value = T::read_fields(alloc, self)?;
        Ok(value)
    }
}

impl<D: Decoder> DecodeSet for D {}
