//! How CHOICE types are encoded.
ghost use Rattle.std.specs.Prelude.{◌≡◌, OnOk, OnErr, IfErr};
ghost use Rattle.asn1_schema_constraints.specs.Terms.{meant};
ghost use Rattle.asn1_schema_encode.specs.Writes.{Refused, Writes, CannotWrite};
ghost use Rattle.asn1_schema_constructed.specs.Chosen.{begins};
ghost use Rattle.asn1_schema_errors.specs.Calls.{EncoderCall};

use crate::alternatives::{Alternatives, Choice, tag_tables_of};
use asn1_schema_constraints::Constraints;
use asn1_schema_encode::Encoder;
use asn1_schema_errors::EncodeError;
use asn1_schema_tags::{Chosen, Tag};

/// Encodes CHOICE types.
pub trait EncodeChoice: Encoder {
    /// Encodes a CHOICE (X.680 29).
    final fn encode_choice<T: Choice>(
        &mut self,
        tag: Tag,
        constraints: &Constraints,
        value: &T,
    ) -> Result<(), EncodeError>
    where
        Self: Sized,
        ensures ok { OnOk result
            (Writes Self.step (T.under (meant constraints.now)) (T.meaning value.now) self.old self.new) }
        ensures only { IfErr result
            (CannotWrite Self.step (T.under (meant constraints.now)) (T.meaning value.now) self.old) }
        ensures call { EncoderCall Self.has_failed Self.front self.old self.new result }
    {
        self.begin_alternative::<T>(tag, value.chosen())?;
        value.write_chosen(self)?;
        self.end()?;
        Ok(())
    }

    /// Begins a CHOICE with the chosen one of its alternatives. Recursive choices are encoded with it.
    final fn begin_alternative<C: Alternatives>(
        &mut self,
        tag: Tag,
        chosen: Chosen,
    ) -> Result<(), EncodeError>
    where
        Self: Sized,
        ensures ok { OnOk result (Self.step self.old (begins C.table chosen.added chosen.place) self.new) }
        ensures only { IfErr result (Refused Self.step (begins C.table chosen.added chosen.place) self.old) }
        ensures call { EncoderCall Self.has_failed Self.front self.old self.new result }
    {
        let tables = tag_tables_of::<C>();
        self.begin_choice(
            tag,
            tables.roots(),
            tables.extensible(),
            tables.additions(),
            chosen,
        )?;
        Ok(())
    }
}

impl<E: Encoder> EncodeChoice for E {}
