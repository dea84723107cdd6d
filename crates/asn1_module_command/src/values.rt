//! Values of a type of a table are read and written in any form.
ghost use Rattle.std.specs.Prelude.{◌≡◌, IfOk};
ghost use Rattle.asn1_table_building.specs.Built.{IsTapeOf};
ghost use Rattle.asn1_relay_core.specs.Coding.{rules_of};
ghost use Rattle.asn1_relay_core.specs.MessageTypes.{WrittenAs};
ghost use Rattle.asn1_table_relay.specs.Tapes.{StandsFor};
ghost use Rattle.asn1_table_tape.specs.Records.{records_of};
ghost use Rattle.asn1_module_command.specs.Runs.{IsEncoding, schema_in};

use crate::errors::CommandError;
use asn1_module_order::Form;
use asn1_notation_types::Table;
use asn1_relay_command::Fault;
use asn1_relay_core::{Codec, DecodeError, EncodeError, MessageType};
use asn1_table_json_reading::{JsonError, JsonErrorKind, read_json};
use asn1_table_json_writing::{Style, write_json};
use asn1_table_relay::TableType;
use asn1_table_tape::Event;
use std::alloc::Global;
use std::str;

/// A type of a table, and where memory comes from.
#[derive(Clone, Copy)]
pub(crate) struct Typed<'a> {
    pub(crate) alloc: Global,
    pub(crate) table: &'a Table,
}

impl<'a> Typed<'a> {
    /// The type, as a relay takes it.
    pub(crate) fn message_type(self) -> TableType<'a>
        ensures types { result.types.now ≡ self.entry.table.now.types }
        ensures place { result.place ≡ self.entry.table.now.place }
    {
        TableType {
            types: &self.table.types,
            place: self.table.place,
        }
    }

    /// The tape of the value of a message.
    ///
    /// # Errors
    ///
    /// `Located` or `Json` if the octets are no message of the type in this form; `OutOfMemory`.
    pub(crate) fn read(self, from: Form, message: &[u8]) -> Result<Vec<Event>, CommandError> {
        match from {
            Form::Rules(rules) => {
                let fault = match self.message_type().read_front(self.alloc, rules, message) {
                    Ok((tape, [])) => return Ok(tape),
                    Ok(_) => Fault::SurplusOctets,
                    Err(refusal) => read_fault(refusal.error),
                };
                Err(self.explained(rules, message, fault))
            }
            Form::Json => Ok(self.read_text(message)?),
        }
    }

    /// The tape of the value that is in JSON (X.697).
    pub(crate) fn read_text(self, text: &[u8]) -> Result<Vec<Event>, JsonError>
        ensures { IfOk result
            (λ tape. IsTapeOf self.entry.table.now.types.nodes.items (schema_in self.entry.table.now) tape.items) }
    {
        let table = self.table;
        match str::from_utf8(text) {
            Ok(text) => read_json(self.alloc, &table.types, &table.names, table.place, text),
            Err(_) => Err(JsonError {
                kind: JsonErrorKind::NotJson,
                path: String::new(self.alloc),
                offset: 0,
            }),
        }
    }

    /// The canonical encoding of the value that is in JSON (X.697).
    ///
    /// # Errors
    ///
    /// `Json` if the text is that of no value of the type, `NoTargetEncoding` if the value has no encoding.
    pub(crate) fn encode_text(self, rules: Codec, text: &[u8]) -> Result<Vec<u8>, CommandError>
        ensures { IfOk result (λ octets. IsEncoding (schema_in self.entry.table.now) rules octets.items) }
    {
        let tape = self.read_text(text)?;
        self.encode(rules, &tape)
    }

    /// The canonical encoding of a value.
    pub(crate) fn encode(self, rules: Codec, tape: &Vec<Event>) -> Result<Vec<u8>, CommandError>
        ensures { IfOk result (λ octets. WrittenAs (rules_of rules) (λ _. schema_in self.entry.table.now)
            (StandsFor (schema_in self.entry.table.now)
            (records_of self.entry.table.now.types.nodes.items tape.now.items)) octets.items) }
    {
        let table = self.table;
        let message_type = TableType {
            types: &table.types,
            place: table.place,
        };
        match message_type.write(self.alloc, rules, tape) {
            Ok(octets) => Ok(octets),
            Err(EncodeError::OutOfMemory) => Err(CommandError::Fault(Fault::OutOfMemory)),
            Err(_) => Err(CommandError::Fault(Fault::NoTargetEncoding)),
        }
    }

    /// The octets of a value; for JSON a text that ends with the end of a line.
    ///
    /// # Errors
    ///
    /// `NoTargetEncoding` or `NoJson` if the value has none in this form.
    pub(crate) fn write(
        self,
        to: Form,
        style: Style,
        tape: &Vec<Event>,
    ) -> Result<Vec<u8>, CommandError> {
        match to {
            Form::Rules(rules) => self.encode(rules, tape),
            Form::Json => self.write_text(style, tape.as_slice()),
        }
    }

    /// The JSON of a value (X.697), and the end of a line.
    pub(crate) fn write_text(self, style: Style, tape: &[Event]) -> Result<Vec<u8>, CommandError> {
        let table = self.table;
        let text = write_json(
            self.alloc,
            &table.types,
            &table.names,
            table.place,
            tape,
            style,
        )?;
        let mut octets = Vec::new(self.alloc);
        octets.extend_from_slice(text.as_bytes())?;
        octets.push(b'\n')?;
        Ok(octets)
    }
}

/// Why octets are no message, as the program says it.
fn read_fault(error: DecodeError) -> Fault {
    if error == DecodeError::OutOfMemory {
        return Fault::OutOfMemory;
    }
    Fault::NotAnEncoding
}
