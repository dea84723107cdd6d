//! Messages of a type of a table.
#![tactic(auto, using(std::proofs::lemmas::Grind::common_steps))]

ghost use Rattle.asn1_table_nodes.specs.Meaning.{type_at};
ghost use Rattle.asn1_table_tape.specs.Records.{records_of};
ghost use Rattle.asn1_table_relay.specs.Tapes.{StandsFor};

use crate::codecs::{FIRST_CAPACITY, read_front, write};
use asn1_relay_core::{Codec, MessageSchema, MessageType};
use asn1_schema_decode::Refusal;
use asn1_schema_errors::EncodeError;
use asn1_table_tape::Event;
use asn1_table_types::Types;
use std::alloc::Global;
use std::mem;

/// The messages of a type of a table. An index outside the table is that of a type without values.
#[derive(Drop)]
pub struct TableType<'a> {
    /// The table.
    pub types: &'a Types,
    /// The index of the type.
    pub place: usize,
}

impl<'a> MessageSchema for TableType<'a> {
    ghost schema = { λ t _. type_at t.types.now.nodes.items 128 t.place };
}

impl<'a> MessageType for TableType<'a> {
    type Value = Vec<Event>;

    ghost means = { λ t tape v. StandsFor (type_at t.types.now.nodes.items 128 t.place)
        (records_of t.types.now.nodes.items tape.items) v };

    fn read_front<'input>(
        &self,
        alloc: Global,
        from: Codec,
        input: &'input [u8],
    ) -> Result<(Vec<Event>, &'input [u8]), Refusal> {
        read_front(alloc, self.types, self.place, from, input)
    }

    fn write(&self, alloc: Global, to: Codec, tape: &Vec<Event>) -> Result<Vec<u8>, EncodeError> {
        let room = Vec::with_capacity(alloc, FIRST_CAPACITY)?;
        match write(alloc, self.types, to, tape.as_slice(), room) {
            Ok(octets) => Ok(octets),
            Err(error) => Err(error),
        }
    }

    fn write_into(
        &self,
        alloc: Global,
        to: Codec,
        tape: &Vec<Event>,
        room: &mut Vec<u8>,
        out: &mut Vec<u8>,
    ) -> Result<(), EncodeError> {
        let cleared = mem::replace(room, Vec::new(alloc));
        match write(alloc, self.types, to, tape.as_slice(), cleared) {
            Ok(octets) => {
                *room = octets;
                out.extend_from_slice(room.as_slice())?;
                Ok(())
            }
            Err(error) => Err(error),
        }
    }

    ghost lawful = { λ t. t.types.now.lawful 128 t.place };

    ghost valued = { λ t tape v m. m.is_value };
}
