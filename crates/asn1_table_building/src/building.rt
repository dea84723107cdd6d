//! A tape is built from its records.
#![tactic(auto, using(std::proofs::lemmas::Grind::common_steps))]

ghost use Rattle.std.specs.Prelude.{◌≡◌, IfOk, IfErr, IfSome, map};
ghost use Rattle.asn1_schema_records.specs.Kept.{kept, record_of};
ghost use Rattle.asn1_table_tape.specs.Records.{records_of};
ghost use Rattle.asn1_table_nodes.specs.Meaning.{type_at};
ghost use Rattle.asn1_table_building.specs.Built.{IsBuilt, NotBuilt};

use crate::BuildError;
use crate::admitting::first_outside;
use asn1_schema_errors::{CodecKind, DecodeError};
use asn1_schema_records::{Item, RecordDecoder, RecordEncoder};
use asn1_table_tape::{Event, replay};
use asn1_table_types::Types;
use asn1_table_walker::read_onto;
use std::alloc::Global;

/// A tape of these events, if they are the records of a value of the type at this index of a table: one that is in
/// normal form (no component is at its default), meets the constraints that count in all rules, and has at most 128
/// nested levels. An index outside the table is that of a type without values.
///
/// The tape has the right indices of types and counts of elements. Of those in the events is checked what the plain
/// codec keeps: the bounds of a number, the size of a string or list, the extension marker of an ENUMERATED or CHOICE.
///
/// # Errors
///
/// `OutOfPlace` or `OutsideConstraint` only if the events are the records of no such value; `OutOfMemory`. The index
/// is where the check stopped, and no clause says more of it.
pub fn build(
    alloc: Global,
    types: &Types,
    place: usize,
    events: &[Event],
) -> Result<Vec<Event>, BuildError>
    ensures ok { IfOk result (λ tape. IsBuilt types.now.nodes.items (type_at types.now.nodes.items 128 place)
        events.now tape.items) }
    ensures only { IfErr result
        (NotBuilt types.now.nodes.items (type_at types.now.nodes.items 128 place) events.now) }
{
    let Some(items) = kept_items(alloc, types, events) else {
        return Err(BuildError::OutOfMemory);
    };
    let mut decoder = RecordDecoder::new(items, CodecKind::Oer);
    let mut tape = Vec::new(alloc);
    match read_onto(alloc, &mut decoder, types, place, &mut tape) {
        Ok(()) => {}
        Err(error) => return Err(refused(error, tape.len())),
    }
    // One record is kept for each that was read, as events note nothing that a normal form leaves out.
    if tape.len() != events.len() {
        return Err(BuildError::OutOfPlace { index: tape.len() });
    }
    match first_outside(types, tape.as_slice()) {
        Some(index) => return Err(BuildError::OutsideConstraint { index }),
        None => {}
    }
    Ok(tape)
}

/// The refusal of the event at an index, of which a decoder says why.
fn refused(error: DecodeError, index: usize) -> BuildError
    ensures memory { error ≡ DecodeError.OutOfMemory → result ≡ BuildError.OutOfMemory }
    ensures other { (error ≡ DecodeError.OutOfMemory → ⊥) → result ≡ BuildError.OutOfPlace index }
{
    match error {
        DecodeError::OutOfMemory => BuildError::OutOfMemory,
        _ => BuildError::OutOfPlace { index },
    }
}

/// The records of events, as the plain codec keeps them; `None` if memory runs out.
fn kept_items(alloc: Global, types: &Types, events: &[Event]) -> Option<Vec<Item>>
    ensures { IfSome result
        (λ items. map record_of items.items ≡ map kept (records_of types.now.nodes.items events.now)) }
{
    let mut encoder = RecordEncoder::new(alloc, CodecKind::Oer);
    match replay(&mut encoder, types, events) {
        Ok(()) => Some(encoder.into_items()),
        Err(_) => None,
    }
}
