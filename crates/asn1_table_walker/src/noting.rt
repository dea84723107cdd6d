//! What is noted of a component that was read, and how it is kept: its default and an empty group are left out of the
//! normal form (X.691 19.5 and 19.9, X.696 16).
#![tactic(auto, using(std::proofs::lemmas::Grind::common_steps))]

ghost use Rattle.std.specs.Prelude.{◌≡◌, ◌+◌, ◌++◌, [], ◌∷◌, ℕ, true, Err, IfOk, IfErr, OnOk, OnErr, drop};
ghost use Rattle.std.proofs.Math.ListN.{take};
ghost use Rattle.asn1_model.specs.Lawful.{has_typed_default};
ghost use Rattle.asn1_model.specs.Tidy.{has_normal_default};
ghost use Rattle.asn1_table_laws.specs.Walks.{Notes, NotNoted, Stuck, Turns};
ghost use Rattle.asn1_table_tape.specs.Records.{records_of};
ghost use Rattle.asn1_table_nodes.specs.Meaning.{presence_of, type_at};
ghost use Rattle.asn1_table_walker.specs.Frames.{pending_of, turn_of, levels_closed};

use crate::frames::{Frame, Turn};
use asn1_schema_decode::Decoder;
use asn1_schema_errors::DecodeError;
use asn1_table_tape::{Event, is_always_there, is_default, is_empty_group, keep, lists_at};
use asn1_table_types::{Component, Types};

/// After the value of a root component with a default: leaves it out if it is the default.
pub fn turn_noting<D: Decoder>(
    decoder: &mut D,
    types: &Types,
    sequence: usize,
    component: usize,
    from: usize,
    tape: &mut Vec<Event>,
) -> Result<Turn, DecodeError>
    ensures ok { IfOk result (λ t. Turns D.step D.too_few D.too_few_members
        (pending_of types.now.nodes.items (D.levels decoder.old) (Frame.Noting sequence component from))
        (turn_of types.now.nodes.items (D.levels decoder.old) t) decoder.old decoder.new
        (records_of types.now.nodes.items tape.old.items)
        (records_of types.now.nodes.items tape.new.items)) }
    ensures level { IfOk result (λ t. D.levels decoder.new ≡ D.levels decoder.old + levels_closed t) }
    ensures only { IfErr result (Stuck D.step D.too_few D.too_few_members
        (pending_of types.now.nodes.items (D.levels decoder.old) (Frame.Noting sequence component from))
        (records_of types.now.nodes.items tape.old.items) decoder.old decoder.new) }
    ensures going { OnOk result (D.has_failed decoder.new → D.has_failed decoder.old) }
    ensures failed { OnErr result (D.has_failed decoder.new) }
    ensures after { result ≡ Err DecodeError.AlreadyFailed → D.has_failed decoder.old }
{
    let Some(lists) = lists_at(types, sequence) else {
        return Err(decoder.refuse(DecodeError::TypeNotExtensible));
    };
    let Some(part) = lists.root().get(component) else {
        return Err(decoder.refuse(DecodeError::TypeNotExtensible));
    };
    if is_always_there(part) {
        return Err(decoder.refuse(DecodeError::TypeNotExtensible));
    }
    let rest = Frame::Root {
        sequence,
        next: component + 1,
    };
    let is_left_out = note(decoder, types, part, value_after(tape.as_slice(), from))?;
    if !is_left_out {
        return Ok(Turn::Again(rest));
    }
    leave_out(decoder, tape, from, Event::PresenceBit(false))?;
    Ok(Turn::Again(rest))
}

/// Reads the end of an addition, and leaves it out if it is its default or a group with nothing left.
pub fn turn_inside<D: Decoder>(
    decoder: &mut D,
    types: &Types,
    sequence: usize,
    component: usize,
    from: usize,
    tape: &mut Vec<Event>,
) -> Result<Turn, DecodeError>
    ensures ok { IfOk result (λ t. Turns D.step D.too_few D.too_few_members
        (pending_of types.now.nodes.items (D.levels decoder.old) (Frame.Inside sequence component from))
        (turn_of types.now.nodes.items (D.levels decoder.old) t) decoder.old decoder.new
        (records_of types.now.nodes.items tape.old.items)
        (records_of types.now.nodes.items tape.new.items)) }
    ensures level { IfOk result (λ t. D.levels decoder.new ≡ D.levels decoder.old + levels_closed t) }
    ensures only { IfErr result (Stuck D.step D.too_few D.too_few_members
        (pending_of types.now.nodes.items (D.levels decoder.old) (Frame.Inside sequence component from))
        (records_of types.now.nodes.items tape.old.items) decoder.old decoder.new) }
    ensures going { OnOk result (D.has_failed decoder.new → D.has_failed decoder.old) }
    ensures failed { OnErr result (D.has_failed decoder.new) }
    ensures after { result ≡ Err DecodeError.AlreadyFailed → D.has_failed decoder.old }
{
    let Some(lists) = lists_at(types, sequence) else {
        return Err(decoder.refuse(DecodeError::TypeNotExtensible));
    };
    let Some(part) = lists.additions().get(component) else {
        return Err(decoder.refuse(DecodeError::TypeNotExtensible));
    };
    let rest = Frame::Added {
        sequence,
        next: component + 1,
    };
    decoder.end_addition()?;
    let is_left_out = note(decoder, types, part, value_after(tape.as_slice(), from))?;
    if !is_left_out {
        keep(decoder, tape, Event::AdditionEnds)?;
        return Ok(Turn::Again(rest));
    }
    leave_out(decoder, tape, from, Event::Addition(false))?;
    Ok(Turn::Again(rest))
}

// The records from an index on are left out, and it is kept that their component is absent.
fn leave_out<D: Decoder>(
    decoder: &mut D,
    tape: &mut Vec<Event>,
    from: usize,
    absence: Event,
) -> Result<(), DecodeError>
    ensures cut { OnOk result (tape.new.items ≡ take from tape.old.items ++ absence ∷ []) }
    ensures same { OnOk result (decoder.new ≡ decoder.old) }
    ensures memory { IfErr result (λ e. e ≡ DecodeError.OutOfMemory) }
    ensures failed { OnErr result (D.has_failed decoder.new) }
{
    tape.truncate(from);
    keep(decoder, tape, absence)?;
    Ok(())
}

// What is kept after the record at an index.
fn value_after(tape: &[Event], from: usize) -> &[Event]
    ensures { result.now ≡ drop (from + 1) tape.now }
{
    if from < tape.len() {
        &tape[from + 1..]
    } else {
        &[]
    }
}

// If a component with this value is at its default, or a group with nothing left, notes this in the decoder (which
// refuses it by strict rules). Answers whether it is.
fn note<D: Decoder>(
    decoder: &mut D,
    types: &Types,
    component: &Component,
    value: &[Event],
) -> Result<bool, DecodeError>
    ensures ok { IfOk result (λ b. (n : ℕ) → has_typed_default
        (type_at types.now.nodes.items n component.now.place) (presence_of component.now.presence) ≡ true
        → has_normal_default
        (type_at types.now.nodes.items n component.now.place) (presence_of component.now.presence) ≡ true
        → Notes D.step (presence_of component.now.presence) (type_at types.now.nodes.items n component.now.place)
        (records_of types.now.nodes.items value.now) b decoder.old decoder.new) }
    ensures only { IfErr result (λ x. (n : ℕ) → has_typed_default
        (type_at types.now.nodes.items n component.now.place) (presence_of component.now.presence) ≡ true
        → has_normal_default
        (type_at types.now.nodes.items n component.now.place) (presence_of component.now.presence) ≡ true
        → NotNoted D.step D.too_few (presence_of component.now.presence)
        (type_at types.now.nodes.items n component.now.place)
        (records_of types.now.nodes.items value.now) decoder.old decoder.new x) }
    ensures level { OnOk result (D.levels decoder.new ≡ D.levels decoder.old) }
    ensures going { OnOk result (D.has_failed decoder.new → D.has_failed decoder.old) }
    ensures failed { OnErr result (D.has_failed decoder.new) }
    ensures after { result ≡ Err DecodeError.AlreadyFailed → D.has_failed decoder.old }
{
    if is_default(&component.presence, value) {
        decoder.note_default()?;
        return Ok(true);
    }
    if is_empty_group(types, component.place, value) {
        decoder.note_empty()?;
        return Ok(true);
    }
    Ok(false)
}
