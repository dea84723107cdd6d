//! CHOICE (X.680 29): its beginning, and its end after the value of the chosen alternative.
#![tactic(auto, using(std::proofs::lemmas::Grind::common_steps))]

ghost use Rattle.std.specs.Prelude.{◌≡◌, ◌+◌, ◌<◌, List, Some, Err, IfOk, IfErr, OnOk, OnErr, cond, length, slice_get};
ghost use Rattle.std.specs.Option.{option_map};
ghost use Rattle.asn1_schema_errors.specs.Calls.{DecoderCall, OneLevelLess};
ghost use Rattle.asn1_table_laws.specs.Walks.{NoValue, Begun, StuckClosing, Turns};
ghost use Rattle.asn1_table_types.specs.Choices.{tags_of};
ghost use Rattle.asn1_table_nodes.specs.Meaning.{type_at};
ghost use Rattle.asn1_table_nodes.specs.declared.nodes.TypeNode.{TypeNode as Node};
ghost use Rattle.asn1_table_nodes.specs.declared.nodes.TypeNode.TheVariants.{Choice as ChoiceOf};
ghost use Rattle.asn1_table_tape.specs.Records.{records_of};
ghost use Rattle.asn1_table_walker.specs.Frames.{pending_of, turn_of, levels_closed};

use crate::frames::{Frame, Turn};
use crate::opening::refuse_any;
use asn1_schema_decode::Decoder;
use asn1_schema_errors::DecodeError;
use asn1_schema_tags::{Chosen, Tag, TagTables};
use asn1_table_tape::{Event, keep};
use asn1_table_types::{AlternativeTable, Types};

/// Begins a CHOICE of these alternatives; `place` is the index of its type.
pub fn begin_choice<D: Decoder>(
    decoder: &mut D,
    types: &Types,
    table: &AlternativeTable,
    place: usize,
    tape: &mut Vec<Event>,
) -> Result<Frame, DecodeError>
    requires { slice_get types.now.nodes.items place ≡ Some (ChoiceOf table.now) }
    ensures ok { IfOk result (λ f. Begun D.step D.too_few D.too_few_members
        (type_at types.now.nodes.items (D.levels decoder.old) place)
        (pending_of types.now.nodes.items (D.levels decoder.new) f) decoder.old decoder.new
        (records_of types.now.nodes.items tape.old.items)
        (records_of types.now.nodes.items tape.new.items)) }
    ensures only { IfErr result (NoValue D.step D.too_few
        (type_at types.now.nodes.items (D.levels decoder.old) place) decoder.old decoder.new) }
    ensures going { OnOk result (D.has_failed decoder.new → ⊥) }
    ensures call { DecoderCall D.has_failed (OneLevelLess D.levels) decoder.old decoder.new result }
{
    match types.choice_tags(place) {
        Some(tables) => begin_tagged(decoder, &tables, table, place, tape),
        None => Err(refuse_any(decoder)),
    }
}

// The same, with these tags.
fn begin_tagged<D: Decoder>(
    decoder: &mut D,
    tables: &TagTables<'_>,
    table: &AlternativeTable,
    place: usize,
    tape: &mut Vec<Event>,
) -> Result<Frame, DecodeError>
    requires { tables.now ≡ tags_of table.now }
    ensures ok { IfOk result (λ f. (ns : List Node) → slice_get ns place ≡ Some (ChoiceOf table.now)
        → Begun D.step D.too_few D.too_few_members (type_at ns (D.levels decoder.old) place)
        (pending_of ns (D.levels decoder.new) f) decoder.old decoder.new
        (records_of ns tape.old.items) (records_of ns tape.new.items)) }
    ensures only { IfErr result (λ x. (ns : List Node) → slice_get ns place ≡ Some (ChoiceOf table.now)
        → NoValue D.step D.too_few (type_at ns (D.levels decoder.old) place) decoder.old decoder.new x) }
    ensures going { OnOk result (D.has_failed decoder.new → ⊥) }
    ensures call { DecoderCall D.has_failed (OneLevelLess D.levels) decoder.old decoder.new result }
{
    let chosen = decoder.begin_choice(Tag::CHOICE, tables)?;
    keep(decoder, tape, Event::ChoiceBegins(place, chosen))?;
    let value = value_place(table, chosen);
    Ok(Frame::Alternative { value })
}

// The index of the type of the chosen alternative.
fn value_place(table: &AlternativeTable, chosen: Chosen) -> usize
    requires { chosen.place < length (cond chosen.added table.now.additions.items table.now.root.items) }
    ensures { option_map (λ a. a.place)
        (slice_get (cond chosen.added table.now.additions.items table.now.root.items) chosen.place) ≡ Some result }
{
    if chosen.added {
        table.additions[chosen.place].place
    } else {
        table.root[chosen.place].place
    }
}

/// The end of a choice comes.
pub fn turn_closing<D: Decoder>(decoder: &mut D, tape: &mut Vec<Event>) -> Result<Turn, DecodeError>
    ensures ok { IfOk result (λ t. (ns : List Node) → Turns D.step D.too_few D.too_few_members
        (pending_of ns (D.levels decoder.old) Frame.Closing) (turn_of ns (D.levels decoder.old) t)
        decoder.old decoder.new (records_of ns tape.old.items) (records_of ns tape.new.items)) }
    ensures level { IfOk result (λ t. D.levels decoder.new ≡ D.levels decoder.old + levels_closed t) }
    ensures only { IfErr result (StuckClosing D.step D.too_few decoder.old decoder.new) }
    ensures going { OnOk result (D.has_failed decoder.new → D.has_failed decoder.old) }
    ensures failed { OnErr result (D.has_failed decoder.new) }
    ensures after { result ≡ Err DecodeError.AlreadyFailed → D.has_failed decoder.old }
{
    decoder.end()?;
    keep(decoder, tape, Event::Ends)?;
    Ok(Turn::Ended)
}
