//! SEQUENCE OF and SET OF (X.680 26 and 28): its beginning, and its elements one after another.
#![tactic(auto, using(std::proofs::lemmas::Grind::common_steps))]

ghost use Rattle.std.specs.Prelude.{◌≡◌, ◌+◌, ◌-◌, ◌^◌, ◌≤◌, ◌<◌, ℕ, true, List, Some, Err, IfOk, IfErr, OnOk, OnErr};
ghost use Rattle.std.specs.Prelude.{vec_len, slice_get};
ghost use Rattle.asn1_schema_errors.specs.Calls.{DecoderCall, OneLevelLess};
ghost use Rattle.asn1_schema_forms.specs.Forms.{form_bounds};
ghost use Rattle.asn1_table_laws.specs.Walks.{NoValue, Begun, Stuck, Turns};
ghost use Rattle.asn1_table_nodes.specs.Meaning.{type_at};
ghost use Rattle.asn1_table_nodes.specs.declared.nodes.TypeNode.{TypeNode as Node};
ghost use Rattle.asn1_table_nodes.specs.declared.nodes.TypeNode.TheVariants.{SequenceOf as ListOf, SetOf as BagOf};
ghost use Rattle.asn1_table_tape.specs.Records.{records_of};
ghost use Rattle.asn1_table_tape.specs.Terms.{members_in};
ghost use Rattle.asn1_table_types.specs.Forms.{bounds_there};
ghost use Rattle.asn1_table_walker.specs.Frames.{pending_of, turn_of, element_turn, levels_closed};

use crate::frames::{Frame, Turn};
use asn1_schema_constraints::{Bounded, Sizes};
use asn1_schema_decode::Decoder;
use asn1_schema_errors::DecodeError;
use asn1_schema_forms::NumberForm;
use asn1_schema_tags::Tag;
use asn1_table_tape::{
    Event, elements_at, keep, read_element_in_form, set_count, size_constraints,
};
use asn1_table_types::Types;
use std::alloc::Global;

/// Begins a SEQUENCE OF of these sizes; `place` is the index of its type.
pub fn begin_list<D: Decoder>(
    decoder: &mut D,
    sizes: Sizes,
    place: usize,
    tape: &mut Vec<Event>,
) -> Result<Frame, DecodeError>
    ensures ok { IfOk result (λ f. (ns : List Node) (i : ℕ) → slice_get ns place ≡ Some (ListOf sizes i)
        → Begun D.step D.too_few D.too_few_members (type_at ns (D.levels decoder.old) place)
        (pending_of ns (D.levels decoder.new) f) decoder.old decoder.new
        (records_of ns tape.old.items) (records_of ns tape.new.items)) }
    ensures only { IfErr result (λ x. (ns : List Node) (i : ℕ) → slice_get ns place ≡ Some (ListOf sizes i)
        → NoValue D.step D.too_few (type_at ns (D.levels decoder.old) place) decoder.old decoder.new x) }
    ensures going { OnOk result (D.has_failed decoder.new → ⊥) }
    ensures call { DecoderCall D.has_failed (OneLevelLess D.levels) decoder.old decoder.new result }
{
    let constraints = size_constraints(sizes);
    decoder.begin_list(Tag::SEQUENCE, &constraints, Bounded::None)?;
    let begins = tape.len();
    keep(decoder, tape, Event::ListBegins(place, 0))?;
    Ok(Frame::Members {
        list: place,
        begins,
        count: 0,
    })
}

/// Begins a SET OF of these sizes; `place` is the index of its type.
pub fn begin_bag<D: Decoder>(
    decoder: &mut D,
    sizes: Sizes,
    place: usize,
    tape: &mut Vec<Event>,
) -> Result<Frame, DecodeError>
    ensures ok { IfOk result (λ f. (ns : List Node) (i : ℕ) → slice_get ns place ≡ Some (BagOf sizes i)
        → Begun D.step D.too_few D.too_few_members (type_at ns (D.levels decoder.old) place)
        (pending_of ns (D.levels decoder.new) f) decoder.old decoder.new
        (records_of ns tape.old.items) (records_of ns tape.new.items)) }
    ensures only { IfErr result (λ x. (ns : List Node) (i : ℕ) → slice_get ns place ≡ Some (BagOf sizes i)
        → NoValue D.step D.too_few (type_at ns (D.levels decoder.old) place) decoder.old decoder.new x) }
    ensures going { OnOk result (D.has_failed decoder.new → ⊥) }
    ensures call { DecoderCall D.has_failed (OneLevelLess D.levels) decoder.old decoder.new result }
{
    let constraints = size_constraints(sizes);
    decoder.begin_bag(Tag::SET, &constraints, Bounded::None)?;
    let begins = tape.len();
    keep(decoder, tape, Event::ListBegins(place, 0))?;
    Ok(Frame::Members {
        list: place,
        begins,
        count: 0,
    })
}

/// Reads whether another element follows, or the end. Numbers in a form are read one after another, up to the end.
pub fn turn_members<D: Decoder>(
    alloc: Global,
    decoder: &mut D,
    types: &Types,
    list: usize,
    begins: usize,
    count: usize,
    tape: &mut Vec<Event>,
) -> Result<Turn, DecodeError>
    ensures ok { IfOk result (λ t. Turns D.step D.too_few D.too_few_members
        (pending_of types.now.nodes.items (D.levels decoder.old)
        (Frame.Members list begins count))
        (turn_of types.now.nodes.items (D.levels decoder.old) t) decoder.old decoder.new
        (records_of types.now.nodes.items tape.old.items)
        (records_of types.now.nodes.items tape.new.items)) }
    ensures level { IfOk result (λ t. D.levels decoder.new ≡ D.levels decoder.old + levels_closed t) }
    ensures only { IfErr result (Stuck D.step D.too_few D.too_few_members
        (pending_of types.now.nodes.items (D.levels decoder.old)
        (Frame.Members list begins count)) (records_of types.now.nodes.items tape.old.items)
        decoder.old decoder.new) }
    ensures going { OnOk result (D.has_failed decoder.new → D.has_failed decoder.old) }
    ensures failed { OnErr result (D.has_failed decoder.new) }
    ensures after { result ≡ Err DecodeError.AlreadyFailed → D.has_failed decoder.old }
{
    let Some(members) = elements_at(types, list) else {
        return Err(decoder.refuse(DecodeError::TypeNotExtensible));
    };
    if count == 0 {
        if let Some(form) = types.number_form(members) {
            return read_numbers(alloc, decoder, types, form, list, members, begins, tape);
        }
    }
    if !find_element(decoder, types, list, members, begins, count, tape)? {
        return Ok(Turn::Ended);
    }
    let rest = Frame::Members {
        list,
        begins,
        count: count + 1,
    };
    Ok(Turn::Value(rest, members))
}

// Reads whether another element follows. If none does, reads the end and sets the count.
#[inline(always)]
fn find_element<D: Decoder>(
    decoder: &mut D,
    types: &Types,
    list: usize,
    members: usize,
    begins: usize,
    count: usize,
    tape: &mut Vec<Event>,
) -> Result<bool, DecodeError>
    requires { members_in (slice_get types.now.nodes.items list) ≡ Some members }
    ensures ok { IfOk result (λ more. Turns D.step D.too_few D.too_few_members
        (pending_of types.now.nodes.items (D.levels decoder.old) (Frame.Members list begins count))
        (turn_of types.now.nodes.items (D.levels decoder.old) (element_turn list begins count members more))
        decoder.old decoder.new (records_of types.now.nodes.items tape.old.items)
        (records_of types.now.nodes.items tape.new.items)) }
    ensures room { IfOk result (λ more. more ≡ true → count < 2 ^ 64 - 1) }
    ensures level { IfOk result (λ more. D.levels decoder.new
        ≡ D.levels decoder.old + levels_closed (element_turn list begins count members more)) }
    ensures only { IfErr result (Stuck D.step D.too_few D.too_few_members
        (pending_of types.now.nodes.items (D.levels decoder.old)
        (Frame.Members list begins count)) (records_of types.now.nodes.items tape.old.items)
        decoder.old decoder.new) }
    ensures going { OnOk result (D.has_failed decoder.new → D.has_failed decoder.old) }
    ensures failed { OnErr result (D.has_failed decoder.new) }
    ensures after { result ≡ Err DecodeError.AlreadyFailed → D.has_failed decoder.old }
{
    if decoder.get_further()? {
        if count == usize::MAX {
            return Err(decoder.refuse(DecodeError::SizeConstraintNotSatisfied));
        }
        keep(decoder, tape, Event::Further(true))?;
        return Ok(true);
    }
    keep(decoder, tape, Event::Further(false))?;
    decoder.end()?;
    keep(decoder, tape, Event::Ends)?;
    set_count(tape, begins, list, count);
    Ok(false)
}

// Reads the elements of a list of numbers in this form, and its end.
#[inline(never)]
fn read_numbers<D: Decoder>(
    alloc: Global,
    decoder: &mut D,
    types: &Types,
    form: &NumberForm,
    list: usize,
    members: usize,
    begins: usize,
    tape: &mut Vec<Event>,
) -> Result<Turn, DecodeError>
    requires list { members_in (slice_get types.now.nodes.items list) ≡ Some members }
    requires form { bounds_there (slice_get types.now.nodes.items members) ≡ Some (form_bounds form.now) }
    ensures ok { IfOk result (λ t. Turns D.step D.too_few D.too_few_members
        (pending_of types.now.nodes.items (D.levels decoder.old)
        (Frame.Members list begins 0))
        (turn_of types.now.nodes.items (D.levels decoder.old) t) decoder.old decoder.new
        (records_of types.now.nodes.items tape.old.items)
        (records_of types.now.nodes.items tape.new.items)) }
    ensures level { IfOk result (λ t. D.levels decoder.new ≡ D.levels decoder.old + levels_closed t) }
    ensures only { IfErr result (Stuck D.step D.too_few D.too_few_members
        (pending_of types.now.nodes.items (D.levels decoder.old)
        (Frame.Members list begins 0)) (records_of types.now.nodes.items tape.old.items)
        decoder.old decoder.new) }
    ensures going { OnOk result (D.has_failed decoder.new → D.has_failed decoder.old) }
    ensures failed { OnErr result (D.has_failed decoder.new) }
    ensures after { result ≡ Err DecodeError.AlreadyFailed → D.has_failed decoder.old }
{
    for count in 0..usize::MAX {
        if !find_element(decoder, types, list, members, begins, count, tape)? {
            return Ok(Turn::Ended);
        }
        read_element_in_form(alloc, decoder, form, members, tape)?;
    }
    Ok(Turn::Again(Frame::Members {
        list,
        begins,
        count: usize::MAX,
    }))
}
