//! Steps of a builder.
use crate::values::{encoded, text_of};
use crate::words::event_of;
use asn1_notation_types::Table;
use asn1_schema_tags::Chosen;
use asn1_table_building::{StepError, TapeBuilder};
use asn1_table_json_writing::Style;
use asn1_table_names::Part;
use asn1_table_tape::Event;
use std::alloc::{AllocError, Global};

/// A step.
#[derive(Drop)]
enum Step {
    Begin,
    End,
    Component(Part),
    Choose(Chosen),
    Scalar(Event),
}

/// The octets and the text of the value that steps, separated by semicolons, build; or why a step is refused, and
/// which: the first has number 1, and after all of them comes the one that answers the value.
pub fn built(alloc: Global, table: &Table, steps: &str) -> Result<String, AllocError> {
    let mut builder = TapeBuilder::new(alloc, &table.types, table.place);
    let mut number: u32 = 1;
    for words in steps.split(';') {
        let Some(step) = step_of(alloc, table, &builder, words.trim())? else {
            return format!(in alloc; " no step {number}");
        };
        builder = match taken(builder, step) {
            Ok(builder) => builder,
            Err(error) => return format!(in alloc; " {error:?} at step {number}"),
        };
        number = number.saturating_add(1);
    }
    match builder.finish() {
        Ok(tape) => outcome(alloc, table, tape.as_slice()),
        Err(error) => format!(in alloc; " {error:?} at step {number}"),
    }
}

/// The octets and the text of a tape.
fn outcome(alloc: Global, table: &Table, tape: &[Event]) -> Result<String, AllocError> {
    let octets = encoded(alloc, table, tape)?;
    let text = text_of(alloc, table, tape, Style::Compact)?;
    format!(in alloc; "{octets} = {text}")
}

/// A builder after a step.
fn taken(builder: TapeBuilder<'_>, step: Step) -> Result<TapeBuilder<'_>, StepError> {
    match step {
        Step::Begin => builder.begin(),
        Step::End => builder.end(),
        Step::Component(part) => builder.component(part),
        Step::Choose(chosen) => builder.choose(chosen),
        Step::Scalar(event) => match event {
            Event::Flag(value) => builder.flag(value),
            Event::Nil => builder.null(),
            Event::Number(_, value) => builder.number(value),
            Event::Item(_, value) => builder.item(value),
            Event::Bits(_, value) => builder.bits(value),
            Event::Octets(_, value) => builder.octets(value),
            Event::Text(_, value) => builder.text(value),
            Event::Arcs(value) => builder.arcs(value),
            _ => Err(StepError::OutOfPlace),
        },
    }
}

/// A step in words: `begin`, `end`, `component` and `choose` with a name, or a value without parts.
fn step_of(
    alloc: Global,
    table: &Table,
    builder: &TapeBuilder<'_>,
    words: &str,
) -> Result<Option<Step>, AllocError> {
    match words.split_once(' ') {
        Some(("component", name)) => Ok(part_of(table, builder, name).map(Step::Component)),
        Some(("choose", name)) => Ok(alternative_of(table, builder, name).map(Step::Choose)),
        None if words == "begin" => Ok(Some(Step::Begin)),
        None if words == "end" => Ok(Some(Step::End)),
        _ => Ok(event_of(alloc, table.place, words)?.map(Step::Scalar)),
    }
}

/// A component of the innermost value: by its name, or by its indices as in `#1` in the root, `+1` among the
/// additions, `+1.0` in a group.
fn part_of(table: &Table, builder: &TapeBuilder<'_>, name: &str) -> Option<Part> {
    if let Some(index) = name.strip_prefix('#') {
        return Some(Part::Root(index.parse::<usize>().ok()?));
    }
    let Some(indices) = name.strip_prefix('+') else {
        return table
            .names
            .find_part(&table.types, builder.innermost()?, name);
    };
    match indices.split_once('.') {
        None => Some(Part::Addition(indices.parse::<usize>().ok()?)),
        Some((addition, component)) => Some(Part::Grouped {
            addition: addition.parse::<usize>().ok()?,
            component: component.parse::<usize>().ok()?,
        }),
    }
}

/// An alternative of the value that comes next, by its name.
fn alternative_of(table: &Table, builder: &TapeBuilder<'_>, name: &str) -> Option<Chosen> {
    table.names.find_alternative(builder.expected()?, name)
}
