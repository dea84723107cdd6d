//! The steps of a path to a part of a value of a type of a table, as in `a.b[2].c`.
use crate::labels::{alternative_label, part_label};
use asn1_schema_tags::Chosen;
use asn1_table_names::{Names, Part};
use asn1_table_types::Types;
use std::alloc::{AllocError, Global};

/// A step from a value to a part of it. Types are named by their indices in the table.
#[derive(Clone, Copy)]
pub enum Step<'a> {
    /// To the element at an index of a SEQUENCE OF or SET OF.
    Element(usize),
    /// To a component of a SEQUENCE or SET.
    Component(usize, Part),
    /// To the value of an alternative of a CHOICE.
    Alternative(usize, Chosen),
    /// To what has a name.
    Named(&'a str),
}

/// Adds a step to a path: the index of an element in brackets, or a name, after a dot unless it is the first step. A
/// component or alternative without an identifier has a name by its index, as in JSON.
pub fn push_step(
    alloc: Global,
    types: &Types,
    names: &Names,
    path: &mut String,
    step: Step<'_>,
) -> Result<(), AllocError> {
    match step {
        Step::Element(index) => write!(path, "[{index}]"),
        Step::Component(place, part) => {
            let name = names.part_name(types, place, part);
            push_name(path, part_label(alloc, name, part)?.as_str())
        }
        Step::Alternative(place, chosen) => {
            let name = names.alternative_name(place, chosen);
            push_name(path, alternative_label(alloc, name, chosen)?.as_str())
        }
        Step::Named(name) => push_name(path, name),
    }
}

/// A name, after a dot unless it is the first step.
fn push_name(path: &mut String, name: &str) -> Result<(), AllocError> {
    if !path.is_empty() {
        path.push('.')?;
    }
    path.push_str(name)
}
