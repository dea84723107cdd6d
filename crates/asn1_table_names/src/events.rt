//! The events of a tape with their names.
use crate::parts::Part;
use asn1_schema_tags::Chosen;
use asn1_table_tape::Event;
use thiserror::Error;

/// A value without parts, or the beginning or the end of one with parts.
#[derive(Clone, Copy)]
pub struct NamedEvent<'a> {
    /// What the value is of the one around it.
    pub role: Role<'a>,
    /// The index of its type in the table.
    pub place: usize,
    /// The event on the tape.
    pub event: &'a Event,
}

/// What a value is of the one around it.
#[derive(Clone, Copy)]
pub enum Role<'a> {
    /// The whole value.
    Whole,
    /// An element of a SEQUENCE OF or SET OF, by its index.
    Element(usize),
    /// A component of a SEQUENCE or SET that is there, with its identifier.
    Component(Part, Option<&'a str>),
    /// The chosen alternative of a CHOICE, with its identifier.
    Alternative(Chosen, Option<&'a str>),
    /// The end of the innermost value with parts.
    End,
}

/// Why a walk over a tape stops.
#[derive(Clone, Copy, Debug, PartialEq, Eq, Drop, Error)]
pub enum WalkError {
    /// The event at this index is not the next one of a value of the type, or the tape ends there.
    #[error("event {index} is out of place")]
    OutOfPlace {
        /// The index of the event, from 0.
        index: usize,
    },
    /// Memory ran out.
    #[error("out of memory")]
    OutOfMemory,
}
