//! The arrays and objects of a JSON text that have begun.
#![tactic(auto, using(std::proofs::lemmas::Grind::common_steps))]

use crate::errors::JsonErrorKind;
use asn1_schema_tags::Chosen;
use asn1_table_json_writing::{Step, push_step};
use asn1_table_names::{Names, Part};
use asn1_table_types::Types;
use std::alloc::{AllocError, Global};

/// How deep arrays and objects may nest.
const MOST_LEVELS: usize = 128;

/// An array or object that has begun. Types are named by their indices in the table.
#[derive(Drop)]
pub enum Level {
    /// The array of a SEQUENCE OF or SET OF, and the index of its next element.
    Elements { next: usize },
    /// The object of a SEQUENCE or SET, and the component whose value comes next.
    Members { place: usize, awaited: Option<Part> },
    /// The object of a CHOICE.
    Alternative { place: usize, state: Choosing },
    /// The object of a BIT STRING.
    Bits(BitsMembers),
}

/// What came of the object of a CHOICE.
#[derive(Clone, Copy, PartialEq, Eq)]
pub enum Choosing {
    /// Nothing.
    Begun,
    /// The name of an alternative, whose value comes next.
    Named(Chosen),
    /// The value of an alternative.
    Ended,
}

/// What came of the object of a BIT STRING.
#[derive(Drop)]
pub struct BitsMembers {
    /// The member whose value comes next.
    pub awaited: Option<BitsMember>,
    /// The octets of its value.
    pub value: Option<Vec<u8>>,
    /// Its length in bits.
    pub length: Option<usize>,
}

/// A member of the object of a BIT STRING.
#[derive(Clone, Copy, PartialEq, Eq)]
pub enum BitsMember {
    /// The octets in hexadecimal.
    Value,
    /// The number of bits.
    Length,
}

impl BitsMembers {
    /// Nothing came.
    pub fn new() -> Self {
        BitsMembers {
            awaited: None,
            value: None,
            length: None,
        }
    }

    /// The member whose value comes next, or that none does.
    pub fn awaiting(self, awaited: Option<BitsMember>) -> Self {
        let BitsMembers { value, length, .. } = self;
        BitsMembers {
            awaited,
            value,
            length,
        }
    }
}

impl BitsMember {
    /// Its name.
    pub fn label(self) -> &'static str {
        match self {
            BitsMember::Value => "value",
            BitsMember::Length => "length",
        }
    }
}

/// The arrays and objects that have begun, the innermost last.
#[derive(Drop)]
pub struct Levels {
    open: Vec<Level>,
}

impl Levels {
    /// None.
    pub fn new(alloc: Global) -> Self {
        Levels {
            open: Vec::new(alloc),
        }
    }

    /// Whether there are none.
    pub fn is_empty(&self) -> bool {
        self.open.is_empty()
    }

    /// Whether a value may begin.
    pub fn awaits_value(&self) -> bool {
        match self.open.last() {
            None | Some(Level::Elements { .. }) => true,
            Some(Level::Members { awaited, .. }) => awaited.is_some(),
            Some(Level::Alternative { state, .. }) => matches!(state, Choosing::Named(_)),
            Some(Level::Bits(members)) => members.awaited.is_some(),
        }
    }

    /// The member of the object of a BIT STRING whose value comes next.
    pub fn awaited_bits(&self) -> Option<BitsMember> {
        match self.open.last()? {
            Level::Bits(members) => members.awaited,
            _ => None,
        }
    }

    /// The innermost one, taken out.
    pub fn pop(&mut self) -> Option<Level> {
        self.open.pop()
    }

    /// One begins, or is put back.
    ///
    /// # Errors
    ///
    /// `TooDeep`, `OutOfMemory`.
    pub fn push(&mut self, level: Level) -> Result<(), JsonErrorKind> {
        if self.open.len() >= MOST_LEVELS {
            return Err(JsonErrorKind::TooDeep);
        }
        self.open.push(level)?;
        Ok(())
    }

    /// A value has ended: what the innermost one awaits next.
    pub fn end_value(&mut self) -> Result<(), JsonErrorKind> {
        match self.open.pop() {
            None => Ok(()),
            Some(level) => self.push(after_value(level)),
        }
    }

    /// The path to the value that is read, and a member of it.
    pub fn path(
        &self,
        alloc: Global,
        types: &Types,
        names: &Names,
        member: Option<&str>,
    ) -> Result<String, AllocError> {
        let mut path = String::new(alloc);
        for level in self.open.iter() {
            if let Some(step) = step_into(level) {
                push_step(alloc, types, names, &mut path, step)?;
            }
        }
        if let Some(label) = member {
            push_step(alloc, types, names, &mut path, Step::Named(label))?;
        }
        Ok(path)
    }
}

/// An array or object after a value in it.
fn after_value(level: Level) -> Level {
    match level {
        Level::Elements { next } => Level::Elements {
            next: next.saturating_add(1),
        },
        Level::Members { place, .. } => Level::Members {
            place,
            awaited: None,
        },
        Level::Alternative { place, .. } => Level::Alternative {
            place,
            state: Choosing::Ended,
        },
        Level::Bits(members) => Level::Bits(members.awaiting(None)),
    }
}

/// The step of a path into an array or object, if something in it is read.
fn step_into(level: &Level) -> Option<Step<'static>> {
    match level {
        Level::Elements { next } => Some(Step::Element(*next)),
        Level::Members {
            place,
            awaited: Some(part),
        } => Some(Step::Component(*place, *part)),
        Level::Alternative {
            place,
            state: Choosing::Named(chosen),
        } => Some(Step::Alternative(*place, *chosen)),
        Level::Bits(members) => Some(Step::Named(members.awaited?.label())),
        _ => None,
    }
}
