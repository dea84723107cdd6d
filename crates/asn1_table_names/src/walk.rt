//! A walk over a tape.
#![tactic(auto, using(std::proofs::lemmas::Grind::common_steps))]

ghost use Rattle.std.specs.Prelude.{◌≡◌, ◌+◌, ◌-◌, true, cond, length, Err, IsSome, IfSome};
ghost use Rattle.std.specs.Iterator.{at_most};
ghost use Rattle.asn1_table_names.specs.Walking.{NextEvent};

use crate::events::{NamedEvent, WalkError};
use crate::frames::{Advance, Walk};
use crate::names::Names;
use asn1_table_tape::Event;
use asn1_table_types::Types;
use std::alloc::Global;

/// The events of a tape by a type of a table, each with what it is and its name: values without parts, and the
/// beginnings and ends of values with parts. What only says what follows is left out: presence bits, the beginnings and
/// ends of additions and of groups of additions. Absent components have no event; those of a group come as components
/// of the sequence around it, marked by their `Part`.
///
/// On a tape that is no value of the type, the events before the first one that is out of place come, then an error,
/// and nothing after it.
#[derive(Drop)]
pub struct NamedEvents<'a> {
    tape: &'a [Event],
    position: usize,
    has_stopped: bool,
    walk: Walk<'a>,
}

impl<'a> NamedEvents<'a> {
    /// The events of a tape of the type at an index of a table. Names may be missing. Memory is taken for each level.
    pub fn new(
        alloc: Global,
        types: &'a Types,
        names: &'a Names,
        place: usize,
        tape: &'a [Event],
    ) -> Self {
        NamedEvents {
            tape,
            position: 0,
            has_stopped: false,
            walk: Walk::new(alloc, types, names, place),
        }
    }

    // Stops with an error.
    fn stop(&mut self, error: WalkError) -> Option<Result<NamedEvent<'a>, WalkError>>
        ensures stopped { self.new.has_stopped ≡ true }
        ensures tape { self.new.tape ≡ self.old.tape }
        ensures position { self.new.position ≡ self.old.position }
        ensures error { IfSome result (λ r. r ≡ Err error) }
        ensures some { IsSome result }
    {
        self.has_stopped = true;
        Some(Err(error))
    }
}

impl<'a> Iterator for NamedEvents<'a> {
    type Item = Result<NamedEvent<'a>, WalkError>;

    ghost next_gives = { NextEvent };

    ghost remaining = { λ s. at_most (length s.tape.now - s.position + cond s.has_stopped 0 1) };

    fn next(&mut self) -> Option<Result<NamedEvent<'a>, WalkError>> {
        if self.has_stopped {
            return None;
        }
        let tape = self.tape;
        match self.walk.advance(tape, self.position) {
            Advance::Found(index, event) => {
                self.position = index + 1;
                Some(Ok(event))
            }
            Advance::OutOfPlace(index) => self.stop(WalkError::OutOfPlace { index }),
            Advance::OutOfMemory => self.stop(WalkError::OutOfMemory),
            Advance::End => {
                self.position = tape.len();
                if self.walk.has_ended() {
                    return None;
                }
                self.stop(WalkError::OutOfPlace { index: tape.len() })
            }
        }
    }
}
