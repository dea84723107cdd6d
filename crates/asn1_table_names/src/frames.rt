//! What is still to come of the values that have begun.
#![tactic(auto, using(std::proofs::lemmas::Grind::common_steps))]

ghost use Rattle.std.specs.Prelude.{IfOk};
ghost use Rattle.asn1_table_names.specs.Turns.{IsFound, IsWith};

use crate::events::{NamedEvent, Role};
use crate::names::Names;
use crate::parts::{
    Part, addition_at, alternative_of, has_additions, is_group, is_list, is_scalar, root_at,
};
use asn1_schema_tags::Chosen;
use asn1_table_tape::{Event, elements_at, is_always_there};
use asn1_table_types::{Component, TypeNode, Types};
use std::alloc::{AllocError, Global};

/// What is still to come of a value that has begun. Types are named by their indices in the table.
#[derive(Clone, Copy)]
enum Frame {
    /// Elements of a list from an index on.
    Elements { list: usize, next: usize },
    /// Root components from an index on, then additions.
    Root { sequence: usize, next: usize },
    /// Additions from an index on.
    Added { sequence: usize, next: usize },
    /// The end of an addition, and then those from an index on.
    Inside { sequence: usize, next: usize },
    /// A group of additions, whose beginning comes.
    Opening(Group),
    /// Components of a group of additions.
    Grouped(Group),
    /// The end of a list or CHOICE.
    Closing { place: usize },
}

/// A group of additions that has begun.
#[derive(Clone, Copy)]
struct Group {
    /// The index of the sequence's type.
    sequence: usize,
    /// The index of the group among the additions.
    addition: usize,
    /// The index of its type.
    place: usize,
    /// The index of its next component.
    next: usize,
}

/// A value that comes next.
#[derive(Clone, Copy)]
struct Awaited<'a> {
    role: Role<'a>,
    place: usize,
}

/// What an event is in a walk.
pub enum Turn<'a> {
    /// It says only what follows.
    Silent,
    /// A value without parts, or the beginning or end of one with parts.
    Answer(NamedEvent<'a>),
    /// It is out of place.
    OutOfPlace,
}

/// How a walk goes on.
pub enum Advance<'a> {
    /// There is an event at this index.
    Found(usize, NamedEvent<'a>),
    /// The tape has ended.
    End,
    /// The event at this index is out of place.
    OutOfPlace(usize),
    /// Memory ran out.
    OutOfMemory,
}

/// A walk over the events of a tape.
#[derive(Drop)]
pub struct Walk<'a> {
    types: &'a Types,
    names: &'a Names,
    frames: Vec<Frame>,
    awaited: Option<Awaited<'a>>,
}

impl<'a> Walk<'a> {
    /// A walk over a value of the type at an index of a table.
    pub fn new(alloc: Global, types: &'a Types, names: &'a Names, place: usize) -> Self {
        let role = Role::Whole;
        Walk {
            types,
            names,
            frames: Vec::new(alloc),
            awaited: Some(Awaited { role, place }),
        }
    }

    /// Whether the value has ended.
    pub fn has_ended(&self) -> bool {
        self.awaited.is_none() && self.frames.is_empty()
    }

    /// The next event of a tape that is more than what follows, from an index on.
    pub fn advance(&mut self, tape: &'a [Event], from: usize) -> Advance<'a>
        ensures { IsFound tape.now from result }
    {
        for index in from..tape.len() {
            let Some(event) = tape.get(index) else {
                return Advance::End;
            };
            match self.turn(event) {
                Ok(Turn::Silent) => {}
                Ok(Turn::Answer(named)) => return Advance::Found(index, named),
                Ok(Turn::OutOfPlace) => return Advance::OutOfPlace(index),
                Err(_) => return Advance::OutOfMemory,
            }
        }
        Advance::End
    }

    /// One event of the tape.
    ///
    /// # Errors
    ///
    /// Memory ran out.
    pub fn turn(&mut self, event: &'a Event) -> Result<Turn<'a>, AllocError>
        ensures { IfOk result (IsWith event.now) }
    {
        if let Some(awaited) = self.awaited.take() {
            return self.begin(awaited, event);
        }
        let Some(frame) = self.frames.pop() else {
            return Ok(Turn::OutOfPlace);
        };
        match frame {
            Frame::Elements { list, next } => self.element(list, next, event),
            Frame::Root { sequence, next } => self.root(sequence, next, event),
            Frame::Added { sequence, next } => self.added(sequence, next, event),
            Frame::Inside { sequence, next } => match event {
                Event::AdditionEnds => {
                    self.frames.push(Frame::Added { sequence, next })?;
                    Ok(Turn::Silent)
                }
                _ => Ok(Turn::OutOfPlace),
            },
            Frame::Opening(group) => match event {
                Event::GroupBegins(_) => {
                    self.frames.push(Frame::Grouped(group))?;
                    Ok(Turn::Silent)
                }
                _ => Ok(Turn::OutOfPlace),
            },
            Frame::Grouped(group) => self.grouped(group, event),
            Frame::Closing { place } => Ok(ended(place, event)),
        }
    }

    // A value begins, or it has no parts.
    fn begin(&mut self, awaited: Awaited<'a>, event: &'a Event) -> Result<Turn<'a>, AllocError>
        ensures { IfOk result (IsWith event.now) }
    {
        let Awaited { role, place } = awaited;
        match opening_of(self.types, place, event) {
            Opened::Scalar => {}
            Opened::Parts(frame) => self.frames.push(frame)?,
            Opened::Choice(chosen, alternative) => {
                self.frames.push(Frame::Closing { place })?;
                let name = self.names.alternative_name(place, chosen);
                let role = Role::Alternative(chosen, name);
                self.awaited = Some(Awaited {
                    role,
                    place: alternative,
                });
            }
            Opened::OutOfPlace => return Ok(Turn::OutOfPlace),
        }
        Ok(Turn::Answer(NamedEvent { role, place, event }))
    }

    // Whether another element of a list follows.
    fn element(
        &mut self,
        list: usize,
        next: usize,
        event: &'a Event,
    ) -> Result<Turn<'a>, AllocError>
        ensures { IfOk result (IsWith event.now) }
    {
        match event {
            Event::Further(false) => {
                self.frames.push(Frame::Closing { place: list })?;
                Ok(Turn::Silent)
            }
            Event::Further(true) => {
                let Some(place) = elements_at(self.types, list) else {
                    return Ok(Turn::OutOfPlace);
                };
                let role = Role::Element(next);
                self.awaited = Some(Awaited { role, place });
                self.frames.push(Frame::Elements {
                    list,
                    next: next.saturating_add(1),
                })?;
                Ok(Turn::Silent)
            }
            _ => Ok(Turn::OutOfPlace),
        }
    }

    // The next root component of a sequence or set, its additions, or its end.
    fn root(
        &mut self,
        sequence: usize,
        next: usize,
        event: &'a Event,
    ) -> Result<Turn<'a>, AllocError>
        ensures { IfOk result (IsWith event.now) }
    {
        match root_at(self.types, sequence, next) {
            Some(component) => {
                let after = Frame::Root {
                    sequence,
                    next: next.saturating_add(1),
                };
                self.component(component, sequence, Part::Root(next), after, event)
            }
            None if has_additions(self.types, sequence) => match event {
                Event::AdditionsBegin(_) => {
                    self.frames.push(Frame::Added { sequence, next: 0 })?;
                    Ok(Turn::Silent)
                }
                _ => Ok(Turn::OutOfPlace),
            },
            None => Ok(ended(sequence, event)),
        }
    }

    // The next component of a group of additions, or its end.
    fn grouped(&mut self, group: Group, event: &'a Event) -> Result<Turn<'a>, AllocError>
        ensures { IfOk result (IsWith event.now) }
    {
        match root_at(self.types, group.place, group.next) {
            Some(component) => {
                let part = Part::Grouped {
                    addition: group.addition,
                    component: group.next,
                };
                let after = Frame::Grouped(Group {
                    next: group.next.saturating_add(1),
                    ..group
                });
                self.component(component, group.sequence, part, after, event)
            }
            None => match event {
                Event::Ends => Ok(Turn::Silent),
                _ => Ok(Turn::OutOfPlace),
            },
        }
    }

    // A component: its presence bit, if it has one, or its value.
    fn component(
        &mut self,
        component: &Component,
        sequence: usize,
        part: Part,
        after: Frame,
        event: &'a Event,
    ) -> Result<Turn<'a>, AllocError>
        ensures { IfOk result (IsWith event.now) }
    {
        let awaited = Awaited {
            role: Role::Component(part, self.names.part_name(self.types, sequence, part)),
            place: component.place,
        };
        self.frames.push(after)?;
        if is_always_there(component) {
            return self.begin(awaited, event);
        }
        match event {
            Event::PresenceBit(false) => Ok(Turn::Silent),
            Event::PresenceBit(true) => {
                self.awaited = Some(awaited);
                Ok(Turn::Silent)
            }
            _ => Ok(Turn::OutOfPlace),
        }
    }

    // Whether the next addition is there, or the end.
    fn added(
        &mut self,
        sequence: usize,
        next: usize,
        event: &'a Event,
    ) -> Result<Turn<'a>, AllocError>
        ensures { IfOk result (IsWith event.now) }
    {
        let Some(component) = addition_at(self.types, sequence, next) else {
            return Ok(ended(sequence, event));
        };
        let place = component.place;
        let after = next.saturating_add(1);
        match event {
            Event::Addition(false) => {
                self.frames.push(Frame::Added {
                    sequence,
                    next: after,
                })?;
                Ok(Turn::Silent)
            }
            Event::Addition(true) => {
                self.frames.push(Frame::Inside {
                    sequence,
                    next: after,
                })?;
                if is_group(self.types, place) {
                    self.frames.push(Frame::Opening(Group {
                        sequence,
                        addition: next,
                        place,
                        next: 0,
                    }))?;
                    return Ok(Turn::Silent);
                }
                let part = Part::Addition(next);
                let role = Role::Component(part, self.names.part_name(self.types, sequence, part));
                self.awaited = Some(Awaited { role, place });
                Ok(Turn::Silent)
            }
            _ => Ok(Turn::OutOfPlace),
        }
    }
}

// How a value of a type begins with an event.
enum Opened {
    // It has no parts.
    Scalar,
    // A list, sequence or set begins.
    Parts(Frame),
    // A CHOICE begins: the chosen alternative, and the index of its type.
    Choice(Chosen, usize),
    // It does not.
    OutOfPlace,
}

// How a value of the type at an index begins with an event.
fn opening_of(types: &Types, place: usize, event: &Event) -> Opened {
    match types.node(place) {
        None => Opened::OutOfPlace,
        Some(node) => match event {
            Event::ListBegins(_, _) if is_list(node) => Opened::Parts(Frame::Elements {
                list: place,
                next: 0,
            }),
            Event::SequenceBegins(_, _) if matches!(node, TypeNode::Sequence(_)) => {
                Opened::Parts(Frame::Root {
                    sequence: place,
                    next: 0,
                })
            }
            Event::SetBegins(_, _) if matches!(node, TypeNode::Set(_)) => Opened::Parts(
                Frame::Root {
                    sequence: place,
                    next: 0,
                },
            ),
            Event::ChoiceBegins(_, chosen) => match alternative_of(node, *chosen) {
                Some(alternative) => Opened::Choice(*chosen, alternative),
                None => Opened::OutOfPlace,
            },
            _ if is_scalar(node, event) => Opened::Scalar,
            _ => Opened::OutOfPlace,
        },
    }
}

// The end of a list, sequence, set or choice.
fn ended(place: usize, event: &Event) -> Turn<'_>
    ensures { IsWith event.now result }
{
    match event {
        Event::Ends => Turn::Answer(NamedEvent {
            role: Role::End,
            place,
            event,
        }),
        _ => Turn::OutOfPlace,
    }
}
