//! A tape is built by calls that name the parts of a value.
#![tactic(auto, using(std::proofs::lemmas::Grind::common_steps))]

ghost use Rattle.std.specs.Prelude.{◌≡◌, IfOk};
ghost use Rattle.asn1_table_nodes.specs.Meaning.{type_at};
ghost use Rattle.asn1_table_building.specs.Built.{IsTapeOf};
ghost use Rattle.asn1_table_building.specs.Steps.{IsSameType};

use crate::building::build;
use crate::gathering::{Given, gather};
use crate::steps::StepError;
use asn1_schema_tags::Chosen;
use asn1_table_names::{Part, alternative_of, component_at, is_list, is_scalar, is_sequence};
use asn1_table_tape::{CharacterString, Event, TapeOctets, elements_at, set_count};
use asn1_table_types::Types;
use asn1_values_bit_strings::BitString;
use asn1_values_identifiers::ObjectIdentifier;
use asn1_values_integers::Integer;
use std::alloc::Global;

/// A value with parts that has begun.
#[derive(Drop)]
enum Open {
    /// A SEQUENCE OF or SET OF: its events so far, and how many elements it has.
    List {
        place: usize,
        count: usize,
        events: Vec<Event>,
    },
    /// A SEQUENCE or SET: the components that were given, and the one whose value comes next.
    Parts {
        place: usize,
        given: Vec<Given>,
        awaited: Option<Part>,
    },
    /// A CHOICE, and the chosen alternative, whose value comes next.
    Choice {
        place: usize,
        chosen: Chosen,
    },
}

/// A value of a type of a table that is made part by part, in the terms of its notation: components come in any order,
/// absent ones and those at their defaults may be left out, and no count is given. Each call takes the builder and
/// returns it, so after an error nothing is left of it.
#[derive(Drop)]
pub struct TapeBuilder<'a> {
    alloc: Global,
    types: &'a Types,
    place: usize,
    open: Vec<Open>,
    whole: Option<Vec<Event>>,
}

impl<'a> TapeBuilder<'a> {
    /// A builder of a value of the type at an index of a table.
    pub fn new(alloc: Global, types: &'a Types, place: usize) -> Self
        ensures { (result.types ≡ types.entry) × (result.place ≡ place) }
    {
        TapeBuilder {
            alloc,
            types,
            place,
            open: Vec::new(alloc),
            whole: None,
        }
    }

    /// The index of the type of the value that comes next; `None` where a component or an end comes first.
    pub fn expected(&self) -> Option<usize> {
        match self.open.last() {
            None if self.whole.is_none() => Some(self.place),
            None => None,
            Some(Open::List { place, .. }) => elements_at(self.types, *place),
            Some(Open::Parts { place, awaited, .. }) => {
                Some(component_at(self.types, *place, (*awaited)?)?.place)
            }
            Some(Open::Choice { place, chosen }) => {
                alternative_of(self.types.node(*place)?, *chosen)
            }
        }
    }

    /// The index of the innermost type whose end has not come.
    pub fn innermost(&self) -> Option<usize> {
        match self.open.last()? {
            Open::List { place, .. } => Some(*place),
            Open::Parts { place, .. } => Some(*place),
            Open::Choice { place, .. } => Some(*place),
        }
    }

    /// A value of BOOLEAN.
    pub fn flag(self, value: bool) -> Result<Self, StepError>
        ensures { IfOk result (λ b. IsSameType self.entry b) }
    {
        self.scalar(Event::Flag(value))
    }

    /// NULL.
    pub fn null(self) -> Result<Self, StepError>
        ensures { IfOk result (λ b. IsSameType self.entry b) }
    {
        self.scalar(Event::Nil)
    }

    /// A number of INTEGER.
    pub fn number(self, value: Integer) -> Result<Self, StepError>
        ensures { IfOk result (λ b. IsSameType self.entry b) }
    {
        let place = self.expected_place()?;
        self.scalar(Event::Number(place, value))
    }

    /// An item of ENUMERATED, by its number.
    pub fn item(self, value: isize) -> Result<Self, StepError>
        ensures { IfOk result (λ b. IsSameType self.entry b) }
    {
        let place = self.expected_place()?;
        self.scalar(Event::Item(place, value))
    }

    /// The bits of a BIT STRING.
    pub fn bits(self, value: BitString) -> Result<Self, StepError>
        ensures { IfOk result (λ b. IsSameType self.entry b) }
    {
        let place = self.expected_place()?;
        self.scalar(Event::Bits(place, value))
    }

    /// The octets of an OCTET STRING.
    pub fn octets(self, value: TapeOctets) -> Result<Self, StepError>
        ensures { IfOk result (λ b. IsSameType self.entry b) }
    {
        let place = self.expected_place()?;
        self.scalar(Event::Octets(place, value))
    }

    /// A restricted character string.
    pub fn text(self, value: CharacterString) -> Result<Self, StepError>
        ensures { IfOk result (λ b. IsSameType self.entry b) }
    {
        let place = self.expected_place()?;
        self.scalar(Event::Text(place, value))
    }

    /// The arcs of an OBJECT IDENTIFIER.
    pub fn arcs(self, value: ObjectIdentifier) -> Result<Self, StepError>
        ensures { IfOk result (λ b. IsSameType self.entry b) }
    {
        self.scalar(Event::Arcs(value))
    }

    /// A SEQUENCE, SET, SEQUENCE OF or SET OF begins.
    pub fn begin(self) -> Result<Self, StepError>
        ensures { IfOk result (λ b. IsSameType self.entry b) }
    {
        let place = self.expected_place()?;
        let Some(node) = self.types.node(place) else {
            return Err(StepError::OutOfPlace);
        };
        let mut builder = self;
        if is_list(node) {
            let mut events = Vec::new(builder.alloc);
            events.push(Event::ListBegins(place, 0))?;
            builder.open.push(Open::List {
                place,
                count: 0,
                events,
            })?;
            return Ok(builder);
        }
        if is_sequence(node) {
            let given = Vec::new(builder.alloc);
            builder.open.push(Open::Parts {
                place,
                given,
                awaited: None,
            })?;
            return Ok(builder);
        }
        Err(StepError::OutOfPlace)
    }

    /// The component whose value comes next.
    pub fn component(self, part: Part) -> Result<Self, StepError>
        ensures { IfOk result (λ b. IsSameType self.entry b) }
    {
        let mut builder = self;
        let Some(
            Open::Parts {
                place,
                given,
                awaited: None,
            },
        ) = builder.open.pop()
        else {
            return Err(StepError::OutOfPlace);
        };
        if component_at(builder.types, place, part).is_none() {
            return Err(StepError::NoSuchPart);
        }
        if given.iter().any(|one| one.part == part) {
            return Err(StepError::PartTwice(part));
        }
        builder.open.push(Open::Parts {
            place,
            given,
            awaited: Some(part),
        })?;
        Ok(builder)
    }

    /// The chosen alternative of a CHOICE, whose value comes next. The CHOICE ends with it.
    pub fn choose(self, chosen: Chosen) -> Result<Self, StepError>
        ensures { IfOk result (λ b. IsSameType self.entry b) }
    {
        let place = self.expected_place()?;
        let mut builder = self;
        let Some(node) = builder.types.node(place) else {
            return Err(StepError::OutOfPlace);
        };
        if alternative_of(node, chosen).is_none() {
            return Err(StepError::NoSuchPart);
        }
        builder.open.push(Open::Choice { place, chosen })?;
        Ok(builder)
    }

    /// The innermost SEQUENCE, SET, SEQUENCE OF or SET OF ends.
    pub fn end(self) -> Result<Self, StepError>
        ensures { IfOk result (λ b. IsSameType self.entry b) }
    {
        let mut builder = self;
        match builder.open.pop() {
            Some(
                Open::List {
                    place,
                    count,
                    events,
                },
            ) => {
                let mut events = events;
                events.push(Event::Further(false))?;
                events.push(Event::Ends)?;
                set_count(&mut events, 0, place, count);
                builder.put(events)
            }
            Some(
                Open::Parts {
                    place,
                    given,
                    awaited: None,
                },
            ) => {
                let events = gather(builder.alloc, builder.types, place, given)?;
                builder.put(events)
            }
            _ => Err(StepError::OutOfPlace),
        }
    }

    /// The tape of the value, which is one of the type.
    ///
    /// # Errors
    ///
    /// `OutOfPlace` if the value has not ended; `Refused` if it is not one of the type; `OutOfMemory`.
    pub fn finish(self) -> Result<Vec<Event>, StepError>
        ensures { IfOk result (λ tape. IsTapeOf self.entry.types.now.nodes.items
            (type_at self.entry.types.now.nodes.items 128 self.entry.place) tape.items) }
    {
        let TapeBuilder {
            alloc,
            types,
            place,
            whole,
            ..
        } = self;
        let Some(events) = whole else {
            return Err(StepError::OutOfPlace);
        };
        let tape = build(alloc, types, place, events.as_slice())?;
        Ok(tape)
    }

    // The index of the type of the value that comes next.
    fn expected_place(&self) -> Result<usize, StepError> {
        self.expected().ok_or(StepError::OutOfPlace)
    }

    // A value without parts.
    fn scalar(self, event: Event) -> Result<Self, StepError>
        ensures { IfOk result (λ b. IsSameType self.entry b) }
    {
        let place = self.expected_place()?;
        match self.types.node(place) {
            Some(node) if is_scalar(node, &event) => {
                let mut events = Vec::new(self.alloc);
                events.push(event)?;
                self.put(events)
            }
            _ => Err(StepError::OutOfPlace),
        }
    }

    // A value has ended: it becomes a part of the one around it, and with it each CHOICE ends that it is the value of.
    fn put(self, value: Vec<Event>) -> Result<Self, StepError>
        ensures { IfOk result (λ b. IsSameType self.entry b) }
    {
        let mut builder = self;
        let mut value = value;
        while let Some(open) = builder.open.pop() {
            match open {
                Open::Choice { place, chosen } => {
                    value = chosen_value(builder.alloc, place, chosen, value)?;
                }
                Open::List {
                    place,
                    count,
                    events,
                } => {
                    let list = longer(place, count, events, value)?;
                    builder.open.push(list)?;
                    return Ok(builder);
                }
                Open::Parts {
                    place,
                    given,
                    awaited,
                } => {
                    let parts = with_part(place, given, awaited, value)?;
                    builder.open.push(parts)?;
                    return Ok(builder);
                }
            }
        }
        builder.whole = Some(value);
        Ok(builder)
    }
}

// The events of a CHOICE.
fn chosen_value(
    alloc: Global,
    place: usize,
    chosen: Chosen,
    value: Vec<Event>,
) -> Result<Vec<Event>, StepError> {
    let mut value = value;
    let mut events = Vec::new(alloc);
    events.push(Event::ChoiceBegins(place, chosen))?;
    events.append(&mut value)?;
    events.push(Event::Ends)?;
    Ok(events)
}

// A list with one more element.
fn longer(
    place: usize,
    count: usize,
    events: Vec<Event>,
    value: Vec<Event>,
) -> Result<Open, StepError> {
    let mut events = events;
    let mut value = value;
    events.push(Event::Further(true))?;
    events.append(&mut value)?;
    Ok(Open::List {
        place,
        count: count.saturating_add(1),
        events,
    })
}

// A SEQUENCE or SET with one more component.
fn with_part(
    place: usize,
    given: Vec<Given>,
    awaited: Option<Part>,
    value: Vec<Event>,
) -> Result<Open, StepError> {
    let Some(part) = awaited else {
        return Err(StepError::OutOfPlace);
    };
    let mut given = given;
    given.push(Given { part, value })?;
    Ok(Open::Parts {
        place,
        given,
        awaited: None,
    })
}
