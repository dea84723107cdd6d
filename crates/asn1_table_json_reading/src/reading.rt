//! A value is read from JSON.
#![tactic(auto, using(std::proofs::lemmas::Grind::common_steps))]

ghost use Rattle.std.specs.Prelude.{◌≡◌, ◌≤◌, length, IfOk, IfErr};
ghost use Rattle.asn1_table_building.specs.Built.{IsTapeOf};
ghost use Rattle.asn1_table_building.specs.Steps.{IsSameType};
ghost use Rattle.asn1_table_nodes.specs.Meaning.{type_at};

use crate::errors::{JsonError, JsonErrorKind};
use crate::finding::{find_alternative, find_part};
use crate::levels::{BitsMember, BitsMembers, Choosing, Level, Levels};
use crate::scalars::{form_of, length_of, object_bits, octets_of, scalar_of};
use asn1_table_building::{BuildError, StepError, TapeBuilder, build};
use asn1_table_names::{Names, is_list, is_sequence};
use asn1_table_tape::Event;
use asn1_table_types::{TypeNode, Types};
use json::{Reader, Scratch, Token};
use std::alloc::{AllocError, Global};

/// The tape of a value of the type at an index of a table, from its JSON text. Names may be missing.
///
/// Members of an object come in any order; a component at its default may be given. A member that is no component is
/// refused, also where the type has an extension marker. An INTEGER has no fraction and no exponent. A BIT STRING is
/// read in both of its forms.
///
/// # Errors
///
/// The first thing that is wrong with the text, where it is, and the path to it.
pub fn read_json(
    alloc: Global,
    types: &Types,
    names: &Names,
    place: usize,
    text: &str,
) -> Result<Vec<Event>, JsonError>
    ensures tape { IfOk result
        (λ tape. IsTapeOf types.now.nodes.items (type_at types.now.nodes.items 128 place) tape.items) }
    ensures offset { IfErr result (λ e. e.offset ≤ length text.now) }
{
    match read_checked(alloc, types, names, place, text) {
        Ok(tape) => Ok(tape),
        Err(error) => Err(clamped(error, text.len())),
    }
}

/// An error at an octet of the text, or at its end.
fn clamped(error: JsonError, end: usize) -> JsonError
    ensures { result.offset ≤ end }
{
    let JsonError { kind, path, offset } = error;
    JsonError {
        kind,
        path,
        offset: offset.min(end),
    }
}

/// The tape of a value. Where it is outside a constraint, it is read once more to find the place.
fn read_checked(
    alloc: Global,
    types: &Types,
    names: &Names,
    place: usize,
    text: &str,
) -> Result<Vec<Event>, JsonError>
    ensures { IfOk result
        (λ tape. IsTapeOf types.now.nodes.items (type_at types.now.nodes.items 128 place) tape.items) }
{
    match read_once(alloc, types, names, place, text, false) {
        Ok(tape) => Ok(tape),
        Err(error) => {
            if error.kind == JsonErrorKind::NotOfType {
                return read_once(alloc, types, names, place, text, true);
            }
            Err(error)
        }
    }
}

/// The tape of a value. Each value without parts may be checked by itself, to find one that is outside a constraint.
fn read_once(
    alloc: Global,
    types: &Types,
    names: &Names,
    place: usize,
    text: &str,
    checks_each: bool,
) -> Result<Vec<Event>, JsonError>
    ensures { IfOk result
        (λ tape. IsTapeOf types.now.nodes.items (type_at types.now.nodes.items 128 place) tape.items) }
{
    let mut reading = Reading {
        alloc,
        types,
        names,
        checks_each,
        levels: Levels::new(alloc),
    };
    let mut scratch = Scratch::new(alloc);
    let Ok(reader) = Reader::new(text, &mut scratch) else {
        return Err(reading.error(JsonErrorKind::OutOfMemory.into(), 0));
    };
    let builder = reading.take_all(TapeBuilder::new(alloc, types, place), reader)?;
    match builder.finish() {
        Ok(tape) => Ok(tape),
        Err(error) => Err(reading.error(JsonErrorKind::from(error).into(), text.len())),
    }
}

/// What is wrong, and with which member of the innermost object.
#[derive(Drop)]
struct Fault<'t> {
    kind: JsonErrorKind,
    member: Option<&'t str>,
}

impl From<JsonErrorKind> for Fault<'_> {
    fn from(kind: JsonErrorKind) -> Self {
        Fault { kind, member: None }
    }
}

impl From<StepError> for Fault<'_> {
    fn from(error: StepError) -> Self {
        Fault {
            kind: JsonErrorKind::from(error),
            member: None,
        }
    }
}

/// What is wrong with a member.
fn member_fault(kind: JsonErrorKind, label: &str) -> Fault<'_> {
    Fault {
        kind,
        member: Some(label),
    }
}

/// A JSON text that is being read.
#[derive(Drop)]
struct Reading<'a> {
    alloc: Global,
    types: &'a Types,
    names: &'a Names,
    checks_each: bool,
    levels: Levels,
}

impl<'a> Reading<'a> {
    /// An error with its path.
    fn error(&self, fault: Fault<'_>, offset: usize) -> JsonError {
        match self
            .levels
            .path(self.alloc, self.types, self.names, fault.member)
        {
            Ok(path) => JsonError {
                kind: fault.kind,
                path,
                offset,
            },
            Err(_) => JsonError {
                kind: JsonErrorKind::OutOfMemory,
                path: String::new(self.alloc),
                offset,
            },
        }
    }

    /// All tokens, which are those of one value.
    fn take_all(
        &mut self,
        builder: TapeBuilder<'a>,
        reader: Reader<'_>,
    ) -> Result<TapeBuilder<'a>, JsonError>
        ensures { IfOk result (λ b. IsSameType builder.entry b) }
    {
        let mut builder = builder;
        let mut reader = reader;
        let mut offset = reader.offset();
        while let Some(token) = reader.next() {
            builder = match self.take(builder, token) {
                Ok(builder) => builder,
                Err(fault) => return Err(self.error(fault, offset)),
            };
            offset = reader.offset();
        }
        if !self.levels.is_empty() || builder.expected().is_some() {
            return Err(self.error(JsonErrorKind::NotJson.into(), offset));
        }
        Ok(builder)
    }

    /// The next token.
    fn take<'t>(
        &mut self,
        builder: TapeBuilder<'a>,
        token: Token<'t>,
    ) -> Result<TapeBuilder<'a>, Fault<'t>>
        ensures { IfOk result (λ b. IsSameType builder.entry b) }
    {
        match token {
            Token::Key(label) => self.key(builder, label),
            Token::EndObject => Ok(self.end_object(builder)?),
            Token::EndArray => Ok(self.end_array(builder)?),
            Token::Bad => Err(JsonErrorKind::NotJson.into()),
            _ => Ok(self.value(builder, token)?),
        }
    }

    // The name of a member.
    fn key<'t>(
        &mut self,
        builder: TapeBuilder<'a>,
        label: &'t str,
    ) -> Result<TapeBuilder<'a>, Fault<'t>>
        ensures { IfOk result (λ b. IsSameType builder.entry b) }
    {
        match self.levels.pop() {
            Some(
                Level::Members {
                    place,
                    awaited: None,
                },
            ) => self.component(builder, place, label),
            Some(
                Level::Alternative {
                    place,
                    state: Choosing::Begun,
                },
            ) => self.alternative(builder, place, label),
            Some(
                Level::Alternative {
                    state: Choosing::Ended,
                    ..
                },
            ) => Err(member_fault(JsonErrorKind::NotOneAlternative, label)),
            Some(Level::Bits(members)) => {
                self.bits_member(members, label)?;
                Ok(builder)
            }
            _ => Err(JsonErrorKind::NotJson.into()),
        }
    }

    // The name of a component.
    fn component<'t>(
        &mut self,
        builder: TapeBuilder<'a>,
        place: usize,
        label: &'t str,
    ) -> Result<TapeBuilder<'a>, Fault<'t>>
        ensures { IfOk result (λ b. IsSameType builder.entry b) }
    {
        let Some(part) = find_part(self.types, self.names, place, label) else {
            return Err(member_fault(JsonErrorKind::UnknownMember, label));
        };
        match builder.component(part) {
            Ok(builder) => {
                self.levels.push(Level::Members {
                    place,
                    awaited: Some(part),
                })?;
                Ok(builder)
            }
            Err(error) => Err(member_fault(JsonErrorKind::from(error), label)),
        }
    }

    // The name of an alternative.
    fn alternative<'t>(
        &mut self,
        builder: TapeBuilder<'a>,
        place: usize,
        label: &'t str,
    ) -> Result<TapeBuilder<'a>, Fault<'t>>
        ensures { IfOk result (λ b. IsSameType builder.entry b) }
    {
        let Some(chosen) = find_alternative(self.types, self.names, place, label) else {
            return Err(member_fault(JsonErrorKind::UnknownMember, label));
        };
        let builder = builder.choose(chosen)?;
        self.levels.push(Level::Alternative {
            place,
            state: Choosing::Named(chosen),
        })?;
        Ok(builder)
    }

    // The name of a member of the object of a BIT STRING.
    fn bits_member<'t>(&mut self, members: BitsMembers, label: &'t str) -> Result<(), Fault<'t>> {
        if members.awaited.is_some() {
            return Err(JsonErrorKind::NotJson.into());
        }
        let Some(member) = bits_member_of(label) else {
            return Err(member_fault(JsonErrorKind::UnknownMember, label));
        };
        let is_given = match member {
            BitsMember::Value => members.value.is_some(),
            BitsMember::Length => members.length.is_some(),
        };
        if is_given {
            return Err(member_fault(JsonErrorKind::RepeatedMember, label));
        }
        self.levels
            .push(Level::Bits(members.awaiting(Some(member))))?;
        Ok(())
    }

    // The end of an object.
    fn end_object(&mut self, builder: TapeBuilder<'a>) -> Result<TapeBuilder<'a>, JsonErrorKind>
        ensures { IfOk result (λ b. IsSameType builder.entry b) }
    {
        match self.levels.pop() {
            Some(
                Level::Members {
                    place,
                    awaited: None,
                },
            ) => self.end_members(builder, place),
            Some(
                Level::Alternative {
                    state: Choosing::Ended,
                    ..
                },
            ) => {
                self.levels.end_value()?;
                Ok(builder)
            }
            Some(
                Level::Alternative {
                    state: Choosing::Begun,
                    ..
                },
            ) => Err(JsonErrorKind::NotOneAlternative),
            Some(Level::Bits(members)) => {
                let builder = builder.bits(object_bits(self.alloc, members)?)?;
                self.levels.end_value()?;
                Ok(builder)
            }
            _ => Err(JsonErrorKind::NotJson),
        }
    }

    // The end of a SEQUENCE or SET.
    fn end_members(
        &mut self,
        builder: TapeBuilder<'a>,
        place: usize,
    ) -> Result<TapeBuilder<'a>, JsonErrorKind>
        ensures { IfOk result (λ b. IsSameType builder.entry b) }
    {
        match builder.end() {
            Ok(builder) => {
                self.levels.end_value()?;
                Ok(builder)
            }
            Err(StepError::PartMissing(part)) => {
                self.levels.push(Level::Members {
                    place,
                    awaited: Some(part),
                })?;
                Err(JsonErrorKind::MissingMember)
            }
            Err(error) => Err(JsonErrorKind::from(error)),
        }
    }

    // The end of an array.
    fn end_array(&mut self, builder: TapeBuilder<'a>) -> Result<TapeBuilder<'a>, JsonErrorKind>
        ensures { IfOk result (λ b. IsSameType builder.entry b) }
    {
        match self.levels.pop() {
            Some(Level::Elements { .. }) => {
                let builder = builder.end()?;
                self.levels.end_value()?;
                Ok(builder)
            }
            _ => Err(JsonErrorKind::NotJson),
        }
    }

    // A value without parts, or the beginning of one with parts.
    fn value(
        &mut self,
        builder: TapeBuilder<'a>,
        token: Token<'_>,
    ) -> Result<TapeBuilder<'a>, JsonErrorKind>
        ensures { IfOk result (λ b. IsSameType builder.entry b) }
    {
        if !self.levels.awaits_value() {
            return Err(JsonErrorKind::NotJson);
        }
        if let Some(member) = self.levels.awaited_bits() {
            self.bits_value(member, token)?;
            return Ok(builder);
        }
        let Some(place) = builder.expected() else {
            return Err(JsonErrorKind::NotJson);
        };
        match token {
            Token::BeginArray => self.begin_array(builder, place),
            Token::BeginObject => self.begin_object(builder, place),
            _ => self.scalar(builder, place, token),
        }
    }

    // The value of a member of the object of a BIT STRING.
    fn bits_value(&mut self, member: BitsMember, token: Token<'_>) -> Result<(), JsonErrorKind> {
        let (value, length) = match member {
            BitsMember::Value => (Some(octets_of(self.alloc, &token)?), None),
            BitsMember::Length => (None, Some(length_of(&token)?)),
        };
        match self.levels.pop() {
            Some(Level::Bits(members)) => {
                self.levels.push(Level::Bits(BitsMembers {
                    awaited: None,
                    value: value.or(members.value),
                    length: length.or(members.length),
                }))
            }
            _ => Err(JsonErrorKind::NotJson),
        }
    }

    // An array begins.
    fn begin_array(
        &mut self,
        builder: TapeBuilder<'a>,
        place: usize,
    ) -> Result<TapeBuilder<'a>, JsonErrorKind>
        ensures { IfOk result (λ b. IsSameType builder.entry b) }
    {
        let Some(node) = self.types.node(place) else {
            return Err(JsonErrorKind::NotOfType);
        };
        if !is_list(node) {
            return Err(JsonErrorKind::Expected(form_of(node)));
        }
        self.levels.push(Level::Elements { next: 0 })?;
        Ok(builder.begin()?)
    }

    // An object begins.
    fn begin_object(
        &mut self,
        builder: TapeBuilder<'a>,
        place: usize,
    ) -> Result<TapeBuilder<'a>, JsonErrorKind>
        ensures { IfOk result (λ b. IsSameType builder.entry b) }
    {
        let Some(node) = self.types.node(place) else {
            return Err(JsonErrorKind::NotOfType);
        };
        if is_sequence(node) {
            self.levels.push(Level::Members {
                place,
                awaited: None,
            })?;
            return Ok(builder.begin()?);
        }
        match node {
            TypeNode::Choice(_) => self.levels.push(Level::Alternative {
                place,
                state: Choosing::Begun,
            })?,
            TypeNode::BitString(_) => self.levels.push(Level::Bits(BitsMembers::new()))?,
            other => return Err(JsonErrorKind::Expected(form_of(other))),
        }
        Ok(builder)
    }

    // A value without parts.
    fn scalar(
        &mut self,
        builder: TapeBuilder<'a>,
        place: usize,
        token: Token<'_>,
    ) -> Result<TapeBuilder<'a>, JsonErrorKind>
        ensures { IfOk result (λ b. IsSameType builder.entry b) }
    {
        let event = scalar_of(self.alloc, self.types, self.names, place, &token)?;
        if self.checks_each {
            check(self.alloc, self.types, place, &event)?;
        }
        let builder = with_scalar(builder, event)?;
        self.levels.end_value()?;
        Ok(builder)
    }
}

/// The member of the object of a BIT STRING with a name.
fn bits_member_of(label: &str) -> Option<BitsMember> {
    if label == BitsMember::Value.label() {
        return Some(BitsMember::Value);
    }
    if label == BitsMember::Length.label() {
        return Some(BitsMember::Length);
    }
    None
}

/// Whether a value without parts is one of the type at an index.
fn check(alloc: Global, types: &Types, place: usize, event: &Event) -> Result<(), JsonErrorKind> {
    match build(alloc, types, place, std::slice::from_ref(event)) {
        Ok(_) => Ok(()),
        Err(BuildError::OutOfMemory) => Err(JsonErrorKind::OutOfMemory),
        Err(_) => Err(JsonErrorKind::OutsideConstraint),
    }
}

/// A value without parts comes next.
fn with_scalar(builder: TapeBuilder<'_>, event: Event) -> Result<TapeBuilder<'_>, StepError>
    ensures { IfOk result (λ b. IsSameType builder.entry b) }
{
    match event {
        Event::Flag(value) => builder.flag(value),
        Event::Nil => builder.null(),
        Event::Number(_, number) => builder.number(number),
        Event::Item(_, item) => builder.item(item),
        Event::Bits(_, bits) => builder.bits(bits),
        Event::Octets(_, octets) => builder.octets(octets),
        Event::Text(_, text) => builder.text(text),
        Event::Arcs(arcs) => builder.arcs(arcs),
        _ => Err(StepError::OutOfPlace),
    }
}
