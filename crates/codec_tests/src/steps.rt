//! Calls of an encoder in sequence, and what a decoder finds with the same calls.
use asn1_schema_constraints::{Bounded, Constraints, Extensible, Size};
use asn1_schema_decode::{Decode, Decoder, ReadOctets};
use asn1_schema_encode::{Encode, Encoder};
use asn1_schema_errors::{DecodeError, EncodeError};
use asn1_schema_tags::{Chosen, Class, Identifier, Tag, TagPlace, TagTables};
use std::alloc::{AllocError, Global};

/// A call, with what it writes and finds.
#[derive(Clone, Copy)]
pub enum Step {
    /// Begins a SEQUENCE, with or without an extension marker, and with a number of optional root components.
    Sequence(bool, usize),
    /// Begins such a SET.
    Set(bool, usize),
    /// Begins a SET (SIZE (1..2)) OF with a number of elements.
    Bag(usize),
    /// Begins a choice with one of its alternatives.
    Choice(Choice, Chosen),
    /// Whether a component is present.
    Present(bool),
    /// Whether there is one more element.
    Further(bool),
    /// Begins a number of additions.
    Additions(usize),
    /// All but the last of a number of additions are absent.
    AbsentOf(usize),
    /// Whether an addition is present.
    Addition(bool),
    /// Ends an addition.
    EndOfAddition,
    /// Ends what was begun last.
    End,
    /// NULL.
    Null,
    /// BOOLEAN.
    Truth(bool),
    /// INTEGER (0..255).
    Octet(u8),
    /// INTEGER (0..65535).
    Word(u16),
    /// INTEGER.
    Number(i64),
    /// OCTET STRING: the string of the message, constrained to its size if true.
    String(bool),
}

/// The alternatives of a choice.
#[derive(Clone, Copy)]
pub enum Choice {
    /// CHOICE {[0], [5], ..., [2]}.
    OfThree,
    /// CHOICE {[0], [1] to [299]}.
    Of300,
    /// CHOICE {[0], ..., [1] to [300]}.
    WithAdditions,
}

/// What steps refer to.
#[derive(Clone, Copy)]
pub struct Lent<'a> {
    /// The tags from [0] to [300].
    pub tags: &'a [Tag],
    /// The same tags, each with its number as its index.
    pub places: &'a [TagPlace],
    /// The octets of the message's string.
    pub string: &'a [u8],
}

/// The tags from [0] to [300].
pub fn tags(alloc: Global) -> Result<Vec<Tag>, AllocError> {
    let mut tags = Vec::new(alloc);
    for number in 0..301u32 {
        tags.push(Tag::new_context(number))?;
    }
    Ok(tags)
}

/// Each tag with its index.
pub fn places_of(alloc: Global, tags: &[Tag]) -> Result<Vec<TagPlace>, AllocError> {
    let mut places = Vec::new(alloc);
    for (place, tag) in tags.iter().enumerate() {
        places.push(TagPlace { tag: *tag, place })?;
    }
    Ok(places)
}

/// A context-specific tag.
macro_rules! context {
    ($value:literal) => {
        Tag {
            class: Class::Context,
            value: $value,
        }
    };
}

/// A context-specific tag, with an index.
macro_rules! at {
    ($value:literal $place:literal) => {
        TagPlace {
            tag: context!($value),
            place: $place,
        }
    };
}

/// The indexes of CHOICE {[0], [5], ..., [2]}.
const PLACES_OF_THREE: [TagPlace; 3] = [at!(0 0), at!(2 2), at!(5 1)];

/// Its root alternatives.
const ROOTS_OF_THREE: [Tag; 2] = [context!(0), context!(5)];

/// Its addition.
const ADDITIONS_OF_THREE: [Tag; 1] = [context!(2)];

/// The tags of a choice's root alternatives and of its additions, and the indexes of all.
type Tags<'a> = (&'a [Tag], &'a [Tag], &'a [TagPlace]);

/// The first `count` items, or all if there are no more, and those after them.
fn parted<T>(items: &[T], count: usize) -> (&[T], &[T]) {
    items.split_at(count.min(items.len()))
}

/// The tags of 300 root alternatives, and their indexes.
fn tags_of_300(lent: Lent<'_>) -> Tags<'_> {
    let (roots, _) = parted(lent.tags, 300);
    let (places, _) = parted(lent.places, 300);
    (roots, &[], places)
}

/// Those of one root alternative and 300 additions.
fn tags_of_additions(lent: Lent<'_>) -> Tags<'_> {
    let (roots, additions) = parted(lent.tags, 1);
    (roots, additions, lent.places)
}

/// Those of a choice.
fn tags_of(choice: Choice, lent: Lent<'_>) -> Tags<'_> {
    match choice {
        Choice::OfThree => (&ROOTS_OF_THREE, &ADDITIONS_OF_THREE, &PLACES_OF_THREE),
        Choice::Of300 => tags_of_300(lent),
        Choice::WithAdditions => tags_of_additions(lent),
    }
}

/// Whether a choice has an extension marker.
fn is_extensible(choice: Choice) -> bool {
    !matches!(choice, Choice::Of300)
}

/// The constraint to these sizes.
fn sized(low: usize, high: usize) -> Constraints<'static> {
    Constraints {
        size: Some(Extensible::new(Size::new(Bounded::const_new(low, high)))),
        ..Constraints::NONE
    }
}

/// The constraint of the message's string.
fn constraints_of(is_sized: bool, string: &[u8]) -> Constraints<'static> {
    if is_sized {
        sized(string.len(), string.len())
    } else {
        Constraints::NONE
    }
}

/// Writes that all but the last of `count` additions are absent.
fn put_absent<E: Encoder>(encoder: &mut E, count: usize) -> Result<(), EncodeError> {
    for _ in 1..count {
        encoder.encode_addition(false)?;
    }
    Ok(())
}

/// Writes a value without components.
fn put_value<E: Encoder>(encoder: &mut E, step: Step, string: &[u8]) -> Result<(), EncodeError> {
    match step {
        Step::Null => encoder.encode_null(Tag::NULL, Identifier::NULL),
        Step::Truth(value) => value.encode(encoder),
        Step::Octet(value) => value.encode(encoder),
        Step::Word(value) => value.encode(encoder),
        Step::Number(value) => value.encode_with_constraints(encoder, &Constraints::NONE),
        Step::String(is_sized) => {
            let constraints = constraints_of(is_sized, string);
            let (tag, name) = (Tag::OCTET_STRING, Identifier::EMPTY);
            encoder.encode_octet_string(tag, &constraints, Bounded::None, string, name)
        }
        _ => Err(EncodeError::CallOutOfPlace),
    }
}

/// Does a call of an encoder.
fn put<E: Encoder>(encoder: &mut E, step: Step, lent: Lent<'_>) -> Result<(), EncodeError> {
    match step {
        Step::Sequence(is_extensible, optional) => {
            encoder.begin_sequence(Tag::SEQUENCE, is_extensible, optional)
        }
        Step::Set(is_extensible, optional) => encoder.begin_set(Tag::SET, is_extensible, optional),
        Step::Bag(count) => encoder.begin_bag(Tag::SET, &sized(1, 2), Bounded::None, count),
        Step::Choice(choice, chosen) => {
            let (roots, additions, _) = tags_of(choice, lent);
            encoder.begin_choice(Tag::CHOICE, roots, is_extensible(choice), additions, chosen)
        }
        Step::Present(is_there) => encoder.encode_presence_bit(is_there),
        Step::Further(is_there) => encoder.encode_further(is_there),
        Step::Additions(count) => encoder.begin_additions(count),
        Step::AbsentOf(count) => put_absent(encoder, count),
        Step::Addition(is_there) => encoder.encode_addition(is_there),
        Step::EndOfAddition => encoder.end_addition(),
        Step::End => encoder.end(),
        value => put_value(encoder, value, lent.string),
    }
}

/// Does calls of an encoder.
pub fn put_all<E: Encoder>(
    encoder: &mut E,
    steps: &[Step],
    lent: Lent<'_>,
) -> Result<(), EncodeError> {
    for step in steps {
        put(encoder, *step, lent)?;
    }
    Ok(())
}

/// Whether all but the last of `count` additions are absent.
fn are_absent<D: Decoder>(decoder: &mut D, count: usize) -> Result<bool, DecodeError> {
    for _ in 1..count {
        if decoder.get_addition()? {
            return Ok(false);
        }
    }
    Ok(true)
}

/// The alternative of a choice that comes next.
fn chosen<D: Decoder>(
    decoder: &mut D,
    choice: Choice,
    lent: Lent<'_>,
) -> Result<Chosen, DecodeError> {
    let (roots, additions, places) = tags_of(choice, lent);
    match TagTables::checked(roots, is_extensible(choice), additions, places) {
        Some(tables) => decoder.begin_choice(Tag::CHOICE, &tables),
        None => Err(DecodeError::Incomplete),
    }
}

/// Whether the string of the message comes next.
fn is_string<D: Decoder>(
    alloc: Global,
    decoder: &mut D,
    is_sized: bool,
    string: &[u8],
) -> Result<bool, DecodeError> {
    let constraints = constraints_of(is_sized, string);
    let tag = Tag::OCTET_STRING;
    let found = decoder.decode_octet_string(alloc, tag, &constraints, Bounded::None)?;
    Ok(found.octets() == string)
}

/// Finds a step without a value.
fn find<D: Decoder>(decoder: &mut D, step: Step) -> Result<(), DecodeError> {
    match step {
        Step::Sequence(is_extensible, optional) => {
            decoder.begin_sequence(Tag::SEQUENCE, is_extensible, optional)
        }
        Step::Set(is_extensible, optional) => decoder.begin_set(Tag::SET, is_extensible, optional),
        Step::Bag(_) => decoder.begin_bag(Tag::SET, &sized(1, 2), Bounded::None),
        Step::Additions(count) => decoder.begin_additions(count),
        Step::EndOfAddition => decoder.end_addition(),
        Step::Null => decoder.decode_null(Tag::NULL),
        _ => decoder.end(),
    }
}

/// Whether what comes next is the value of a step.
fn is_found<D: Decoder>(
    alloc: Global,
    decoder: &mut D,
    step: Step,
    lent: Lent<'_>,
) -> Result<bool, DecodeError> {
    match step {
        Step::Choice(choice, wanted) => Ok(chosen(decoder, choice, lent)? == wanted),
        Step::Present(is_there) => Ok(decoder.get_presence_bit()? == is_there),
        Step::Further(is_there) => Ok(decoder.get_further()? == is_there),
        Step::AbsentOf(count) => are_absent(decoder, count),
        Step::Addition(is_there) => Ok(decoder.get_addition()? == is_there),
        Step::Truth(value) => Ok(bool::decode(alloc, decoder)? == value),
        Step::Octet(value) => Ok(u8::decode(alloc, decoder)? == value),
        Step::Word(value) => Ok(u16::decode(alloc, decoder)? == value),
        Step::Number(value) => {
            Ok(i64::decode_with_constraints(alloc, decoder, &Constraints::NONE)? == value)
        }
        Step::String(is_sized) => is_string(alloc, decoder, is_sized, lent.string),
        frame => {
            find(decoder, frame)?;
            Ok(true)
        }
    }
}

/// Whether a decoder finds what these steps write.
pub fn are_found<D: Decoder>(
    alloc: Global,
    decoder: &mut D,
    steps: &[Step],
    lent: Lent<'_>,
) -> Result<bool, DecodeError> {
    for step in steps {
        if !is_found(alloc, decoder, *step, lent)? {
            return Ok(false);
        }
    }
    Ok(true)
}
