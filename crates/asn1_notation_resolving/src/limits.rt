//! Value constraints, sizes and permitted alphabets, as tables have them.
use crate::bases::Base;
use crate::sets::{Aspect, check_values, has_number, visible};
use asn1_notation_constraints::{BoundsError, size_limits};
use asn1_notation_intervals::{Interval, NumberSet};
use asn1_notation_names::{Files, NotationError, Problem};
use asn1_notation_tree::StringName;
use asn1_schema_constraints::{Bounded, Sizes};
use asn1_table_types::{CharacterTable, NumberLimits, StringKind};
use std::alloc::{AllocError, Global};

/// An error of the bounds of a type.
fn bounds_error(base: &Base<'_>, error: BoundsError) -> NotationError {
    match error {
        BoundsError::Empty => base.error(Problem::EmptyConstraint),
        BoundsError::TooLarge => base.error(Problem::SizeOutOfRange),
        BoundsError::OutOfMemory => NotationError::new(Problem::OutOfMemory),
    }
}

/// The value constraint of an INTEGER (X.691 10.3), if it has one.
///
/// # Errors
///
/// `OutsideParent` at a value that the type before the constraint does not have, `EmptyConstraint` at a constraint
/// after which no value is left. `TooDeep` at a constraint in 64 others. Those of `integer_of` and `base_of`.
pub fn number_limits(
    alloc: Global,
    files: &mut Files<'_, '_>,
    base: &Base<'_>,
) -> Result<Option<NumberLimits>, NotationError> {
    let all = NumberSet::of(alloc, &[Interval::ALL])?;
    check_values(alloc, files, base, Aspect::Numbers, all)?;
    let Some(visible) = visible(alloc, files, base, Aspect::Numbers)? else {
        return Ok(None);
    };
    match asn1_notation_constraints::number_limits(&visible) {
        Ok(None) => Ok(None),
        Ok(Some(limits)) => Ok(Some(NumberLimits {
            root: limits.root,
            is_extensible: limits.is_extensible,
        })),
        Err(error) => Err(bounds_error(base, error)),
    }
}

/// The sizes of a string or list (X.691 10.3): the numbers of its bits, octets, characters or elements.
///
/// # Errors
///
/// `SizeOutOfRange` at a size above 2^64 - 1. Those of `number_limits`.
pub fn sizes(
    alloc: Global,
    files: &mut Files<'_, '_>,
    base: &Base<'_>,
) -> Result<Sizes, NotationError> {
    let from_zero = Interval {
        low: Some(0),
        high: None,
    };
    let all = NumberSet::of(alloc, &[from_zero])?;
    check_values(alloc, files, base, Aspect::Sizes, all)?;
    let Some(visible) = visible(alloc, files, base, Aspect::Sizes)? else {
        return Ok(Sizes {
            root: Bounded::None,
            is_extensible: false,
        });
    };
    size_limits(alloc, &visible).map_err(|error| bounds_error(base, error))
}

/// The kind of a character string (X.680 41), if tables hold it.
pub fn string_kind(name: StringName) -> Option<StringKind> {
    match name {
        StringName::Bmp => Some(StringKind::Bmp),
        StringName::General => Some(StringKind::General),
        StringName::Graphic => Some(StringKind::Graphic),
        StringName::Ia5 => Some(StringKind::Ia5),
        StringName::Numeric => Some(StringKind::Numeric),
        StringName::Printable => Some(StringKind::Printable),
        StringName::Teletex => Some(StringKind::Teletex),
        StringName::Utf8 => Some(StringKind::Utf8),
        StringName::Visible => Some(StringKind::Visible),
        StringName::Universal | StringName::Videotex => None,
    }
}

/// Whether a kind is a known-multiplier type, whose characters take the same number of bits each (X.691 3.7.16).
pub fn has_known_multiplier(kind: StringKind) -> bool {
    permitted_characters(kind).is_some()
}

/// The characters of a kind of string as intervals, if its permitted alphabet counts in PER (X.691 30.1).
fn permitted_characters(kind: StringKind) -> Option<&'static [(u32, u32)]> {
    match kind {
        StringKind::Numeric => Some(&[(32, 32), (48, 57)]),
        StringKind::Printable => {
            Some(&[
                (32, 32),
                (39, 41),
                (43, 58),
                (61, 61),
                (63, 63),
                (65, 90),
                (97, 122),
            ])
        }
        StringKind::Visible => Some(&[(32, 126)]),
        StringKind::Ia5 => Some(&[(0, 127)]),
        StringKind::Bmp => Some(&[(0, 65535)]),
        StringKind::General | StringKind::Graphic | StringKind::Teletex | StringKind::Utf8 => None,
    }
}

/// The characters of a kind of string, if its permitted alphabet counts in PER.
fn own_characters(alloc: Global, kind: StringKind) -> Result<Option<NumberSet>, AllocError> {
    let Some(own) = permitted_characters(kind) else {
        return Ok(None);
    };
    let mut intervals = Vec::new(alloc);
    for (low, high) in own {
        intervals.push(Interval {
            low: Some(i128::from(*low)),
            high: Some(i128::from(*high)),
        })?;
    }
    Ok(Some(NumberSet::of(alloc, intervals.as_slice())?))
}

/// The permitted alphabet of a character string (X.680 51.7), if it has one that counts: its characters that are also
/// characters of the kind.
///
/// # Errors
///
/// `EmptyConstraint` at the type, if there are none. `OutsideParent` at a character that the type before the constraint
/// does not have, `ValueOfOtherType` at a value that is no text, or at an end of a range that is not one character.
/// `TooDeep` at a constraint in 64 others. Those of `settled` and `base_of`.
pub fn alphabet(
    alloc: Global,
    files: &mut Files<'_, '_>,
    base: &Base<'_>,
    kind: StringKind,
) -> Result<Option<CharacterTable>, NotationError> {
    let visible = visible(alloc, files, base, Aspect::Alphabet)?;
    let (Some(visible), Some(own)) = (visible, own_characters(alloc, kind)?) else {
        return Ok(None);
    };
    let set = visible.numbers.intersection(alloc, &own)?;
    check_values(alloc, files, base, Aspect::Alphabet, own)?;
    if set.hull().is_none() {
        return Err(base.error(Problem::EmptyConstraint));
    }
    let mut characters = Vec::new(alloc);
    for interval in set.intervals() {
        if let (Some(low), Some(high)) = (character_in(interval.low), character_in(interval.high)) {
            for character in low..=high {
                characters.push(character)?;
            }
        }
    }
    Ok(Some(CharacterTable {
        characters,
        is_extensible: visible.is_extensible,
    }))
}

/// Whether a string of a kind may have characters, and its permitted alphabet has them unless it has an extension
/// marker.
///
/// # Errors
///
/// Those of `alphabet`.
pub fn permits(
    alloc: Global,
    files: &mut Files<'_, '_>,
    base: &Base<'_>,
    kind: StringKind,
    characters: &[u8],
) -> Result<bool, NotationError> {
    let own = own_characters(alloc, kind)?;
    let table = alphabet(alloc, files, base, kind)?;
    for character in characters {
        let number = u32::from(*character);
        if let Some(own) = &own {
            if !has_number(own, i128::from(number)) {
                return Ok(false);
            }
        }
        if let Some(table) = &table {
            if !table.is_extensible && !table.characters.contains(&number) {
                return Ok(false);
            }
        }
    }
    Ok(true)
}

/// The number of a character.
fn character_in(end: Option<i128>) -> Option<u32> {
    u32::try_from(end?).ok()
}
