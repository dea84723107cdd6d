//! Values without parts, as defaults have them (X.680 17.7).
ghost use Rattle.std.specs.Prelude.{◌≡◌, false, IfSome};
ghost use Rattle.asn1_schema_constraints.specs.declared.bounds.Bounded.TheVariants.{Single};

use asn1_notation_resolving::{
    Base, Files, NotationError, Problem, ValueUse, arcs_of, characters_of, has_known_multiplier,
    integer_of, item_of, number_limits, numbers_of, permits, settled, sizes, string_kind,
};
use asn1_notation_tree::{Enumeration, ListElement, NamedNumber, StringName, TypeKind, ValueKind};
use asn1_schema_constraints::{Bounded, Sizes};
use asn1_table_types::{Event, StringKind};
use asn1_values_bit_strings::BitString;
use asn1_values_identifiers::ObjectIdentifier;
use asn1_values_integers::Integer;
use std::alloc::{AllocError, Global};
use std::borrow::CowSlice;

/// How many bits a default with named bits has at most.
const MOST_BITS: usize = 65_536;

/// Values of a type, and where they are written.
#[derive(Clone, Copy)]
struct Valued<'a, 'b, 'i> {
    alloc: Global,
    files: &'b Files<'a, 'i>,
    base: &'b Base<'a>,
    value: ValueUse,
    /// The sizes of a BIT STRING with named bits.
    sizes: Option<Sizes>,
}

/// The size, if it is fixed.
pub(crate) fn fixed_size(sizes: &Sizes) -> Option<usize>
    ensures root { IfSome result (λ size. sizes.now.root ≡ Single size) }
    ensures closed { IfSome result (λ _. sizes.now.is_extensible ≡ false) }
{
    match sizes.root {
        Bounded::Single(size) if !sizes.is_extensible => Some(size),
        _ => None,
    }
}

/// A value without parts, of a type, which its constraints allow.
pub(crate) fn event_of<'a>(
    alloc: Global,
    files: &mut Files<'a, '_>,
    base: &Base<'a>,
    value: ValueUse,
) -> Result<Event, NotationError> {
    let event = written_event(alloc, files, base, value)?;
    if is_allowed(alloc, files, base, &event)? {
        return Ok(event);
    }
    Err(value.error(files, Problem::DefaultOutside))
}

/// Whether the constraints of a type allow a value, as far as they count in all rules, and the permitted alphabet.
fn is_allowed(
    alloc: Global,
    files: &mut Files<'_, '_>,
    base: &Base<'_>,
    event: &Event,
) -> Result<bool, NotationError> {
    match (event, &base.term.kind) {
        (Event::Number(number), _) => match number_limits(alloc, files, base)? {
            Some(limits) => Ok(limits.is_extensible || limits.root.in_bound(number)),
            None => Ok(true),
        },
        (Event::Bits(bits), _) => has_size(alloc, files, base, bits.len()),
        (Event::Octets(octets), _) => has_size(alloc, files, base, octets.len()),
        (Event::Text(characters), TypeKind::CharacterString(name)) => match string_kind(*name) {
            Some(kind) => {
                let characters = characters.as_slice();
                let are_permitted = permits(alloc, files, base, kind, characters)?;
                Ok(are_permitted && has_length(alloc, files, base, kind, characters.len())?)
            }
            None => Ok(true),
        },
        _ => Ok(true),
    }
}

/// Whether the constraints of a type allow a size (X.680 51.5).
pub(crate) fn has_size(
    alloc: Global,
    files: &mut Files<'_, '_>,
    base: &Base<'_>,
    size: usize,
) -> Result<bool, NotationError> {
    let sizes = sizes(alloc, files, base)?;
    Ok(sizes.is_extensible || sizes.root.contains(&size))
}

/// Whether the constraints of a string allow a number of characters.
fn has_length(
    alloc: Global,
    files: &mut Files<'_, '_>,
    base: &Base<'_>,
    kind: StringKind,
    length: usize,
) -> Result<bool, NotationError> {
    Ok(!has_known_multiplier(kind) || has_size(alloc, files, base, length)?)
}

/// The octets in UTF-8 of the characters with these numbers, if each is that of one.
fn utf8_of(alloc: Global, numbers: &[u32]) -> Result<Option<Vec<u8>>, AllocError> {
    let mut text = String::new(alloc);
    for number in numbers {
        let Some(character) = char::from_u32(*number) else {
            return Ok(None);
        };
        text.push(character)?;
    }
    let mut octets = Vec::new(alloc);
    octets.extend_from_slice(text.as_bytes())?;
    Ok(Some(octets))
}

/// An octet for each of these numbers, if none is above 255.
fn octets_of(alloc: Global, numbers: &[u32]) -> Result<Option<Vec<u8>>, AllocError> {
    let mut octets = Vec::new(alloc);
    for number in numbers {
        let Ok(octet) = u8::try_from(*number) else {
            return Ok(None);
        };
        octets.push(octet)?;
    }
    Ok(Some(octets))
}

/// A value without parts, of a type.
fn written_event<'a>(
    alloc: Global,
    files: &mut Files<'a, '_>,
    base: &Base<'a>,
    value: ValueUse,
) -> Result<Event, NotationError> {
    let sizes = match &base.term.kind {
        TypeKind::BitString(names) if !names.is_empty() => Some(sizes(alloc, files, base)?),
        _ => None,
    };
    let valued = Valued {
        alloc,
        files,
        base,
        value,
        sizes,
    };
    match &base.term.kind {
        TypeKind::Boolean => valued.truth(),
        TypeKind::Null => valued.nothing(),
        TypeKind::Integer(numbers) => valued.number(numbers.as_slice()),
        TypeKind::Enumerated(items) => valued.item(items),
        TypeKind::BitString(names) => valued.bits(names.as_slice()),
        TypeKind::OctetString => valued.octets(),
        TypeKind::CharacterString(name) => valued.text(*name),
        TypeKind::ObjectIdentifier => valued.arcs(),
        _ => Err(valued.error(Problem::UnsupportedDefault)),
    }
}

impl Valued<'_, '_, '_> {
    /// An error at the value.
    fn error(self, problem: Problem) -> NotationError {
        self.value.error(self.files, problem)
    }

    /// A value of BOOLEAN (X.680 18.3).
    fn truth(self) -> Result<Event, NotationError> {
        let at = settled(self.files, self.value)?;
        match self.files.value_term(at.scope, at.index)?.kind {
            ValueKind::Boolean(value) => Ok(Event::Truth(value)),
            _ => Err(self.error(Problem::ValueOfOtherType)),
        }
    }

    /// The value of NULL (X.680 24.3).
    fn nothing(self) -> Result<Event, NotationError> {
        let at = settled(self.files, self.value)?;
        match self.files.value_term(at.scope, at.index)?.kind {
            ValueKind::Null => Ok(Event::Nothing),
            _ => Err(self.error(Problem::ValueOfOtherType)),
        }
    }

    /// A value of INTEGER (X.680 19.9).
    fn number(self, numbers: &[NamedNumber]) -> Result<Event, NotationError> {
        let number = integer_of(self.files, self.base.at.scope, numbers, self.value)?;
        Ok(Event::Number(Integer::from_i128(number)))
    }

    /// A value of ENUMERATED (X.680 20.8).
    fn item(self, items: &Enumeration) -> Result<Event, NotationError> {
        let scope = self.base.at.scope;
        let numbers = numbers_of(self.alloc, self.files, scope, items)?;
        Ok(Event::Item(item_of(self.files, &numbers, self.value)?))
    }

    /// A value of BIT STRING (X.680 22.9): a bstring, an hstring, or named bits.
    fn bits(self, names: &[NamedNumber]) -> Result<Event, NotationError> {
        let at = settled(self.files, self.value)?;
        let mut all = Vec::new(self.alloc);
        match &self.files.value_term(at.scope, at.index)?.kind {
            ValueKind::Binary(digits) => {
                for digit in digits {
                    all.push(*digit == 1)?;
                }
            }
            ValueKind::Hexadecimal(digits) => {
                for digit in digits {
                    for weight in [8, 4, 2, 1] {
                        all.push(digit & weight != 0)?;
                    }
                }
            }
            ValueKind::List(elements) => {
                self.set_named(at, elements.as_slice(), names, &mut all)?;
            }
            _ => return Err(self.error(Problem::ValueOfOtherType)),
        }
        if !names.is_empty() {
            self.fit(&mut all)?;
        }
        let mut bits = BitString::new(self.alloc);
        for bit in &all {
            bits.push(*bit)?;
        }
        Ok(Event::Bits(bits))
    }

    /// Sets named bits (X.680 22.10), and adds zeros before them.
    fn set_named(
        self,
        at: ValueUse,
        elements: &[ListElement],
        names: &[NamedNumber],
        bits: &mut Vec<bool>,
    ) -> Result<(), NotationError> {
        let most = self
            .sizes
            .as_ref()
            .and_then(fixed_size)
            .unwrap_or(MOST_BITS);
        for element in elements {
            let bit = ValueUse {
                scope: at.scope,
                index: element.value,
            };
            let number = integer_of(self.files, self.base.at.scope, names, bit)?;
            let place = match usize::try_from(number) {
                Ok(place) if place < most.min(MOST_BITS) => place,
                Ok(place) if place < most => return Err(self.error(Problem::UnsupportedDefault)),
                _ => return Err(bit.error(self.files, Problem::ValueOfOtherType)),
            };
            if bits.len() <= place {
                bits.resize(place + 1, false)?;
            }
            if let Some(bit) = bits.get_mut(place) {
                *bit = true;
            }
        }
        Ok(())
    }

    /// Adds zeros to bits, or removes them from their end, down to the least size that the type allows (X.680 22.7).
    fn fit(self, bits: &mut Vec<bool>) -> Result<(), NotationError> {
        let least = match &self.sizes {
            Some(sizes) => sizes.root.minimum(),
            None => 0,
        };
        if least > MOST_BITS {
            return Err(self.error(Problem::UnsupportedDefault));
        }
        let zeros = bits.iter().rev().take_while(|bit| !**bit).count();
        let used = bits.len() - zeros;
        bits.resize(used.max(least), false)?;
        Ok(())
    }

    /// A value of OBJECT IDENTIFIER (X.680 32.3).
    fn arcs(self) -> Result<Event, NotationError> {
        let arcs = arcs_of(self.alloc, self.files, self.value)?;
        match ObjectIdentifier::new(CowSlice::Owned(arcs)) {
            Some(identifier) => Ok(Event::Arcs(identifier)),
            None => Err(self.error(Problem::ValueOfOtherType)),
        }
    }

    /// A value of a character string (X.680 41.8): its characters by their numbers, or its octets in UTF-8.
    fn text(self, name: StringName) -> Result<Event, NotationError> {
        let numbers = characters_of(self.alloc, self.files, self.value)?;
        let octets = match name {
            StringName::Utf8 => utf8_of(self.alloc, numbers.as_slice())?,
            _ => octets_of(self.alloc, numbers.as_slice())?,
        };
        match octets {
            Some(octets) => Ok(Event::Text(octets)),
            None => Err(self.error(Problem::UnsupportedDefault)),
        }
    }

    /// A value of OCTET STRING (X.680 23.3): a bstring or an hstring, with zeros at its end to whole octets.
    fn octets(self) -> Result<Event, NotationError> {
        let at = settled(self.files, self.value)?;
        let mut octets = Vec::new(self.alloc);
        let (digits, size) = match &self.files.value_term(at.scope, at.index)?.kind {
            ValueKind::Binary(digits) => (digits.as_slice(), 1_u8),
            ValueKind::Hexadecimal(digits) => (digits.as_slice(), 4),
            _ => return Err(self.error(Problem::ValueOfOtherType)),
        };
        let count = if size == 1 { 8 } else { 2 };
        for part in digits.chunks(count) {
            let mut octet = 0_u8;
            for index in 0..count {
                let digit = part.get(index).copied().unwrap_or(0);
                octet = (octet << size) | digit;
            }
            octets.push(octet)?;
        }
        Ok(Event::Octets(octets))
    }
}
