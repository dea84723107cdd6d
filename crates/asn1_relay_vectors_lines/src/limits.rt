//! Constraints that follow the name of a type.
use crate::line::LineError;
use asn1_schema_constraints::{Bounded, Constraints, Extensible, PermittedAlphabet, Size, Value};
use std::alloc::{AllocError, Global};

/// The constraints of a line's type, as in `octet-string(SIZE(1..3,...))` (X.680 51).
#[derive(Drop)]
pub struct Limits {
    value: Option<Extensible<'static, Value>>,
    size: Option<Extensible<'static, Size>>,
    alphabet: Option<Alphabet>,
}

/// Permitted characters, by their codes, and whether an extension marker follows them.
#[derive(Drop)]
struct Alphabet {
    characters: Vec<u32>,
    extensible: bool,
}

impl Limits {
    /// Reads constraints, each in parentheses: `(0..255,...)`, `(SIZE(5))`, `(FROM("01"))`.
    ///
    /// # Errors
    ///
    /// `Limits` if one does not have that form, and `Memory` if memory runs out.
    pub fn read(alloc: Global, text: &str) -> Result<Limits, LineError> {
        let mut limits = Limits {
            value: None,
            size: None,
            alphabet: None,
        };
        let inner = inside(text, "(", ")").ok_or(LineError::Limits)?;
        for part in inner.split(")(") {
            limits.push(alloc, part)?;
        }
        Ok(limits)
    }

    /// Adds one constraint.
    fn push(&mut self, alloc: Global, text: &str) -> Result<(), LineError> {
        if let Some(size) = inside(text, "SIZE(", ")") {
            let (range, extensible) = without_marker(size);
            let size = Size::new(read_counts(range)?);
            self.size = Some(Extensible::new(size).set_extensible(extensible));
        } else if let Some(alphabet) = inside(text, "FROM(", ")") {
            let (characters, extensible) = without_marker(alphabet);
            let characters = read_characters(alloc, characters)?;
            self.alphabet = Some(Alphabet {
                characters,
                extensible,
            });
        } else {
            let (range, extensible) = without_marker(text);
            let value = Value::new(read_range(range)?);
            self.value = Some(Extensible::new(value).set_extensible(extensible));
        }
        Ok(())
    }

    /// The constraints in the form of the codecs.
    pub fn constraints(&self) -> Constraints<'_> {
        let permitted_alphabet = match &self.alphabet {
            Some(alphabet) => {
                let permitted = PermittedAlphabet::new(alphabet.characters.as_slice());
                Some(Extensible::new(permitted).set_extensible(alphabet.extensible))
            }
            None => None,
        };
        Constraints {
            value: self.value,
            size: self.size,
            permitted_alphabet,
            is_extensible: false,
        }
    }
}

/// The part of a text between `front` and `back`, if it begins and ends with these.
fn inside<'a>(text: &'a str, front: &str, back: &str) -> Option<&'a str> {
    text.strip_prefix(front)?.strip_suffix(back)
}

/// A constraint without its extension marker, and whether it has one.
fn without_marker(text: &str) -> (&str, bool) {
    match text.strip_suffix(",...") {
        Some(root) => (root, true),
        None => (text, false),
    }
}

/// The numbers of a range: `0..255`, `MIN..5`, `0..MAX` or `5`.
fn read_range(text: &str) -> Result<Bounded<i128>, LineError> {
    match text.split_once("..") {
        Some((low, high)) => Ok(Bounded::Range {
            start: read_end(low, "MIN")?,
            end: read_end(high, "MAX")?,
        }),
        None => Ok(Bounded::Single(read_number(text)?)),
    }
}

/// An endpoint of a range, which is open if it has the name `open`.
fn read_end(text: &str, open: &str) -> Result<Option<i128>, LineError> {
    if text == open {
        return Ok(None);
    }
    Ok(Some(read_number(text)?))
}

/// A number in decimal digits.
fn read_number(text: &str) -> Result<i128, LineError> {
    text.parse::<i128>().map_err(|_| LineError::Limits)
}

/// The counts of a size: `1..3`, `0..MAX` or `5`.
fn read_counts(text: &str) -> Result<Bounded<usize>, LineError> {
    match text.split_once("..") {
        Some((low, "MAX")) => Ok(Bounded::start_from(read_count(low)?)),
        Some((low, high)) => Ok(Bounded::const_new(read_count(low)?, read_count(high)?)),
        None => Ok(Bounded::Single(read_count(text)?)),
    }
}

/// A count in decimal digits.
fn read_count(text: &str) -> Result<usize, LineError> {
    text.parse::<usize>().map_err(|_| LineError::Limits)
}

/// The characters between quotation marks.
fn read_characters(alloc: Global, text: &str) -> Result<Vec<u32>, LineError> {
    let quoted = inside(text, "\"", "\"").ok_or(LineError::Limits)?;
    let mut characters = Vec::new(alloc);
    for character in quoted.chars() {
        characters
            .push(u32::from(character))
            .map_err(AllocError::from)?;
    }
    Ok(characters)
}
