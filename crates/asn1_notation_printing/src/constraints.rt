//! Constraints (X.680 49 to 52).
use asn1_schema_constraints::{Bounded, Sizes};
use asn1_table_types::{CharacterTable, NumberLimits, StringKind, StringTable};
use std::alloc::AllocError;
use std::fmt::Display;

/// The value constraint of an INTEGER, after a space (X.680 51.4).
pub fn write_limits(text: &mut String, limits: &NumberLimits) -> Result<(), AllocError> {
    text.push_str(" ")?;
    write_bounds(text, limits.root, limits.is_extensible, "MIN")
}

/// The size constraint of a type, after a space, if it has one (X.680 51.5).
pub fn write_sizes(text: &mut String, sizes: Sizes) -> Result<(), AllocError> {
    if !has_sizes(sizes) {
        return Ok(());
    }
    text.push_str(" (SIZE ")?;
    write_bounds(text, sizes.root, sizes.is_extensible, "0")?;
    text.push_str(")")
}

/// The constraint of a character string, after a space, if it has one: its sizes and its permitted alphabet, joined so
/// that each keeps its extension marker (X.680 50.8, 51.5 and 51.7).
pub fn write_string_constraint(text: &mut String, string: &StringTable) -> Result<(), AllocError> {
    let Some(alphabet) = &string.alphabet else {
        return write_sizes(text, string.sizes);
    };
    text.push_str(" (")?;
    if has_sizes(string.sizes) {
        text.push_str("SIZE ")?;
        write_bounds(text, string.sizes.root, string.sizes.is_extensible, "0")?;
        text.push_str(" ^ ")?;
    }
    text.push_str("FROM (")?;
    write_alphabet(text, string.kind, alphabet)?;
    text.push_str("))")
}

/// Whether there is a size constraint.
fn has_sizes(sizes: Sizes) -> bool {
    sizes.is_extensible || sizes.root != Bounded::None
}

/// Bounds in parentheses, and the extension marker after them. The least number of all has a name.
fn write_bounds<T: Display + Copy>(
    text: &mut String,
    bounds: Bounded<T>,
    is_extensible: bool,
    least: &str,
) -> Result<(), AllocError> {
    match (bounds.as_start(), bounds.as_end()) {
        (Some(value), Some(_)) if matches!(&bounds, Bounded::Single(_)) => {
            write!(text, "({value}")?
        }
        (Some(start), Some(end)) => write!(text, "({start}..{end}")?,
        (Some(start), None) => write!(text, "({start}..MAX")?,
        (None, Some(end)) => write!(text, "({least}..{end}")?,
        (None, None) => write!(text, "({least}..MAX")?,
    }
    text.push_str(if is_extensible { ", ...)" } else { ")" })
}

/// The characters of a permitted alphabet in runs, and the extension marker after them.
fn write_alphabet(
    text: &mut String,
    kind: StringKind,
    alphabet: &CharacterTable,
) -> Result<(), AllocError> {
    let mut run: Option<(u32, u32)> = None;
    for character in &alphabet.characters {
        run = match run {
            Some((first, last)) if last.checked_add(1) == Some(*character) => {
                Some((first, *character))
            }
            Some((first, last)) => {
                write_run(text, kind, first, last)?;
                text.push_str(" | ")?;
                Some((*character, *character))
            }
            None => Some((*character, *character)),
        };
    }
    if let Some((first, last)) = run {
        write_run(text, kind, first, last)?;
    }
    if alphabet.is_extensible {
        text.push_str(", ...")?;
    }
    Ok(())
}

/// The characters from one to another. The first and the last one of IA5String and BMPString, which are no graphic
/// characters, are MIN and MAX.
fn write_run(text: &mut String, kind: StringKind, first: u32, last: u32) -> Result<(), AllocError> {
    if first == last {
        return write_character(text, first);
    }
    if first == 0 {
        text.push_str("MIN")?;
    } else {
        write_character(text, first)?;
    }
    text.push_str("..")?;
    let is_last = match kind {
        StringKind::Ia5 => last == 127,
        StringKind::Bmp => last == 65535,
        _ => false,
    };
    if is_last {
        return text.push_str("MAX");
    }
    write_character(text, last)
}

/// A character by its number: in quotation marks, or where those do not hold it as a tuple or quadruple (X.680 41.8).
pub fn write_character(text: &mut String, number: u32) -> Result<(), AllocError> {
    match char::from_u32(number) {
        Some(character) if !is_newline(character) => {
            text.push('"')?;
            write_quoted(text, character)?;
            text.push('"')
        }
        Some(_) => write!(text, "{{0, {number}}}"),
        None => write!(
            text,
            "{{0, {}, {}, {}}}",
            number / 65536,
            number / 256 % 256,
            number % 256
        ),
    }
}

/// A character in quotation marks: such a mark is written twice (X.680 12.14).
pub fn write_quoted(text: &mut String, character: char) -> Result<(), AllocError> {
    if character == '"' {
        text.push('"')?;
    }
    text.push(character)
}

/// Whether a character ends a line, so that a cstring does not hold it (X.680 12.1.6).
pub fn is_newline(character: char) -> bool {
    matches!(character, '\n' | '\u{B}' | '\u{C}' | '\r')
}
