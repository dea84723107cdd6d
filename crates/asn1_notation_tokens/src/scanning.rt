//! One lexical item (X.680 12).

ghost use Rattle.std.specs.Prelude.{◌≤◌, take, length, IfOk};
ghost use Rattle.std.specs.Char.{is_ascii_uppercase};
ghost use Rattle.asn1_notation_tokens.specs.Lexical.{BeginsWith, HasForm};

use crate::faults::LexicalFault;
use crate::items::ItemKind;
use crate::names::scan_name;
use crate::numbers::scan_number;
use crate::strings::{scan_digits, scan_quoted};
use crate::symbols::symbol_of;
use crate::words::Word;

/// The name of a field at the beginning of a text, after `&`.
fn scan_field(rest: &[u8]) -> Result<(ItemKind, usize), LexicalFault>
    ensures within { IfOk result (λ r. (1 ≤ r.1) × (r.1 ≤ length rest.now)) }
    ensures form { IfOk result (λ r. HasForm r.0 (take r.1 rest.now)) }
{
    match rest {
        [b'&', name @ ..] if begins_name(name) => Ok((ItemKind::Field, 1 + scan_name(name)?)),
        _ => Err(LexicalFault::BadFieldName),
    }
}

/// Whether a text begins with a letter.
fn begins_name(rest: &[u8]) -> bool {
    match rest {
        [first, ..] => first.is_ascii_alphabetic(),
        [] => false,
    }
}

/// The reference or reserved word at the beginning of a text that begins with a capital letter.
fn scan_capital(rest: &[u8]) -> Result<(ItemKind, usize), LexicalFault>
    requires { BeginsWith is_ascii_uppercase rest.now }
    ensures within { IfOk result (λ r. (1 ≤ r.1) × (r.1 ≤ length rest.now)) }
    ensures form { IfOk result (λ r. HasForm r.0 (take r.1 rest.now)) }
{
    let length = scan_name(rest)?;
    match Word::of(&rest[..length]) {
        Some(word) => Ok((ItemKind::Word(word), length)),
        None => Ok((ItemKind::Reference, length)),
    }
}

/// The symbol at the beginning of a text.
fn scan_symbol(rest: &[u8]) -> Result<(ItemKind, usize), LexicalFault>
    ensures within { IfOk result (λ r. (1 ≤ r.1) × (r.1 ≤ length rest.now)) }
    ensures form { IfOk result (λ r. HasForm r.0 (take r.1 rest.now)) }
{
    match symbol_of(rest) {
        Some(symbol) => Ok((ItemKind::Symbol(symbol), symbol.text().len())),
        None => Err(LexicalFault::UnexpectedCharacter),
    }
}

/// The lexical item at the beginning of a text that begins with no white-space and no comment: its kind and its length.
///
/// # Errors
///
/// All of `LexicalFault` but `UnterminatedComment` and `OutOfMemory`.
pub fn scan_item(rest: &[u8]) -> Result<(ItemKind, usize), LexicalFault>
    ensures within { IfOk result (λ r. (1 ≤ r.1) × (r.1 ≤ length rest.now)) }
    ensures form { IfOk result (λ r. HasForm r.0 (take r.1 rest.now)) }
{
    match rest.first() {
        Some(first) if first.is_ascii_uppercase() => scan_capital(rest),
        Some(first) if first.is_ascii_lowercase() => {
            Ok((ItemKind::Identifier, scan_name(rest)?))
        }
        Some(first) if first.is_ascii_digit() => scan_number(rest),
        Some(b'&') => scan_field(rest),
        Some(b'"') => scan_quoted(rest),
        Some(b'\'') => scan_digits(rest),
        _ => scan_symbol(rest),
    }
}
