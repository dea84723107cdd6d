//! Strings in a text (X.680 12.10, 12.12, 12.14).

ghost use Rattle.std.specs.Prelude.{◌≤◌, ◌==◌, take, length, IfOk, IfSome};
ghost use Rattle.asn1_notation_tokens.specs.Lexical.{BeginsWith, HasForm};

use crate::faults::LexicalFault;
use crate::items::ItemKind;

/// The length of a cstring, from its first quotation mark to its last. Two within it are one of its characters.
fn quoted_length(rest: &[u8]) -> Option<usize>
    requires { 1 ≤ length rest.now }
    ensures within { IfSome result (λ n. (1 ≤ n) × (n ≤ length rest.now)) }
{
    let mut may_end = false;
    for index in 1..rest.len() {
        if rest[index] == b'"' {
            may_end = !may_end;
        } else if may_end {
            return Some(index);
        }
    }
    if may_end { Some(rest.len()) } else { None }
}

/// The cstring at the beginning of a text that begins with a quotation mark, and its length.
///
/// # Errors
///
/// `UnterminatedString` if it does not end.
pub fn scan_quoted(rest: &[u8]) -> Result<(ItemKind, usize), LexicalFault>
    requires { BeginsWith (λ c. c == 34) rest.now }
    ensures within { IfOk result (λ r. (1 ≤ r.1) × (r.1 ≤ length rest.now)) }
    ensures form { IfOk result (λ r. HasForm r.0 (take r.1 rest.now)) }
{
    match quoted_length(rest) {
        Some(length) => Ok((ItemKind::CharacterString, length)),
        None => Err(LexicalFault::UnterminatedString),
    }
}

/// Whether an octet may be in a bstring: a digit or white-space.
fn is_binary_octet(octet: u8) -> bool {
    matches!(octet, b'0' | b'1' | 9..=13 | b' ')
}

/// Whether an octet may be in an hstring: a digit or white-space.
fn is_hexadecimal_octet(octet: u8) -> bool {
    matches!(octet, b'0'..=b'9' | b'A'..=b'F' | 9..=13 | b' ')
}

/// The bstring or hstring at the beginning of a text that begins with an apostrophe, and its length.
///
/// # Errors
///
/// `UnterminatedString`, `MissingBase` and `BadDigit`.
pub fn scan_digits(rest: &[u8]) -> Result<(ItemKind, usize), LexicalFault>
    requires { BeginsWith (λ c. c == 39) rest.now }
    ensures within { IfOk result (λ r. (1 ≤ r.1) × (r.1 ≤ length rest.now)) }
    ensures form { IfOk result (λ r. HasForm r.0 (take r.1 rest.now)) }
{
    let inside = &rest[1..];
    let Some(count) = inside.iter().position(|octet| *octet == b'\'') else {
        return Err(LexicalFault::UnterminatedString);
    };
    let digits = &inside[..count];
    let (kind, are_digits) = match inside.get(count + 1) {
        Some(b'B') => (
            ItemKind::BinaryString,
            digits.iter().all(|octet| is_binary_octet(*octet)),
        ),
        Some(b'H') => (
            ItemKind::HexadecimalString,
            digits.iter().all(|octet| is_hexadecimal_octet(*octet)),
        ),
        _ => return Err(LexicalFault::MissingBase),
    };
    if !are_digits {
        return Err(LexicalFault::BadDigit);
    }
    Ok((kind, count + 3))
}
