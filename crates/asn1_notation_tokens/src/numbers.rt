//! Numbers in a text (X.680 12.8, 12.9).

ghost use Rattle.std.specs.Prelude.{◌≡◌, ◌≤◌, true, take, length, IfOk};
ghost use Rattle.std.specs.List.{list_all};
ghost use Rattle.std.specs.Char.{is_ascii_digit};
ghost use Rattle.asn1_notation_tokens.specs.Lexical.{BeginsWith, HasForm};

use crate::faults::LexicalFault;
use crate::items::ItemKind;

/// The number of digits at the beginning of a text.
fn digits_length(rest: &[u8]) -> usize
    ensures within { result ≤ length rest.now }
    ensures digits { list_all is_ascii_digit (take result rest.now) ≡ true }
    ensures some { BeginsWith is_ascii_digit rest.now → 1 ≤ result }
{
    for index in 0..rest.len() {
        if !rest[index].is_ascii_digit() {
            return index;
        }
    }
    rest.len()
}

/// The number of octets of a decimal point and the digits after it; 0 if none is there, as before `..`.
fn fraction_length(rest: &[u8]) -> usize
    ensures { result ≤ length rest.now }
{
    match rest {
        [b'.', b'.', ..] => 0,
        [b'.', digits @ ..] => 1 + digits_length(digits),
        _ => 0,
    }
}

/// The number of octets of an exponent; 0 if none is there.
fn exponent_length(rest: &[u8]) -> usize
    ensures { result ≤ length rest.now }
{
    match rest {
        [b'e' | b'E', b'0'..=b'9', ..] => 1 + digits_length(&rest[1..]),
        [b'e' | b'E', b'-', b'0'..=b'9', ..] => 2 + digits_length(&rest[2..]),
        _ => 0,
    }
}

/// The number of some digits.
fn number_of(digits: &[u8]) -> Result<i128, LexicalFault>
    requires { list_all is_ascii_digit digits.now ≡ true }
    ensures { IfOk result (λ n. HasForm (ItemKind.Number n) digits.now) }
{
    if digits.len() > 1 && digits[0] == b'0' {
        return Err(LexicalFault::LeadingZero);
    }
    let Ok(text) = std::str::from_utf8(digits) else {
        return Err(LexicalFault::NumberTooLarge);
    };
    match text.parse::<i128>() {
        Ok(number) => Ok(number),
        Err(_) => Err(LexicalFault::NumberTooLarge),
    }
}

/// The number at the beginning of a text that begins with a digit, and its length.
///
/// # Errors
///
/// `LeadingZero` and `NumberTooLarge`.
pub fn scan_number(rest: &[u8]) -> Result<(ItemKind, usize), LexicalFault>
    requires { BeginsWith is_ascii_digit rest.now }
    ensures within { IfOk result (λ r. (1 ≤ r.1) × (r.1 ≤ length rest.now)) }
    ensures form { IfOk result (λ r. HasForm r.0 (take r.1 rest.now)) }
{
    let digits = digits_length(rest);
    let number = number_of(&rest[..digits])?;
    let point = digits + fraction_length(&rest[digits..]);
    let length = point + exponent_length(&rest[point..]);
    if length > digits {
        return Ok((ItemKind::RealNumber, length));
    }
    Ok((ItemKind::Number(number), digits))
}
