//! Names in a text (X.680 12.2 to 12.5).
ghost use Rattle.std.specs.Prelude.{◌≡◌, ◌≤◌, true, take, length, IfOk};
ghost use Rattle.std.specs.Bool.{OnTrue};
ghost use Rattle.std.specs.List.{list_all};
ghost use Rattle.asn1_notation_tokens.specs.Lexical.{is_name_octet, IsName};

use crate::faults::LexicalFault;

/// Whether an octet is a letter, a digit or a hyphen.
fn is_name_octet(octet: u8) -> bool
    ensures { result ≡ is_name_octet octet }
{
    octet.is_ascii_alphanumeric() || octet == b'-'
}

/// Whether a text begins with two hyphens, as a comment does (X.680 12.6).
pub fn begins_comment(rest: &[u8]) -> bool
    ensures { OnTrue result (2 ≤ length rest.now) }
{
    rest.len() >= 2 && rest[0] == b'-' && rest[1] == b'-'
}

/// The number of letters, digits and hyphens at the beginning of a text, up to two hyphens, which begin a comment.
fn name_length(rest: &[u8]) -> usize
    ensures within { result ≤ length rest.now }
    ensures octets { list_all is_name_octet (take result rest.now) ≡ true }
{
    for index in 0..rest.len() {
        if !is_name_octet(rest[index]) || begins_comment(&rest[index..]) {
            return index;
        }
    }
    rest.len()
}

/// The length of the name at the beginning of a text that begins with a letter.
///
/// # Errors
///
/// `BadName` if it ends with a hyphen.
pub fn scan_name(rest: &[u8]) -> Result<usize, LexicalFault>
    ensures within { IfOk result (λ n. (1 ≤ n) × (n ≤ length rest.now)) }
    ensures name { IfOk result (λ n. IsName (take n rest.now)) }
{
    let length = name_length(rest);
    match rest[..length].last() {
        Some(last) if *last != b'-' => Ok(length),
        _ => Err(LexicalFault::BadName),
    }
}
