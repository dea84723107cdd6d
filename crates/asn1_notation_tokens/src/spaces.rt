//! White-space and comments (X.680 12.1.6, 12.6).
ghost use Rattle.std.specs.Prelude.{◌≤◌, length, IfOk, IfSome};

use crate::faults::LexicalFault;
use crate::names::begins_comment;

/// Whether an octet ends a line (X.680 12.1.6).
fn is_newline(octet: u8) -> bool {
    matches!(octet, 10..=13)
}

/// The length of a comment that begins with two hyphens, without the end of its line: up to the next two hyphens.
fn line_comment_length(rest: &[u8]) -> usize
    requires { 2 ≤ length rest.now }
    ensures { (2 ≤ result) × (result ≤ length rest.now) }
{
    for index in 2..rest.len() {
        if is_newline(rest[index]) {
            return index;
        }
        if begins_comment(&rest[index..]) {
            return index + 2;
        }
    }
    rest.len()
}

/// The length of a comment that begins with `/*`, to the `*/` of it. Comments within it end first.
fn block_comment_length(rest: &[u8]) -> Option<usize>
    ensures { IfSome result (λ n. (1 ≤ n) × (n ≤ length rest.now)) }
{
    let mut depth: usize = 0;
    let mut index: usize = 0;
    while index < rest.len() {
        match &rest[index..] {
            [b'/', b'*', ..] => {
                depth += 1;
                index += 2;
            }
            [b'*', b'/', ..] if depth <= 1 => return Some(index + 2),
            [b'*', b'/', ..] => {
                depth -= 1;
                index += 2;
            }
            _ => index += 1,
        }
    }
    None
}

/// The length of the white-space character or the comment at the beginning of a text; none if an item begins there.
///
/// # Errors
///
/// `UnterminatedComment`.
pub fn scan_space(rest: &[u8]) -> Result<Option<usize>, LexicalFault>
    ensures { IfOk result (λ o. IfSome o (λ n. (1 ≤ n) × (n ≤ length rest.now))) }
{
    match rest {
        [b'-', b'-', ..] => Ok(Some(line_comment_length(rest))),
        [b'/', b'*', ..] => match block_comment_length(rest) {
            Some(length) => Ok(Some(length)),
            None => Err(LexicalFault::UnterminatedComment),
        },
        [0xC2, 0xA0, ..] => Ok(Some(2)),
        [9..=13 | b' ', ..] => Ok(Some(1)),
        _ => Ok(None),
    }
}
