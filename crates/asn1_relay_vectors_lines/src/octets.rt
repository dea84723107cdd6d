//! Octets in hexadecimal.
use crate::line::LineError;
use std::alloc::{AllocError, Global};
use std::fmt::Write;

/// Appends the octets of a word: two hexadecimal digits are one octet, and `61*16384` is 16384 times the octet 61.
///
/// # Errors
///
/// `Octets` if the word is neither, and `Memory` if memory runs out.
pub fn push_octets(octets: &mut Vec<u8>, word: &str) -> Result<(), LineError> {
    let (digits, count) = match word.split_once('*') {
        Some((digits, count)) => (
            digits,
            count.parse::<usize>().map_err(|_| LineError::Octets)?,
        ),
        None => (word, 1),
    };
    if digits.len() != 2 {
        return Err(LineError::Octets);
    }
    let octet = u8::from_str_radix(digits, 16).map_err(|_| LineError::Octets)?;
    for _ in 0..count {
        octets.push(octet).map_err(AllocError::from)?;
    }
    Ok(())
}

/// Octets in hexadecimal, separated by spaces.
pub fn shown(alloc: Global, octets: &[u8]) -> Result<String, LineError> {
    let mut text = String::new(alloc);
    for octet in octets {
        if !text.is_empty() {
            text.push(' ')?;
        }
        write!(text, "{octet:02X}")?;
    }
    Ok(text)
}
