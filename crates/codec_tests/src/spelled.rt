//! Octets in the tables' notation.
use std::alloc::Global;
use std::test::Fail;

/// Adds an octet in two hexadecimal digits, or one repeated, as `61*16384`.
fn push_octets(octets: &mut Vec<u8>, word: &str) -> Result<(), Fail> {
    let (digits, count) = match word.split_once('*') {
        Some((digits, count)) => (digits, count.parse::<usize>()?),
        None => (word, 1),
    };
    let octet = u8::from_str_radix(digits, 16)?;
    for _ in 0..count {
        octets.push(octet)?;
    }
    Ok(())
}

/// The octets in a text of hexadecimal digits; a repeated one as `61*16384`.
pub fn octets(alloc: Global, text: &str) -> Result<Vec<u8>, Fail> {
    let mut octets = Vec::new(alloc);
    for word in text.split_whitespace() {
        push_octets(&mut octets, word)?;
    }
    Ok(octets)
}
