//! Bits and octets in the tables' notation.
use asn1_values_bits::BitBuffer;
use per_codec_reading::Variant;
use std::alloc::{AllocError, Global};
use std::test::Fail;

/// Pads bits to an octet boundary, in the aligned variant.
fn pad_to_octet(bits: &mut BitBuffer, variant: Variant) -> Result<(), AllocError> {
    if variant.is_aligned() {
        let whole = bits.as_bytes().len().saturating_mul(8);
        bits.resize(whole, false)?;
    }
    Ok(())
}

/// Adds an octet in two hexadecimal digits, or one repeated, as `61*16384`.
fn push_octets(bits: &mut BitBuffer, word: &str) -> Result<(), Fail> {
    let (digits, count) = match word.split_once('*') {
        Some((digits, count)) => (digits, count.parse::<usize>()?),
        None => (word, 1),
    };
    let octet = u8::from_str_radix(digits, 16)?;
    for _ in 0..count {
        bits.push_bits(octet as u128, 8)?;
    }
    Ok(())
}

/// Adds the bits of a text: octets in hexadecimal digits, a repeated one as `61*16384`, bits as `b0110`, and `|` for
/// padding to an octet boundary in the aligned variant.
pub fn push_spelled(bits: &mut BitBuffer, text: &str, variant: Variant) -> Result<(), Fail> {
    for word in text.split_whitespace() {
        if word == "|" {
            pad_to_octet(bits, variant)?;
        } else if let Some(digits) = word.strip_prefix('b') {
            for digit in digits.chars() {
                bits.push(digit == '1')?;
            }
        } else {
            push_octets(bits, word)?;
        }
    }
    Ok(())
}

/// The octets of a text, the last one padded.
pub fn octets(alloc: Global, text: &str) -> Result<Vec<u8>, Fail> {
    let mut bits = BitBuffer::new(alloc);
    push_spelled(&mut bits, text, Variant::Unaligned)?;
    Ok(bits.into_vec())
}
