//! Octets as hexadecimal text.
ghost use Rattle.std.specs.Prelude.{◌≡◌, IfErr, IfOk, MatchResult, true};
ghost use Rattle.std.specs.Io.KnownBytes.{Appends};
ghost use Rattle.asn1_module_command.specs.Digits.{AreDigitsOf, IsReadIn, StopsDecoding, StopsReading, StopsWriting};
ghost use Rattle.asn1_module_command.specs.Digits.{digit_line};

use crate::errors::CommandError;
use asn1_relay_command::{Fault, read_all, write_all};
use hex::FromHexError;
use std::alloc::{AllocError, Global};
use std::io::{Read, Write};

/// All of the input: octets, or those of a text of their hexadecimal digits.
///
/// # Errors
///
/// Those of `read_all` and `octets_of`.
pub(crate) fn read_message<R: Read>(
    alloc: Global,
    is_hexadecimal: bool,
    input: &mut R,
) -> Result<Vec<u8>, CommandError>
    ensures ok { IfOk result (λ v. IsReadIn is_hexadecimal (R.remaining input.old) (R.remaining input.new) v.items) }
    ensures err { IfErr result (StopsReading is_hexadecimal (R.remaining input.old) (R.remaining input.new)) }
{
    let text = read_all(alloc, input)?;
    if is_hexadecimal {
        return octets_of(alloc, text.as_slice());
    }
    Ok(text)
}

/// The octets of a text of pairs of hexadecimal digits, with spaces and ends of lines anywhere.
///
/// # Errors
///
/// `NotHexadecimal` for any other text.
fn octets_of(alloc: Global, text: &[u8]) -> Result<Vec<u8>, CommandError>
    ensures { MatchResult result (λ octets. AreDigitsOf text.now octets.items) (StopsDecoding text.now) }
{
    let digits: Vec<u8> = text
        .iter()
        .copied()
        .filter(|character| !character.is_ascii_whitespace())
        .collect(alloc)?;
    match hex::decode(alloc, digits) {
        Ok(octets) => Ok(octets),
        Err(FromHexError::OutOfMemory) => Err(CommandError::Fault(Fault::OutOfMemory)),
        Err(_) => Err(CommandError::NotHexadecimal),
    }
}

/// Writes a line of the octets as hexadecimal digits.
pub(crate) fn write_digits<W: Write>(
    alloc: Global,
    octets: &[u8],
    output: &mut W,
) -> Result<(), CommandError>
    ensures { MatchResult result
        (λ _. Appends (W.contents output.old) (W.contents output.new) (digit_line octets.now))
        (StopsWriting true (W.contents output.old) (W.contents output.new) octets.now) }
{
    let line = line_of(alloc, octets)?;
    write_all(line.as_slice(), output)?;
    Ok(())
}

/// A line of the octets as hexadecimal digits.
fn line_of(alloc: Global, octets: &[u8]) -> Result<Vec<u8>, AllocError>
    ensures { IfOk result (λ line. line.items ≡ digit_line octets.now) }
{
    let copy = Vec::from_slice(alloc, octets)?;
    let text = hex::encode_upper(alloc, copy)?;
    let mut line = Vec::from_slice(alloc, text.as_bytes())?;
    line.push(b'\n')?;
    Ok(line)
}
