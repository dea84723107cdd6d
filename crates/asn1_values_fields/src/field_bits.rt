//! Writes lists of fields as bits.
ghost use Rattle.std.specs.Prelude.{◌≡◌, ◌↔◌, ◌++◌, ◌∷◌, ◌≤◌, ◌<◌, ◌^◌, ◌⊎◌, [], IsTrue, is_some, option_map, Some};
ghost use Rattle.std.specs.Prelude.{None, Ok, Err, OnOk, OnErr, IfErr, take, length};
ghost use Rattle.asn1_model.specs.Numbers.{octet_bits};
ghost use Rattle.asn1_values_fields.specs.Written.{codes_of, digits_of, bits_of_fields, appended, IsUnwritable};
ghost use Rattle.asn1_values_fields.specs.Written.{IsFirstUnwritten};

use crate::fault::{FieldFault, FieldFaultKind};
use asn1_values_alphabets::CharacterAlphabet;
use asn1_values_bits::{BitBuffer, BitStr};
use asn1_values_integers::Integer;

/// A field to be written.
#[derive(Clone, Copy, Debug)]
pub enum FieldBits<'a> {
    /// Bits as they are.
    Bits(BitStr<'a>),
    /// A number in `width` binary digits, the most significant first.
    Number {
        value: u128,
        width: u32,
    },
    /// Octets, each of eight bits.
    Octets(&'a [u8]),
    /// The fewest octets of an integer in two's complement (X.690 8.3).
    Whole(&'a Integer),
    /// The codes of characters in their alphabet (X.691 30.5).
    Characters {
        alphabet: &'a CharacterAlphabet,
        characters: &'a [u32],
    },
}

/// Appends the codes of characters. After an error some of them may have been appended.
fn push_characters(
    buffer: &mut BitBuffer,
    alphabet: &CharacterAlphabet,
    characters: &[u32],
) -> Result<(), FieldFaultKind>
    ensures ok { OnOk result (appended buffer.old (codes_of alphabet.now characters.now) ≡ Some buffer.new) }
    ensures kept { take (length buffer.old) buffer.new ≡ buffer.old }
    ensures wrong { IfErr result (IsUnwritable (codes_of alphabet.now characters.now)) }
{
    let width = alphabet.width();
    for character in characters {
        let Ok(code) = alphabet.encode(*character) else {
            return Err(FieldFaultKind::DoesNotFit);
        };
        if buffer.push_bits(u128::from(code), width).is_err() {
            return Err(FieldFaultKind::Memory);
        }
    }
    Ok(())
}

/// Appends the binary digits of a number.
fn push_number(buffer: &mut BitBuffer, value: u128, width: u32) -> Result<(), FieldFaultKind>
    ensures ok { OnOk result (appended buffer.old (digits_of value width) ≡ Some buffer.new) }
    ensures kept { take (length buffer.old) buffer.new ≡ buffer.old }
    ensures wrong { IfErr result (IsUnwritable (digits_of value width)) }
{
    if width > 128 || (width < 128 && value >> width > 0) {
        return Err(FieldFaultKind::DoesNotFit);
    }
    match buffer.push_bits(value, width) {
        Ok(()) => Ok(()),
        Err(_) => Err(FieldFaultKind::Memory),
    }
}

impl<'a> FieldBits<'a> {
    ghost use Rattle.asn1_values_fields.specs.Written.{bits_of_field, IsUnwritable, appended};

    /// Appends the field. After an error a part of it may have been appended.
    fn push_to(&self, buffer: &mut BitBuffer) -> Result<(), FieldFaultKind>
        ensures ok { OnOk result (appended buffer.old (bits_of_field self.now) ≡ Some buffer.new) }
        ensures kept { take (length buffer.old) buffer.new ≡ buffer.old }
        ensures wrong { IfErr result (IsUnwritable (bits_of_field self.now)) }
    {
        let pushed = match self {
            FieldBits::Bits(bits) => buffer.extend_from_bitslice(*bits),
            FieldBits::Octets(octets) => buffer.extend_from_bytes(octets),
            FieldBits::Whole(number) => {
                buffer.extend_from_bytes(number.to_signed_bytes_be().as_slice())
            }
            FieldBits::Number { value, width } => return push_number(buffer, *value, *width),
            FieldBits::Characters {
                alphabet,
                characters,
            } => return push_characters(buffer, alphabet, characters),
        };
        match pushed {
            Ok(()) => Ok(()),
            Err(_) => Err(FieldFaultKind::Memory),
        }
    }
}

/// Appends the fields. After an error a part of them may have been appended.
fn push_all(buffer: &mut BitBuffer, fields: &[FieldBits<'_>]) -> Result<(), FieldFault>
    ensures ok { OnOk result (appended buffer.old (bits_of_fields fields.now) ≡ Some buffer.new) }
    ensures kept { take (length buffer.old) buffer.new ≡ buffer.old }
    ensures wrong { IfErr result (λ e. IsFirstUnwritten fields.now e.field e.kind) }
{
    for (field, bits) in fields.iter().enumerate() {
        match bits.push_to(buffer) {
            Ok(()) => {}
            Err(kind) => return Err(FieldFault { field, kind }),
        }
    }
    Ok(())
}

/// Appends the bits of the fields, each directly after the one before, at any alignment.
///
/// # Errors
///
/// The index of the first field that is not written: `DoesNotFit`, or `Memory` after fields that fit; the buffer is
/// then unchanged.
pub fn write_fields(buffer: &mut BitBuffer, fields: &[FieldBits<'_>]) -> Result<(), FieldFault>
    ensures ok { OnOk result (appended buffer.old (bits_of_fields fields.now) ≡ Some buffer.new) }
    ensures err { OnErr result (buffer.new ≡ buffer.old) }
    ensures wrong { IfErr result (λ e. IsFirstUnwritten fields.now e.field e.kind) }
{
    let before = buffer.len();
    match push_all(buffer, fields) {
        Ok(()) => Ok(()),
        Err(fault) => {
            buffer.truncate(before);
            Err(fault)
        }
    }
}
