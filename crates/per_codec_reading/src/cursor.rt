//! The unread bits.
ghost use Rattle.std.specs.Prelude.{◌≡◌, ◌-◌, ◌^◌, ◌<◌, ◌≤◌, take, drop, [], ◌∷◌, length, IsTrue, ◌↔◌, IfOk, IfErr};
ghost use Rattle.asn1_model.specs.Numbers.{binary, octet_bits};
ghost use Rattle.asn1_values_bits.specs.BitStr.{bits_of};
ghost use Rattle.per_codec_reading.specs.Fronts.{Leads};

use asn1_schema_errors::{DecodeError, MOST_OCTETS};
use asn1_values_bits::BitStr;
use std::marker::Model;

/// A position in a message or open type: the number of bits before it, and those after it, which are unread and
/// borrowed.
#[derive(Drop)]
pub struct Cursor<'input> {
    position: usize,
    unread: BitStr<'input>,
}

impl<'input> Model for Cursor<'input> {
    ghost use Rattle.std.specs.Prelude.{◌+◌, ◌<◌, ◌^◌, length};
    ghost use Rattle.asn1_values_bits.specs.BitStr.{bits_of};
    ghost use Rattle.per_codec_laws.specs.Takes.{Position};

    ghost Value = { Position };

    ghost view = { λ cursor. (cursor.position, bits_of cursor.unread) };

    ghost invariant = { λ cursor. cursor.position + length (bits_of cursor.unread) < 2 ^ 64 };
}

impl<'input> Cursor<'input> {
    /// A cursor at the start of these octets. An encoding has fewer than 2^60 octets, so only the first 2^60 - 1 are
    /// read.
    pub fn new(input: &'input [u8]) -> Self
        ensures { result ≡ (0, octet_bits (take (2 ^ 60 - 1) input.entry.now)) }
    {
        let count = input.len().min(MOST_OCTETS);
        Cursor::from_bits(BitStr::from_slice(&input[..count]))
    }

    /// A cursor at the start of these bits, all bits of a message or open type.
    #[inline(always)]
    pub fn from_bits(bits: BitStr<'input>) -> Self
        ensures { result ≡ (0, bits_of bits.entry) }
    {
        // For the proof: the number of bits fits in 64 bits.
        let _count = bits.len();
        Cursor {
            position: 0,
            unread: bits,
        }
    }

    /// A cursor after the first `position` of these bits, all bits of a message or open type.
    #[inline(always)]
    pub fn at(bits: BitStr<'input>, position: usize) -> Self
        requires { position ≤ length (bits_of bits) }
        ensures { result ≡ (position, drop position (bits_of bits.entry)) }
    {
        // For the proof: the number of bits fits in 64 bits.
        let _count = bits.len();
        let (_read, unread) = bits.split_at(position);
        Cursor { position, unread }
    }

    /// A cursor after the first `position` of these bits, all bits of a message or open type. If there are fewer, no
    /// bit is unread.
    #[inline(always)]
    pub fn behind(bits: BitStr<'input>, position: usize) -> Self
        ensures { result ≡ (position, drop position (bits_of bits.entry)) }
    {
        let read = position.min(bits.len());
        let (_read, unread) = bits.split_at(read);
        Cursor { position, unread }
    }

    /// The number of bits of the message or open type that have been read.
    #[inline(always)]
    pub fn position(&self) -> usize
        ensures { result ≡ self.now.0 }
    {
        self.position
    }

    /// The unread bits.
    #[inline(always)]
    pub fn bits(&self) -> BitStr<'input>
        ensures { bits_of result ≡ self.now.1 }
    {
        self.unread
    }

    /// The number of unread bits.
    #[inline(always)]
    pub fn len(&self) -> usize
        ensures { result ≡ length self.now.1 }
    {
        self.unread.len()
    }

    /// Whether all bits have been read.
    #[inline(always)]
    pub fn is_empty(&self) -> bool
        ensures { IsTrue result ↔ (self.now.1 ≡ []) }
    {
        self.unread.is_empty()
    }

    /// Takes the first `count` bits, and returns them borrowed.
    ///
    /// # Errors
    ///
    /// `Incomplete` if there are fewer.
    #[inline(always)]
    pub fn take(&mut self, count: usize) -> Result<BitStr<'input>, DecodeError>
        ensures bits { IfOk result (λ bits. Leads (bits_of bits) self.old self.new) }
        ensures count { IfOk result (λ bits. length (bits_of bits) ≡ count) }
        ensures short { IfErr result (λ e. (e ≡ DecodeError.Incomplete) × (length self.old.1 < count)) }
    {
        if count > self.unread.len() {
            return Err(DecodeError::Incomplete);
        }
        let (bits, rest) = self.unread.split_at(count);
        self.position += count;
        self.unread = rest;
        Ok(bits)
    }

    /// Takes the first bit.
    ///
    /// # Errors
    ///
    /// `Incomplete` if there is none.
    #[inline(always)]
    pub fn take_bit(&mut self) -> Result<bool, DecodeError>
        ensures bit { IfOk result (λ bit. Leads (bit ∷ []) self.old self.new) }
        ensures short { IfErr result (λ e. (e ≡ DecodeError.Incomplete) × (self.old.1 ≡ [])) }
    {
        let Some(bit) = self.unread.get(0) else {
            return Err(DecodeError::Incomplete);
        };
        let (_first, rest) = self.unread.split_at(1);
        self.position += 1;
        self.unread = rest;
        Ok(bit)
    }

    /// Takes the first `width` bits, at most 128, as a number.
    ///
    /// # Errors
    ///
    /// `Incomplete` if there are fewer.
    #[inline(always)]
    pub fn take_number(&mut self, width: u32) -> Result<u128, DecodeError>
        requires { width ≤ 128 }
        ensures digits { IfOk result (λ number. Leads (binary width number) self.old self.new) }
        ensures fits { IfOk result (λ number. number < 2 ^ width) }
        ensures short { IfErr result (λ e. (e ≡ DecodeError.Incomplete) × (length self.old.1 < width)) }
    {
        let bits = self.take(width as usize)?;
        Ok(bits.first_number(width))
    }
}
