//! A reader of bits, from the first to the last.
ghost use Rattle.std.specs.Prelude.{◌≡◌, ◌+◌, ◌*◌, ◌%◌, ◌^◌, ◌<◌, ◌≤◌, [], ◌∷◌, length, take, drop, IsTrue, ◌↔◌};
ghost use Rattle.std.specs.Prelude.{IsSome, IfSome, IfOk, IfErr, IsOk, OnErr, IsOkAnd};
ghost use Rattle.std.specs.Cow.{cow_slice_items, IsBorrowedSlice};
ghost use Rattle.asn1_model.specs.Numbers.{binary, octet_bits};
ghost use Rattle.asn1_values_bits.specs.Octets.{padded};

use crate::BitStr;
use crate::bit_buffer::BitBuffer;
use crate::bit_window::BitWindow;
use std::alloc::{AllocError, Global};
use std::borrow::CowSlice;
use std::marker::Model;

/// Unread bits in borrowed octets. The first of them, up to 128, are also held as one number (the window), from which
/// they are read.
#[derive(Drop)]
pub struct BitReader<'a> {
    rest: BitStr<'a>,
    window: BitWindow,
}

impl<'a> Model for BitReader<'a> {
    ghost use Rattle.asn1_values_bits.specs.Unread.{Unread};
    ghost use Rattle.asn1_values_bits.specs.BitStr.{bits_of, offset_of};
    ghost use Rattle.asn1_values_bits.specs.BitWindow.{IsWindowOf};

    ghost Value = { Unread };

    ghost view = { λ r. record { bits = bits_of r.rest; offset = offset_of r.rest } };

    ghost invariant = { λ r. IsWindowOf (bits_of r.rest) r.window };
}

impl<'a> BitReader<'a> {
    ghost use Rattle.asn1_values_bits.specs.BitStr.{bits_of, offset_of};

    /// Reads the bits of a view.
    pub fn new(bits: BitStr<'a>) -> Self
        ensures bits { result.bits ≡ bits_of bits.entry }
        ensures offset { result.offset ≡ offset_of bits.entry }
    {
        let window = BitWindow::new(bits);
        BitReader { rest: bits, window }
    }

    /// Reads all bits of the octets.
    pub fn from_octets(octets: &'a [u8]) -> Self
        requires { length octets.now < 2 ^ 61 }
        ensures bits { result.bits ≡ octet_bits octets.now }
        ensures offset { result.offset ≡ 0 }
    {
        BitReader::new(BitStr::from_slice(octets))
    }

    /// The unread bits.
    pub fn bits(&self) -> BitStr<'a>
        ensures bits { bits_of result ≡ self.now.bits }
        ensures offset { offset_of result ≡ self.now.offset }
    {
        self.rest
    }

    /// How many bits are unread.
    #[inline(always)]
    pub fn len(&self) -> usize
        ensures { result ≡ length self.now.bits }
    {
        self.rest.len()
    }

    /// Whether no bits are unread.
    pub fn is_empty(&self) -> bool
        ensures { IsTrue result ↔ (self.now.bits ≡ []) }
    {
        self.rest.is_empty()
    }

    /// Takes off the first `count` bits.
    ///
    /// # Errors
    ///
    /// How many bits are missing, if there are fewer than `count`; the reader is then unchanged.
    #[inline(always)]
    pub fn split(&mut self, count: usize) -> Result<BitReader<'a>, usize>
        ensures ok { IsOk result ↔ (count ≤ length self.old.bits) }
        ensures front { IfOk result (λ front. front.bits ≡ take count self.old.bits) }
        ensures front_offset { IfOk result (λ front. front.offset ≡ self.old.offset) }
        ensures rest { IfOk result (λ _. self.new.bits ≡ drop count self.old.bits) }
        ensures rest_offset { IfOk result (λ _. self.new.offset ≡ (self.old.offset + count) % 8) }
        ensures missing { IfErr result (λ missing. length self.old.bits + missing ≡ count) }
        ensures unchanged { OnErr result (self.new ≡ self.old) }
    {
        let len = self.rest.len();
        if count > len {
            return Err(count - len);
        }
        let (rest, _) = self.rest.split_at(count);
        let window = self.window.front(count);
        self.pass(count);
        Ok(BitReader { rest, window })
    }

    // Takes off the first `count` bits: from the window, or by filling a new one if it has no more.
    #[inline(always)]
    fn pass(&mut self, count: usize)
        requires { count ≤ length self.old.bits }
        ensures bits { self.new.bits ≡ drop count self.old.bits }
        ensures offset { self.new.offset ≡ (self.old.offset + count) % 8 }
    {
        let (_, rest) = self.rest.split_at(count);
        self.rest = rest;
        if count < self.window.width() as usize {
            self.window.pass(count as u32);
        } else {
            self.window = BitWindow::new(rest);
        }
    }

    /// The first bit.
    #[inline(always)]
    pub fn first_bit(&self) -> bool
        requires { 0 < length self.now.bits }
        ensures { take 1 self.now.bits ≡ result ∷ [] }
    {
        self.window.first_bits(1) == 1
    }

    /// The number whose binary digits are the first `width` bits, at most 64.
    #[inline(always)]
    pub fn first_bits(&self, width: u32) -> u64
        requires narrow { width ≤ 64 }
        requires within { width ≤ length self.now.bits }
        ensures digits { binary width result ≡ take width self.now.bits }
        ensures fits { result < 2 ^ width }
    {
        if width <= self.window.width() {
            return self.window.first_bits(width);
        }
        self.rest.first_bits(width)
    }

    /// The number whose binary digits are the first `width` bits, at most 128.
    #[inline(always)]
    pub fn first_u128(&self, width: u32) -> u128
        requires narrow { width ≤ 128 }
        requires within { width ≤ length self.now.bits }
        ensures digits { binary width result ≡ take width self.now.bits }
        ensures fits { result < 2 ^ width }
    {
        if width <= self.window.width() {
            return self.window.first_u128(width);
        }
        self.rest.first_number(width)
    }

    /// The octets that hold the unread bits, if these begin and end at octet boundaries.
    pub fn aligned_octets(&self) -> Option<&'a [u8]>
        ensures aligned { IsSome result ↔ ((self.now.offset ≡ 0) × (length self.now.bits % 8 ≡ 0)) }
        ensures octets { IfSome result (λ octets. octet_bits octets.now ≡ self.now.bits) }
    {
        self.rest.aligned_octets()
    }

    /// The unread bits in octets, padded with zero bits. If the bits begin and end at octet boundaries, the octets are
    /// borrowed and nothing is allocated.
    ///
    /// # Errors
    ///
    /// Out of memory; never if the octets are borrowed.
    pub fn octets(&self, alloc: Global) -> Result<CowSlice<'a, u8>, AllocError>
        ensures octets { IfOk result (λ octets. octet_bits (cow_slice_items octets) ≡ padded self.now.bits) }
        ensures lent { self.now.offset ≡ 0 → length self.now.bits % 8 ≡ 0 → IsOkAnd result IsBorrowedSlice }
    {
        if let Some(octets) = self.rest.aligned_octets() {
            return Ok(CowSlice::Borrowed(octets));
        }
        let mut copy = BitBuffer::new(alloc);
        copy.extend_from_bitslice(self.rest)?;
        Ok(CowSlice::Owned(copy.into_vec()))
    }
}
