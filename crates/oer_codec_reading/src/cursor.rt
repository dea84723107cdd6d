//! The unread octets.
ghost use Rattle.std.specs.Prelude.{◌≡◌, ◌-◌, ◌^◌, ◌<◌, take, ◌++◌, ◌∷◌, [], length, IsTrue, ◌↔◌, IfOk, IfErr};
ghost use Rattle.std.specs.List.{AllByRecursion};

use asn1_schema_errors::{DecodeError, MOST_OCTETS};
use std::marker::Model;

/// A position in the input. The octets after it are unread, and borrowed.
#[derive(Drop)]
pub struct Cursor<'input> {
    unread: &'input [u8],
}

impl<'input> Model for Cursor<'input> {
    ghost use Rattle.std.specs.Prelude.{ℕ, List, ◌<◌, ◌^◌, length};
    ghost use Rattle.std.specs.List.{AllByRecursion};

    ghost Value = { List ℕ };

    ghost view = { λ cursor. cursor.unread.now };

    ghost invariant = { λ cursor. AllByRecursion (λ octet. octet < 256) cursor.unread.now
        × (length cursor.unread.now < 2 ^ 60) };
}

impl<'input> Cursor<'input> {
    /// A cursor at the start of the octets. An encoding has fewer than 2^60 octets, so only the first 2^60 - 1 are
    /// read.
    #[inline(always)]
    pub fn new(input: &'input [u8]) -> Self
        ensures { result ≡ take (2 ^ 60 - 1) input.entry.now }
    {
        let count = input.len().min(MOST_OCTETS);
        Cursor {
            unread: &input[..count],
        }
    }

    /// The unread octets.
    #[inline(always)]
    pub fn remaining(&self) -> &'input [u8]
        ensures { result.now ≡ self.now }
    {
        self.unread
    }

    /// The number of unread octets.
    #[inline(always)]
    pub fn len(&self) -> usize
        ensures count { result ≡ length self.now }
        ensures few { result < 2 ^ 60 }
    {
        self.unread.len()
    }

    /// Whether all octets have been read.
    #[inline(always)]
    pub fn is_empty(&self) -> bool
        ensures { IsTrue result ↔ (self.now ≡ []) }
    {
        self.unread.is_empty()
    }

    /// Takes the first octet.
    ///
    /// # Errors
    ///
    /// `Incomplete` if there is none.
    #[inline(always)]
    pub fn take_octet(&mut self) -> Result<u8, DecodeError>
        ensures octet { IfOk result (λ octet. (self.old ≡ octet ∷ self.new) × (octet < 256)) }
        ensures none { IfErr result (λ e. (e ≡ DecodeError.Incomplete) × (self.old ≡ [])) }
    {
        match self.unread.split_first() {
            Some((first, further)) => {
                self.unread = further;
                Ok(*first)
            }
            None => Err(DecodeError::Incomplete),
        }
    }

    /// Takes the first `count` octets, and returns them borrowed.
    ///
    /// # Errors
    ///
    /// `Incomplete` if there are fewer.
    #[inline(always)]
    pub fn take(&mut self, count: usize) -> Result<&'input [u8], DecodeError>
        ensures octets { IfOk result (λ octets. octets.now ++ self.new ≡ self.old) }
        ensures count { IfOk result (λ octets. length octets.now ≡ count) }
        ensures small { IfOk result (λ octets. AllByRecursion (λ octet. octet < 256) octets.now) }
        ensures few { IfOk result (λ octets. length octets.now < 2 ^ 60) }
        ensures short { IfErr result (λ e. (e ≡ DecodeError.Incomplete) × (length self.old < count)) }
    {
        if count > self.unread.len() {
            return Err(DecodeError::Incomplete);
        }
        let (octets, further) = self.unread.split_at(count);
        self.unread = further;
        Ok(octets)
    }
}
