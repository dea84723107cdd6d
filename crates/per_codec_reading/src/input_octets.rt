//! Octets that were read: borrowed from the input, a few in the value itself, or owned.
ghost use Rattle.std.specs.Prelude.{◌≡◌, ◌%◌, ◌≤◌, true, length, IfOk, OnErr};
ghost use Rattle.std.specs.List.{list_all};
ghost use Rattle.asn1_model.specs.Numbers.{octet_bits};
ghost use Rattle.asn1_model.specs.Strings.{is_octet};
ghost use Rattle.asn1_values_bits.specs.BitStr.{bits_of};
ghost use Rattle.per_codec_reading.specs.Octets.{octets_of, AreUnowned};

use asn1_values_bits::BitStr;
use std::alloc::{AllocError, Global};
use std::marker::Model;

/// The most octets that [`FewOctets`] holds.
pub const FEW: usize = 32;

/// The same octets: each is a number below 256.
#[inline(always)]
fn same_octets(octets: &[u8]) -> &[u8]
    ensures same { result.now ≡ octets.now }
    ensures small { list_all is_octet octets.now ≡ true }
{
    octets
}

/// At most 32 octets in place.
#[derive(Drop)]
pub struct FewOctets {
    octets: [u8; FEW],
    count: usize,
}

impl Model for FewOctets {
    ghost use Rattle.std.specs.Prelude.{List, ℕ, take, ◌≤◌};

    ghost Value = { List ℕ };

    ghost view = { λ few. take few.count few.octets };

    ghost invariant = { λ few. few.count ≤ 32 };
}

impl FewOctets {
    /// The octets in bits, copied.
    #[inline(always)]
    pub(crate) fn copied(bits: BitStr<'_>) -> Self
        requires whole { length (bits_of bits) % 8 ≡ 0 }
        requires few { length (bits_of bits) ≤ 256 }
        ensures octets { octet_bits result ≡ bits_of bits.entry }
        ensures small { list_all is_octet result ≡ true }
    {
        let count = bits.len() / 8;
        let mut octets = [0; FEW];
        bits.copy_to(&mut octets[..count]);
        let few = FewOctets { octets, count };
        let _octets = few.as_slice();
        few
    }

    /// The octets.
    #[inline(always)]
    pub fn as_slice(&self) -> &[u8]
        ensures value { result.now ≡ self.now }
        ensures small { list_all is_octet result.now ≡ true }
    {
        same_octets(&self.octets[..self.count])
    }
}

/// Octets that were read.
#[derive(Drop)]
pub enum InputOctets<'input> {
    /// They are one run of the input that begins at an octet.
    Lent(&'input [u8]),
    /// They begin inside an octet of the input.
    Few(FewOctets),
    /// As `Few`, but more, or they were in fragments, and are joined.
    Owned(Vec<u8>),
}

impl<'input> InputOctets<'input> {
    /// The octets.
    #[inline(always)]
    pub fn as_slice(&self) -> &[u8]
        ensures value { result.now ≡ octets_of self.now }
    {
        match self {
            InputOctets::Lent(octets) => *octets,
            InputOctets::Few(octets) => octets.as_slice(),
            InputOctets::Owned(octets) => octets.as_slice(),
        }
    }

    /// The octets as a vector. Owned ones are moved, which allocates nothing; others are copied.
    ///
    /// # Errors
    ///
    /// If the octets are not owned, and memory runs out.
    pub fn into_vec(self, alloc: Global) -> Result<Vec<u8>, AllocError>
        ensures octets { IfOk result (λ v. v.items ≡ octets_of self.entry) }
        ensures unowned { OnErr result (AreUnowned self.entry) }
    {
        match self {
            InputOctets::Lent(octets) => Vec::from_slice(alloc, octets),
            InputOctets::Few(octets) => Vec::from_slice(alloc, octets.as_slice()),
            InputOctets::Owned(octets) => Ok(octets),
        }
    }
}
