//! Bit strings of a fixed length.
ghost use Rattle.std.specs.Prelude.{◌≡◌, ◌*◌, ◌+◌, ◌-◌, ◌≤◌, ◌++◌, [], length, take, replicate, false, IsTrue, ◌↔◌};
ghost use Rattle.std.specs.Prelude.{IsSome, IfSome, slice_get};
ghost use Rattle.asn1_model.specs.Numbers.{octet_bits};
ghost use Rattle.asn1_values_bits.specs.BitStr.{bits_of};
ghost use Rattle.asn1_values_bit_strings.specs.Fixed.{fixed_octets};

use asn1_values_bits::BitStr;
use std::marker::Model;

/// A value of the ASN.1 type BIT STRING of exactly `N` bits (X.680, clause 22), stored inline.
#[derive(Clone, Copy)]
pub struct FixedBitString<const N: usize> {
    octets: [u8; N],
}

impl<const N: usize> Model for FixedBitString<N> {
    ghost use Rattle.std.specs.Prelude.{Bool, List, take};
    ghost use Rattle.std.proofs.Common.{◌≡◌, ap, sym};
    ghost use Rattle.asn1_model.specs.Numbers.{octet_bits};
    ghost use Rattle.asn1_values_bit_strings.specs.Fixed.{fixed_octets};

    ghost Value = { List Bool };

    ghost view = { λ s. take N (octet_bits s.octets) };

    ghost invariant = { λ s. s.octets ≡ fixed_octets N (take N (octet_bits s.octets)) };

    ghost inverse = { λ bits. record { octets = fixed_octets N bits } };

    ghost inverse_ok = { λ s kept. ap (λ octets. record { octets = octets }) (sym kept) };
}

impl<const N: usize> FixedBitString<N> {
    ghost use Rattle.asn1_values_bits.specs.BitStr.{bits_of, offset_of};

    /// The first `N` bits of `N` octets.
    pub fn new(octets: [u8; N]) -> Self
        ensures { result ≡ take N (octet_bits octets.entry) }
    {
        let mut cleared = [0; N];
        fill(&mut cleared, BitStr::front_of(&octets, N));
        FixedBitString { octets: cleared }
    }

    /// The first `N` bits of the octets, if there are exactly `N` octets.
    pub fn from_slice(octets: &[u8]) -> Option<Self>
        ensures some { IsSome result ↔ (length octets.now ≡ N) }
        ensures bits { IfSome result (λ string. string ≡ take N (octet_bits octets.now)) }
    {
        if octets.len() != N {
            return None;
        }
        let mut cleared = [0; N];
        fill(&mut cleared, BitStr::front_of(octets, N));
        Some(FixedBitString { octets: cleared })
    }

    /// The bits of a view, if there are exactly `N`.
    pub fn from_bitslice(bits: BitStr<'_>) -> Option<Self>
        ensures some { IsSome result ↔ (length (bits_of bits.entry) ≡ N) }
        ensures bits { IfSome result (λ string. string ≡ bits_of bits.entry) }
    {
        if bits.len() != N {
            return None;
        }
        let mut octets = [0; N];
        fill(&mut octets, bits);
        Some(FixedBitString { octets })
    }

    /// How many bits there are: `N`.
    pub fn len(&self) -> usize
        ensures length_is { result ≡ length self.now }
        ensures fixed { result ≡ N }
    {
        self.as_bitslice().len()
    }

    /// Whether there are no bits.
    pub fn is_empty(&self) -> bool
        ensures { IsTrue result ↔ (self.now ≡ []) }
    {
        self.as_bitslice().is_empty()
    }

    /// The bit at position `index`, if there is one.
    pub fn get(&self, index: usize) -> Option<bool>
        ensures { result ≡ slice_get self.now index }
    {
        self.as_bitslice().get(index)
    }

    /// A view of the bits.
    pub fn as_bitslice(&self) -> BitStr<'_>
        ensures bits { bits_of result ≡ self.now }
        ensures offset { offset_of result ≡ 0 }
        ensures fixed { length (bits_of result) ≡ N }
    {
        BitStr::front_of(&self.octets, N)
    }
}

// Writes the bits into the octets and fills the rest with zero bits.
fn fill(octets: &mut [u8], bits: BitStr<'_>)
    requires { length (bits_of bits) ≤ length octets.old * 8 }
    ensures octets { octets.new ≡ fixed_octets (length octets.old) (bits_of bits.entry) }
    ensures bits { octet_bits octets.new ≡ bits_of bits.entry
        ++ replicate (length octets.old * 8 - length (bits_of bits.entry)) false }
{
    let mut rest = bits;
    for octet in octets {
        let few = rest.len().min(8);
        *octet = (rest.first_number(few as u32) << (8 - few)) as u8;
        rest = rest.split_at(few).1;
    }
}
