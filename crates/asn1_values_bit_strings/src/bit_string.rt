//! Bit strings that own their bits.
ghost use Rattle.std.specs.Prelude.{◌≡◌, ◌++◌, ◌∷◌, [], length, IsTrue, ◌↔◌, IfOk, OnOk, OnErr, slice_get};
ghost use Rattle.asn1_model.specs.Numbers.{octet_bits, packed};
ghost use Rattle.asn1_values_bits.specs.Octets.{padded};

use asn1_values_bits::{BitBuffer, BitStr};
use std::alloc::{AllocError, Global};
use std::default::MadeWith;
use std::marker::Model;

/// A value of the ASN.1 type BIT STRING: a list of bits (X.680, clause 22).
#[derive(Drop)]
pub struct BitString {
    buffer: BitBuffer,
}

impl Model for BitString {
    ghost use Rattle.std.specs.Prelude.{Bool, List};

    ghost Value = { List Bool };

    ghost view = { λ s. s.buffer };
}

impl BitString {
    ghost use Rattle.asn1_values_bits.specs.BitStr.{bits_of, offset_of};

    /// No bits. Allocates nothing; later bits are kept in memory from `alloc`.
    pub fn new(alloc: Global) -> Self
        ensures { result ≡ [] }
    {
        let buffer = BitBuffer::new(alloc);
        BitString { buffer }
    }

    /// All bits of the octets.
    ///
    /// # Errors
    ///
    /// Out of memory.
    pub fn from_slice(alloc: Global, octets: &[u8]) -> Result<Self, AllocError>
        ensures { IfOk result (λ string. string ≡ octet_bits octets.now) }
    {
        let mut buffer = BitBuffer::new(alloc);
        buffer.extend_from_bytes(octets)?;
        Ok(BitString { buffer })
    }

    /// The bits of a view. Allocates once.
    ///
    /// # Errors
    ///
    /// Out of memory.
    pub fn from_bitslice(alloc: Global, bits: BitStr<'_>) -> Result<Self, AllocError>
        ensures { IfOk result (λ string. string ≡ bits_of bits.entry) }
    {
        if let Some(octets) = bits.holding_octets() {
            let mut buffer = BitBuffer::from_vec(Vec::from_slice(alloc, octets)?);
            buffer.truncate(bits.len());
            return Ok(BitString { buffer });
        }
        let mut buffer = BitBuffer::new(alloc);
        buffer.reserve_bytes(bits.len().div_ceil(8))?;
        buffer.extend_from_bitslice(bits)?;
        Ok(BitString { buffer })
    }

    /// The bits of a buffer. Its allocator is kept.
    pub fn from_buffer(buffer: BitBuffer) -> Self
        ensures { result ≡ buffer }
    {
        BitString { buffer }
    }

    /// The bits as a buffer.
    pub fn into_buffer(self) -> BitBuffer
        ensures { result ≡ self }
    {
        let BitString { buffer } = self;
        buffer
    }

    /// How many bits there are.
    pub fn len(&self) -> usize
        ensures { result ≡ length self.now }
    {
        self.buffer.len()
    }

    /// Whether there are no bits.
    pub fn is_empty(&self) -> bool
        ensures { IsTrue result ↔ (self.now ≡ []) }
    {
        self.buffer.is_empty()
    }

    /// The bit at position `index`, if there is one.
    pub fn get(&self, index: usize) -> Option<bool>
        ensures { result ≡ slice_get self.now index }
    {
        self.buffer.as_bitslice().get(index)
    }

    /// Appends one bit.
    ///
    /// # Errors
    ///
    /// Out of memory; nothing is changed then.
    pub fn push(&mut self, bit: bool) -> Result<(), AllocError>
        ensures ok { OnOk result (self.new ≡ self.old ++ bit ∷ []) }
        ensures err { OnErr result (self.new ≡ self.old) }
    {
        self.buffer.push(bit)?;
        Ok(())
    }

    /// A view of the bits.
    pub fn as_bitslice(&self) -> BitStr<'_>
        ensures bits { bits_of result ≡ self.now }
        ensures offset { offset_of result ≡ 0 }
    {
        self.buffer.as_bitslice()
    }

    /// The bits in octets, the first bit as the most significant, padded with zero bits.
    pub fn as_bytes(&self) -> &[u8]
        ensures octets { result.now ≡ packed (padded self.now) }
        ensures bits { octet_bits result.now ≡ padded self.now }
    {
        self.buffer.as_bytes()
    }
}

/// Clones into memory of the same allocator.
impl Clone for BitString {
    ghost is_clone = { λ string copy. copy ≡ string };

    fn clone(&self) -> Result<Self, AllocError> {
        Ok(BitString {
            buffer: self.buffer.clone()?,
        })
    }
}

/// No bits. Takes the place of `Default`, which has no allocator.
impl MadeWith<Global> for BitString {
    ghost is_made_with = { λ string. string ≡ [] };

    fn made_with(alloc: Global) -> Self {
        BitString::new(alloc)
    }
}
