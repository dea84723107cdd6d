//! Octets after a length determinant (X.691 11.9).
ghost use Rattle.std.specs.Prelude.{◌≡◌, ◌%◌, ◌≤◌, true, length, IfOk, IfErr, IsOkAnd, Some};
ghost use Rattle.asn1_model.specs.Numbers.{octet_bits};
ghost use Rattle.asn1_model.specs.Per as Per;
ghost use Rattle.asn1_model.specs.Strings.{is_octet};
ghost use Rattle.std.specs.List.{list_all};
ghost use Rattle.asn1_values_bits.specs.BitStr.{bits_of, offset_of};
ghost use Rattle.per_codec_laws.specs.Takes.{Front};
ghost use Rattle.per_codec_reading.specs.Fronts.{freedoms, Misses};
ghost use Rattle.per_codec_reading.specs.Fronts as fronts;
ghost use Rattle.per_codec_reading.specs.Octets.{octets_of, AreLent, AreUnowned};
ghost use Rattle.per_codec_reading.specs.Runs.{bits_in, storage_of, IsLent};

use crate::input_octets::{FEW, FewOctets, InputOctets};
use crate::runs::{Run, RunBits, read_counted};
use crate::{Cursor, PackedRules};
use asn1_schema_errors::DecodeError;
use asn1_values_bits::{BitBuffer, BitStr};
use std::alloc::{AllocError, Global};

/// The octets, borrowed.
fn borrowed(octets: &[u8]) -> InputOctets<'_>
    ensures octets { octets_of result ≡ octets.now }
    ensures small { list_all is_octet octets.now ≡ true }
    ensures lent { AreLent result }
{
    InputOctets::Lent(octets)
}

/// A copy of the bits, which are whole octets. Out of line, where the number of octets is any, so that they are filled
/// at once.
#[inline(never)]
fn copied_bits(alloc: Global, bits: BitStr<'_>) -> Result<BitBuffer, AllocError>
    requires { length (bits_of bits) % 8 ≡ 0 }
    ensures { IfOk result (λ copy. copy ≡ bits_of bits.entry) }
{
    let count = bits.len() / 8;
    let mut octets = Vec::with_capacity(alloc, count)?;
    octets.resize(count, 0)?;
    bits.copy_to(octets.as_mut_slice());
    Ok(BitBuffer::from_vec(octets))
}

/// The octets in bits of the input. Bits that begin at an octet of the input are borrowed; of others at most 32 octets
/// are copied into the answer. Neither allocates.
#[inline(always)]
fn lent_octets<'input>(
    alloc: Global,
    bits: BitStr<'input>,
) -> Result<InputOctets<'input>, AllocError>
    requires { length (bits_of bits) % 8 ≡ 0 }
    ensures octets { IfOk result (λ octets. octet_bits (octets_of octets) ≡ bits_of bits.entry) }
    ensures small { IfOk result (λ octets. list_all is_octet (octets_of octets) ≡ true) }
    ensures lent { offset_of bits.entry ≡ 0 → IsOkAnd result AreLent }
    ensures few { length (bits_of bits.entry) ≤ 256 → IsOkAnd result AreUnowned }
{
    if let Some(octets) = bits.aligned_octets() {
        return Ok(borrowed(octets));
    }
    if bits.len() <= FEW * 8 {
        return Ok(InputOctets::Few(FewOctets::copied(bits)));
    }
    let copy = copied_bits(alloc, bits)?;
    Ok(InputOctets::Owned(joined_octets(copy)))
}

/// The octets in joined bits.
fn joined_octets(bits: BitBuffer) -> Vec<u8>
    requires { length bits % 8 ≡ 0 }
    ensures octets { octet_bits result.items ≡ bits }
    ensures small { list_all is_octet result.items ≡ true }
{
    bits.into_vec()
}

impl<'input> Run<'input> {
    /// The units as octets. In one piece of the input they are borrowed if this begins at an octet, and of others at
    /// most 32 octets are copied into the answer. Neither allocates.
    #[inline(always)]
    pub fn into_octets(self, alloc: Global) -> Result<InputOctets<'input>, AllocError>
        requires { length (bits_in self.bits) % 8 ≡ 0 }
        ensures octets { IfOk result (λ octets. octet_bits (octets_of octets) ≡ bits_in self.entry.bits) }
        ensures small { IfOk result (λ octets. list_all is_octet (octets_of octets) ≡ true) }
        ensures lent { storage_of self.entry.bits ≡ Some 0 → IsOkAnd result AreLent }
        ensures few { IsLent self.entry.bits → length (bits_in self.entry.bits) ≤ 256 → IsOkAnd result AreUnowned }
    {
        match self.bits {
            RunBits::Lent(bits) => {
                let octets = lent_octets(alloc, bits)?;
                Ok(octets)
            }
            RunBits::Joined(bits) => Ok(InputOctets::Owned(joined_octets(bits))),
        }
    }
}

/// Reads octets after a length determinant (X.691 11.9). Up to 16383 octets in one piece that begins at an octet of
/// the input are borrowed, and up to 32 others are copied into the answer. Neither allocates.
///
/// # Errors
///
/// `Incomplete` if the bits end early, `NotValidCanonicalEncoding` if the largest fragments are not first, in strict
/// rules, the errors of a length determinant, and `OutOfMemory`.
#[inline(always)]
pub fn read_counted_octets<'input>(
    alloc: Global,
    cursor: &mut Cursor<'input>,
    rules: PackedRules,
) -> Result<InputOctets<'input>, DecodeError>
    ensures ok { IfOk result (λ octets. Front (freedoms rules)
        (Per.counted_octets (fronts.is_aligned rules) (octets_of octets)) cursor.old cursor.new) }
    ensures only { IfErr result (Misses (freedoms rules)
        (Per.counted_octets (fronts.is_aligned rules)) cursor.old) }
{
    let units = read_counted(alloc, cursor, rules, 8)?;
    let octets = units.into_octets(alloc)?;
    Ok(octets)
}
