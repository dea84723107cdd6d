//! Bits borrowed from the input.
ghost use Rattle.std.specs.Prelude.{◌≡◌, ◌+◌, ◌%◌, length, Some, None};
ghost use Rattle.asn1_values_bits.specs.BitStr.{bits_of, offset_of};
ghost use Rattle.per_codec_reading.specs.Runs.{bits_in, IsLent, StandsBefore, storage_of};

use crate::runs::RunBits;
use asn1_values_bits::BitStr;

/// The same bits. If they are borrowed, they are borrowed from this input, in which they end at `end`.
#[inline(always)]
pub fn lent_by<'input>(input: BitStr<'input>, end: usize, bits: RunBits<'_>) -> RunBits<'input>
    requires { StandsBefore bits (bits_of input) end }
    ensures same { bits_in result ≡ bits_in bits.entry }
    ensures lent { IsLent bits.entry → length (bits_in bits.entry) % 8 ≡ 0
        → storage_of result ≡ Some ((offset_of input.entry + end) % 8) }
    ensures joined { (IsLent bits.entry → ⊥) → storage_of result ≡ None }
{
    match bits {
        RunBits::Lent(bits) => {
            let (_before, rest) = input.split_at(end - bits.len());
            let (own, _behind) = rest.split_at(bits.len());
            RunBits::Lent(own)
        }
        RunBits::Joined(bits) => RunBits::Joined(bits),
    }
}
