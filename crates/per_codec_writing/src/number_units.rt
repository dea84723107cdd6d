//! The low bits of octets minus a base as units, of at most eight bits.
ghost use Rattle.std.specs.Prelude.{◌≡◌, ◌≤◌, flat_map, length, map, MatchResult};
ghost use Rattle.asn1_model.specs.Numbers.{binary};
ghost use Rattle.per_codec_writing.specs.Characters.{low_bits};
ghost use Rattle.per_codec_packing.specs.FieldLists.{as_field_list};
ghost use Rattle.per_codec_writing.specs.Units.{unit_forms};
ghost use Rattle.per_codec_writing.specs.Writing.{plus};

use crate::Units;
use asn1_schema_errors::EncodeError;
use per_codec_packing::Packing;

/// Octets as units: the low `width` bits, at most eight, of each octet minus `base`.
#[derive(Drop)]
pub(crate) struct NumberUnits<'a> {
    pub(crate) octets: &'a [u8],
    pub(crate) width: u32,
    pub(crate) base: u8,
    ghost narrow: { width ≤ 8 },
}

/// The low `width` bits of each of at most eight octets minus `base`, concatenated to a number, and the count of
/// these bits.
#[inline(always)]
fn joined_bits(octets: &[u8], width: u32, base: u8) -> (u64, u32)
    requires narrow { width ≤ 8 }
    requires few { length octets.now ≤ 8 }
    ensures digits { binary result.1 result.0 ≡ flat_map (low_bits base width) octets.now }
    ensures narrow { result.1 ≤ 64 }
{
    let mut number = 0;
    let mut count = 0;
    for octet in octets {
        let code = octet.saturating_sub(base);
        number = number << width | code as u64 & ((1 << width) - 1);
        count += width;
    }
    (number, count)
}

/// Adds the low `width` bits of each octet minus `base`, for eight octets at a time. The only error is `OutOfMemory`.
fn push_low_bits(
    output: &mut Packing,
    octets: &[u8],
    width: u32,
    base: u8,
) -> Result<(), EncodeError>
    requires { width ≤ 8 }
    ensures { MatchResult result
        (λ _. output.new ≡ plus output.old (as_field_list (flat_map (low_bits base width) octets.now)))
        (λ e. e ≡ EncodeError.OutOfMemory) }
{
    if width == 8 && base == 0 {
        output.extend_from_bytes(octets)?;
        return Ok(());
    }
    let mut rest = octets;
    while rest.len() > 0 {
        let few = rest.len().min(8);
        let (number, count) = joined_bits(&rest[..few], width, base);
        output.push_bits(number as u128, count)?;
        rest = &rest[few..];
    }
    Ok(())
}

impl Units for NumberUnits<'_> {
    ghost forms = { λ units. unit_forms (map (low_bits units.base units.width) units.octets.now) };

    fn count(&self) -> usize {
        self.octets.len()
    }

    fn push_range(&self, output: &mut Packing, from: usize, to: usize) -> Result<(), EncodeError> {
        push_low_bits(output, &self.octets[from..to], self.width, self.base)?;
        Ok(())
    }
}
