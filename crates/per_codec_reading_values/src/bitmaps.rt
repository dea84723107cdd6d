//! The bitmap of additions (X.691 19.7).
ghost use Rattle.std.specs.Prelude.{◌≡◌, ◌||◌, OnOk, IfOk, IfErr};
ghost use Rattle.asn1_model.specs.Per;
ghost use Rattle.asn1_schema_reading_laws.specs.PresenceBits as presence;
ghost use Rattle.asn1_values_bits.specs.BitStr.{bits_of};
ghost use Rattle.per_codec_reading.specs.Fronts.{freedoms, is_aligned, IsFresh};
ghost use Rattle.per_codec_reading_values.specs.Bitmaps.{HasBitmap, NoBitmap};

use crate::Stretch;
use crate::fields::Field;
use asn1_schema_errors::DecodeError;
use asn1_values_bits::BitStr;
use per_codec_reading::padding::are_zero;
use per_codec_reading::{PackedRules, RunBits};
use std::alloc::Global;

/// Whether any of many bits, or of none, is set.
#[cold]
#[inline(never)]
fn is_any_of_many_set(bits: BitStr<'_>) -> bool
    ensures { result ≡ presence.is_any_set (bits_of bits.entry) }
{
    let mut rest = bits;
    while rest.len() > 0 {
        let (front, behind) = rest.split_at(rest.len().min(128));
        if !are_zero(front) {
            return true;
        }
        rest = behind;
    }
    false
}

/// Whether any of these bits is set. Up to 57, which eight octets hold wherever they begin, are read in place.
#[inline(always)]
fn is_any_set(bits: BitStr<'_>) -> bool
    ensures { result ≡ presence.is_any_set (bits_of bits.entry) }
{
    if bits.is_empty() || bits.len() > 57 {
        return is_any_of_many_set(bits);
    }
    !are_zero(bits)
}

/// Whether a bitmap of additions is accepted: in strict rules only if a bit is set (X.691 19.7).
#[inline(always)]
fn is_accepted(rules: PackedRules, bitmap: BitStr<'_>) -> bool
    ensures { result ≡ (freedoms rules Per.empty_bitmap || presence.is_any_set (bits_of bitmap.entry)) }
{
    !rules.is_strict() || is_any_set(bitmap)
}

/// Reads the bitmap of the additions of a sequence or set (X.691 19.7), if the extension bit says so.
///
/// # Errors
///
/// `Incomplete` if the bits end early, the errors of a length, `NotValidCanonicalEncoding` if no bit is set, in strict
/// rules, and `OutOfMemory`.
pub fn read_bitmap<'input>(
    alloc: Global,
    place: &mut Stretch<'input>,
    rules: PackedRules,
    is_extended: bool,
) -> Result<Stretch<'input>, DecodeError>
    ensures ok { IfOk result (λ bitmap. HasBitmap (freedoms rules)
        (is_aligned rules) is_extended bitmap.place.1 place.old.place place.new.place) }
    ensures storage { OnOk result (place.new.storage ≡ place.old.storage) }
    ensures only { IfErr result (NoBitmap (freedoms rules) (is_aligned rules) is_extended place.old.place) }
    ensures fresh { IfErr result IsFresh }
{
    if !is_extended {
        return Ok(Stretch::new(RunBits::Lent(BitStr::new())));
    }
    let bitmap = place.take_field(alloc, rules, Field::Bitmap)?;
    if !is_accepted(rules, bitmap.bits()) {
        return Err(DecodeError::NotValidCanonicalEncoding);
    }
    Ok(bitmap)
}
