//! General length determinants (X.691 11.9.3).
ghost use Rattle.std.specs.Prelude.{◌≡◌, ◌≤◌, ◌<◌, ◌||◌, leb, false, IfOk, IfErr};
ghost use Rattle.asn1_model.specs.Per as Per;
ghost use Rattle.per_codec_laws.specs.Takes.{Front};
ghost use Rattle.per_codec_reading.specs.Fronts.{freedoms, Misses};
ghost use Rattle.per_codec_reading.specs.Fronts as fronts;
ghost use Rattle.per_codec_reading.specs.Lengths.{IsLength, length_form};
ghost use Rattle.per_codec_reading.specs.Units.{count_of, length_may_follow};

use crate::padding::read_padding;
use crate::{Cursor, FRAGMENT, PackedRules};
use asn1_schema_errors::DecodeError;

/// A general length determinant.
#[derive(Clone, Copy, Debug, PartialEq, Eq)]
pub enum Length {
    /// A number of units below 16384, the last ones.
    Short(usize),
    /// A fragment of one to four times 16384 units, given by the multiple. A further length determinant follows it.
    Fragment(usize),
}

impl Length {
    /// The number of units before the next length determinant or the end.
    #[inline(always)]
    pub fn count(self) -> usize
        requires { IsLength self }
        ensures count { result ≡ count_of self }
        ensures few { result ≤ 65536 }
    {
        match self {
            Length::Short(count) => count,
            Length::Fragment(multiple) => multiple * FRAGMENT,
        }
    }

    /// Whether this may be after a fragment of `multiple` times 16384 units: a last one always, and another fragment
    /// if the earlier one has 65536 units or the rules are not strict (X.691 11.9.3.8).
    #[inline(always)]
    pub fn may_follow(self, rules: PackedRules, multiple: usize) -> bool
        ensures { result ≡ length_may_follow (freedoms rules Per.other_fragments) multiple self }
    {
        match self {
            Length::Short(_) => true,
            Length::Fragment(_) => !rules.is_strict() || multiple == 4,
        }
    }
}

/// Whether a length in fourteen bits is accepted: in strict rules only from 128 on (X.691 11.9.3.7).
#[inline(always)]
fn is_accepted(rules: PackedRules, length: usize) -> bool
    ensures { result ≡ (freedoms rules Per.two_octet_length || leb 128 length) }
{
    !rules.is_strict() || length >= 128
}

/// Reads a length determinant at this position: seven, fourteen or six bits, after the bits that say which (X.691
/// 11.9.3.6 to 11.9.3.8).
#[inline(always)]
fn read_unaligned_length(cursor: &mut Cursor<'_>, rules: PackedRules) -> Result<Length, DecodeError>
    ensures ok { IfOk result (λ length. Front (freedoms rules) (length_form false length) cursor.old cursor.new) }
    ensures bound { IfOk result IsLength }
    ensures only { IfErr result (Misses (freedoms rules) (length_form false) cursor.old) }
{
    let first = cursor.take_number(8)? as usize;
    if first < 0x80 {
        return Ok(Length::Short(first));
    }
    if first < 0xC0 {
        let second = cursor.take_number(8)? as usize;
        let length = (first - 0x80) * 0x100 + second;
        if !is_accepted(rules, length) {
            return Err(DecodeError::NotValidCanonicalEncoding);
        }
        return Ok(Length::Short(length));
    }
    let multiple = first - 0xC0;
    if multiple < 1 || multiple > 4 {
        return Err(DecodeError::LengthExceedsPlatformWidth);
    }
    Ok(Length::Fragment(multiple))
}

/// Reads a general length determinant, that of a fragment or a last one, octet-aligned in the aligned variant (X.691
/// 11.9.3.5 to 11.9.3.8). A length below 128 is also accepted in fourteen bits if the rules are not strict.
///
/// # Errors
///
/// `Incomplete` if the bits end early, `LengthExceedsPlatformWidth` if the multiple of 16384 units of a fragment is
/// zero or above four, and in strict rules `InvalidPadding` if a bit of padding is not zero, and
/// `NotValidCanonicalEncoding` if a length below 128 is in fourteen bits.
#[inline(always)]
pub fn read_length(cursor: &mut Cursor<'_>, rules: PackedRules) -> Result<Length, DecodeError>
    ensures ok { IfOk result (λ length. Front (freedoms rules)
        (length_form (fronts.is_aligned rules) length) cursor.old cursor.new) }
    ensures bound { IfOk result IsLength }
    ensures only { IfErr result (Misses (freedoms rules) (length_form (fronts.is_aligned rules)) cursor.old) }
{
    read_padding(cursor, rules)?;
    read_unaligned_length(cursor, rules)
}
