//! The low octets of a number, and the fewest octets that encode one.
ghost use Rattle.std.specs.Prelude.{◌≡◌, ◌≤◌, ◌++◌, MatchResult, OnErr};
ghost use Rattle.asn1_model.specs.Numbers.{digits, least_octets, signed_octets};
ghost use Rattle.asn1_model.specs.Versions.{Begins};

use asn1_schema_errors::EncodeError;
use asn1_values_natives::Wide;
use asn1_values_natives::octets::{bit_count, octet_width};

/// Adds the low `count` octets of a number, most significant first.
#[inline]
pub(crate) fn push_digits(
    octets: &mut Vec<u8>,
    number: u128,
    count: usize,
) -> Result<(), EncodeError>
    requires { count ≤ 16 }
    ensures text { MatchResult result (λ _. octets.new.items ≡ octets.old.items ++ digits 256 count number)
        (λ e. e ≡ EncodeError.OutOfMemory) }
    ensures kept { OnErr result (Begins octets.old.items octets.new.items) }
{
    match count {
        1 => octets.push((number % 0x100) as u8)?,
        2 => octets.extend_from_slice(&((number % 0x1_0000) as u16).to_be_bytes())?,
        4 => octets.extend_from_slice(&((number % 0x1_0000_0000) as u32).to_be_bytes())?,
        8 => octets.extend_from_slice(&((number % 0x1_0000_0000_0000_0000) as u64).to_be_bytes())?,
        _ => octets.extend_from_slice(&number.to_be_bytes()[16 - count..])?,
    }
    Ok(())
}

/// The fewest octets that encode a number in two's complement (X.696 10).
#[inline]
pub(crate) fn signed_len(number: i128) -> usize
    ensures octets { result ≡ signed_octets number }
    ensures most { result ≤ 16 }
{
    bit_count(Wide::from_i128(number).magnitude) / 8 + 1
}

/// The fewest octets that encode an unsigned number, at least one (X.696 10 and 17).
#[inline]
pub(crate) fn natural_len(number: u128) -> usize
    ensures octets { result ≡ least_octets number }
    ensures most { result ≤ 16 }
{
    octet_width(number).max(1)
}
