//! Numbers of at most eight octets.
ghost use Rattle.std.specs.Prelude.{◌≡◌, ◌≤◌, length, map};
ghost use Rattle.asn1_values_natives.specs.Octets.{own_number, sign_free, signed_by, unsigned_number};

use asn1_values_natives::octets::{has_sign, without_sign};

/// The unsigned number in at most eight octets, most significant first, each octet inverted if `negative`.
#[inline(always)]
pub fn short_magnitude(negative: bool, octets: &[u8]) -> u64
    requires { length octets.now ≤ 8 }
    ensures { result ≡ unsigned_number (map (sign_free negative) octets.now) }
{
    let mut total: u64 = 0;
    for octet in octets {
        total = total * 256 + u64::from(without_sign(negative, *octet));
    }
    total
}

/// A number from its sign and magnitude: the magnitude, or -1 minus it.
#[inline(always)]
fn number_by(negative: bool, magnitude: u64) -> i128
    ensures { result ≡ signed_by negative magnitude }
{
    if negative {
        -1 - i128::from(magnitude)
    } else {
        i128::from(magnitude)
    }
}

/// The number in at most eight octets, signed or unsigned (X.690 8.3.3).
#[inline(always)]
pub fn short_number(signed: bool, octets: &[u8]) -> i128
    requires { length octets.now ≤ 8 }
    ensures { result ≡ own_number signed octets.now }
{
    if signed {
        let negative = has_sign(octets);
        return number_by(negative, short_magnitude(negative, octets));
    }
    number_by(false, short_magnitude(false, octets))
}

/// The same for the numbers of octets that an INTEGER has between two bounds (X.696 10).
#[inline(always)]
pub fn fixed_number(signed: bool, octets: &[u8]) -> i128
    requires { length octets.now ≤ 8 }
    ensures { result ≡ own_number signed octets.now }
{
    match octets {
        [a] if signed => i128::from(i8::from_be_bytes([*a])),
        [a] => i128::from(*a),
        [a, b] if signed => i128::from(i16::from_be_bytes([*a, *b])),
        [a, b] => i128::from(u16::from_be_bytes([*a, *b])),
        [a, b, c, d] if signed => i128::from(i32::from_be_bytes([*a, *b, *c, *d])),
        [a, b, c, d] => i128::from(u32::from_be_bytes([*a, *b, *c, *d])),
        _ => short_number(signed, octets),
    }
}
