//! Integers in two's complement.
ghost use Rattle.std.specs.Prelude.{◌≡◌, ℕ, ◌+◌, ◌-◌, ◌*◌, ◌/◌, ◌^◌, ◌<◌, ◌≤◌, List, length, map, drop, false};
ghost use Rattle.asn1_model.specs.Numbers.{digits, width, octet_width as octet_width_of};
ghost use Rattle.asn1_values_natives.specs.Octets.{signed_number, unsigned_number, is_padded, is_leading};
ghost use Rattle.asn1_values_natives.specs.Octets.{is_negative, sign_free, plain_octets};

/// Whether the first octet is redundant: the first nine bits are all equal (X.690 8.3.2).
pub fn has_padding(octets: &[u8]) -> bool
    ensures { result ≡ is_padded octets.now }
{
    match octets {
        [0, second, ..] => *second < 128,
        [255, second, ..] => *second >= 128,
        _ => false,
    }
}

/// The octets without redundant leading octets: the fewest octets of the same number (X.690 8.3.2).
pub fn without_padding(octets: &[u8]) -> &[u8]
    ensures same { signed_number result.now ≡ signed_number octets.now }
    ensures fewest { is_padded result.now ≡ false }
    ensures some { 0 < length octets.now → 0 < length result.now }
{
    let mut rest = octets;
    while has_padding(rest) {
        rest = &rest[1..];
    }
    rest
}

/// An octet of a number's magnitude: complemented if the number is negative.
pub fn without_sign(negative: bool, octet: u8) -> u8
    ensures { result ≡ sign_free negative octet }
{
    if negative { 255 - octet } else { octet }
}

/// Whether octets encode a negative number in two's complement (X.690 8.3.3); false for no octets.
pub fn has_sign(octets: &[u8]) -> bool
    ensures { result ≡ is_negative octets.now }
{
    match octets {
        [first, ..] => *first >= 128,
        [] => false,
    }
}

/// Whether the first octet holds only sign bits: 0, or 255 in a negative number.
pub fn has_leading(negative: bool, octets: &[u8]) -> bool
    ensures { result ≡ is_leading negative octets.now }
{
    match octets {
        [first, ..] => without_sign(negative, *first) == 0,
        [] => false,
    }
}

/// The octets after the leading octets that hold only sign bits.
pub fn without_leading(negative: bool, octets: &[u8]) -> &[u8]
    ensures same { unsigned_number (map (sign_free negative) result.now)
        ≡ unsigned_number (map (sign_free negative) octets.now) }
    ensures fewest { is_leading negative result.now ≡ false }
{
    let mut rest = octets;
    while has_leading(negative, rest) {
        rest = &rest[1..];
    }
    rest
}

/// The fewest octets in two's complement without the leading zero octet, which only shows that the number is not
/// negative.
pub fn without_zero(octets: &[u8]) -> &[u8]
    ensures { result.now ≡ plain_octets octets.now }
{
    match octets {
        [0, behind @ ..] => behind,
        _ => octets,
    }
}

/// The number that at most sixteen octets encode, the most significant first, each complemented if it is negative.
pub fn magnitude(negative: bool, octets: &[u8]) -> u128
    requires { length octets.now ≤ 16 }
    ensures value { result ≡ unsigned_number (map (sign_free negative) octets.now) }
{
    let mut total: u128 = 0;
    for octet in octets {
        total = total * 256 + u128::from(without_sign(negative, *octet));
    }
    total
}

/// The number of binary digits of a number; zero has none.
pub fn bit_count(number: u128) -> usize
    ensures value { result ≡ width number }
    ensures bound { result ≤ 128 }
{
    128 - number.leading_zeros() as usize
}

/// The fewest octets that hold a number; zero needs none.
#[inline]
pub fn octet_width(number: u128) -> usize
    ensures width { result ≡ octet_width_of number }
    ensures most { result ≤ 16 }
{
    (bit_count(number) + 7) / 8
}

/// The last `count` octets of a number, complemented if it is negative, at the end of seventeen octets; the octets
/// before them are zero.
pub fn last_octets(negative: bool, number: u128, count: usize) -> [u8; 17]
    requires { count ≤ 17 }
    ensures { drop (17 - count) result ≡ map (sign_free negative) (digits 256 count number) }
{
    let mut octets = [0u8; 17];
    let mut rest = number;
    for done in 0..count {
        octets[16 - done] = without_sign(negative, (rest % 256) as u8);
        rest /= 256;
    }
    octets
}
