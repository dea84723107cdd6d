//! Numbers read from the bits of octets.
ghost use Rattle.std.specs.Prelude.{◌≡◌, ◌+◌, ◌-◌, ◌*◌, ◌/◌, ◌^◌, ◌<◌, ◌≤◌, ◌++◌, length, take, drop, IsTrue, ◌↔◌};
ghost use Rattle.std.specs.Prelude.{pos, Any};
ghost use Rattle.asn1_model.specs.Numbers.{binary, octet_bits};
ghost use Rattle.asn1_values_bits.specs.Octets.{ored, placed};

/// The number whose binary digits are the `count` bits of the octets from bit `position` on.
#[inline(always)]
pub fn read_bits(octets: &[u8], position: usize, count: u32) -> u64
    requires narrow { count ≤ 64 }
    requires within { position + count ≤ length octets.now * 8 }
    requires short { position + count < 2 ^ 64 }
    ensures digits { binary count result ≡ take count (drop position (octet_bits octets.now)) }
    ensures fits { result < 2 ^ count }
{
    if count == 0 || count > 57 || octets.len() < position / 8 + 8 {
        return read_apart(octets, position, count);
    }
    read_of_eight(octets, position, count)
}

// As `read_bits`, for the rare case that the bits need more than eight octets, or fewer are left.
fn read_apart(octets: &[u8], position: usize, count: u32) -> u64
    requires narrow { count ≤ 64 }
    requires within { position + count ≤ length octets.now * 8 }
    requires short { position + count < 2 ^ 64 }
    ensures digits { binary count result ≡ take count (drop position (octet_bits octets.now)) }
    ensures fits { result < 2 ^ count }
{
    if count == 0 {
        return 0;
    }
    if octets.len() > position / 8 + 8 {
        return read_of_nine(octets, position, count);
    }
    read_of_few(octets, position, count)
}

// The number of eight octets, the most significant first.
#[inline(always)]
fn eight_octets(octets: &[u8], start: usize) -> u64
    requires { start + 8 ≤ length octets.now }
    ensures { binary 64 result ≡ take 64 (drop (start * 8) (octet_bits octets.now)) }
{
    u64::from_be_bytes([
        octets[start],
        octets[start + 1],
        octets[start + 2],
        octets[start + 3],
        octets[start + 4],
        octets[start + 5],
        octets[start + 6],
        octets[start + 7],
    ])
}

// The number of sixteen octets, the most significant first.
#[inline(always)]
fn sixteen_octets(octets: &[u8], start: usize) -> u128
    requires { start + 16 ≤ length octets.now }
    ensures { binary 128 result ≡ take 128 (drop (start * 8) (octet_bits octets.now)) }
{
    let high = eight_octets(octets, start);
    let low = eight_octets(octets, start + 8);
    (high as u128) << 64 | low as u128
}

// The number of at most eight octets, the most significant first.
fn few_octets(octets: &[u8]) -> u64
    requires { length octets.now ≤ 8 }
    ensures { binary (length octets.now * 8) result ≡ octet_bits octets.now }
{
    let mut value = 0;
    for octet in octets {
        value = value << 8 | *octet as u64;
    }
    value
}

// Sixteen octets from `start` on, or eight, or all if there are fewer, and their count of bits. They are the most
// significant digits of a 128-bit number.
#[inline(always)]
pub(crate) fn octets_from(octets: &[u8], start: usize) -> (u128, u32)
    requires { start < length octets.now }
    ensures some { 8 ≤ result.1 }
    ensures narrow { result.1 ≤ 128 }
    ensures sixteen { start + 16 ≤ length octets.now → result.1 ≡ 128 }
    ensures eight { start + 8 ≤ length octets.now → length octets.now < start + 16 → result.1 ≡ 64 }
    ensures fewer { length octets.now < start + 8 → result.1 ≡ (length octets.now - start) * 8 }
    ensures bits { take result.1 (binary 128 result.0) ≡ take result.1 (drop (start * 8) (octet_bits octets.now)) }
{
    let left = octets.len() - start;
    if left >= 16 {
        return (sixteen_octets(octets, start), 128);
    }
    if left >= 8 {
        return ((eight_octets(octets, start) as u128) << 64, 64);
    }
    let width = left as u32 * 8;
    let value = few_octets(&octets[start..]);
    ((value as u128) << (128 - width), width)
}

// As `read_bits`, if eight octets hold the bits.
#[inline(always)]
fn read_of_eight(octets: &[u8], position: usize, count: u32) -> u64
    requires some { 0 < count }
    requires narrow { count ≤ 57 }
    requires eight { position / 8 + 8 ≤ length octets.now }
    ensures digits { binary count result ≡ take count (drop position (octet_bits octets.now)) }
    ensures fits { result < 2 ^ count }
{
    let eight = eight_octets(octets, position / 8);
    let offset = (position % 8) as u32;
    eight >> (64 - offset - count) & ((1 << count) - 1)
}

// As `read_bits`, if there are nine octets from the first bit's octet on.
fn read_of_nine(octets: &[u8], position: usize, count: u32) -> u64
    requires some { 0 < count }
    requires narrow { count ≤ 64 }
    requires nine { position / 8 + 9 ≤ length octets.now }
    ensures digits { binary count result ≡ take count (drop position (octet_bits octets.now)) }
    ensures fits { result < 2 ^ count }
{
    let start = position / 8;
    let offset = (position % 8) as u32;
    let eight = eight_octets(octets, start);
    let last = octets[start + 8] as u64;
    let first = eight << offset | last >> (8 - offset);
    first >> (64 - count)
}

// As `read_bits`, if there are at most eight octets from the first bit's octet on. Those that hold the bits are read
// as one number.
fn read_of_few(octets: &[u8], position: usize, count: u32) -> u64
    requires some { 0 < count }
    requires narrow { count ≤ 64 }
    requires within { position + count ≤ length octets.now * 8 }
    requires few { length octets.now ≤ position / 8 + 8 }
    ensures digits { binary count result ≡ take count (drop position (octet_bits octets.now)) }
    ensures fits { result < 2 ^ count }
{
    let start = position / 8;
    let offset = (position % 8) as u32;
    let used = (offset + count + 7) / 8;
    let all = few_octets(&octets[start..start + used as usize]);
    all >> (used * 8 - offset - count) & (u64::MAX >> (64 - count))
}

/// The number whose binary digits are the `count` bits of the octets from bit `position` on.
#[inline(always)]
pub fn read_wide(octets: &[u8], position: usize, count: u32) -> u128
    requires wide { count ≤ 128 }
    requires within { position + count ≤ length octets.now * 8 }
    requires short { position + count < 2 ^ 64 }
    ensures digits { binary count result ≡ take count (drop position (octet_bits octets.now)) }
    ensures fits { result < 2 ^ count }
{
    if count <= 64 {
        return read_bits(octets, position, count) as u128;
    }
    let high = read_apart(octets, position, count - 64);
    let low = read_apart(octets, position + (count - 64) as usize, 64);
    (high as u128) << 64 | low as u128
}

// Copies the octets that begin at bit `offset` of the source, which has one octet more than the target. The compiler
// handles sixteen octets at a time in this loop.
pub(crate) fn shift_octets(target: &mut [u8], source: &[u8], offset: u32)
    requires one_more { length source.now ≡ length target.old + 1 }
    requires some { 0 < offset }
    requires within { offset < 8 }
    ensures { octet_bits target.new ≡ take (length target.old * 8) (drop offset (octet_bits source.now)) }
{
    for i in 0..target.len() {
        target[i] = source[i] << offset | source[i + 1] >> (8 - offset);
    }
}

/// ORs the first `count` bits of the source into the target, from bit `position` of the target on. Its other bits are
/// unchanged.
pub fn or_bits(target: &mut [u8], position: usize, source: &[u8], count: usize)
    requires target_room { position + count ≤ length target.old * 8 }
    requires source_room { count ≤ length source.now * 8 }
    requires short { position + count < 2 ^ 64 }
    ensures { octet_bits target.new ≡ ored (octet_bits target.old)
        (placed position (take count (octet_bits source.now)) (length target.old * 8)) }
{
    let mut done = 0;
    while done < count {
        let place = position + done;
        let offset = place % 8;
        let few = (count - done).min(8 - offset);
        let bits = read_bits(source, done, few as u32);
        target[place / 8] |= (bits << (8 - offset - few)) as u8;
        done += few;
    }
}

/// 2^`bit_length` - 1: the largest number of that many bits.
pub fn range_from_len(bit_length: u32) -> i128
    requires { bit_length ≤ 126 }
    ensures { result ≡ pos (2 ^ bit_length - 1) }
{
    ((1u128 << bit_length) - 1) as i128
}

/// Whether characters have to be encoded by their index in the set, as `width` bits do not hold the largest character:
/// it is at least 2^`width`. False if the set is empty (X.691, 30.5.4).
pub fn should_be_indexed(width: u32, character_set: &[u32]) -> bool
    requires { width ≤ 31 }
    ensures { IsTrue result ↔ Any (λ character. 2 ^ width ≤ character) character_set.now }
{
    character_set
        .iter()
        .any(|character| *character >= 1 << width)
}
