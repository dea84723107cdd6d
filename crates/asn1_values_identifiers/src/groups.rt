//! Numbers in groups of seven bits, where bit 8 is set in all but the last octet: subidentifiers (X.690 8.19.2), and
//! tag numbers (X.696 8.7.2.3).
ghost use Rattle.std.specs.Prelude.{◌≡◌, ◌*◌, ◌^◌, ◌<◌, ◌≤◌, ◌++◌, length, OnOk, OnErr};
ghost use Rattle.asn1_model.specs.Numbers.{binary, octet_bits};
ghost use Rattle.asn1_model.specs.Strings.{groups_of_seven};
ghost use Rattle.asn1_model.specs.Versions.{Begins};
ghost use Rattle.asn1_values_identifiers.specs.Groups.{leading};

use std::alloc::AllocError;

/// Appends the groups of a number above 0, with bit 8 set in all of them.
fn push_leading(octets: &mut Vec<u8>, number: u64) -> Result<(), AllocError>
    requires { 0 < number }
    ensures text { OnOk result (octets.new.items ≡ octets.old.items ++ leading number) }
    ensures kept { OnErr result (Begins octets.old.items octets.new.items) }
{
    if number < 128 {
        octets.push(128 + number as u8)?;
        return Ok(());
    }
    push_leading(octets, number / 128)?;
    octets.push(128 + (number % 128) as u8)?;
    Ok(())
}

/// Appends a number in groups of seven bits.
///
/// # Errors
///
/// Out of memory.
pub fn push_groups(octets: &mut Vec<u8>, number: u64) -> Result<(), AllocError>
    ensures text { OnOk result (octets.new.items ≡ octets.old.items ++ groups_of_seven number) }
    ensures kept { OnErr result (Begins octets.old.items octets.new.items) }
{
    if number < 128 {
        octets.push(number as u8)?;
        return Ok(());
    }
    push_leading(octets, number / 128)?;
    octets.push((number % 128) as u8)?;
    Ok(())
}

/// The number of groups of seven bits that a number below 2^35 takes (X.690 8.19.2).
#[inline(always)]
pub(crate) fn group_count(number: u64) -> usize
    requires { number < 2 ^ 35 }
    ensures groups { result ≡ length (groups_of_seven number) }
    ensures most { result ≤ 5 }
{
    if number < 0x80 {
        1
    } else if number < 0x4000 {
        2
    } else if number < 0x20_0000 {
        3
    } else if number < 0x1000_0000 {
        4
    } else {
        5
    }
}

/// The groups of a number above 0 as the octets of one number, with bit 8 set in all of them.
fn leading_number(number: u64) -> u64
    requires some { 0 < number }
    requires few { number < 2 ^ 28 }
    ensures bits { binary (8 * length (leading number)) result ≡ octet_bits (leading number) }
    ensures fits { result < 2 ^ (8 * length (leading number)) }
    ensures few { result < 2 ^ 32 }
{
    if number < 128 {
        return 128 + number;
    }
    leading_number(number / 128) * 256 + 128 + number % 128
}

/// What `push_groups` appends for a number below 2^35, as one number, and the count of its bits.
#[inline(always)]
pub fn group_number(number: u64) -> (u64, u32)
    requires { number < 2 ^ 35 }
    ensures bits { binary result.1 result.0 ≡ octet_bits (groups_of_seven number) }
    ensures most { result.1 ≤ 40 }
{
    if number < 128 {
        return (number, 8);
    }
    let groups = leading_number(number / 128) * 256 + number % 128;
    (groups, 8 * group_count(number) as u32)
}
