//! How many octets are missing of what has a fixed number of octets or a length determinant, such as a string or an
//! open type.
ghost use Rattle.std.specs.Prelude.{◌≡◌, None};
ghost use Rattle.asn1_schema_constraints.specs.Terms.{bounds_of};
ghost use Rattle.oer_codec_reading.specs.Fronts.{freedoms};
ghost use Rattle.oer_codec_reading.specs.Integers.{width_under};
ghost use Rattle.oer_codec_decoder.specs.Missing.{StillNoChoice, StillNoEntry, StillTooShort};
ghost use Rattle.oer_codec_decoder.specs.Missing.{bitmap_size, octets_of_bits};

use asn1_schema_constraints::Constraints;
use asn1_schema_tags::TagTables;
use oer_codec_reading::alternatives::{find_alternative, read_alternative_tag};
use oer_codec_reading::length::read_length;
use oer_codec_reading::{Cursor, EncodingRules};

/// One less than the number of octets that are missing at least, after these, of those that the length determinant at
/// the start counts (X.696 8.6); 0 if none are, or if there is no length determinant.
fn missing_behind_number(octets: &[u8], rules: EncodingRules) -> usize
    ensures { StillTooShort (freedoms rules) None octets.now result }
{
    let mut cursor = Cursor::new(octets);
    if cursor.len() < octets.len() {
        return 0;
    }
    match read_length(&mut cursor, rules) {
        Ok(length) => length.saturating_sub(cursor.len()).saturating_sub(1),
        Err(_) => 0,
    }
}

/// One less than the number of octets that are missing at least, after these, of a fixed number of octets, or of those
/// that the length determinant at the start counts; 0 if none are known to be.
#[cold]
pub(crate) fn missing(octets: &[u8], rules: EncodingRules, size: Option<usize>) -> usize
    ensures { StillTooShort (freedoms rules) size octets.now result }
{
    match size {
        Some(count) => count.saturating_sub(octets.len()).saturating_sub(1),
        None => missing_behind_number(octets, rules),
    }
}

/// As `missing`, for an alternative, which is an open type if it is an added one (X.696 20).
fn missing_in_alternative(cursor: &Cursor<'_>, rules: EncodingRules, added: bool) -> usize
    ensures { StillNoEntry (freedoms rules) added cursor.now result }
{
    if !added {
        return 0;
    }
    missing_behind_number(cursor.remaining(), rules)
}

/// One less than the number of octets that are missing at least, after these, of a tag and an added alternative (X.696
/// 20); 0 if none are known to be.
#[cold]
pub(crate) fn missing_in_choice(
    octets: &[u8],
    rules: EncodingRules,
    tables: &TagTables<'_>,
) -> usize
    ensures { StillNoChoice (freedoms rules) tables.now.roots tables.now.extensible tables.now.additions octets.now
        result }
{
    let mut cursor = Cursor::new(octets);
    if cursor.len() < octets.len() {
        return 0;
    }
    let Ok(tag) = read_alternative_tag(&mut cursor, rules, tables) else {
        return 0;
    };
    match find_alternative(tag, tables) {
        Some(chosen) => missing_in_alternative(&cursor, rules, chosen.added),
        None => 0,
    }
}

/// The number of octets of an INTEGER under a value constraint, or `None` if it is not fixed (X.696 10).
#[inline(always)]
pub(crate) fn size_of_number(constraints: &Constraints) -> Option<usize>
    ensures { result ≡ width_under (bounds_of constraints.now.value) }
{
    let Some(constraint) = constraints.value else {
        return None;
    };
    if constraint.extensible.is_some() {
        return None;
    }
    match constraint.constraint.get_range() {
        Some(octets) => Some(usize::from(octets)),
        None => None,
    }
}

/// The number of octets of a BIT STRING with this number of bits, or `None` if that is not fixed (X.696 13).
#[inline(always)]
pub(crate) fn size_of_bits(size: Option<usize>) -> Option<usize>
    ensures { result ≡ octets_of_bits size }
{
    match size {
        Some(count) => Some(count.div_ceil(8)),
        None => None,
    }
}

/// The number of octets of a presence bitmap: 0 if the extension bit is 0; otherwise `None`, as it has a length
/// determinant (X.696 16.4).
#[inline(always)]
pub(crate) fn size_of_bitmap(is_extended: bool) -> Option<usize>
    ensures { result ≡ bitmap_size is_extended }
{
    if is_extended {
        return None;
    }
    Some(0)
}
