//! Tags (X.696 8.7).
ghost use Rattle.std.specs.Prelude.{◌≡◌, ◌^◌, true, Some, None, map, IfOk, IfErr};
ghost use Rattle.asn1_model.specs.Oer.{tag_form};
ghost use Rattle.std.specs.List.{list_all};
ghost use Rattle.asn1_schema_tags.specs.Tags.{tag_of};
ghost use Rattle.oer_codec_reading.specs.Fronts.{freedoms, Misses, Stands};
ghost use Rattle.oer_codec_reading.specs.Tags.{is_in_32_bits, number_behind, tag_in};

use crate::{Cursor, EncodingRules};
use asn1_schema_errors::DecodeError;
use asn1_schema_tags::{Class, Tag};

/// A number below this fits in 32 bits with seven more bits.
const LIMIT: u32 = 1 << 25;

/// Reads further groups of seven bits of a tag's number, after those in `begun` (X.696 8.7.2.3).
#[inline(never)]
fn read_groups(cursor: &mut Cursor<'_>, begun: u32) -> Result<u32, DecodeError>
    ensures ok { IfOk result (λ n. number_behind begun cursor.old ≡ Some (n, cursor.new)) }
    ensures only { IfErr result (λ _. number_behind begun cursor.old ≡ None) }
    ensures fresh { IfErr result (λ e. e ≡ DecodeError.AlreadyFailed → ⊥) }
{
    let octet = cursor.take_octet()?;
    let group = u32::from(octet % 128);
    if begun == 0 && group == 0 || begun >= LIMIT {
        return Err(DecodeError::InvalidTagNumberOnChoice);
    }
    let number = begun * 128 + group;
    if octet < 128 {
        return Ok(number);
    }
    read_groups(cursor, number)
}

/// Reads a tag (X.696 8.7): two bits of class, then a number below 63 in six bits, or else six one bits and the
/// number in groups of seven bits.
///
/// # Errors
///
/// `Incomplete` if the octets end early, `InvalidTagNumberOnChoice` if the number has a leading zero group or does
/// not fit in 32 bits, and `NotValidCanonicalEncoding` if a number below 63 has the long form, in COER.
#[inline(always)]
pub fn read_tag(cursor: &mut Cursor<'_>, rules: EncodingRules) -> Result<Tag, DecodeError>
    ensures ok { IfOk result (λ t. Stands (freedoms rules) (tag_form (tag_of t)) cursor.old cursor.new) }
    ensures only { IfErr result (Misses (freedoms rules) tag_in cursor.old) }
{
    let first = cursor.take_octet()?;
    let class = Class::from_u8(first / 64);
    let low = first % 64;
    if low < 63 {
        return Ok(Tag {
            class,
            value: u32::from(low),
        });
    }
    let value = read_groups(cursor, 0)?;
    if value < 63 && rules.is_coer() {
        return Err(DecodeError::NotValidCanonicalEncoding);
    }
    Ok(Tag { class, value })
}

/// The number of a tag.
fn number_of(tag: &Tag) -> u32
    ensures { result ≡ tag.now.value }
{
    tag.value
}

// For the proof: the number of each tag in a table fits in 32 bits, so a tag with a larger number is not in the table.
pub(crate) fn visit_numbers(table: &[Tag])
    ensures { list_all is_in_32_bits (map tag_of table.now) ≡ true }
{
    for entry in table {
        let _number = number_of(entry);
    }
}
