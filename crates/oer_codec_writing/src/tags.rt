//! Tags (X.696 8.7).
ghost use Rattle.std.specs.Prelude.{◌≡◌, ◌*◌, ◌++◌, Some, option_map, MatchResult, OnErr};
ghost use Rattle.asn1_model.specs.Form.{written};
ghost use Rattle.asn1_model.specs.Oer.{tag_form};
ghost use Rattle.asn1_model.specs.Versions.{Begins};
ghost use Rattle.asn1_schema_tags.specs.Tags.{class_number, tag_of};

use asn1_schema_errors::EncodeError;
use asn1_schema_tags::{Class, Tag};
use asn1_values_identifiers::push_groups;

/// The low six bits of the first octet of a tag in the long form, in place of its number.
const LONG: u8 = 63;

/// The class in bits 8 and 7; the other six bits are zero.
fn class_bits(class: Class) -> u8
    ensures { result ≡ class_number class * 64 }
{
    match class {
        Class::Universal => 0x00,
        Class::Application => 0x40,
        Class::Context => 0x80,
        Class::Private => 0xC0,
    }
}

/// Adds a tag (X.696 8.7): two bits of class, then a number below 63 in six bits, or else six one bits and the number
/// in groups of seven bits.
///
/// # Errors
///
/// Only `OutOfMemory`.
pub fn push_tag(octets: &mut Vec<u8>, tag: Tag) -> Result<(), EncodeError>
    ensures text { MatchResult result
        (λ _. option_map (λ w. octets.old.items ++ w) (written (tag_form (tag_of tag)) 0) ≡ Some octets.new.items)
        (λ e. e ≡ EncodeError.OutOfMemory) }
    ensures kept { OnErr result (Begins octets.old.items octets.new.items) }
{
    if tag.value < u32::from(LONG) {
        octets.push(class_bits(tag.class) + tag.value as u8)?;
        return Ok(());
    }
    octets.push(class_bits(tag.class) + LONG)?;
    push_groups(octets, u64::from(tag.value))?;
    Ok(())
}
