//! OBJECT IDENTIFIER (X.691 24).
ghost use Rattle.std.specs.Prelude.{◌≡◌, ◌<◌, ◌^◌, MatchResult};
ghost use Rattle.asn1_model.specs.Numbers.{octet_bits};
ghost use Rattle.asn1_model.specs.Per.{form};
ghost use Rattle.asn1_model.specs.Schema.{object_identifier};
ghost use Rattle.asn1_model.specs.Strings.{groups_of_seven};
ghost use Rattle.asn1_model.specs.Value.{arcs};
ghost use Rattle.asn1_values_identifiers.specs.Groups.{contents};
ghost use Rattle.per_codec_packing.specs.FieldLists.{as_field_list, field_list_at};
ghost use Rattle.per_codec_writing.specs.Writing.{Adds, Refuses, place, plus};
ghost use Rattle.per_codec_rules.specs.Variants.{is_aligned};

use crate::{FRAGMENT, push_counted_octets, push_short_length};
use asn1_schema_errors::EncodeError;
use asn1_values_identifiers::{
    IdentifierError, Oid, content_count, group_number, oid_octets, subidentifiers_of,
};
use per_codec_packing::Packing;
use per_codec_rules::Variant;
use std::alloc::Global;

/// Adds the octets of a subidentifier (X.690 8.19.2). The only error is `OutOfMemory`.
#[inline(always)]
fn push_subidentifier(output: &mut Packing, number: u64) -> Result<(), EncodeError>
    requires { number < 2 ^ 35 }
    ensures { MatchResult result
        (λ _. output.new ≡ plus output.old (as_field_list (octet_bits (groups_of_seven number))))
        (λ e. e ≡ EncodeError.OutOfMemory) }
{
    let (groups, width) = group_number(number);
    output.push_bits(groups as u128, width)?;
    Ok(())
}

/// Adds the contents octets of subidentifiers (X.690 8.19): the first one, and one for each further arc. The only
/// error is `OutOfMemory`.
fn push_contents(output: &mut Packing, first: u64, others: &[u32]) -> Result<(), EncodeError>
    requires { first < 2 ^ 35 }
    ensures { MatchResult result
        (λ _. output.new ≡ plus output.old (as_field_list (octet_bits (contents first others.now))))
        (λ e. e ≡ EncodeError.OutOfMemory) }
{
    push_subidentifier(output, first)?;
    for arc in others {
        push_subidentifier(output, u64::from(*arc))?;
    }
    Ok(())
}

/// Adds an OBJECT IDENTIFIER as `push_identifier` does. The contents octets are first put into a buffer from `alloc`,
/// so that they can be split into fragments (X.691 11.9.3.8).
#[cold]
fn push_long_identifier(
    output: &mut Packing,
    variant: Variant,
    alloc: Global,
    value: &Oid,
) -> Result<(), EncodeError>
    ensures { MatchResult result (λ _. Adds
        (field_list_at (form (is_aligned variant) object_identifier (arcs value.now)) (place output.old)) output.old
        output.new)
        (Refuses (field_list_at (form (is_aligned variant) object_identifier (arcs value.now)) (place output.old))) }
{
    match oid_octets(alloc, value) {
        Ok(contents) => {
            push_counted_octets(output, variant, contents.as_slice())?;
            Ok(())
        }
        Err(IdentifierError::Truncated) => Err(EncodeError::ValueConstraintNotSatisfied),
        Err(_) => Err(EncodeError::OutOfMemory),
    }
}

/// Adds an OBJECT IDENTIFIER (X.691 24): its contents octets after a length determinant. It allocates from `alloc`
/// only for 16384 octets or more.
///
/// # Errors
///
/// `ValueConstraintNotSatisfied` if it has a single arc, and so no contents; `OutOfMemory`.
pub fn push_identifier(
    output: &mut Packing,
    variant: Variant,
    alloc: Global,
    value: &Oid,
) -> Result<(), EncodeError>
    ensures { MatchResult result (λ _. Adds
        (field_list_at (form (is_aligned variant) object_identifier (arcs value.now)) (place output.old)) output.old
        output.new)
        (Refuses (field_list_at (form (is_aligned variant) object_identifier (arcs value.now)) (place output.old))) }
{
    let Some(parts) = subidentifiers_of(value) else {
        return Err(EncodeError::ValueConstraintNotSatisfied);
    };
    let (first, others) = parts;
    let count = content_count(first, others);
    if count >= FRAGMENT {
        return push_long_identifier(output, variant, alloc, value);
    }
    push_short_length(output, variant, count)?;
    push_contents(output, first, others)?;
    Ok(())
}
