//! OCTET STRING, and octets with or without a length determinant (X.696 14 and 27).
ghost use Rattle.std.specs.Prelude.{◌≡◌, MatchResult, OnErr};
ghost use Rattle.asn1_model.specs.Form.{written};
ghost use Rattle.asn1_model.specs.Oer.{octets_form, form};
ghost use Rattle.asn1_model.specs.Schema.{octet_string};
ghost use Rattle.asn1_model.specs.Value.{octet_list};
ghost use Rattle.asn1_model.specs.Versions.{Begins};
ghost use Rattle.asn1_schema_constraints.specs.Bounds.{counts_of};
ghost use Rattle.asn1_schema_constraints.specs.Terms.{sizes_of};
ghost use Rattle.oer_codec_writing.specs.Writing.{Adds, Refuses};

use crate::length::push_counted;
use asn1_schema_constraints::{Bounded, Constraints};
use asn1_schema_errors::EncodeError;

/// Adds octets, after a length determinant unless the size is fixed (X.696 14).
#[inline(always)]
pub(crate) fn push_sized(
    octets: &mut Vec<u8>,
    fixed: bool,
    contents: &[u8],
) -> Result<(), EncodeError>
    ensures text { MatchResult result (λ _. Adds (written (octets_form fixed contents.now) 0) octets.old.items
        octets.new.items) (λ e. e ≡ EncodeError.OutOfMemory) }
    ensures kept { OnErr result (Begins octets.old.items octets.new.items) }
{
    if fixed {
        octets.extend_from_slice(contents)?;
        return Ok(());
    }
    push_counted(octets, contents)?;
    Ok(())
}

/// Adds an OCTET STRING (X.696 14).
///
/// # Errors
///
/// `OutOfMemory`; any other only if the value has no encoding.
#[inline(always)]
pub fn push_octet_string(
    octets: &mut Vec<u8>,
    constraints: &Constraints,
    held: Bounded<usize>,
    value: &[u8],
) -> Result<(), EncodeError>
    ensures text { MatchResult result (λ _. Adds
        (written (form (octet_string (sizes_of constraints.now.size) (counts_of held)) (octet_list value.now)) 0)
        octets.old.items octets.new.items)
        (Refuses (written (form (octet_string (sizes_of constraints.now.size) (counts_of held))
        (octet_list value.now)) 0)) }
    ensures kept { OnErr result (Begins octets.old.items octets.new.items) }
{
    let sizes = constraints.sizes();
    if !sizes.admits(held, value.len()) {
        return Err(EncodeError::SizeConstraintNotSatisfied);
    }
    push_sized(octets, sizes.is_fixed(), value)?;
    Ok(())
}
