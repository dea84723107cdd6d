//! Enumerated values (X.696 11).
ghost use Rattle.std.specs.Prelude.{◌≡◌, ◌⊎◌, MatchResult, IfErr, OnErr};
ghost use Rattle.asn1_model.specs.Form.{written};
ghost use Rattle.asn1_model.specs.Oer.{form};
ghost use Rattle.asn1_model.specs.Schema.{enumerated};
ghost use Rattle.asn1_model.specs.Value.{item as item_value};
ghost use Rattle.asn1_model.specs.Versions.{Begins};
ghost use Rattle.asn1_schema_tags.specs.Items.{IsNone};
ghost use Rattle.oer_codec_writing.specs.Writing.{Adds, Refuses};

use crate::push_item;
use asn1_schema_errors::EncodeError;
use asn1_schema_tags::EnumerationItems;

/// Adds an ENUMERATED by its enumeration value (X.696 11).
///
/// # Errors
///
/// `OutOfMemory`; any other only if there is no such item.
pub fn push_enumerated<I: EnumerationItems>(
    octets: &mut Vec<u8>,
    items: &I,
    item: &I::Item,
) -> Result<(), EncodeError>
    ensures text { MatchResult result (λ _. Adds
        (written (form (enumerated (I.roots items.now) (I.extensible items.now) (I.additions items.now))
        (item_value (I.number item.now))) 0) octets.old.items octets.new.items)
        (Refuses (written (form (enumerated (I.roots items.now) (I.extensible items.now) (I.additions items.now))
        (item_value (I.number item.now))) 0)) }
    ensures only { IfErr result (λ e. (e ≡ EncodeError.OutOfMemory)
        ⊎ IsNone (I.roots items.now) (I.extensible items.now) (I.additions items.now) (I.number item.now)) }
    ensures kept { OnErr result (Begins octets.old.items octets.new.items) }
{
    if items.has(item) {
        push_item(octets, I::number_of(item))?;
        return Ok(());
    }
    Err(EncodeError::ValueConstraintNotSatisfied)
}
