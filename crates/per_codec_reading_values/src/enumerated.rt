//! ENUMERATED (X.691 14).
ghost use Rattle.std.specs.Prelude.{◌≡◌, length, cond, IfOk, IfErr};
ghost use Rattle.asn1_model.specs.Per as Per;
ghost use Rattle.asn1_model.specs.Schema as Asn1;
ghost use Rattle.asn1_model.specs.Value as Asn1Value;
ghost use Rattle.per_codec_laws.specs.Takes.{Front};
ghost use Rattle.per_codec_reading.specs.Fronts as fronts;
ghost use Rattle.per_codec_reading.specs.Fronts.{freedoms, Misses};

use crate::indexes::read_item_index;
use asn1_schema_errors::DecodeError;
use asn1_schema_tags::EnumerationItems;
use per_codec_reading::{Cursor, PackedRules};
use std::alloc::Global;

/// The number of added items.
fn added_count<I: EnumerationItems>(items: &I) -> usize
    ensures { result ≡ cond (I.extensible items.now) (length (I.additions items.now)) 0 }
{
    match items.added_items() {
        Some(added) => added.len(),
        None => 0,
    }
}

/// Reads an ENUMERATED (X.691 14): the enumeration index in the root, or that of an addition, after the extension
/// bit.
///
/// # Errors
///
/// `DiscriminantValueNotFound` if no item has the index, and the errors of a constrained whole number and of a
/// normally small number.
pub fn read_item<I: EnumerationItems>(
    alloc: Global,
    cursor: &mut Cursor<'_>,
    rules: PackedRules,
    items: &I,
) -> Result<I::Item, DecodeError>
    ensures ok { IfOk result (λ x. Front (freedoms rules)
        (Per.form (fronts.is_aligned rules)
        (Asn1.enumerated (I.roots items.now) (I.extensible items.now) (I.additions items.now))
        (Asn1Value.item (I.number x))) cursor.old cursor.new) }
    ensures only { IfErr result (Misses (freedoms rules)
        (Per.form (fronts.is_aligned rules)
        (Asn1.enumerated (I.roots items.now) (I.extensible items.now) (I.additions items.now))) cursor.old) }
{
    let extensible = items.added_items().is_some();
    let roots = items.root_items().len();
    let others = added_count(items);
    let chosen = read_item_index(alloc, cursor, rules, roots, extensible, others)?;
    match items.item_at(chosen) {
        Some(item) => Ok(item),
        None => Err(DecodeError::DiscriminantValueNotFound),
    }
}
