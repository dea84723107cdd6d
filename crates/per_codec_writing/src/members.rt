//! The elements of a bag in ascending order of their complete encodings.
ghost use Rattle.std.specs.Prelude.{◌≡◌, true, Some, MatchResult, IfOk, OnOk};
ghost use Rattle.asn1_model.specs.Form.{ascending, joined, stands_before, written};
ghost use Rattle.asn1_model.specs.Per.{bit_less, complete};
ghost use Rattle.asn1_model.specs.Strings.{is_octet};
ghost use Rattle.std.specs.List.{list_all};
ghost use Rattle.per_codec_packing.specs.FieldLists.{field_list_at};
ghost use Rattle.per_codec_writing.specs.Writing.{Adds, place};
ghost use Rattle.per_codec_packing.specs.Viewed.{field_list_of};
ghost use Rattle.per_codec_writing.specs.Keys.{AddsKey, AreKeyed};
ghost use Rattle.per_codec_writing.specs.Members.{forms, view_forms};

use asn1_schema_errors::EncodeError;
use asn1_schema_order::Encodings;
use per_codec_packing::{FieldListView, FieldLists, Packing, complete_in};
use std::alloc::{AllocError, Global};

// For the proof: octets are below 256, so their order is that of their bits.
fn are_octets(octets: &[u8])
    ensures { list_all is_octet octets.now ≡ true }
{}

/// Adds the complete encoding of an element (X.691 11.1) to those of others. If the element does not contain it as
/// octets, it is written to `room`, which is cleared first. Returns the buffer for reuse.
#[inline(always)]
fn push_encoding(
    encodings: &mut Encodings,
    member: FieldListView<'_>,
    room: Vec<u8>,
) -> Result<Vec<u8>, AllocError>
    ensures { OnOk result (AddsKey (field_list_of member.entry) encodings.old encodings.new) }
{
    if let Some(octets) = member.complete_octets() {
        are_octets(octets);
        encodings.push(octets)?;
        return Ok(room);
    }
    let octets = complete_in(member, room)?;
    are_octets(octets.as_slice());
    encodings.push(octets.as_slice())?;
    Ok(octets)
}

/// The complete encodings of the elements (X.691 11.1), which determine their order.
fn encodings_of(alloc: Global, members: &FieldLists) -> Result<Encodings, AllocError>
    ensures { IfOk result (λ encodings. AreKeyed members.now encodings) }
{
    let mut encodings = Encodings::new(alloc);
    let mut room = Vec::new(alloc);
    for index in 0..members.len() {
        room = push_encoding(&mut encodings, members.get(index), room)?;
    }
    Ok(encodings)
}

/// The elements in ascending order of their complete encodings (X.691 22). Those with the same encoding keep their
/// order.
pub(crate) fn in_order(
    alloc: Global,
    members: &FieldLists,
) -> Result<Vec<FieldListView<'_>>, AllocError>
    ensures { IfOk result (λ ordered. ascending (λ x. written (complete x) 0) (stands_before bit_less)
        (forms members.now) ≡ Some (view_forms ordered.items)) }
{
    let encodings = encodings_of(alloc, members)?;
    let entries = encodings.in_order(alloc)?;
    let mut ordered = Vec::with_capacity(alloc, entries.len())?;
    for entry in &entries {
        ordered.push(members.get(entry.index))?;
    }
    Ok(ordered)
}

/// Adds elements in sequence. The only error is `OutOfMemory`.
pub(crate) fn push_each(
    output: &mut Packing,
    members: &[FieldListView<'_>],
) -> Result<(), EncodeError>
    ensures { MatchResult result (λ _. Adds
        (field_list_at (joined (view_forms members.now)) (place output.old)) output.old output.new)
        (λ e. e ≡ EncodeError.OutOfMemory) }
{
    for member in members {
        output.append_field_list(*member)?;
    }
    Ok(())
}
