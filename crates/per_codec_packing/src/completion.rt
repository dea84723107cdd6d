//! Complete encodings.
ghost use Rattle.std.specs.Prelude.{◌≡◌, Some, IfOk};
ghost use Rattle.asn1_model.specs.Form.{written};
ghost use Rattle.asn1_model.specs.Numbers.{octet_bits};
ghost use Rattle.asn1_model.specs.Per.{complete};
ghost use Rattle.per_codec_packing.specs.FieldLists.{as_form};
ghost use Rattle.per_codec_packing.specs.Viewed.{field_list_of};

use crate::field_list_view::FieldListView;
use crate::packing::Packing;
use std::alloc::AllocError;

/// The complete encoding of a field-list by itself (X.691 11.1): padded with zero bits to whole octets, and one zero
/// octet if there are no bits. It determines the order of the elements of a SET OF (X.691 22). It is written to `room`,
/// which is cleared first.
///
/// # Errors
///
/// `AllocError` if memory ran out.
pub fn complete_in(field_list: FieldListView<'_>, room: Vec<u8>) -> Result<Vec<u8>, AllocError>
    ensures { IfOk result (λ octets. written (complete (as_form (field_list_of field_list.entry))) 0 ≡ Some
        (octet_bits octets.items)) }
{
    let mut alone = Packing::from_octets(room);
    alone.append_field_list(field_list)?;
    let bits = alone.into_bits();
    if bits.is_empty() {
        let mut octets = bits.into_vec();
        octets.push(0)?;
        return Ok(octets);
    }
    Ok(bits.into_vec())
}
