//! A view of a field-list.
ghost use Rattle.std.specs.Prelude.{◌≡◌, length, IsTrue, Some, IfSome};
ghost use Rattle.asn1_model.specs.Form.{written};
ghost use Rattle.asn1_model.specs.Numbers.{octet_bits};
ghost use Rattle.asn1_model.specs.Per.{complete};
ghost use Rattle.asn1_values_bits.specs.BitStr.{bits_of};
ghost use Rattle.per_codec_packing.specs.Spread.{AscendIn, ascend_prop};
ghost use Rattle.per_codec_packing.specs.FieldLists.{as_form};
ghost use Rattle.per_codec_packing.specs.WholeOctets.{AreWhole};

use asn1_values_bits::BitStr;

/// A view of a field-list. Its padding to octet boundaries (X.691 11.1) may be open.
#[derive(Clone, Copy)]
pub struct FieldListView<'a> {
    // The bits, without padding.
    pub(crate) bits: BitStr<'a>,
    // The number of bits before each padding.
    pub(crate) paddings: &'a [usize],
    ghost ascend: { AscendIn (bits_of bits) paddings.now } by { ascend_prop 0 paddings.now (length (bits_of bits)) },
}

/// Whether whole octets precede each padding.
fn are_whole(paddings: &[usize]) -> bool
    ensures { IsTrue result → AreWhole paddings.now }
{
    for padding in paddings {
        if *padding % 8 > 0 {
            return false;
        }
    }
    true
}

impl<'a> FieldListView<'a> {
    ghost use Rattle.per_codec_packing.specs.Viewed.{field_list_of};

    /// The complete encoding of a field-list by itself (X.691 11.1), borrowed from the field-list, if that has whole
    /// octets, at least one, and none of its padding adds a bit.
    #[inline]
    pub fn complete_octets(&self) -> Option<&'a [u8]>
        ensures { IfSome result (λ octets. written (complete (as_form (field_list_of self.now))) 0 ≡ Some
            (octet_bits octets.now)) }
    {
        if self.bits.is_empty() || !are_whole(self.paddings) {
            return None;
        }
        self.bits.aligned_octets()
    }
}
