//! Runs of units after a length determinant (X.691 11.9).
ghost use Rattle.std.specs.Prelude.{◌≡◌, ◌≤◌, List, length, slice_range, MatchResult};
ghost use Rattle.asn1_model.specs.Form.{joined};
ghost use Rattle.asn1_model.specs.Per.{BitForm, bit_units, octet_units};
ghost use Rattle.asn1_values_bits.specs.BitStr.{bits_of};
ghost use Rattle.per_codec_packing.specs.FieldLists.{field_list_at};
ghost use Rattle.per_codec_writing.specs.Members.{view_forms};
ghost use Rattle.per_codec_writing.specs.Writing.{Adds, place};

use crate::members::push_each;
use asn1_schema_errors::EncodeError;
use asn1_values_bits::BitStr;
use per_codec_packing::{FieldListView, Packing};

/// Units that can be written in pieces: 16384 units or more are split into fragments (X.691 11.9.3.8).
pub trait Units {
    /// The form of each unit.
    ghost forms: { Self → List BitForm };

    /// The number of units.
    fn count(&self) -> usize
        ensures { result ≡ length (forms self.now) };

    /// Adds the units from index `from` up to `to`, counted from 0. The only error is `OutOfMemory`.
    fn push_range(&self, output: &mut Packing, from: usize, to: usize) -> Result<(), EncodeError>
        requires order { from ≤ to }
        requires within { to ≤ length (forms self.now) }
        ensures { MatchResult result (λ _. Adds
            (field_list_at (joined (slice_range (forms self.now) from to)) (place output.old)) output.old output.new)
            (λ e. e ≡ EncodeError.OutOfMemory) };
}

/// Octets, of eight bits each.
impl Units for &[u8] {
    ghost forms = { λ octets. octet_units octets.now };

    fn count(&self) -> usize {
        (*self).len()
    }

    #[inline(always)]
    fn push_range(&self, output: &mut Packing, from: usize, to: usize) -> Result<(), EncodeError> {
        output.extend_from_bytes(&self[from..to])?;
        Ok(())
    }
}

/// Single bits.
impl Units for BitStr<'_> {
    ghost forms = { λ bits. bit_units (bits_of bits) };

    fn count(&self) -> usize {
        self.len()
    }

    #[inline(always)]
    fn push_range(&self, output: &mut Packing, from: usize, to: usize) -> Result<(), EncodeError> {
        let front = self.split_at(to).0;
        output.extend_from_bitslice(front.split_at(from).1)?;
        Ok(())
    }
}

/// Elements of a bag, already in order.
impl Units for &[FieldListView<'_>] {
    ghost forms = { λ members. view_forms members.now };

    fn count(&self) -> usize {
        self.len()
    }

    #[inline(always)]
    fn push_range(&self, output: &mut Packing, from: usize, to: usize) -> Result<(), EncodeError> {
        push_each(output, &self[from..to])?;
        Ok(())
    }
}
