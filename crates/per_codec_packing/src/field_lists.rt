//! Field-lists in shared buffers.
ghost use Rattle.std.specs.Prelude.{◌≡◌, ◌<◌, ◌++◌, [], ◌∷◌, length, get_or, OnOk, OnErr};
ghost use Rattle.per_codec_packing.specs.Viewed.{field_list_of};

use crate::field_list_view::FieldListView;
use crate::packing::Packing;
use asn1_values_bits::BitBuffer;
use std::alloc::{AllocError, Global};
use std::marker::Model;

// Start and end of a part of a buffer.
#[derive(Clone, Copy)]
struct Span {
    from: usize,
    to: usize,
}

// The position of a field-list in the buffers.
#[derive(Clone, Copy)]
struct Part {
    bits: Span,
    paddings: Span,
}

/// Field-lists at unknown positions, such as those of the elements of a SET OF, in sequence in shared buffers.
#[derive(Drop)]
pub struct FieldLists {
    // The bits of all field-lists, without open padding.
    bits: BitBuffer,
    // For each open padding, the number of bits of its field-list before it.
    paddings: Vec<usize>,
    parts: Vec<Part>,
}

impl Model for FieldLists {
    ghost use Rattle.std.specs.Prelude.{List};
    ghost use Rattle.per_codec_packing.specs.FieldLists.{FieldList};

    ghost Value = { List FieldList };

    ghost use Rattle.per_codec_packing.specs.Parts.{field_lists_in, AreParts};

    ghost view = { λ t. field_lists_in t.bits t.paddings.items t.parts.items };

    ghost invariant = { λ t. AreParts t.bits t.paddings.items t.parts.items };
}

// Adds the padding positions of a field-list to those of earlier field-lists; mostly there are none.
#[inline(always)]
fn push_paddings(all: &mut Vec<usize>, paddings: &[usize]) -> Result<(), AllocError>
    ensures ok { OnOk result (all.new.items ≡ all.old.items ++ paddings.now) }
    ensures err { OnErr result (all.new.items ≡ all.old.items) }
{
    if paddings.is_empty() {
        return Ok(());
    }
    all.extend_from_slice(paddings)?;
    Ok(())
}

impl FieldLists {
    /// No field-lists. It does not allocate before the first field-list.
    pub fn new(alloc: Global) -> Self
        ensures { result ≡ [] }
    {
        FieldLists {
            bits: BitBuffer::new(alloc),
            paddings: Vec::new(alloc),
            parts: Vec::new(alloc),
        }
    }

    /// The number of field-lists.
    pub fn len(&self) -> usize
        ensures { result ≡ length self.now }
    {
        self.parts.len()
    }

    /// Adds a field-list after the others.
    ///
    /// # Errors
    ///
    /// `AllocError` if memory ran out. Nothing changes then.
    pub fn push(&mut self, field_list: &Packing) -> Result<(), AllocError>
        ensures ok { OnOk result (self.new ≡ self.old ++ (field_list.now.field_list ∷ [])) }
        ensures err { OnErr result (self.new ≡ self.old) }
    {
        let added = field_list.as_field_list();
        let first_bit = self.bits.len();
        let first_padding = self.paddings.len();
        self.bits.extend_from_bitslice(added.bits)?;
        push_paddings(&mut self.paddings, added.paddings)?;
        let part = Part {
            bits: Span {
                from: first_bit,
                to: self.bits.len(),
            },
            paddings: Span {
                from: first_padding,
                to: self.paddings.len(),
            },
        };
        self.parts.push(part)?;
        Ok(())
    }

    /// The field-list at an index.
    pub fn get(&self, index: usize) -> FieldListView<'_>
        requires { index < length self.now }
        ensures { field_list_of result ≡ get_or self.now index [] }
    {
        let part = self.parts[index];
        let front = self.bits.as_bitslice().split_at(part.bits.to).0;
        let paddings = &self.paddings[part.paddings.from..part.paddings.to];
        FieldListView {
            bits: front.split_at(part.bits.from).1,
            paddings,
        }
    }
}
