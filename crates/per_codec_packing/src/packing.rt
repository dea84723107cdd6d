//! A field-list that grows at its end.
ghost use Rattle.std.specs.Prelude.{◌≡◌, ◌+◌, ◌-◌, ◌<◌, ◌≤◌, [], ◌∷◌, true, false, length, take, replicate, Some, OnOk};
ghost use Rattle.std.specs.Prelude.{OnErr, IsTrue, ◌↔◌};
ghost use Rattle.asn1_model.specs.Numbers.{binary, octet_bits};
ghost use Rattle.asn1_values_bits.specs.BitStr.{bits_of};
ghost use Rattle.per_codec_packing.specs.FieldLists.{as_field_list, plain, field_list_at, as_form};
ghost use Rattle.per_codec_packing.specs.Packed.{Adds, padding_at, place, plus, solid, with_bit};
ghost use Rattle.per_codec_packing.specs.Viewed.{field_list_of};

use crate::field_list_view::FieldListView;
use asn1_values_bits::{BitBuffer, BitStr, free_bits};
use std::alloc::{AllocError, Global};
use std::marker::Model;

/// A field-list that grows at its end. At a known position it starts where its message or open type starts, and is bits
/// alone. At an unknown position, as in an element of a SET OF, padding to octet boundaries (X.691 11.1) is left open
/// until the field-list is added to another.
#[derive(Drop)]
pub struct Packing {
    // The bits, without open padding.
    bits: BitBuffer,
    // The number of bits before each open padding.
    paddings: Vec<usize>,
    is_placed: bool,
}

impl Model for Packing {
    ghost use Rattle.per_codec_packing.specs.Packed.{Packed};

    ghost Value = { Packed };

    ghost use Rattle.per_codec_packing.specs.Spread.{shown, ArePaddings};

    ghost view = { λ p. shown p.bits p.paddings.items p.is_placed };

    ghost invariant = { λ p. ArePaddings p.bits p.paddings.items p.is_placed };
}

impl Packing {
    /// No bits, at the start of a message or open type. It does not allocate before something is added.
    pub fn new(alloc: Global) -> Self
        ensures { result ≡ record { field_list = []; placed = true } }
    {
        Packing {
            bits: BitBuffer::new(alloc),
            paddings: Vec::new(alloc),
            is_placed: true,
        }
    }

    /// No bits, at an unknown position. It does not allocate before something is added.
    pub fn unplaced(alloc: Global) -> Self
        ensures { result ≡ record { field_list = []; placed = false } }
    {
        Packing {
            bits: BitBuffer::new(alloc),
            paddings: Vec::new(alloc),
            is_placed: false,
        }
    }

    /// No bits, at the start of a message or open type. The buffer of `octets` is cleared and reused.
    #[inline(always)]
    pub fn from_octets(octets: Vec<u8>) -> Self
        ensures { result ≡ record { field_list = []; placed = true } }
    {
        let alloc = *octets.allocator();
        let mut cleared = octets;
        cleared.clear();
        Packing {
            bits: BitBuffer::from_vec(cleared),
            paddings: Vec::new(alloc),
            is_placed: true,
        }
    }

    /// The number of bits, without open padding.
    #[inline]
    pub fn len(&self) -> usize
        ensures bits { result ≡ length (solid self.now.field_list) }
        ensures placed { self.now.placed ≡ true → result ≡ length self.now.field_list }
    {
        self.bits.len()
    }

    /// The number of open paddings.
    #[inline]
    pub fn padding_count(&self) -> usize
        ensures { length (solid self.now.field_list) + result ≡ length self.now.field_list }
    {
        self.paddings.len()
    }

    /// Keeps only the first `bits` bits and `paddings` open paddings. It does not allocate.
    pub fn truncate(&mut self, bits: usize, paddings: usize)
        requires within { bits + paddings ≤ length self.old.field_list }
        requires place { length (solid (take (bits + paddings) self.old.field_list)) ≡ bits }
        ensures { self.new ≡ record {
          field_list = take (bits + paddings) self.old.field_list;
          placed =
              self.old.placed;
        } }
    {
        self.bits.truncate(bits);
        self.paddings.truncate(paddings);
    }

    /// Whether there is neither a bit nor padding.
    pub fn is_empty(&self) -> bool
        ensures { IsTrue result ↔ (self.now.field_list ≡ []) }
    {
        self.bits.is_empty() && self.paddings.is_empty()
    }

    /// Adds one bit.
    ///
    /// # Errors
    ///
    /// `AllocError` if memory ran out. Nothing changes then.
    #[inline(always)]
    pub fn push(&mut self, bit: bool) -> Result<(), AllocError>
        ensures ok { OnOk result (self.new ≡ plus self.old (as_field_list (bit ∷ []))) }
        ensures err { OnErr result (self.new ≡ self.old) }
    {
        self.bits.push(bit)?;
        Ok(())
    }

    /// Adds the low `width` bits of a number, most significant first.
    ///
    /// # Errors
    ///
    /// `AllocError` if memory ran out. Nothing changes then.
    #[inline(always)]
    pub fn push_bits(&mut self, value: u128, width: u32) -> Result<(), AllocError>
        requires { width ≤ 128 }
        ensures ok { OnOk result (self.new ≡ plus self.old (as_field_list (binary width value))) }
        ensures err { OnErr result (self.new ≡ self.old) }
    {
        self.bits.push_bits(value, width)?;
        Ok(())
    }

    /// Adds the bits of all the octets.
    ///
    /// # Errors
    ///
    /// `AllocError` if memory ran out. Nothing changes then.
    #[inline(always)]
    pub fn extend_from_bytes(&mut self, bytes: &[u8]) -> Result<(), AllocError>
        ensures ok { OnOk result (self.new ≡ plus self.old (as_field_list (octet_bits bytes.now))) }
        ensures err { OnErr result (self.new ≡ self.old) }
    {
        if bytes.len() == 1 {
            self.bits.push_bits(bytes[0] as u128, 8)?;
            return Ok(());
        }
        self.bits.extend_from_bytes(bytes)?;
        Ok(())
    }

    /// Adds the bits of a view.
    ///
    /// # Errors
    ///
    /// `AllocError` if memory ran out. Nothing changes then.
    pub fn extend_from_bitslice(&mut self, bits: BitStr<'_>) -> Result<(), AllocError>
        ensures ok { OnOk result (self.new ≡ plus self.old (as_field_list (bits_of bits.entry))) }
        ensures err { OnErr result (self.new ≡ self.old) }
    {
        self.bits.extend_from_bitslice(bits)?;
        Ok(())
    }

    /// Adds copies of a bit up to a length of `len` bits, without open padding.
    ///
    /// # Errors
    ///
    /// `AllocError` if memory ran out. Nothing changes then.
    pub fn resize(&mut self, len: usize, bit: bool) -> Result<(), AllocError>
        requires { length (solid self.old.field_list) ≤ len }
        ensures ok { OnOk result (self.new ≡ plus self.old
            (as_field_list (replicate (len - length (solid self.old.field_list)) bit))) }
        ensures err { OnErr result (self.new ≡ self.old) }
    {
        self.bits.resize(len, bit)?;
        Ok(())
    }

    /// Changes a bit; the index does not count open padding.
    #[inline]
    pub fn set(&mut self, index: usize, bit: bool)
        requires { index < length (solid self.old.field_list) }
        ensures { self.new ≡ record { field_list = with_bit index bit self.old.field_list; placed = self.old.placed } }
    {
        self.bits.set(index, bit);
    }

    /// Adds padding to the next octet boundary (X.691 11.1): at most seven zero bits at a known position, else the
    /// padding is left open.
    ///
    /// # Errors
    ///
    /// `AllocError` if memory ran out. Nothing changes then.
    #[inline(always)]
    pub fn push_padding(&mut self) -> Result<(), AllocError>
        ensures ok { OnOk result (self.new ≡ plus self.old (padding_at (place self.old))) }
        ensures err { OnErr result (self.new ≡ self.old) }
    {
        if self.is_placed && self.bits.len() % 8 == 0 {
            return Ok(());
        }
        self.push_due_padding()
    }

    // Adds padding to the next octet boundary, as `push_padding` does.
    fn push_due_padding(&mut self) -> Result<(), AllocError>
        ensures ok { OnOk result (self.new ≡ plus self.old (padding_at (place self.old))) }
        ensures err { OnErr result (self.new ≡ self.old) }
    {
        let len = self.bits.len();
        if self.is_placed {
            self.bits.push_bits(0, free_bits(len))?;
            return Ok(());
        }
        self.paddings.push(len)?;
        Ok(())
    }

    /// Adds a field-list. At a known position its open padding is filled to octet boundaries.
    ///
    /// # Errors
    ///
    /// `AllocError` if memory ran out. A part of the field-list may then have been added.
    #[inline(always)]
    pub fn append_field_list(&mut self, field_list: FieldListView<'_>) -> Result<(), AllocError>
        ensures { OnOk result (Adds (field_list_at (as_form (field_list_of field_list.entry)) (place self.old))
            self.old self.new) }
    {
        if field_list.paddings.is_empty() {
            self.extend_from_bitslice(field_list.bits)?;
            return Ok(());
        }
        self.append_pieces(field_list)
    }

    // Adds a field-list piece by piece: the bits up to each padding, then the padding.
    fn append_pieces(&mut self, field_list: FieldListView<'_>) -> Result<(), AllocError>
        ensures { OnOk result (Adds (field_list_at (as_form (field_list_of field_list.entry)) (place self.old))
            self.old self.new) }
    {
        let mut from = 0;
        for padding in field_list.paddings {
            self.extend_from_bitslice(field_list.bits.split_at(*padding).0.split_at(from).1)?;
            self.push_padding()?;
            from = *padding;
        }
        self.extend_from_bitslice(field_list.bits.split_at(from).1)?;
        Ok(())
    }

    /// A view of the field-list.
    pub fn as_field_list(&self) -> FieldListView<'_>
        ensures { field_list_of result ≡ self.now.field_list }
    {
        FieldListView {
            bits: self.bits.as_bitslice(),
            paddings: self.paddings.as_slice(),
        }
    }

    /// The bits, without open padding: everything, at a known position.
    pub fn as_bits(&self) -> &BitBuffer
        ensures bits { result.now ≡ solid self.now.field_list }
        ensures placed { self.now.placed ≡ true → plain self.now.field_list ≡ Some result.now }
    {
        &self.bits
    }

    /// The bits, as `as_bits` returns them.
    #[inline(always)]
    pub fn into_bits(self) -> BitBuffer
        ensures bits { result ≡ solid self.field_list }
        ensures placed { self.placed ≡ true → plain self.field_list ≡ Some result }
    {
        let Packing {
            bits,
            paddings: _,
            is_placed: _,
        } = self;
        bits
    }
}
