//! A range of bits with a read position.
ghost use Rattle.std.specs.Prelude.{◌≡◌, ◌≤◌, ◌<◌, ◌+◌, ◌-◌, ◌^◌, ◌∷◌, [], length, take, drop, Some, None, IsTrue, ◌↔◌};
ghost use Rattle.std.specs.Prelude.{OnOk, OnErr, IfOk, IfErr, IfSome, IfNone};
ghost use Rattle.asn1_model.specs.Numbers.{octet_bits};
ghost use Rattle.asn1_model.specs.Per as Per;
ghost use Rattle.asn1_model.specs.Schema as Asn1;
ghost use Rattle.asn1_model.specs.Value as Asn1Value;
ghost use Rattle.asn1_schema_constraints.specs.Bounds.{counts_of};
ghost use Rattle.asn1_schema_constraints.specs.Terms.{size_of};
ghost use Rattle.asn1_values_bits.specs.BitStr as bit_strs;
ghost use Rattle.per_codec_laws.specs.Takes.{Position, Front};
ghost use Rattle.per_codec_reading.specs.Fronts as fronts;
ghost use Rattle.per_codec_reading.specs.Fronts.{freedoms, Leads, Misses};
ghost use Rattle.per_codec_reading.specs.Runs.{bits_in, EndsAtOctet, InOneRun, storage_inside, storage_of};
ghost use Rattle.per_codec_reading.specs.Headings.{told_in_front};
ghost use Rattle.per_codec_reading.specs.Octets.{octets_of, AreLent};
ghost use Rattle.per_codec_reading_values.specs.Fields.{EndsAt, field_form, octets_form};

use crate::fields::{Field, read_field};
use crate::octet_string::take_octet_string;
use crate::open_type::read_open_type;
use asn1_schema_constraints::{Bounded, Sizes};
use asn1_schema_errors::{DecodeError, MOST_OCTETS};
use asn1_values_bits::{BitBuffer, BitStr};
use per_codec_reading::lending::lent_by;
use per_codec_reading::{Cursor, InputOctets, PackedRules, RunBits};
use std::alloc::{AllocError, Global};
use std::marker::Model;

/// The bits of a message or open type, presence bits or a bitmap, borrowed or owned, and the number of them that have
/// been read.
#[derive(Drop)]
pub struct Stretch<'input> {
    bits: RunBits<'input>,
    count: usize,
    position: usize,
}

impl<'input> Model for Stretch<'input> {
    ghost use Rattle.std.specs.Prelude.{◌≡◌, ◌≤◌, length, drop};
    ghost use Rattle.per_codec_reading.specs.Runs.{bits_in, storage_of};
    ghost use Rattle.per_codec_reading_values.specs.Stretches.{Stretched};

    ghost Value = { Stretched };

    ghost view = { λ stretch. record {
      place = (stretch.position, drop stretch.position (bits_in stretch.bits));
      storage = storage_of stretch.bits;
    } };

    ghost invariant = { λ stretch. (stretch.position ≤ stretch.count)
        × (stretch.count ≡ length (bits_in stretch.bits)) };
}

/// The bits, borrowed from their owner.
#[inline(always)]
fn lent<'a>(bits: &'a RunBits<'_>) -> BitStr<'a>
    ensures { bit_strs.bits_of result ≡ bits_in bits.now }
{
    match bits {
        RunBits::Lent(bits) => *bits,
        RunBits::Joined(bits) => bits.as_bitslice(),
    }
}

/// The bits, owned.
fn held(alloc: Global, bits: RunBits<'_>) -> Result<BitBuffer, AllocError>
    ensures { IfOk result (λ buffer. buffer ≡ bits_in bits.entry) }
{
    match bits {
        RunBits::Lent(bits) => {
            let mut buffer = BitBuffer::new(alloc);
            buffer.extend_from_bitslice(bits)?;
            Ok(buffer)
        }
        RunBits::Joined(buffer) => Ok(buffer),
    }
}

/// Takes a field at a position of the bits. Returns it with the position after it. It is borrowed if the bits are,
/// and owned if they are owned.
#[inline(always)]
fn take_field<'input>(
    alloc: Global,
    bits: &RunBits<'input>,
    position: usize,
    rules: PackedRules,
    field: Field,
) -> Result<(RunBits<'input>, usize), DecodeError>
    requires { position ≤ length (bits_in bits.now) }
    ensures ok { IfOk result (λ taken. EndsAt (freedoms rules)
        (field_form (fronts.is_aligned rules) field (bits_in taken.0))
        (position, drop position (bits_in bits.now)) taken.1) }
    ensures only { IfErr result (Misses (freedoms rules) (field_form (fronts.is_aligned rules) field)
        (position, drop position (bits_in bits.now))) }
{
    match bits {
        RunBits::Lent(bits) => {
            let mut cursor = Cursor::at(*bits, position);
            let taken = read_field(alloc, &mut cursor, rules, field)?;
            Ok((taken, cursor.position()))
        }
        RunBits::Joined(bits) => {
            let mut cursor = Cursor::behind(bits.as_bitslice(), position);
            let taken = read_field(alloc, &mut cursor, rules, field)?;
            let buffer = held(alloc, taken)?;
            Ok((RunBits::Joined(buffer), cursor.position()))
        }
    }
}

/// Takes octets after a length determinant, at a position of borrowed bits. Returns them with the position after
/// them. In one run they are borrowed from the same octets.
#[inline(always)]
fn take_lent_octets<'input>(
    alloc: Global,
    bits: BitStr<'input>,
    position: usize,
    rules: PackedRules,
) -> Result<(RunBits<'input>, usize), DecodeError>
    requires { position ≤ length (bit_strs.bits_of bits) }
    ensures ok { IfOk result (λ taken. EndsAt (freedoms rules)
        (octets_form (fronts.is_aligned rules) (bits_in taken.0))
        (position, drop position (bit_strs.bits_of bits.entry)) taken.1) }
    ensures storage { IfOk result (λ taken. storage_of taken.0 ≡ storage_inside (Some (bit_strs.offset_of bits.entry))
        (length (bits_in taken.0)) taken.1) }
    ensures only { IfErr result (Misses (freedoms rules) (octets_form (fronts.is_aligned rules))
        (position, drop position (bit_strs.bits_of bits.entry))) }
{
    let mut cursor = Cursor::at(bits, position);
    let octets = read_open_type(alloc, &mut cursor, rules)?;
    let end = cursor.position();
    Ok((lent_by(bits, end, octets), end))
}

/// Takes octets after a length determinant, at a position of owned bits. Returns them, owned, with the position after
/// them.
fn take_held_octets(
    alloc: Global,
    bits: &BitBuffer,
    position: usize,
    rules: PackedRules,
) -> Result<(BitBuffer, usize), DecodeError>
    requires { position ≤ length bits.now }
    ensures ok { IfOk result (λ taken. EndsAt (freedoms rules) (octets_form (fronts.is_aligned rules) taken.0)
        (position, drop position bits.now) taken.1) }
    ensures only { IfErr result (Misses (freedoms rules) (octets_form (fronts.is_aligned rules))
        (position, drop position bits.now)) }
{
    let mut cursor = Cursor::behind(bits.as_bitslice(), position);
    let octets = read_open_type(alloc, &mut cursor, rules)?;
    let buffer = held(alloc, octets)?;
    Ok((buffer, cursor.position()))
}

/// Takes octets after a length determinant, at a position of the bits. Returns them with the position after them.
#[inline(always)]
fn take_octets<'input>(
    alloc: Global,
    bits: &RunBits<'input>,
    position: usize,
    rules: PackedRules,
) -> Result<(RunBits<'input>, usize), DecodeError>
    requires { position ≤ length (bits_in bits.now) }
    ensures ok { IfOk result (λ taken. EndsAt (freedoms rules)
        (octets_form (fronts.is_aligned rules) (bits_in taken.0))
        (position, drop position (bits_in bits.now)) taken.1) }
    ensures storage { IfOk result (λ taken. storage_of taken.0 ≡ storage_inside (storage_of bits.now)
        (length (bits_in taken.0)) taken.1) }
    ensures only { IfErr result (Misses (freedoms rules) (octets_form (fronts.is_aligned rules))
        (position, drop position (bits_in bits.now))) }
{
    match bits {
        RunBits::Lent(bits) => take_lent_octets(alloc, *bits, position, rules),
        RunBits::Joined(bits) => {
            let (buffer, end) = take_held_octets(alloc, bits, position, rules)?;
            Ok((RunBits::Joined(buffer), end))
        }
    }
}

impl<'input> Stretch<'input> {
    /// At the start of these bits.
    #[inline(always)]
    pub fn new(bits: RunBits<'input>) -> Self
        ensures { result ≡ record { place = (0, bits_in bits.entry); storage = storage_of bits.entry } }
    {
        let count = lent(&bits).len();
        Stretch {
            bits,
            count,
            position: 0,
        }
    }

    /// At the start of these octets. An encoding has fewer than 2^60 octets, so only the first 2^60 - 1 are read.
    #[inline(always)]
    pub fn from_octets(input: &'input [u8]) -> Self
        ensures place { result.place ≡ (0, octet_bits (take (2 ^ 60 - 1) input.entry.now)) }
        ensures storage { result.storage ≡ Some 0 }
    {
        let count = input.len().min(MOST_OCTETS);
        Stretch::new(RunBits::Lent(BitStr::from_slice(&input[..count])))
    }

    /// Whether the bits are borrowed from the input.
    #[inline(always)]
    pub fn is_lent(&self) -> bool {
        matches!(&self.bits, RunBits::Lent(_))
    }

    /// A cursor at the current position.
    #[inline(always)]
    pub fn cursor(&self) -> Cursor<'_>
        ensures { result ≡ self.now.place }
    {
        Cursor::at(lent(&self.bits), self.position)
    }

    /// The unread bits.
    #[inline(always)]
    pub fn bits(&self) -> BitStr<'_>
        ensures { bit_strs.bits_of result ≡ self.now.place.1 }
    {
        let (_read, unread) = lent(&self.bits).split_at(self.position);
        unread
    }

    /// Moves to a later position, which a reader reached from the current one. A position before the current one or
    /// after the last bit changes nothing.
    #[inline(always)]
    pub fn move_to(&mut self, position: usize)
        ensures place { (w : _) (b : Position) → b.0 ≡ position → Leads w self.old.place b → self.new.place ≡ b }
        ensures before { position < self.old.place.0 → self.new.place ≡ self.old.place }
        ensures past { self.old.place.0 + length self.old.place.1 < position → self.new.place ≡ self.old.place }
        ensures storage { self.new.storage ≡ self.old.storage }
    {
        let reached = self.position;
        let count = self.count;
        if position < reached {
            return;
        }
        if position > count {
            return;
        }
        self.position = position;
    }

    /// Takes the next bit, if there is one.
    #[inline(always)]
    pub fn next_bit(&mut self) -> Option<bool>
        ensures some { IfSome result (λ bit. self.old.place.1 ≡ bit ∷ self.new.place.1) }
        ensures position { IfSome result (λ _. self.old.place.0 + 1 ≡ self.new.place.0) }
        ensures none { IfNone result (self.old.place.1 ≡ []) }
        ensures stays { IfNone result (self.new ≡ self.old) }
        ensures storage { self.new.storage ≡ self.old.storage }
    {
        let bits = lent(&self.bits);
        if self.position >= bits.len() {
            return None;
        }
        let Some(bit) = bits.get(self.position) else {
            return None;
        };
        self.position += 1;
        Some(bit)
    }

    /// Whether all bits have been read.
    #[inline(always)]
    pub fn is_empty(&self) -> bool
        ensures { IsTrue result ↔ (self.now.place.1 ≡ []) }
    {
        self.bits().is_empty()
    }

    /// Takes a field of bits.
    ///
    /// # Errors
    ///
    /// `Incomplete` if the bits end early, `NotValidCanonicalEncoding` if another form is canonical, in strict rules,
    /// the errors of a length determinant, and `OutOfMemory`.
    #[inline(always)]
    pub fn take_field(
        &mut self,
        alloc: Global,
        rules: PackedRules,
        field: Field,
    ) -> Result<Stretch<'input>, DecodeError>
        ensures start { IfOk result (λ taken. taken.place.0 ≡ 0) }
        ensures ok { IfOk result (λ taken. Front (freedoms rules)
            (field_form (fronts.is_aligned rules) field taken.place.1) self.old.place self.new.place) }
        ensures storage { OnOk result (self.new.storage ≡ self.old.storage) }
        ensures only { IfErr result (Misses (freedoms rules)
            (field_form (fronts.is_aligned rules) field) self.old.place) }
    {
        let (bits, position) = take_field(alloc, &self.bits, self.position, rules, field)?;
        self.move_to(position);
        Ok(Stretch::new(bits))
    }

    /// Takes the octets of an open type after their length determinant (X.691 11.2). In one run they are borrowed if
    /// the bits are; those in fragments are joined.
    ///
    /// # Errors
    ///
    /// `Incomplete` if the bits end early, `NotValidCanonicalEncoding` if the largest fragments are not first, in
    /// strict rules, the errors of a length determinant, and `OutOfMemory`.
    #[inline(always)]
    pub fn take_open_type(
        &mut self,
        alloc: Global,
        rules: PackedRules,
    ) -> Result<Stretch<'input>, DecodeError>
        ensures start { IfOk result (λ inside. inside.place.0 ≡ 0) }
        ensures ok { IfOk result (λ inside. Front (freedoms rules)
            (octets_form (fronts.is_aligned rules) inside.place.1) self.old.place self.new.place) }
        ensures inside { IfOk result (λ inside. inside.storage ≡ storage_inside self.old.storage
            (length inside.place.1) self.new.place.0) }
        ensures storage { OnOk result (self.new.storage ≡ self.old.storage) }
        ensures stays { OnErr result (self.new.place ≡ self.old.place) }
        ensures only { IfErr result (Misses (freedoms rules)
            (octets_form (fronts.is_aligned rules)) self.old.place) }
    {
        let (bits, position) = take_octets(alloc, &self.bits, self.position, rules)?;
        self.move_to(position);
        Ok(Stretch::new(bits))
    }

    /// Takes an OCTET STRING (X.691 17) under a size constraint, for a Rust type that holds `held`. Octets in one run
    /// that ends, and so begins, at an octet of the bits' storage are borrowed, without an allocation.
    ///
    /// # Errors
    ///
    /// `SizeConstraintNotSatisfied` if the size or the Rust type does not admit their number, `Incomplete` if the
    /// bits end early, `NotValidCanonicalEncoding` if another form is canonical, in strict rules, the errors of a
    /// constrained whole number and of a length determinant, and `OutOfMemory`.
    #[inline(always)]
    pub fn take_octet_string(
        &mut self,
        alloc: Global,
        rules: PackedRules,
        sizes: Sizes,
        held: Bounded<usize>,
    ) -> Result<InputOctets<'input>, DecodeError>
        ensures ok { IfOk result (λ octets. Front (freedoms rules)
            (Per.form (fronts.is_aligned rules) (Asn1.octet_string (size_of sizes) (counts_of held))
            (Asn1Value.octet_list (octets_of octets))) self.old.place self.new.place) }
        ensures lent { IfOk result (λ octets. InOneRun (told_in_front (size_of sizes) self.old.place.1)
            (length (octets_of octets)) → EndsAtOctet self.old.storage self.new.place.0 → AreLent octets) }
        ensures storage { OnOk result (self.new.storage ≡ self.old.storage) }
        ensures stays { OnErr result (self.new.place ≡ self.old.place) }
        ensures only { IfErr result (Misses (freedoms rules)
            (Per.form (fronts.is_aligned rules) (Asn1.octet_string (size_of sizes) (counts_of held)))
            self.old.place) }
    {
        let (octets, position) = take_octet_string(
            alloc,
            &self.bits,
            self.position,
            rules,
            sizes,
            held,
        )?;
        self.move_to(position);
        Ok(octets)
    }
}
