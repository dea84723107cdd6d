//! The traits `Decoder` and `Decode`.
ghost use Rattle.std.specs.Prelude.{◌≡◌, ◌+◌, ◌<◌, true, ⊤, ℕ, List, length};
ghost use Rattle.std.specs.Prelude.{IfOk, OnOk, OnErr, IfErr, cond, string_bytes};
ghost use Rattle.std.specs.Cow.{IsBorrowedSlice, cow_slice_items};
ghost use Rattle.asn1_model.specs.Schema.{Size, Counts, utf8, wide_range};
ghost use Rattle.asn1_model.specs.Numbers.{is_count_within};
ghost use Rattle.asn1_schema_errors.specs.declared.CodecKind.{CodecKind};
ghost use Rattle.asn1_schema_laws.specs.Records.{Record, question, told, flag, nil, whole, one_of, identifier};
ghost use Rattle.asn1_schema_laws.specs.Records.{list_begins, bag_begins, further, sequence_begins, set_begins};
ghost use Rattle.asn1_schema_laws.specs.Records.{group_begins, presence_bit, is_default, is_empty};
ghost use Rattle.asn1_schema_laws.specs.Records.{additions_begin, addition, addition_ends, choice_begins, ends};
ghost use Rattle.asn1_schema_laws.specs.Records.{asks_flag, asks_nil, asks_whole, asks_one_of, asks_identifier};
ghost use Rattle.asn1_schema_laws.specs.Records.{asks_further};
ghost use Rattle.asn1_schema_laws.specs.Records.{asks_sequence, asks_set, asks_group, asks_presence_bit};
ghost use Rattle.asn1_schema_laws.specs.Records.{asks_default, asks_empty, asks_additions, asks_addition};
ghost use Rattle.asn1_schema_laws.specs.Records.{asks_addition_end, asks_choice, asks_end};
ghost use Rattle.asn1_schema_constraints.specs.Bounds.{counts_of};
ghost use Rattle.asn1_schema_constraints.specs.Terms.{meant};
ghost use Rattle.asn1_schema_forms.specs.Forms.{form_bounds};
ghost use Rattle.asn1_schema_types.specs.Told.{whole_under, bits_under, octets_under, characters_under};
ghost use Rattle.asn1_schema_types.specs.Told.{asks_whole_under, asks_bits_under, asks_octets_under};
ghost use Rattle.asn1_schema_types.specs.Told.{asks_characters_under, list_begins_under, bag_begins_under};
ghost use Rattle.asn1_schema_types.specs.Told.{asks_list_under, asks_bag_under};
ghost use Rattle.asn1_schema_decode.specs.Reads.{NoRecord, NoLevel, Reads, Unread};
ghost use Rattle.asn1_schema_lacking_laws.specs.Carried.{CarriesMembers, CarriesRecords, CarriesValues};
ghost use Rattle.asn1_schema_decode.specs.Answers.{Begins, is_admitted};
ghost use Rattle.asn1_schema_errors.specs.Calls.{DecoderCall, OneLevelLess, OneLevelMore, SameLevel};

use asn1_schema_constraints::{Bounded, Constraints};
use asn1_schema_errors::{CodecKind, DecodeError};
use asn1_schema_forms::NumberForm;
use asn1_schema_tags::{Chosen, Enumerated, EnumerationItems, Tag, TagTables, TypeItems};
use asn1_schema_types::AsnType;
use asn1_values_alphabets::StaticPermittedAlphabet;
use asn1_values_bit_strings::BitString;
use asn1_values_identifiers::ObjectIdentifier;
use asn1_values_integers::IntegerType;
use std::alloc::{AllocError, Global};
use std::borrow::CowSlice;

/// Octets that were read: borrowed from the input, or owned.
pub trait ReadOctets: Drop {
    /// The octets.
    ghost items: { Self → List ℕ };

    /// The octets are borrowed from the input.
    ghost is_lent: { Self → Type 0 };

    /// The octets.
    fn octets(&self) -> &[u8]
        ensures { result.now ≡ items self.now };

    /// The octets as a vector. Borrowed octets are copied; owned ones are moved, which allocates nothing.
    ///
    /// # Errors
    ///
    /// If the octets are borrowed, and memory runs out.
    fn into_vec(self, alloc: Global) -> Result<Vec<u8>, AllocError>
        ensures octets { IfOk result (λ v. v.items ≡ items self) }
        ensures lent { OnErr result (is_lent self) };
}

impl ReadOctets for Vec<u8> {
    ghost items = { λ v. v.items };

    ghost is_lent = { λ _. ⊥ };

    fn octets(&self) -> &[u8] {
        self.as_slice()
    }

    fn into_vec(self, _alloc: Global) -> Result<Vec<u8>, AllocError> {
        Ok(self)
    }
}

impl<'input> ReadOctets for &'input [u8] {
    ghost items = { λ octets. octets.now };

    ghost is_lent = { λ _. ⊤ };

    fn octets(&self) -> &[u8] {
        *self
    }

    fn into_vec(self, alloc: Global) -> Result<Vec<u8>, AllocError> {
        Vec::from_slice(alloc, self)
    }
}

impl<'a> ReadOctets for CowSlice<'a, u8> {
    ghost items = { cow_slice_items };

    ghost is_lent = { IsBorrowedSlice };

    fn octets(&self) -> &[u8] {
        self.as_slice()
    }

    fn into_vec(self, alloc: Global) -> Result<Vec<u8>, AllocError> {
        match self {
            CowSlice::Borrowed(octets) => Vec::from_slice(alloc, octets),
            CowSlice::Owned(octets) => Ok(octets),
        }
    }
}

/// A decoder finds the records of a value, one per call. A call returns `Ok` exactly if a record that it asks for is
/// next, within the nested levels that are left; otherwise, or if memory runs out, it returns an error. After an error
/// each call returns `AlreadyFailed`, and no call does before. The `tag` of a call is ignored.
pub trait Decoder {
    /// The octets of an OCTET STRING: borrowed from the input if possible.
    type Octets: ReadOctets;

    /// Relates the state before a record, the record, and the state after it.
    ghost step: { Self → Record → Self → Type 0 };

    /// The third state is the first with more input appended, but less than the second, in which the decoder has
    /// failed, needs at least.
    ghost too_few: { Self → Self → Self → Type 0 };

    /// As `too_few`, inside a SEQUENCE OF or SET OF: the second state needs at least one octet or bit more for each
    /// element that is still to come.
    ghost too_few_members: { Self → Self → Self → Type 0 };

    /// An earlier call failed.
    ghost has_failed: { Self → Type 0 };

    /// How many more levels may be nested.
    ghost levels: { Self → ℕ };

    /// The octets of this record are contiguous in the input, so they are borrowed from it.
    ghost lends: { Self → Record → Self → Type 0 };

    /// The encoding rules.
    ghost rules: { Self → CodecKind };

    /// The encoding rules.
    fn codec(&self) -> CodecKind
        ensures { result ≡ rules self.now };

    /// How many more levels may be nested: one fewer inside each level. At zero a further level is refused.
    fn levels_left(&self) -> usize
        ensures { result ≡ levels self.now };

    /// BOOLEAN (X.680 18). Allocates nothing.
    fn decode_bool(&mut self, tag: Tag) -> Result<bool, DecodeError>
        ensures ok { IfOk result (λ x. step self.old (flag x) self.new) }
        ensures only { IfErr result (NoRecord step too_few asks_flag self.old self.new) }
        ensures no_memory { IfErr result (λ e. e ≡ DecodeError.OutOfMemory → ⊥) }
        ensures call { DecoderCall has_failed (SameLevel levels) self.old self.new result };

    /// NULL (X.680 24). Allocates nothing.
    fn decode_null(&mut self, tag: Tag) -> Result<(), DecodeError>
        ensures ok { OnOk result (step self.old nil self.new) }
        ensures only { IfErr result (NoRecord step too_few asks_nil self.old self.new) }
        ensures no_memory { IfErr result (λ e. e ≡ DecodeError.OutOfMemory → ⊥) }
        ensures call { DecoderCall has_failed (SameLevel levels) self.old self.new result };

    /// INTEGER (X.680 19) under a value constraint. The number satisfies the constraint, unless that has an extension
    /// marker.
    fn decode_integer<I: IntegerType>(
        &mut self,
        alloc: Global,
        tag: Tag,
        constraints: &Constraints,
    ) -> Result<I, DecodeError>
        ensures ok { IfOk result (λ x. step self.old (whole_under constraints.now I.held (I.value x)) self.new) }
        ensures within { IfOk result (λ x. is_admitted constraints.now (I.value x) ≡ true) }
        ensures only { IfErr result
            (NoRecord step too_few (asks_whole_under constraints.now I.held) self.old self.new) }
        ensures call { DecoderCall has_failed (SameLevel levels) self.old self.new result };

    /// INTEGER (X.680 19) between two bounds, in the form that was worked out of them: as `decode_integer` under these
    /// bounds as a value constraint.
    fn decode_number(&mut self, alloc: Global, form: &NumberForm) -> Result<i128, DecodeError>
        ensures ok { IfOk result (λ x. step self.old (whole (form_bounds form.now) wide_range x) self.new) }
        ensures only { IfErr result
            (NoRecord step too_few (asks_whole (form_bounds form.now) wide_range) self.old self.new) }
        ensures call { DecoderCall has_failed (SameLevel levels) self.old self.new result }
    {
        let number: i128 = self.decode_integer(alloc, Tag::INTEGER, &form.constraints())?;
        Ok(number)
    }

    /// ENUMERATED (X.680 20): an item of these items.
    fn decode_item_of<I: EnumerationItems>(
        &mut self,
        tag: Tag,
        items: &I,
    ) -> Result<I::Item, DecodeError>
        ensures ok { IfOk result (λ x. step self.old
            (one_of (I.roots items.now) (I.extensible items.now) (I.additions items.now) (I.number x)) self.new) }
        ensures only { IfErr result (NoRecord step too_few
            (asks_one_of (I.roots items.now) (I.extensible items.now) (I.additions items.now)) self.old self.new) }
        ensures call { DecoderCall has_failed (SameLevel levels) self.old self.new result };

    /// ENUMERATED (X.680 20): an item of the type.
    #[inline(always)]
    final fn decode_enumerated<T: Enumerated>(&mut self, tag: Tag) -> Result<T, DecodeError>
    where
        Self: Sized,
        ensures ok { IfOk result (λ x. step self.old (one_of T.roots T.extensible T.additions (T.number x)) self.new) }
        ensures only { IfErr result
            (NoRecord step too_few (asks_one_of T.roots T.extensible T.additions) self.old self.new) }
        ensures call { DecoderCall has_failed (SameLevel levels) self.old self.new result }
    {
        let value = self.decode_item_of(tag, &TypeItems::<T>::new())?;
        Ok(value)
    }

    /// BIT STRING (X.680 22) under a size constraint; `held` bounds the number of bits that the user-defined type can
    /// hold.
    fn decode_bit_string(
        &mut self,
        alloc: Global,
        tag: Tag,
        constraints: &Constraints,
        held: Bounded<usize>,
    ) -> Result<BitString, DecodeError>
        ensures ok { IfOk result (λ x. step self.old (bits_under constraints.now held x) self.new) }
        ensures held { IfOk result (λ x. is_count_within (counts_of held) (length x) ≡ true) }
        ensures only { IfErr result (NoRecord step too_few (asks_bits_under constraints.now held) self.old self.new) }
        ensures call { DecoderCall has_failed (SameLevel levels) self.old self.new result };

    /// OCTET STRING (X.680 23) under a size constraint; `held` bounds the number of octets that the user-defined type
    /// can hold. The octets are borrowed if they are contiguous in the input.
    fn decode_octet_string(
        &mut self,
        alloc: Global,
        tag: Tag,
        constraints: &Constraints,
        held: Bounded<usize>,
    ) -> Result<Self::Octets, DecodeError>
        ensures ok { IfOk result
            (λ x. step self.old (octets_under constraints.now held (Self.Octets.items x)) self.new) }
        ensures held { IfOk result (λ x. is_count_within (counts_of held) (length (Self.Octets.items x)) ≡ true) }
        ensures lent { IfOk result
            (λ x. lends self.old (octets_under constraints.now held (Self.Octets.items x)) self.new
            → Self.Octets.is_lent x) }
        ensures only { IfErr result (NoRecord step too_few (asks_octets_under constraints.now held) self.old self.new) }
        ensures call { DecoderCall has_failed (SameLevel levels) self.old self.new result };

    /// UTF8String (X.680 41) under a size constraint.
    fn decode_utf8_string(
        &mut self,
        alloc: Global,
        tag: Tag,
        constraints: &Constraints,
    ) -> Result<String, DecodeError>
        ensures ok { IfOk result
            (λ x. step self.old (characters_under utf8 constraints.now (string_bytes x)) self.new) }
        ensures only { IfErr result
            (NoRecord step too_few (asks_characters_under utf8 constraints.now) self.old self.new) }
        ensures call { DecoderCall has_failed (SameLevel levels) self.old self.new result };

    /// A restricted character string (X.680 41) of a kind with a permitted alphabet, under size and alphabet
    /// constraints.
    fn decode_characters<S: StaticPermittedAlphabet>(
        &mut self,
        alloc: Global,
        tag: Tag,
        constraints: &Constraints,
    ) -> Result<S, DecodeError>
        ensures ok { IfOk result
            (λ x. step self.old (characters_under S.kind constraints.now (S.characters x)) self.new) }
        ensures only { IfErr result
            (NoRecord step too_few (asks_characters_under S.kind constraints.now) self.old self.new) }
        ensures call { DecoderCall has_failed (SameLevel levels) self.old self.new result };

    /// OBJECT IDENTIFIER (X.680 32).
    fn decode_object_identifier(
        &mut self,
        alloc: Global,
        tag: Tag,
    ) -> Result<ObjectIdentifier, DecodeError>
        ensures ok { IfOk result (λ x. step self.old (identifier x) self.new) }
        ensures only { IfErr result (NoRecord step too_few (asks_identifier) self.old self.new) }
        ensures call { DecoderCall has_failed (SameLevel levels) self.old self.new result };

    /// Begins a SEQUENCE OF (X.680 26) under a size constraint; `held` bounds the number of elements that the
    /// user-defined type can hold. The number of elements may not be known before its end.
    fn begin_list(
        &mut self,
        tag: Tag,
        constraints: &Constraints,
        held: Bounded<usize>,
    ) -> Result<(), DecodeError>
        ensures ok { OnOk result (Begins step held (list_begins_under constraints.now held) self.old self.new) }
        ensures begun { OnOk result (has_failed self.new → ⊥) }
        ensures only { IfErr result
            (NoLevel step too_few (asks_list_under constraints.now held) (levels self.old) self.old self.new) }
        ensures call { DecoderCall has_failed (OneLevelLess levels) self.old self.new result };

    /// Begins a SET OF (X.680 28) under a size constraint; `held` bounds the number of elements that the user-defined
    /// type can hold. Its elements come in any order. Their number may not be known before its end.
    fn begin_bag(
        &mut self,
        tag: Tag,
        constraints: &Constraints,
        held: Bounded<usize>,
    ) -> Result<(), DecodeError>
        ensures ok { OnOk result (Begins step held (bag_begins_under constraints.now held) self.old self.new) }
        ensures begun { OnOk result (has_failed self.new → ⊥) }
        ensures only { IfErr result
            (NoLevel step too_few (asks_bag_under constraints.now held) (levels self.old) self.old self.new) }
        ensures call { DecoderCall has_failed (OneLevelLess levels) self.old self.new result };

    /// Whether another element follows.
    fn get_further(&mut self) -> Result<bool, DecodeError>
        ensures ok { IfOk result (λ x. step self.old (further x) self.new) }
        ensures only { IfErr result (NoRecord step too_few asks_further self.old self.new) }
        ensures call { DecoderCall has_failed (SameLevel levels) self.old self.new result };

    /// Begins a SEQUENCE (X.680 25), with or without an extension marker; `optional` of its root components may be
    /// absent.
    fn begin_sequence(
        &mut self,
        tag: Tag,
        extensible: bool,
        optional: usize,
    ) -> Result<(), DecodeError>
        ensures ok { OnOk result (step self.old (sequence_begins extensible optional) self.new) }
        ensures only { IfErr result
            (NoLevel step too_few (asks_sequence extensible optional) (levels self.old) self.old self.new) }
        ensures call { DecoderCall has_failed (OneLevelLess levels) self.old self.new result };

    /// Begins a SET (X.680 27), with or without an extension marker; `optional` of its root components may be absent.
    /// They come in ascending order of their tags.
    fn begin_set(&mut self, tag: Tag, extensible: bool, optional: usize) -> Result<(), DecodeError>
        ensures ok { OnOk result (step self.old (set_begins extensible optional) self.new) }
        ensures only { IfErr result
            (NoLevel step too_few (asks_set extensible optional) (levels self.old) self.old self.new) }
        ensures call { DecoderCall has_failed (OneLevelLess levels) self.old self.new result };

    /// Begins an extension addition group (X.680 25.1); `optional` of its components may be absent.
    fn begin_group(&mut self, optional: usize) -> Result<(), DecodeError>
        ensures ok { OnOk result (step self.old (group_begins optional) self.new) }
        ensures only { IfErr result (NoLevel step too_few (asks_group optional) (levels self.old) self.old self.new) }
        ensures call { DecoderCall has_failed (OneLevelLess levels) self.old self.new result };

    /// Whether the next component that may be absent is present. Allocates nothing.
    fn get_presence_bit(&mut self) -> Result<bool, DecodeError>
        ensures ok { IfOk result (λ x. step self.old (presence_bit x) self.new) }
        ensures only { IfErr result (NoRecord step too_few asks_presence_bit self.old self.new) }
        ensures call { DecoderCall has_failed (SameLevel levels) self.old self.new result }
        ensures no_memory { IfErr result (λ e. e ≡ DecodeError.OutOfMemory → ⊥) };

    /// Says that the component that was read last is equal to its default. A decoder of canonical rules, or a strict
    /// one, refuses this. Allocates nothing.
    fn note_default(&mut self) -> Result<(), DecodeError>
        ensures ok { OnOk result (step self.old is_default self.new) }
        ensures only { IfErr result (NoRecord step too_few asks_default self.old self.new) }
        ensures call { DecoderCall has_failed (SameLevel levels) self.old self.new result }
        ensures no_memory { IfErr result (λ e. e ≡ DecodeError.OutOfMemory → ⊥) };

    /// Says that no component of the extension addition group that was read last is present. A decoder of canonical
    /// rules, or a strict one, refuses this. Allocates nothing.
    fn note_empty(&mut self) -> Result<(), DecodeError>
        ensures ok { OnOk result (step self.old is_empty self.new) }
        ensures only { IfErr result (NoRecord step too_few asks_empty self.old self.new) }
        ensures call { DecoderCall has_failed (SameLevel levels) self.old self.new result }
        ensures no_memory { IfErr result (λ e. e ≡ DecodeError.OutOfMemory → ⊥) };

    /// Begins the `count` extension additions, after the root components of a type with an extension marker (X.680 25
    /// and 27). Further additions of the input are skipped at the end.
    fn begin_additions(&mut self, count: usize) -> Result<(), DecodeError>
        ensures ok { OnOk result (step self.old (additions_begin count) self.new) }
        ensures only { IfErr result (NoRecord step too_few (asks_additions count) self.old self.new) }
        ensures call { DecoderCall has_failed (SameLevel levels) self.old self.new result };

    /// Whether the next addition is present.
    fn get_addition(&mut self) -> Result<bool, DecodeError>
        ensures ok { IfOk result (λ x. step self.old (addition x) self.new) }
        ensures only { IfErr result (NoRecord step too_few asks_addition self.old self.new) }
        ensures call { DecoderCall has_failed (SameLevel levels) self.old self.new result };

    /// Ends an addition that is present.
    fn end_addition(&mut self) -> Result<(), DecodeError>
        ensures ok { OnOk result (step self.old addition_ends self.new) }
        ensures only { IfErr result (NoRecord step too_few asks_addition_end self.old self.new) }
        ensures call { DecoderCall has_failed (SameLevel levels) self.old self.new result };

    /// Begins a CHOICE (X.680 29), given the tags of its alternatives and whether it has an extension marker, and
    /// returns the chosen alternative. `end` is called after the value of the alternative.
    fn begin_choice(&mut self, tag: Tag, tables: &TagTables<'_>) -> Result<Chosen, DecodeError>
        ensures ok { IfOk result (λ x. step self.old
            (choice_begins tables.now.roots tables.now.extensible tables.now.additions x.added x.place) self.new) }
        ensures within { IfOk result (λ x. x.place < length (cond x.added tables.now.additions tables.now.roots)) }
        ensures only { IfErr result
            (NoLevel step too_few (asks_choice tables.now.roots tables.now.extensible tables.now.additions)
            (levels self.old) self.old self.new) }
        ensures call { DecoderCall has_failed (OneLevelLess levels) self.old self.new result };

    /// Ends what was begun last and has not ended.
    fn end(&mut self) -> Result<(), DecodeError>
        ensures ok { OnOk result (step self.old ends self.new) }
        ensures only { IfErr result (NoRecord step too_few asks_end self.old self.new) }
        ensures call { DecoderCall has_failed (OneLevelMore levels) self.old self.new result };

    /// The decoder fails for this reason: the user-defined type cannot hold what was decoded.
    fn refuse(&mut self, error: DecodeError) -> DecodeError
        ensures refused { result ≡ error }
        ensures failed { has_failed self.new };

    /// At most one of the records that answer a question is next, and at most one state follows it.
    ghost one_record: { (a : Self) (r s : Record) (b c : Self)
        → question r ≡ question s → step a r b → step a s c → (told r ≡ told s) × (b ≡ c) };

    /// The user-defined type can hold the number of elements of a SEQUENCE OF.
    ghost list_held: { (a : Self) (z : Size) (h : Counts) (n : ℕ) (b : Self)
        → step a (list_begins z h n) b → is_count_within h n ≡ true };

    /// The user-defined type can hold the number of elements of a SET OF.
    ghost bag_held: { (a : Self) (z : Size) (h : Counts) (n : ℕ) (b : Self)
        → step a (bag_begins z h n) b → is_count_within h n ≡ true };

    /// A state that follows a record has not failed.
    ghost goes_on: { (a : Self) (r : Record) (b : Self) → step a r b → has_failed b → ⊥ };

    /// Without more input there is too little.
    ghost few_at_once: { (a failed : Self) → too_few a failed a };

    /// What is next is also next with a little more input.
    ghost records_carried: { CarriesRecords step too_few };

    /// The same for all the records of a value.
    ghost values_carried: { CarriesValues step too_few };

    /// The same for the elements of a SEQUENCE OF or SET OF, each of which needs at least one octet or bit.
    ghost members_carried: { CarriesMembers step too_few too_few_members };

    /// No state follows one that has failed.
    ghost none_after: { (a : Self) (r : Record) (b : Self) → has_failed a → step a r b → ⊥ };

    /// No record changes the encoding rules.
    ghost same_rules: { (a : Self) (r : Record) (b : Self) → step a r b → rules b ≡ rules a };
}

/// A type whose values can be decoded.
pub trait Decode: AsnType + Drop {
    /// Reads a value of the type under these constraints, whose records are next, and returns the Rust value of its
    /// normal form. After an error the decoder has failed.
    fn decode_with_tag_and_constraints<D: Decoder>(
        alloc: Global,
        decoder: &mut D,
        tag: Tag,
        constraints: &Constraints,
    ) -> Result<Self, DecodeError>
        ensures ok { IfOk result
            (λ x. Reads D.step (Self.under (meant constraints.now)) (D.levels decoder.old) (Self.meaning x)
            decoder.old decoder.new) }
        ensures only { IfErr result
            (Unread D.step D.too_few (Self.under (meant constraints.now)) (D.levels decoder.old)
            decoder.old decoder.new) }
        ensures call { DecoderCall D.has_failed (SameLevel D.levels) decoder.old decoder.new result };

    /// Reads a value of the type, whose records are next, and returns the Rust value of its normal form.
    #[inline(always)]
    final fn decode<D: Decoder>(alloc: Global, decoder: &mut D) -> Result<Self, DecodeError>
    where
        Self: Sized,
        ensures ok { IfOk result
            (λ x. Reads D.step Self.schema (D.levels decoder.old) (Self.meaning x) decoder.old decoder.new) }
        ensures only { IfErr result
            (Unread D.step D.too_few Self.schema (D.levels decoder.old) decoder.old decoder.new) }
        ensures call { DecoderCall D.has_failed (SameLevel D.levels) decoder.old decoder.new result }
    {
        Self::decode_with_tag(alloc, decoder, Self::TAG)
    }

    /// As `decode`, with another tag.
    #[inline(always)]
    final fn decode_with_tag<D: Decoder>(
        alloc: Global,
        decoder: &mut D,
        tag: Tag,
    ) -> Result<Self, DecodeError>
    where
        Self: Sized,
        ensures ok { IfOk result
            (λ x. Reads D.step Self.schema (D.levels decoder.old) (Self.meaning x) decoder.old decoder.new) }
        ensures only { IfErr result
            (Unread D.step D.too_few Self.schema (D.levels decoder.old) decoder.old decoder.new) }
        ensures call { DecoderCall D.has_failed (SameLevel D.levels) decoder.old decoder.new result }
    {
        let value = Self::decode_with_tag_and_constraints(
            alloc,
            decoder,
            tag,
            &Self::constraints(),
        )?;
        Ok(value)
    }

    /// Reads a value of the type under these constraints.
    #[inline(always)]
    final fn decode_with_constraints<D: Decoder>(
        alloc: Global,
        decoder: &mut D,
        constraints: &Constraints,
    ) -> Result<Self, DecodeError>
    where
        Self: Sized,
        ensures ok { IfOk result
            (λ x. Reads D.step (Self.under (meant constraints.now)) (D.levels decoder.old) (Self.meaning x)
            decoder.old decoder.new) }
        ensures only { IfErr result
            (Unread D.step D.too_few (Self.under (meant constraints.now)) (D.levels decoder.old)
            decoder.old decoder.new) }
        ensures call { DecoderCall D.has_failed (SameLevel D.levels) decoder.old decoder.new result }
    {
        Self::decode_with_tag_and_constraints(alloc, decoder, Self::TAG, constraints)
    }
}
