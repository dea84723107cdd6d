//! The decoder of PER, which finds the records of a value in bits.
ghost use Rattle.std.specs.Prelude.{◌≡◌, ◌+◌, ◌-◌, ◌/◌, ◌<◌, ◌^◌, [], ◌∷◌, true, Some, None, length, take, min};
ghost use Rattle.std.specs.Prelude.{OnOk, OnErr, IfErr, IfOk};
ghost use Rattle.per_codec_held_laws.specs.Held.{Held, Finds, kind_of};
ghost use Rattle.per_codec_decoder.specs.Held.{Lends, OnlyMoves, Moves, Enters};
ghost use Rattle.per_codec_held_laws.specs.Held.{HasFailed, IsReady};
ghost use Rattle.per_codec_decoder.specs.Held.{HasOpened, HasPassed, NoOpening, EntersMembers, EntersComponents};
ghost use Rattle.per_codec_decoder.specs.Held.{NotMembers, NotComponents};
ghost use Rattle.per_codec_decoder.specs.Endings.{Passes, NotPassed};
ghost use Rattle.per_codec_decoder.specs.Scopes.{scope_of, stands_in};
ghost use Rattle.asn1_schema_constraints.specs.Bounds.{counts_of, members_of};
ghost use Rattle.asn1_schema_decode.specs.Reads.{NoRecord};
ghost use Rattle.per_codec_held_laws.specs.Few.{TooFewHeld, OwesNoMore, lacks, told};
ghost use Rattle.per_codec_decoder.specs.Missing.{StillTooShort};
ghost use Rattle.per_codec_reading.specs.Octets.{octets_of, AreLent, AreUnowned};
ghost use Rattle.per_codec_reading.specs.Units.{counted_units};
ghost use Rattle.asn1_schema_laws.specs.Records.{octets, asks_octets, further, asks_further};
ghost use Rattle.asn1_schema_constraints.specs.Terms.{size_of, sizes_of};
ghost use Rattle.asn1_model.specs.Numbers.{octet_bits, is_count_within};
ghost use Rattle.asn1_values_bits.specs.BitStr.{bits_of};
ghost use Rattle.per_codec_laws.specs.Takes.{alternative, Front, completion};
ghost use Rattle.per_codec_reading.specs.Fronts.{freedoms, is_aligned, IsFresh};
ghost use Rattle.asn1_schema_errors.specs.Calls.{DecoderCall, OneLevelLess, SameLevel};

use crate::missing::{missing_octets_at, missing_of_string_at};
use crate::octets::StringOctets;
use crate::options::DecoderOptions;
use crate::{Additions, Enclosing, Ending, Frame, Scopes, read_members, read_preamble};
use asn1_schema_constraints::{Bounded, Constraints, Sizes};
use asn1_schema_decode::{Decoder as _, go_on};
use asn1_schema_errors::{CodecKind, DecodeError};
use asn1_schema_forms::NumberForm;
use asn1_schema_tags::{Chosen, EnumerationItems, Tag, TagTables};
use asn1_values_alphabets::StaticPermittedAlphabet;
use asn1_values_bit_strings::BitString;
use asn1_values_bits::BitStr;
use asn1_values_identifiers::ObjectIdentifier;
use asn1_values_integers::IntegerType;
use per_codec_reading::boolean::{read_boolean, read_null};
use per_codec_reading::completion::{read_completion, read_to_end};
use per_codec_reading::{PackedRules, read_bit_string, read_object_identifier, read_utf8_string};
use per_codec_reading_values::{
    Stretch, read_alternative_index, read_bitmap, read_characters, read_in_form, read_integer,
    read_item, skip_unknown,
};
use std::alloc::Global;
use std::marker::Model;
use std::mem::{forget, replace};

/// A decoder of the packed encoding rules (X.691), unaligned or aligned. It borrows octets that are contiguous in its
/// input.
#[derive(Drop)]
pub struct Decoder<'input> {
    place: Stretch<'input>,
    scopes: Scopes<'input>,
    levels: usize,
    most: usize,
    // After an error, one less than the number of bits that are missing at least, without those of elements that are
    // still to come.
    failed: Option<usize>,
    rules: PackedRules,
}

impl<'input> Model for Decoder<'input> {
    ghost use Rattle.std.specs.Prelude.{◌∷◌};
    ghost use Rattle.per_codec_held_laws.specs.Held.{Held};

    ghost Value = { Held };

    ghost view = { λ d. record {
      place = d.place.place;
      scopes = d.scopes.scopes;
      levels = d.levels;
      most = d.most;
      failed = d.failed;
      rules = d.rules;
      stands = d.place.storage ∷ d.scopes.behind;
    } };
}

// One call: `AlreadyFailed` after an error; otherwise the result of reading the record with a cursor at the current
// position. The decoder fails with it.
macro_rules! record {
    ($decoder:ident, $cursor:ident, $read:expr) => {{
        go_on($decoder.failed.is_some())?;
        let mut $cursor = $decoder.place.cursor();
        let answer = $read;
        let position = $cursor.position();
        $decoder.settle(position, answer)
    }};
}

impl<'input> Decoder<'input> {
    /// A decoder of this input, with at most 128 nested levels. It looks at no more than the first 2^60 - 1 octets of
    /// the input.
    #[inline(always)]
    pub fn new(alloc: Global, input: &'input [u8], options: DecoderOptions) -> Self
        ensures { result ≡ record {
          place = (0, octet_bits (take (2 ^ 60 - 1) input.entry.now));
          scopes = [];
          levels = 128;
          most = 128;
          failed = None;
          rules = options.rules;
          stands = Some 0 ∷ [];
        } }
    {
        Decoder {
            place: Stretch::from_octets(input),
            scopes: Scopes::new(alloc),
            levels: 128,
            most: 128,
            failed: None,
            rules: options.rules,
        }
    }

    /// The unread bits.
    #[inline(always)]
    pub fn input(&self) -> BitStr<'_>
        ensures { bits_of result ≡ self.now.place.1 }
    {
        self.place.bits()
    }

    /// The number of bits of the message or open type that have been read.
    #[inline(always)]
    pub fn position(&self) -> usize
        ensures { result ≡ self.now.place.0 }
    {
        self.place.cursor().position()
    }

    /// After an error, how many more octets are needed at least. At least one, and enough octets for the bits that a
    /// string or an open type lacks and for one bit for each element that is still to come in a SEQUENCE OF or SET OF
    /// outside open types.
    #[cold]
    pub fn needed(&self) -> usize
        ensures { result ≡ min (lacks self.now) (2 ^ 64 - 1) / 8 + 1 }
    {
        self.scopes.due().saturating_add(self.failed.unwrap_or(0)) / 8 + 1
    }

    /// Skips the padding of a message after its value (X.691 11.1): bits up to the next octet, or the one octet of a
    /// value without bits.
    ///
    /// # Errors
    ///
    /// `AlreadyFailed` after an error, `InvalidPadding` if the octet of a value without bits is not zero or, in strict
    /// rules, a padding bit is not, and `Incomplete` if the input ends early.
    #[inline(always)]
    pub fn finish(&mut self) -> Result<(), DecodeError>
        ensures ok { OnOk result (IsReady self.old
            × Front (freedoms self.old.rules) (completion self.old.place.0) self.old.place self.new.place) }
        ensures rest { OnOk result (OnlyMoves self.old self.new) }
        ensures only { IfErr result (λ _. IsReady self.old → (b : _)
            → Front (freedoms self.old.rules) (completion self.old.place.0) self.old.place b → ⊥) }
        ensures call { DecoderCall HasFailed (SameLevel (λ s. s.levels)) self.old self.new result }
    {
        record!(self, cursor, read_completion(&mut cursor, self.rules))
    }

    /// Drops the decoder after a message, and frees its memory. Usually nothing was allocated; then no destructor is
    /// called.
    #[inline(always)]
    pub fn let_go(self) {
        if self.place.is_lent() && self.scopes.hold_no_memory() {
            forget(self);
        } else {
            drop(self);
        }
    }

    // The octets of an OCTET STRING (X.680 23) under a size constraint. They are borrowed if they are contiguous in the
    // input: in a single fragment (X.691 11.9.4) that begins at an octet boundary.
    #[inline(always)]
    fn find_octets(
        &mut self,
        alloc: Global,
        sizes: Sizes,
        held: Bounded<usize>,
    ) -> Result<StringOctets<'input>, DecodeError>
        ensures ok { IfOk result (λ x. Finds self.old
            (octets (size_of sizes) (counts_of held) (octets_of x.octets)) self.new) }
        ensures held { IfOk result (λ x. is_count_within (counts_of held) (length (octets_of x.octets)) ≡ true) }
        ensures lent { IfOk result (λ x. Lends self.old
            (octets (size_of sizes) (counts_of held) (octets_of x.octets)) self.new
            → AreLent x.octets) }
        ensures only { IfErr result (NoRecord Finds TooFewHeld
            (asks_octets (size_of sizes) (counts_of held)) self.old self.new) }
        ensures call { DecoderCall HasFailed (SameLevel (λ s. s.levels)) self.old self.new result }
    {
        go_on(self.failed.is_some())?;
        match self.place.take_octet_string(alloc, self.rules, sizes, held) {
            Ok(octets) => Ok(StringOctets { octets }),
            Err(error) => {
                let missing = missing_of_string_at(&self.place, self.rules, &sizes);
                Err(self.lack_bits(error, missing))
            }
        }
    }

    // Fails for this reason: bits are missing, or do not have the required form. The scopes are kept, as they say how
    // many elements are missing as well.
    #[inline(always)]
    fn lack(&mut self, error: DecodeError) -> DecodeError
        ensures refused { result ≡ error }
        ensures failed { HasFailed self.new }
        ensures kept { self.new.scopes ≡ self.old.scopes }
        ensures told { told self.new.failed ≡ 0 }
    {
        self.failed = Some(0);
        error
    }

    // As `lack`, if more than `missing` bits are missing.
    #[cold]
    fn lack_bits(&mut self, error: DecodeError, missing: usize) -> DecodeError
        ensures refused { result ≡ error }
        ensures failed { HasFailed self.new }
        ensures kept { self.new.scopes ≡ self.old.scopes }
        ensures told { told self.new.failed ≡ missing }
    {
        self.failed = Some(missing);
        error
    }

    // Continues after what a reader found, at this position, or fails as it did. The scopes are kept.
    #[inline(always)]
    fn settle<T>(
        &mut self,
        position: usize,
        answer: Result<T, DecodeError>,
    ) -> Result<T, DecodeError>
        ensures same { result ≡ answer }
        ensures moved { OnOk result (Moves self.old position self.new) }
        ensures levels { OnOk result (self.new.levels ≡ self.old.levels) }
        ensures kept { self.new.scopes ≡ self.old.scopes }
        ensures owed { OnErr result (OwesNoMore self.old self.new) }
        ensures failed { OnErr result (HasFailed self.new) }
    {
        match answer {
            Ok(value) => {
                self.place.move_to(position);
                Ok(value)
            }
            Err(error) => Err(self.lack(error)),
        }
    }

    // Opens a scope, which takes a level.
    #[inline(always)]
    fn enter(&mut self, frame: Frame<'input>) -> Result<(), DecodeError>
        requires { 0 < self.old.levels }
        ensures levels { OnOk result (self.old.levels ≡ self.new.levels + 1) }
        ensures scopes { OnOk result (self.new
            ≡ record {
              place = self.old.place;
              scopes = scope_of frame.entry ∷ self.old.scopes;
              levels = self.new.levels;
              most = self.old.most;
              failed = self.old.failed;
              rules = self.old.rules;
              stands = stands_in frame.entry self.old.stands;
            }) }
        ensures only { IfErr result (λ error. error ≡ DecodeError.OutOfMemory) }
        ensures emptied { OnErr result (lacks self.new ≡ 0) }
        ensures failed { OnErr result (HasFailed self.new) }
    {
        let Ok(()) = self.scopes.open(frame) else {
            return Err(self.refuse(DecodeError::OutOfMemory));
        };
        self.descend();
        Ok(())
    }

    // Opens the scope of a root alternative, which takes a level.
    #[inline(always)]
    fn enter_alternative(&mut self) -> Result<(), DecodeError>
        requires { 0 < self.old.levels }
        ensures levels { OnOk result (self.old.levels ≡ self.new.levels + 1) }
        ensures scopes { OnOk result (self.new
            ≡ record {
              place = self.old.place;
              scopes = alternative ∷ self.old.scopes;
              levels = self.new.levels;
              most = self.old.most;
              failed = self.old.failed;
              rules = self.old.rules;
              stands = self.old.stands;
            }) }
        ensures only { IfErr result (λ error. error ≡ DecodeError.OutOfMemory) }
        ensures emptied { OnErr result (lacks self.new ≡ 0) }
        ensures failed { OnErr result (HasFailed self.new) }
    {
        let Ok(()) = self.scopes.enclose(Enclosing::Alternative) else {
            return Err(self.refuse(DecodeError::OutOfMemory));
        };
        self.descend();
        Ok(())
    }

    // Takes a level.
    #[inline(always)]
    fn descend(&mut self)
        requires { 0 < self.old.levels }
        ensures levels { self.old.levels ≡ self.new.levels + 1 }
        ensures same { self.new ≡ record {
          place = self.old.place;
          scopes = self.old.scopes;
          levels = self.new.levels;
          most = self.old.most;
          failed = self.old.failed;
          rules = self.old.rules;
          stands = self.old.stands;
        } }
    {
        self.levels -= 1;
    }

    // Begins a SEQUENCE OF or SET OF.
    fn enter_members(&mut self, sizes: Sizes, held: Bounded<usize>) -> Result<(), DecodeError>
        ensures ok { OnOk result (EntersMembers self.old (size_of sizes) (members_of held) self.new) }
        ensures only { IfErr result (NotMembers self.old (size_of sizes) (members_of held)) }
        ensures owed { OnErr result (IsReady self.old → OwesNoMore self.old self.new) }
        ensures call { DecoderCall HasFailed (OneLevelLess (λ s. s.levels)) self.old self.new result }
    {
        go_on(self.failed.is_some())?;
        if self.levels == 0 {
            return Err(self.refuse(DecodeError::ExceedsMaxParseDepth));
        }
        let alloc = self.scopes.allocator();
        let mut cursor = self.place.cursor();
        let answer = read_members(alloc, &mut cursor, self.rules, sizes, held);
        let position = cursor.position();
        let members = self.settle(position, answer)?;
        self.enter(Frame::Members(members))
    }

    // Whether another element follows, after the next length determinant if none is due before it.
    fn find_further(&mut self) -> Result<bool, DecodeError>
        ensures ok { IfOk result (λ more. Finds self.old (further more) self.new) }
        ensures only { IfErr result (NoRecord Finds TooFewHeld asks_further self.old self.new) }
        ensures call { DecoderCall HasFailed (SameLevel (λ s. s.levels)) self.old self.new result }
    {
        go_on(self.failed.is_some())?;
        let mut cursor = self.place.cursor();
        match self.scopes.next_member(&mut cursor, self.rules) {
            Ok(more) => {
                let position = cursor.position();
                self.place.move_to(position);
                Ok(more)
            }
            Err(error) => Err(self.refuse(error)),
        }
    }

    // Begins a SEQUENCE, SET or group.
    #[inline(always)]
    fn enter_components(&mut self, extensible: bool, optional: usize) -> Result<(), DecodeError>
        ensures ok { OnOk result (EntersComponents self.old extensible optional self.new) }
        ensures only { IfErr result (NotComponents self.old extensible optional) }
        ensures owed { OnErr result (IsReady self.old → OwesNoMore self.old self.new) }
        ensures call { DecoderCall HasFailed (OneLevelLess (λ s. s.levels)) self.old self.new result }
    {
        go_on(self.failed.is_some())?;
        if self.levels == 0 {
            return Err(self.refuse(DecodeError::ExceedsMaxParseDepth));
        }
        let alloc = self.scopes.allocator();
        match read_preamble(alloc, &mut self.place, self.rules, extensible, optional) {
            Ok(frame) => self.enter(frame),
            Err(error) => Err(self.lack(error)),
        }
    }

    // Begins an open type (X.691 11.2): takes its octets, where reading goes on; `pass_over` checks what is left.
    fn open_type(&mut self) -> Result<(), DecodeError>
        ensures ok { OnOk result (HasOpened self.old self.new) }
        ensures only { IfErr result (NoOpening self.old) }
        ensures short { IfErr result (λ e. ¬ (e ≡ DecodeError.OutOfMemory) → (self.new.scopes ≡ self.old.scopes)
            × StillTooShort (freedoms self.old.rules) (counted_units (is_aligned self.old.rules) 8) self.old.place
            (told self.new.failed)) }
        ensures fresh { IfErr result IsFresh }
        ensures failed { OnErr result (HasFailed self.new) }
    {
        let alloc = self.scopes.allocator();
        let inside = match self.place.take_open_type(alloc, self.rules) {
            Ok(inside) => inside,
            Err(error) => {
                let missing = missing_octets_at(&self.place, self.rules);
                return Err(self.lack_bits(error, missing));
            }
        };
        let behind = replace(&mut self.place, inside);
        let Ok(()) = self.scopes.enclose(Enclosing::OpenType(behind)) else {
            return Err(self.refuse(DecodeError::OutOfMemory));
        };
        Ok(())
    }

    // Skips the rest of a scope at its end.
    #[inline(always)]
    fn pass_over(&mut self, ending: Ending<'input>) -> Result<(), DecodeError>
        ensures ok { OnOk result (HasPassed ending.entry self.old self.new
            × Passes (is_aligned self.old.rules)
            (freedoms self.old.rules) ending.entry self.old.place self.new.place) }
        ensures only { IfErr result (NotPassed (is_aligned self.old.rules)
            (freedoms self.old.rules) ending.entry self.old.place) }
        ensures stays { OnErr result (self.new.scopes ≡ self.old.scopes) }
        ensures fresh { IfErr result IsFresh }
    {
        match ending {
            Ending::Nothing => Ok(()),
            Ending::Unknown(presence) => {
                let mut cursor = self.place.cursor();
                skip_unknown(&mut cursor, self.rules, presence)?;
                let position = cursor.position();
                self.place.move_to(position);
                Ok(())
            }
            Ending::OpenType(behind) => {
                read_to_end(&mut self.place.cursor(), self.rules)?;
                self.place = behind;
                Ok(())
            }
        }
    }
}

#[tactic(auto, using(crate::proofs::Refused::none_ready, crate::proofs::Refused::none_begun))]
impl<'input> asn1_schema_decode::Decoder for Decoder<'input> {
    ghost use Rattle.per_codec_held_laws.proofs.Finds.{finds_one, finds_held, finds_bag_held, finds_none, finds_on};
    ghost use Rattle.per_codec_held_laws.proofs.Finds.{finds_same};
    ghost use Rattle.per_codec_held_laws.specs.Few.{TooFewMembersHeld};
    ghost use Rattle.per_codec_held_laws.proofs.Carried.{at_once, held_records, held_values, held_members};

    type Octets = StringOctets<'input>;

    ghost step = { Finds };

    ghost too_few = { TooFewHeld };

    ghost too_few_members = { TooFewMembersHeld };

    ghost has_failed = { HasFailed };

    ghost levels = { λ d. d.levels };

    ghost lends = { Lends };

    ghost rules = { λ d. kind_of d.rules };

    fn codec(&self) -> CodecKind {
        match self.rules {
            PackedRules::Uper => CodecKind::Uper,
            PackedRules::Aper => CodecKind::Aper,
            PackedRules::UperStrict => CodecKind::Uper,
            PackedRules::AperStrict => CodecKind::Aper,
        }
    }

    fn levels_left(&self) -> usize {
        self.levels
    }

    fn refuse(&mut self, error: DecodeError) -> DecodeError
        ensures refused { result ≡ error }
        ensures failed { HasFailed self.new }
        ensures emptied { lacks self.new ≡ 0 }
    {
        self.failed = Some(0);
        self.scopes.clear();
        error
    }

    #[inline(always)]
    fn decode_bool(&mut self, _tag: Tag) -> Result<bool, DecodeError> {
        record!(self, cursor, read_boolean(&mut cursor, self.rules))
    }

    fn decode_null(&mut self, _tag: Tag) -> Result<(), DecodeError> {
        record!(self, cursor, read_null(&mut cursor, self.rules))
    }

    #[inline(always)]
    fn decode_integer<I: IntegerType>(
        &mut self,
        alloc: Global,
        _tag: Tag,
        constraints: &Constraints,
    ) -> Result<I, DecodeError> {
        record!(
            self,
            cursor,
            read_integer(alloc, &mut cursor, self.rules, constraints)
        )
    }

    #[inline(always)]
    fn decode_number(&mut self, _alloc: Global, form: &NumberForm) -> Result<i128, DecodeError> {
        record!(self, cursor, read_in_form(&mut cursor, self.rules, form))
    }

    fn decode_item_of<I: EnumerationItems>(
        &mut self,
        _tag: Tag,
        items: &I,
    ) -> Result<I::Item, DecodeError> {
        record!(
            self,
            cursor,
            read_item(self.scopes.allocator(), &mut cursor, self.rules, items)
        )
    }

    fn decode_bit_string(
        &mut self,
        alloc: Global,
        _tag: Tag,
        constraints: &Constraints,
        held: Bounded<usize>,
    ) -> Result<BitString, DecodeError> {
        let sizes = constraints.sizes();
        record!(
            self,
            cursor,
            read_bit_string(alloc, &mut cursor, self.rules, sizes, held)
        )
    }

    #[inline(always)]
    fn decode_octet_string(
        &mut self,
        alloc: Global,
        _tag: Tag,
        constraints: &Constraints,
        held: Bounded<usize>,
    ) -> Result<StringOctets<'input>, DecodeError>
        ensures ok { IfOk result (λ x. Finds self.old
            (octets (sizes_of constraints.now.size) (counts_of held) (octets_of x.octets)) self.new) }
        ensures held { IfOk result (λ x. is_count_within (counts_of held) (length (octets_of x.octets)) ≡ true) }
        ensures lent { IfOk result (λ x. Lends self.old
            (octets (sizes_of constraints.now.size) (counts_of held) (octets_of x.octets)) self.new
            → AreUnowned x.octets) }
        ensures only { IfErr result (NoRecord Finds TooFewHeld
            (asks_octets (sizes_of constraints.now.size) (counts_of held)) self.old self.new) }
        ensures call { DecoderCall HasFailed (SameLevel (λ s. s.levels)) self.old self.new result }
        ensures borrowed { IfOk result (λ x. Lends self.old
            (octets (sizes_of constraints.now.size) (counts_of held) (octets_of x.octets)) self.new
            → AreLent x.octets) }
    {
        self.find_octets(alloc, constraints.sizes(), held)
    }

    fn decode_utf8_string(
        &mut self,
        alloc: Global,
        _tag: Tag,
        constraints: &Constraints,
    ) -> Result<String, DecodeError> {
        record!(
            self,
            cursor,
            read_utf8_string(alloc, &mut cursor, self.rules, constraints)
        )
    }

    #[inline(always)]
    fn decode_characters<S: StaticPermittedAlphabet>(
        &mut self,
        alloc: Global,
        _tag: Tag,
        constraints: &Constraints,
    ) -> Result<S, DecodeError> {
        record!(
            self,
            cursor,
            read_characters(alloc, &mut cursor, self.rules, constraints)
        )
    }

    fn decode_object_identifier(
        &mut self,
        alloc: Global,
        _tag: Tag,
    ) -> Result<ObjectIdentifier, DecodeError> {
        record!(
            self,
            cursor,
            read_object_identifier(alloc, &mut cursor, self.rules)
        )
    }

    #[inline(always)]
    fn begin_list(
        &mut self,
        _tag: Tag,
        constraints: &Constraints,
        held: Bounded<usize>,
    ) -> Result<(), DecodeError> {
        self.enter_members(constraints.sizes(), held)
    }

    #[inline(always)]
    fn begin_bag(
        &mut self,
        _tag: Tag,
        constraints: &Constraints,
        held: Bounded<usize>,
    ) -> Result<(), DecodeError> {
        self.enter_members(constraints.sizes(), held)
    }

    #[inline(always)]
    fn get_further(&mut self) -> Result<bool, DecodeError> {
        go_on(self.failed.is_some())?;
        if self.scopes.take_due_member() {
            return Ok(true);
        }
        self.find_further()
    }

    #[inline(always)]
    fn begin_sequence(
        &mut self,
        _tag: Tag,
        extensible: bool,
        optional: usize,
    ) -> Result<(), DecodeError> {
        self.enter_components(extensible, optional)
    }

    fn begin_set(
        &mut self,
        _tag: Tag,
        extensible: bool,
        optional: usize,
    ) -> Result<(), DecodeError> {
        self.enter_components(extensible, optional)
    }

    fn begin_group(&mut self, optional: usize) -> Result<(), DecodeError> {
        self.enter_components(false, optional)
    }

    #[inline(always)]
    fn get_presence_bit(&mut self) -> Result<bool, DecodeError> {
        go_on(self.failed.is_some())?;
        match self.scopes.next_presence_bit() {
            Some(present) => Ok(present),
            None => Err(self.refuse(DecodeError::NotValidCanonicalEncoding)),
        }
    }

    fn note_default(&mut self) -> Result<(), DecodeError> {
        go_on(self.failed.is_some())?;
        if self.rules.is_strict() {
            return Err(self.refuse(DecodeError::NotValidCanonicalEncoding));
        }
        Ok(())
    }

    fn note_empty(&mut self) -> Result<(), DecodeError> {
        go_on(self.failed.is_some())?;
        if self.rules.is_strict() {
            return Err(self.refuse(DecodeError::NotValidCanonicalEncoding));
        }
        Ok(())
    }

    fn begin_additions(&mut self, count: usize) -> Result<(), DecodeError> {
        go_on(self.failed.is_some())?;
        let Some(is_extended) = self.scopes.extension_bit() else {
            return Err(self.refuse(DecodeError::NotValidCanonicalEncoding));
        };
        let alloc = self.scopes.allocator();
        match read_bitmap(alloc, &mut self.place, self.rules, is_extended) {
            Ok(bitmap) => {
                let left = count;
                self.scopes
                    .replace(Frame::Added(Additions { left, bitmap }));
                Ok(())
            }
            Err(error) => Err(self.lack(error)),
        }
    }

    #[inline(always)]
    fn get_addition(&mut self) -> Result<bool, DecodeError> {
        go_on(self.failed.is_some())?;
        let Some(is_there) = self.scopes.next_addition() else {
            return Err(self.refuse(DecodeError::NotValidCanonicalEncoding));
        };
        if is_there {
            self.open_type()?;
        }
        Ok(is_there)
    }

    fn end_addition(&mut self) -> Result<(), DecodeError> {
        go_on(self.failed.is_some())?;
        let Some(behind) = self.scopes.leave_addition() else {
            return Err(self.refuse(DecodeError::NotValidCanonicalEncoding));
        };
        match self.pass_over(Ending::OpenType(behind)) {
            Ok(()) => Ok(()),
            Err(error) => Err(self.lack(error)),
        }
    }

    fn begin_choice(&mut self, _tag: Tag, tables: &TagTables<'_>) -> Result<Chosen, DecodeError> {
        go_on(self.failed.is_some())?;
        if self.levels == 0 {
            return Err(self.refuse(DecodeError::ExceedsMaxParseDepth));
        }
        let alloc = self.scopes.allocator();
        let root_count = tables.roots().len();
        let extensible = tables.extensible();
        let added_count = tables.additions().len();
        let mut cursor = self.place.cursor();
        let answer = read_alternative_index(
            alloc,
            &mut cursor,
            self.rules,
            root_count,
            extensible,
            added_count,
        );
        let position = cursor.position();
        let chosen = self.settle(position, answer)?;
        if chosen.added {
            self.open_type()?;
            self.descend();
            return Ok(chosen);
        }
        self.enter_alternative()?;
        Ok(chosen)
    }

    #[inline(always)]
    fn end(&mut self) -> Result<(), DecodeError> {
        go_on(self.failed.is_some())?;
        if self.levels >= self.most {
            return Err(self.refuse(DecodeError::NotValidCanonicalEncoding));
        }
        let Some(ending) = self.scopes.leave() else {
            return Err(self.refuse(DecodeError::NotValidCanonicalEncoding));
        };
        match self.pass_over(ending) {
            Ok(()) => {
                self.levels += 1;
                Ok(())
            }
            Err(error) => Err(self.lack(error)),
        }
    }

    ghost one_record = { finds_one };

    ghost list_held = { finds_held };

    ghost bag_held = { finds_bag_held };

    ghost goes_on = { finds_on };

    ghost few_at_once = { at_once };

    ghost records_carried = { held_records };

    ghost values_carried = { held_values };

    ghost members_carried = { held_members };

    ghost none_after = { finds_none };

    ghost same_rules = { finds_same };
}
