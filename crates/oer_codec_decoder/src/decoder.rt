//! The decoder of OER, which finds the records of a value in octets.
ghost use Rattle.std.specs.Prelude.{◌≡◌, ◌+◌, ◌-◌, ◌<◌, ◌≤◌, ◌^◌, [], ◌∷◌, None, false, length, take, min, OnOk, OnErr};
ghost use Rattle.std.specs.Prelude.{IfErr, IfOk};
ghost use Rattle.asn1_schema_decode.specs.Reads.{NoRecord};
ghost use Rattle.asn1_schema_laws.specs.Records.{asks_one_of, one_of};
ghost use Rattle.oer_codec_held_laws.specs.Held.{Held, Finds, HasFailed, kind_of, state_of, IsReady};
ghost use Rattle.oer_codec_held_laws.specs.Few.{Empties, Keeps, TooFewHeld, lacks};
ghost use Rattle.oer_codec_decoder.specs.Missing.{StillNoChoice, StillTooShort};
ghost use Rattle.oer_codec_decoder.specs.Refusals.{NotOpened};
ghost use Rattle.oer_codec_decoder.specs.Scopes.{frame_of, scope_of};
ghost use Rattle.oer_codec_laws.specs.Takes.{Opens};
ghost use Rattle.oer_codec_reading.specs.Fronts.{freedoms};
ghost use Rattle.asn1_schema_errors.specs.Calls.{DecoderCall, SameLevel};

use crate::additions::read_additions;
use crate::choices::read_choice;
use crate::frames::{Enclosing, Frame};
use crate::members::read_members;
use crate::missing::{missing, missing_in_choice, size_of_bitmap, size_of_bits, size_of_number};
use crate::options::DecoderOptions;
use crate::preamble::read_preamble;
use crate::scopes::Scopes;
use asn1_schema_constraints::{Bounded, Constraints};
use asn1_schema_decode::{Decoder as _, go_on};
use asn1_schema_errors::{CodecKind, DecodeError};
use asn1_schema_forms::NumberForm;
use asn1_schema_tags::{Chosen, EnumerationItems, Tag, TagTables};
use asn1_values_alphabets::StaticPermittedAlphabet;
use asn1_values_bit_strings::BitString;
use asn1_values_identifiers::ObjectIdentifier;
use asn1_values_integers::IntegerType;
use oer_codec_reading::bit_string::read_bit_string;
use oer_codec_reading::boolean::{read_boolean, read_null};
use oer_codec_reading::integer::{read_in_form, read_integer};
use oer_codec_reading::object_identifier::read_object_identifier;
use oer_codec_reading::octet_string::read_octet_string;
use oer_codec_reading::{
    Cursor, EncodingRules, enter_open_type, read_characters, read_enumerated, read_utf8_string,
};
use std::alloc::Global;
use std::marker::Model;

/// A decoder of the octet encoding rules (X.696). It borrows octets from its input.
#[derive(Drop)]
pub struct Decoder<'input> {
    cursor: Cursor<'input>,
    scopes: Scopes<'input>,
    levels: usize,
    most: usize,
    failed: bool,
    // After an error, the number of octets that are missing at least, less one, without those of elements that are
    // still to come.
    short: usize,
    rules: EncodingRules,
}

impl<'input> Model for Decoder<'input> {
    ghost use Rattle.oer_codec_held_laws.specs.Held.{Held};

    ghost Value = { Held };

    ghost view = { λ d. record {
      octets = d.cursor;
      scopes = d.scopes;
      levels = d.levels;
      most = d.most;
      failed =
          d.failed;
      short = d.short;
      rules = d.rules;
    } };
}

impl<'input> Decoder<'input> {
    /// A decoder of this input by the rules of these options, with at most 128 nested levels. It looks at no more than
    /// the first 2^60 - 1 octets of the input.
    #[inline(always)]
    pub fn new(alloc: Global, input: &'input [u8], options: DecoderOptions) -> Self
        ensures { result ≡ record {
          octets = take (2 ^ 60 - 1) input.entry.now;
          scopes = [];
          levels = 128;
          most = 128;
          failed = false;
          short = 0;
          rules = options.rules;
        } }
    {
        Decoder {
            cursor: Cursor::new(input),
            scopes: Scopes::new(alloc),
            levels: 128,
            most: 128,
            failed: false,
            short: 0,
            rules: options.rules,
        }
    }

    /// The octets that are left.
    #[inline(always)]
    pub fn remaining(&self) -> &'input [u8]
        ensures { result.now ≡ self.now.octets }
    {
        self.cursor.remaining()
    }

    /// After an error, how many more octets are needed at least: one, plus the others that a string or an open type
    /// lacks, plus one for each element that is still to come in a SEQUENCE OF or SET OF outside open types. Saturates
    /// at 64 bits.
    #[cold]
    #[inline(never)]
    pub fn needed(&mut self) -> usize
        ensures { result ≡ min (lacks self.old + 1) (2 ^ 64 - 1) }
    {
        self.scopes
            .due()
            .saturating_add(self.short)
            .saturating_add(1)
    }

    // Fails for this reason: octets are missing, or do not have the required form. The scopes are kept, as they say how
    // many elements are missing as well.
    #[inline(always)]
    fn lack(&mut self, error: DecodeError) -> DecodeError
        ensures refused { result ≡ error }
        ensures failed { HasFailed self.new }
        ensures kept { Keeps 0 self.old self.new }
    {
        self.failed = true;
        self.short = 0;
        error
    }

    // As `lack`, if octets may be missing after these, of a fixed size, or of what a length determinant counts (X.696
    // 8.6). The decoder keeps how many.
    #[inline(always)]
    fn lack_octets(&mut self, octets: &[u8], size: Option<usize>, error: DecodeError) -> DecodeError
        ensures refused { result ≡ error }
        ensures failed { HasFailed self.new }
        ensures scopes { self.new.scopes ≡ self.old.scopes }
        ensures short { StillTooShort (freedoms self.old.rules) size octets.now self.new.short }
    {
        self.failed = true;
        self.short = missing(octets, self.rules, size);
        error
    }

    // As `lack`, if octets may be missing after these, of an added alternative of a choice (X.696 20).
    #[inline(always)]
    fn lack_choice(
        &mut self,
        octets: &[u8],
        tables: &TagTables<'_>,
        error: DecodeError,
    ) -> DecodeError
        ensures refused { result ≡ error }
        ensures failed { HasFailed self.new }
        ensures scopes { self.new.scopes ≡ self.old.scopes }
        ensures short { StillNoChoice (freedoms self.old.rules) tables.now.roots tables.now.extensible
            tables.now.additions octets.now self.new.short }
    {
        self.failed = true;
        self.short = missing_in_choice(octets, self.rules, tables);
        error
    }

    // Continues, unless the decoder has failed or no further level may be nested.
    #[inline(always)]
    fn begin_level(&mut self) -> Result<(), DecodeError>
        ensures ok { OnOk result (IsReady self.old × (self.new ≡ self.old)) }
        ensures level { OnOk result (0 < self.old.levels) }
        ensures only { IfErr result (λ _. 0 < self.old.levels → IsReady self.old → ⊥) }
        ensures after { IfErr result (λ e. e ≡ DecodeError.AlreadyFailed → HasFailed self.old) }
        ensures failed { OnErr result (HasFailed self.new) }
        ensures already { HasFailed self.old → result ≡ Err DecodeError.AlreadyFailed }
    {
        go_on(self.failed)?;
        if self.levels == 0 {
            return Err(self.refuse(DecodeError::ExceedsMaxParseDepth));
        }
        Ok(())
    }

    // Opens a scope, which takes a level.
    #[inline(always)]
    fn enter(&mut self, frame: Frame<'input>) -> Result<(), DecodeError>
        requires { 0 < self.old.levels }
        ensures levels { OnOk result (self.old.levels ≡ self.new.levels + 1) }
        ensures scopes { OnOk result (self.new ≡ record {
          octets = self.old.octets;
          scopes = scope_of frame.entry
              ∷ self.old.scopes;
          levels = self.new.levels;
          most = self.old.most;
          failed = self.old.failed;
          short = self.old.short;
          rules =
              self.old.rules;
        }) }
        ensures only { IfErr result (λ error. error ≡ DecodeError.OutOfMemory) }
        ensures failed { OnErr result (HasFailed self.new) }
    {
        let Ok(()) = self.scopes.open(frame) else {
            return Err(self.refuse(DecodeError::OutOfMemory));
        };
        self.levels -= 1;
        Ok(())
    }

    // Opens a scope that contains a single value, which takes a level.
    #[inline(always)]
    fn enter_enclosing(&mut self, enclosing: Enclosing<'input>) -> Result<(), DecodeError>
        requires { 0 < self.old.levels }
        ensures levels { OnOk result (self.old.levels ≡ self.new.levels + 1) }
        ensures scopes { OnOk result (self.new
            ≡ record {
              octets = self.old.octets;
              scopes = scope_of (frame_of enclosing.entry)
                  ∷ self.old.scopes;
              levels = self.new.levels;
              most = self.old.most;
              failed = self.old.failed;
              short = self.old.short;
              rules =
                  self.old.rules;
            }) }
        ensures only { IfErr result (λ error. error ≡ DecodeError.OutOfMemory) }
        ensures failed { OnErr result (HasFailed self.new) }
    {
        let Ok(()) = self.scopes.enclose(enclosing) else {
            return Err(self.refuse(DecodeError::OutOfMemory));
        };
        self.levels -= 1;
        Ok(())
    }

    // Opens the scope of an open type (X.696 30), which takes no level.
    #[inline(always)]
    fn open_type(&mut self) -> Result<(), DecodeError>
        ensures opens { OnOk result (Opens (freedoms self.old.rules) self.old.octets self.old.scopes
            (state_of self.new)) }
        ensures kept { OnOk result (self.new
            ≡ record {
              octets = self.new.octets;
              scopes = self.new.scopes;
              levels = self.old.levels;
              most =
                  self.old.most;
              failed = self.old.failed;
              short = self.old.short;
              rules = self.old.rules;
            }) }
        ensures only { IfErr result (NotOpened (freedoms self.old.rules) self.old.octets) }
        ensures short { IfErr result (λ e. ¬ (e ≡ DecodeError.OutOfMemory) → (self.new.scopes ≡ self.old.scopes)
            × StillTooShort (freedoms self.old.rules) None self.old.octets self.new.short) }
        ensures failed { OnErr result (HasFailed self.new) }
    {
        let octets = self.cursor.remaining();
        match enter_open_type(&mut self.cursor, self.rules) {
            Ok(behind) => {
                let Ok(()) = self.scopes.enclose(Enclosing::OpenType(behind)) else {
                    return Err(self.refuse(DecodeError::OutOfMemory));
                };
                Ok(())
            }
            Err(error) => Err(self.lack_octets(octets, None, error)),
        }
    }
}

// One call: `AlreadyFailed` after an error; otherwise the result of reading the record. The decoder fails with it.
macro_rules! record {
    ($decoder:ident, $read:expr) => {{
        go_on($decoder.failed)?;
        match $read {
            Ok(found) => Ok(found),
            Err(error) => Err($decoder.lack(error)),
        }
    }};
}

// As `record!`, for what has this number of octets or a length determinant: after an error the decoder keeps how many
// octets are missing.
macro_rules! string {
    ($decoder:ident, $size:expr, $read:expr) => {{
        go_on($decoder.failed)?;
        let octets = $decoder.cursor.remaining();
        match $read {
            Ok(found) => Ok(found),
            Err(error) => Err($decoder.lack_octets(octets, $size, error)),
        }
    }};
}

// As `record!`, for a call that opens a scope, which needs a free level.
macro_rules! scope {
    ($decoder:ident, $read:expr) => {{
        $decoder.begin_level()?;
        match $read {
            Ok(frame) => $decoder.enter(frame),
            Err(error) => Err($decoder.lack(error)),
        }
    }};
}

#[tactic(auto, using(crate::proofs::Refused::none_ready, crate::proofs::Refused::none_begun))]
impl<'input> asn1_schema_decode::Decoder for Decoder<'input> {
    ghost use Rattle.oer_codec_held_laws.proofs.Finds.{finds_one, finds_held, finds_bag_held, finds_none, finds_on};
    ghost use Rattle.oer_codec_held_laws.proofs.Finds.{finds_same};
    ghost use Rattle.oer_codec_held_laws.specs.Few.{TooFewMembersHeld};
    ghost use Rattle.oer_codec_held_laws.proofs.Carried.{at_once, held_records, held_values, held_members};
    ghost use Rattle.std.specs.Prelude.{⊤};

    type Octets = &'input [u8];

    ghost step = { Finds };

    ghost too_few = { TooFewHeld };

    ghost too_few_members = { TooFewMembersHeld };

    ghost has_failed = { HasFailed };

    ghost levels = { λ d. d.levels };

    ghost lends = { λ _ _ _. ⊤ };

    ghost rules = { λ d. kind_of d.rules };

    fn codec(&self) -> CodecKind {
        match self.rules {
            EncodingRules::Oer => CodecKind::Oer,
            EncodingRules::Coer => CodecKind::Coer,
        }
    }

    fn levels_left(&self) -> usize {
        self.levels
    }

    fn refuse(&mut self, error: DecodeError) -> DecodeError
        ensures refused { result ≡ error }
        ensures failed { HasFailed self.new }
        ensures emptied { Empties self.new }
    {
        self.failed = true;
        self.short = 0;
        self.scopes.clear();
        error
    }

    #[inline(always)]
    fn decode_bool(&mut self, _tag: Tag) -> Result<bool, DecodeError> {
        record!(self, read_boolean(&mut self.cursor, self.rules))
    }

    #[inline(always)]
    fn decode_null(&mut self, _tag: Tag) -> Result<(), DecodeError> {
        record!(self, read_null(&mut self.cursor, self.rules))
    }

    #[inline(always)]
    fn decode_integer<I: IntegerType>(
        &mut self,
        alloc: Global,
        _tag: Tag,
        constraints: &Constraints,
    ) -> Result<I, DecodeError> {
        string!(
            self,
            size_of_number(constraints),
            read_integer(alloc, &mut self.cursor, self.rules, constraints)
        )
    }

    #[inline(always)]
    fn decode_number(&mut self, _alloc: Global, form: &NumberForm) -> Result<i128, DecodeError> {
        string!(
            self,
            Some(usize::from(form.octets())),
            read_in_form(&mut self.cursor, self.rules, form)
        )
    }

    #[inline(always)]
    fn decode_item_of<I: EnumerationItems>(
        &mut self,
        _tag: Tag,
        items: &I,
    ) -> Result<I::Item, DecodeError>
        ensures ok { IfOk result (λ x. Finds self.old
            (one_of (I.roots items.now) (I.extensible items.now) (I.additions items.now) (I.number x)) self.new) }
        ensures only { IfErr result (NoRecord Finds TooFewHeld
            (asks_one_of (I.roots items.now) (I.extensible items.now) (I.additions items.now)) self.old self.new) }
        ensures call { DecoderCall HasFailed (SameLevel (λ s. s.levels)) self.old self.new result }
    {
        record!(self, read_enumerated(&mut self.cursor, self.rules, items))
    }

    fn decode_bit_string(
        &mut self,
        alloc: Global,
        _tag: Tag,
        constraints: &Constraints,
        held: Bounded<usize>,
    ) -> Result<BitString, DecodeError> {
        string!(
            self,
            size_of_bits(constraints.sizes().fixed()),
            read_bit_string(alloc, &mut self.cursor, self.rules, constraints, held)
        )
    }

    /// The octets are contiguous in the input (X.696 14), and are borrowed from it.
    #[inline(always)]
    fn decode_octet_string(
        &mut self,
        _alloc: Global,
        _tag: Tag,
        constraints: &Constraints,
        held: Bounded<usize>,
    ) -> Result<&'input [u8], DecodeError> {
        string!(
            self,
            constraints.sizes().fixed(),
            read_octet_string(&mut self.cursor, self.rules, constraints, held)
        )
    }

    fn decode_utf8_string(
        &mut self,
        alloc: Global,
        _tag: Tag,
        constraints: &Constraints,
    ) -> Result<String, DecodeError> {
        string!(
            self,
            constraints.sizes().fixed(),
            read_utf8_string(alloc, &mut self.cursor, self.rules, constraints)
        )
    }

    #[inline(always)]
    fn decode_characters<S: StaticPermittedAlphabet>(
        &mut self,
        alloc: Global,
        _tag: Tag,
        constraints: &Constraints,
    ) -> Result<S, DecodeError> {
        string!(
            self,
            constraints.sizes().fixed(),
            read_characters(alloc, &mut self.cursor, self.rules, constraints)
        )
    }

    fn decode_object_identifier(
        &mut self,
        alloc: Global,
        _tag: Tag,
    ) -> Result<ObjectIdentifier, DecodeError> {
        string!(
            self,
            None,
            read_object_identifier(alloc, &mut self.cursor, self.rules)
        )
    }

    #[inline(always)]
    fn begin_list(
        &mut self,
        _tag: Tag,
        _constraints: &Constraints,
        held: Bounded<usize>,
    ) -> Result<(), DecodeError> {
        scope!(self, read_members(&mut self.cursor, self.rules, held))
    }

    #[inline(always)]
    fn begin_bag(
        &mut self,
        _tag: Tag,
        _constraints: &Constraints,
        held: Bounded<usize>,
    ) -> Result<(), DecodeError> {
        scope!(self, read_members(&mut self.cursor, self.rules, held))
    }

    #[inline(always)]
    fn get_further(&mut self) -> Result<bool, DecodeError> {
        go_on(self.failed)?;
        match self.scopes.next_member() {
            Some(more) => Ok(more),
            None => Err(self.refuse(DecodeError::NotValidCanonicalEncoding)),
        }
    }

    #[inline(always)]
    fn begin_sequence(
        &mut self,
        _tag: Tag,
        extensible: bool,
        optional: usize,
    ) -> Result<(), DecodeError> {
        scope!(self, read_preamble(&mut self.cursor, extensible, optional))
    }

    #[inline(always)]
    fn begin_set(
        &mut self,
        _tag: Tag,
        extensible: bool,
        optional: usize,
    ) -> Result<(), DecodeError> {
        scope!(self, read_preamble(&mut self.cursor, extensible, optional))
    }

    #[inline(always)]
    fn begin_group(&mut self, optional: usize) -> Result<(), DecodeError> {
        scope!(self, read_preamble(&mut self.cursor, false, optional))
    }

    #[inline(always)]
    fn get_presence_bit(&mut self) -> Result<bool, DecodeError> {
        go_on(self.failed)?;
        match self.scopes.next_presence_bit() {
            Some(present) => Ok(present),
            None => Err(self.refuse(DecodeError::NotValidCanonicalEncoding)),
        }
    }

    fn note_default(&mut self) -> Result<(), DecodeError> {
        go_on(self.failed)?;
        match self.rules {
            EncodingRules::Oer => Ok(()),
            EncodingRules::Coer => Err(self.refuse(DecodeError::NotValidCanonicalEncoding)),
        }
    }

    fn note_empty(&mut self) -> Result<(), DecodeError> {
        go_on(self.failed)?;
        if self.rules.is_coer() {
            return Err(self.refuse(DecodeError::NotValidCanonicalEncoding));
        }
        Ok(())
    }

    #[inline(always)]
    fn begin_additions(&mut self, count: usize) -> Result<(), DecodeError> {
        go_on(self.failed)?;
        let Some(is_extended) = self.scopes.extension_bit() else {
            return Err(self.refuse(DecodeError::NotValidCanonicalEncoding));
        };
        let octets = self.cursor.remaining();
        match read_additions(&mut self.cursor, self.rules, is_extended, count) {
            Ok(additions) => {
                self.scopes.replace(Frame::Added(additions));
                Ok(())
            }
            Err(error) => Err(self.lack_octets(octets, size_of_bitmap(is_extended), error)),
        }
    }

    #[inline(always)]
    fn get_addition(&mut self) -> Result<bool, DecodeError> {
        go_on(self.failed)?;
        let Some(present) = self.scopes.next_addition() else {
            return Err(self.refuse(DecodeError::NotValidCanonicalEncoding));
        };
        if present {
            self.open_type()?;
        }
        Ok(present)
    }

    #[inline(always)]
    fn end_addition(&mut self) -> Result<(), DecodeError> {
        go_on(self.failed)?;
        match self.scopes.close_addition(&mut self.cursor, self.rules) {
            Ok(()) => Ok(()),
            Err(error) => Err(self.refuse(error)),
        }
    }

    #[inline(always)]
    fn begin_choice(&mut self, _tag: Tag, tables: &TagTables<'_>) -> Result<Chosen, DecodeError> {
        self.begin_level()?;
        let octets = self.cursor.remaining();
        match read_choice(&mut self.cursor, self.rules, tables) {
            Ok((chosen, enclosing)) => {
                self.enter_enclosing(enclosing)?;
                Ok(chosen)
            }
            Err(error) => Err(self.lack_choice(octets, tables, error)),
        }
    }

    #[inline(always)]
    fn end(&mut self) -> Result<(), DecodeError> {
        go_on(self.failed)?;
        if self.levels >= self.most {
            return Err(self.refuse(DecodeError::NotValidCanonicalEncoding));
        }
        match self.scopes.close(&mut self.cursor, self.rules) {
            Ok(()) => {
                self.levels += 1;
                Ok(())
            }
            Err(error) => Err(self.lack(error)),
        }
    }

    ghost one_record = { finds_one };

    ghost list_held = { finds_held };

    ghost bag_held = { finds_bag_held };

    ghost goes_on = { finds_on };

    ghost few_at_once = { at_once };

    ghost records_carried = { held_records };

    ghost values_carried = { held_values };

    ghost members_carried = { held_members };

    ghost none_after = { finds_none };

    ghost same_rules = { finds_same };
}
