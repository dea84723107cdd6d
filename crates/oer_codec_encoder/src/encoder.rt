//! The encoder.
ghost use Rattle.std.specs.Prelude.{◌≡◌, OnOk, OnErr, IfErr, [], true, false};
ghost use Rattle.asn1_schema_encode.specs.Writes.{Refused};
ghost use Rattle.asn1_schema_laws.specs.Records.{one_of};
ghost use Rattle.oer_codec_encoder.specs.Stepping.{Puts};
ghost use Rattle.asn1_schema_errors.specs.Calls.{EncoderCall};

use crate::additions::{begin_additions, encode_addition, end_addition};
use crate::alternatives::begin_choice;
use crate::bags::begin_bag;
use crate::frames::Frames;
use crate::options::EncoderOptions;
use crate::sequences::{begin_components, begin_members, encode_presence_bit};
use asn1_schema_constraints::{Bounded, Constraints};
use asn1_schema_encode::{begin_record, go_on};
use asn1_schema_errors::{CodecKind, EncodeError};
use asn1_schema_forms::NumberForm;
use asn1_schema_tags::{Chosen, EnumerationItems, Identifier, Tag};
use asn1_values_alphabets::StaticPermittedAlphabet;
use asn1_values_bits::BitStr;
use asn1_values_identifiers::Oid;
use asn1_values_integers::IntegerType;
use oer_codec_writing::{
    push_bit_string, push_boolean, push_characters, push_enumerated, push_identifier, push_in_form,
    push_integer, push_octet_string, push_utf8,
};
use std::alloc::Global;
use std::marker::Model;
use std::mem;

/// Encodes values in COER (X.696) into one buffer.
///
/// Everything is written to the buffer directly, also the octets of additions, after their presence bitmap. Only the
/// elements of a SET OF are written apart, since their order is known at its end. Octets that were in the buffer when
/// the encoder began never change.
#[derive(Drop)]
pub struct Encoder<'buffer> {
    output: &'buffer mut Vec<u8>,
    frames: Frames,
    failed: bool,
    /// The length of the buffer when the encoder began.
    start: usize,
    alloc: Global,
}

impl<'buffer> Model for Encoder<'buffer> {
    ghost use Rattle.std.specs.Prelude.{◌≡◌, false, take};
    ghost use Rattle.oer_codec_encoder.specs.Stepping.{Written};

    ghost Value = { Written };

    ghost use Rattle.oer_codec_encoder.specs.EarlierOctets.{ground, Stands};
    ghost use Rattle.oer_codec_encoder.specs.Holding.{shown};

    ghost view = { λ e. record {
      state = shown e.frames e.output.now.items;
      failed = e.failed;
      front = take e.start (ground e.frames e.output.now.items);
    } };

    ghost invariant = { λ e. e.failed ≡ false → Stands e.frames e.output.now.items e.start };
}

impl<'buffer> Encoder<'buffer> {
    /// An encoder that appends to the buffer. It does not allocate.
    ///
    /// The worker is not used. It is a parameter so that calls look like those of encoders that write additions
    /// apart.
    #[inline]
    pub fn from_buffer(
        alloc: Global,
        _options: EncoderOptions,
        output: &'buffer mut Vec<u8>,
        _worker: &'buffer mut Vec<u8>,
    ) -> Self
        ensures { result ≡ record {
          state = (output.entry.now.items, []);
          failed = false;
          front = output.entry.now.items;
        } }
    {
        let start = output.len();
        Encoder {
            output,
            frames: Frames::new(alloc),
            failed: false,
            start,
            alloc,
        }
    }

    /// Takes the contents of the buffer, and leaves it empty.
    #[inline(always)]
    pub fn output(&mut self) -> Vec<u8>
        ensures octets { self.old.failed ≡ false → self.old.state.1 ≡ [] → result.items ≡ self.old.state.0 }
        ensures none { self.new ≡ record { state = ([], []); failed = self.old.failed; front = [] } }
    {
        self.frames.clear();
        self.start = 0;
        mem::replace(self.output, Vec::new(self.alloc))
    }

    /// Takes the contents of the buffer as `output` does, after it drops what is open.
    #[inline(always)]
    pub fn into_output(self) -> Vec<u8>
        ensures octets { self.entry.failed ≡ false → self.entry.state.1 ≡ [] → result.items ≡ self.entry.state.0 }
    {
        let Encoder {
            output,
            frames,
            alloc,
            ..
        } = self;
        frames.let_go();
        mem::replace(output, Vec::new(alloc))
    }

    /// Takes the octets that were in the buffer when the encoder began, and leaves it empty. What the encoder wrote
    /// is discarded.
    pub fn into_front(self) -> Vec<u8>
        ensures { result.items ≡ self.entry.front }
    {
        let Encoder {
            output,
            mut frames,
            start,
            alloc,
            ..
        } = self;
        frames.bring_back(output);
        output.truncate(start);
        mem::replace(output, Vec::new(alloc))
    }
}

// One call: `AlreadyFailed` if an earlier call failed, else what its record writes. After an error the encoder has
// failed.
macro_rules! record {
    ($encoder:ident, $written:expr) => {{
        begin_record(&mut $encoder.failed)?;
        $written?;
        $encoder.failed = false;
        Ok(())
    }};
}

impl<'buffer> asn1_schema_encode::Encoder for Encoder<'buffer> {
    ghost use Rattle.oer_codec_encoder.specs.Laws.{puts_one, puts_none, puts_on, puts_same};
    ghost use Rattle.asn1_schema_errors.specs.declared.CodecKind.TheVariants.{Coer};

    ghost step = { Puts };

    ghost has_failed = { λ e. e.failed ≡ true };

    ghost front = { λ e. e.front };

    ghost rules = { λ e. Coer };

    fn codec(&self) -> CodecKind {
        CodecKind::Coer
    }

    #[inline(always)]
    fn encode_bool(
        &mut self,
        _tag: Tag,
        value: bool,
        _identifier: Identifier,
    ) -> Result<(), EncodeError> {
        record!(self, push_boolean(self.output, value))
    }

    #[inline(always)]
    fn encode_null(&mut self, _tag: Tag, _identifier: Identifier) -> Result<(), EncodeError> {
        go_on(self.failed)?;
        Ok(())
    }

    #[inline(always)]
    fn encode_integer<I: IntegerType>(
        &mut self,
        _tag: Tag,
        constraints: &Constraints,
        value: &I,
        _identifier: Identifier,
    ) -> Result<(), EncodeError> {
        record!(self, push_integer(self.output, constraints, value))
    }

    #[inline(always)]
    fn encode_number(&mut self, form: &NumberForm, number: i128) -> Result<(), EncodeError> {
        record!(self, push_in_form(self.output, form, number))
    }

    fn encode_item_of<I: EnumerationItems>(
        &mut self,
        _tag: Tag,
        items: &I,
        item: &I::Item,
        _identifier: Identifier,
    ) -> Result<(), EncodeError>
        ensures ok { OnOk result (Puts self.old
            (one_of (I.roots items.now) (I.extensible items.now) (I.additions items.now) (I.number item.now))
            self.new) }
        ensures only { IfErr result (Refused Puts
            (one_of (I.roots items.now) (I.extensible items.now) (I.additions items.now) (I.number item.now))
            self.old) }
        ensures call { EncoderCall (λ s. s.failed ≡ true) (λ s. s.front) self.old self.new result }
    {
        record!(self, push_enumerated(self.output, items, item))
    }

    fn encode_bit_string(
        &mut self,
        _tag: Tag,
        constraints: &Constraints,
        held: Bounded<usize>,
        value: BitStr,
        _identifier: Identifier,
    ) -> Result<(), EncodeError> {
        record!(self, push_bit_string(self.output, constraints, held, value))
    }

    #[inline(always)]
    fn encode_octet_string(
        &mut self,
        _tag: Tag,
        constraints: &Constraints,
        held: Bounded<usize>,
        value: &[u8],
        _identifier: Identifier,
    ) -> Result<(), EncodeError> {
        record!(
            self,
            push_octet_string(self.output, constraints, held, value)
        )
    }

    fn encode_utf8_string(
        &mut self,
        _tag: Tag,
        constraints: &Constraints,
        value: &str,
        _identifier: Identifier,
    ) -> Result<(), EncodeError> {
        record!(self, push_utf8(self.output, constraints, value))
    }

    #[inline(always)]
    fn encode_characters<S: StaticPermittedAlphabet>(
        &mut self,
        _tag: Tag,
        constraints: &Constraints,
        value: &S,
        _identifier: Identifier,
    ) -> Result<(), EncodeError> {
        record!(self, push_characters(self.output, constraints, value))
    }

    fn encode_object_identifier(
        &mut self,
        _tag: Tag,
        value: Oid,
        _identifier: Identifier,
    ) -> Result<(), EncodeError> {
        record!(self, push_identifier(self.output, &value))
    }

    #[inline(always)]
    fn begin_list(
        &mut self,
        _tag: Tag,
        constraints: &Constraints,
        held: Bounded<usize>,
        count: usize,
    ) -> Result<(), EncodeError> {
        record!(
            self,
            begin_members(self.output, &mut self.frames, constraints, held, count)
        )
    }

    #[inline(always)]
    fn begin_bag(
        &mut self,
        _tag: Tag,
        constraints: &Constraints,
        held: Bounded<usize>,
        count: usize,
    ) -> Result<(), EncodeError> {
        record!(
            self,
            begin_bag(
                self.output,
                &mut self.frames,
                self.alloc,
                constraints,
                held,
                count,
            )
        )
    }

    #[inline(always)]
    fn encode_further(&mut self, more: bool) -> Result<(), EncodeError> {
        record!(
            self,
            self.frames.encode_further(self.output, self.alloc, more)
        )
    }

    #[inline(always)]
    fn begin_sequence(
        &mut self,
        _tag: Tag,
        extensible: bool,
        optional: usize,
    ) -> Result<(), EncodeError> {
        record!(
            self,
            begin_components(self.output, &mut self.frames, extensible, optional)
        )
    }

    #[inline(always)]
    fn begin_set(
        &mut self,
        _tag: Tag,
        extensible: bool,
        optional: usize,
    ) -> Result<(), EncodeError> {
        record!(
            self,
            begin_components(self.output, &mut self.frames, extensible, optional)
        )
    }

    #[inline(always)]
    fn begin_group(&mut self, optional: usize) -> Result<(), EncodeError> {
        record!(
            self,
            begin_components(self.output, &mut self.frames, false, optional)
        )
    }

    #[inline(always)]
    fn encode_presence_bit(&mut self, present: bool) -> Result<(), EncodeError> {
        record!(
            self,
            encode_presence_bit(self.output, &mut self.frames, present)
        )
    }

    #[inline(always)]
    fn begin_additions(&mut self, count: usize) -> Result<(), EncodeError> {
        record!(self, begin_additions(self.output, &mut self.frames, count))
    }

    #[inline(always)]
    fn encode_addition(&mut self, present: bool) -> Result<(), EncodeError> {
        record!(
            self,
            encode_addition(self.output, &mut self.frames, present)
        )
    }

    #[inline(always)]
    fn end_addition(&mut self) -> Result<(), EncodeError> {
        record!(
            self,
            end_addition(self.output, &mut self.frames, self.alloc)
        )
    }

    #[inline(always)]
    fn begin_choice(
        &mut self,
        _tag: Tag,
        roots: &[Tag],
        extensible: bool,
        additions: &[Tag],
        chosen: Chosen,
    ) -> Result<(), EncodeError> {
        record!(
            self,
            begin_choice(
                self.output,
                &mut self.frames,
                roots,
                extensible,
                additions,
                chosen,
            )
        )
    }

    #[inline(always)]
    fn end(&mut self) -> Result<(), EncodeError> {
        record!(self, self.frames.end_innermost(self.output, self.alloc))
    }

    ghost one_after = { puts_one };

    ghost none_after = { puts_none };

    ghost goes_on = { puts_on };

    ghost same_rules = { puts_same };
}
