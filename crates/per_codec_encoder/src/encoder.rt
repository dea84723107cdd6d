//! The encoder.
ghost use Rattle.std.specs.Prelude.{◌≡◌, OnOk, OnErr, IfOk, IfErr, MatchResult, [], Some, true, false};
ghost use Rattle.asn1_schema_encode.specs.EarlierOctets.{no_front};
ghost use Rattle.asn1_schema_encode.specs.Writes.{Refused};
ghost use Rattle.asn1_schema_laws.specs.Records.{one_of};
ghost use Rattle.per_codec_packing.specs.FieldLists.{as_field_list};
ghost use Rattle.per_codec_encoder.specs.Ties.{octets_of};
ghost use Rattle.per_codec_encoder.specs.Stepping.{Puts, variant_of};
ghost use Rattle.per_codec_rules.specs.Variants.{is_aligned};
ghost use Rattle.asn1_schema_errors.specs.Calls.{EncoderCall};

use crate::additions::{encode_addition, end_addition};
use crate::alternatives::begin_alternative;
use crate::bags::begin_bag;
use crate::ends::end_scope;
use crate::frames::Frames;
use crate::members::begin_members;
use crate::options::EncoderOptions;
use crate::sequences::begin_components;
use asn1_schema_constraints::{Bounded, Constraints};
use asn1_schema_encode::{begin_record, go_on};
use asn1_schema_errors::{CodecKind, EncodeError};
use asn1_schema_forms::NumberForm;
use asn1_schema_tags::{Chosen, EnumerationItems, Identifier, Tag};
use asn1_values_alphabets::StaticPermittedAlphabet;
use asn1_values_bits::{BitBuffer, BitStr};
use asn1_values_identifiers::Oid;
use asn1_values_integers::IntegerType;
use per_codec_packing::Packing;
use per_codec_rules::Variant;
use per_codec_writing::{
    push_bit_string, push_boolean, push_characters, push_enumerated, push_identifier, push_in_form,
    push_integer, push_octet_string, push_utf8,
};
use std::alloc::Global;
use std::marker::Model;
use std::mem;

/// Encodes values in canonical PER (X.691), unaligned or aligned, into one buffer.
#[derive(Drop)]
pub struct Encoder {
    output: Packing,
    frames: Frames,
    variant: Variant,
    failed: bool,
    alloc: Global,
}

impl Model for Encoder {
    ghost use Rattle.std.specs.Prelude.{◌≡◌, false};
    ghost use Rattle.per_codec_encoder.specs.Stepping.{Written};
    ghost use Rattle.per_codec_rules.specs.Variants.{is_aligned};

    ghost Value = { Written };

    ghost use Rattle.per_codec_encoder.specs.Holding.{shown, Holds};

    ghost view = { λ e. record {
      state = shown e.frames e.output;
      aligned = is_aligned e.variant;
      failed = e.failed;
    } };

    ghost invariant = { λ e. e.failed ≡ false → Holds e.frames e.output (shown e.frames e.output) };
}

/// The octets of a message: its bits padded with zero bits to whole octets, or one zero octet if there are no bits
/// (X.691 11.1).
#[inline(always)]
fn message(bits: BitBuffer) -> Result<Vec<u8>, EncodeError>
    ensures { MatchResult result (λ octets. octets_of (as_field_list bits, []) ≡ Some octets.items)
        (λ e. (e ≡ EncodeError.OutOfMemory) × (bits ≡ [])) }
{
    if bits.is_empty() {
        let mut octets = bits.into_vec();
        octets.push(0)?;
        return Ok(octets);
    }
    Ok(bits.into_vec())
}

impl Encoder {
    /// An empty encoder. It does not allocate before the first call.
    pub fn new(alloc: Global, options: EncoderOptions) -> Self
        ensures { result ≡ record { state = ([], []); aligned = is_aligned (variant_of options); failed = false } }
    {
        Encoder {
            output: Packing::new(alloc),
            frames: Frames::new(alloc),
            variant: options.variant(),
            failed: false,
            alloc,
        }
    }

    /// An empty encoder that clears the buffer of `output` and reuses it.
    #[inline(always)]
    pub fn new_with_output(alloc: Global, options: EncoderOptions, output: Vec<u8>) -> Self
        ensures { result ≡ record { state = ([], []); aligned = is_aligned (variant_of options); failed = false } }
    {
        Encoder {
            output: Packing::from_octets(output),
            frames: Frames::new(alloc),
            variant: options.variant(),
            failed: false,
            alloc,
        }
    }

    /// Takes the octets of the message (X.691 11.1), at least one, and leaves nothing. Only the one octet of a
    /// message without bits may need an allocation.
    ///
    /// # Errors
    ///
    /// `OutOfMemory` if that octet cannot be allocated.
    #[inline(always)]
    pub fn output(&mut self) -> Result<Vec<u8>, EncodeError>
        ensures octets { IfOk result (λ octets. self.old.failed ≡ false → self.old.state.1 ≡ []
            → octets_of self.old.state ≡ Some octets.items) }
        ensures only { IfErr result (λ e. e ≡ EncodeError.OutOfMemory) }
        ensures bare { OnErr result (self.old.failed ≡ false → self.old.state.1 ≡ [] → self.old.state.0 ≡ []) }
        ensures none { self.new ≡ record { state = ([], []); aligned = self.old.aligned; failed = self.old.failed } }
    {
        self.frames.clear();
        let bits = mem::replace(&mut self.output, Packing::new(self.alloc)).into_bits();
        message(bits)
    }

    /// Takes the octets of the message (X.691 11.1), at least one, as `output` does, after it drops what is open.
    ///
    /// # Errors
    ///
    /// Those of `output`.
    #[inline(always)]
    pub fn output_into_vec(self) -> Result<Vec<u8>, EncodeError>
        ensures octets { IfOk result (λ octets. self.failed ≡ false → self.state.1 ≡ []
            → octets_of self.state ≡ Some octets.items) }
        ensures only { IfErr result (λ e. e ≡ EncodeError.OutOfMemory) }
        ensures bare { OnErr result (self.failed ≡ false → self.state.1 ≡ [] → self.state.0 ≡ []) }
    {
        let Encoder { output, frames, .. } = self;
        frames.let_go();
        message(output.into_bits())
    }
}

// One call: `AlreadyFailed` if an earlier call failed, else what its record writes. After an error the encoder has
// failed.
macro_rules! record {
    ($encoder:ident, $written:expr) => {{
        begin_record(&mut $encoder.failed)?;
        $written?;
        $encoder.failed = false;
        Ok(())
    }};
}

impl asn1_schema_encode::Encoder for Encoder {
    ghost use Rattle.per_codec_encoder.specs.Laws.{puts_none, puts_on, puts_one, puts_same};
    ghost use Rattle.per_codec_encoder.specs.Stepping.{rules_of};

    ghost step = { Puts };

    ghost has_failed = { λ e. e.failed ≡ true };

    ghost front = { no_front };

    ghost rules = { λ e. rules_of e.aligned };

    fn codec(&self) -> CodecKind {
        match self.variant {
            Variant::Aligned => CodecKind::Aper,
            Variant::Unaligned => CodecKind::Uper,
        }
    }

    #[inline(always)]
    fn encode_bool(
        &mut self,
        _tag: Tag,
        value: bool,
        _identifier: Identifier,
    ) -> Result<(), EncodeError> {
        record!(self, push_boolean(&mut self.output, self.variant, value))
    }

    #[inline(always)]
    fn encode_null(&mut self, _tag: Tag, _identifier: Identifier) -> Result<(), EncodeError> {
        go_on(self.failed)?;
        Ok(())
    }

    #[inline(always)]
    fn encode_integer<I: IntegerType>(
        &mut self,
        _tag: Tag,
        constraints: &Constraints,
        value: &I,
        _identifier: Identifier,
    ) -> Result<(), EncodeError> {
        record!(
            self,
            push_integer(&mut self.output, self.variant, constraints, value)
        )
    }

    #[inline(always)]
    fn encode_number(&mut self, form: &NumberForm, number: i128) -> Result<(), EncodeError> {
        record!(
            self,
            push_in_form(&mut self.output, self.variant, form, number)
        )
    }

    fn encode_item_of<I: EnumerationItems>(
        &mut self,
        _tag: Tag,
        items: &I,
        item: &I::Item,
        _identifier: Identifier,
    ) -> Result<(), EncodeError>
        ensures ok { OnOk result (Puts self.old
            (one_of (I.roots items.now) (I.extensible items.now) (I.additions items.now) (I.number item.now))
            self.new) }
        ensures only { IfErr result (Refused Puts
            (one_of (I.roots items.now) (I.extensible items.now) (I.additions items.now) (I.number item.now))
            self.old) }
        ensures call { EncoderCall (λ s. s.failed ≡ true) no_front self.old self.new result }
    {
        record!(
            self,
            push_enumerated(&mut self.output, self.variant, items, item)
        )
    }

    #[inline(always)]
    fn encode_bit_string(
        &mut self,
        _tag: Tag,
        constraints: &Constraints,
        held: Bounded<usize>,
        value: BitStr,
        _identifier: Identifier,
    ) -> Result<(), EncodeError> {
        record!(
            self,
            push_bit_string(&mut self.output, self.variant, constraints, held, value)
        )
    }

    #[inline(always)]
    fn encode_octet_string(
        &mut self,
        _tag: Tag,
        constraints: &Constraints,
        held: Bounded<usize>,
        value: &[u8],
        _identifier: Identifier,
    ) -> Result<(), EncodeError> {
        record!(
            self,
            push_octet_string(&mut self.output, self.variant, constraints, held, value)
        )
    }

    #[inline(always)]
    fn encode_utf8_string(
        &mut self,
        _tag: Tag,
        constraints: &Constraints,
        value: &str,
        _identifier: Identifier,
    ) -> Result<(), EncodeError> {
        record!(
            self,
            push_utf8(&mut self.output, self.variant, constraints, value)
        )
    }

    #[inline(always)]
    fn encode_characters<S: StaticPermittedAlphabet>(
        &mut self,
        _tag: Tag,
        constraints: &Constraints,
        value: &S,
        _identifier: Identifier,
    ) -> Result<(), EncodeError> {
        record!(
            self,
            push_characters(
                &mut self.output,
                self.variant,
                self.alloc,
                constraints,
                value,
            )
        )
    }

    fn encode_object_identifier(
        &mut self,
        _tag: Tag,
        value: Oid,
        _identifier: Identifier,
    ) -> Result<(), EncodeError> {
        record!(
            self,
            push_identifier(&mut self.output, self.variant, self.alloc, &value)
        )
    }

    #[inline(always)]
    fn begin_list(
        &mut self,
        _tag: Tag,
        constraints: &Constraints,
        held: Bounded<usize>,
        count: usize,
    ) -> Result<(), EncodeError> {
        record!(
            self,
            begin_members(
                &mut self.output,
                &mut self.frames,
                self.variant,
                constraints.sizes(),
                held,
                count,
            )
        )
    }

    #[inline(always)]
    fn begin_bag(
        &mut self,
        _tag: Tag,
        constraints: &Constraints,
        held: Bounded<usize>,
        count: usize,
    ) -> Result<(), EncodeError> {
        record!(
            self,
            begin_bag(
                &mut self.output,
                &mut self.frames,
                self.alloc,
                constraints.sizes(),
                held,
                count,
            )
        )
    }

    #[inline(always)]
    fn encode_further(&mut self, more: bool) -> Result<(), EncodeError> {
        record!(
            self,
            self.frames
                .encode_further(&mut self.output, self.alloc, self.variant, more)
        )
    }

    #[inline(always)]
    fn begin_sequence(
        &mut self,
        _tag: Tag,
        extensible: bool,
        optional: usize,
    ) -> Result<(), EncodeError> {
        record!(
            self,
            begin_components(&mut self.output, &mut self.frames, extensible, optional)
        )
    }

    #[inline(always)]
    fn begin_set(
        &mut self,
        _tag: Tag,
        extensible: bool,
        optional: usize,
    ) -> Result<(), EncodeError> {
        record!(
            self,
            begin_components(&mut self.output, &mut self.frames, extensible, optional)
        )
    }

    #[inline(always)]
    fn begin_group(&mut self, optional: usize) -> Result<(), EncodeError> {
        record!(
            self,
            begin_components(&mut self.output, &mut self.frames, false, optional)
        )
    }

    #[inline(always)]
    fn encode_presence_bit(&mut self, present: bool) -> Result<(), EncodeError> {
        record!(
            self,
            self.frames.encode_presence_bit(&mut self.output, present)
        )
    }

    #[inline(always)]
    fn begin_additions(&mut self, count: usize) -> Result<(), EncodeError> {
        record!(
            self,
            self.frames.begin_additions(&self.output, self.alloc, count)
        )
    }

    #[inline(always)]
    fn encode_addition(&mut self, present: bool) -> Result<(), EncodeError> {
        record!(
            self,
            encode_addition(&mut self.output, &mut self.frames, self.alloc, present)
        )
    }

    #[inline(always)]
    fn end_addition(&mut self) -> Result<(), EncodeError> {
        record!(self, end_addition(&mut self.output, &mut self.frames))
    }

    #[inline(always)]
    fn begin_choice(
        &mut self,
        _tag: Tag,
        roots: &[Tag],
        extensible: bool,
        additions: &[Tag],
        chosen: Chosen,
    ) -> Result<(), EncodeError> {
        record!(
            self,
            begin_alternative(
                &mut self.output,
                &mut self.frames,
                self.alloc,
                self.variant,
                roots.len(),
                extensible,
                chosen,
            )
        )
    }

    #[inline(always)]
    fn end(&mut self) -> Result<(), EncodeError> {
        record!(
            self,
            end_scope(&mut self.output, &mut self.frames, self.alloc, self.variant)
        )
    }

    ghost one_after = { puts_one };

    ghost none_after = { puts_none };

    ghost goes_on = { puts_on };

    ghost same_rules = { puts_same };
}
