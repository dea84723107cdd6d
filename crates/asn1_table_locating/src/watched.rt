//! A decoder that is watched: where each call of it begins.
ghost use Rattle.std.specs.Prelude.{◌≡◌};

use crate::standing::Standing;
use asn1_schema_constraints::{Bounded, Constraints};
use asn1_schema_decode::Decoder;
use asn1_schema_errors::{CodecKind, DecodeError};
use asn1_schema_tags::{Chosen, EnumerationItems, Tag, TagTables};
use asn1_values_alphabets::StaticPermittedAlphabet;
use asn1_values_bit_strings::BitString;
use asn1_values_identifiers::ObjectIdentifier;
use asn1_values_integers::IntegerType;
use std::alloc::Global;
use std::marker::Model;

/// What has begun and not ended.
#[derive(Clone, Copy)]
enum Around {
    /// A value with parts.
    Value,
    /// An open type; the place at which what is around it ends, if that is known.
    OpenType(Option<usize>),
}

/// Notes of where calls begin. Places in the message are bits, from 0.
#[derive(Drop)]
struct Notes {
    alloc: Global,
    /// A copy of the message: a type argument of `read_onto` may name one lifetime, which is the decoder's.
    message: Vec<u8>,
    /// Where the last call began.
    from: usize,
    /// Where the message ends, or the innermost open type; none inside an open type whose octets are not together.
    end: Option<usize>,
    outer: Vec<Around>,
    /// Memory for `outer` ran out.
    is_lost: bool,
    /// The last call said that a component is equal to its default.
    is_noting: bool,
}

impl Notes {
    /// What begins is kept.
    fn begin(&mut self, around: Around) {
        if self.outer.push(around).is_err() {
            self.is_lost = true;
            self.end = None;
        }
    }

    /// An open type begins, and ends at a place, if that is known.
    fn open(&mut self, end: Option<usize>) {
        self.begin(Around::OpenType(self.end));
        if !self.is_lost {
            self.end = end;
        }
    }

    /// What began last ends.
    fn leave(&mut self) {
        if self.is_lost {
            return;
        }
        if let Some(Around::OpenType(end)) = self.outer.pop() {
            self.end = end;
        }
    }

    /// A call begins, with this number of unread bits.
    fn mark(&mut self, unread: usize, is_noting: bool) {
        self.is_noting = is_noting;
        if let Some(end) = self.end {
            self.from = end.saturating_sub(unread);
        }
    }

    /// Where the last call began, if this is known.
    fn start(&self) -> Option<usize> {
        match self.end {
            Some(_) => Some(self.from),
            None => None,
        }
    }
}

/// A decoder of some octets, and where its last call began.
#[derive(Drop)]
pub struct Watched<D: Standing> {
    decoder: D,
    notes: Notes,
}

impl<D: Standing> Model for Watched<D> {
    ghost Value = { D };

    ghost view = { λ w. w.decoder };
}

impl<D: Standing> Watched<D> {
    /// A decoder of this message that has read nothing.
    pub fn new(alloc: Global, decoder: D, message: Vec<u8>) -> Self
        ensures { result ≡ decoder }
    {
        let unread = decoder.unread();
        Watched {
            decoder,
            notes: Notes {
                alloc,
                message,
                from: 0,
                end: Some(unread),
                outer: Vec::new(alloc),
                is_lost: false,
                is_noting: false,
            },
        }
    }

    /// The place in the message where the last call began.
    pub fn stands_at(&self) -> usize {
        self.notes.from
    }

    /// Whether the last call said that a component is equal to its default.
    pub fn was_noting(&self) -> bool {
        self.notes.is_noting
    }

    /// A call begins.
    pub fn mark(&mut self)
        ensures { self.new ≡ self.old }
    {
        let unread = self.decoder.unread();
        self.notes.mark(unread, false);
    }

    /// An addition begins, which is an open type.
    fn open_addition(&mut self)
        ensures { self.new ≡ self.old }
    {
        let end = self.end_of_addition();
        self.notes.open(end);
    }

    /// An added alternative begins, which is an open type after an index or a tag.
    fn open_alternative(&mut self, tables: &TagTables<'_>)
        ensures { self.new ≡ self.old }
    {
        let end = self.end_of_alternative(tables);
        self.notes.open(end);
    }

    /// The place after an addition, if it is known.
    fn end_of_addition(&self) -> Option<usize> {
        let message = self.notes.message.as_slice();
        let from = self.notes.start()?;
        self.decoder
            .after_open_type(self.notes.alloc, message, from)
    }

    /// The place after an added alternative, if it is known.
    fn end_of_alternative(&self, tables: &TagTables<'_>) -> Option<usize> {
        let alloc = self.notes.alloc;
        let message = self.notes.message.as_slice();
        let from = self.notes.start()?;
        let index = self.decoder.after_index(alloc, message, from, tables)?;
        self.decoder.after_open_type(alloc, message, index)
    }
}

impl<D: Standing> Decoder for Watched<D> {
    type Octets = D::Octets;

    ghost step = { D.step };

    ghost too_few = { D.too_few };

    ghost too_few_members = { D.too_few_members };

    ghost has_failed = { D.has_failed };

    ghost levels = { D.levels };

    ghost lends = { D.lends };

    ghost rules = { D.rules };

    fn codec(&self) -> CodecKind {
        self.decoder.codec()
    }

    fn levels_left(&self) -> usize {
        self.decoder.levels_left()
    }

    fn refuse(&mut self, error: DecodeError) -> DecodeError {
        self.decoder.refuse(error)
    }

    fn decode_bool(&mut self, tag: Tag) -> Result<bool, DecodeError> {
        self.mark();
        self.decoder.decode_bool(tag)
    }

    fn decode_null(&mut self, tag: Tag) -> Result<(), DecodeError> {
        self.mark();
        self.decoder.decode_null(tag)
    }

    fn decode_integer<I: IntegerType>(
        &mut self,
        alloc: Global,
        tag: Tag,
        constraints: &Constraints,
    ) -> Result<I, DecodeError> {
        self.mark();
        self.decoder.decode_integer(alloc, tag, constraints)
    }

    fn decode_item_of<I: EnumerationItems>(
        &mut self,
        tag: Tag,
        items: &I,
    ) -> Result<I::Item, DecodeError> {
        self.mark();
        self.decoder.decode_item_of(tag, items)
    }

    fn decode_bit_string(
        &mut self,
        alloc: Global,
        tag: Tag,
        constraints: &Constraints,
        held: Bounded<usize>,
    ) -> Result<BitString, DecodeError> {
        self.mark();
        self.decoder
            .decode_bit_string(alloc, tag, constraints, held)
    }

    fn decode_octet_string(
        &mut self,
        alloc: Global,
        tag: Tag,
        constraints: &Constraints,
        held: Bounded<usize>,
    ) -> Result<D::Octets, DecodeError> {
        self.mark();
        self.decoder
            .decode_octet_string(alloc, tag, constraints, held)
    }

    fn decode_utf8_string(
        &mut self,
        alloc: Global,
        tag: Tag,
        constraints: &Constraints,
    ) -> Result<String, DecodeError> {
        self.mark();
        self.decoder.decode_utf8_string(alloc, tag, constraints)
    }

    fn decode_characters<S: StaticPermittedAlphabet>(
        &mut self,
        alloc: Global,
        tag: Tag,
        constraints: &Constraints,
    ) -> Result<S, DecodeError> {
        self.mark();
        self.decoder.decode_characters(alloc, tag, constraints)
    }

    fn decode_object_identifier(
        &mut self,
        alloc: Global,
        tag: Tag,
    ) -> Result<ObjectIdentifier, DecodeError> {
        self.mark();
        self.decoder.decode_object_identifier(alloc, tag)
    }

    fn begin_list(
        &mut self,
        tag: Tag,
        constraints: &Constraints,
        held: Bounded<usize>,
    ) -> Result<(), DecodeError> {
        self.mark();
        self.decoder.begin_list(tag, constraints, held)?;
        self.notes.begin(Around::Value);
        Ok(())
    }

    fn begin_bag(
        &mut self,
        tag: Tag,
        constraints: &Constraints,
        held: Bounded<usize>,
    ) -> Result<(), DecodeError> {
        self.mark();
        self.decoder.begin_bag(tag, constraints, held)?;
        self.notes.begin(Around::Value);
        Ok(())
    }

    fn get_further(&mut self) -> Result<bool, DecodeError> {
        self.mark();
        self.decoder.get_further()
    }

    fn begin_sequence(
        &mut self,
        tag: Tag,
        extensible: bool,
        optional: usize,
    ) -> Result<(), DecodeError> {
        self.mark();
        self.decoder.begin_sequence(tag, extensible, optional)?;
        self.notes.begin(Around::Value);
        Ok(())
    }

    fn begin_set(
        &mut self,
        tag: Tag,
        extensible: bool,
        optional: usize,
    ) -> Result<(), DecodeError> {
        self.mark();
        self.decoder.begin_set(tag, extensible, optional)?;
        self.notes.begin(Around::Value);
        Ok(())
    }

    fn begin_group(&mut self, optional: usize) -> Result<(), DecodeError> {
        self.mark();
        self.decoder.begin_group(optional)?;
        self.notes.begin(Around::Value);
        Ok(())
    }

    fn get_presence_bit(&mut self) -> Result<bool, DecodeError> {
        self.mark();
        self.decoder.get_presence_bit()
    }

    fn note_default(&mut self) -> Result<(), DecodeError> {
        self.notes.is_noting = true;
        self.decoder.note_default()
    }

    fn note_empty(&mut self) -> Result<(), DecodeError> {
        self.decoder.note_empty()
    }

    fn begin_additions(&mut self, count: usize) -> Result<(), DecodeError> {
        self.mark();
        self.decoder.begin_additions(count)
    }

    fn get_addition(&mut self) -> Result<bool, DecodeError> {
        self.mark();
        let is_present = self.decoder.get_addition()?;
        if is_present {
            self.open_addition();
        }
        Ok(is_present)
    }

    fn end_addition(&mut self) -> Result<(), DecodeError> {
        self.mark();
        self.decoder.end_addition()?;
        self.notes.leave();
        Ok(())
    }

    fn begin_choice(&mut self, tag: Tag, tables: &TagTables<'_>) -> Result<Chosen, DecodeError> {
        self.mark();
        let chosen = self.decoder.begin_choice(tag, tables)?;
        if chosen.added {
            self.open_alternative(tables);
        } else {
            self.notes.begin(Around::Value);
        }
        Ok(chosen)
    }

    fn end(&mut self) -> Result<(), DecodeError> {
        self.mark();
        self.decoder.end()?;
        self.notes.leave();
        Ok(())
    }

    ghost one_record = { D.one_record };

    ghost list_held = { D.list_held };

    ghost bag_held = { D.bag_held };

    ghost goes_on = { D.goes_on };

    ghost few_at_once = { D.few_at_once };

    ghost records_carried = { D.records_carried };

    ghost values_carried = { D.values_carried };

    ghost members_carried = { D.members_carried };

    ghost none_after = { D.none_after };

    ghost same_rules = { D.same_rules };
}
