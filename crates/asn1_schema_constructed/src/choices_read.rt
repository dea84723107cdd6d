//! How CHOICE types are decoded.
ghost use Rattle.std.specs.Prelude.{◌≡◌, ◌+◌, Some, None, OnOk, OnErr, IfOk, IfErr};
ghost use Rattle.asn1_schema_decode.specs.Reads.{Reads, Unread, NoLevel};
ghost use Rattle.asn1_schema_constraints.specs.Terms.{meant};
ghost use Rattle.asn1_schema_tags.specs.Tags.{tag_of};
ghost use Rattle.asn1_schema_constructed.specs.Tagged.{ReadsTagged, UnreadTagged};
ghost use Rattle.asn1_schema_constructed.specs.Chosen.{chosen_type, begins, asks, IsAmong, of_tag};
ghost use Rattle.asn1_schema_tags.specs.declared.chosen.Chosen.{Chosen};
ghost use Rattle.asn1_schema_errors.specs.Calls.{DecoderCall, OneLevelLess, SameLevel};

use crate::alternatives::{Alternatives, Choice, alternative_of, tag_tables_of};
use asn1_schema_constraints::Constraints;
use asn1_schema_decode::Decoder;
use asn1_schema_errors::DecodeError;
use asn1_schema_tags::{Chosen, Tag};
use std::alloc::Global;

/// A CHOICE that is decoded by its alternatives (X.680 29).
pub trait DecodeChoice: Choice + Drop {
    /// Reads the value of an alternative.
    fn from_chosen<D: Decoder>(
        alloc: Global,
        decoder: &mut D,
        chosen: Chosen,
    ) -> Result<Self, DecodeError>
        requires { IsAmong Self.table chosen }
        ensures place { IfOk result (λ x. Self.place x ≡ chosen) }
        ensures ok { IfOk result
            (λ x. Reads D.step (chosen_type Self.table chosen) (D.levels decoder.old) (Self.inner x)
            decoder.old decoder.new) }
        ensures only { IfErr result
            (Unread D.step D.too_few (chosen_type Self.table chosen) (D.levels decoder.old) decoder.old decoder.new) }
        ensures call { DecoderCall D.has_failed (SameLevel D.levels) decoder.old decoder.new result };

    /// Reads the value of the alternative with a tag.
    ///
    /// # Errors
    ///
    /// `InvalidTagVariantOnChoice` for a tag that no alternative has, even if the decoder has failed before: the tag is
    /// looked up first. Otherwise the errors of `from_chosen`.
    final fn from_tag<D: Decoder>(
        alloc: Global,
        decoder: &mut D,
        tag: Tag,
    ) -> Result<Self, DecodeError>
    where
        Self: Sized,
        ensures ok { IfOk result
            (λ x. ReadsTagged D.step Self.table (tag_of tag) (D.levels decoder.old) (Self.place x) (Self.inner x)
            decoder.old decoder.new) }
        ensures level { OnOk result (D.levels decoder.new ≡ D.levels decoder.old) }
        ensures only { IfErr result
            (UnreadTagged D.step D.too_few Self.table (tag_of tag) (D.levels decoder.old) decoder.old decoder.new) }
        ensures failed { OnErr result (D.has_failed decoder.new) }
        ensures unknown { of_tag Self.table (tag_of tag) ≡ None → result ≡ Err DecodeError.InvalidTagVariantOnChoice }
        ensures already { D.has_failed decoder.old → (c : Chosen) → of_tag Self.table (tag_of tag) ≡ Some c
            → result ≡ Err DecodeError.AlreadyFailed }
        ensures after { result ≡ Err DecodeError.AlreadyFailed → D.has_failed decoder.old }
    {
        let Some(chosen) = alternative_of::<Self>(tag) else {
            return Err(decoder.refuse(DecodeError::InvalidTagVariantOnChoice));
        };
        let value = Self::from_chosen(alloc, decoder, chosen)?;
        Ok(value)
    }
}

/// Decodes CHOICE types.
pub trait DecodeAlternatives: Decoder {
    /// Decodes a CHOICE (X.680 29).
    final fn decode_choice<T: DecodeChoice>(
        &mut self,
        alloc: Global,
        tag: Tag,
        constraints: &Constraints,
    ) -> Result<T, DecodeError>
    where
        Self: Sized,
        ensures ok { IfOk result
            (λ x. Reads Self.step (T.under (meant constraints.now)) (Self.levels self.old) (T.meaning x)
            self.old self.new) }
        ensures only { IfErr result
            (Unread Self.step Self.too_few (T.under (meant constraints.now))
            (Self.levels self.old) self.old self.new) }
        ensures call { DecoderCall Self.has_failed (SameLevel Self.levels) self.old self.new result }
    {
        let chosen = self.begin_alternatives::<T>(tag)?;
        let value = T::from_chosen(alloc, self, chosen)?;
        self.end()?;
        Ok(value)
    }

    /// Begins a CHOICE, and returns the chosen one of its alternatives. Recursive choices are decoded with it.
    final fn begin_alternatives<C: Alternatives>(&mut self, tag: Tag) -> Result<Chosen, DecodeError>
    where
        Self: Sized,
        ensures ok { IfOk result (λ x. Self.step self.old (begins C.table x.added x.place) self.new) }
        ensures within { IfOk result (IsAmong C.table) }
        ensures only { IfErr result
            (NoLevel Self.step Self.too_few (asks C.table) (Self.levels self.old) self.old self.new) }
        ensures call { DecoderCall Self.has_failed (OneLevelLess Self.levels) self.old self.new result }
    {
        let chosen = self.begin_choice(tag, &tag_tables_of::<C>())?;
        Ok(chosen)
    }
}

impl<D: Decoder> DecodeAlternatives for D {}
