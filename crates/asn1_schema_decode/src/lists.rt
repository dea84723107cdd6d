//! How SEQUENCE OF types are decoded.

ghost use Rattle.std.specs.Prelude.{◌≡◌, ◌+◌, length, true, not, Some, OnOk, IfOk, OnErr, IfErr, leb};
ghost use Rattle.asn1_model.specs.Numbers.{is_count_within};
ghost use Rattle.asn1_model.specs.Value.{members};
ghost use Rattle.asn1_schema_constraints.specs.Bounds.{members_of};
ghost use Rattle.asn1_schema_laws.specs.Parts.{values_of};
ghost use Rattle.asn1_schema_types.specs.Told.{list_under};
ghost use Rattle.asn1_schema_decode.specs.Reads.{Reads, Unread, ReadsMembers, UnreadMembers};
ghost use Rattle.std.specs.Option.{option_map_or};
ghost use Rattle.asn1_schema_errors.specs.Calls.{DecoderCall, SameLevel};

use crate::decode::{Decode, Decoder};
use asn1_schema_constraints::{Bounded, Constraints};
use asn1_schema_errors::DecodeError;
use asn1_schema_tags::Tag;
use std::alloc::Global;

/// Decodes SEQUENCE OF types.
pub trait DecodeList: Decoder {
    /// Decodes a SEQUENCE OF (X.680 26) under a size constraint; `held` bounds the number of elements that the
    /// user-defined type can hold. An element beyond them is not read. Memory is allocated only for elements that were
    /// read.
    final fn decode_sequence_of<T: Decode>(
        &mut self,
        alloc: Global,
        tag: Tag,
        constraints: &Constraints,
        held: Bounded<usize>,
    ) -> Result<Vec<T>, DecodeError>
    where
        Self: Sized,
        ensures ok { IfOk result
            (λ x. Reads Self.step (list_under constraints.now held T.schema) (Self.levels self.old)
            (members (values_of T.meaning x.items)) self.old self.new) }
        ensures held { IfOk result (λ x. is_count_within (members_of held) (length x.items) ≡ true) }
        ensures only { IfErr result
            (Unread Self.step Self.too_few (list_under constraints.now held T.schema) (Self.levels self.old)
            self.old self.new) }
        ensures call { DecoderCall Self.has_failed (SameLevel Self.levels) self.old self.new result }
    {
        self.begin_list(tag, constraints, held)?;
        let items = members_within(alloc, self, held)?;
        Ok(items)
    }
}

impl<D: Decoder> DecodeList for D {}

/// The greatest number of elements that a user-defined type with these bounds can hold.
#[inline(always)]
pub fn most_members(held: Bounded<usize>) -> usize
    ensures { (members_of held).high ≡ Some result }
{
    match held.as_end() {
        Some(end) => *end,
        None => usize::MAX,
    }
}

/// The elements of a SEQUENCE OF or SET OF that has begun, and its end; `held` bounds the number of elements that the
/// user-defined type can hold. An element beyond them is not read. Memory is allocated only for elements that were
/// read.
///
/// # Errors
///
/// `SizeConstraintNotSatisfied` if there are more or fewer elements than the type can hold, `OutOfMemory`, and the
/// errors of an element.
pub fn members_within<T: Decode, D: Decoder>(
    alloc: Global,
    decoder: &mut D,
    held: Bounded<usize>,
) -> Result<Vec<T>, DecodeError>
    ensures ok { IfOk result
        (λ x. ReadsMembers D.step T.schema (D.levels decoder.old) (values_of T.meaning x.items)
        decoder.old decoder.new) }
    ensures held { IfOk result (λ x. is_count_within (members_of held) (length x.items) ≡ true) }
    ensures level { OnOk result (D.levels decoder.new ≡ D.levels decoder.old + 1) }
    ensures only { IfErr result
        (UnreadMembers D.step D.too_few_members T.schema (D.levels decoder.old) (members_of held)
        decoder.old decoder.new) }
    ensures failed { OnErr result (D.has_failed decoder.new) }
    ensures after { result ≡ Err DecodeError.AlreadyFailed → D.has_failed decoder.old }
{
    let mut items = Vec::new(alloc);
    while decoder.get_further()? {
        if is_full(held, items.len()) {
            return Err(decoder.refuse(DecodeError::SizeConstraintNotSatisfied));
        }
        let item = T::decode(alloc, decoder)?;
        let Ok(()) = items.push(item) else {
            return Err(decoder.refuse(DecodeError::OutOfMemory));
        };
    }
    if !held.holds(items.len()) {
        return Err(decoder.refuse(DecodeError::SizeConstraintNotSatisfied));
    }
    decoder.end()?;
    Ok(items)
}

// Whether one more than this count is above the bounds.
fn is_full(held: Bounded<usize>, count: usize) -> bool
    ensures { result ≡ not (option_map_or (λ x. leb (count + 1) x) ((members_of held).high) true) }
{
    match held.as_end() {
        Some(end) => *end <= count,
        None => count == usize::MAX,
    }
}
