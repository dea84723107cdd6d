//! Bags: SET OF, whose elements are in ascending order (X.696 19).
ghost use Rattle.std.specs.Prelude.{◌≡◌, ◌++◌, [], ◌∷◌, map, OnOk, OnErr, MatchResult};
ghost use Rattle.asn1_model.specs.Form.{written, exactly, joined};
ghost use Rattle.asn1_model.specs.Oer.{in_any_order};
ghost use Rattle.asn1_model.specs.Versions.{Begins};
ghost use Rattle.asn1_schema_laws.specs.Records.{bag_begins};
ghost use Rattle.asn1_schema_constraints.specs.Bounds.{members_of};
ghost use Rattle.asn1_schema_constraints.specs.Terms.{sizes_of};
ghost use Rattle.asn1_schema_order.specs.Entries.{octets_of};
ghost use Rattle.oer_codec_encoder.specs.Frames.{NoMember};
ghost use Rattle.oer_codec_encoder.specs.EarlierOctets.{Keeps};
ghost use Rattle.oer_codec_encoder.specs.Holding.{NextOfBag, Does, Cannot};
ghost use Rattle.oer_codec_encoder.specs.Joined.{texts_joined};
ghost use Rattle.oer_codec_writing.specs.Writing.{Adds};

use crate::frame::{Bag, Frame};
use crate::frames::Frames;
use crate::sequences::count_member;
use asn1_schema_constraints::{Bounded, Constraints};
use asn1_schema_errors::EncodeError;
use asn1_schema_order::{Encodings, Entry};
use oer_codec_writing::push_count;
use std::alloc::{AllocError, Global};
use std::mem;

/// Begins a bag with its count (X.696 19), which the Rust type must be able to hold.
///
/// # Errors
///
/// `SizeConstraintNotSatisfied` if the Rust type cannot hold `count` elements, and `OutOfMemory`.
pub(crate) fn begin_bag(
    octets: &mut Vec<u8>,
    frames: &mut Frames,
    alloc: Global,
    constraints: &Constraints,
    held: Bounded<usize>,
    count: usize,
) -> Result<(), EncodeError>
    ensures step { MatchResult result
        (λ _. Does (bag_begins (sizes_of constraints.now.size) (members_of held) count)
        frames.old octets.old.items frames.new octets.new.items)
        (Cannot (bag_begins (sizes_of constraints.now.size) (members_of held) count) frames.old octets.old.items) }
    ensures kept { OnErr result (Keeps frames.old octets.old.items frames.new octets.new.items) }
{
    push_count(octets, held, count)?;
    let bag = Bag {
        due: count,
        outer: Vec::new(alloc),
        members: None,
    };
    let boxed = Box::new(alloc, bag)?;
    frames.open(Frame::Bag(boxed))?;
    frames.set_aside(octets);
    Ok(())
}

/// Exchanges the octets with those before a bag.
#[inline]
pub(crate) fn exchange(octets: &mut Vec<u8>, bag: &mut Bag)
    ensures bag { let a = bag.old in bag.new ≡ record a { outer = octets.old } }
    ensures octets { octets.new ≡ bag.old.outer }
{
    mem::swap(octets, &mut bag.outer);
}

/// Begins a further element of a bag if `more`, else expects none to be due (X.696 19). The octets of each element are
/// kept apart.
pub(crate) fn next_of_bag(
    octets: &mut Vec<u8>,
    bag: &mut Bag,
    alloc: Global,
    more: bool,
) -> Result<(), EncodeError>
    ensures step { MatchResult result (λ _. NextOfBag more bag.old octets.old.items bag.new octets.new.items)
        (NoMember more bag.old.due) }
    ensures kept { OnErr result (bag.new.outer ≡ bag.old.outer) }
{
    count_member(&mut bag.due, more)?;
    if more {
        match &mut bag.members {
            None => bag.members = Some(Encodings::new(alloc)),
            Some(members) => members.push(octets.as_slice())?,
        }
        octets.clear();
    }
    Ok(())
}

/// Adds the octets of the entries in sequence.
fn push_each(octets: &mut Vec<u8>, entries: &[Entry<'_>]) -> Result<(), AllocError>
    ensures text { OnOk result (octets.new.items ≡ octets.old.items ++ texts_joined (map octets_of entries.now)) }
    ensures kept { OnErr result (Begins octets.old.items octets.new.items) }
{
    for entry in entries {
        octets.extend_from_slice(entry.octets)?;
    }
    Ok(())
}

/// Adds the elements of a bag, `last` among them, in ascending order of their octets (X.696 19). A single element is
/// added as it is.
pub(crate) fn push_members(
    octets: &mut Vec<u8>,
    alloc: Global,
    mut members: Encodings,
    last: &[u8],
) -> Result<(), EncodeError>
    ensures text { MatchResult result (λ _. Adds
        (written (in_any_order (map (λ w. exactly w) (members ++ last.now ∷ [])) (λ xs. joined xs)) 0)
        octets.old.items octets.new.items) (λ e. e ≡ EncodeError.OutOfMemory) }
    ensures kept { OnErr result (Begins octets.old.items octets.new.items) }
{
    if members.is_empty() {
        octets.extend_from_slice(last)?;
        return Ok(());
    }
    members.push(last)?;
    let ordered = members.in_order(alloc)?;
    push_each(octets, ordered.as_slice())?;
    Ok(())
}
