//! Alternatives of choices (X.696 20).
ghost use Rattle.std.specs.Prelude.{◌≡◌, map, option_map, OnErr, MatchResult};
ghost use Rattle.asn1_schema_laws.specs.Records.{choice_begins};
ghost use Rattle.asn1_schema_tags.specs.Tags.{tag_of};
ghost use Rattle.oer_codec_encoder.specs.EarlierOctets.{Keeps};
ghost use Rattle.oer_codec_encoder.specs.Holding.{Does, Cannot};
ghost use Rattle.oer_codec_encoder.specs.Steps.{tag_at, tags_among};

use crate::frames::{Frames, SmallFrame};
use crate::open_type::open_in_place;
use asn1_schema_errors::EncodeError;
use asn1_schema_tags::{Chosen, Tag};
use oer_codec_writing::push_tag;

/// The tag at an index, if there is one.
#[inline(always)]
fn tag_from(tags: &[Tag], place: usize) -> Option<Tag>
    ensures { option_map tag_of result ≡ tag_at place (map tag_of tags.now) }
{
    if place >= tags.len() {
        return None;
    }
    Some(tags[place])
}

/// The tag of the chosen alternative, if the type has it.
#[inline(always)]
fn tag_of_chosen(roots: &[Tag], extensible: bool, additions: &[Tag], chosen: Chosen) -> Option<Tag>
    ensures { option_map tag_of result ≡ tag_at chosen.place
        (tags_among (map tag_of roots.now) extensible (map tag_of additions.now) chosen.added) }
{
    if !chosen.added {
        return tag_from(roots, chosen.place);
    }
    if !extensible {
        return None;
    }
    tag_from(additions, chosen.place)
}

/// Begins a CHOICE with the tag of the chosen alternative (X.696 20). An added alternative is an open type.
///
/// # Errors
///
/// `ValueConstraintNotSatisfied` if the type has no such alternative, and `OutOfMemory`.
#[inline(always)]
pub(crate) fn begin_choice(
    octets: &mut Vec<u8>,
    frames: &mut Frames,
    roots: &[Tag],
    extensible: bool,
    additions: &[Tag],
    chosen: Chosen,
) -> Result<(), EncodeError>
    ensures step { MatchResult result (λ _. Does (choice_begins (map tag_of roots.now) extensible
        (map tag_of additions.now) chosen.added chosen.place) frames.old octets.old.items frames.new octets.new.items)
        (Cannot (choice_begins (map tag_of roots.now) extensible (map tag_of additions.now) chosen.added chosen.place)
        frames.old octets.old.items) }
    ensures kept { OnErr result (Keeps frames.old octets.old.items frames.new octets.new.items) }
{
    let Some(tag) = tag_of_chosen(roots, extensible, additions, chosen) else {
        return Err(EncodeError::ValueConstraintNotSatisfied);
    };
    push_tag(octets, tag)?;
    if chosen.added {
        open_in_place(octets, frames)?;
    } else {
        frames.open_small(SmallFrame::Alternative)?;
    }
    Ok(())
}
