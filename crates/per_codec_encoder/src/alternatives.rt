//! Alternatives of choices.
ghost use Rattle.std.specs.Prelude.{◌≡◌, length, List, MatchResult};
ghost use Rattle.asn1_model.specs.Schema.{Tag};
ghost use Rattle.asn1_schema_laws.specs.Records.{choice_begins};
ghost use Rattle.per_codec_encoder.specs.Holding.{Does, Cannot};
ghost use Rattle.per_codec_rules.specs.Variants.{is_aligned};

use crate::frame::Frame;
use crate::frames::Frames;
use asn1_schema_errors::EncodeError;
use asn1_schema_tags::Chosen;
use per_codec_packing::Packing;
use per_codec_rules::Variant;
use per_codec_writing::push_index;
use std::alloc::Global;

/// Begins an alternative of a choice with `roots` root alternatives: it follows its choice index, an added one as an
/// open type (X.691 23).
///
/// # Errors
///
/// `ValueConstraintNotSatisfied` if the choice has no such alternative; `OutOfMemory`.
#[inline(always)]
pub(crate) fn begin_alternative(
    output: &mut Packing,
    frames: &mut Frames,
    alloc: Global,
    variant: Variant,
    roots: usize,
    extensible: bool,
    chosen: Chosen,
) -> Result<(), EncodeError>
    ensures { MatchResult result (λ _. (ts us : List Tag) → length ts ≡ roots
        → Does (is_aligned variant) (choice_begins ts extensible us chosen.added chosen.place)
        frames.old output.old frames.new output.new)
        (λ e. (ts us : List Tag) → length ts ≡ roots
        → Cannot (is_aligned variant) (choice_begins ts extensible us chosen.added chosen.place)
        frames.old output.old e) }
{
    push_index(output, variant, roots, extensible, chosen)?;
    if chosen.added {
        frames.open_type(output, alloc)?;
        return Ok(());
    }
    frames.open(Frame::Alternative)?;
    Ok(())
}
