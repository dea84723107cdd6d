//! Tags that a module's text leaves out, and how tags are applied (X.680 13.2, 25, 29 and 31).
ghost use Rattle.std.specs.Prelude.{◌≡◌, ◌≤◌, ◌^◌, not, IfErr, IfOk};
ghost use Rattle.std.specs.List.{count_by, position};
ghost use Rattle.asn1_schema_tags.specs.Tags.{tag_of};
ghost use Rattle.asn1_notation_rules.specs.Tags.{HaveAutomaticTags, IsTaggingError, applies_automatic};
ghost use Rattle.asn1_notation_rules.specs.Tags.{context_tag, has_tag, misplaced_in, tagging_of};
ghost use Rattle.asn1_notation_rules.specs.declared.tagging.TaggingError.TheVariants.{OutOfMemory, TooManyComponents};

use asn1_schema_tags::Tag;
use std::alloc::{AllocError, AllocFailed, Global};
use thiserror::Error;

/// The tagging environment of a module (X.680 13.2).
#[derive(Clone, Copy, Debug, PartialEq, Eq)]
pub enum TagDefault {
    /// EXPLICIT TAGS, or none is given.
    Explicit,
    /// IMPLICIT TAGS.
    Implicit,
    /// AUTOMATIC TAGS.
    Automatic,
}

/// How a tag is written (X.680 31.2).
#[derive(Clone, Copy, Debug, PartialEq, Eq)]
pub enum TagNotation {
    /// The tag alone, as automatic tagging also adds it.
    Plain,
    /// The tag, and EXPLICIT.
    Explicit,
    /// The tag, and IMPLICIT.
    Implicit,
}

/// How a tag is applied (X.680 31.2.7).
#[derive(Clone, Copy, Debug, PartialEq, Eq)]
pub enum Tagging {
    /// It comes before the type's own tag.
    Explicit,
    /// It takes the place of the type's own tag.
    Implicit,
}

/// Why tags are refused.
#[derive(Clone, Copy, Debug, PartialEq, Eq, Error)]
pub enum TaggingError {
    /// A component would get a number of more than 32 bits.
    #[error("too many components")]
    TooManyComponents,
    /// Out of memory.
    #[error("out of memory")]
    OutOfMemory,
}

impl From<AllocError> for TaggingError {
    ghost from_gives = { λ _ e. e ≡ OutOfMemory };

    fn from(_refused: AllocError) -> Self {
        TaggingError::OutOfMemory
    }
}

impl<T: Drop> From<AllocFailed<T>> for TaggingError {
    ghost from_gives = { λ _ e. e ≡ OutOfMemory };

    fn from(_refused: AllocFailed<T>) -> Self {
        TaggingError::OutOfMemory
    }
}

/// Whether the components of a SEQUENCE or SET, or the alternatives of a CHOICE, get automatic tags (X.680 25.2 and
/// 29.2): in an environment of automatic tags, where none of the root or of the additions is written with a tag of its
/// own. What COMPONENTS OF includes is left out (X.680 25.3).
pub fn is_automatic(environment: TagDefault, are_tagged: &[bool]) -> bool
    ensures { result ≡ applies_automatic environment are_tagged.now }
{
    match environment {
        TagDefault::Automatic => !has_any(are_tagged),
        _ => false,
    }
}

/// The first addition with a tag of its own in an environment of automatic tags, where no component of the root has one
/// (X.680 25.7 and 29.3). No addition may have one there.
pub fn misplaced_tag(
    environment: TagDefault,
    are_root_tagged: &[bool],
    are_added_tagged: &[bool],
) -> Option<usize>
    ensures { result ≡ misplaced_in environment are_root_tagged.now are_added_tagged.now }
{
    if !is_automatic(environment, are_root_tagged) {
        return None;
    }
    first_tagged(are_added_tagged)
}

/// The tags that automatic tagging gives components or alternatives in the order of the text, of which some are added
/// (X.680 25.9 and 29.3): context-specific ones from 0 on, first for the root in order, also after a second extension
/// marker, then for the additions, also those in version brackets.
///
/// # Errors
///
/// Only where there are more than 2^32 of them, or out of memory.
pub fn automatic_tags(alloc: Global, are_added: &[bool]) -> Result<Vec<Tag>, TaggingError>
    ensures tags { IfOk result (λ tags. HaveAutomaticTags are_added.now tags.items) }
    ensures refused { IfErr result (IsTaggingError are_added.now) }
{
    let mut tags = Vec::with_capacity(alloc, are_added.len())?;
    let mut root = 0;
    let mut added = count_root(are_added);
    for is_added in are_added {
        if *is_added {
            tags.push(tag_numbered(added)?)?;
            added += 1;
        } else {
            tags.push(tag_numbered(root)?)?;
            root += 1;
        }
    }
    Ok(tags)
}

/// How a tag is applied (X.680 31.2.7), where the type may be an untagged CHOICE, open type or parameter, which has no
/// tag of its own to be replaced. `None` exactly if IMPLICIT is written before such a type (X.680 31.2.9).
pub fn applied_tagging(
    environment: TagDefault,
    notation: TagNotation,
    has_no_tag: bool,
) -> Option<Tagging>
    ensures { result ≡ tagging_of environment notation has_no_tag }
{
    match notation {
        TagNotation::Explicit => Some(Tagging::Explicit),
        TagNotation::Implicit if has_no_tag => None,
        TagNotation::Implicit => Some(Tagging::Implicit),
        TagNotation::Plain => match environment {
            TagDefault::Explicit => Some(Tagging::Explicit),
            _ if has_no_tag => Some(Tagging::Explicit),
            _ => Some(Tagging::Implicit),
        },
    }
}

/// The first with a tag of its own.
fn first_tagged(are_tagged: &[bool]) -> Option<usize>
    ensures { result ≡ position (λ b. b) are_tagged.now }
{
    are_tagged.iter().position(|is_tagged| *is_tagged)
}

/// Whether one has a tag of its own.
fn has_any(are_tagged: &[bool]) -> bool
    ensures { result ≡ has_tag are_tagged.now }
{
    for is_tagged in are_tagged {
        if *is_tagged {
            return true;
        }
    }
    false
}

/// How many components are in the root.
fn count_root(are_added: &[bool]) -> usize
    ensures { result ≡ count_by not are_added.now }
{
    let mut count = 0;
    for is_added in are_added {
        if !*is_added {
            count += 1;
        }
    }
    count
}

/// The context-specific tag of a number.
fn tag_numbered(number: usize) -> Result<Tag, TaggingError>
    ensures tag { IfOk result (λ tag. tag_of tag ≡ context_tag number) }
    ensures refused { IfErr result (λ e. (e ≡ TooManyComponents) × (2 ^ 32 ≤ number)) }
{
    match u32::try_from(number) {
        Ok(number) => Ok(Tag::new_context(number)),
        Err(_) => Err(TaggingError::TooManyComponents),
    }
}
