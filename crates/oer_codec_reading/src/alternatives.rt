//! The alternative of a choice by its tag (X.696 20).
ghost use Rattle.std.specs.Prelude.{◌<◌, cond, length, IfOk, IfErr, IfSome, IfNone};
ghost use Rattle.asn1_model.specs.Oer.{tag_form};
ghost use Rattle.asn1_schema_tags.specs.Tags.{tag_of};
ghost use Rattle.oer_codec_laws.specs.Takes.{IsPlace};
ghost use Rattle.oer_codec_reading.specs.Alternatives.{NoTag};
ghost use Rattle.oer_codec_reading.specs.Fronts.{freedoms, Stands};

use crate::tags::{read_tag, visit_numbers};
use crate::{Cursor, EncodingRules};
use asn1_schema_errors::DecodeError;
use asn1_schema_tags::{Chosen, Tag, TagTables};

/// Reads the tag of an alternative of a choice with these tables (X.696 20).
///
/// # Errors
///
/// Those of [`read_tag`].
#[inline(always)]
pub fn read_alternative_tag(
    cursor: &mut Cursor<'_>,
    rules: EncodingRules,
    tables: &TagTables<'_>,
) -> Result<Tag, DecodeError>
    ensures ok { IfOk result (λ t. Stands (freedoms rules) (tag_form (tag_of t)) cursor.old cursor.new) }
    ensures only { IfErr result (NoTag (freedoms rules) tables.now.roots tables.now.additions cursor.old) }
{
    match read_tag(cursor, rules) {
        Ok(tag) => Ok(tag),
        Err(error) => {
            visit_numbers(tables.roots());
            visit_numbers(tables.additions());
            Err(error)
        }
    }
}

/// The alternative with a tag: one of the root, else an added one if there is an extension marker.
#[inline(always)]
pub fn find_alternative(tag: Tag, tables: &TagTables<'_>) -> Option<Chosen>
    ensures some { IfSome result (λ x. IsPlace tables.now.roots tables.now.extensible tables.now.additions
        (tag_of tag) x.added x.place) }
    ensures within { IfSome result (λ x. x.place < length (cond x.added tables.now.additions tables.now.roots)) }
    ensures none { IfNone result ((plus : _) (i : _) → IsPlace tables.now.roots tables.now.extensible
        tables.now.additions (tag_of tag) plus i → ⊥) }
{
    tables.alternative(tag)
}
