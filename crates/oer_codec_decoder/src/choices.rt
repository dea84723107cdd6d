//! Which alternative of a choice is chosen (X.696 20).
ghost use Rattle.std.specs.Prelude.{◌<◌, ◌∷◌, cond, length, IfOk, IfErr};
ghost use Rattle.oer_codec_laws.specs.Takes.{Chooses, Enters};
ghost use Rattle.oer_codec_reading.specs.Fronts.{freedoms};
ghost use Rattle.oer_codec_decoder.specs.Refusals.{NoChoice, NoEntry};
ghost use Rattle.oer_codec_decoder.specs.Scopes.{frame_of, scope_of};

use crate::frames::Enclosing;
use asn1_schema_errors::DecodeError;
use asn1_schema_tags::{Chosen, TagTables};
use oer_codec_reading::alternatives::{find_alternative, read_alternative_tag};
use oer_codec_reading::{Cursor, EncodingRules, enter_open_type};

/// Enters an alternative. An added one is an open type (X.696 20).
#[inline(always)]
fn enter_alternative<'input>(
    cursor: &mut Cursor<'input>,
    rules: EncodingRules,
    added: bool,
) -> Result<Enclosing<'input>, DecodeError>
    ensures ok { IfOk result (λ enclosing. (k : _) → Enters (freedoms rules) added cursor.old k
        (cursor.new, scope_of (frame_of enclosing) ∷ k)) }
    ensures only { IfErr result (NoEntry (freedoms rules) added cursor.old) }
{
    if !added {
        return Ok(Enclosing::Alternative);
    }
    let behind = enter_open_type(cursor, rules)?;
    Ok(Enclosing::OpenType(behind))
}

/// Reads the tag of a choice, and enters its alternative (X.696 20).
///
/// # Errors
///
/// `InvalidTagVariantOnChoice` if no alternative has the tag, the errors of a tag, and those of an open type for an
/// added alternative.
#[inline(always)]
pub(crate) fn read_choice<'input>(
    cursor: &mut Cursor<'input>,
    rules: EncodingRules,
    tables: &TagTables<'_>,
) -> Result<(Chosen, Enclosing<'input>), DecodeError>
    ensures ok { IfOk result (λ p. (k : _) → Chooses (freedoms rules) tables.now.roots tables.now.extensible
        tables.now.additions p.0.added p.0.place (cursor.old, k) (cursor.new, scope_of (frame_of p.1) ∷ k)) }
    ensures within { IfOk result
        (λ p. p.0.place < length (cond p.0.added tables.now.additions tables.now.roots)) }
    ensures only { IfErr result (NoChoice (freedoms rules) tables.now.roots tables.now.extensible
        tables.now.additions cursor.old) }
{
    let tag = read_alternative_tag(cursor, rules, tables)?;
    let Some(chosen) = find_alternative(tag, tables) else {
        return Err(DecodeError::InvalidTagVariantOnChoice);
    };
    let enclosing = enter_alternative(cursor, rules, chosen.added)?;
    Ok((chosen, enclosing))
}
