//! UTF8String (X.691 30).
ghost use Rattle.std.specs.Prelude.{◌≡◌, IfOk, IfErr, string_bytes};
ghost use Rattle.asn1_model.specs.Per as Per;
ghost use Rattle.asn1_model.specs.Schema as Asn1;
ghost use Rattle.asn1_model.specs.Schema.{any_count};
ghost use Rattle.asn1_model.specs.Value as Asn1Value;
ghost use Rattle.asn1_schema_constraints.specs.Terms.{sizes_of, alphabet_of};
ghost use Rattle.per_codec_laws.specs.Takes.{Front};
ghost use Rattle.per_codec_reading.specs.Fronts.{freedoms, Misses};
ghost use Rattle.per_codec_reading.specs.Fronts as fronts;

use crate::counted_octets::read_counted_octets;
use crate::{Cursor, PackedRules};
use asn1_schema_constraints::Constraints;
use asn1_schema_errors::DecodeError;
use asn1_values_strings::utf8_texts::text_of;
use std::alloc::Global;

/// Reads a UTF8String (X.691 30): its octets after a length determinant. Size and alphabet constraints do not affect
/// it.
///
/// # Errors
///
/// `StringConversionFailed` if the octets are not UTF-8, `Incomplete` if the bits end early,
/// `NotValidCanonicalEncoding` if the largest fragments are not first, in strict rules, the errors of a length
/// determinant, and `OutOfMemory`.
pub fn read_utf8_string(
    alloc: Global,
    cursor: &mut Cursor<'_>,
    rules: PackedRules,
    _constraints: &Constraints,
) -> Result<String, DecodeError>
    ensures ok { IfOk result (λ x. Front (freedoms rules)
        (Per.form (fronts.is_aligned rules)
        (Asn1.character_string Asn1.utf8 (sizes_of _constraints.now.size)
        (alphabet_of _constraints.now.permitted_alphabet) any_count) (Asn1Value.text (string_bytes x))) cursor.old
        cursor.new) }
    ensures only { IfErr result (Misses (freedoms rules)
        (Per.form (fronts.is_aligned rules)
        (Asn1.character_string Asn1.utf8 (sizes_of _constraints.now.size)
        (alphabet_of _constraints.now.permitted_alphabet) any_count)) cursor.old) }
{
    let octets = read_counted_octets(alloc, cursor, rules)?;
    let Some(text) = text_of(octets.as_slice()) else {
        return Err(DecodeError::StringConversionFailed);
    };
    let string = String::from_str(alloc, text)?;
    Ok(string)
}
