//! UTF8String (X.696 27).
ghost use Rattle.std.specs.Prelude.{◌≡◌, IfOk, IfErr, string_bytes};
ghost use Rattle.asn1_model.specs.Schema as Asn1;
ghost use Rattle.asn1_model.specs.Schema.{any_count};
ghost use Rattle.asn1_model.specs.Value as Asn1Value;
ghost use Rattle.asn1_schema_constraints.specs.Terms.{sizes_of, alphabet_of};
ghost use Rattle.oer_codec_reading.specs.Fronts.{freedoms, FrontOf, NoFront};

use crate::octet_string::read_octet_string;
use crate::{Cursor, EncodingRules};
use asn1_schema_constraints::{Bounded, Constraints};
use asn1_schema_errors::DecodeError;
use asn1_values_strings::utf8_texts::text_of;
use std::alloc::Global;

/// Reads a UTF8String (X.696 27) under a size constraint, which counts its octets.
///
/// # Errors
///
/// `SizeConstraintNotSatisfied` if the constraint does not admit their number, `StringConversionFailed` if the octets
/// are not UTF-8, `Incomplete` if they end early, the errors of a length determinant, and `OutOfMemory`.
pub fn read_utf8_string(
    alloc: Global,
    cursor: &mut Cursor<'_>,
    rules: EncodingRules,
    constraints: &Constraints,
) -> Result<String, DecodeError>
    ensures ok { IfOk result (λ x. FrontOf (freedoms rules)
        (Asn1.character_string Asn1.utf8 (sizes_of constraints.now.size)
        (alphabet_of constraints.now.permitted_alphabet) any_count) (Asn1Value.text (string_bytes x)) cursor.old
        cursor.new) }
    ensures only { IfErr result (NoFront (freedoms rules)
        (Asn1.character_string Asn1.utf8 (sizes_of constraints.now.size)
        (alphabet_of constraints.now.permitted_alphabet) any_count) cursor.old) }
{
    let octets = read_octet_string(cursor, rules, constraints, Bounded::None)?;
    let Some(text) = text_of(octets) else {
        return Err(DecodeError::StringConversionFailed);
    };
    let string = String::from_str(alloc, text)?;
    Ok(string)
}
