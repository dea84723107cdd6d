//! Enumeration values (X.696 11).
ghost use Rattle.std.specs.Prelude.{◌≡◌, ◌++◌, Some, option_map, MatchResult, OnErr};
ghost use Rattle.asn1_model.specs.Form.{written};
ghost use Rattle.asn1_model.specs.Oer.{item_form};
ghost use Rattle.asn1_model.specs.Versions.{Begins};

use asn1_schema_errors::EncodeError;
use asn1_values_integers::IntegerType;

/// Adds an enumeration value (X.696 11): 0 to 127 in one octet, else an octet of 0x80 plus the count, then that count
/// of octets, the fewest of two's complement.
///
/// # Errors
///
/// Only `OutOfMemory`.
pub fn push_item(octets: &mut Vec<u8>, number: isize) -> Result<(), EncodeError>
    ensures text { MatchResult result (λ _. option_map (λ w. octets.old.items ++ w) (written (item_form number) 0)
        ≡ Some octets.new.items) (λ e. e ≡ EncodeError.OutOfMemory) }
    ensures kept { OnErr result (Begins octets.old.items octets.new.items) }
{
    if 0 <= number && number < 0x80 {
        octets.push(number as u8)?;
        return Ok(());
    }
    let digits = number.to_signed_bytes_be();
    octets.push(0x80 + digits.len() as u8)?;
    octets.extend_from_slice(digits.as_slice())?;
    Ok(())
}
