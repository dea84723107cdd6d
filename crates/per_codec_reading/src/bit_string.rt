//! BIT STRING (X.691 16).
ghost use Rattle.std.specs.Prelude.{◌≡◌, IfOk, IfErr};
ghost use Rattle.asn1_model.specs.Per as Per;
ghost use Rattle.asn1_model.specs.Schema as Asn1;
ghost use Rattle.asn1_model.specs.Value as Asn1Value;
ghost use Rattle.asn1_schema_constraints.specs.Bounds.{counts_of};
ghost use Rattle.asn1_schema_constraints.specs.Terms.{size_of};
ghost use Rattle.per_codec_laws.specs.Takes.{Front};
ghost use Rattle.per_codec_reading.specs.Fronts.{freedoms, Misses};
ghost use Rattle.per_codec_reading.specs.Fronts as fronts;
ghost use Rattle.per_codec_reading.specs.Runs.{bits_in};

use crate::runs::RunBits;
use crate::sized::{Contents, read_sized};
use crate::{Cursor, PackedRules};
use asn1_schema_constraints::{Bounded, Sizes};
use asn1_schema_errors::DecodeError;
use asn1_values_bit_strings::BitString;
use std::alloc::{AllocError, Global};

/// A string of the bits that were read. Only borrowed bits are copied.
fn string_of(alloc: Global, bits: RunBits<'_>) -> Result<BitString, AllocError>
    ensures { IfOk result (λ string. string ≡ bits_in bits.entry) }
{
    match bits {
        RunBits::Lent(bits) => {
            let string = BitString::from_bitslice(alloc, bits)?;
            Ok(string)
        }
        RunBits::Joined(bits) => Ok(BitString::from_buffer(bits)),
    }
}

/// Reads a BIT STRING (X.691 16) under a size constraint, for a Rust type that holds `held`.
///
/// # Errors
///
/// `SizeConstraintNotSatisfied` if the size or the Rust type does not admit the number of bits, `Incomplete` if the
/// bits end early, `NotValidCanonicalEncoding` if another form is canonical, in strict rules, the errors of a
/// constrained whole number and of a length determinant, and `OutOfMemory`.
pub fn read_bit_string(
    alloc: Global,
    cursor: &mut Cursor<'_>,
    rules: PackedRules,
    sizes: Sizes,
    held: Bounded<usize>,
) -> Result<BitString, DecodeError>
    ensures ok { IfOk result (λ x. Front (freedoms rules)
        (Per.form (fronts.is_aligned rules) (Asn1.bit_string (size_of sizes) (counts_of held))
        (Asn1Value.bit_list x)) cursor.old cursor.new) }
    ensures only { IfErr result (Misses (freedoms rules)
        (Per.form (fronts.is_aligned rules) (Asn1.bit_string (size_of sizes) (counts_of held)))
        cursor.old) }
{
    let units = read_sized(alloc, cursor, rules, sizes, held, 1, Contents::Strings)?;
    let string = string_of(alloc, units.bits)?;
    Ok(string)
}
