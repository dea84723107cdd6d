//! Units under a size constraint (X.691 16, 17 and 30): an extension bit, a length determinant, and the units.
ghost use Rattle.std.specs.Prelude.{◌≡◌, ◌&&◌, IfOk, OnOk, IfErr, []};
ghost use Rattle.asn1_model.specs.Per as Per;
ghost use Rattle.asn1_schema_constraints.specs.Bounds.{counts_of};
ghost use Rattle.asn1_schema_constraints.specs.Terms.{size_of};
ghost use Rattle.per_codec_laws.specs.Takes.{Front};
ghost use Rattle.per_codec_reading.specs.Fronts.{freedoms, Completes, Misses, MissesRest};
ghost use Rattle.per_codec_reading.specs.Fronts as fronts;
ghost use Rattle.per_codec_reading.specs.Runs.{units_in, IsLent, InOneRun, EndsWithLent};
ghost use Rattle.per_codec_reading.specs.Headings.{contents_have_padding, determinant_form, sized_units};
ghost use Rattle.per_codec_reading.specs.Headings.{told_in_front, units_by_length};
ghost use Rattle.per_codec_reading.specs.Headings.{HoldsOneRun, IsDeterminant};
ghost use Rattle.asn1_model.specs.Form.{exactly};

use crate::headings::{LengthDeterminant, is_accepted_outside, is_admitted, read_heading};
use crate::padding::read_padding;
use crate::runs::{Run, RunBits, read_units_behind};
use crate::{Cursor, PackedRules};
use asn1_schema_constraints::{Bounded, Sizes};
use asn1_schema_errors::DecodeError;
use per_codec_rules::{characters_have_padding, string_has_padding};
use std::alloc::Global;

/// What the units make up. It determines where padding precedes them.
#[derive(Clone, Copy, Debug, PartialEq, Eq)]
pub enum Contents {
    /// A string of bits or of octets (X.691 16 and 17).
    Strings,
    /// A string of characters (X.691 30).
    Characters,
}

/// Whether units after a constrained length determinant are octet-aligned in the aligned variant (X.691 16.9 to
/// 16.11, 17.6 to 17.8, 30.5.6 and 30.5.7).
#[inline(always)]
fn has_padding(contents: Contents, width: u32, root: Bounded<usize>, count: usize) -> bool
    ensures { result ≡ contents_have_padding contents width count (counts_of root) }
{
    match contents {
        Contents::Strings => string_has_padding(root, width, count),
        Contents::Characters => characters_have_padding(root, width, count),
    }
}

/// Skips to the next octet boundary in the aligned variant, if `has_padding`.
///
/// # Errors
///
/// `Incomplete` if there are fewer bits, and `InvalidPadding` if a bit is not zero, in strict rules.
fn read_padding_if(
    cursor: &mut Cursor<'_>,
    rules: PackedRules,
    has_padding: bool,
) -> Result<(), DecodeError>
    ensures ok { OnOk result (Front (freedoms rules)
        (Per.at_octet (fronts.is_aligned rules && has_padding) (exactly [])) cursor.old cursor.new) }
    ensures only { IfErr result (Misses (freedoms rules)
        (Per.at_octet (fronts.is_aligned rules && has_padding)) cursor.old) }
{
    if has_padding {
        read_padding(cursor, rules)?;
    }
    Ok(())
}

/// Reads the units after the first length determinant of a size with this root. After a constrained length
/// determinant they are borrowed.
///
/// # Errors
///
/// `Incomplete` if the bits end early, in strict rules `InvalidPadding` if a bit of padding is not zero and
/// `NotValidCanonicalEncoding` if the largest fragments are not first, the errors of a length determinant, and
/// `OutOfMemory`.
#[inline(always)]
fn read_units<'input>(
    alloc: Global,
    cursor: &mut Cursor<'input>,
    rules: PackedRules,
    width: u32,
    contents: Contents,
    root: Bounded<usize>,
    determinant: LengthDeterminant,
) -> Result<Run<'input>, DecodeError>
    requires { IsDeterminant determinant }
    ensures ok { IfOk result (λ run. (told : _) → Completes (freedoms rules)
        (determinant_form (fronts.is_aligned rules) (counts_of root) told determinant)
        (units_by_length (fronts.is_aligned rules) width (contents_have_padding contents width) (counts_of root) told
        (units_in run)) cursor.old cursor.new) }
    ensures lent { IfOk result (λ run. HoldsOneRun determinant run.count → IsLent run.bits) }
    ensures last { IfOk result (λ run. EndsWithLent run.bits cursor.old cursor.new) }
    ensures only { IfErr result (λ e. (told : _) → MissesRest (freedoms rules)
        (determinant_form (fronts.is_aligned rules) (counts_of root) told determinant)
        (units_by_length (fronts.is_aligned rules) width (contents_have_padding contents width) (counts_of root) told)
        cursor.old e) }
{
    match determinant {
        LengthDeterminant::Constrained(count) => {
            read_padding_if(cursor, rules, has_padding(contents, width, root, count))?;
            let bits = cursor.take(count * width as usize)?;
            Ok(Run {
                count,
                bits: RunBits::Lent(bits),
            })
        }
        LengthDeterminant::General(length) => {
            let run = read_units_behind(alloc, cursor, rules, width, length)?;
            Ok(run)
        }
    }
}

/// Reads units of `width` bits under a size constraint, for a Rust type that holds `held` (X.691 16, 17 and 30).
///
/// # Errors
///
/// `SizeConstraintNotSatisfied` if the size or the Rust type does not admit their number, `Incomplete` if the bits
/// end early, in strict rules `InvalidPadding` if a bit of padding is not zero and `NotValidCanonicalEncoding` if a
/// number in the root is said to be outside it or the largest fragments are not first, the errors of a constrained
/// whole number and of a length determinant, and `OutOfMemory`.
#[inline(always)]
pub fn read_sized<'input>(
    alloc: Global,
    cursor: &mut Cursor<'input>,
    rules: PackedRules,
    sizes: Sizes,
    held: Bounded<usize>,
    width: u32,
    contents: Contents,
) -> Result<Run<'input>, DecodeError>
    ensures ok { IfOk result (λ run. Front (freedoms rules)
        (sized_units (fronts.is_aligned rules) (size_of sizes) (counts_of held) width
        (contents_have_padding contents width) (units_in run)) cursor.old cursor.new) }
    ensures lent { IfOk result (λ run. InOneRun (told_in_front (size_of sizes) cursor.old.1) run.count
        → IsLent run.bits) }
    ensures last { IfOk result (λ run. EndsWithLent run.bits cursor.old cursor.new) }
    ensures only { IfErr result (Misses (freedoms rules)
        (sized_units (fronts.is_aligned rules) (size_of sizes) (counts_of held) width
        (contents_have_padding contents width)) cursor.old) }
{
    let heading = read_heading(cursor, rules, sizes)?;
    let run = read_units(
        alloc,
        cursor,
        rules,
        width,
        contents,
        sizes.root,
        heading.determinant,
    )?;
    if !is_admitted(sizes.root, held, heading.is_outside, run.count) {
        return Err(DecodeError::SizeConstraintNotSatisfied);
    }
    if !is_accepted_outside(rules, sizes.root, heading.is_outside, run.count) {
        return Err(DecodeError::NotValidCanonicalEncoding);
    }
    Ok(run)
}
