//! What precedes the units under a size constraint (X.691 16, 17, 20, 22 and 30): an extension bit, if the size is
//! extensible, and the first length determinant (X.691 11.9).
ghost use Rattle.std.specs.Prelude.{◌≡◌, ◌≤◌, ◌<◌, IfOk, IfErr, IfSome, Some};
ghost use Rattle.asn1_model.specs.Per;
ghost use Rattle.asn1_schema_constraints.specs.Bounds.{counts_of, members_of};
ghost use Rattle.asn1_schema_constraints.specs.Terms.{size_of};
ghost use Rattle.per_codec_laws.specs.Sizes as laws;
ghost use Rattle.per_codec_laws.specs.Takes.{Front};
ghost use Rattle.per_codec_reading.specs.Fronts.{freedoms, Misses};
ghost use Rattle.per_codec_reading.specs.Fronts as fronts;
ghost use Rattle.asn1_model.specs.Numbers.{is_count_within};
ghost use Rattle.per_codec_reading.specs.Headings.{admitted, determinant_form, heading_form, told_count, IsDeterminant};
ghost use Rattle.per_codec_reading.specs.Headings.{may_be_outside};

use crate::boolean::read_extension_bit;
use crate::length::{Length, read_length};
use crate::numbers::read_constrained;
use crate::{Cursor, PackedRules};
use asn1_schema_constraints::{Bounded, Sizes};
use asn1_schema_errors::DecodeError;
use per_codec_rules::highest_below_64k;

/// The first length determinant under a size constraint (X.691 11.9).
#[derive(Clone, Copy, Debug, PartialEq, Eq)]
pub enum LengthDeterminant {
    /// The number of all units, as a constrained whole number (X.691 11.9.4.1).
    Constrained(usize),
    /// A general one (X.691 11.9.3.5 to 11.9.3.8).
    General(Length),
}

/// What precedes the units under a size constraint.
#[derive(Clone, Copy, Debug, PartialEq, Eq)]
pub struct Heading {
    /// The extension bit: whether the number of units is, or is said to be, outside the root. `false` if there is no
    /// such bit.
    pub is_outside: bool,
    /// The length determinant after it.
    pub determinant: LengthDeterminant,
}

/// The upper bound of the root, if it determines the form of the length determinant, and the extension bit does not
/// say that the number is outside the root (X.691 11.9.4.1).
#[inline(always)]
fn highest_inside(root: Bounded<usize>, is_outside: bool) -> Option<usize>
    ensures highest { result ≡ laws.told_highest is_outside ((counts_of root).high) }
    ensures bound { IfSome result (λ high. high < 65536) }
{
    if is_outside {
        return None;
    }
    highest_below_64k(root)
}

/// Reads a constrained whole number, the offset of a size from the lower bound (X.691 11.9.4.1).
///
/// # Errors
///
/// `Incomplete` if the bits end early, `SizeConstraintNotSatisfied` if the size is too large, and `InvalidPadding` if a
/// bit of padding is not zero, in strict rules.
#[inline(always)]
fn read_size(cursor: &mut Cursor<'_>, rules: PackedRules, span: u128) -> Result<u128, DecodeError>
    ensures ok { IfOk result (λ number. Front (freedoms rules)
        (Per.constrained (fronts.is_aligned rules) span number) cursor.old cursor.new) }
    ensures bound { IfOk result (λ number. number ≤ span) }
    ensures only { IfErr result (Misses (freedoms rules)
        (Per.constrained (fronts.is_aligned rules) span) cursor.old) }
{
    match read_constrained(cursor, rules, span) {
        Ok(number) => Ok(number),
        Err(DecodeError::ValueConstraintNotSatisfied) => Err(
            DecodeError::SizeConstraintNotSatisfied,
        ),
        Err(refusal) => Err(refusal),
    }
}

/// Reads a number of `lowest` to `highest` (X.691 11.9.4.1).
///
/// # Errors
///
/// `Incomplete` if the bits end early, `SizeConstraintNotSatisfied` if there is no such number, and `InvalidPadding` if
/// a bit of padding is not zero, in strict rules.
fn read_told_count(
    cursor: &mut Cursor<'_>,
    rules: PackedRules,
    lowest: usize,
    highest: usize,
) -> Result<usize, DecodeError>
    ensures ok { IfOk result (λ count. Front (freedoms rules)
        (told_count (fronts.is_aligned rules) lowest highest count) cursor.old cursor.new) }
    ensures bound { IfOk result (λ count. count ≤ highest) }
    ensures only { IfErr result (Misses (freedoms rules)
        (told_count (fronts.is_aligned rules) lowest highest) cursor.old) }
{
    if highest < lowest {
        return Err(DecodeError::SizeConstraintNotSatisfied);
    }
    let number = read_size(cursor, rules, (highest - lowest) as u128)?;
    Ok(lowest + number as usize)
}

/// Reads the first length determinant of a size with this root, for a number of units that is said to be outside it
/// or is not: the number, if the root bounds it below 65536, else a general length determinant (X.691 11.9.4).
///
/// # Errors
///
/// Those of [`read_heading`].
#[inline(always)]
fn read_determinant(
    cursor: &mut Cursor<'_>,
    rules: PackedRules,
    root: Bounded<usize>,
    is_outside: bool,
) -> Result<LengthDeterminant, DecodeError>
    ensures ok { IfOk result (λ determinant. Front (freedoms rules)
        (determinant_form (fronts.is_aligned rules) (counts_of root)
        (laws.told_highest is_outside ((counts_of root).high)) determinant) cursor.old cursor.new) }
    ensures bound { IfOk result IsDeterminant }
    ensures only { IfErr result (Misses (freedoms rules)
        (determinant_form (fronts.is_aligned rules) (counts_of root)
        (laws.told_highest is_outside ((counts_of root).high))) cursor.old) }
{
    match highest_inside(root, is_outside) {
        Some(highest) => {
            let count = read_told_count(cursor, rules, root.minimum(), highest)?;
            Ok(LengthDeterminant::Constrained(count))
        }
        None => {
            let length = read_length(cursor, rules)?;
            Ok(LengthDeterminant::General(length))
        }
    }
}

/// Reads what precedes the units under a size constraint, in a string as in a list or bag: the extension bit, if the
/// size is extensible, and the first length determinant (X.691 11.9.4, 16.6, 17.3, 20.4 and 30.4). After the units of
/// a fragment, [`read_length`] reads the next one, in lists for `DueMembers::next` of `per_codec_decoder`.
///
/// # Errors
///
/// `Incomplete` if the bits end early, `SizeConstraintNotSatisfied` if no number is in the root, and the errors of a
/// constrained whole number and of a length determinant.
#[inline(always)]
pub fn read_heading(
    cursor: &mut Cursor<'_>,
    rules: PackedRules,
    sizes: Sizes,
) -> Result<Heading, DecodeError>
    ensures ok { IfOk result (λ heading. Front (freedoms rules)
        (heading_form (fronts.is_aligned rules) (size_of sizes) heading) cursor.old cursor.new) }
    ensures bound { IfOk result (λ heading. IsDeterminant heading.determinant) }
    ensures only { IfErr result (Misses (freedoms rules)
        (heading_form (fronts.is_aligned rules) (size_of sizes)) cursor.old) }
{
    let is_outside = read_extension_bit(cursor, rules, sizes.is_extensible)?;
    let determinant = read_determinant(cursor, rules, sizes.root, is_outside)?;
    Ok(Heading {
        is_outside,
        determinant,
    })
}

/// Whether the Rust type holds `count` units, and they are in the root or said to be outside it (X.680 51.5).
#[inline(always)]
pub fn is_admitted(
    root: Bounded<usize>,
    held: Bounded<usize>,
    is_outside: bool,
    count: usize,
) -> bool
    ensures counts { result ≡ admitted (counts_of held) (counts_of root) is_outside count }
    ensures members { result ≡ admitted (members_of held) (counts_of root) is_outside count }
{
    held.holds(count) && (is_outside || root.contains(&count))
}

/// Whether an extension bit is accepted for `count` units: in strict rules, a number in the root is not said to be
/// outside it (X.691 16.6, 17.3, 20.4 and 30.4).
#[inline(always)]
pub fn is_accepted_outside(
    rules: PackedRules,
    root: Bounded<usize>,
    is_outside: bool,
    count: usize,
) -> bool
    ensures { result ≡ may_be_outside (freedoms rules Per.root_told_outside) is_outside
        (is_count_within (counts_of root) count) }
{
    !is_outside || !rules.is_strict() || !root.contains(&count)
}
