//! Where padding precedes units after a constrained number, in the aligned variant (X.691 16, 17 and 30).
ghost use Rattle.std.specs.Prelude.{◌≡◌};
ghost use Rattle.asn1_model.specs.Per;
ghost use Rattle.asn1_schema_constraints.specs.Bounds.{counts_of};

use asn1_schema_constraints::Bounded;

/// Whether padding precedes `count` units of `unit` bits each, in a string whose size has this root. None precedes
/// zero bits, nor a string of a fixed size of at most 16 bits (X.691 16.9 to 16.11 and 17.6 to 17.8).
#[inline(always)]
pub fn string_has_padding(root: Bounded<usize>, unit: u32, count: usize) -> bool
    ensures { result ≡ Per.string_has_padding unit count (counts_of root) }
{
    let size = root.minimum();
    let is_fixed = match root.as_end() {
        Some(highest) => *highest == size,
        None => false,
    };
    let is_short = is_fixed && (size as u128) * (unit as u128) <= 16;
    count > 0 && unit > 0 && !is_short
}

/// Whether padding precedes `count` characters of `unit` bits each: as for a string, but never if the most characters
/// of the root have fewer than 16 bits (X.691 30.5.6 and 30.5.7).
#[inline(always)]
pub fn characters_have_padding(root: Bounded<usize>, unit: u32, count: usize) -> bool
    ensures { result ≡ Per.characters_have_padding unit count (counts_of root) }
{
    let has_padding = string_has_padding(root, unit, count);
    let Some(highest) = root.as_end() else {
        return has_padding;
    };
    let most = (*highest as u128) * (unit as u128);
    has_padding && most >= 16
}
