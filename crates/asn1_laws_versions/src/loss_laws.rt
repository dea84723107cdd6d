//! What is lost of a value if the older version of its type reads it (X.680 52): when the loss conflicts with the
//! normal form, and how many nested levels are left.

ghost use Rattle.asn1_laws_versions.specs.LossLaws.{ClashIsDefaultLeft, DroppedNestsAsSeen};

/// If a value can be reduced to what the older version knows, the result conflicts with the normal form exactly if a
/// component that the older version knows, and that in the normal form is inside nothing the older version lacks, is
/// left at its default.
pub fn clash_is_default_left()
    ensures { ClashIsDefaultLeft }
{}

/// If a value can be so reduced, the result has as many nested levels as the normal form, not counting those inside
/// what the older version lacks.
pub fn dropped_nests_as_seen()
    ensures { DroppedNestsAsSeen }
{}
