//! When a type is a newer version of another (X.680 52), and how a value of the older version is carried over to the
//! newer one.

ghost use Rattle.asn1_laws_versions.specs.ExtendingLaws.{ExtendingIsTransitive, GrowingTwiceIsGrowing};
ghost use Rattle.asn1_laws_versions.specs.ExtendingLaws.{GrowingKeepsValuesApart};
ghost use Rattle.asn1_laws_versions.specs.ExtendingLaws.{GrowingKeepsNormalForms, SameIsCarriedAlike, SameNestsAlike};
ghost use Rattle.asn1_laws_versions.specs.ExtendingLaws.{GrowingKeepsLevels};
ghost use Rattle.asn1_laws_versions.specs.ExtendingLaws.{DroppingUndoesGrowing};

/// A newer version of a newer version is a newer version.
pub fn extending_is_transitive()
    ensures { ExtendingIsTransitive }
{}

/// Carrying a value over to a newer version, and then to one newer still, is the same as carrying it over at once.
pub fn growing_twice_is_growing()
    ensures { GrowingTwiceIsGrowing }
{}

/// Two values are equal exactly if they are equal when carried over to a newer version.
pub fn growing_keeps_values_apart()
    ensures { GrowingKeepsValuesApart }
{}

/// If a value can be carried over to a newer version, so can any equal value, and the results are equal.
pub fn same_is_carried_alike()
    ensures { SameIsCarriedAlike }
{}

/// Normal forms are preserved: the normal form of a value is carried over to the normal form of the carried value, and
/// a value in normal form to one in normal form.
pub fn growing_keeps_normal_forms()
    ensures { GrowingKeepsNormalForms }
{}

/// Equal values have the same number of nested levels.
pub fn same_nests_alike()
    ensures { SameNestsAlike }
{}

/// A value carried over to a newer version has the same number of nested levels.
pub fn growing_keeps_levels()
    ensures { GrowingKeepsLevels }
{}

/// A value of the older version in normal form, carried over to the newer one and then reduced to what the older one
/// knows, is unchanged.
pub fn dropping_undoes_growing()
    ensures { DroppingUndoesGrowing }
{}
