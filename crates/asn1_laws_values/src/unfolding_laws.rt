//! A recursive type means the same at any depth of unfolding, and any type means the same with each default in its
//! normal form.

ghost use Rattle.asn1_laws_values.specs.UnfoldingLaws.{AgreesWithItself, MeansTheSame, NormalDefaultsAgree};
ghost use Rattle.asn1_laws_values.specs.UnfoldingLaws.{NormalDefaultsLoseNothing, UnfoldingsAgree};
ghost use Rattle.asn1_laws_values.specs.UnfoldingLaws.{UnfoldingsMeanTheSame};
ghost use Rattle.asn1_laws_values.specs.UnfoldingLaws.{TidiedIsLawful, TidiedKeepsValues, TidiedKeepsVersions};
ghost use Rattle.asn1_laws_values.specs.UnfoldingLaws.{TidiedCarriesAlike};
ghost use Rattle.asn1_laws_values.specs.Tidied.{TidyRows};
ghost use Rattle.asn1_laws_values.specs.Unfolding.{LevelRows, RecursiveRows};

/// Two types that agree for a number of levels, as two unfoldings of one recursive type do, and whose defaults are in
/// normal form: a value of at most that many nested levels has the same normal form, encodings and canonical encoding
/// in both (X.680 25 and 29).
pub fn means_the_same()
    ensures { MeansTheSame }
{}

/// A default that is normal in both types has the same normal form in both.
pub fn normal_defaults_agree()
    ensures { NormalDefaultsAgree }
{}

/// Any type agrees with itself for any number of levels.
pub fn agrees_with_itself()
    ensures { AgreesWithItself }
{}

/// For types that refer to one another by name (a value of `Name`), two unfoldings of one of them, each to at least a
/// number of levels, agree for that number of levels.
pub fn unfoldings_agree<Name>()
    ensures { UnfoldingsAgree Name }
{}

/// A value of at most that number of nested levels means the same in every unfolding of such a type to that number or
/// more.
pub fn unfoldings_mean_the_same<Name>()
    ensures { UnfoldingsMeanTheSame Name }
{}

/// Recursive types: a CHOICE; a SEQUENCE with itself as a component with a default and as the element of a SEQUENCE
/// OF; a SEQUENCE and its SEQUENCE OF as two named types; and two mutually recursive types, with one that contains
/// them.
pub fn recursive_rows()
    ensures { RecursiveRows }
{}

/// Unfolding takes a level for each SEQUENCE OF, SEQUENCE and CHOICE.
pub fn level_rows()
    ensures { LevelRows }
{}

/// Any type means the same, in all rules, as one whose defaults are in normal form.
pub fn normal_defaults_lose_nothing()
    ensures { NormalDefaultsLoseNothing }
{}

/// A well-formed type (`is_lawful`) stays so with each default in its normal form (X.680 25).
pub fn tidied_is_lawful()
    ensures { TidiedIsLawful }
{}

/// A type has the same values with each default in its normal form.
pub fn tidied_keeps_values()
    ensures { TidiedKeepsValues }
{}

/// A type is a newer version of another exactly if it is so with all defaults in normal form (X.680 52).
pub fn tidied_keeps_versions()
    ensures { TidiedKeepsVersions }
{}

/// Between two versions, a value is carried over as the same value with all defaults in normal form.
pub fn tidied_carries_alike()
    ensures { TidiedCarriesAlike }
{}

/// A default that encodes a component at that component's own default, and its normal form.
pub fn tidy_rows()
    ensures { TidyRows }
{}
