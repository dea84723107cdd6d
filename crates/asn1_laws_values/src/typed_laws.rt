//! The values of a type: normal forms are values of the type, and two values are equal exactly if their normal forms
//! are.

ghost use Rattle.asn1_laws_values.specs.TypedLaws.{EqualIfNormalFormsAre, LawfulExtendsItself, NormalKeepsTheType};
ghost use Rattle.asn1_laws_values.specs.TypedLaws.{ReadIsOfTheType};

/// The normal form of a value of a well-formed type (`is_lawful`) is a value of that type.
pub fn normal_keeps_the_type()
    ensures { NormalKeepsTheType }
{}

/// Two values of a type are equal, with absent components taken at their defaults, exactly if their normal forms are
/// the same (X.680 25).
pub fn equal_if_normal_forms_are()
    ensures { EqualIfNormalFormsAre }
{}

/// What a reader accepts is a value of the type, in all rules.
pub fn read_is_of_the_type()
    ensures { ReadIsOfTheType }
{}

/// A well-formed type (`is_lawful`) is a version of itself (X.680 52).
pub fn lawful_extends_itself()
    ensures { LawfulExtendsItself }
{}
