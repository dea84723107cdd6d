//! What readers with more or fewer freedoms accept of one message (X.691, X.696), and that what is written is read:
//! the basis of translation between encoding rules.

ghost use Rattle.asn1_laws_values.specs.MessageLaws.{PerWidens, OerWidens, PerCanonical, OerCanonical, StrictIsLenient};
ghost use Rattle.asn1_laws_values.specs.MessageLaws.{CanonicalIsRead, NormalForms, StrictReadsNormal};

/// What a reader accepts, a reader with more freedoms accepts as the same value (X.691).
pub fn per_widens()
    ensures { PerWidens }
{}

/// What a reader accepts, a reader with more freedoms accepts as the same value (X.696).
pub fn oer_widens()
    ensures { OerWidens }
{}

/// A reader without freedoms accepts exactly the canonical encoding (X.691).
pub fn per_canonical()
    ensures { PerCanonical }
{}

/// A reader without freedoms accepts exactly the canonical encoding (X.696).
pub fn oer_canonical()
    ensures { OerCanonical }
{}

/// The lenient reader accepts all that the strict one does.
pub fn strict_is_lenient()
    ensures { StrictIsLenient }
{}

/// What is written is read, in the same rules, as the normal form of the value.
pub fn canonical_is_read()
    ensures { CanonicalIsRead }
{}

/// A normal form is its own normal form and satisfies `is_normal`.
pub fn normal_forms()
    ensures { NormalForms }
{}

/// A value that a strict reader accepts is in normal form: no component is encoded at its default, and no group is
/// empty.
pub fn strict_reads_normal()
    ensures { StrictReadsNormal }
{}
