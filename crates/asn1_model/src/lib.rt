//! The model of ASN.1 and of its encodings: types and values as mathematical data, and which octets encode which
//! value.
//!
//! All definitions are in `specs/`; docs/DEFINITIONS.md gives a reading order. The functions here carry the rows:
//! worked examples that the definitions are computed to give.
#![tactic(auto)]

ghost use Rattle.asn1_model.specs.Rows.{RangeRows, SizeRows, TableRows};
ghost use Rattle.asn1_model.specs.VersionRows.{LawfulRows, VersionRows};

/// Bounds at which the form of an encoding changes.
pub fn range_rows()
    ensures { RangeRows }
{}

/// Enumerations, identifiers and tags.
pub fn table_rows()
    ensures { TableRows }
{}

/// Sizes at which the form of an encoding changes.
pub fn size_rows()
    ensures { SizeRows }
{}

/// Well-formed types (`is_lawful`), and types that are not.
pub fn lawful_rows()
    ensures { LawfulRows }
{}

/// Versions of types, and what a value of one is in the other (X.680 52).
pub fn version_rows()
    ensures { VersionRows }
{}
