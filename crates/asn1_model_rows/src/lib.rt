//! More worked examples of the model, computed from the definitions: encodings, and octets that are not encodings.
#![tactic(auto)]

ghost use Rattle.asn1_model_rows.specs.ReadingRows.{FormRows, FreedomRows, NoValueRows, OutsideIsTold, ReadingRows};
ghost use Rattle.asn1_model_rows.specs.ReadingRows.{RefusedRows};
ghost use Rattle.asn1_model_rows.specs.Rows.{NumberRows, StringRows, StructureRows, AdditionRows, LongRows};
ghost use Rattle.asn1_model_rows.specs.Rows.{CharacterRows, OpenRows, LengthRows, FragmentRows, WholeSizeRows};

/// BOOLEAN and INTEGER (X.691 11.5 to 13, X.696 9 and 10).
pub fn number_rows()
    ensures { NumberRows }
{}

/// Bit strings, octet strings and character strings (X.691 16, 17 and 30, X.696 13, 14 and 27).
pub fn string_rows()
    ensures { StringRows }
{}

/// SEQUENCE, SET, SEQUENCE OF, SET OF and CHOICE (X.691 19 to 23, X.696 16 to 20).
pub fn structure_rows()
    ensures { StructureRows }
{}

/// Extension additions to SEQUENCE, CHOICE and ENUMERATED (X.691 19, 14 and 23, X.696 16, 11 and 20).
pub fn addition_rows()
    ensures { AdditionRows }
{}

/// Permitted alphabets.
pub fn character_rows()
    ensures { CharacterRows }
{}

/// Extension additions, open types and SET OF.
pub fn open_rows()
    ensures { OpenRows }
{}

/// Lengths at which the form of the length determinant changes.
pub fn length_rows()
    ensures { LengthRows }
{}

/// Fragments: 16383, 16384, 16385, 65535, 65536 and 80000 units.
pub fn fragment_rows()
    ensures { FragmentRows }
{}

/// A fixed size of 65535 and of 65536, and elements that do not end at octet boundaries.
pub fn whole_size_rows()
    ensures { WholeSizeRows }
{}

/// Long encodings.
pub fn long_rows()
    ensures { LongRows }
{}

/// Octets that are an encoding of a value, many of them not the canonical one.
pub fn reading_rows()
    ensures { ReadingRows }
{}

/// Octets that are not an encoding of the value that a more lenient reader would find, or that they seem to encode.
pub fn refused_rows()
    ensures { RefusedRows }
{}

/// Details that no freedom permits: no such encoding exists.
pub fn form_rows()
    ensures { FormRows }
{}

/// Octets that are not an encoding of any value.
pub fn no_value_rows()
    ensures { NoValueRows }
{}

/// No PER reader accepts a value outside the root after an extension bit of zero, whatever follows.
pub fn outside_is_told()
    ensures { OutsideIsTold }
{}

/// The freedoms of the strict readers: three of thirteen in OER, two of twelve in PER.
pub fn freedom_rows()
    ensures { FreedomRows }
{}
