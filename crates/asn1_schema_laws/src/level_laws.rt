//! Nested levels in the records of a value: a decoder takes one level for each SEQUENCE OF, SET OF, SEQUENCE, SET,
//! group and CHOICE.

ghost use Rattle.asn1_schema_laws.specs.Levels.{Lowers, Nests};

/// The records of a value that has the form of a type are accepted exactly if at least the value's number of nested
/// levels is left, and leave that number unchanged.
pub fn levels_of_records()
    ensures { Lowers }
{}

/// So a chain of steps between numbers of levels passes the records of a value, and returns to its start, exactly if
/// the value's number of nested levels is left.
pub fn chains_of_levels()
    ensures { Nests }
{}
