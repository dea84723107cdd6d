//! Unique prefixes in all rules (X.691 and X.696): at most one prefix of some octets is an encoding of a type, and it
//! determines the value, up to the order of the elements of a SET OF. The function does nothing: its contract is a
//! law.

ghost use Rattle.asn1_laws_fronts.specs.Laws.{OneFront};

/// At most one prefix of some octets is an encoding of a well-formed type (`is_lawful`), and of one value, up to the
/// order of the elements of a SET OF.
pub fn one_front()
    ensures { OneFront }
{}
