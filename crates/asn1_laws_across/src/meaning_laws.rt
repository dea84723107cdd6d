//! Translation between rules: what is equal in one is equal in the others, and a detour changes no octet.

ghost use Rattle.asn1_laws_across.specs.Laws.{OneMeaning, EncodingsTellNormalForms, DetoursChangeNothing};
ghost use Rattle.asn1_laws_across.specs.Laws.{InOrderIsCanonical, OwnWidthIsCanonical, RigidIsCanonical};
ghost use Rattle.asn1_laws_across.specs.Laws.{ReadWithOwnWidth};
ghost use Rattle.asn1_laws_across.specs.Laws.{StrictWritesAlike};
ghost use Rattle.asn1_laws_across.specs.InOrder.{InOrderRows};

/// If octets are an encoding of several values, these are equal: they have the same normal form, up to the order of
/// the elements of a SET OF, and the same canonical encoding in all rules.
pub fn one_meaning()
    ensures { OneMeaning }
{}

/// The canonical encodings of two values are equal exactly if their normal forms are equal. So if both have canonical
/// encodings in two sets of rules, these are equal in one exactly if they are equal in the other.
pub fn encodings_tell_normal_forms()
    ensures { EncodingsTellNormalForms }
{}

/// A detour changes no octet: encoding what was read in between gives the same as encoding what was read first. So
/// what was transcoded once is transcoded to itself.
pub fn detours_change_nothing()
    ensures { DetoursChangeNothing }
{}

/// Strict rules write what the lenient ones write: UPER, APER, and OER as COER.
pub fn strict_writes_alike()
    ensures { StrictWritesAlike }
{}

/// Octets that are canonical except for the order of the elements of each SET OF, and where these elements ascend, are
/// the canonical encoding of the value; and the canonical encoding is such octets.
pub fn in_order_is_canonical()
    ensures { InOrderIsCanonical }
{}

/// Octets that are canonical except for the bitmaps of additions and the order of the elements of each SET OF, where
/// each bitmap has the width of its type (X.691 19.7, X.696 16.4) and these elements ascend, are the canonical encoding
/// of the value.
pub fn own_width_is_canonical()
    ensures { OwnWidthIsCanonical }
{}

/// What a reader accepts is such octets, where each bitmap of additions has the width of its type, the elements of each
/// SET OF ascend, and no other freedom of the reader is used.
pub fn read_with_own_width()
    ensures { ReadWithOwnWidth }
{}

/// What a strict reader accepts of a type without a SET OF, and without extension markers on its SEQUENCE and SET
/// types at any depth, is the canonical encoding of the value.
pub fn rigid_is_canonical()
    ensures { RigidIsCanonical }
{}

/// The SET OF 3, 1 and 2, encoded as 1, 2, 3, is in order.
pub fn in_order_rows()
    ensures { InOrderRows }
{}
