//! The order of the elements of a SET OF (X.691 22 and X.696 19): they ascend, and the canonical encoding does not
//! depend on the order in which they are given.

ghost use Rattle.asn1_laws_across.specs.OrderLaws.{EncodingsAreOrdered, SameIsWrittenAlike};
ghost use Rattle.asn1_laws_across.specs.OrderLaws.{MembersAscend, BagsAreWrittenInOrder};

/// The order of the elements of a SET OF is a total order on their encodings, in octets and in bits.
pub fn encodings_are_ordered()
    ensures { EncodingsAreOrdered }
{}

/// Equal values have the same canonical encoding, in whatever order the elements of their SET OF are given.
pub fn same_is_written_alike()
    ensures { SameIsWrittenAlike }
{}

/// The elements of a SET OF in ascending order are those that were given, and of two neighbours the second's encoding
/// is not less than the first's.
pub fn members_ascend()
    ensures { MembersAscend }
{}

/// The encoding of a SET OF consists of the encodings of all its elements in that order.
pub fn bags_are_written_in_order()
    ensures { BagsAreWrittenInOrder }
{}
