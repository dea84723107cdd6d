//! What appending octets changes for a decoder of OER (X.696): nothing, if it takes none of them. The functions do
//! nothing; their contracts are laws.
#![tactic(auto)]

ghost use Rattle.oer_codec_longer_laws.specs.Few.{FewCarried};
ghost use Rattle.oer_codec_longer_laws.specs.Laws.{EmptyEverywhere, LeftIsNotNeeded};
ghost use Rattle.oer_codec_longer_laws.specs.Laws.{LengthsAreLacking, MembersAreLacking};
ghost use Rattle.oer_codec_longer_laws.specs.Laws.{MoreChangesNothing, MoreInPieces, NothingGrows, TakesSome};

/// Records that are next are still next when octets are appended, and these follow what is left then.
pub fn more_changes_nothing()
    ensures { MoreChangesNothing }
{}

/// If as many octets are left after records as were appended last, the records are next without these.
pub fn what_is_left_is_not_needed()
    ensures { LeftIsNotNeeded }
{}

/// Appending octets in two pieces is the same as in one.
pub fn more_comes_in_pieces()
    ensures { MoreInPieces }
{}

/// After records no more octets are left outside all open types than before.
pub fn nothing_grows()
    ensures { NothingGrows }
{}

/// If a value of a well-formed type takes no octets in one state, one that is equal up to the order of the elements of
/// each SET OF takes none in every state.
pub fn empty_everywhere()
    ensures { EmptyEverywhere }
{}

/// If no value of a well-formed type is next in some state, the records of each take at least one octet in every state.
pub fn values_take_some()
    ensures { TakesSome }
{}

/// If no element of a list is next, not even with some octets appended, and further elements are to come, the list
/// lacks at least one more octet for each of them.
pub fn members_are_lacking()
    ensures { MembersAreLacking }
{}

/// If octets begin with a length determinant, the octets that it counts are not there until as many follow it.
pub fn lengths_are_lacking()
    ensures { LengthsAreLacking }
{}

/// What is next is also next with a few octets appended, and if an element is missing, so are those that are to come
/// after it.
pub fn few_more_are_carried()
    ensures { FewCarried }
{}
