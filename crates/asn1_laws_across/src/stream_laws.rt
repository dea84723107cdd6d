//! How octets divide into messages and a rest, and what a relay does with octets that arrive in pieces.

ghost use Rattle.asn1_laws_across.specs.StreamLaws.{DividedOnce, GoesOnAlike, BeginsAlike};
ghost use Rattle.asn1_laws_across.specs.StreamLaws.{RelayedOnce, RelayGoesOn, RelayStopsForGood, PiecesAreJoined};
ghost use Rattle.asn1_laws_across.specs.StreamLaws.{RelaysTheFirst, RelaysAll, WithinTheLimit, NoneWithinIsNone};
ghost use Rattle.asn1_laws_across.specs.StreamLaws.{EmptyIsAlone};
ghost use Rattle.asn1_laws_across.specs.Rows.{RelayRows};

/// Octets divide into messages and a rest in at most one way.
pub fn divided_once()
    ensures { DividedOnce }
{}

/// If more octets arrive, the messages so far are followed by those into which the rest and the new octets divide.
pub fn goes_on_alike()
    ensures { GoesOnAlike }
{}

/// If more octets arrive, any division of all the octets begins with the messages so far, and the rest and the new
/// octets divide into its other messages.
pub fn begins_alike()
    ensures { BeginsAlike }
{}

/// A relay has at most one result on given octets.
pub fn relayed_once()
    ensures { RelayedOnce }
{}

/// If a relay waits and more octets arrive, it goes on with the unread octets.
pub fn relay_goes_on()
    ensures { RelayGoesOn }
{}

/// If a relay stops, it stops there for the same reason whatever octets follow.
pub fn relay_stops_for_good()
    ensures { RelayStopsForGood }
{}

/// Only the concatenation of the pieces matters, not where they are cut.
pub fn pieces_are_joined()
    ensures { PiecesAreJoined }
{}

/// A relay relays the first of the messages into which octets divide: all of them, with the rest unread, or those
/// before the first one whose encoding in the target rules does not exist or is empty.
pub fn relays_the_first()
    ensures { RelaysTheFirst }
{}

/// If each of these messages has a non-empty encoding in the target rules, all are relayed, and the rest is unread.
pub fn relays_all()
    ensures { RelaysAll }
{}

/// Octets begin with no message within the limit exactly if their first octets, up to the limit, do so.
pub fn within_the_limit()
    ensures { WithinTheLimit }
{}

/// If octets, at least as many as the limit of a message, begin with no message, they begin with none whatever octets
/// follow.
pub fn none_within_is_none()
    ensures { NoneWithinIsNone }
{}

/// If the empty octet string is an encoding of the type, no other octets are, so no octets begin with a message.
pub fn empty_is_alone()
    ensures { EmptyIsAlone }
{}

/// What a relay does with worked examples.
pub fn relay_rows()
    ensures { RelayRows }
{}
