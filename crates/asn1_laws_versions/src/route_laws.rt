//! Messages that pass from hop to hop, where each hop knows the older or the newer version of their type.

ghost use Rattle.asn1_laws_versions.specs.RouteLaws.{GrowingIsOfNormalForms, DroppingNestsNoDeeper};
ghost use Rattle.asn1_laws_versions.specs.RouteLaws.{OneAnswerIsRight, EachHopAnswers};
ghost use Rattle.asn1_laws_versions.specs.RouteLaws.{RouteDoesOneThing, RouteArrivesExactly, RouteRefusesExactly};
ghost use Rattle.asn1_laws_versions.specs.RouteLaws.{RouteEnds};
ghost use Rattle.asn1_laws_versions.specs.RouteLaws.{OlderRelayGoes, OlderRelayDoes};
ghost use Rattle.asn1_laws_versions.specs.RouteRows.{RouteRows};

/// A value of the older version can be carried over to the newer one exactly if its normal form can, and then both
/// results have the same normal form.
pub fn growing_is_of_normal_forms()
    ensures { GrowingIsOfNormalForms }
{}

/// A value reduced to what the older version knows has at most as many nested levels as its normal form.
pub fn dropping_nests_no_deeper()
    ensures { DroppingNestsNoDeeper }
{}

/// At most one answer to given octets is right.
pub fn one_answer_is_right()
    ensures { OneAnswerIsRight }
{}

/// A hop passes on the canonical encoding of the value that it writes, unless a cause for refusal holds; then it
/// refuses as the cause says.
pub fn each_hop_answers()
    ensures { EachHopAnswers }
{}

/// A route has at most one result on given octets: they arrive as other octets, or one hop refuses them in one way.
pub fn route_does_one_thing()
    ensures { RouteDoesOneThing }
{}

/// The canonical encoding of a value of the newer version arrives exactly if no cause for refusal holds at any hop. It
/// arrives as the canonical encoding, in the rules of the last hop, of the value that this hop writes.
pub fn route_arrives_exactly()
    ensures { RouteArrivesExactly }
{}

/// It is refused at the first hop where a cause for refusal holds, and at no other, as the cause says.
pub fn route_refuses_exactly()
    ensures { RouteRefusesExactly }
{}

/// It arrives, or a hop refuses it.
pub fn route_ends()
    ensures { RouteEnds }
{}

/// The older version relays the concatenated canonical encodings of values of the newer version up to the first where
/// a cause for refusal holds, that is over the limit, or whose translation is empty.
pub fn older_relay_goes()
    ensures { OlderRelayGoes }
{}

/// This is what a relay does that knows only the older version.
pub fn older_relay_does()
    ensures { OlderRelayDoes }
{}

/// Routes and relays of worked examples.
pub fn route_rows()
    ensures { RouteRows }
{}
