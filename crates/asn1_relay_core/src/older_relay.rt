//! Relays of the older version of a type that receive messages of the newer one.
ghost use Rattle.asn1_relay_core.specs.OlderRelays.{OlderRelayIsTold};

use asn1_schema_types::{Described, Extends};

/// A relay of the older version receives canonical encodings of values of the newer version, one after another, none of
/// which is empty. It writes the canonical encodings of what the older version knows of these values, up to the first
/// message that it cannot read, that is over the limit, or whose translation does not exist or is empty.
pub fn older_relay_is_told<Old: Described, New: Extends<Old>>()
    ensures { OlderRelayIsTold Old.schema New.schema }
{}
