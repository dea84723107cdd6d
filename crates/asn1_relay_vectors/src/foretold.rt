//! The expected outcome of a message on a route, computed from its value: no hop reads what the hop before it wrote.
use asn1_relay_core::{Codec, DecodeError, Extends, RouteFault, RouteFaultKind, Version, route};
use asn1_relay_vectors_judging::routes::{Versions, Way};
use asn1_relay_vectors_lines::line::LineError;
use asn1_relay_vectors_lines::route::Arrival;
use asn1_schema_decode::Decode;
use asn1_schema_encode::Encode;
use std::alloc::Global;
use std::marker::PhantomData;

/// A newer version of a type, with the samples of its values and what the older version knows of each.
pub trait Grown<Old>: Sized {
    /// The value with this index in a short list, and none after its end.
    fn sample(place: usize) -> Option<Self>;

    /// The value without what the older version does not know.
    ///
    /// # Errors
    ///
    /// The error of the older version's decoders, if nothing is left of the value.
    fn lessened(&self) -> Result<Old, DecodeError>;

    /// A value of the older version, with the additions absent.
    ///
    /// # Errors
    ///
    /// The error of the newer version's decoders, if an addition is required.
    fn grown(older: &Old) -> Result<Self, DecodeError>;

    /// Whether a component that is not at its default becomes so without what the older version does not know.
    fn clashes(&self) -> bool;
}

/// The types `Old` and `New`, with samples.
pub struct Known<Old, New>(pub PhantomData<(Old, New)>);

impl<Old: Encode + Decode, New: Encode + Decode + Extends<Old> + Grown<Old>> Versions
    for Known<Old, New> {
    fn send(&self, alloc: Global, way: Way<'_>, octets: &[u8]) -> Result<Arrival, LineError> {
        send_between::<Old, New>(alloc, way, octets)
    }

    fn foretell(&self, alloc: Global, place: usize, way: Way<'_>) -> Option<Arrival> {
        let value = New::sample(place)?;
        Some(foretold::<Old, New>(alloc, value, way))
    }
}

/// The types `Old` and `New`, without samples: messages are sent, and no outcome is computed.
pub struct Sent<Old, New>(pub PhantomData<(Old, New)>);

impl<Old: Encode + Decode, New: Encode + Decode + Extends<Old>> Versions for Sent<Old, New> {
    fn send(&self, alloc: Global, way: Way<'_>, octets: &[u8]) -> Result<Arrival, LineError> {
        send_between::<Old, New>(alloc, way, octets)
    }

    fn foretell(&self, _alloc: Global, _place: usize, _way: Way<'_>) -> Option<Arrival> {
        None
    }
}

/// Sends octets over hops, if there are any.
fn send_between<Old: Encode + Decode, New: Encode + Decode + Extends<Old>>(
    alloc: Global,
    way: Way<'_>,
    octets: &[u8],
) -> Result<Arrival, LineError> {
    if way.hops.is_empty() {
        return Err(LineError::Form);
    }
    Ok(route::<Old, New>(alloc, way.hops, way.from, octets))
}

/// Whether decoders by these rules reject a component that is encoded at its default.
fn is_strict(rules: Codec) -> bool {
    matches!(rules, Codec::Coer | Codec::UperStrict | Codec::AperStrict)
}

/// A value of one of two versions.
#[derive(Drop)]
enum Held<Old, New> {
    Older(Old),
    Newer(New),
}

impl<Old: Drop, New: Grown<Old> + Drop> Held<Old, New> {
    /// The value that a hop of this version has read by these rules.
    fn passed(self, version: Version, rules: Codec) -> Result<Held<Old, New>, DecodeError> {
        match (version, self) {
            (Version::Old, Held::Newer(value)) => {
                if is_strict(rules) && value.clashes() {
                    return Err(DecodeError::NotValidCanonicalEncoding);
                }
                Ok(Held::Older(value.lessened()?))
            }
            (Version::New, Held::Older(value)) => Ok(Held::Newer(New::grown(&value)?)),
            (_, held) => Ok(held),
        }
    }
}

/// The expected outcome of a value that is sent over hops.
fn foretold<Old: Encode + Decode, New: Encode + Decode + Grown<Old>>(
    alloc: Global,
    value: New,
    way: Way<'_>,
) -> Arrival {
    let Way { from, hops } = way;
    let mut held: Held<Old, New> = Held::Newer(value);
    let mut rules = from;
    for place in 0..hops.len() {
        let hop = hops[place];
        held = held.passed(hop.version, rules).map_err(|error| RouteFault {
            hop: place,
            kind: RouteFaultKind::Read(error),
        })?;
        rules = hop.to;
    }
    let written = match held {
        Held::Older(value) => rules.encode(alloc, &value),
        Held::Newer(value) => rules.encode(alloc, &value),
    };
    let hop = hops.len().saturating_sub(1);
    written.map_err(|error| RouteFault {
        hop,
        kind: RouteFaultKind::NoTarget(error),
    })
}
