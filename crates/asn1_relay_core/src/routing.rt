//! Messages that pass from hop to hop.
ghost use Rattle.std.specs.Prelude.{◌≡◌, ◌≢◌, ℕ, [], IfErr, IfSome};
ghost use Rattle.asn1_model.specs.Value.{Value};
ghost use Rattle.asn1_relay_core.specs.Routing.{Outcome, Answers, Comes, IsReached, IsCanonicalOf, IsToldBy};
ghost use Rattle.asn1_relay_core.specs.Routing.{IsOrLacksMemory, NamesMemoryAlone, NamesNoEarlierRefusal};
ghost use Rattle.asn1_relay_core.specs.Routing.{NamesNoMisplacedCall, NamesNoPlatformSize};
ghost use Rattle.asn1_relay_core.specs.Routing.{answer_of_hop, outcome_of};

use crate::hop::{Hop, Version};
use crate::route_fault::{RouteFault, RouteFaultKind};
use crate::{Codec, MessageType, RustType, recode_of};
use asn1_schema_decode::Decode;
use asn1_schema_encode::Encode;
use asn1_schema_types::Extends;
use std::alloc::Global;

/// Sends a message from hop to hop. The first hop decodes it by the rules `from`; each further hop decodes what the hop
/// before it encoded. Each hop encodes the value canonically by its own rules. A hop uses the type of its version,
/// `Old` or `New`. So each hop is a translation by `recode`, and the route is a chain of these.
///
/// There is exactly one right outcome, and this function returns it. Each error therefore occurs exactly when its cause
/// holds, and names the first hop that rejects the message. The only exception is memory that runs out, always reported
/// as `RouteFaultKind::Memory`.
///
/// A canonical encoding of a value of the newer version arrives as the canonical encoding, by the rules of the last
/// hop, of the value without what an older hop on the way did not know. A hop rejects it for these causes only:
///
/// * The first older hop lacks an alternative or an enumeration item that is used outside what it skips.
/// * The first hop of the route reads a value with more than 128 nested levels.
/// * The first older hop reads COER, strict UPER or strict APER, and a component is at its default once the unknown
///   additions are removed.
/// * A newer hop after an older one requires a component that was lost.
/// * What a hop writes has no encoding in its rules.
///
/// # Errors
///
/// * `Read`: no prefix of what the hop reads is an encoding of a value of its version with at most 128 nested levels.
/// * `Surplus`: octets follow the encoding.
/// * `NoTarget`: the value has no encoding in the rules of the hop.
/// * `Memory`: memory ran out.
///
/// All hops before the one of the error have succeeded.
pub fn route<Old: Encode + Decode, New: Encode + Decode + Extends<Old>>(
    alloc: Global,
    hops: &[Hop],
    from: Codec,
    input: &[u8],
) -> Result<Vec<u8>, RouteFault>
    requires { hops.now ≢ [] }
    ensures right { IfSome (outcome_of result) (Comes Old.schema New.schema from hops.now input.now) }
    ensures exact { (o : Outcome) → Comes Old.schema New.schema from hops.now input.now o
        → IsOrLacksMemory (outcome_of result) o }
    ensures told { (n : ℕ) (v : Value) → IsCanonicalOf from New.schema n v input.now
        → IfSome (outcome_of result) (IsToldBy Old.schema New.schema from hops.now n v) }
    ensures only_told { (n : ℕ) (v : Value) (o : Outcome) → IsCanonicalOf from New.schema n v input.now
        → IsToldBy Old.schema New.schema from hops.now n v o → IsOrLacksMemory (outcome_of result) o }
    ensures memory { IfErr result (λ fault. NamesMemoryAlone fault.kind) }
    ensures fresh { IfErr result (λ fault. NamesNoEarlierRefusal fault.kind) }
    ensures in_place { IfErr result (λ fault. NamesNoMisplacedCall fault.kind) }
    ensures fits { IfErr result (λ fault. NamesNoPlatformSize fault.kind) }
    ensures reached { IfErr result (λ fault. IsReached Old.schema New.schema from hops.now input.now fault.hop) }
{
    route_of(
        alloc,
        &RustType::<Old>::new(),
        &RustType::<New>::new(),
        hops,
        from,
        input,
    )
}

/// As `route`, for messages of any two types that are passed. Neither has to be a newer version of the other, so
/// nothing is said here of what arrives of a value: this is the chain of `recode_of` alone.
///
/// # Errors
///
/// As for `route`.
pub fn route_of<Old: MessageType, New: MessageType>(
    alloc: Global,
    older: &Old,
    newer: &New,
    hops: &[Hop],
    from: Codec,
    input: &[u8],
) -> Result<Vec<u8>, RouteFault>
    requires { hops.now ≢ [] }
    ensures right { IfSome (outcome_of result)
        (Comes (Old.schema older.now) (New.schema newer.now) from hops.now input.now) }
    ensures exact { (o : Outcome) → Comes (Old.schema older.now) (New.schema newer.now) from hops.now input.now o
        → IsOrLacksMemory (outcome_of result) o }
    ensures memory { IfErr result (λ fault. NamesMemoryAlone fault.kind) }
    ensures fresh { IfErr result (λ fault. NamesNoEarlierRefusal fault.kind) }
    ensures in_place { IfErr result (λ fault. NamesNoMisplacedCall fault.kind) }
    ensures fits { IfErr result (λ fault. NamesNoPlatformSize fault.kind) }
    ensures reached { IfErr result
        (λ fault. IsReached (Old.schema older.now) (New.schema newer.now) from hops.now input.now fault.hop) }
{
    let mut octets = pass(alloc, older, newer, 0, from, hops[0], input)?;
    let mut rules = hops[0].to;
    for place in 1..hops.len() {
        let hop = hops[place];
        octets = pass(alloc, older, newer, place, rules, hop, octets.as_slice())?;
        rules = hop.to;
    }
    Ok(octets)
}

/// The output of the hop with the index `place`, for octets in the rules `from`.
fn pass<Old: MessageType, New: MessageType>(
    alloc: Global,
    older: &Old,
    newer: &New,
    place: usize,
    from: Codec,
    hop: Hop,
    input: &[u8],
) -> Result<Vec<u8>, RouteFault>
    ensures right { IfSome (answer_of_hop result)
        (Answers (Old.schema older.now) (New.schema newer.now) from hop input.now) }
    ensures memory { IfErr result (λ fault. NamesMemoryAlone fault.kind) }
    ensures fresh { IfErr result (λ fault. NamesNoEarlierRefusal fault.kind) }
    ensures in_place { IfErr result (λ fault. NamesNoMisplacedCall fault.kind) }
    ensures fits { IfErr result (λ fault. NamesNoPlatformSize fault.kind) }
    ensures named { IfErr result (λ fault. fault.hop ≡ place) }
{
    let recoded = match hop.version {
        Version::Old => recode_of(alloc, older, from, hop.to, input),
        Version::New => recode_of(alloc, newer, from, hop.to, input),
    };
    match recoded {
        Ok(octets) => Ok(octets),
        Err(fault) => Err(RouteFault {
            hop: place,
            kind: RouteFaultKind::from(fault),
        }),
    }
}
