//! Messages that pass from hop to hop.
ghost use Rattle.std.specs.Prelude.{◌≡◌, ◌≢◌, ℕ, [], IfErr, IfSome};
ghost use Rattle.asn1_model.specs.Value.{Value};
ghost use Rattle.asn1_relay_core.specs.Routing.{Outcome, Comes, IsReached, IsCanonicalOf, IsToldBy};
ghost use Rattle.asn1_relay_core.specs.Routing.{IsOrLacksMemory, NamesMemoryAlone, NamesNoEarlierRefusal};
ghost use Rattle.asn1_relay_core.specs.Routing.{NamesNoMisplacedCall, NamesNoPlatformSize};
ghost use Rattle.asn1_relay_core.specs.Routing.{outcome_of};
ghost use Rattle.asn1_table_relay.specs.Schemas.{IsNewer, older_of, newer_of};

use crate::{TableType, Versions};
use asn1_relay_core::{Codec, Hop, RouteFault, route_of};
use std::alloc::Global;

/// Sends a message from hop to hop, as `route` of `asn1_relay_core` does, where a hop uses one of two types of tables,
/// of which one is a newer version of the other (`Versions::new`). What is said there holds here.
///
/// # Errors
///
/// As for `route`.
pub fn route_by(
    alloc: Global,
    versions: &Versions<'_>,
    hops: &[Hop],
    from: Codec,
    input: &[u8],
) -> Result<Vec<u8>, RouteFault>
    requires some { hops.now ≢ [] }
    requires newer { IsNewer versions.now }
    ensures right { IfSome (outcome_of result)
        (Comes (older_of versions.now) (newer_of versions.now) from hops.now input.now) }
    ensures exact { (o : Outcome) → Comes (older_of versions.now) (newer_of versions.now) from hops.now input.now o
        → IsOrLacksMemory (outcome_of result) o }
    ensures told { (n : ℕ) (v : Value) → IsCanonicalOf from (newer_of versions.now) n v input.now
        → IfSome (outcome_of result)
        (IsToldBy (older_of versions.now) (newer_of versions.now) from hops.now n v) }
    ensures only_told { (n : ℕ) (v : Value) (o : Outcome)
        → IsCanonicalOf from (newer_of versions.now) n v input.now
        → IsToldBy (older_of versions.now) (newer_of versions.now) from hops.now n v o
        → IsOrLacksMemory (outcome_of result) o }
    ensures memory { IfErr result (λ fault. NamesMemoryAlone fault.kind) }
    ensures fresh { IfErr result (λ fault. NamesNoEarlierRefusal fault.kind) }
    ensures in_place { IfErr result (λ fault. NamesNoMisplacedCall fault.kind) }
    ensures fits { IfErr result (λ fault. NamesNoPlatformSize fault.kind) }
    ensures reached { IfErr result (λ fault. IsReached (older_of versions.now) (newer_of versions.now) from
        hops.now input.now fault.hop) }
{
    let older = TableType {
        types: versions.older,
        place: versions.old_place,
    };
    let newer = TableType {
        types: versions.newer,
        place: versions.new_place,
    };
    route_of(alloc, &older, &newer, hops, from, input)
}
