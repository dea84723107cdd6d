//! The pairs of types that are compared.
ghost use Rattle.std.specs.Prelude.{◌≡◌, IsTrue, OnOk};
ghost use Rattle.asn1_model.specs.Versions.{Begins};
ghost use Rattle.asn1_table_extending.specs.Leading.{AddsOnly};
ghost use Rattle.asn1_table_extending.specs.Matching.{IsListed};

use std::alloc::AllocError;

/// The places of a type of the older table and of one of the newer.
#[derive(Clone, Copy, Debug, PartialEq, Eq)]
pub struct Pair {
    /// The place in the older table.
    pub older: usize,
    /// The place in the newer table.
    pub newer: usize,
}

/// Lists a pair, unless it is listed.
pub fn add_pair(pairs: &mut Vec<Pair>, pair: Pair) -> Result<(), AllocError>
    ensures listed { OnOk result (IsListed pairs.new.items pair.older pair.newer) }
    ensures kept { OnOk result (Begins pairs.old.items pairs.new.items) }
    ensures added { OnOk result (AddsOnly (λ i j. (pair.older ≡ i) × (pair.newer ≡ j)) pairs.old.items
        pairs.new.items) }
{
    if is_listed(pairs.as_slice(), pair) {
        return Ok(());
    }
    pairs.push(pair)?;
    Ok(())
}

/// Whether a pair is listed.
fn is_listed(pairs: &[Pair], pair: Pair) -> bool
    ensures { IsTrue result → IsListed pairs.now pair.older pair.newer }
{
    for other in pairs {
        if other.older == pair.older && other.newer == pair.newer {
            return true;
        }
    }
    false
}
