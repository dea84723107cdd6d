//! Two versions of a type, of a table each.
ghost use Rattle.std.specs.Prelude.{◌≡◌, IfErr, IfOk};
ghost use Rattle.asn1_table_extending.specs.Leading.{IsRefused};
ghost use Rattle.asn1_table_relay.specs.Schemas.{IsNewer};

use asn1_table_extending::{ExtendingError, check_extends};
use asn1_table_types::Types;
use std::alloc::Global;

/// A type of a table, and another one of the same or another table.
#[derive(Drop)]
pub struct Versions<'a> {
    /// The table of the older version.
    pub older: &'a Types,
    /// The index of the older version.
    pub old_place: usize,
    /// The table of the newer version.
    pub newer: &'a Types,
    /// The index of the newer version.
    pub new_place: usize,
}

impl<'a> Versions<'a> {
    /// These two types, if one is a newer version of the other (`check_extends`).
    ///
    /// # Errors
    ///
    /// `NotExtended` with the places of two types to which these lead and which differ, or `OutOfMemory`.
    pub fn new(
        alloc: Global,
        older: &'a Types,
        old_place: usize,
        newer: &'a Types,
        new_place: usize,
    ) -> Result<Versions<'a>, ExtendingError>
        ensures is_newer { IfOk result IsNewer }
        ensures older { IfOk result (λ v. v.older.now ≡ older.now) }
        ensures old_place { IfOk result (λ v. v.old_place ≡ old_place) }
        ensures newer { IfOk result (λ v. v.newer.now ≡ newer.now) }
        ensures new_place { IfOk result (λ v. v.new_place ≡ new_place) }
        ensures refused { IfErr result (IsRefused older.now.nodes.items newer.now.nodes.items old_place new_place) }
    {
        check_extends(alloc, newer, new_place, older, old_place)?;
        Ok(Versions {
            older,
            old_place,
            newer,
            new_place,
        })
    }
}
