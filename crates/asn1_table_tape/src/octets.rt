//! The octets of an OCTET STRING on a tape.
#![tactic(auto, using(std::proofs::lemmas::Grind::common_steps))]

ghost use Rattle.std.specs.Prelude.{◌≡◌, ◌≤◌, length, IfOk, IfSome, IsOk, IsSome};

use asn1_schema_decode::ReadOctets;
use std::alloc::{AllocError, Global};
use std::marker::Model;

/// How many octets a record holds itself: as many as it has room for without growing.
const FEW: usize = 30;

/// The octets of an OCTET STRING (X.680 23). At most 30 that were read are held in place, without a request for memory.
#[derive(Drop)]
pub struct TapeOctets {
    kept: Kept,
}

#[derive(Drop)]
enum Kept {
    Few(FewOctets),
    Many(Vec<u8>),
}

// The first `count` of these octets.
#[derive(Drop)]
struct FewOctets {
    octets: [u8; FEW],
    count: u8,
    ghost few: { count ≤ 30 },
}

impl Model for TapeOctets {
    ghost use Rattle.std.specs.Prelude.{List, ℕ};
    ghost use Rattle.asn1_table_tape.specs.Octets.{kept_octets};

    ghost Value = { List ℕ };

    ghost view = { λ o. kept_octets o.kept };
}

impl TapeOctets {
    // A copy of at most 30 octets.
    #[inline(always)]
    fn from_few(octets: &[u8]) -> Option<TapeOctets>
        ensures copy { IfSome result (λ copy. copy ≡ octets.now) }
        ensures few { length octets.now ≤ 30 → IsSome result }
    {
        let count = octets.len();
        if count > FEW {
            return None;
        }
        let mut few = [0; FEW];
        few[..count].copy_from_slice(octets);
        Some(TapeOctets {
            kept: Kept::Few(FewOctets {
                octets: few,
                count: count as u8,
            }),
        })
    }

    /// The octets that a decoder read.
    ///
    /// # Errors
    ///
    /// Out of memory, if they are more than 30.
    #[inline(always)]
    pub fn read<O: ReadOctets>(alloc: Global, octets: O) -> Result<TapeOctets, AllocError>
        ensures ok { IfOk result (λ kept. kept ≡ O.items octets) }
        ensures few { length (O.items octets) ≤ 30 → IsOk result }
    {
        if let Some(few) = TapeOctets::from_few(octets.octets()) {
            return Ok(few);
        }
        let many = octets.into_vec(alloc)?;
        Ok(TapeOctets::from_vec(many))
    }

    /// The octets of a vector, which are not copied.
    pub fn from_vec(octets: Vec<u8>) -> TapeOctets
        ensures { result ≡ octets.items }
    {
        TapeOctets {
            kept: Kept::Many(octets),
        }
    }

    /// The octets, borrowed.
    #[inline(always)]
    pub fn as_slice(&self) -> &[u8]
        ensures { result.now ≡ self.now }
    {
        match &self.kept {
            Kept::Few(few) => &few.octets[..few.count as usize],
            Kept::Many(octets) => octets.as_slice(),
        }
    }

    /// The octets as a vector.
    ///
    /// # Errors
    ///
    /// Out of memory, if the record held them itself.
    pub fn into_vec(self, alloc: Global) -> Result<Vec<u8>, AllocError>
        ensures { IfOk result (λ octets. octets.items ≡ self) }
    {
        match self.kept {
            Kept::Few(few) => Vec::from_slice(alloc, &few.octets[..few.count as usize]),
            Kept::Many(octets) => Ok(octets),
        }
    }
}
