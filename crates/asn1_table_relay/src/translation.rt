//! Translation of one message of a type of a table.
#![tactic(auto, using(std::proofs::lemmas::Grind::common_steps))]

ghost use Rattle.std.specs.Prelude.{◌≡◌, ◌⊎◌, None, Some, IfErr, IfSome};
ghost use Rattle.asn1_relay_core.specs.Coding.{rules_of};
ghost use Rattle.asn1_relay_core.specs.Recoding.{answer_of, Answer, IsAnswer, NamesMemoryAlone, NamesNoEarlierRefusal};
ghost use Rattle.asn1_relay_core.specs.Recoding.{NamesNoMisplacedCall, NamesNoPlatformSize};
ghost use Rattle.asn1_table_nodes.specs.Meaning.{type_at};

use crate::table_type::TableType;
use asn1_relay_core::{Codec, RecodeFault, recode_of};
use asn1_table_types::Types;
use std::alloc::Global;

/// Translates one message of the type at this index of a table: octets that are one encoding in the rules `from`, of a
/// value with at most 128 nested levels, become the canonical encoding of that value in the rules `to`.
///
/// # Errors
///
/// `NotAnEncoding` if no prefix of the octets is an encoding of a value with at most 128 nested levels, `Surplus` if
/// octets follow one, `NoTarget` if the value has no encoding in the rules `to`, and `Memory` if memory runs out.
pub fn recode_by(
    alloc: Global,
    types: &Types,
    place: usize,
    from: Codec,
    to: Codec,
    input: &[u8],
) -> Result<Vec<u8>, RecodeFault>
    ensures right { IfSome (answer_of result)
        (IsAnswer (rules_of from) (rules_of to) (type_at types.now.nodes.items 128 place) input.now) }
    ensures exact { (a : Answer)
        → IsAnswer (rules_of from) (rules_of to) (type_at types.now.nodes.items 128 place) input.now a
        → (answer_of result ≡ None) ⊎ (answer_of result ≡ Some a) }
    ensures memory { IfErr result NamesMemoryAlone }
    ensures fresh { IfErr result NamesNoEarlierRefusal }
    ensures in_place { IfErr result NamesNoMisplacedCall }
    ensures fits { IfErr result NamesNoPlatformSize }
{
    recode_of(alloc, &TableType { types, place }, from, to, input)
}
