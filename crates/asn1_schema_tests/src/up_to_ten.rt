//! INTEGER (0..10), stored in a `u8`.
ghost use Rattle.std.specs.Prelude.{refl, pos};
ghost use Rattle.asn1_schema_constraints.specs.Terms.{from_to};
ghost use Rattle.asn1_schema_laws.proofs.TypesByKind.{integer_type};

use asn1_schema_constraints::{Bounded, Constraints, Extensible, Value};
use asn1_schema_types::Described;
use asn1_schema_wrapped::ConstraintsOf;

/// The constraint to the numbers from 0 to 10.
#[derive(Clone, Copy, Debug, PartialEq, Eq)]
pub struct UpToTen;

impl ConstraintsOf<u8> for UpToTen {
    ghost tags = { ⟦<u8 as Described>⟧.tags };

    ghost terms = { from_to (pos 0) (pos 10) };

    ghost under = { ⟦<u8 as Described>⟧.under };

    ghost meaning = { ⟦<u8 as Described>⟧.meaning };

    ghost lawful = { integer_type _ _ refl refl refl };

    ghost valued = { ⟦<u8 as Described>⟧.valued_under };

    fn constraints() -> Constraints<'static> {
        Constraints {
            value: Some(Extensible::new(Value::new(Bounded::const_new(0, 10)))),
            ..Constraints::NONE
        }
    }

    ghost same_tags = { refl };

    ghost same_under = { λ _. refl };

    ghost same_meaning = { λ _. refl };
}
