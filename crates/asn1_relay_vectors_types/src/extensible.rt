//! An integer with an extensible value range.
ghost use Rattle.std.specs.Prelude.{◌≡◌, refl, pos, Some, true};
ghost use Rattle.asn1_schema.specs.Author.{bounded_by};
ghost use Rattle.asn1_schema_constraints.specs.Terms.{meant};
ghost use Rattle.asn1_schema.proofs.Author.{integer_type};

use asn1_schema::{Bounded, Constrained, Constraints, ConstraintsOf, Described, Extensible, Value};

/// (0..255, ...).
#[derive(Clone, Copy, Debug, PartialEq, Eq)]
pub struct OctetOrMore;

/// INTEGER (0..255, ...). The Rust type cannot hold values above 255.
pub type ExtensibleOctet = Constrained<OctetOrMore, u8>;

impl ConstraintsOf<u8> for OctetOrMore {
    ghost tags = { ⟦<u8 as Described>⟧.tags };

    ghost terms = { bounded_by (Some (pos 0)) (Some (pos 255)) true };

    ghost under = { ⟦<u8 as Described>⟧.under };

    ghost meaning = { ⟦<u8 as Described>⟧.meaning };

    ghost lawful = { integer_type _ _ refl refl refl };

    ghost valued = { ⟦<u8 as Described>⟧.valued_under };

    fn constraints() -> Constraints<'static> {
        octet_or_more()
    }

    ghost same_tags = { refl };

    ghost same_under = { λ _. refl };

    ghost same_meaning = { λ _. refl };
}

/// The constraint to values from 0 to 255, with an extension marker.
fn octet_or_more() -> Constraints<'static>
    ensures { meant result ≡ bounded_by (Some (pos 0)) (Some (pos 255)) true }
{
    let octet = Extensible::new(Value::new(Bounded::const_new(0, 255)));
    Constraints {
        value: Some(octet.set_extensible(true)),
        ..Constraints::NONE
    }
}
