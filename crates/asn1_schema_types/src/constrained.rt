//! INTEGER within a range that the type fixes (X.680 19 and 51.4).
ghost use Rattle.std.specs.Prelude.{◌≡◌, refl, [], ◌∷◌, negsuc};
ghost use Rattle.asn1_schema_constraints.specs.Terms.{meant, from_to};
ghost use Rattle.asn1_schema_types.specs.Constrained.{to_root, root_between, met_root, within_range};
ghost use Rattle.asn1_schema_types.specs.Constrained.{constrained_type, constrained_is_type, constrained_is_value};
ghost use Rattle.asn1_model.specs.Value.{number};
ghost use Rattle.asn1_values_integers.specs.Constrained.{constrained_number};

use crate::described::{AsnType, Described};
use crate::integers::between;
use asn1_schema_constraints::{Bounded, Constraints, Extensible, Value};
use asn1_schema_tags::{Identifier, Tag, TagTree};
use asn1_values_integers::{Ends, RangedInteger};

// The constraint to what the root of a value constraint, if there is one, and the range from `start` to `end` admit.
fn limited(constraints: &Constraints, start: i64, end: i64) -> Constraints<'static>
    ensures { result ≡ to_root (met_root constraints.now.value (root_between start end)) }
{
    let range = Value::new(Bounded::const_new(start as i128, end as i128));
    let root = match constraints.value {
        Some(value) => value.constraint.intersect(&range),
        None => range,
    };
    Constraints {
        value: Some(Extensible::new(root)),
        ..Constraints::NONE
    }
}

/// Constraints followed by the range from `start` to `end`: what both admit. The result has no extension marker, as
/// that of an earlier constraint does not carry over to a later one (X.680 50.8).
#[tactic(auto, using(crate::proofs::Ranges::range_meant))]
pub fn within_range(constraints: &Constraints, start: i64, end: i64) -> Constraints<'static>
    ensures { meant result ≡ within_range start end (meant constraints.now) }
{
    limited(constraints, start, end)
}

/// The range from -1 to -1, none of which an unsigned octet holds.
pub fn no_number() -> Constraints<'static>
    ensures { meant result ≡ from_to (negsuc 0) (negsuc 0) }
{
    between(-1, -1)
}

/// Further constraints do not widen the range. A range whose start is above its end is empty.
impl<R: Ends> Described for RangedInteger<R> {
    ghost tags = { record { class = 0; number = 2 } ∷ [] };

    ghost own = { from_to R.START R.END };

    ghost under = { λ c _. constrained_type R.START R.END c };

    ghost schema = { λ _. constrained_type R.START R.END (from_to R.START R.END) };

    ghost is_own = { λ _. refl };

    ghost meaning = { λ x. number (constrained_number x) };

    ghost typed = { constrained_is_type R.START R.END refl };

    ghost valued = { λ x. constrained_is_value R.START R.END (from_to R.START R.END) _ };

    ghost valued_under = { λ c x. constrained_is_value R.START R.END c _ };
}

impl<R: Ends> AsnType for RangedInteger<R> {
    const TAG: Tag = Tag::INTEGER;

    const IDENTIFIER: Identifier = Identifier::INTEGER;

    const IS_CHOICE: bool = false;

    fn tag_tree() -> TagTree<'static> {
        TagTree::of(Tag::INTEGER)
    }

    fn constraints() -> Constraints<'static> {
        between(R::START as i128, R::END as i128)
    }
}
