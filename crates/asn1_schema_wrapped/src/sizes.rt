//! Size constraints (X.680 51.5) as types.
ghost use Rattle.std.specs.Prelude.{◌≡◌, refl};
ghost use Rattle.asn1_schema_constraints.specs.Terms.{meant};
ghost use Rattle.asn1_schema_laws.specs.Forms.{sequence_form};
ghost use Rattle.asn1_schema_laws.proofs.TypesByKind.{bit_string_type, octet_string_type, type_list};
ghost use Rattle.asn1_schema_wrapped.specs.Sizes.{are_sizes, sizes_from_to};

use crate::constrained::ConstraintsOf;
use asn1_schema_constraints::{Bounded, Constraints, Extensible, Size};
use asn1_schema_types::Described;
use asn1_values_bit_strings::BitString;
use asn1_values_octets::OctetString;

/// The size constraint LOW..HIGH, in bits, octets or elements, with an extension marker (X.680 52) or without one. If
/// `HIGH` is less than `LOW`, it is SIZE (LOW).
#[derive(Debug, Drop)]
pub struct SizeConstraint<const LOW: usize, const HIGH: usize, const EXTENSIBLE: bool>;

/// SIZE (LOW..HIGH). For example, `Constrained<SizeRange<3, 3>, OctetString>` is OCTET STRING (SIZE (3)).
pub type SizeRange<const LOW: usize, const HIGH: usize> = SizeConstraint<LOW, HIGH, false>;

/// SIZE (LOW..HIGH, ...).
pub type ExtensibleSizeRange<const LOW: usize, const HIGH: usize> = SizeConstraint<LOW, HIGH, true>;

impl<const LOW: usize, const HIGH: usize, const EXTENSIBLE: bool> ConstraintsOf<OctetString>
    for SizeConstraint<LOW, HIGH, EXTENSIBLE> {
    ghost tags = { ⟦<OctetString as Described>⟧.tags };

    ghost terms = { sizes_from_to LOW HIGH EXTENSIBLE };

    ghost under = { ⟦<OctetString as Described>⟧.under };

    ghost meaning = { ⟦<OctetString as Described>⟧.meaning };

    ghost lawful = { octet_string_type _ _ refl (are_sizes LOW HIGH) };

    ghost valued = { ⟦<OctetString as Described>⟧.valued_under };

    fn constraints() -> Constraints<'static> {
        from_to(LOW, HIGH, EXTENSIBLE)
    }

    ghost same_tags = { refl };

    ghost same_under = { λ _. refl };

    ghost same_meaning = { λ _. refl };
}

impl<const LOW: usize, const HIGH: usize, const EXTENSIBLE: bool> ConstraintsOf<BitString>
    for SizeConstraint<LOW, HIGH, EXTENSIBLE> {
    ghost tags = { ⟦<BitString as Described>⟧.tags };

    ghost terms = { sizes_from_to LOW HIGH EXTENSIBLE };

    ghost under = { ⟦<BitString as Described>⟧.under };

    ghost meaning = { ⟦<BitString as Described>⟧.meaning };

    ghost lawful = { bit_string_type _ _ refl (are_sizes LOW HIGH) };

    ghost valued = { ⟦<BitString as Described>⟧.valued_under };

    fn constraints() -> Constraints<'static> {
        from_to(LOW, HIGH, EXTENSIBLE)
    }

    ghost same_tags = { refl };

    ghost same_under = { λ _. refl };

    ghost same_meaning = { λ _. refl };
}

impl<T: Described, const LOW: usize, const HIGH: usize, const EXTENSIBLE: bool> ConstraintsOf<
    Vec<T>,
> for SizeConstraint<LOW, HIGH, EXTENSIBLE> {
    ghost tags = { ⟦<Vec<T> as Described>⟧.tags };

    ghost terms = { sizes_from_to LOW HIGH EXTENSIBLE };

    ghost under = { ⟦<Vec<T> as Described>⟧.under };

    ghost meaning = { ⟦<Vec<T> as Described>⟧.meaning };

    ghost lawful = { type_list sequence_form _ _ refl (are_sizes LOW HIGH) T.typed };

    ghost valued = { ⟦<Vec<T> as Described>⟧.valued_under };

    fn constraints() -> Constraints<'static> {
        from_to(LOW, HIGH, EXTENSIBLE)
    }

    ghost same_tags = { refl };

    ghost same_under = { λ _. refl };

    ghost same_meaning = { λ _. refl };
}

// The constraint to the sizes from `low` to `high`, or only `low` if `high` is less.
fn from_to(low: usize, high: usize, is_extensible: bool) -> Constraints<'static>
    ensures { meant result ≡ sizes_from_to low high is_extensible }
{
    let size = Extensible::new(Size::new(Bounded::const_new(low, low.max(high))));
    Constraints {
        size: Some(size.set_extensible(is_extensible)),
        ..Constraints::NONE
    }
}
