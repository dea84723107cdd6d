//! ENUMERATED {red(0), blue(2), ..., green(1)}, which belongs to no user-defined type.
ghost use Rattle.std.specs.Prelude.{◌∷◌, [], refl, pos, true, false, codes};
ghost use Rattle.asn1_schema_tags.proofs.Distinct.{one_number_of};

use asn1_schema::Enumerated;

/// A colour.
#[derive(Clone, Copy, Debug, PartialEq, Eq)]
pub enum Colour {
    /// Red.
    Red,
    /// Blue.
    Blue,
    /// Green, an extension addition.
    Green,
}

impl Enumerated for Colour {
    ghost use Rattle.asn1_schema_tests.specs.declared.colour.Colour.TheVariants.{Red, Blue, Green};

    ghost roots = { pos 0 ∷ pos 2 ∷ [] };

    ghost extensible = { true };

    ghost additions = { pos 1 ∷ [] };

    ghost number = { elim [ Red ↦ pos 0 | Blue ↦ pos 2 | Green ↦ pos 1 ] };

    ghost names = { codes "red" ∷ codes "blue" ∷ codes "green" ∷ [] };

    fn variants<'a>() -> &'a [Self]
    where
        Self: 'a,
    {
        &[Colour::Red, Colour::Blue]
    }

    fn extended_variants<'a>() -> Option<&'a [Self]>
    where
        Self: 'a,
    {
        Some(&[Colour::Green])
    }

    fn discriminant(&self) -> isize {
        match self {
            Colour::Red => 0,
            Colour::Blue => 2,
            Colour::Green => 1,
        }
    }

    fn identifier(&self) -> &'static str {
        match self {
            Colour::Red => "red",
            Colour::Blue => "blue",
            Colour::Green => "green",
        }
    }

    ghost distinct = { refl };

    ghost named = { (refl, refl) };

    ghost one_number = { one_number_of _ (Red ∷ Blue ∷ Green ∷ [])
        (elim [ Red ↦ (0, refl) | Blue ↦ (1, refl) | Green ↦ (2, refl) ]) refl };

    ghost listed = { elim [
      | Red ↦ (false, 0, refl)
      | Blue ↦ (false, 1, refl)
      | Green ↦ (true, 0, (refl, refl, refl))
    ] };
}
