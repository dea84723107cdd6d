//! User-defined types as ASN.1 types.
ghost use Rattle.std.specs.Prelude.{◌≡◌, ℕ, List, true};
ghost use Rattle.asn1_model.specs.Value.{Value};
ghost use Rattle.asn1_model.specs.Schema.{Schema, Tag as ModelTag};
ghost use Rattle.asn1_schema_constraints.specs.Terms.{Meant, meant};
ghost use Rattle.asn1_schema_tags.specs.Trees.{leaves};
ghost use Rattle.asn1_schema_laws.specs.Tables.{IsType, IsValue};

use asn1_schema_constraints::Constraints;
use asn1_schema_tags::{Identifier, Tag, TagTree};

/// Which ASN.1 type a Rust type is, and which values its values represent.
pub trait Described {
    /// The tags with which an encoding may begin.
    ghost tags: { List ModelTag };

    /// The meaning of the constraints that belong to the type.
    ghost own: { Meant };

    /// The type under constraints, unfolded to a given number of nested levels.
    ghost under: { Meant → ℕ → Schema };

    /// The type itself.
    ghost schema: { ℕ → Schema };

    /// It is the type under its own constraints.
    ghost is_own: { (n : ℕ) → schema n ≡ under own n };

    /// The ASN.1 value that a value of this type represents.
    ghost meaning: { Self → Value };

    /// The type is well-formed (`is_lawful`).
    ghost typed: { IsType tags schema };

    /// Each value is one of the type.
    ghost valued: { (x : Self) → IsValue schema (meaning x) };

    /// Each value is one of the type under any constraints: whether these admit it is checked when it is encoded.
    ghost valued_under: { (c : Meant) (x : Self) → IsValue (under c) (meaning x) };

    /// Does nothing. In a trait, the items before the last function are data, which clauses may name; those after it
    /// are laws, which clauses may not name.
    fn described(&self) {}
}

/// An ASN.1 type: its tags, its name, and its constraints.
pub trait AsnType: Described {
    /// Its tag; `Tag::CHOICE` for an untagged CHOICE.
    const TAG: Tag;

    /// Its name, if it has one.
    const IDENTIFIER: Identifier = Identifier::EMPTY;

    /// Whether it is a CHOICE (X.680 29).
    const IS_CHOICE: bool = false;

    /// The tags with which an encoding may begin.
    fn tag_tree() -> TagTree<'static>
        ensures { leaves result ≡ Self.tags };

    /// The constraints that belong to the type.
    fn constraints() -> Constraints<'static>
        ensures { meant result ≡ Self.own };

    /// Whether a value is present: always true, as an optional component is an `Option`, which is not a type of its
    /// own here.
    final fn is_present(&self) -> bool
    where
        Self: Sized,
        ensures { result ≡ true }
    {
        true
    }
}
