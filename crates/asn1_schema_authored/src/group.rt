//! Extension addition groups.
ghost use Rattle.std.specs.Prelude.{◌≡◌, ℕ, true};
ghost use Rattle.asn1_model.specs.Lawful.{is_lawful};
ghost use Rattle.asn1_model.specs.Tidy.{is_tidy};
ghost use Rattle.asn1_model.specs.Value.{Parts, are_absent, end, fields};
ghost use Rattle.asn1_schema_laws.specs.Tables.{Table, sequence_type, IsValue};
ghost use Rattle.asn1_schema_laws.specs.Additions.{IsGroup};

use asn1_schema_constructed::Constructed;

/// An extension addition group (X.680 25.1), as a user-defined type: a SEQUENCE without an extension marker, with at
/// least one component.
pub trait Group: Constructed {
    /// The components of the group.
    ghost components: { Table };

    /// The components of a value.
    ghost parts: { Self → Parts };

    /// There is no extension marker, and at least one component.
    ghost plain: { IsGroup components };

    /// It is well-formed as a SEQUENCE.
    ghost lawful: { (n : ℕ) → is_lawful (sequence_type components n) ≡ true };

    /// Its defaults are in normal form.
    ghost tidy: { (n : ℕ) → is_tidy (sequence_type components n) ≡ true };

    /// Each value is one of that SEQUENCE.
    ghost each: { (x : Self) → IsValue (sequence_type components) (fields (parts x) end) };

    /// Whether none of the components is present. Such a group is left out: a choice of this library.
    fn is_empty(&self) -> bool
        ensures { result ≡ are_absent (parts self.now) };

    /// These are the components that are encoded and decoded.
    ghost same_components: { Self.table ≡ components };

    /// The components of a value are its root components.
    ghost same_parts: { (x : Self) → Self.root x ≡ parts x };

    /// There are no extension additions in a group.
    ghost no_others: { (x : Self) → Self.added x ≡ end };
}
