//! Laws of intersections and of lists of constraints. The functions do nothing: their contracts are the laws.
ghost use Rattle.std.specs.Prelude.{◌≡◌, leb, List, ◌++◌};
ghost use Rattle.asn1_model.specs.Numbers.{is_at_most};
ghost use Rattle.asn1_schema_constraints.specs.declared.parts.Value.{Value};
ghost use Rattle.asn1_schema_constraints.specs.declared.parts.Size.{Size};
ghost use Rattle.asn1_schema_constraints.specs.declared.lists.Constraint.{Constraint};
ghost use Rattle.asn1_schema_constraints.specs.declared.lists.Constraints.{Constraints};
ghost use Rattle.asn1_schema_constraints.specs.Sets.{unconstrained, met_values, met_sizes, both, all_of};

/// `Value::intersect` is commutative and associative.
pub fn values_intersect()
    ensures commute { (a b : Value) → met_values a b ≡ met_values b a }
    ensures associate { (a b c : Value) → met_values (met_values a b) c ≡ met_values a (met_values b c) }
{}

/// `Size::intersect` is commutative and associative.
pub fn sizes_intersect()
    ensures commute { (a b : Size) → met_sizes a b ≡ met_sizes b a }
    ensures associate { (a b c : Size) → met_sizes (met_sizes a b) c ≡ met_sizes a (met_sizes b c) }
{}

/// `Constraints::intersect` is associative, with `Constraints::NONE` as its identity; the effective constraints of two
/// concatenated lists are the intersection of those of both.
pub fn lists_join()
    ensures associate { (a b c : Constraints) → both (both a b) c ≡ both a (both b c) }
    ensures before { (a : Constraints) → both unconstrained a ≡ a }
    ensures behind { (a : Constraints) → both a unconstrained ≡ a }
    ensures joined { (cs ds : List Constraint) → all_of (cs ++ ds) ≡ both (all_of cs) (all_of ds) }
{}
