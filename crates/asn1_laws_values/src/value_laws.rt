//! Equality of values, where the elements of a SET OF have no order, and normal forms.

ghost use Rattle.asn1_laws_values.specs.Laws.{SameIsEquivalence, BagsHaveNoOrder, NormalRespectsSame};
ghost use Rattle.asn1_laws_values.specs.Laws.{NormalNestsNoDeeper, NormalStays, SameIsAsNormal};

/// Equality of values is reflexive, symmetric and transitive.
pub fn same_is_equivalence()
    ensures { SameIsEquivalence }
{}

/// A SET OF is equal to one with the same elements in any order.
pub fn bags_have_no_order()
    ensures { BagsHaveNoOrder }
{}

/// Equal values have equal normal forms.
pub fn normal_respects_same()
    ensures { NormalRespectsSame }
{}

/// A normal form has at most as many nested levels as the value.
pub fn normal_nests_no_deeper()
    ensures { NormalNestsNoDeeper }
{}

/// A value in normal form is its own normal form.
pub fn normal_stays()
    ensures { NormalStays }
{}

/// A value equal to one in normal form is in normal form.
pub fn same_is_as_normal()
    ensures { SameIsAsNormal }
{}
