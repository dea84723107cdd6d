//! Extension additions and groups of them (X.680 25): laws by which their types and values are put together.

ghost use Rattle.asn1_schema_laws.specs.AdditionLaws.{AdditionsAreTyped, AdditionsAreValued, GroupsAreTyped};
ghost use Rattle.asn1_schema_laws.specs.AdditionLaws.{GroupsAreValued};

/// Types that are allowed as extension additions form a table with an extension marker.
pub fn additions_are_typed()
    ensures { AdditionsAreTyped }
{}

/// Values of additions are values of that table.
pub fn additions_are_valued()
    ensures { AdditionsAreValued }
{}

/// The components of a well-formed (`is_lawful`) SEQUENCE without an extension marker, at least one, whose defaults
/// are in normal form, form a group that is allowed among additions.
pub fn groups_are_typed()
    ensures { GroupsAreTyped }
{}

/// A value of such a SEQUENCE is a value of the group, which is absent if all its components are.
pub fn groups_are_valued()
    ensures { GroupsAreValued }
{}
