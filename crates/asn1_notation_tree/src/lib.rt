//! The syntax tree of modules in the notation of X.680, and what is wrong with a text that has none.
#![tactic(auto, using(std::proofs::lemmas::Grind::common_steps))]

mod faults;
mod tree;

pub use faults::{Expected, SyntaxError, SyntaxFault};
pub use tree::{
    ActualParameter, Addition, AdditionGroup, Arc, Assignment, AssignmentKind, ClassField,
    Component, ComponentConstraint, Components, ConstraintIndex, ConstraintKind, ConstraintTerm,
    Element, Enumeration, EnumerationItem, Exports, Import, Limit, ListElement, Module, Name,
    NamedNumber, Parameter, Presence, PresenceConstraint, RangeEnd, Reference, StringName, Syntax,
    TagClass, TagDefault, Tagging, TaggingMode, TypeIndex, TypeKind, TypeTerm, UnseenConstraint,
    UnsupportedType, ValueIndex, ValueKind, ValueTerm, is_built_in_class,
};
