//! The syntax tree of modules in the notation of X.680.
#![tactic(auto, using(std::proofs::lemmas::Grind::common_steps))]

mod assignments;
mod classes;
mod collections;
mod components;
mod constraints;
mod elements;
mod inner;
mod modules;
mod parameters;
mod reading;
mod types;

pub use asn1_notation_tokens::{
    ItemKind, Items, LexicalFault, Position, Symbol, Word, line_and_column,
};
pub use asn1_notation_tree::{
    ActualParameter, Addition, AdditionGroup, Arc, Assignment, AssignmentKind, ClassField,
    Component, ComponentConstraint, Components, ConstraintIndex, ConstraintKind, ConstraintTerm,
    Element, Enumeration, EnumerationItem, Expected, Exports, Import, Limit, ListElement, Module,
    Name, NamedNumber, Parameter, Presence, PresenceConstraint, RangeEnd, Reference, StringName,
    Syntax, SyntaxError, SyntaxFault, TagClass, TagDefault, Tagging, TaggingMode, TypeIndex,
    TypeKind, TypeTerm, UnseenConstraint, UnsupportedType, ValueIndex, ValueKind, ValueTerm,
};
pub use reading::read_syntax;
