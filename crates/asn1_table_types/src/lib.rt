//! Tables of ASN.1 types (X.680), and the check that each of their types is lawful.
#![tactic(auto)]

mod checks;
mod choice_tags;
mod choices;
mod components;
mod faults;
mod forms;
mod groups;
mod items;
mod tables;
mod tags;

pub use asn1_table_nodes::{
    Alternative, AlternativeTable, CharacterTable, Component, ComponentTable, DefaultValue, Event,
    ItemTable, NumberLimits, Presence, StringKind, StringTable, TypeNode, is_same_value,
};
pub use faults::{Flaw, TableError};
pub use tables::Types;
