//! Types as data: the nodes of a table of ASN.1 types (X.680), what a node leads to, and the defaults of components:
//! whether they are values of the components' types, in normal form, and the same.
#![tactic(auto)]

mod defaults;
mod events;
mod items;
mod listed;
mod nodes;
mod reduced;
mod sameness;

pub use defaults::has_right_defaults;
pub use events::{DefaultValue, Event};
pub use items::item_differs;
pub use nodes::{
    Alternative, AlternativeTable, CharacterTable, Component, ComponentTable, ItemTable,
    NumberLimits, Presence, StringKind, StringTable, TypeNode,
};
pub use reduced::has_reduced_defaults;
pub use sameness::is_same_value;
