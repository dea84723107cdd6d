//! Tags, trees of tags, and the names of types (X.680 clause 8).
#![tactic(auto)]

pub mod alternatives;
pub mod chosen;
pub mod enumerated;
pub mod finding;
pub mod identifiers;
pub mod item_tables;
pub mod items;
pub mod probes;
pub mod tables;
pub mod tags;
pub mod trees;

pub use alternatives::Variants;
pub use chosen::Chosen;
pub use enumerated::Enumerated;
pub use finding::{find_numbered_place, find_place, is_place_table};
pub use identifiers::Identifier;
pub use item_tables::{ItemTables, are_distinct_items};
pub use items::{EnumerationItems, TypeItems};
pub use probes::{TagPlace, TagProbe};
pub use tables::TagTables;
pub use tags::{Class, Tag};
pub use trees::TagTree;
