//! Rust types as ASN.1 types: which type each is, and which values its values represent. The kinds of character
//! strings with their tags and names (X.680 41), and the components of SEQUENCE types with their defaults (X.680 25).
#![tactic(auto)]

pub mod bmp;
pub mod characters;
pub mod components;
pub mod constrained;
pub mod defaults;
pub mod described;
pub mod equality;
pub mod fixed;
pub mod integers;
pub mod kinds;
pub mod lent;
pub mod lists;
pub mod markers;
pub mod natives;
pub mod pointers;
pub mod scalars;
pub mod strings;
pub mod versions;
pub mod wide;

pub use components::{
    ComponentsOf, Defaulted, DefaultedComponent, End, Optional, OptionalComponent, Required,
    RequiredComponent,
};
pub use defaults::DefaultOf;
pub use described::{AsnType, Described};
pub use equality::EqualByMeaning;
pub use kinds::TaggedKind;
pub use versions::Extends;
