//! Extension additions of SEQUENCE and SET, and groups of them (X.680 25 and 27); types around user-defined structs and
//! enums: SEQUENCE and SET, extension addition groups, and CHOICE (X.680 29), and newer versions of them.
#![tactic(auto)]

pub mod additions;
pub mod choice_of;
pub mod composites;
pub mod counts;
pub mod decode;
pub mod encode;
pub mod group;
pub mod groups;
pub mod versions;
pub mod written;

pub use additions::{
    AddedDefaultedComponent, AddedGroupComponent, AddedOptionalComponent, AddedRequiredComponent,
    AdditionsOf, CountOf, ExtensibleComponents, NoMore,
};
pub use choice_of::{ChoiceAlternatives, ChoiceOf};
pub use composites::{Components, Composite, FieldTables, Heading, Sequence, Set};
pub use counts::{NoAddition, OneAddition, TwoAdditions};
pub use decode::{DecodeAdditions, DecodeExtension};
pub use encode::{EncodeAdditions, EncodeExtension};
pub use group::Group;
pub use groups::GroupComponents;
pub use versions::{ExtendsAlternatives, ExtendsComponents};
pub use written::{AddedDefaulted, AddedGroup, AddedOptional, AddedRequired, ExtensionMarker};
