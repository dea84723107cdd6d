//! Names beside a table of types: of types, components, alternatives, items and numbers; and the events of a tape with
//! these names.
#![tactic(auto, using(std::proofs::lemmas::Grind::common_steps))]

mod events;
mod frames;
mod names;
mod parts;
mod texts;
mod walk;

pub use events::{NamedEvent, Role, WalkError};
pub use names::{NamedNumber, Names, TypeNames};
pub use parts::{
    Part, alternative_of, component_at, is_group, is_list, is_scalar, is_sequence, items_at,
};
pub use walk::NamedEvents;
