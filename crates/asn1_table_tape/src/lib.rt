//! Values of the types of a table as records on a tape: those of their normal form, one after another. Reads values of
//! one record, and gives the records of a tape to an encoder.
#![tactic(auto, using(std::proofs::lemmas::Grind::common_steps))]

mod defaults;
mod noted;
mod octets;
mod replaying;
mod scalars;
mod strings;
mod tape;
mod terms;

pub use noted::{is_default, is_empty_group};
pub use octets::TapeOctets;
pub use replaying::replay;
pub use scalars::{
    read_arcs, read_bits, read_element_in_form, read_flag, read_in_form, read_item, read_nil,
    read_number, read_octets,
};
pub use strings::{CharacterString, read_text};
pub use tape::{Event, keep, set_count};
pub use terms::{
    ComponentLists, count_optional, elements_at, is_always_there, lists_at, size_constraints,
};
