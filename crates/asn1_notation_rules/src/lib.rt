//! Rules of X.680 that decide octets when the text of a module becomes a table of types, each a function of plain data:
//! numbers of items, tags, extension insertion, and the order of tags.
#![tactic(auto, using(std::proofs::lemmas::Grind::common_steps))]

mod enumerations;
mod insertion;
mod ordering;
mod tagging;

pub use enumerations::{ItemError, ItemFlaw, added_numbers, root_numbers};
pub use insertion::{Extension, Inserted, Written, insert_extensions};
pub use ordering::{OrderError, canonical_order};
pub use tagging::{
    TagDefault, TagNotation, Tagging, TaggingError, applied_tagging, automatic_tags, is_automatic,
    misplaced_tag,
};
