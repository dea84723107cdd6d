//! Field-lists of PER (X.691): bits, and padding to octet boundaries, which is left open while the position in a
//! message is unknown. What such field-lists are, and how they are built.
#![tactic(auto)]

mod completion;
pub mod field_list_laws;
mod field_list_view;
mod field_lists;
mod packing;

pub use completion::complete_in;
pub use field_list_view::FieldListView;
pub use field_lists::FieldLists;
pub use packing::Packing;
