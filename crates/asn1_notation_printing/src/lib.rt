//! Types of a table as text in the notation of X.680, and the names of the types of modules.
//!
//! A text is one module with explicit tags, resolved constraints and the numbers of all items. Types are in line, but
//! those that occur more than once, are recursive or are nested deep have assignments. A tag is left out where it is
//! the type's own. A name that is missing, occurs twice or is none in X.680 is made up from an index.
#![tactic(auto, using(std::proofs::lemmas::Grind::common_steps))]

mod constraints;
mod labels;
mod listing;
mod printing;
mod scalars;
mod uses;
mod values;

pub use listing::list_types;
pub use printing::print_type;
