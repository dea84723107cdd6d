//! What the types, tags and constraints of modules in the notation of X.680 stand for.
#![tactic(auto, using(std::proofs::lemmas::Grind::common_steps))]

mod bases;
mod characters;
mod identifiers;
mod items;
mod kinds;
mod limits;
mod sets;
mod tags;

pub use asn1_notation_names::{
    Explained, Files, Index, NameSet, Near, NotationError, Problem, Scope, Symbol, TypeUse,
    ValueUse, integer_of, number_of, settled, type_of_symbol,
};
pub use bases::{Base, ConstraintUse, base_of};
pub use characters::characters_of;
pub use identifiers::arcs_of;
pub use items::{Numbered, Numbers, item_of, numbers_of};
pub use kinds::check_kinds;
pub use limits::{alphabet, has_known_multiplier, number_limits, permits, sizes, string_kind};
pub use tags::{is_written_tagged, tagged_base};
