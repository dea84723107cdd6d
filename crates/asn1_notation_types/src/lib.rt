//! From modules in the notation of X.680 to tables of types.
#![tactic(auto, using(std::proofs::lemmas::Grind::common_steps))]

mod building;
mod defaults;
mod endless;
mod events;
mod given;
mod parts;
mod tables;

pub use asn1_notation_resolving::{Explained, Near, NotationError, Problem};
pub use tables::{Additions, NamedBits, OpenTypes, Table, TableOptions, Times, table_of};
