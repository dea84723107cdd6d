//! What the names and values of modules in the notation of X.680 stand for, and what is wrong with them.
#![tactic(auto, using(std::proofs::lemmas::Grind::common_steps))]

mod classes;
mod distinct;
mod errors;
mod instances;
mod numbers;
mod references;
mod scopes;
mod suggestions;

pub use classes::type_of_field;
pub use distinct::NameSet;
pub use errors::{Explained, Near, NotationError, Problem};
pub use numbers::{ValueUse, integer_of, may_be, next_of, number_of, settled, value_named};
pub use references::{referenced, type_of_symbol};
pub use scopes::{Files, Index, MOST_STEPS, Scope, Symbol, TypeUse};
