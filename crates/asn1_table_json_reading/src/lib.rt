//! Values of the types of a table are read from JSON text (X.697), in the forms that `asn1_table_json_writing` has.
#![tactic(auto, using(std::proofs::lemmas::Grind::common_steps))]

mod errors;
mod finding;
mod levels;
mod numbers;
mod reading;
mod scalars;
mod strings;

pub use errors::{JsonError, JsonErrorKind, JsonForm};
pub use reading::read_json;
