//! The parser's state, and the parts of modules without types in them: names, values, types of a few words.
#![tactic(auto, using(std::proofs::lemmas::Grind::common_steps))]

mod braces;
mod enumerations;
mod parser;
mod references;
mod refusals;
mod simple;
mod strings;
mod values;

pub use braces::read_module_identifier;
pub use parser::{MAXIMUM_DEPTH, Parser};
pub use references::{
    read_fields, read_qualifier, read_value_reference, see_field, see_selection, see_value,
    skip_parameters,
};
pub use refusals::{Parsed, Refusal};
pub use simple::read_simple;
pub use values::{is_value_word, read_number, read_value, skip_exception};
