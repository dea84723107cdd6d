//! Values of the types of a table are written as JSON text (X.697).
//!
//! BOOLEAN is `true` or `false`, NULL `null`, INTEGER a number in decimal, of any size. ENUMERATED is the name of the
//! item, or the digits of its number where it has no name. An OCTET STRING is a string of hexadecimal digits, and so
//! is a BIT STRING of one size, its last octet filled with zeros; any other is an object such as
//! `{"value": "A0", "length": 3}`. A character string is a string, an OBJECT IDENTIFIER its arcs in decimal, separated
//! by dots. SEQUENCE OF and SET OF are arrays. SEQUENCE and SET are objects of the components that are there, those of
//! a group of additions among the others; CHOICE is an object of the one alternative.
//!
//! A component without an identifier has the name `component_3` for the root component at index 3, `addition_3` for an
//! addition, and `addition_3_1` in a group of additions; an alternative `alternative_3` or `addition_3`. An identifier
//! has no underscore (X.680 12.3). Paths to parts of a value, as in `a.b[2].c`, have the same names.
#![tactic(auto, using(std::proofs::lemmas::Grind::common_steps))]

mod decimals;
mod errors;
mod labels;
mod output;
mod sizes;
mod steps;
mod strings;
mod writing;

pub use decimals::number_text;
pub use errors::WriteError;
pub use output::Style;
pub use sizes::fixed_size;
pub use steps::{Step, push_step};
pub use writing::write_json;
