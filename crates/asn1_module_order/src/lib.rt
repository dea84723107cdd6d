//! What a command line with files of ASN.1 modules requests, and the tables of types that these files become, or what
//! is wrong with them.
#![tactic(auto, using(std::proofs::lemmas::Grind::common_steps))]

mod errors;
mod grammar;
mod order;
mod reports;
mod sources;
mod versions;
mod words;

pub use errors::ModuleError;
pub use order::{Action, Check, Extent, Form, Order, Route, Translation};
pub use reports::write_module_error;
pub use sources::{Source, older_table, read_files, table_named};
pub use versions::not_extended;
pub use words::{has_module_command, names_modules, read_order};
