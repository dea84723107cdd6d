//! The command of the program where types come from ASN.1 modules (`--module FILE`, or `--old FILE` and `--new FILE`).
#![tactic(auto, using(std::proofs::lemmas::Grind::common_steps))]

mod checking;
mod errors;
mod hexadecimal;
mod joined;
mod locating;
mod program;
mod routing;
mod translating;
mod values;

pub use checking::check_message;
pub use errors::{CommandError, Place, Stop};
pub use program::{module_command, obey};
pub use routing::send;
pub use translating::translate;
