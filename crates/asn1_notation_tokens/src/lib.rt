//! The lexical items of a text in the notation of X.680 (X.680 12), and where an octet of a text is.
#![tactic(auto, using(std::proofs::lemmas::Grind::common_steps))]

mod faults;
mod items;
mod names;
mod numbers;
mod positions;
mod reading;
mod scanning;
mod spaces;
mod strings;
mod symbols;
mod words;

pub use faults::{LexicalError, LexicalFault};
pub use items::{Item, ItemKind, Items};
pub use positions::{Position, line_and_column};
pub use reading::read_items;
pub use symbols::Symbol;
pub use words::{WORDS, Word};
