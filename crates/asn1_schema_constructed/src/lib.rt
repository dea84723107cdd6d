//! SEQUENCE and SET by their tables of fields (X.680 clauses 25 and 27), CHOICE and ENUMERATED by the tables of their
//! alternatives and items (X.680 clauses 29 and 20), and SET OF (X.680 28): their definitions, and how they are encoded
//! and decoded by the calls of any codec.
#![tactic(auto)]

pub mod alternatives;
pub mod bags_read;
pub mod bags_written;
pub mod choices_read;
pub mod choices_written;
pub mod constructed;
pub mod items;
pub mod sets_read;
pub mod sets_written;
pub mod tables;

pub use alternatives::{Alternatives, Choice, alternative_of};
pub use bags_read::DecodeBag;
pub use bags_written::EncodeBag;
pub use choices_read::{DecodeAlternatives, DecodeChoice};
pub use choices_written::EncodeChoice;
pub use constructed::{Constructed, DecodeConstructed, EncodeConstructed};
pub use items::{DecodeItems, EncodeItems, EnumeratedType};
pub use sets_read::DecodeSet;
pub use sets_written::EncodeSet;
pub use tables::{Field, FieldPresence, Fields, OptionalAndDefaultFields};
