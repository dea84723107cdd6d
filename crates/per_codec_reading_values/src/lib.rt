//! Readers of PER (X.691) for whole numbers, enumeration and choice indices, character strings, octet strings, and
//! ranges of bits, such as presence bits, bitmaps of additions and open types.
#![tactic(auto)]

pub mod bitmaps;
pub mod bounded;
mod character_string;
mod codes;
pub mod enumerated;
pub mod fields;
pub mod indexes;
pub mod integer;
pub mod number_octets;
mod octet_string;
pub mod open_type;
pub mod small;
pub mod stretch;

pub use bitmaps::read_bitmap;
pub use character_string::read_characters;
pub use codes::string_of;
pub use enumerated::read_item;
pub use fields::Field;
pub use indexes::read_alternative_index;
pub use integer::{read_in_form, read_integer};
pub use open_type::skip_unknown;
pub use small::read_normally_small;
pub use stretch::Stretch;
