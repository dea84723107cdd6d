//! Readers of OER and COER over a cursor of the input: scalar types, character strings (X.696 27), tags (X.696 8.7)
//! and alternatives by their tags (X.696 20), enumerated values (X.696 11), presence bitmaps (X.696 16.4), open types
//! (X.696 30) and unknown additions.
//!
//! Each reader returns a value exactly if the input begins with an encoding of one, and takes its octets. It fails,
//! other than with `OutOfMemory`, exactly if the input does not; a count of 2^64 or more and a tag number of 2^32
//! or more are refused too. The cursor is unspecified after an error. A string may hold any characters of its type: a
//! permitted-alphabet constraint is not checked.
#![tactic(auto)]

pub mod alternatives;
pub mod bit_string;
pub mod bitmaps;
pub mod boolean;
pub mod character_string;
pub mod cursor;
pub mod enumerated;
pub mod integer;
pub mod item_numbers;
pub mod length;
pub mod magnitudes;
pub mod numbers;
pub mod object_identifier;
pub mod octet_string;
pub mod open_type;
pub mod rules;
pub mod tags;
pub mod utf8_string;

pub use bitmaps::{are_zero, read_bitmap, take_bit};
pub use character_string::read_characters;
pub use cursor::Cursor;
pub use enumerated::read_enumerated;
pub use open_type::{enter_open_type, leave_open_type, skip_additions};
pub use rules::EncodingRules;
pub use tags::read_tag;
pub use utf8_string::read_utf8_string;
