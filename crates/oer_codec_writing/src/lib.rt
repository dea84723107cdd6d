//! Writers of scalar types, tags and enumerated values in OER (X.696), and the length of a preamble.
#![tactic(auto)]

mod bit_string;
mod boolean;
mod character_string;
mod digits;
mod enumerated;
mod integer;
mod item_numbers;
mod length;
mod object_identifier;
mod octet_string;
mod preambles;
mod tags;

pub use bit_string::{push_bit_string, push_bits_heading};
pub use boolean::push_boolean;
pub use character_string::{push_characters, push_utf8};
pub use enumerated::push_enumerated;
pub use integer::{push_in_form, push_integer};
pub use item_numbers::push_item;
pub use length::{push_count, push_counted, short_length};
pub use object_identifier::push_identifier;
pub use octet_string::push_octet_string;
pub use preambles::preamble_len;
pub use tags::push_tag;
