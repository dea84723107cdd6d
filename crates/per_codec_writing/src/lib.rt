//! Writers of PER (X.691): padding, length determinants and whole numbers, units under a size constraint and what
//! precedes them, scalar types, enumeration and choice indices, open types, and SET OF, in the order of its elements'
//! complete encodings.
#![tactic(auto)]

mod bag;
mod bit_string;
mod boolean;
mod character_string;
mod character_units;
mod constrained;
mod counted;
mod enumerated;
mod headings;
mod integer;
mod length;
mod members;
mod number_units;
mod object_identifier;
mod octet_string;
mod open_type;
mod padding;
mod sized;
mod small;
mod units;
mod utf8_string;

pub use bag::push_bag;
pub use bit_string::push_bit_string;
pub use boolean::push_boolean;
pub use character_string::push_characters;
pub use constrained::push_constrained;
pub use counted::{push_counted, push_counted_octets};
pub use enumerated::{push_enumerated, push_index};
pub use headings::push_heading;
pub use integer::{push_in_form, push_integer};
pub use length::{Due, push_fragment_length, push_length_determinant, push_short_length};
pub use object_identifier::push_identifier;
pub use octet_string::push_octet_string;
pub use open_type::push_open_type;
pub use padding::push_padding;
pub use per_codec_rules::{FRAGMENT, LONG_COUNT};
pub use sized::push_sized;
pub use small::push_normally_small;
pub use units::Units;
pub use utf8_string::push_utf8;
