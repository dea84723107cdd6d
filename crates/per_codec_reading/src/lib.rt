//! Readers of the building blocks of PER (X.691), unaligned and aligned: a cursor over the input, padding, the end of a
//! message and of an open type, length determinants, constrained whole numbers, BOOLEAN and NULL, what precedes the
//! units under a size constraint, and units of one width after a length determinant, with the strings made of them.
//! Each reader returns a value exactly if its form comes next, and takes its bits. It fails, other than with
//! `OutOfMemory`, exactly if it does not. The cursor is unspecified after an error. Units in one piece are borrowed;
//! fragments are joined.
#![tactic(auto)]

pub mod bit_string;
pub mod boolean;
pub mod completion;
pub mod counted_octets;
pub mod cursor;
pub mod headings;
pub mod input_octets;
pub mod lending;
pub mod length;
pub mod numbers;
pub mod object_identifier;
pub mod padding;
pub mod rules;
pub mod runs;
pub mod sized;
pub mod unread;
pub mod utf8_string;

pub use bit_string::read_bit_string;
pub use counted_octets::read_counted_octets;
pub use cursor::Cursor;
pub use headings::{Heading, LengthDeterminant, is_accepted_outside, is_admitted, read_heading};
pub use input_octets::InputOctets;
pub use length::Length;
pub use object_identifier::read_object_identifier;
pub use per_codec_rules::{FRAGMENT, LONG_COUNT, Variant};
pub use rules::PackedRules;
pub use runs::{Run, RunBits, read_counted};
pub use sized::{Contents, read_sized};
pub use utf8_string::read_utf8_string;
