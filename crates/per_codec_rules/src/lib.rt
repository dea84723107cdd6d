//! What encoders and decoders of PER (X.691) share: the two variants of the rules, the limits at which the form of a
//! length determinant (X.691 11.9) and of a constrained whole number (X.691 11.5) changes, and where padding precedes
//! units.
#![tactic(auto)]

pub mod counts;
pub mod padding;
pub mod variant;

pub use counts::highest_below_64k;
pub use padding::{characters_have_padding, string_has_padding};
pub use variant::Variant;

/// The number of units in the smallest fragment; others have two to four times as many (X.691 11.9.3.8).
pub const FRAGMENT: usize = 16384;

/// An upper bound of a size from this count on does not affect the form of the length determinant (X.691 11.9.4.1).
pub const LONG_COUNT: usize = 65536;

/// From this span on, a constrained whole number follows a length determinant in the aligned variant: its range has
/// more than 65536 values (X.691 11.5.7.4).
pub const LONG_SPAN: u128 = 65536;
