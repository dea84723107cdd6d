//! The values of the type INTEGER (X.680 19): `Integer`, of any size; `ConstrainedInteger`, within a range (X.680
//! 51.4); and `IntegerType`, what `Integer` and the native integer types have in common.
#![tactic(auto)]

mod compare;
mod constrained;
mod conversions;
mod ends;
mod error;
mod integer;
mod integer_type;
mod lent;
mod text;

pub use constrained::{ConstrainedInteger, RangedInteger};
pub use conversions::TryFromIntegerError;
pub use ends::{Between, Ends};
pub use error::IntegerError;
pub use integer::Integer;
pub use integer_type::IntegerType;
