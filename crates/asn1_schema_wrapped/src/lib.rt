//! Types around other types: with another tag, or under the constraints of a component (size constraints are themselves
//! types); SET OF as a type of its elements (X.680 28); a value with the identifier of its type; and any value as
//! octets. The calls of encoders and decoders by the names of types.
#![tactic(auto)]

pub mod any;
pub mod coding;
pub mod constrained;
pub mod equality;
pub mod inner;
pub mod instances;
pub mod named_read;
pub mod named_written;
pub mod open;
pub mod set_of;
pub mod sizes;
pub mod tag;
pub mod tagged;

pub use any::Any;
pub use constrained::{Constrained, ConstraintsOf};
pub use inner::{InnerSubtypeConstraint, InnerSubtypeConstraintError};
pub use instances::InstanceOf;
pub use named_read::DecodeNamed;
pub use named_written::EncodeNamed;
pub use open::Open;
pub use set_of::SetOf;
pub use sizes::{ExtensibleSizeRange, SizeRange};
pub use tagged::{Explicit, Implicit};

/// A list of values of one type (X.680 26).
pub type SequenceOf<T> = Vec<T>;

/// A string of characters in UTF-8 (X.680 41).
pub type Utf8String = String;

/// A string of any characters (X.680 41).
pub type UniversalString = Implicit<tag::UNIVERSAL_STRING, Utf8String>;
