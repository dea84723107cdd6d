//! The hops of a route.
use crate::Codec;

/// A version of a type.
#[derive(Clone, Copy, Debug, PartialEq, Eq)]
pub enum Version {
    /// The older one.
    Old,
    /// The newer one.
    New,
}

/// A hop. It decodes by the rules by which the hop before it encoded.
#[derive(Clone, Copy, Debug, PartialEq, Eq)]
pub struct Hop {
    /// The version of the type that it knows.
    pub version: Version,
    /// The rules by which it encodes.
    pub to: Codec,
}
