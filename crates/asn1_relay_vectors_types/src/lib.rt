//! Rust types of the vectors that no other package has: older and newer versions of types, for routes, and an INTEGER
//! whose extension additions its Rust type cannot hold.
#![tactic(auto)]

mod choices;
mod extensible;
mod listed;
mod versions;
mod written;

pub use choices::{OldVersioned, Versioned};
pub use extensible::ExtensibleOctet;
pub use versions::{
    Nested, NewBag, NewBracket, NewHolder, NewList, Newest, OldBag, OldBracket, OldGrown,
    OldHolder, OldList,
};
