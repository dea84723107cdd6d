//! The types whose messages the program `asn1_relay` translates. One is recursive. Four are newer versions of others.
#![tactic(auto)]

mod extra;
mod group;
mod nest;
mod new;
mod new_colour;
mod new_default;
mod new_required;
mod octets;
mod old;
mod old_colour;
mod old_default;
mod pair;
mod set;
mod small;

use asn1_schema::SetOf;
pub use extra::{Extra, ExtraFields};
pub use group::{Group, GroupFields};
pub use nest::Nest;
pub use new::{New, NewFields};
pub use new_colour::NewColour;
pub use new_default::{NewDefault, NewDefaultFields};
pub use new_required::{NewRequired, NewRequiredFields};
pub use octets::Octets;
pub use old::{Old, OldFields};
pub use old_colour::OldColour;
pub use old_default::{OldDefault, OldDefaultFields};
pub use pair::{Pair, PairFields};
pub use set::{Set, SetFields};
pub use small::Small;

/// SET OF INTEGER (0..255) (X.680 28).
pub type Bag = SetOf<u8>;
