//! Object identifiers (X.680 clause 32, X.660), and their contents octets (X.690 8.19).
//!
//! [`Oid`] borrows its arcs and [`ObjectIdentifier`] owns them; both hold only valid arcs, and contracts see either as
//! the list of its arcs.
#![tactic(auto)]

pub mod fault;
pub mod groups;
pub mod object_identifier;
pub mod octets;
pub mod oid;

pub use fault::IdentifierError;
pub use groups::{group_number, push_groups};
pub use object_identifier::ObjectIdentifier;
pub use octets::{content_count, oid_from_octets, oid_octets, push_contents, subidentifiers_of};
pub use oid::Oid;
