//! What lines of the vectors say about octets of a type, about streams and about routes.
#![tactic(auto)]

pub mod limits;
pub mod line;
pub mod octets;
pub mod route;
