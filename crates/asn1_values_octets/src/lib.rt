//! Strings of octets: the values of the type OCTET STRING (X.680 clause 23).
//!
//! [`OctetString`] holds any number of octets and shares them between its clones; [`FixedOctetString`] holds exactly
//! `N`, inline. Contracts see either as the list of its octets.
#![tactic(auto)]

pub mod fixed_octet_string;
pub mod octet_string;

pub use fixed_octet_string::{FixedOctetString, WrongLength};
pub use octet_string::OctetString;
