//! At most one prefix of some octets is an encoding of a type, and it determines the value, up to the order of the
//! elements of a SET OF.
#![tactic(auto)]

pub mod front_laws;
