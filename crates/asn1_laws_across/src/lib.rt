//! One meaning in all encoding rules: what is equal in one is equal in the others, and a detour changes no octet. The
//! order of the elements of a SET OF (X.691 22 and X.696 19). How octets divide into messages and a rest, and what a
//! relay does with them. The functions do nothing: their contracts are laws, or rows of worked examples.
#![tactic(auto)]

pub mod meaning_laws;
pub mod order_laws;
pub mod stream_laws;
