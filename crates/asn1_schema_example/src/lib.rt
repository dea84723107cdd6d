//! Examples of user-defined types, as their authors write them: sequences, one with a default (X.680 25); choices
//! (X.680 29); sets with an untagged choice, and one with additions (X.680 27); enumerations (X.680 20); and two
//! recursive types, one of them through a SEQUENCE OF.
#![tactic(auto)]

pub mod answer;
pub mod chain;
pub mod colour;
pub mod control;
pub mod gauge;
pub mod grown;
pub mod measure;
pub mod message;
pub mod power;
pub mod setting;
pub mod station;
pub mod tree;
