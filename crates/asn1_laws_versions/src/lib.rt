//! Two versions of a type (X.680 52): what each reads and refuses of what the other writes, newer versions of newer
//! ones, and messages that pass from hop to hop through both. The functions do nothing: their contracts are laws, or
//! rows of worked examples.
#![tactic(auto)]

pub mod exact_laws;
pub mod extending_laws;
pub mod loss_laws;
pub mod route_laws;
