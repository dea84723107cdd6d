//! The records by which codecs are given a value, one per call, their nested levels, and extension additions (X.680
//! 25): definitions over the model, worked examples (rows), and laws. The functions do nothing: their contracts are
//! the laws and the rows.
#![tactic(auto)]

pub mod addition_laws;
pub mod level_laws;
pub mod record_laws;
