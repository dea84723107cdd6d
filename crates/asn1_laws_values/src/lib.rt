//! Laws of values and of single messages, over the definitions alone: equality of values and normal forms, the order
//! of tags (X.680 8.6), the values of a type, plain types, unfoldings of recursive types, and what readers with more
//! or fewer freedoms accept (X.691, X.696). A freedom is a departure from the canonical encoding that a reader
//! accepts. The functions do nothing: their contracts are the laws.
#![tactic(auto)]

pub mod message_laws;
pub mod plain_laws;
pub mod tag_laws;
pub mod typed_laws;
pub mod unfolding_laws;
pub mod value_laws;
