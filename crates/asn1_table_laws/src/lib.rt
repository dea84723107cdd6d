//! Laws of a walk over a type: what is read, what is kept, and what is still expected.
#![tactic(auto)]
