//! Tests of character strings and of their alphabets.
#![tactic(auto)]

#[cfg(test)]
mod alphabets;
#[cfg(test)]
mod common;
#[cfg(test)]
mod rows;
#[cfg(test)]
mod strings;
