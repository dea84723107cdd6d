//! Tests of the native integer types, of integers and of object identifiers.
#![tactic(auto)]

#[cfg(test)]
mod common;
#[cfg(test)]
mod identifiers;
#[cfg(test)]
mod natives;
#[cfg(test)]
mod numbers;
#[cfg(test)]
mod requests;
