//! Tests of bits, fields and octets.
#![tactic(auto)]

#[cfg(test)]
mod bits;
#[cfg(test)]
mod common;
#[cfg(test)]
mod fields;
#[cfg(test)]
mod octets;
#[cfg(test)]
mod requests;
