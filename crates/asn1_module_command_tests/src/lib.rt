//! Tests of the command over modules, and of where messages are refused.
#![tactic(auto, using(std::proofs::lemmas::Grind::common_steps))]

#[cfg(test)]
mod common;
#[cfg(test)]
mod located;
#[cfg(test)]
mod located_bits;
#[cfg(test)]
mod located_octets;
#[cfg(test)]
mod messages;
#[cfg(test)]
mod modules;
#[cfg(test)]
mod routes;
#[cfg(test)]
mod streams;
