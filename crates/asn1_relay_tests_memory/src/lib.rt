//! Tests of calls that take memory, each by itself: with enough memory (`ample_`), with a request for memory that may
//! be refused (`refused_`), and with all memory taken (`full`). `bench/refused.sh` refuses each request in turn.
#![tactic(auto)]

#[cfg(test)]
mod common;
#[cfg(test)]
mod full;
#[cfg(test)]
mod messages;
#[cfg(test)]
mod parts;
#[cfg(test)]
mod streams;
