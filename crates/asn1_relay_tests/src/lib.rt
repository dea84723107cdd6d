//! Tests of the program's command and of streams, with readers and writers that fail, and of values of user-defined
//! types.
#![tactic(auto)]

#[cfg(test)]
mod assertions;
#[cfg(test)]
mod command;
#[cfg(test)]
mod fakes;
#[cfg(test)]
mod records;
#[cfg(test)]
mod rows;
#[cfg(test)]
mod runs;
#[cfg(test)]
mod streams;
#[cfg(test)]
mod tables;
#[cfg(test)]
mod values;
