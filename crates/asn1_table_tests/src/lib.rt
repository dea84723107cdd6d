//! Tests of tables of types: one of each kind, one for each flaw, defaults, and tags of a CHOICE; the example of
//! docs/TABLES.md; and tests of what the rows of `asn1_table_rows` cannot say.
#![tactic(auto)]

#[cfg(test)]
mod choices;
#[cfg(test)]
mod common;
#[cfg(test)]
mod constructed_defaults;
#[cfg(test)]
mod defaults;
#[cfg(test)]
mod example;
#[cfg(test)]
mod flaws;
#[cfg(test)]
mod kinds;
#[cfg(test)]
mod others;
