//! Tests of the parts of the schema by the names that `asn1_schema` exports, without records: rows, printing, and each
//! call once, of tags, tables, constraints, SET OF values, and equality by meaning.
#![tactic(auto)]

#[cfg(test)]
mod bags;
#[cfg(test)]
mod common;
#[cfg(test)]
mod constraints;
#[cfg(test)]
mod meanings;
#[cfg(test)]
mod places;
#[cfg(test)]
mod tables;
#[cfg(test)]
mod tags;
