//! Tests of the schema by the names that `asn1_schema` exports: values as records and back, and each generic
//! implementation, called once at a concrete type through its trait bound; with a type whose components have their own
//! tags, and a constraint of a component.
#![tactic(auto)]

#[cfg(test)]
mod colour;
#[cfg(test)]
mod common;
#[cfg(test)]
mod named;
#[cfg(test)]
mod pair;
#[cfg(test)]
mod records;
#[cfg(test)]
mod told;
#[cfg(test)]
mod up_to_ten;
#[cfg(test)]
mod values;
