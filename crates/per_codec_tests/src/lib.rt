//! Tests of UPER and APER beyond the octets of one message, which are lines of `asn1_relay_vectors`: values and parts
//! of encodings after bits, field-lists at positions that become known later, codes of characters, errors of calls, and
//! what is borrowed.
#![tactic(auto)]

#[cfg(test)]
mod alignments;
#[cfg(test)]
mod alphabets;
#[cfg(test)]
mod calls;
#[cfg(test)]
mod counted;
#[cfg(test)]
mod needed;
#[cfg(test)]
mod packing;
#[cfg(test)]
mod parts;
#[cfg(test)]
mod reading;
#[cfg(test)]
mod spelled;
#[cfg(test)]
mod strict;
