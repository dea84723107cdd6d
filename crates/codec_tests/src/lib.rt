//! Tests of both codecs call by call, and of what no line of the vectors covers in OER and COER: what a call leaves in
//! a borrowed buffer, values without an encoding, how many octets a rejected input needs, and readers and writers of
//! tags and length determinants.
#![tactic(auto)]

#[cfg(test)]
mod calls;
#[cfg(test)]
mod common;
#[cfg(test)]
mod decoders;
#[cfg(test)]
mod encoders;
#[cfg(test)]
mod fronts;
#[cfg(test)]
mod items;
#[cfg(test)]
mod messages;
#[cfg(test)]
mod needed;
#[cfg(test)]
mod spelled;
#[cfg(test)]
mod steps;
#[cfg(test)]
mod tags_and_lengths;
