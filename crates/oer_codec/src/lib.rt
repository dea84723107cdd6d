//! The octet encoding rules (X.696), basic and canonical: OER and COER. The calls that encode and decode.
#![tactic(auto)]

pub mod coer;
pub mod front_readers;
pub mod laws;
pub mod oer;
pub mod reading;
pub mod writing;

pub use asn1_schema_decode::Refusal;
pub use front_readers::{CoerFront, OerFront};
pub use oer_codec_decoder::decoder;

/// The edition of X.696 that this crate follows.
pub const ITU_T_X696_OER_EDITION: u32 = 3;
