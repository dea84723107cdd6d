//! The packed encoding rules (X.691), unaligned (UPER) and aligned (APER): values are encoded, and decoded from all
//! forms or, strictly, only from the forms that an encoder writes, except for the freedoms of strict rules.
#![tactic(auto)]

pub mod aper;
pub mod aper_strict;
pub mod front_readers;
pub mod laws;
pub mod reading;
pub mod uper;
pub mod uper_strict;
pub mod writing;

pub use asn1_schema_decode::Refusal;
pub use front_readers::{AperFront, AperStrictFront, UperFront, UperStrictFront};
pub use per_codec_decoder::{Decoder, DecoderOptions};
pub use per_codec_encoder::{Encoder, EncoderOptions};
pub use per_codec_reading::PackedRules;
pub use per_codec_rules::Variant;
