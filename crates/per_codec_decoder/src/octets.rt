//! The octets of an OCTET STRING, as the decoder returns them.
ghost use Rattle.per_codec_reading.specs.Octets.{octets_of, AreUnowned};

use asn1_schema_decode::ReadOctets;
use per_codec_reading::InputOctets;
use std::alloc::{AllocError, Global};

/// The octets of an OCTET STRING: borrowed from the input, so few that the value holds them, or owned.
#[derive(Drop)]
pub struct StringOctets<'input> {
    /// The octets.
    pub octets: InputOctets<'input>,
}

/// A few octets in the value itself are copied into a vector as borrowed ones are.
impl<'input> ReadOctets for StringOctets<'input> {
    ghost items = { λ string. octets_of string.octets };

    ghost is_lent = { λ string. AreUnowned string.octets };

    #[inline(always)]
    fn octets(&self) -> &[u8] {
        self.octets.as_slice()
    }

    fn into_vec(self, alloc: Global) -> Result<Vec<u8>, AllocError> {
        self.octets.into_vec(alloc)
    }
}
