//! The length of a preamble (X.696 16.2).
ghost use Rattle.std.specs.Prelude.{◌≡◌, ◌+◌, ◌*◌, cond};
ghost use Rattle.asn1_model.specs.Numbers.{missing};

/// The number of octets of a sequence's preamble (X.696 16.2): the extension bit, if there is one, and one bit for
/// each component that may be absent, padded to whole octets. Encoder and decoder share it.
#[inline(always)]
pub fn preamble_len(extensible: bool, optional: usize) -> usize
    ensures { result * 8 ≡ (cond extensible 1 0 + optional) + missing (cond extensible 1 0 + optional) }
{
    optional / 8 + (optional % 8 + usize::from(extensible) + 7) / 8
}
