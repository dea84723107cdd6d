//! The upper bounds of a size that determine the form of a length determinant (X.691 11.9.4.1).
ghost use Rattle.std.specs.Prelude.{◌≡◌, ◌<◌, IfSome};
ghost use Rattle.asn1_schema_constraints.specs.Bounds.{upper};
ghost use Rattle.per_codec_rules.specs.Counts.{below_long_count};

use crate::LONG_COUNT;
use asn1_schema_constraints::Bounded;

/// The upper bound of the root of a size, if it determines the form of the length determinant: it is below 65536
/// (X.691 11.9.4.1). `None` for SIZE (1..70000): a general length determinant then gives the count, in lists written by
/// `begin_members` of `per_codec_encoder` and read by `read_members` of `per_codec_decoder`.
#[inline(always)]
pub fn highest_below_64k(root: Bounded<usize>) -> Option<usize>
    ensures highest { result ≡ below_long_count (upper root) }
    ensures bound { IfSome result (λ highest. highest < 65536) }
{
    let highest = *root.as_end()?;
    if highest >= LONG_COUNT {
        return None;
    }
    Some(highest)
}
