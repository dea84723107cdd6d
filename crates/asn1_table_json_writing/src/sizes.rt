//! Types of one size.
#![tactic(auto, using(std::proofs::lemmas::Grind::common_steps))]

use asn1_schema_constraints::{Bounded, Sizes};

/// The one size, if there is no other, and no extension marker.
pub fn fixed_size(sizes: Sizes) -> Option<usize> {
    if sizes.is_extensible {
        return None;
    }
    match sizes.root {
        Bounded::Single(size) => Some(size),
        Bounded::Range {
            start: Some(start),
            end: Some(end),
        } if start == end => Some(start),
        _ => None,
    }
}
