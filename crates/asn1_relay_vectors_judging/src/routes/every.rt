//! Every list of up to three hops.
use crate::judging::CODECS;
use crate::routes::{Versions, Way, arrives};
use asn1_relay_core::{Hop, Version};
use asn1_relay_vectors_lines::line::{LineError, Verdict};
use std::alloc::{AllocError, Global};

/// How many samples of a pair are sent.
const SAMPLES: usize = 4;

/// The length of a list of hops, and the number of such lists.
const LISTS: [(usize, usize); 3] = [(1, 12), (2, 144), (3, 1728)];

/// The versions of a hop.
const VERSIONS: [Version; 2] = [Version::Old, Version::New];

/// The number of different hops: one for each version and each set of rules.
const KINDS: usize = 12;

/// The samples of a pair, in each set of rules, must arrive by every list of hops as their values predict.
///
/// # Errors
///
/// `Otherwise` if they do not, `NoSample` if the pair has none, and `Memory` if memory runs out.
pub fn judge_every(alloc: Global, of: &dyn Versions) -> Verdict {
    for place in 0..SAMPLES {
        for from in CODECS {
            let Some(sent) = of.foretell(alloc, place, Way { from, hops: &[] }) else {
                return if place == 0 {
                    Err(LineError::NoSample)
                } else {
                    Ok(())
                };
            };
            let octets = sent.map_err(|_| LineError::Form)?;
            for (count, lists) in LISTS {
                for number in 0..lists {
                    let hops = hops_of(alloc, count, number)?;
                    let hops = hops.as_slice();
                    let way = Way { from, hops };
                    let wanted = of.foretell(alloc, place, way).ok_or(LineError::Form)?;
                    arrives(alloc, of, way, octets.as_slice(), &wanted)?;
                }
            }
        }
    }
    Ok(())
}

/// A list of `count` hops; the digits of `number` select them.
fn hops_of(alloc: Global, count: usize, number: usize) -> Result<Vec<Hop>, LineError> {
    let mut hops = Vec::new(alloc);
    let mut rest = number;
    for _ in 0..count {
        let hop = Hop {
            version: VERSIONS[rest / CODECS.len() % VERSIONS.len()],
            to: CODECS[rest % CODECS.len()],
        };
        hops.push(hop).map_err(AllocError::from)?;
        rest /= KINDS;
    }
    Ok(hops)
}
