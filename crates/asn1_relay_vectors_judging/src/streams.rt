//! Whether streams of messages are translated, or stop, as a line says.
use crate::judged::Judged;
use asn1_relay_core::{Codec, RelayFault, RelayFaultKind, RunFault};
use asn1_relay_vectors_lines::line::{Limit, LineError, Spelled, Verdict};
use asn1_relay_vectors_lines::octets::shown;
use std::alloc::{AllocError, Global};

/// Streams of at most this many octets are cut in every way, and others at one position only, or after each octet.
const ALL_CUTTINGS: usize = 12;

/// Streams of more than this many octets are cut near their ends and near their middle only.
const LONG: usize = 2048;

/// How a stream is translated.
#[derive(Clone, Copy)]
pub struct Way {
    /// The rules of the input.
    pub from: Codec,
    /// The rules of the output.
    pub to: Codec,
    /// The maximum length of a message, in octets.
    pub limit: Limit,
}

/// The results of a relay.
#[derive(Clone, Copy, Debug)]
pub struct Relayed {
    /// Its first error, or its result at the end of the stream.
    pub answer: Result<(), RelayFault>,
    /// Its result for one more piece: an octet after an error, and an empty piece after the end.
    pub fed: Result<(), RelayFault>,
    /// Its result at the end, once more.
    pub ended: Result<(), RelayFault>,
    /// Whether it says that it has failed.
    pub failed: bool,
}

impl Relayed {
    /// Whether a relay that has stopped reports so from then on, and one that has not is unchanged.
    fn is_lasting(&self) -> bool {
        match self.answer {
            Err(RelayFault { number, kind }) if kind != RelayFaultKind::NoForm => {
                let kind = RelayFaultKind::AlreadyFailed;
                let fault = Err(RelayFault { number, kind });
                self.failed && self.fed == fault && self.ended == fault
            }
            answer => !self.failed && self.fed == Ok(()) && self.ended == answer,
        }
    }
}

/// Where a stream is cut.
#[derive(Clone, Copy, Debug)]
enum Cutting {
    /// After each octet.
    Each,
    /// Before the octet at this position.
    At(usize),
    /// After the octets whose bits are set in this number.
    Behind(u32),
}

impl Cutting {
    /// Whether a stream is cut after the octet at this position.
    fn is_behind(self, place: usize) -> bool {
        match self {
            Cutting::Each => true,
            Cutting::At(next) => next.checked_sub(1) == Some(place),
            Cutting::Behind(places) => places >> place.min(31) & 1 == 1,
        }
    }
}

/// A stream, how it is translated, and what it must become.
#[derive(Clone, Copy)]
struct Stream<'a> {
    alloc: Global,
    way: Way,
    octets: &'a [u8],
    wanted: &'a [u8],
    answer: Result<(), RelayFault>,
}

/// A stream must become another, in each set of rules that is named, and end with this result.
///
/// # Errors
///
/// `Otherwise` if the library does not do what is said, and `Memory` if memory runs out.
pub fn judge_stream(
    alloc: Global,
    of: &dyn Judged,
    limit: Limit,
    source: &Spelled,
    target: &Spelled,
    answer: Result<(), RelayFault>,
) -> Verdict {
    for from in source.readers.iter() {
        for to in target.rules.iter() {
            let stream = Stream {
                alloc,
                way: Way {
                    from: *from,
                    to: *to,
                    limit,
                },
                octets: source.octets.as_slice(),
                wanted: target.octets.as_slice(),
                answer,
            };
            stream.relays_by_all_cuttings(of)?;
            stream.runs(of)?;
        }
    }
    Ok(())
}

/// Two copies of an encoding must become two copies of its translation, in each set of rules that is named and wherever
/// the stream is cut. If the limit is one octet less, the relay must find no message within it.
///
/// # Errors
///
/// Those of `judge_stream`.
pub fn judge_repeated(
    alloc: Global,
    of: &dyn Judged,
    source: &Spelled,
    target: &Spelled,
) -> Verdict {
    let Some(limit) = Limit::new(source.octets.len()) else {
        return Ok(());
    };
    let octets = twice(alloc, source.octets.as_slice())?;
    let wanted = twice(alloc, target.octets.as_slice())?;
    for from in source.readers.iter() {
        for to in target.rules.iter() {
            let stream = Stream {
                alloc,
                way: Way {
                    from: *from,
                    to: *to,
                    limit,
                },
                octets: octets.as_slice(),
                wanted: wanted.as_slice(),
                answer: if wanted.is_empty() {
                    stops(RelayFaultKind::EmptyMessage)
                } else {
                    Ok(())
                },
            };
            stream.is_repeated(of)?;
        }
    }
    Ok(())
}

/// The result of a stream that stops at its first message.
fn stops(kind: RelayFaultKind) -> Result<(), RelayFault> {
    Err(RelayFault { number: 0, kind })
}

/// Two copies of octets.
fn twice(alloc: Global, octets: &[u8]) -> Result<Vec<u8>, LineError> {
    let mut both = Vec::from_slice(alloc, octets)?;
    both.extend_from_slice(octets).map_err(AllocError::from)?;
    Ok(both)
}

impl<'a> Stream<'a> {
    /// A stream of two copies of one message must become what is expected. If the limit is one octet less, the relay
    /// must find no message within it.
    fn is_repeated(&self, of: &dyn Judged) -> Verdict {
        self.relays_by_single_cuttings(of)?;
        self.runs(of)?;
        let Some(limit) = Limit::new(self.way.limit.octets - 1) else {
            return Ok(());
        };
        let less = Stream {
            way: Way { limit, ..self.way },
            wanted: &[],
            answer: stops(RelayFaultKind::NoneWithinLimit),
            ..*self
        };
        less.relays(of, Cutting::At(0))?;
        less.runs(of)
    }

    /// A stream must become what is expected; a short one in every way of cutting it.
    fn relays_by_all_cuttings(&self, of: &dyn Judged) -> Verdict {
        if self.octets.len() > ALL_CUTTINGS {
            return self.relays_by_single_cuttings(of);
        }
        for places in 0..1 << self.octets.len().saturating_sub(1) {
            self.relays(of, Cutting::Behind(places))?;
        }
        Ok(())
    }

    /// A stream must become what is expected, uncut, cut at one position, and octet by octet.
    fn relays_by_single_cuttings(&self, of: &dyn Judged) -> Verdict {
        let count = self.octets.len();
        if count <= LONG {
            self.relays(of, Cutting::Each)?;
        }
        for place in 0..count {
            let is_near = place <= 1 || count - place == 1 || place.abs_diff(count / 2) <= 1;
            if count <= LONG || is_near {
                self.relays(of, Cutting::At(place))?;
            }
        }
        Ok(())
    }

    /// A relay that is fed an empty piece and then the pieces of a stream must give what is expected.
    fn relays(&self, of: &dyn Judged, cutting: Cutting) -> Verdict {
        let pieces = pieces(self.alloc, self.octets, cutting)?;
        let mut out = Vec::new(self.alloc);
        let found = of
            .relay(self.alloc, self.way, pieces.as_slice(), &mut out)
            .ok_or(LineError::NoStreams)?;
        if out.as_slice() == self.wanted && found.answer == self.answer && found.is_lasting() {
            return Ok(());
        }
        let octets = shown(self.alloc, out.as_slice())?;
        self.streamed(format!(in self.alloc; "{cutting:?} gives {octets}; {found:?}")?)
    }

    /// A run from memory to memory must give what is expected.
    fn runs(&self, of: &dyn Judged) -> Verdict {
        let input = Vec::from_slice(self.alloc, self.octets)?;
        let ran = of.run(self.alloc, self.way, input);
        let (found, sink) = ran.ok_or(LineError::NoStreams)?;
        if sink.octets() == self.wanted && found == self.answer.map_err(RunFault::Relay) {
            return Ok(());
        }
        let octets = shown(self.alloc, sink.octets())?;
        self.streamed(format!(in self.alloc; "a run gives {octets}; {found:?}")?)
    }

    /// A line is wrong: the error says what a stream gave.
    fn streamed(&self, found: String) -> Verdict {
        let Way { from, to, .. } = self.way;
        let found = format!(in self.alloc; "a stream from {from:?} to {to:?}: {found}")?;
        Err(LineError::Otherwise(found))
    }
}

/// The pieces of a stream that is cut, after an empty one.
fn pieces<'a>(
    alloc: Global,
    octets: &'a [u8],
    cutting: Cutting,
) -> Result<Vec<&'a [u8]>, LineError> {
    let mut pieces = Vec::new(alloc);
    pieces.push(&octets[..0]).map_err(AllocError::from)?;
    let mut begin = 0;
    for place in 0..octets.len() {
        if cutting.is_behind(place) {
            pieces
                .push(&octets[begin..place + 1])
                .map_err(AllocError::from)?;
            begin = place + 1;
        }
    }
    pieces.push(&octets[begin..]).map_err(AllocError::from)?;
    Ok(pieces)
}
