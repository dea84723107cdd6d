//! The calls with octets of a type, for all types alike.
use crate::streams::{Relayed, Way};
use asn1_relay_core::{
    Codec, DecodeError, EncodeError, MemorySink, RecodeFault, RelayFault, RunFault,
};
use std::alloc::{AllocError, Global};

/// The sets of rules of the input and of the output of a translation.
#[derive(Clone, Copy)]
pub struct Rules {
    /// The rules of the input.
    pub from: Codec,
    /// The rules of the output.
    pub to: Codec,
}

/// The result of a translation.
pub type Translated = Result<Vec<u8>, RecodeFault>;

/// The result of a run, and what was written.
pub type Ran = (Result<(), RunFault>, MemorySink);

/// The canonical encoding of a value, or why it has none.
pub type Encoded = Result<Vec<u8>, EncodeError>;

/// What was decoded at the beginning of octets.
#[derive(Drop)]
pub struct Told {
    /// The length of the encoding in octets, if the remainder that was returned is what follows it. Decoders with
    /// constraints return no remainder.
    pub taken: Option<usize>,
    /// The value, written by the rules of the output.
    pub encoded: Encoded,
}

impl Told {
    /// What was decoded, by the remainder that was returned and the encoding of the value. Of a long remainder only the
    /// two ends are compared with the octets.
    pub fn new(octets: &[u8], rest: &[u8], encoded: Encoded) -> Told {
        let taken = taken_before(octets, rest);
        Told { taken, encoded }
    }
}

/// How many octets of a remainder are compared at either end.
const COMPARED: usize = 64;

/// The length of the octets before `rest`, if they end in it.
fn taken_before(octets: &[u8], rest: &[u8]) -> Option<usize> {
    let taken = octets.len().checked_sub(rest.len())?;
    let behind = part(octets, taken, octets.len());
    let last = rest.len().saturating_sub(COMPARED);
    let is_rest = part(behind, 0, COMPARED) == part(rest, 0, COMPARED)
        && part(behind, last, rest.len()) == part(rest, last, rest.len());
    is_rest.then_some(taken)
}

/// The results of a relay for a piece, and then for the end of the stream.
#[derive(Clone, Copy, Debug)]
pub struct Step {
    /// The result for the piece.
    pub fed: Result<(), RelayFault>,
    /// The result if the stream ends there.
    pub ended: Result<(), RelayFault>,
    /// The number of unread octets. None for a relay that has stopped.
    pub unread: Option<usize>,
    /// The number of octets in the output so far.
    pub written: usize,
}

impl Step {
    /// Whether it is the same as another.
    pub fn is(&self, other: &Step) -> bool {
        self.fed == other.fed
            && self.ended == other.ended
            && self.unread == other.unread
            && self.written == other.written
    }
}

/// A type of the vectors.
pub trait Judged {
    /// Whether its messages are relayed in streams. With constraints that are given to each call they are not: such
    /// decoders return no remainder.
    fn is_relayed(&self) -> bool;

    /// Translates octets from one set of rules to another. If its messages are not relayed, octets after one are
    /// ignored.
    fn translate(&self, alloc: Global, rules: Rules, octets: &[u8]) -> Translated;

    /// Decodes the value with whose encoding octets begin, and encodes it.
    ///
    /// # Errors
    ///
    /// Why the octets begin with no encoding.
    fn front(&self, alloc: Global, rules: Rules, octets: &[u8]) -> Result<Told, DecodeError>;

    /// Feeds octets to a relay, in pieces that end at these positions. The output of each piece goes to a buffer of its
    /// own, and from there to `out`. None if its messages are not relayed.
    ///
    /// # Errors
    ///
    /// Only if memory runs out.
    fn follow(
        &self,
        alloc: Global,
        way: Way,
        octets: &[u8],
        ends: &[usize],
        out: &mut Vec<u8>,
    ) -> Result<Option<Vec<Step>>, AllocError>;

    /// Feeds the pieces of a stream to a relay, up to its first error, and ends the stream. None if its messages are
    /// not relayed.
    fn relay(
        &self,
        alloc: Global,
        way: Way,
        pieces: &[&[u8]],
        out: &mut Vec<u8>,
    ) -> Option<Relayed>;

    /// Runs a relay from memory to memory. None if its messages are not relayed.
    fn run(&self, alloc: Global, way: Way, octets: Vec<u8>) -> Option<Ran>;
}

/// The octets from one position up to another.
pub fn part(octets: &[u8], begin: usize, end: usize) -> &[u8] {
    let front = &octets[..end.min(octets.len())];
    &front[begin.min(front.len())..]
}
