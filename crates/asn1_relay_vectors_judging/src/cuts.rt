//! Inputs, truncated at each octet. Each prefix is decoded by each set of rules and by three calls, and their results
//! are compared.
use crate::judged::{Encoded, Judged, Rules, Step, Told, part};
use crate::judging::{CODECS, gives};
use crate::streams::Way;
use asn1_relay_core::{Codec, DecodeError, RecodeFault, RelayFault, RelayFaultKind};
use asn1_relay_vectors_lines::line::{Limit, LineError, Verdict};
use asn1_relay_vectors_lines::octets::shown;
use std::alloc::{AllocError, Global};

/// The first octets and the length of a list of 16,385 elements. Decoders of its truncated prefixes would take 10^9
/// steps.
const LIST: ([u8; 4], usize) = ([0x02, 0x40, 0x01, 0xFF], 16_388);

/// How many octets decoders may copy from the first fragment of an input, over all its truncated prefixes.
const COPIED: usize = 500_000_000;

/// The number of sets of rules whose encodings differ. The strict rules after them encode as two of these do, and a
/// relay from the strict rules goes to those.
const WRITERS: usize = 4;

/// Heavy inputs are truncated within this many octets of either end only.
const ENDS: usize = 512;

/// Octets, and the type as which they are decoded.
#[derive(Clone, Copy)]
pub struct Input<'a> {
    /// The name of the type, and its constraints.
    pub name: &'a str,
    /// The octets.
    pub octets: &'a [u8],
}

/// What a line says of the prefixes of octets, in rules of its own.
#[derive(Clone, Copy)]
pub enum Front {
    /// All octets are one encoding, and each proper prefix of them is `Incomplete`.
    Whole,
    /// A proper prefix of them is an encoding.
    Part,
    /// No prefix of them is an encoding: each is rejected for this reason, or as `Incomplete`.
    Missing(DecodeError),
}

/// What was found in the prefixes of octets, by one set of rules.
#[derive(Clone, Copy, Debug, PartialEq, Eq)]
struct Found {
    /// The length of the shortest prefix that is an encoding, in octets.
    least: Option<usize>,
    /// Why other prefixes are rejected, if not as `Incomplete`.
    reason: Option<DecodeError>,
    /// Whether there is more than one such reason.
    is_mixed: bool,
    /// A sum over the encodings of the value in all sets of rules.
    sum: u64,
}

impl Found {
    /// Nothing was found.
    const NOTHING: Found = Found {
        least: None,
        reason: None,
        is_mixed: false,
        sum: 0,
    };

    /// Adds a prefix that is rejected.
    fn add(&mut self, error: DecodeError) {
        if error == DecodeError::Incomplete {
            return;
        }
        self.is_mixed = self.is_mixed || self.reason.is_some_and(|reason| reason != error);
        self.reason = Some(error);
    }

    /// Whether it agrees with what is said of `all` octets.
    fn is(&self, front: Front, all: usize) -> bool {
        match front {
            Front::Whole => self.least == Some(all) && self.reason.is_none(),
            Front::Part => self.least.is_some_and(|least| least < all),
            Front::Missing(error) => {
                let is_expected = self.reason.is_none() || self.reason == Some(error);
                self.least.is_none() && is_expected && !self.is_mixed
            }
        }
    }
}

/// Counts of what was tried.
#[derive(Clone, Copy)]
pub struct Tries {
    /// The number of inputs.
    pub inputs: u64,
    /// The number of their prefixes, counted for each set of rules.
    pub cuts: u64,
    /// The number of results that were compared.
    pub answers: u64,
}

/// What was found by each set of rules.
type Fronts = [Found; 6];

/// An input that was tried.
#[derive(Drop)]
struct Tried {
    name: String,
    octets: Vec<u8>,
    fronts: Fronts,
}

impl Tried {
    /// Whether another input is the same, and something else was found in it.
    fn is_unlike(&self, other: &Tried) -> bool {
        self.name.as_str() == other.name.as_str()
            && self.octets.as_slice() == other.octets.as_slice()
            && self.fronts != other.fronts
    }
}

/// All inputs that were tried.
#[derive(Drop)]
pub struct Inputs {
    alloc: Global,
    tried: Vec<Tried>,
    tries: Tries,
}

impl Inputs {
    /// No inputs.
    pub fn new(alloc: Global) -> Inputs {
        let tries = Tries {
            inputs: 0,
            cuts: 0,
            answers: 0,
        };
        Inputs {
            alloc,
            tried: Vec::new(alloc),
            tries,
        }
    }

    /// The memory in which they are tried.
    pub fn alloc(&self) -> Global {
        self.alloc
    }

    /// What was tried.
    pub fn tries(&self) -> Tries {
        self.tries
    }

    /// The name of the first input that was tried over other types too and in which something else was found there.
    pub fn first_unlike(&self, others: &Inputs) -> Option<&str> {
        let unlike = self.tried.iter().find(|tried| others
            .tried
            .iter()
            .any(|other| tried.is_unlike(other)));
        Some(unlike?.name.as_str())
    }

    /// Tries an input, unless it was tried before. In these rules its prefixes must be as `front` says.
    ///
    /// # Errors
    ///
    /// `Otherwise` if they are not, or if the results of two calls do not agree, and `Memory` if memory runs out.
    pub fn judge(
        &mut self,
        of: &dyn Judged,
        input: Input<'_>,
        rules: &[Codec],
        front: Front,
    ) -> Verdict {
        let fronts = self.fronts(of, input)?;
        for place in 0..CODECS.len() {
            let (codec, found) = (CODECS[place], fronts[place]);
            if rules.contains(&codec) && !found.is(front, input.octets.len()) {
                let found = format!(in self.alloc; "cut at each octet, by {codec:?}: {found:?}")?;
                return Err(LineError::Otherwise(found));
            }
        }
        Ok(())
    }

    /// What is found in the prefixes of an input. It is tried now unless it was before.
    fn fronts(&mut self, of: &dyn Judged, input: Input<'_>) -> Result<Fronts, LineError> {
        for tried in self.tried.iter() {
            if tried.name.as_str() == input.name && tried.octets.as_slice() == input.octets {
                return Ok(tried.fronts);
            }
        }
        let mut tries = self.tries;
        let fronts = try_input(self.alloc, of, input, &mut tries)?;
        self.tries = tries;
        let tried = Tried {
            name: format!(in self.alloc; "{}", input.name)?,
            octets: Vec::from_slice(self.alloc, input.octets)?,
            fronts,
        };
        self.tried.push(tried).map_err(AllocError::from)?;
        Ok(fronts)
    }
}

/// Tries an input by each set of rules.
fn try_input(
    alloc: Global,
    of: &dyn Judged,
    input: Input<'_>,
    tries: &mut Tries,
) -> Result<Fronts, LineError> {
    let Input { octets, .. } = input;
    let lengths = lengths_of(alloc, octets)?;
    let mut fronts = [Found::NOTHING; 6];
    for place in 0..CODECS.len() {
        let reading = Reading {
            alloc,
            octets,
            lengths: lengths.as_slice(),
            from: CODECS[place],
        };
        fronts[place] = reading.first(of, tries)?;
        if let Some(least) = fronts[place].least {
            fronts[place].sum = reading.goes_on(of, least, tries)?;
        }
        if of.is_relayed() {
            reading.relays(of, CODECS[(place + 2) % CODECS.len()], tries)?;
            if place < WRITERS {
                reading.relays(of, CODECS[place], tries)?;
            }
        }
    }
    tries.inputs = tries.inputs.saturating_add(1);
    Ok(fronts)
}

/// The lengths of the prefixes that are tried, in ascending order, in octets.
fn lengths_of(alloc: Global, octets: &[u8]) -> Result<Vec<usize>, LineError> {
    let all = octets.len();
    let is_heavy = is_heavy(octets);
    let mut lengths = Vec::new(alloc);
    for length in 0..=all {
        let is_near = length <= ENDS || all.saturating_sub(length) <= ENDS;
        if is_near || !is_heavy {
            lengths.push(length).map_err(AllocError::from)?;
        }
    }
    Ok(lengths)
}

/// Whether octets are truncated near their ends only.
fn is_heavy(octets: &[u8]) -> bool {
    let (begins, length) = LIST;
    copied(octets) > COPIED || octets.len() == length && octets.starts_with(&begins)
}

/// How many octets decoders copy from the fragment with which octets begin (X.691 11.9.3.8), if they do, over all
/// prefixes that are truncated after it.
fn copied(octets: &[u8]) -> usize {
    let fragment: usize = match octets.first() {
        Some(0xC1) => 16_384,
        Some(0xC2) => 32_768,
        Some(0xC3) => 49_152,
        Some(0xC4) => 65_536,
        _ => 0,
    };
    fragment.saturating_mul(octets.len().saturating_sub(fragment))
}

/// Octets, the lengths of the prefixes that are tried, and the rules by which they are decoded.
#[derive(Clone, Copy)]
struct Reading<'a> {
    alloc: Global,
    octets: &'a [u8],
    lengths: &'a [usize],
    from: Codec,
}

impl<'a> Reading<'a> {
    /// What is found up to the shortest prefix that is an encoding. `recode` must reject each shorter one for the same
    /// reason.
    fn first(&self, of: &dyn Judged, tries: &mut Tries) -> Result<Found, LineError> {
        let mut found = Found::NOTHING;
        for length in self.lengths {
            let to = CODECS[*length % CODECS.len()];
            tries.cuts = tries.cuts.saturating_add(1);
            match self.front(of, to, part(self.octets, 0, *length), tries) {
                Ok(told) => {
                    found.least = Some(told.taken.unwrap_or(*length));
                    return Ok(found);
                }
                Err(error) => {
                    found.add(error);
                    let fault = RecodeFault::NotAnEncoding(error);
                    self.is_recoded(of, to, *length, Err(fault), tries)?;
                }
            }
        }
        Ok(found)
    }

    /// The shortest prefix that is an encoding must be decoded completely, and `recode` must encode the same value.
    /// More octets after it must change nothing. Returns a sum over the encodings of the value.
    fn goes_on(&self, of: &dyn Judged, least: usize, tries: &mut Tries) -> Result<u64, LineError> {
        let mut sum = 0;
        for to in CODECS {
            let Ok(told) = self.front(of, to, part(self.octets, 0, least), tries) else {
                self.wrong(least, "rejected, and then decoded")?;
                return Ok(sum);
            };
            sum = sum_with(sum, &told.encoded);
            self.is_taken(of, &told, least, least)?;
            let wanted = match &told.encoded {
                Ok(octets) => Ok(octets.as_slice()),
                Err(error) => Err(RecodeFault::NoTarget(*error)),
            };
            self.is_recoded(of, to, least, wanted, tries)?;
            self.goes_on_to(of, to, least, &told.encoded, tries)?;
        }
        Ok(sum)
    }

    /// With octets after the shortest encoding, the same octets must be decoded to the same value, and `recode` must
    /// return `Surplus`. Each length is tried with one set of output rules.
    fn goes_on_to(
        &self,
        of: &dyn Judged,
        to: Codec,
        least: usize,
        encoded: &Encoded,
        tries: &mut Tries,
    ) -> Verdict {
        for length in self.lengths {
            if *length <= least || CODECS[*length % CODECS.len()] != to {
                continue;
            }
            tries.cuts = tries.cuts.saturating_add(1);
            let Ok(told) = self.front(of, to, part(self.octets, 0, *length), tries) else {
                return self.wrong(*length, "rejected, but a prefix is decoded");
            };
            self.is_taken(of, &told, least, *length)?;
            if !is_same(&told.encoded, encoded) {
                return self.wrong(*length, "not the same value as for a shorter prefix");
            }
            self.is_recoded(of, to, *length, Err(RecodeFault::Surplus), tries)?;
        }
        Ok(())
    }

    /// Decodes the value with whose encoding octets begin, and encodes it by other rules.
    fn front(
        &self,
        of: &dyn Judged,
        to: Codec,
        octets: &[u8],
        tries: &mut Tries,
    ) -> Result<Told, DecodeError> {
        tries.answers = tries.answers.saturating_add(1);
        let rules = Rules {
            from: self.from,
            to,
        };
        of.front(self.alloc, rules, octets)
    }

    /// Of a prefix, `taken` octets must be decoded. (Decoders with constraints do not report this.)
    fn is_taken(&self, of: &dyn Judged, told: &Told, taken: usize, length: usize) -> Verdict {
        let wanted = of.is_relayed().then_some(taken);
        if told.taken == wanted {
            return Ok(());
        }
        let found = format!(in self.alloc; "{:?} are taken, not {wanted:?}", told.taken)?;
        self.wrong(length, found.as_str())
    }

    /// The translation of a prefix must give this result. (With constraints there is no such call.)
    fn is_recoded(
        &self,
        of: &dyn Judged,
        to: Codec,
        length: usize,
        wanted: Result<&[u8], RecodeFault>,
        tries: &mut Tries,
    ) -> Verdict {
        if !of.is_relayed() {
            return Ok(());
        }
        tries.answers = tries.answers.saturating_add(1);
        let beginning = part(self.octets, 0, length);
        let rules = Rules {
            from: self.from,
            to,
        };
        match gives(self.alloc, of, rules, beginning, wanted) {
            Err(LineError::Otherwise(found)) => self.wrong(length, found.as_str()),
            verdict => verdict,
        }
    }

    /// A relay is fed the octets one by one. At each of them its results, and those at the end of the stream there,
    /// must be as the decoders of prefixes predict.
    fn relays(&self, of: &dyn Judged, to: Codec, tries: &mut Tries) -> Verdict {
        let Some(limit) = Limit::new(self.octets.len().max(1)) else {
            return Ok(());
        };
        let way = Way {
            from: self.from,
            to,
            limit,
        };
        let alloc = self.alloc;
        let mut out = Vec::new(alloc);
        let steps = of.follow(alloc, way, self.octets, self.lengths, &mut out)?;
        let steps = steps.ok_or(LineError::NoStreams)?;
        let mut foretold = Foretold::new(alloc, to);
        for place in 0..self.lengths.len() {
            let length = self.lengths[place];
            let wanted = foretold.step(self, of, length, tries)?;
            let Some(found) = steps.get(place) else {
                return self.wrong(length, "not fed to a relay");
            };
            if !found.is(&wanted) {
                let found = format!(in alloc; "a relay to {to:?}: {found:?}, not {wanted:?}")?;
                return self.wrong(length, found.as_str());
            }
        }
        if out.as_slice() == foretold.out.as_slice() {
            return Ok(());
        }
        let out = shown(alloc, out.as_slice())?;
        let found = format!(in alloc; "out of a relay to {to:?} comes {out}")?;
        self.wrong(self.octets.len(), found.as_str())
    }

    /// A line is wrong: the error says what a prefix gave.
    fn wrong(&self, length: usize, found: &str) -> Verdict {
        let from = self.from;
        let alloc = self.alloc;
        let found = format!(in alloc; "truncated after {length} octets, by {from:?}: {found}")?;
        Err(LineError::Otherwise(found))
    }
}

/// A sum over encodings, with one more.
fn sum_with(sum: u64, encoded: &Encoded) -> u64 {
    let mut sum = sum.wrapping_mul(31);
    if let Ok(octets) = encoded {
        for octet in octets.iter() {
            sum = sum.wrapping_mul(31).wrapping_add(u64::from(*octet));
        }
    }
    sum
}

/// Whether the encodings of two values are the same, or the errors in their place.
fn is_same(found: &Encoded, wanted: &Encoded) -> bool {
    match (found, wanted) {
        (Ok(found), Ok(wanted)) => found.as_slice() == wanted.as_slice(),
        (Err(found), Err(wanted)) => *found == *wanted,
        _ => false,
    }
}

/// What a relay has to do, predicted by the decoders of prefixes alone.
#[derive(Drop)]
struct Foretold {
    to: Codec,
    begin: usize,
    number: u64,
    has_stopped: bool,
    out: Vec<u8>,
}

impl Foretold {
    /// Nothing is read yet.
    fn new(alloc: Global, to: Codec) -> Foretold {
        Foretold {
            to,
            begin: 0,
            number: 0,
            has_stopped: false,
            out: Vec::new(alloc),
        }
    }

    /// The results once the octets before this position are fed.
    fn step(
        &mut self,
        reading: &Reading<'_>,
        of: &dyn Judged,
        end: usize,
        tries: &mut Tries,
    ) -> Result<Step, LineError> {
        let stop = if self.has_stopped {
            Some(RelayFaultKind::AlreadyFailed)
        } else {
            self.feed(reading, of, end, tries)?
        };
        let ended = if self.has_stopped {
            Some(RelayFaultKind::AlreadyFailed)
        } else {
            (self.begin < end).then_some(RelayFaultKind::NoForm)
        };
        let unread = (!self.has_stopped).then_some(end.saturating_sub(self.begin));
        tries.answers = tries.answers.saturating_add(1);
        Ok(Step {
            fed: self.answer(stop),
            ended: self.answer(ended),
            unread,
            written: self.out.len(),
        })
    }

    /// A result at the current message.
    fn answer(&self, kind: Option<RelayFaultKind>) -> Result<(), RelayFault> {
        match kind {
            Some(kind) => Err(RelayFault {
                number: self.number,
                kind,
            }),
            None => Ok(()),
        }
    }

    /// Takes each message that ends before this position. Returns why the relay stops, if it does.
    fn feed(
        &mut self,
        reading: &Reading<'_>,
        of: &dyn Judged,
        end: usize,
        tries: &mut Tries,
    ) -> Result<Option<RelayFaultKind>, LineError> {
        for _ in self.begin..end {
            if self.begin >= end {
                return Ok(None);
            }
            let unread = part(reading.octets, self.begin, end);
            let Ok(told) = reading.front(of, self.to, unread, tries) else {
                return Ok(None);
            };
            if let Some(kind) = self.take(&told)? {
                self.has_stopped = true;
                return Ok(Some(kind));
            }
        }
        Ok(None)
    }

    /// Takes a message. Returns why a relay stops at it, if it does.
    fn take(&mut self, told: &Told) -> Result<Option<RelayFaultKind>, LineError> {
        let taken = told.taken.unwrap_or(0);
        if taken == 0 {
            return Ok(Some(RelayFaultKind::EmptyMessage));
        }
        match &told.encoded {
            Err(_) => Ok(Some(RelayFaultKind::NoTarget)),
            Ok(octets) if octets.is_empty() => Ok(Some(RelayFaultKind::EmptyMessage)),
            Ok(octets) => {
                self.out
                    .extend_from_slice(octets.as_slice())
                    .map_err(AllocError::from)?;
                self.begin = self.begin.saturating_add(taken);
                self.number = self.number.saturating_add(1);
                Ok(None)
            }
        }
    }
}
