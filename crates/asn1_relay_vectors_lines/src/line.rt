//! What a line says about octets.
ghost use Rattle.std.specs.Prelude.{◌≤◌};

use crate::octets::push_octets;
use asn1_relay_core::{Codec, DecodeError, EncodeError, RecodeFault, RelayFault, RelayFaultKind};
use std::alloc::{AllocError, Global};
use std::fmt::Debug;
use thiserror::Error;

/// Why a line is wrong.
#[derive(Debug, Drop, Error)]
pub enum LineError {
    /// It does not begin with the name of a type and a claim.
    #[error("a line is a type, a claim about it, and an optional remark after #")]
    Form,
    /// A word is neither an octet nor a repeated octet.
    #[error("octets have two hexadecimal digits each; NN*COUNT repeats one")]
    Octets,
    /// A word is not the name of a set of rules.
    #[error("rules are uper, aper, uper-strict, aper-strict, oer and coer, separated by commas")]
    Rules,
    /// The text after the name of a type is not a constraint.
    #[error("constraints are (0..255), (SIZE(1..3)) and (FROM(\"01\")), with ,... at the end for an extension marker")]
    Limits,
    /// A word is not a limit of a stream.
    #[error("a limit is a number of octets, at least 1")]
    Limit,
    /// A word is not the name of an error, or of none that may be named there.
    #[error("there is no such error")]
    NoError,
    /// No type, or no pair of versions, has this name.
    #[error("there is no type or pair of versions of this name")]
    NoType,
    /// Messages of the type are not relayed in streams.
    #[error("there are no streams of this type")]
    NoStreams,
    /// The result for octets, a stream or a route is not what the line says.
    #[error("{0}")]
    Otherwise(String),
    /// A pair of versions has no sample values.
    #[error("there are no samples of this pair of versions")]
    NoSample,
    /// Memory ran out.
    #[error("out of memory")]
    Memory,
}

/// Whether a line is right, or why it is wrong.
pub type Verdict = Result<(), LineError>;

impl From<AllocError> for LineError {
    fn from(_refused: AllocError) -> LineError {
        LineError::Memory
    }
}

/// Octets, and the rules for which a line gives them.
#[derive(Drop)]
pub struct Spelled {
    /// The rules.
    pub rules: Vec<Codec>,
    /// The rules by which the octets are decoded: for canonical octets of PER also the strict rules.
    pub readers: Vec<Codec>,
    /// The octets.
    pub octets: Vec<u8>,
}

/// The maximum length of a message: one octet or more.
#[derive(Clone, Copy)]
pub struct Limit {
    /// The number of octets.
    pub octets: usize,
    pub ghost some: { 1 ≤ octets },
}

impl Limit {
    /// A limit of this many octets, or none if it is 0.
    pub fn new(octets: usize) -> Option<Limit> {
        if octets == 0 {
            return None;
        }
        Some(Limit { octets })
    }
}

/// What a line says about its type.
#[derive(Drop)]
pub enum Claim {
    /// All of these are the canonical encodings of one value.
    Same(Vec<Spelled>),
    /// The first are translated to the second.
    Becomes(Spelled, Spelled),
    /// The octets are rejected for this reason.
    Refused(Spelled, RecodeFault),
    /// The octets are an encoding of a value that has none by these rules, for this reason.
    NoTarget(Spelled, Vec<Codec>, RecodeFault),
    /// All of these are streams of the canonical encodings of the same values; no encoding is longer than the limit.
    Streams(Limit, Vec<Spelled>),
    /// The first, as a stream, is translated to the second, up to the message at which it stops, if it does.
    Stream(Limit, Spelled, Spelled, Result<(), RelayFault>),
}

/// A type, and a claim about it.
#[derive(Drop)]
pub struct Line<'a> {
    /// The name of the type.
    pub kind: &'a str,
    /// The name of the type, and its constraints as they are written.
    pub constrained: &'a str,
    /// Its constraints as they are written.
    pub constraints: &'a str,
    /// The claim.
    pub claim: Claim,
}

impl<'a> Line<'a> {
    /// Reads a line, without the remark at its end.
    ///
    /// # Errors
    ///
    /// `Form`, `Rules`, `Octets`, `Limit` or `NoError` if it does not have the form of a line, and `Memory`
    /// if memory runs out.
    pub fn read(alloc: Global, said: &'a str) -> Result<Line<'a>, LineError> {
        let (kind, text) = said.split_once(' ').ok_or(LineError::Form)?;
        if kind == "stream" {
            let (kind, text) = text.split_once(' ').ok_or(LineError::Form)?;
            let claim = read_stream(alloc, text)?;
            return Ok(Line {
                kind,
                constrained: kind,
                constraints: "",
                claim,
            });
        }
        let constrained = kind;
        let (kind, constraints) = match kind.find('(') {
            Some(place) => kind.split_at(place),
            None => (kind, ""),
        };
        let claim = read_claim(alloc, text)?;
        Ok(Line {
            kind,
            constrained,
            constraints,
            claim,
        })
    }
}

/// Reads a claim about octets.
fn read_claim(alloc: Global, text: &str) -> Result<Claim, LineError> {
    match text.split_once("->") {
        Some((source, answer)) => read_answer(alloc, source, answer),
        None => Ok(Claim::Same(read_all(alloc, text)?)),
    }
}

/// Reads encodings separated by `=`.
fn read_all(alloc: Global, text: &str) -> Result<Vec<Spelled>, LineError> {
    let mut encodings = Vec::new(alloc);
    for part in text.split('=') {
        encodings
            .push(read_canonical(alloc, part)?)
            .map_err(AllocError::from)?;
    }
    Ok(encodings)
}

/// Reads what octets become.
fn read_answer(alloc: Global, source: &str, answer: &str) -> Result<Claim, LineError> {
    let source = read_spelled(alloc, source)?;
    let answer = answer.trim();
    match answer.split_once(' ') {
        None if answer == "Surplus" => Ok(Claim::Refused(source, RecodeFault::Surplus)),
        None if is_reason(answer) => {
            let error = named(alloc, answer, &READING_ERRORS)?;
            Ok(Claim::Refused(source, RecodeFault::NotAnEncoding(error)))
        }
        Some((rules, reason)) if is_reason(reason) => {
            let error = named(alloc, reason, &WRITING_ERRORS)?;
            let rules = read_rules(alloc, rules)?;
            Ok(Claim::NoTarget(source, rules, RecodeFault::NoTarget(error)))
        }
        _ => Ok(Claim::Becomes(source, read_canonical(alloc, answer)?)),
    }
}

/// Reads a limit, and what streams become.
fn read_stream(alloc: Global, text: &str) -> Result<Claim, LineError> {
    let (limit, text) = text.split_once(' ').ok_or(LineError::Form)?;
    let limit = limit.parse::<usize>().ok().and_then(Limit::new);
    let limit = limit.ok_or(LineError::Limit)?;
    let Some((source, answer)) = text.split_once("->") else {
        return Ok(Claim::Streams(limit, read_all(alloc, text)?));
    };
    let (target, answer) = match answer.split_once(';') {
        Some((target, stop)) => (target, Err(read_stop(alloc, stop.trim())?)),
        None => (answer, Ok(())),
    };
    let source = read_spelled(alloc, source)?;
    let target = read_canonical(alloc, target)?;
    Ok(Claim::Stream(limit, source, target, answer))
}

/// Reads why a stream stops, and at which message.
fn read_stop(alloc: Global, text: &str) -> Result<RelayFault, LineError> {
    let (name, number) = text.split_once(' ').ok_or(LineError::Form)?;
    Ok(RelayFault {
        number: number.parse::<u64>().map_err(|_| LineError::Form)?,
        kind: named(alloc, name, &STREAM_FAULTS)?,
    })
}

/// Whether a word may be the name of an error: letters only, more than the two of an octet, the first of them a
/// capital.
fn is_reason(word: &str) -> bool {
    let is_capital = word
        .bytes()
        .next()
        .is_some_and(|letter| letter.is_ascii_uppercase());
    word.len() > 2 && is_capital && word.bytes().all(|letter| letter.is_ascii_alphabetic())
}

/// Why octets may be rejected.
pub const READING_ERRORS: [DecodeError; 23] = [
    DecodeError::Incomplete,
    DecodeError::SurplusOctets,
    DecodeError::SizeConstraintNotSatisfied,
    DecodeError::ValueConstraintNotSatisfied,
    DecodeError::PermittedAlphabet,
    DecodeError::StringConversionFailed,
    DecodeError::DiscriminantValueNotFound,
    DecodeError::InvalidTagVariantOnChoice,
    DecodeError::InvalidTagNumberOnChoice,
    DecodeError::ZeroLengthOfLength,
    DecodeError::LengthExceedsPlatformWidth,
    DecodeError::IntegerOverflow,
    DecodeError::InvalidBool,
    DecodeError::InvalidBitString,
    DecodeError::InvalidPreamble,
    DecodeError::InvalidExtensionHeader,
    DecodeError::RequiredExtensionNotPresent,
    DecodeError::NotValidCanonicalEncoding,
    DecodeError::InvalidObjectIdentifier,
    DecodeError::InvalidPadding,
    DecodeError::ExceedsMaxParseDepth,
    DecodeError::MissingTagClassOrValue,
    DecodeError::TypeNotExtensible,
];

/// Why a value may have no encoding.
pub const WRITING_ERRORS: [EncodeError; 4] = [
    EncodeError::ValueConstraintNotSatisfied,
    EncodeError::SizeConstraintNotSatisfied,
    EncodeError::AlphabetConstraintNotSatisfied,
    EncodeError::TooLongValue,
];

/// Why a stream may stop.
const STREAM_FAULTS: [RelayFaultKind; 4] = [
    RelayFaultKind::NoneWithinLimit,
    RelayFaultKind::EmptyMessage,
    RelayFaultKind::NoTarget,
    RelayFaultKind::NoForm,
];

/// The one of these that has this name.
pub fn named<T: Copy + Debug>(alloc: Global, name: &str, all: &[T]) -> Result<T, LineError> {
    for one in all {
        if format!(in alloc; "{one:?}")?.as_str() == name {
            return Ok(*one);
        }
    }
    Err(LineError::NoError)
}

/// Reads rules, and the canonical octets after them, which are decoded strictly as well.
fn read_canonical(alloc: Global, text: &str) -> Result<Spelled, LineError> {
    let mut spelled = read_spelled(alloc, text)?;
    add_strict(&mut spelled.readers)?;
    Ok(spelled)
}

/// The lenient rules of PER, each with the strict rules that encode as it does.
const STRICT: [(Codec, Codec); 2] = [
    (Codec::Uper, Codec::UperStrict),
    (Codec::Aper, Codec::AperStrict),
];

/// Adds the strict rules of PER if the lenient ones are named.
fn add_strict(rules: &mut Vec<Codec>) -> Result<(), LineError> {
    for (lenient, strict) in STRICT {
        if rules.contains(&lenient) && !rules.contains(&strict) {
            rules.push(strict).map_err(AllocError::from)?;
        }
    }
    Ok(())
}

/// Reads rules, and the octets after them.
fn read_spelled(alloc: Global, text: &str) -> Result<Spelled, LineError> {
    let mut words = text.split_whitespace();
    let rules = read_rules(alloc, words.next().ok_or(LineError::Form)?)?;
    let mut octets = Vec::new(alloc);
    for word in words {
        push_octets(&mut octets, word)?;
    }
    let readers = Vec::from_slice(alloc, rules.as_slice())?;
    Ok(Spelled {
        rules,
        readers,
        octets,
    })
}

/// Reads names of rules, separated by commas.
pub fn read_rules(alloc: Global, text: &str) -> Result<Vec<Codec>, LineError> {
    let mut rules = Vec::new(alloc);
    for name in text.split(',') {
        let codec = match name {
            "uper" => Codec::Uper,
            "aper" => Codec::Aper,
            "uper-strict" => Codec::UperStrict,
            "aper-strict" => Codec::AperStrict,
            "oer" => Codec::Oer,
            "coer" => Codec::Coer,
            _ => return Err(LineError::Rules),
        };
        rules.push(codec).map_err(AllocError::from)?;
    }
    Ok(rules)
}
