//! Whether a type's octets are translated, or rejected, as a line says.
use crate::cuts::{Front, Input, Inputs};
use crate::judged::{Judged, Rules, Translated};
use crate::streams::{judge_repeated, judge_stream};
use asn1_relay_core::{Codec, RecodeFault};
use asn1_relay_vectors_lines::line::{Claim, Line, LineError, Spelled, Verdict};
use asn1_relay_vectors_lines::octets::shown;
use std::alloc::{AllocError, Global};

/// The six sets of rules. The last two encode as the first two do.
pub const CODECS: [Codec; 6] = [
    Codec::Uper,
    Codec::Aper,
    Codec::Oer,
    Codec::Coer,
    Codec::UperStrict,
    Codec::AperStrict,
];

/// Judges what a line says of octets of a type, and tries its octets when truncated.
///
/// # Errors
///
/// `Otherwise` if the library does not do what is said, and `Memory` if memory runs out.
pub fn judge(inputs: &mut Inputs, of: &dyn Judged, line: &Line<'_>) -> Verdict {
    judge_claim(inputs.alloc(), of, line)?;
    judge_cuts(inputs, of, line)
}

/// Tries the octets of a line when truncated.
fn judge_cuts(inputs: &mut Inputs, of: &dyn Judged, line: &Line<'_>) -> Verdict {
    match &line.claim {
        Claim::Same(encodings) => {
            for source in encodings.iter() {
                judge_input(inputs, of, line, source, Some(Front::Whole))?;
            }
            Ok(())
        }
        Claim::Becomes(source, target) => {
            judge_input(inputs, of, line, source, Some(Front::Whole))?;
            judge_input(inputs, of, line, target, Some(Front::Whole))
        }
        Claim::Refused(source, fault) => {
            let front = match fault {
                RecodeFault::NotAnEncoding(error) => Front::Missing(*error),
                _ => Front::Part,
            };
            judge_input(inputs, of, line, source, Some(front))
        }
        Claim::NoTarget(source, _, _) => {
            judge_input(inputs, of, line, source, Some(Front::Whole))
        }
        Claim::Streams(_, streams) => {
            for source in streams.iter() {
                judge_input(inputs, of, line, source, None)?;
            }
            Ok(())
        }
        Claim::Stream(_, source, _, _) => judge_input(inputs, of, line, source, None),
    }
}

/// Tries octets when truncated. In rules of their own their prefixes must be as the line says, if it does.
fn judge_input(
    inputs: &mut Inputs,
    of: &dyn Judged,
    line: &Line<'_>,
    source: &Spelled,
    front: Option<Front>,
) -> Verdict {
    let input = Input {
        name: line.constrained,
        octets: source.octets.as_slice(),
    };
    match front {
        Some(front) => inputs.judge(of, input, source.readers.as_slice(), front),
        None => inputs.judge(of, input, &[], Front::Whole),
    }
}

/// Judges what a line says of octets of a type.
fn judge_claim(alloc: Global, of: &dyn Judged, line: &Line<'_>) -> Verdict {
    match &line.claim {
        Claim::Same(encodings) => are_same(alloc, of, encodings.as_slice()),
        Claim::Becomes(source, target) => {
            becomes(alloc, of, source, target)?;
            becomes(alloc, of, target, target)
        }
        Claim::Refused(source, fault) => is_refused(alloc, of, source, *fault),
        Claim::NoTarget(source, rules, fault) => {
            has_no_target(alloc, of, source, rules.as_slice(), *fault)
        }
        Claim::Streams(limit, streams) => {
            for source in streams.iter() {
                for target in streams.iter() {
                    judge_stream(alloc, of, *limit, source, target, Ok(()))?;
                }
            }
            Ok(())
        }
        Claim::Stream(limit, source, target, answer) => {
            judge_stream(alloc, of, *limit, source, target, *answer)
        }
    }
}

/// Each encoding of a value must become each other one, alone and in streams.
fn are_same(alloc: Global, of: &dyn Judged, encodings: &[Spelled]) -> Verdict {
    for source in encodings {
        for target in encodings {
            becomes(alloc, of, source, target)?;
            if of.is_relayed() {
                judge_repeated(alloc, of, source, target)?;
            }
        }
    }
    Ok(())
}

/// Octets must become others in each set of rules that is named, by any detour, and be rejected with an octet after
/// them.
fn becomes(alloc: Global, of: &dyn Judged, source: &Spelled, target: &Spelled) -> Verdict {
    let octets = source.octets.as_slice();
    for from in source.readers.iter() {
        for to in target.rules.iter() {
            gives_by_any_way(alloc, of, *from, octets, *to, target.octets.as_slice())?;
        }
        is_not_read_to_its_end(alloc, of, *from, octets)?;
    }
    Ok(())
}

/// Octets must be translated to others directly, and by way of each set of rules in which the value has an encoding.
fn gives_by_any_way(
    alloc: Global,
    of: &dyn Judged,
    from: Codec,
    octets: &[u8],
    to: Codec,
    wanted: &[u8],
) -> Verdict {
    gives(alloc, of, Rules { from, to }, octets, Ok(wanted))?;
    for through in CODECS {
        let rules = Rules { from, to: through };
        match of.translate(alloc, rules, octets) {
            Ok(halfway) => {
                let rules = Rules { from: through, to };
                gives(alloc, of, rules, halfway.as_slice(), Ok(wanted))?;
            }
            Err(RecodeFault::NoTarget(_)) => {}
            Err(fault) => return translated(alloc, rules, &Err(fault)),
        }
    }
    Ok(())
}

/// The octets must be rejected for this reason, by any target rules.
fn is_refused(alloc: Global, of: &dyn Judged, source: &Spelled, fault: RecodeFault) -> Verdict {
    for from in source.readers.iter() {
        for to in CODECS {
            let rules = Rules { from: *from, to };
            gives(alloc, of, rules, source.octets.as_slice(), Err(fault))?;
        }
    }
    Ok(())
}

/// The octets must be decoded, and their value must have no encoding in these rules.
fn has_no_target(
    alloc: Global,
    of: &dyn Judged,
    source: &Spelled,
    targets: &[Codec],
    fault: RecodeFault,
) -> Verdict {
    for from in source.readers.iter() {
        for to in targets {
            let rules = Rules {
                from: *from,
                to: *to,
            };
            gives(alloc, of, rules, source.octets.as_slice(), Err(fault))?;
        }
    }
    Ok(())
}

/// The translation of octets must give this result.
pub fn gives(
    alloc: Global,
    of: &dyn Judged,
    rules: Rules,
    octets: &[u8],
    wanted: Result<&[u8], RecodeFault>,
) -> Verdict {
    let found = of.translate(alloc, rules, octets);
    let is_wanted = match (&found, wanted) {
        (Ok(found), Ok(wanted)) => found.as_slice() == wanted,
        (Err(found), Err(wanted)) => *found == wanted,
        _ => false,
    };
    if is_wanted {
        return Ok(());
    }
    translated(alloc, rules, &found)
}

/// An octet after the octets must be surplus. (Decoders with constraints ignore it.)
fn is_not_read_to_its_end(alloc: Global, of: &dyn Judged, from: Codec, octets: &[u8]) -> Verdict {
    if !of.is_relayed() {
        return Ok(());
    }
    let mut longer = Vec::from_slice(alloc, octets)?;
    longer.push(0).map_err(AllocError::from)?;
    let rules = Rules { from, to: from };
    gives(
        alloc,
        of,
        rules,
        longer.as_slice(),
        Err(RecodeFault::Surplus),
    )
}

/// A line is wrong: the error says what a translation gave.
fn translated(alloc: Global, rules: Rules, found: &Translated) -> Verdict {
    let Rules { from, to } = rules;
    let found = answer_shown(alloc, found)?;
    let found = format!(in alloc; "{from:?} to {to:?} gives {found}")?;
    Err(LineError::Otherwise(found))
}

/// What a translation gave: octets, or an error.
fn answer_shown(alloc: Global, found: &Translated) -> Result<String, LineError> {
    match found {
        Ok(octets) => shown(alloc, octets.as_slice()),
        Err(fault) => Ok(format!(in alloc; "{fault:?}")?),
    }
}
