//! Where a message is refused.
ghost use Rattle.std.specs.Prelude.{◌≤◌, length, IfOk};
ghost use Rattle.asn1_schema_decode.specs.Messages.{NoMessage};
ghost use Rattle.asn1_table_locating.specs.Answers.{EndsAt, IfRead, IfRefused};
ghost use Rattle.asn1_table_nodes.specs.Meaning.{type_at};
ghost use Rattle.oer_codec.specs.Messages as octet;
ghost use Rattle.per_codec.specs.Messages as packed;

use crate::standing::Standing;
use crate::trail::Trail;
use crate::watched::Watched;
use asn1_schema_errors::DecodeError;
use asn1_table_names::Names;
use asn1_table_relay::{decode_oer, decode_per};
use asn1_table_types::Types;
use asn1_table_walker::read_onto;
use oer_codec_decoder::{Decoder as OctetDecoder, DecoderOptions as OctetOptions};
use oer_codec_reading::EncodingRules;
use per_codec_decoder::{Decoder as PackedDecoder, DecoderOptions as PackedOptions};
use per_codec_reading::PackedRules;
use std::alloc::{AllocError, Global};
use std::fmt;

/// Whether a message is read, and where it ends or is refused.
#[derive(Debug, Drop)]
pub enum Located {
    /// A value is read; the octets from this index on come after its encoding.
    Read(usize),
    /// It is refused.
    Refused(Refused),
}

/// Where and why a message is refused.
#[derive(Debug, Drop)]
pub struct Refused {
    /// The index of the octet at which the refused record begins: a value, the beginning of one with parts, or an open
    /// type.
    pub octet: usize,
    /// In PER the bit of that octet, from 0 for the most significant one.
    pub bit: Option<u8>,
    /// The components, alternatives and elements that lead to the record, as in `a.b[2].c`; empty for the whole value.
    pub path: String,
    /// Why it is refused.
    pub error: DecodeError,
}

impl fmt::Display for Refused {
    fn fmt<W: fmt::Write>(&self, f: &mut fmt::Formatter<W>) -> fmt::Result {
        let octet = self.octet;
        write!(f, "octet {octet}")?;
        if let Some(bit) = self.bit {
            write!(f, ", bit {bit}")?;
        }
        if !self.path.is_empty() {
            let path = self.path.as_str();
            write!(f, ", in {path}")?;
        }
        match self.error {
            // A table says by it only that a type is outside, as REAL and times are.
            DecodeError::TypeNotExtensible => write!(f, ": the type is not supported"),
            error => write!(f, ": {error}"),
        }
    }
}

/// Where a message of the type at an index of a table ends or is refused by the octet encoding rules (X.696).
pub fn locate_oer(
    alloc: Global,
    types: &Types,
    names: &Names,
    place: usize,
    input: &[u8],
    rules: EncodingRules,
) -> Result<Located, AllocError>
    ensures read { IfOk result (λ l. IfRead l
        (EndsAt (octet.rules_of rules) (type_at types.now.nodes.items 128 place) input.now)) }
    ensures refused { IfOk result (λ l. IfRefused l (λ r. NoMessage (octet.rules_of rules)
        (λ _. type_at types.now.nodes.items 128 place) input.now r.error)) }
    ensures within { IfOk result (λ l. IfRefused l (λ r. r.octet ≤ length input.now)) }
{
    let error = match decode_oer(alloc, types, place, input, rules) {
        Ok((_tape, rest)) => return Ok(Located::Read(input.len().saturating_sub(rest.len()))),
        Err(refusal) => refusal.error,
    };
    let decoder = OctetDecoder::new(alloc, input, OctetOptions { rules });
    let found = find(alloc, decoder, types, names, place, input)?;
    Ok(Located::Refused(Refused {
        octet: found.octet,
        bit: None,
        path: found.path,
        error,
    }))
}

/// Where a message of the type at an index of a table ends or is refused by the packed encoding rules (X.691). In an
/// open type in fragments the place is that of the open type.
pub fn locate_per(
    alloc: Global,
    types: &Types,
    names: &Names,
    place: usize,
    input: &[u8],
    rules: PackedRules,
) -> Result<Located, AllocError>
    ensures read { IfOk result (λ l. IfRead l
        (EndsAt (packed.rules_of rules) (type_at types.now.nodes.items 128 place) input.now)) }
    ensures refused { IfOk result (λ l. IfRefused l (λ r. NoMessage (packed.rules_of rules)
        (λ _. type_at types.now.nodes.items 128 place) input.now r.error)) }
    ensures within { IfOk result (λ l. IfRefused l (λ r. r.octet ≤ length input.now)) }
{
    let error = match decode_per(alloc, types, place, input, rules) {
        Ok((_tape, rest)) => return Ok(Located::Read(input.len().saturating_sub(rest.len()))),
        Err(refusal) => refusal.error,
    };
    let decoder = PackedDecoder::new(alloc, input, PackedOptions { rules });
    let found = find(alloc, decoder, types, names, place, input)?;
    Ok(Located::Refused(Refused {
        octet: found.octet,
        bit: Some(found.bit),
        path: found.path,
        error,
    }))
}

/// Where a reader stands: the octet and its bit, and the path to what comes next.
#[derive(Drop)]
struct Found {
    octet: usize,
    bit: u8,
    path: String,
}

/// Where a decoder of these octets stops.
fn find<D: Standing + Drop>(
    alloc: Global,
    decoder: D,
    types: &Types,
    names: &Names,
    place: usize,
    input: &[u8],
) -> Result<Found, AllocError>
    ensures { IfOk result (λ f. f.octet ≤ length input.now) }
{
    let mut message = Vec::new(alloc);
    message.extend_from_slice(input)?;
    let mut watched = Watched::new(alloc, decoder, message);
    let mut tape = Vec::new(alloc);
    let mut trail = Trail::new(alloc, types, place);
    if read_onto(alloc, &mut watched, types, place, &mut tape).is_ok() {
        watched.mark();
    }
    trail.follow(tape.as_slice())?;
    if watched.was_noting() {
        trail.step_back();
    }
    let bits = watched.stands_at();
    Ok(Found {
        octet: (bits / 8).min(input.len()),
        bit: (bits % 8) as u8,
        path: trail.path(names)?,
    })
}
