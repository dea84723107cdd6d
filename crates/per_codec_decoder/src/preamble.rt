//! The preamble of a SEQUENCE, SET or group (X.691 19.1 to 19.3).
ghost use Rattle.std.specs.Prelude.{◌≡◌, [], true, OnOk, IfOk, IfErr};
ghost use Rattle.std.specs.Prelude.{is_some};
ghost use Rattle.asn1_schema_reading_laws.specs.PresenceBits.{preamble_bits};
ghost use Rattle.per_codec_reading.specs.Fronts.{freedoms, IsFresh, Leads};
ghost use Rattle.per_codec_decoder.specs.Preamble.{HasPreamble, NoPreamble};
ghost use Rattle.per_codec_decoder.specs.Scopes.{scope_of, stands_in};

use crate::frames::Frame;
use asn1_schema_errors::DecodeError;
use per_codec_reading::PackedRules;
use per_codec_reading_values::{Field, Stretch};
use std::alloc::Global;

/// Reads the extension bit, if there is one.
///
/// # Errors
///
/// `Incomplete` if there is no bit.
#[inline(always)]
fn read_extension_bit(
    place: &mut Stretch<'_>,
    extensible: bool,
) -> Result<Option<bool>, DecodeError>
    ensures there { IfOk result (λ bit. is_some bit ≡ extensible) }
    ensures bits { IfOk result (λ bit. Leads (preamble_bits bit []) place.old.place place.new.place) }
    ensures storage { OnOk result (place.new.storage ≡ place.old.storage) }
    ensures only { IfErr result (λ _. (extensible ≡ true) × (place.old.place.1 ≡ [])) }
    ensures fresh { IfErr result IsFresh }
{
    if !extensible {
        return Ok(None);
    }
    let Some(bit) = place.next_bit() else {
        return Err(DecodeError::Incomplete);
    };
    Ok(Some(bit))
}

/// Reads the preamble of a SEQUENCE, SET or group with or without an extension marker, `optional` of whose components
/// may be absent: the extension bit, if there is one, and the presence bits.
///
/// # Errors
///
/// `Incomplete` if the bits end early, and `OutOfMemory`.
#[inline(always)]
pub fn read_preamble<'input>(
    alloc: Global,
    place: &mut Stretch<'input>,
    rules: PackedRules,
    extensible: bool,
    optional: usize,
) -> Result<Frame<'input>, DecodeError>
    ensures ok { IfOk result (λ frame. HasPreamble (freedoms rules) extensible optional
        (scope_of frame) place.old.place place.new.place) }
    ensures storage { OnOk result (place.new.storage ≡ place.old.storage) }
    ensures inner { IfOk result (λ frame. (k : _) → stands_in frame k ≡ k) }
    ensures only { IfErr result (NoPreamble (freedoms rules) extensible optional place.old.place) }
    ensures fresh { IfErr result IsFresh }
{
    let extension_bit = read_extension_bit(place, extensible)?;
    let presence = place.take_field(alloc, rules, Field::Bits(optional))?;
    Ok(Frame::Components(presence, extension_bit))
}
