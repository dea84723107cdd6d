//! Translation of one message from one set of encoding rules to another.
ghost use Rattle.std.specs.Prelude.{◌≡◌, ◌⊎◌, ◌++◌, [], List, ℕ, None, Some, IfErr, IfOk, IfSome, OnErr, OnOk};
ghost use Rattle.asn1_relay_core.specs.Coding.{rules_of};
ghost use Rattle.asn1_relay_core.specs.MessageTypes.{TellsAs};
ghost use Rattle.asn1_relay_core.specs.Recoding.{answer_of, answered, refusal_of, Answer, IsAnswer, NamesMemoryAlone};
ghost use Rattle.asn1_relay_core.specs.Recoding.{NamesNoEarlierRefusal};
ghost use Rattle.asn1_relay_core.specs.Recoding.{DetoursChangeNoAnswer, NamesNoMisplacedCall, NamesNoPlatformSize};
ghost use Rattle.asn1_relay_core.specs.Strictly.{StrictIsReadCanonically};

use crate::codec::Codec;
use crate::message_type::MessageType;
use crate::rust_type::RustType;
use asn1_schema_decode::{Decode, Refusal};
use asn1_schema_encode::Encode;
use asn1_schema_errors::{DecodeError, EncodeError};
use std::alloc::Global;
use thiserror::Error;

/// Why a message was not translated. Errors of decoding come first.
#[derive(Clone, Copy, Debug, PartialEq, Eq, Error)]
pub enum RecodeFault {
    /// No prefix of the octets is an encoding of a value with at most 128 nested levels.
    #[error("not an encoding: {0}")]
    NotAnEncoding(DecodeError),
    /// Octets follow the encoding.
    #[error("surplus octets")]
    Surplus,
    /// The value has no encoding in the target rules.
    #[error("no target encoding: {0}")]
    NoTarget(EncodeError),
    /// Memory ran out.
    #[error("out of memory")]
    Memory,
}

/// The error of a translation whose input could not be decoded.
impl From<DecodeError> for RecodeFault {
    ghost use Rattle.asn1_relay_core.specs.Recoding.{source_fault_of};

    ghost from_gives = { λ e f. f ≡ source_fault_of e };

    fn from(error: DecodeError) -> RecodeFault {
        match error {
            DecodeError::OutOfMemory => RecodeFault::Memory,
            error => RecodeFault::NotAnEncoding(error),
        }
    }
}

/// The error of a translation whose input could not be decoded, and may need more octets.
impl From<Refusal> for RecodeFault {
    ghost use Rattle.asn1_relay_core.specs.Recoding.{source_fault_of};

    ghost from_gives = { λ r f. f ≡ source_fault_of r.error };

    fn from(refusal: Refusal) -> RecodeFault {
        RecodeFault::from(refusal.error)
    }
}

/// The error of a translation whose value could not be encoded.
impl From<EncodeError> for RecodeFault {
    ghost use Rattle.asn1_relay_core.specs.Recoding.{target_fault_of};

    ghost from_gives = { λ e f. f ≡ target_fault_of e };

    fn from(error: EncodeError) -> RecodeFault {
        match error {
            EncodeError::OutOfMemory => RecodeFault::Memory,
            error => RecodeFault::NoTarget(error),
        }
    }
}

/// A detour changes no result. If octets were translated to other rules, then the right result for the translation, in
/// any rules, is the right result for the original octets, and vice versa. So a translation, translated to its own
/// rules, stays the same.
pub fn detours_change_no_answer()
    ensures { DetoursChangeNoAnswer }
{}

/// A message that strict UPER, strict APER or COER reads is the canonical encoding of its value, if each bitmap of
/// additions has the width of its type, the elements of each SET OF ascend, and, in COER, each bitmap has a bit set.
pub fn strict_is_read_canonically()
    ensures { StrictIsReadCanonically }
{}

/// Translates one message of the type `T`: the input must be exactly one encoding, by the rules `from`, of a value with
/// at most 128 nested levels. Returns the canonical encoding of that value by the rules `to`.
///
/// At most one result is right (`one_answer_is_right` of `asn1_laws_versions`), and this function returns it.
/// Each error therefore occurs exactly when its cause holds. The only exception is memory that runs out, always
/// reported as `RecodeFault::Memory`. A detour through other rules changes nothing (`detours_change_no_answer`).
///
/// # Errors
///
/// * `NotAnEncoding`: no prefix of the input is an encoding of a value with at most 128 nested levels.
/// * `Surplus`: octets follow the encoding.
/// * `NoTarget`: the value has no encoding by the rules `to`.
/// * `Memory`: memory ran out.
#[inline(always)]
pub fn recode<T: Encode + Decode>(
    alloc: Global,
    from: Codec,
    to: Codec,
    input: &[u8],
) -> Result<Vec<u8>, RecodeFault>
    ensures right { IfSome (answer_of result) (IsAnswer (rules_of from) (rules_of to) (T.schema 128) input.now) }
    ensures exact { (a : Answer) → IsAnswer (rules_of from) (rules_of to) (T.schema 128) input.now a
        → (answer_of result ≡ None) ⊎ (answer_of result ≡ Some a) }
    ensures memory { IfErr result NamesMemoryAlone }
    ensures fresh { IfErr result NamesNoEarlierRefusal }
    ensures in_place { IfErr result NamesNoMisplacedCall }
    ensures fits { IfErr result NamesNoPlatformSize }
{
    recode_of(alloc, &RustType::<T>::new(), from, to, input)
}

/// Reads the value of which the input is the one encoding.
fn read_alone<M: MessageType>(
    alloc: Global,
    message_type: &M,
    from: Codec,
    input: &[u8],
) -> Result<M::Value, RecodeFault>
    ensures ok { IfOk result
        (λ x. TellsAs (rules_of from) (M.schema message_type.now) (M.means message_type.now x) input.now []) }
    ensures only { IfErr result (λ f. (to : Codec) → IfSome (refusal_of f)
        (IsAnswer (rules_of from) (rules_of to) (M.schema message_type.now 128) input.now)) }
    ensures memory { IfErr result NamesMemoryAlone }
    ensures fresh { IfErr result NamesNoEarlierRefusal }
    ensures in_place { IfErr result NamesNoMisplacedCall }
    ensures fits { IfErr result NamesNoPlatformSize }
{
    let (value, rest) = message_type.read_front(alloc, from, input)?;
    if !rest.is_empty() {
        return Err(RecodeFault::Surplus);
    }
    Ok(value)
}

/// As `recode`, but appends the translation to the octets in `out`, by way of `room` as in `Codec::encode_into`. At
/// most one result is right (`one_answer_is_right` of `asn1_laws_versions`), and this is it.
///
/// # Errors
///
/// As for `recode`; `out` then has its previous contents, and `room` may have lost its capacity.
#[inline(always)]
pub fn recode_into<T: Encode + Decode>(
    alloc: Global,
    from: Codec,
    to: Codec,
    input: &[u8],
    room: &mut Vec<u8>,
    out: &mut Vec<u8>,
) -> Result<(), RecodeFault>
    ensures right { OnOk result ((octets : List ℕ) × (out.new.items ≡ out.old.items ++ octets)
        × IsAnswer (rules_of from) (rules_of to) (T.schema 128) input.now (answered octets)) }
    ensures only { IfErr result (λ f. IfSome (refusal_of f)
        (IsAnswer (rules_of from) (rules_of to) (T.schema 128) input.now)) }
    ensures same { OnErr result (out.new.items ≡ out.old.items) }
    ensures memory { IfErr result NamesMemoryAlone }
    ensures fresh { IfErr result NamesNoEarlierRefusal }
    ensures in_place { IfErr result NamesNoMisplacedCall }
    ensures fits { IfErr result NamesNoPlatformSize }
{
    recode_into_of(alloc, &RustType::<T>::new(), from, to, input, room, out)
}

/// As `recode_into`, for messages of a type that is passed, by its `write_into`.
///
/// # Errors
///
/// As for `recode_into`.
pub fn recode_into_of<M: MessageType>(
    alloc: Global,
    message_type: &M,
    from: Codec,
    to: Codec,
    input: &[u8],
    room: &mut Vec<u8>,
    out: &mut Vec<u8>,
) -> Result<(), RecodeFault>
    ensures right { OnOk result ((octets : List ℕ) × (out.new.items ≡ out.old.items ++ octets)
        × IsAnswer (rules_of from) (rules_of to) (M.schema message_type.now 128) input.now (answered octets)) }
    ensures only { IfErr result (λ f. IfSome (refusal_of f)
        (IsAnswer (rules_of from) (rules_of to) (M.schema message_type.now 128) input.now)) }
    ensures same { OnErr result (out.new.items ≡ out.old.items) }
    ensures memory { IfErr result NamesMemoryAlone }
    ensures fresh { IfErr result NamesNoEarlierRefusal }
    ensures in_place { IfErr result NamesNoMisplacedCall }
    ensures fits { IfErr result NamesNoPlatformSize }
{
    let value = read_alone(alloc, message_type, from, input)?;
    message_type.write_into(alloc, to, &value, room, out)?;
    Ok(())
}

/// As `recode`, for messages of a type that is passed.
///
/// # Errors
///
/// As for `recode`.
pub fn recode_of<M: MessageType>(
    alloc: Global,
    message_type: &M,
    from: Codec,
    to: Codec,
    input: &[u8],
) -> Result<Vec<u8>, RecodeFault>
    ensures right { IfSome (answer_of result)
        (IsAnswer (rules_of from) (rules_of to) (M.schema message_type.now 128) input.now) }
    ensures exact { (a : Answer)
        → IsAnswer (rules_of from) (rules_of to) (M.schema message_type.now 128) input.now a
        → (answer_of result ≡ None) ⊎ (answer_of result ≡ Some a) }
    ensures memory { IfErr result NamesMemoryAlone }
    ensures fresh { IfErr result NamesNoEarlierRefusal }
    ensures in_place { IfErr result NamesNoMisplacedCall }
    ensures fits { IfErr result NamesNoPlatformSize }
{
    let value = read_alone(alloc, message_type, from, input)?;
    Ok(message_type.write(alloc, to, &value)?)
}
