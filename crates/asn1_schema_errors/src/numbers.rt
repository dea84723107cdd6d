//! Converts decoded numbers to user-defined types.
ghost use Rattle.std.specs.Prelude.{◌≡◌, ◌<◌, ◌⊎◌, true, false, length, IfOk, OnOk, IfErr};
ghost use Rattle.asn1_model.specs.Numbers.{is_within};
ghost use Rattle.asn1_values_natives.specs.Octets.{own_number};

use crate::DecodeError;
use asn1_values_integers::{IntegerError, IntegerType};
use std::alloc::Global;

/// The decoder's error for octets that are not a number of the target type, in all rules.
fn number_fault(error: IntegerError) -> DecodeError
    ensures memory { error ≡ IntegerError.Memory → result ≡ DecodeError.OutOfMemory }
    ensures fresh { ¬ (result ≡ DecodeError.AlreadyFailed) }
{
    match error {
        IntegerError::Memory => DecodeError::OutOfMemory,
        IntegerError::Overflow | IntegerError::Empty => DecodeError::IntegerOverflow,
    }
}

/// The number that octets encode, in two's complement (`signed`) or unsigned, in the target type.
///
/// # Errors
///
/// `IntegerOverflow` if the type does not hold the number, and `OutOfMemory`.
pub fn number_from_octets<I: IntegerType>(
    alloc: Global,
    signed: bool,
    octets: &[u8],
) -> Result<I, DecodeError>
    requires { 0 < length octets.now }
    ensures value { IfOk result (λ x. I.value x ≡ own_number signed octets.now) }
    ensures held { OnOk result (is_within I.held (own_number signed octets.now) ≡ true) }
    ensures refused { IfErr result (λ e. (e ≡ DecodeError.OutOfMemory)
        ⊎ (is_within I.held (own_number signed octets.now) ≡ false)) }
    ensures fresh { IfErr result (λ e. ¬ (e ≡ DecodeError.AlreadyFailed)) }
{
    if signed {
        return match I::try_from_signed_bytes(alloc, octets) {
            Ok(value) => Ok(value),
            Err(error) => Err(number_fault(error)),
        };
    }
    match I::try_from_unsigned_bytes(alloc, octets) {
        Ok(value) => Ok(value),
        Err(error) => Err(number_fault(error)),
    }
}

/// A 128-bit number in the target type.
///
/// # Errors
///
/// `IntegerOverflow` if the type does not hold the number.
#[inline(always)]
pub fn held_number<I: IntegerType>(number: i128) -> Result<I, DecodeError>
    ensures value { IfOk result (λ x. I.value x ≡ number) }
    ensures held { OnOk result (is_within I.held number ≡ true) }
    ensures refused { IfErr result (λ e. (e ≡ DecodeError.OutOfMemory) ⊎ (is_within I.held number ≡ false)) }
    ensures fresh { IfErr result (λ e. ¬ (e ≡ DecodeError.AlreadyFailed)) }
{
    match I::from_i128(number) {
        Some(value) => Ok(value),
        None => Err(DecodeError::IntegerOverflow),
    }
}
