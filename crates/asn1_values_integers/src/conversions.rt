//! Conversions from and to the native integer types.
ghost use Rattle.std.specs.Prelude.{◌≡◌, ◌-◌, ◌^◌, ◌<◌, ℤ, pos, true, false, Some, is_some, is_ok, IfOk, IfErr, IfSome};
ghost use Rattle.asn1_model.specs.Numbers.{is_within};
ghost use Rattle.asn1_values_integers.specs.Conversions.{IsNatural, IsWhole};
ghost use Rattle.asn1_values_integers.specs.Texts.{refusal_text};
ghost use Rattle.asn1_values_natives.specs.Octets.{plain};
ghost use Rattle.asn1_values_natives.specs.Ranges.{range_of, natural_range, whole_range};
ghost use Rattle.std.proofs.Common.{rules};
ghost use Rattle.std.specs.Cmp.Rules.{comparing};
ghost use Rattle.std.specs.Ordering.{int_eq};

use crate::integer::Integer;
use asn1_values_natives::NativeInteger;
use std::alloc::AllocError;
use std::error::Error;
use std::fmt;
use std::marker::Model;

/// The number, which the target type does not hold.
#[derive(Debug, Drop)]
pub struct TryFromIntegerError {
    original: Integer,
}

impl Model for TryFromIntegerError {
    ghost use Rattle.std.specs.Prelude.{ℤ};

    ghost Value = { ℤ };

    ghost view = { λ a. a.original };
}

impl TryFromIntegerError {
    /// The error for a number.
    pub fn new(value: i128) -> TryFromIntegerError
        ensures { result ≡ value }
    {
        TryFromIntegerError {
            original: Integer::from_i128(value),
        }
    }

    /// The number that was to be converted.
    pub fn into_original(self) -> Integer
        ensures { result ≡ self }
    {
        self.original
    }
}

impl fmt::Display for TryFromIntegerError {
    ghost output = { λ z. Some (refusal_text z) };

    fn fmt<W: fmt::Write>(&self, f: &mut fmt::Formatter<W>) -> fmt::Result {
        let original = &self.original;
        write!(f, "{original} is outside the range of its type")
    }
}

impl Error for TryFromIntegerError {}

/// Errors are equal if their numbers are.
impl PartialEq for TryFromIntegerError {
    ghost eq = { int_eq };

    ghost laws = { Prim.search (comparing, rules) };

    fn eq(&self, other: &TryFromIntegerError) -> bool {
        self.original == other.original
    }
}

impl Eq for TryFromIntegerError {
    ghost laws = { Prim.search (comparing, rules) };
}

/// Allocates only if a clone of the number does.
impl Clone for TryFromIntegerError {
    ghost is_clone = { λ z copy. copy ≡ z };

    ghost is_infallible = { λ z. plain z < 2 ^ 128 };

    fn clone(&self) -> Result<TryFromIntegerError, AllocError> {
        Ok(TryFromIntegerError {
            original: self.original.clone()?,
        })
    }
}

impl<T: NativeInteger> From<T> for Integer {
    ghost from_gives = { λ x z. z ≡ T.number x };

    fn from(value: T) -> Integer {
        Integer::from_wide(value.to_wide())
    }
}

impl Integer {
    /// The number as a value of a native type, if the type holds it.
    pub fn to_native<T: NativeInteger>(&self) -> Option<T>
        ensures value { IfSome result (λ x. T.number x ≡ self.now) }
        ensures fits { is_some result ≡ is_within (range_of T.SIGNED T.greatest) self.now }
    {
        T::from_wide(self.to_wide()?)
    }

    /// The number as a value of a native type, or the number back if the type does not hold it.
    ///
    /// # Errors
    ///
    /// If the type does not hold the number; the error returns it.
    pub fn into_native<T: NativeInteger>(self) -> Result<T, TryFromIntegerError>
        ensures value { IfOk result (λ x. T.number x ≡ self) }
        ensures original { IfErr result (λ e. e ≡ self) }
        ensures fits { is_ok result ≡ is_within (range_of T.SIGNED T.greatest) self }
    {
        match self.to_native() {
            Some(value) => Ok(value),
            None => Err(TryFromIntegerError { original: self }),
        }
    }

    /// The number as an `i64`, if it is one.
    pub fn to_i64(&self) -> Option<i64>
        ensures value { IfSome result (λ z. z ≡ self.now) }
        ensures fits { is_some result ≡ is_within (whole_range (2 ^ 63 - 1)) self.now }
    {
        self.to_native()
    }

    /// The number as a `u64`, if it is one.
    pub fn to_u64(&self) -> Option<u64>
        ensures value { IfSome result (λ n. pos n ≡ self.now) }
        ensures fits { is_some result ≡ is_within (natural_range (2 ^ 64 - 1)) self.now }
    {
        self.to_native()
    }
}

impl TryFrom<Integer> for u8 {
    type Error = TryFromIntegerError;

    ghost try_from_gives = { λ z r. IsNatural (2 ^ 8 - 1) z r };

    fn try_from(value: Integer) -> Result<u8, TryFromIntegerError> {
        value.into_native()
    }
}

impl TryFrom<Integer> for u16 {
    type Error = TryFromIntegerError;

    ghost try_from_gives = { λ z r. IsNatural (2 ^ 16 - 1) z r };

    fn try_from(value: Integer) -> Result<u16, TryFromIntegerError> {
        value.into_native()
    }
}

impl TryFrom<Integer> for u32 {
    type Error = TryFromIntegerError;

    ghost try_from_gives = { λ z r. IsNatural (2 ^ 32 - 1) z r };

    fn try_from(value: Integer) -> Result<u32, TryFromIntegerError> {
        value.into_native()
    }
}

impl TryFrom<Integer> for u64 {
    type Error = TryFromIntegerError;

    ghost try_from_gives = { λ z r. IsNatural (2 ^ 64 - 1) z r };

    fn try_from(value: Integer) -> Result<u64, TryFromIntegerError> {
        value.into_native()
    }
}

impl TryFrom<Integer> for u128 {
    type Error = TryFromIntegerError;

    ghost try_from_gives = { λ z r. IsNatural (2 ^ 128 - 1) z r };

    fn try_from(value: Integer) -> Result<u128, TryFromIntegerError> {
        value.into_native()
    }
}

impl TryFrom<Integer> for usize {
    type Error = TryFromIntegerError;

    ghost try_from_gives = { λ z r. IsNatural (2 ^ 64 - 1) z r };

    fn try_from(value: Integer) -> Result<usize, TryFromIntegerError> {
        value.into_native()
    }
}

impl TryFrom<Integer> for i8 {
    type Error = TryFromIntegerError;

    ghost try_from_gives = { λ z r. IsWhole (2 ^ 7 - 1) z r };

    fn try_from(value: Integer) -> Result<i8, TryFromIntegerError> {
        value.into_native()
    }
}

impl TryFrom<Integer> for i16 {
    type Error = TryFromIntegerError;

    ghost try_from_gives = { λ z r. IsWhole (2 ^ 15 - 1) z r };

    fn try_from(value: Integer) -> Result<i16, TryFromIntegerError> {
        value.into_native()
    }
}

impl TryFrom<Integer> for i32 {
    type Error = TryFromIntegerError;

    ghost try_from_gives = { λ z r. IsWhole (2 ^ 31 - 1) z r };

    fn try_from(value: Integer) -> Result<i32, TryFromIntegerError> {
        value.into_native()
    }
}

impl TryFrom<Integer> for i64 {
    type Error = TryFromIntegerError;

    ghost try_from_gives = { λ z r. IsWhole (2 ^ 63 - 1) z r };

    fn try_from(value: Integer) -> Result<i64, TryFromIntegerError> {
        value.into_native()
    }
}

impl TryFrom<Integer> for i128 {
    type Error = TryFromIntegerError;

    ghost try_from_gives = { λ z r. IsWhole (2 ^ 127 - 1) z r };

    fn try_from(value: Integer) -> Result<i128, TryFromIntegerError> {
        value.into_native()
    }
}

impl TryFrom<Integer> for isize {
    type Error = TryFromIntegerError;

    ghost try_from_gives = { λ z r. IsWhole (2 ^ 63 - 1) z r };

    fn try_from(value: Integer) -> Result<isize, TryFromIntegerError> {
        value.into_native()
    }
}
