//! Conversions of borrowed numbers to the native integer types.
ghost use Rattle.std.specs.Prelude.{◌≡◌, ◌-◌, ◌^◌, is_ok, IfOk, IfErr};
ghost use Rattle.asn1_model.specs.Numbers.{is_within};
ghost use Rattle.asn1_values_integers.specs.Conversions.{IsLentNatural, IsLentWhole};
ghost use Rattle.asn1_values_natives.specs.Ranges.{range_of};

use crate::error::IntegerError;
use crate::integer::Integer;
use asn1_values_natives::NativeInteger;

impl Integer {
    // The number as a value of a native type; an overflow if the type does not hold it.
    fn lent_native<T: NativeInteger>(&self) -> Result<T, IntegerError>
        ensures value { IfOk result (λ x. T.number x ≡ self.now) }
        ensures overflow { IfErr result (λ e. e ≡ IntegerError.Overflow) }
        ensures fits { is_ok result ≡ is_within (range_of T.SIGNED T.greatest) self.now }
    {
        match self.to_native() {
            Some(value) => Ok(value),
            None => Err(IntegerError::Overflow),
        }
    }
}

impl TryFrom<&Integer> for u8 {
    type Error = IntegerError;

    ghost try_from_gives = { λ z r. IsLentNatural (2 ^ 8 - 1) z.now r };

    fn try_from(value: &Integer) -> Result<u8, IntegerError> {
        value.lent_native()
    }
}

impl TryFrom<&Integer> for u16 {
    type Error = IntegerError;

    ghost try_from_gives = { λ z r. IsLentNatural (2 ^ 16 - 1) z.now r };

    fn try_from(value: &Integer) -> Result<u16, IntegerError> {
        value.lent_native()
    }
}

impl TryFrom<&Integer> for u32 {
    type Error = IntegerError;

    ghost try_from_gives = { λ z r. IsLentNatural (2 ^ 32 - 1) z.now r };

    fn try_from(value: &Integer) -> Result<u32, IntegerError> {
        value.lent_native()
    }
}

impl TryFrom<&Integer> for u64 {
    type Error = IntegerError;

    ghost try_from_gives = { λ z r. IsLentNatural (2 ^ 64 - 1) z.now r };

    fn try_from(value: &Integer) -> Result<u64, IntegerError> {
        value.lent_native()
    }
}

impl TryFrom<&Integer> for u128 {
    type Error = IntegerError;

    ghost try_from_gives = { λ z r. IsLentNatural (2 ^ 128 - 1) z.now r };

    fn try_from(value: &Integer) -> Result<u128, IntegerError> {
        value.lent_native()
    }
}

impl TryFrom<&Integer> for usize {
    type Error = IntegerError;

    ghost try_from_gives = { λ z r. IsLentNatural (2 ^ 64 - 1) z.now r };

    fn try_from(value: &Integer) -> Result<usize, IntegerError> {
        value.lent_native()
    }
}

impl TryFrom<&Integer> for i8 {
    type Error = IntegerError;

    ghost try_from_gives = { λ z r. IsLentWhole (2 ^ 7 - 1) z.now r };

    fn try_from(value: &Integer) -> Result<i8, IntegerError> {
        value.lent_native()
    }
}

impl TryFrom<&Integer> for i16 {
    type Error = IntegerError;

    ghost try_from_gives = { λ z r. IsLentWhole (2 ^ 15 - 1) z.now r };

    fn try_from(value: &Integer) -> Result<i16, IntegerError> {
        value.lent_native()
    }
}

impl TryFrom<&Integer> for i32 {
    type Error = IntegerError;

    ghost try_from_gives = { λ z r. IsLentWhole (2 ^ 31 - 1) z.now r };

    fn try_from(value: &Integer) -> Result<i32, IntegerError> {
        value.lent_native()
    }
}

impl TryFrom<&Integer> for i64 {
    type Error = IntegerError;

    ghost try_from_gives = { λ z r. IsLentWhole (2 ^ 63 - 1) z.now r };

    fn try_from(value: &Integer) -> Result<i64, IntegerError> {
        value.lent_native()
    }
}

impl TryFrom<&Integer> for i128 {
    type Error = IntegerError;

    ghost try_from_gives = { λ z r. IsLentWhole (2 ^ 127 - 1) z.now r };

    fn try_from(value: &Integer) -> Result<i128, IntegerError> {
        value.lent_native()
    }
}

impl TryFrom<&Integer> for isize {
    type Error = IntegerError;

    ghost try_from_gives = { λ z r. IsLentWhole (2 ^ 63 - 1) z.now r };

    fn try_from(value: &Integer) -> Result<isize, IntegerError> {
        value.lent_native()
    }
}
