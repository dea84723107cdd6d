//! A trait of the integer types.
ghost use Rattle.std.specs.Prelude.{◌≡◌, ℕ, ◌<◌, ◌≤◌, ◌^◌, ◌↔◌, ℤ, pos, ◌+ℤ◌, Bool, false, true, length, IfOk};
ghost use Rattle.std.specs.Prelude.{IfSome, is_some, IsErrOf, ◌/◌, ◌-◌, None, refl};
ghost use Rattle.asn1_model.specs.Schema.{Range};
ghost use Rattle.asn1_model.specs.Numbers.{is_within};
ghost use Rattle.asn1_values_natives.specs.Octets.{signed_number, unsigned_number, signed_octets_of};
ghost use Rattle.asn1_values_natives.specs.Octets.{unsigned_octets_of, own_number, is_below_zero, plain};
ghost use Rattle.asn1_values_natives.specs.Ranges.{range_of, range_of_width, whole_range, wrapped};
ghost use Rattle.asn1_values_natives.proofs.RangeLaws.{width_range};

use crate::{Integer, IntegerError};
use asn1_values_natives::{IntegerBytes, NativeInteger, Wide};
use std::alloc::Global;

/// An integer type: a native one or `Integer`.
pub trait IntegerType: Sized {
    /// The number of its bits; `u32::MAX` if it is unlimited.
    const WIDTH: u32;

    /// The number of its octets.
    const BYTE_WIDTH: usize;

    /// The number zero.
    const ZERO: Self;

    /// The unsigned type of the same number of bits.
    type UnsignedPair;

    /// The signed type of the same number of bits.
    type SignedPair;

    // The constants' values.
    ghost WIDTH: { ℕ };

    ghost BYTE_WIDTH: { ℕ };

    ghost ZERO: { Self };

    // The integer that a value is.
    ghost value: { Self → ℤ };

    // The integer that a value of the unsigned type is.
    ghost unsigned_value: { Self.UnsignedPair → ℤ };

    // Whether it has negative numbers.
    ghost signed: { Bool };

    // The numbers that it holds.
    ghost held: { Range };

    // The greatest number of the range in which it adds.
    ghost greatest: { ℕ };

    /// The number that octets encode, in two's complement if the type is signed (X.690 8.3). An error if there are no
    /// octets or the type does not hold the number; only `Integer` allocates.
    fn try_from_bytes(alloc: Global, input: &[u8]) -> Result<Self, IntegerError>
        ensures number { IfOk result (λ x. value x ≡ own_number signed input.now) }
        ensures empty { IsErrOf result IntegerError.Empty ↔ (length input.now ≡ 0) }
        ensures overflow { IsErrOf result IntegerError.Overflow
            ↔ ((0 < length input.now) × (is_within held (own_number signed input.now) ≡ false)) }
        ensures memory { IsErrOf result IntegerError.Memory → 2 ^ 128 ≤ plain (own_number signed input.now) };

    /// The number that octets encode in two's complement (X.690 8.3.3). Redundant leading octets are accepted. An
    /// error if there are no octets or the type does not hold the number.
    fn try_from_signed_bytes(alloc: Global, input: &[u8]) -> Result<Self, IntegerError>
        ensures number { IfOk result (λ x. value x ≡ signed_number input.now) }
        ensures empty { IsErrOf result IntegerError.Empty ↔ (length input.now ≡ 0) }
        ensures overflow { IsErrOf result IntegerError.Overflow
            ↔ ((0 < length input.now) × (is_within held (signed_number input.now) ≡ false)) }
        ensures memory { IsErrOf result IntegerError.Memory → 2 ^ 128 ≤ plain (signed_number input.now) };

    /// The number that unsigned octets encode. Leading zeros are accepted. An error if there are no octets or the type
    /// does not hold the number.
    fn try_from_unsigned_bytes(alloc: Global, input: &[u8]) -> Result<Self, IntegerError>
        ensures number { IfOk result (λ x. value x ≡ pos (unsigned_number input.now)) }
        ensures empty { IsErrOf result IntegerError.Empty ↔ (length input.now ≡ 0) }
        ensures overflow { IsErrOf result IntegerError.Overflow
            ↔ ((0 < length input.now) × (is_within held (pos (unsigned_number input.now)) ≡ false)) }
        ensures memory { IsErrOf result IntegerError.Memory → 2 ^ 128 ≤ unsigned_number input.now };

    /// The fewest octets of the number in two's complement (X.690 8.3).
    fn to_signed_bytes_be(&self) -> IntegerBytes<'_>
        ensures octets { result ≡ signed_octets_of (value self.now) }
        ensures within { is_within held (value self.now) ≡ true };

    /// The fewest octets of the number without a sign, at least one; for a negative number, those of two's complement.
    fn to_unsigned_bytes_be(&self) -> IntegerBytes<'_>
        ensures octets { result ≡ unsigned_octets_of (value self.now) }
        ensures within { is_within held (value self.now) ≡ true };

    /// The sum modulo 2 to the number of the type's bits; an `Integer` adds in 128 bits.
    fn wrapping_unsigned_add(self, other: Self::UnsignedPair) -> Self
        ensures { value result ≡ wrapped signed greatest (value self +ℤ unsigned_value other) };

    /// Whether the number is negative.
    fn is_negative(&self) -> bool
        ensures number { result ≡ is_below_zero (value self.now) }
        ensures within { is_within held (value self.now) ≡ true };

    /// Whether the type has negative numbers.
    fn is_signed(&self) -> bool
        ensures { result ≡ signed };

    /// The same number.
    fn to_integer(self) -> Integer
        ensures number { result ≡ value self }
        ensures within { is_within held (value self) ≡ true };

    /// The number, if an `i128` holds it.
    fn to_i128(&self) -> Option<i128>
        ensures number { IfSome result (λ z. z ≡ value self.now) }
        ensures fits { is_some result ≡ is_within (whole_range (2 ^ 127 - 1)) (value self.now) }
        ensures within { is_within held (value self.now) ≡ true };

    /// The number, if the type holds it.
    fn from_i128(number: i128) -> Option<Self>
        ensures number { IfSome result (λ x. value x ≡ number) }
        ensures fits { is_some result ≡ is_within held number };

    // Values of equal numbers are equal.
    ghost injective: { (x y : Self) → value x ≡ value y → x ≡ y };

    // Zero is zero.
    ghost nothing: { value ZERO ≡ pos 0 };

    // The number of its octets follows from that of its bits.
    ghost octets: { BYTE_WIDTH ≡ WIDTH / 8 };

    // It holds the numbers of its bits, and all numbers if it is unlimited.
    ghost width: { held ≡ range_of_width signed WIDTH };
}

/// The native integer types: `i8` to `i128`, `isize`, `u8` to `u128` and `usize`.
pub trait NativeIntegerType: NativeInteger {}

impl NativeIntegerType for u8 {}

impl NativeIntegerType for u16 {}

impl NativeIntegerType for u32 {}

impl NativeIntegerType for u64 {}

impl NativeIntegerType for u128 {}

impl NativeIntegerType for usize {}

impl NativeIntegerType for i8 {}

impl NativeIntegerType for i16 {}

impl NativeIntegerType for i32 {}

impl NativeIntegerType for i64 {}

impl NativeIntegerType for i128 {}

impl NativeIntegerType for isize {}

impl<T: NativeIntegerType> IntegerType for T {
    const WIDTH: u32 = T::BITS;

    const BYTE_WIDTH: usize = T::BITS as usize / 8;

    const ZERO: T = T::ZERO;

    type UnsignedPair = T::Unsigned;

    type SignedPair = T::Signed;

    ghost WIDTH = { T.BITS };

    ghost BYTE_WIDTH = { T.BITS / 8 };

    ghost ZERO = { T.ZERO };

    ghost value = { T.number };

    ghost unsigned_value = { T.unsigned_number };

    ghost signed = { T.SIGNED };

    ghost held = { range_of T.SIGNED T.greatest };

    ghost greatest = { T.greatest };

    ghost injective = { T.injective };

    ghost nothing = { T.nothing };

    ghost octets = { refl };

    ghost width = { width_range T.SIGNED T.BITS T.greatest T.short T.width };

    fn try_from_bytes(alloc: Global, input: &[u8]) -> Result<T, IntegerError> {
        if T::SIGNED {
            T::try_from_signed_bytes(alloc, input)
        } else {
            T::try_from_unsigned_bytes(alloc, input)
        }
    }

    fn try_from_signed_bytes(_alloc: Global, input: &[u8]) -> Result<T, IntegerError> {
        if input.is_empty() {
            return Err(IntegerError::Empty);
        }
        let Some(wide) = Wide::from_signed_octets(input) else {
            return Err(IntegerError::Overflow);
        };
        match T::from_wide(wide) {
            Some(value) => Ok(value),
            None => Err(IntegerError::Overflow),
        }
    }

    fn try_from_unsigned_bytes(_alloc: Global, input: &[u8]) -> Result<T, IntegerError> {
        if input.is_empty() {
            return Err(IntegerError::Empty);
        }
        let Some(wide) = Wide::from_unsigned_octets(input) else {
            return Err(IntegerError::Overflow);
        };
        match T::from_wide(wide) {
            Some(value) => Ok(value),
            None => Err(IntegerError::Overflow),
        }
    }

    fn to_signed_bytes_be(&self) -> IntegerBytes<'_> {
        IntegerBytes::signed(self.to_wide())
    }

    fn to_unsigned_bytes_be(&self) -> IntegerBytes<'_> {
        IntegerBytes::unsigned(self.to_wide())
    }

    fn wrapping_unsigned_add(self, other: T::Unsigned) -> T {
        NativeInteger::wrapping_unsigned_add(self, other)
    }

    fn is_negative(&self) -> bool {
        self.to_wide().negative
    }

    fn is_signed(&self) -> bool {
        T::SIGNED
    }

    fn to_integer(self) -> Integer {
        Integer::from_wide(self.to_wide())
    }

    fn to_i128(&self) -> Option<i128> {
        self.to_wide().to_whole(i128::MAX)
    }

    fn from_i128(number: i128) -> Option<T> {
        T::from_wide(Wide::from_i128(number))
    }
}

impl IntegerType for Integer {
    const WIDTH: u32 = u32::MAX;

    const BYTE_WIDTH: usize = u32::MAX as usize / 8;

    const ZERO: Integer = Integer::ZERO;

    type UnsignedPair = Integer;

    type SignedPair = Integer;

    ghost WIDTH = { 2 ^ 32 - 1 };

    ghost BYTE_WIDTH = { (2 ^ 32 - 1) / 8 };

    ghost ZERO = { pos 0 };

    ghost value = { λ z. z };

    ghost unsigned_value = { λ z. z };

    ghost signed = { true };

    ghost held = { record { low = None; high = None } };

    ghost greatest = { 2 ^ 127 - 1 };

    ghost injective = { λ x y e. e };

    ghost nothing = { refl };

    ghost octets = { refl };

    ghost width = { refl };

    fn try_from_bytes(alloc: Global, input: &[u8]) -> Result<Integer, IntegerError> {
        Integer::from_signed_octets(alloc, input)
    }

    fn try_from_signed_bytes(alloc: Global, input: &[u8]) -> Result<Integer, IntegerError> {
        Integer::from_signed_octets(alloc, input)
    }

    fn try_from_unsigned_bytes(alloc: Global, input: &[u8]) -> Result<Integer, IntegerError> {
        Integer::from_unsigned_octets(alloc, input)
    }

    fn to_signed_bytes_be(&self) -> IntegerBytes<'_> {
        Integer::to_signed_bytes_be(self)
    }

    fn to_unsigned_bytes_be(&self) -> IntegerBytes<'_> {
        Integer::to_unsigned_bytes_be(self)
    }

    fn wrapping_unsigned_add(self, other: Integer) -> Integer {
        self.wrapping_add(&other)
    }

    fn is_negative(&self) -> bool {
        Integer::is_negative(self)
    }

    fn is_signed(&self) -> bool {
        true
    }

    fn to_integer(self) -> Integer {
        self
    }

    fn to_i128(&self) -> Option<i128> {
        Integer::to_i128(self)
    }

    fn from_i128(number: i128) -> Option<Integer> {
        Some(Integer::from_i128(number))
    }
}
