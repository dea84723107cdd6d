//! The native integer types.
ghost use Rattle.std.specs.Prelude.{◌≡◌, ℕ, ◌+◌, ◌-◌, ◌^◌, ℤ, pos, ◌+ℤ◌, Bool, true, false, Some, is_some, IfSome};
ghost use Rattle.std.specs.Prelude.{◌<◌, ◌≤◌};
ghost use Rattle.std.specs.Fmt.{signed_decimal};
ghost use Rattle.std.specs.Ordering.{int_cmp};
ghost use Rattle.std.proofs.Common.{arith, lit<, lit≤, refl};
ghost use Rattle.asn1_model.specs.Numbers.{is_within};
ghost use Rattle.asn1_values_natives.specs.Octets.{signed_by};
ghost use Rattle.asn1_values_natives.specs.Ranges.{greatest_of, range_of, wrapped};
ghost use Rattle.std.proofs.lemmas.Bool.Decides.{nat_tests};

use crate::wide::Wide;
use std::fmt::{Debug, Display};

/// A native integer type: `i8` to `i128`, `isize`, `u8` to `u128` and `usize`.
pub trait NativeInteger: Copy + Debug + Default + Display + PartialOrd {
    /// The number of its bits.
    const BITS: u32;

    /// Whether it has negative numbers.
    const SIGNED: bool;

    /// The number zero.
    const ZERO: Self;

    /// The unsigned type of the same number of bits.
    type Unsigned;

    /// The signed type of the same number of bits.
    type Signed;

    // The number of its bits.
    ghost BITS: { ℕ };

    // Whether it has negative numbers.
    ghost SIGNED: { Bool };

    // The value of zero.
    ghost ZERO: { Self };

    // The integer that a value is.
    ghost number: { Self → ℤ };

    // The integer that a value of the unsigned type is.
    ghost unsigned_number: { Self.Unsigned → ℤ };

    // Its greatest number.
    ghost greatest: { ℕ };

    /// The number as a `Wide`.
    fn to_wide(self) -> Wide
        ensures value { signed_by result.negative result.magnitude ≡ number self }
        ensures held { is_within (range_of SIGNED greatest) (number self) ≡ true };

    /// The number, if the type holds it.
    fn from_wide(wide: Wide) -> Option<Self>
        ensures value { IfSome result (λ x. number x ≡ signed_by wide.negative wide.magnitude) }
        ensures fits { is_some result ≡ is_within (range_of SIGNED greatest) (signed_by wide.negative wide.magnitude) };

    /// The sum modulo 2^`BITS`.
    fn wrapping_unsigned_add(self, other: Self::Unsigned) -> Self
        ensures { number result ≡ wrapped SIGNED greatest (number self +ℤ unsigned_number other) };

    // Its numbers have at most 128 bits, not counting the sign.
    ghost bounded: { greatest < 2 ^ 128 };

    // It has at most 128 bits.
    ghost short: { BITS ≤ 128 };

    // Its greatest number is that of its bits, one of which is the sign if it is signed.
    ghost width: { greatest ≡ greatest_of SIGNED BITS };

    // Zero is zero.
    ghost nothing: { number ZERO ≡ pos 0 };

    // Values of equal numbers are equal.
    ghost injective: { (x y : Self) → number x ≡ number y → x ≡ y };

    // Its values are ordered as their numbers.
    ghost ordered: { (x y : Self) → Self.partial_cmp x y ≡ Some (int_cmp (number x) (number y)) };

    // It is printed in decimal.
    ghost printed: { (x : Self) → Self.output x ≡ Some (signed_decimal (number x)) };

    // Its default value is zero.
    ghost default_zero: { (x : Self) → Self.is_default x → number x ≡ pos 0 };
}

impl NativeInteger for u8 {
    const BITS: u32 = 8;

    const SIGNED: bool = false;

    const ZERO: u8 = 0;

    type Unsigned = u8;

    type Signed = i8;

    ghost BITS = { 8 };

    ghost SIGNED = { false };

    ghost ZERO = { 0 };

    ghost number = { pos };

    ghost unsigned_number = { pos };

    ghost greatest = { 2 ^ 8 - 1 };

    ghost bounded = { lit< tt };

    ghost short = { lit≤ tt };

    ghost width = { refl };

    ghost nothing = { refl };

    ghost injective = { λ x y e. Prim.cc };

    ghost ordered = { λ x y. Prim.grind (arith, nat_tests) };

    ghost printed = { λ x. refl };

    ghost default_zero = { λ x e. Prim.cc };

    fn to_wide(self) -> Wide {
        Wide::from_natural(self as u128, u8::MAX as u128)
    }

    fn from_wide(wide: Wide) -> Option<u8> {
        match wide.to_natural(u8::MAX as u128) {
            Some(value) => Some(value as u8),
            None => None,
        }
    }

    fn wrapping_unsigned_add(self, other: u8) -> u8 {
        self.wrapping_add(other)
    }
}

impl NativeInteger for u16 {
    const BITS: u32 = 16;

    const SIGNED: bool = false;

    const ZERO: u16 = 0;

    type Unsigned = u16;

    type Signed = i16;

    ghost BITS = { 16 };

    ghost SIGNED = { false };

    ghost ZERO = { 0 };

    ghost number = { pos };

    ghost unsigned_number = { pos };

    ghost greatest = { 2 ^ 16 - 1 };

    ghost bounded = { lit< tt };

    ghost short = { lit≤ tt };

    ghost width = { refl };

    ghost nothing = { refl };

    ghost injective = { λ x y e. Prim.cc };

    ghost ordered = { λ x y. Prim.grind (arith, nat_tests) };

    ghost printed = { λ x. refl };

    ghost default_zero = { λ x e. Prim.cc };

    fn to_wide(self) -> Wide {
        Wide::from_natural(self as u128, u16::MAX as u128)
    }

    fn from_wide(wide: Wide) -> Option<u16> {
        match wide.to_natural(u16::MAX as u128) {
            Some(value) => Some(value as u16),
            None => None,
        }
    }

    fn wrapping_unsigned_add(self, other: u16) -> u16 {
        self.wrapping_add(other)
    }
}

impl NativeInteger for u32 {
    const BITS: u32 = 32;

    const SIGNED: bool = false;

    const ZERO: u32 = 0;

    type Unsigned = u32;

    type Signed = i32;

    ghost BITS = { 32 };

    ghost SIGNED = { false };

    ghost ZERO = { 0 };

    ghost number = { pos };

    ghost unsigned_number = { pos };

    ghost greatest = { 2 ^ 32 - 1 };

    ghost bounded = { lit< tt };

    ghost short = { lit≤ tt };

    ghost width = { refl };

    ghost nothing = { refl };

    ghost injective = { λ x y e. Prim.cc };

    ghost ordered = { λ x y. Prim.grind (arith, nat_tests) };

    ghost printed = { λ x. refl };

    ghost default_zero = { λ x e. Prim.cc };

    fn to_wide(self) -> Wide {
        Wide::from_natural(self as u128, u32::MAX as u128)
    }

    fn from_wide(wide: Wide) -> Option<u32> {
        match wide.to_natural(u32::MAX as u128) {
            Some(value) => Some(value as u32),
            None => None,
        }
    }

    fn wrapping_unsigned_add(self, other: u32) -> u32 {
        self.wrapping_add(other)
    }
}

impl NativeInteger for u64 {
    const BITS: u32 = 64;

    const SIGNED: bool = false;

    const ZERO: u64 = 0;

    type Unsigned = u64;

    type Signed = i64;

    ghost BITS = { 64 };

    ghost SIGNED = { false };

    ghost ZERO = { 0 };

    ghost number = { pos };

    ghost unsigned_number = { pos };

    ghost greatest = { 2 ^ 64 - 1 };

    ghost bounded = { lit< tt };

    ghost short = { lit≤ tt };

    ghost width = { refl };

    ghost nothing = { refl };

    ghost injective = { λ x y e. Prim.cc };

    ghost ordered = { λ x y. Prim.grind (arith, nat_tests) };

    ghost printed = { λ x. refl };

    ghost default_zero = { λ x e. Prim.cc };

    fn to_wide(self) -> Wide {
        Wide::from_natural(self as u128, u64::MAX as u128)
    }

    fn from_wide(wide: Wide) -> Option<u64> {
        match wide.to_natural(u64::MAX as u128) {
            Some(value) => Some(value as u64),
            None => None,
        }
    }

    fn wrapping_unsigned_add(self, other: u64) -> u64 {
        self.wrapping_add(other)
    }
}

impl NativeInteger for u128 {
    const BITS: u32 = 128;

    const SIGNED: bool = false;

    const ZERO: u128 = 0;

    type Unsigned = u128;

    type Signed = i128;

    ghost BITS = { 128 };

    ghost SIGNED = { false };

    ghost ZERO = { 0 };

    ghost number = { pos };

    ghost unsigned_number = { pos };

    ghost greatest = { 2 ^ 128 - 1 };

    ghost bounded = { lit< tt };

    ghost short = { lit≤ tt };

    ghost width = { refl };

    ghost nothing = { refl };

    ghost injective = { λ x y e. Prim.cc };

    ghost ordered = { λ x y. Prim.grind (arith, nat_tests) };

    ghost printed = { λ x. refl };

    ghost default_zero = { λ x e. Prim.cc };

    fn to_wide(self) -> Wide {
        Wide::from_natural(self, u128::MAX)
    }

    fn from_wide(wide: Wide) -> Option<u128> {
        match wide.to_natural(u128::MAX) {
            Some(value) => Some(value),
            None => None,
        }
    }

    fn wrapping_unsigned_add(self, other: u128) -> u128 {
        self.wrapping_add(other)
    }
}

impl NativeInteger for usize {
    const BITS: u32 = 64;

    const SIGNED: bool = false;

    const ZERO: usize = 0;

    type Unsigned = usize;

    type Signed = isize;

    ghost BITS = { 64 };

    ghost SIGNED = { false };

    ghost ZERO = { 0 };

    ghost number = { pos };

    ghost unsigned_number = { pos };

    ghost greatest = { 2 ^ 64 - 1 };

    ghost bounded = { lit< tt };

    ghost short = { lit≤ tt };

    ghost width = { refl };

    ghost nothing = { refl };

    ghost injective = { λ x y e. Prim.cc };

    ghost ordered = { λ x y. Prim.grind (arith, nat_tests) };

    ghost printed = { λ x. refl };

    ghost default_zero = { λ x e. Prim.cc };

    fn to_wide(self) -> Wide {
        Wide::from_natural(self as u128, usize::MAX as u128)
    }

    fn from_wide(wide: Wide) -> Option<usize> {
        match wide.to_natural(usize::MAX as u128) {
            Some(value) => Some(value as usize),
            None => None,
        }
    }

    fn wrapping_unsigned_add(self, other: usize) -> usize {
        self.wrapping_add(other)
    }
}

impl NativeInteger for i8 {
    const BITS: u32 = 8;

    const SIGNED: bool = true;

    const ZERO: i8 = 0;

    type Unsigned = u8;

    type Signed = i8;

    ghost BITS = { 8 };

    ghost SIGNED = { true };

    ghost ZERO = { pos 0 };

    ghost number = { λ z. z };

    ghost unsigned_number = { pos };

    ghost greatest = { 2 ^ 7 - 1 };

    ghost bounded = { lit< tt };

    ghost short = { lit≤ tt };

    ghost width = { refl };

    ghost nothing = { refl };

    ghost injective = { λ x y e. e };

    ghost ordered = { λ x y. refl };

    ghost printed = { λ x. refl };

    ghost default_zero = { λ x e. e };

    fn to_wide(self) -> Wide {
        Wide::from_whole(self as i128, i8::MAX as i128)
    }

    fn from_wide(wide: Wide) -> Option<i8> {
        match wide.to_whole(i8::MAX as i128) {
            Some(value) => Some(value as i8),
            None => None,
        }
    }

    fn wrapping_unsigned_add(self, other: u8) -> i8 {
        self.wrapping_add_unsigned(other)
    }
}

impl NativeInteger for i16 {
    const BITS: u32 = 16;

    const SIGNED: bool = true;

    const ZERO: i16 = 0;

    type Unsigned = u16;

    type Signed = i16;

    ghost BITS = { 16 };

    ghost SIGNED = { true };

    ghost ZERO = { pos 0 };

    ghost number = { λ z. z };

    ghost unsigned_number = { pos };

    ghost greatest = { 2 ^ 15 - 1 };

    ghost bounded = { lit< tt };

    ghost short = { lit≤ tt };

    ghost width = { refl };

    ghost nothing = { refl };

    ghost injective = { λ x y e. e };

    ghost ordered = { λ x y. refl };

    ghost printed = { λ x. refl };

    ghost default_zero = { λ x e. e };

    fn to_wide(self) -> Wide {
        Wide::from_whole(self as i128, i16::MAX as i128)
    }

    fn from_wide(wide: Wide) -> Option<i16> {
        match wide.to_whole(i16::MAX as i128) {
            Some(value) => Some(value as i16),
            None => None,
        }
    }

    fn wrapping_unsigned_add(self, other: u16) -> i16 {
        self.wrapping_add_unsigned(other)
    }
}

impl NativeInteger for i32 {
    const BITS: u32 = 32;

    const SIGNED: bool = true;

    const ZERO: i32 = 0;

    type Unsigned = u32;

    type Signed = i32;

    ghost BITS = { 32 };

    ghost SIGNED = { true };

    ghost ZERO = { pos 0 };

    ghost number = { λ z. z };

    ghost unsigned_number = { pos };

    ghost greatest = { 2 ^ 31 - 1 };

    ghost bounded = { lit< tt };

    ghost short = { lit≤ tt };

    ghost width = { refl };

    ghost nothing = { refl };

    ghost injective = { λ x y e. e };

    ghost ordered = { λ x y. refl };

    ghost printed = { λ x. refl };

    ghost default_zero = { λ x e. e };

    fn to_wide(self) -> Wide {
        Wide::from_whole(self as i128, i32::MAX as i128)
    }

    fn from_wide(wide: Wide) -> Option<i32> {
        match wide.to_whole(i32::MAX as i128) {
            Some(value) => Some(value as i32),
            None => None,
        }
    }

    fn wrapping_unsigned_add(self, other: u32) -> i32 {
        self.wrapping_add_unsigned(other)
    }
}

impl NativeInteger for i64 {
    const BITS: u32 = 64;

    const SIGNED: bool = true;

    const ZERO: i64 = 0;

    type Unsigned = u64;

    type Signed = i64;

    ghost BITS = { 64 };

    ghost SIGNED = { true };

    ghost ZERO = { pos 0 };

    ghost number = { λ z. z };

    ghost unsigned_number = { pos };

    ghost greatest = { 2 ^ 63 - 1 };

    ghost bounded = { lit< tt };

    ghost short = { lit≤ tt };

    ghost width = { refl };

    ghost nothing = { refl };

    ghost injective = { λ x y e. e };

    ghost ordered = { λ x y. refl };

    ghost printed = { λ x. refl };

    ghost default_zero = { λ x e. e };

    fn to_wide(self) -> Wide {
        Wide::from_whole(self as i128, i64::MAX as i128)
    }

    fn from_wide(wide: Wide) -> Option<i64> {
        match wide.to_whole(i64::MAX as i128) {
            Some(value) => Some(value as i64),
            None => None,
        }
    }

    fn wrapping_unsigned_add(self, other: u64) -> i64 {
        self.wrapping_add_unsigned(other)
    }
}

impl NativeInteger for i128 {
    const BITS: u32 = 128;

    const SIGNED: bool = true;

    const ZERO: i128 = 0;

    type Unsigned = u128;

    type Signed = i128;

    ghost BITS = { 128 };

    ghost SIGNED = { true };

    ghost ZERO = { pos 0 };

    ghost number = { λ z. z };

    ghost unsigned_number = { pos };

    ghost greatest = { 2 ^ 127 - 1 };

    ghost bounded = { lit< tt };

    ghost short = { lit≤ tt };

    ghost width = { refl };

    ghost nothing = { refl };

    ghost injective = { λ x y e. e };

    ghost ordered = { λ x y. refl };

    ghost printed = { λ x. refl };

    ghost default_zero = { λ x e. e };

    fn to_wide(self) -> Wide {
        Wide::from_whole(self, i128::MAX)
    }

    fn from_wide(wide: Wide) -> Option<i128> {
        match wide.to_whole(i128::MAX) {
            Some(value) => Some(value),
            None => None,
        }
    }

    fn wrapping_unsigned_add(self, other: u128) -> i128 {
        self.wrapping_add_unsigned(other)
    }
}

impl NativeInteger for isize {
    const BITS: u32 = 64;

    const SIGNED: bool = true;

    const ZERO: isize = 0;

    type Unsigned = usize;

    type Signed = isize;

    ghost BITS = { 64 };

    ghost SIGNED = { true };

    ghost ZERO = { pos 0 };

    ghost number = { λ z. z };

    ghost unsigned_number = { pos };

    ghost greatest = { 2 ^ 63 - 1 };

    ghost bounded = { lit< tt };

    ghost short = { lit≤ tt };

    ghost width = { refl };

    ghost nothing = { refl };

    ghost injective = { λ x y e. e };

    ghost ordered = { λ x y. refl };

    ghost printed = { λ x. refl };

    ghost default_zero = { λ x e. e };

    fn to_wide(self) -> Wide {
        Wide::from_whole(self as i128, isize::MAX as i128)
    }

    fn from_wide(wide: Wide) -> Option<isize> {
        match wide.to_whole(isize::MAX as i128) {
            Some(value) => Some(value as isize),
            None => None,
        }
    }

    fn wrapping_unsigned_add(self, other: usize) -> isize {
        self.wrapping_add_unsigned(other)
    }
}
