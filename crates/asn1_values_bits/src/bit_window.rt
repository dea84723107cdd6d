//! The first bits of a view as one number.
ghost use Rattle.std.specs.Prelude.{◌≡◌, ◌+◌, ◌^◌, ◌<◌, ◌≤◌, length, take, drop, min};

use crate::BitStr;

/// Up to 128 bits in one number, from the most significant. The digits after them are ignored.
#[derive(Clone, Copy)]
pub(crate) struct BitWindow {
    number: u128,
    width: u32,
    ghost narrow: { width ≤ 128 },
}

impl BitWindow {
    ghost use Rattle.asn1_model.specs.Numbers.{binary};
    ghost use Rattle.asn1_values_bits.specs.BitStr.{bits_of, offset_of};
    ghost use Rattle.asn1_values_bits.specs.BitWindow.{shown};

    /// The first bits of a view, up to the end of an octet. It is empty if the view is.
    #[inline(never)]
    pub(crate) fn new(bits: BitStr<'_>) -> Self
        ensures front { shown result ≡ take result.width (bits_of bits.entry) }
        ensures within { result.width ≤ length (bits_of bits.entry) }
        ensures some { 0 < length (bits_of bits.entry) → 0 < result.width }
        ensures many { 128 ≤ length (bits_of bits.entry) → result.width + offset_of bits.entry ≡ 128 }
        ensures few { result.width < 57 → result.width ≡ length (bits_of bits.entry) }
    {
        let (number, width) = bits.first_octets();
        BitWindow { number, width }
    }

    /// How many bits there are.
    #[inline(always)]
    pub(crate) fn width(&self) -> u32
        ensures { result ≡ self.now.width }
    {
        self.width
    }

    /// The number whose binary digits are the first `width` bits, at most 64.
    #[inline(always)]
    pub(crate) fn first_bits(&self, width: u32) -> u64
        requires narrow { width ≤ 64 }
        requires within { width ≤ self.now.width }
        ensures digits { binary width result ≡ take width (shown self.now) }
        ensures fits { result < 2 ^ width }
    {
        if width == 0 {
            return 0;
        }
        let high = (self.number >> 64) as u64;
        high >> (64 - width)
    }

    /// The number whose binary digits are the first `width` bits.
    #[inline(always)]
    pub(crate) fn first_u128(&self, width: u32) -> u128
        requires within { width ≤ self.now.width }
        ensures digits { binary width result ≡ take width (shown self.now) }
        ensures fits { result < 2 ^ width }
    {
        if width <= 64 {
            return self.first_bits(width) as u128;
        }
        self.number >> (128 - width)
    }

    /// The first `count` bits, or all if there are fewer.
    #[inline(always)]
    pub(crate) fn front(&self, count: usize) -> Self
        ensures front { shown result ≡ take result.width (shown self.now) }
        ensures width { result.width ≡ min count self.now.width }
    {
        let width = count.min(self.width as usize) as u32;
        BitWindow {
            number: self.number,
            width,
        }
    }

    /// Takes off the first `count` bits.
    #[inline(always)]
    pub(crate) fn pass(&mut self, count: u32)
        requires { count < self.old.width }
        ensures behind { shown self.new ≡ drop count (shown self.old) }
        ensures fewer { self.new.width + count ≡ self.old.width }
    {
        self.number <<= count;
        self.width -= count;
    }
}
