//! Codes of one width, read several at a time.
ghost use Rattle.std.specs.Prelude.{◌≡◌, ◌*◌, ◌<◌, ◌≤◌, ◌^◌, ℕ, length, take, drop};
ghost use Rattle.asn1_model.specs.Numbers.{binary};
ghost use Rattle.asn1_values_bits.specs.BitStr.{bits_of};
ghost use Rattle.per_codec_reading.specs.Unread.{code_bits};

use asn1_values_bits::BitStr;

/// Unread codes: the next ones in a number, the others after them.
#[derive(Drop)]
pub struct UnreadCodes<'a> {
    pub number: u64,
    pub due: u32,
    pub rest: BitStr<'a>,
}

impl<'a> UnreadCodes<'a> {
    /// The codes in these bits.
    #[inline(always)]
    pub fn new(codes: BitStr<'a>) -> Self
        ensures codes { (width : ℕ) → code_bits width result ≡ bits_of codes.entry }
        ensures few { result.due ≤ 8 }
    {
        UnreadCodes {
            number: 0,
            due: 0,
            rest: codes,
        }
    }

    /// The same codes, `left` of them, with the next one in the number.
    #[inline(always)]
    fn filled(self, width: u32, left: usize) -> Self
        requires narrow { width ≤ 8 }
        requires some { 0 < left }
        requires few { self.due ≤ 8 }
        requires enough { left * width ≤ length (code_bits width self) }
        ensures same { code_bits width result ≡ code_bits width self.entry }
        ensures due { 0 < result.due }
        ensures few { result.due ≤ 8 }
    {
        if self.due > 0 {
            return self;
        }
        let due = left.min(8) as u32;
        let count = due * width;
        UnreadCodes {
            number: self.rest.first_number(count) as u64,
            due,
            rest: self.rest.split_at(count as usize).1,
        }
    }

    /// The next code, which is in the number, and the codes after it.
    #[inline(always)]
    fn split_code(self, width: u32) -> (u32, Self)
        requires narrow { width ≤ 8 }
        requires due { 0 < self.due }
        requires few { self.due ≤ 8 }
        ensures digits { binary width result.0 ≡ take width (code_bits width self.entry) }
        ensures fits { result.0 < 2 ^ width }
        ensures rest { code_bits width result.1 ≡ drop width (code_bits width self.entry) }
        ensures few { result.1.due ≤ 8 }
    {
        let due = self.due - 1;
        let code = self.number >> (due * width) & ((1 << width) - 1);
        let others = UnreadCodes {
            number: self.number,
            due,
            rest: self.rest,
        };
        (code as u32, others)
    }

    /// The next code, of `width` bits, and those after it. `left` codes are unread.
    #[inline(always)]
    pub fn next_code(self, width: u32, left: usize) -> (u32, Self)
        requires narrow { width ≤ 8 }
        requires some { 0 < left }
        requires few { self.due ≤ 8 }
        requires enough { left * width ≤ length (code_bits width self) }
        ensures digits { binary width result.0 ≡ take width (code_bits width self.entry) }
        ensures fits { result.0 < 2 ^ width }
        ensures rest { code_bits width result.1 ≡ drop width (code_bits width self.entry) }
        ensures few { result.1.due ≤ 8 }
    {
        self.filled(width, left).split_code(width)
    }
}
