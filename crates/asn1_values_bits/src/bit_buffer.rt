//! A growable list of bits, kept in whole octets; zero bits pad the last octet.
ghost use Rattle.std.specs.Prelude.{◌≡◌, ℕ, ◌+◌, ◌-◌, ◌*◌, ◌/◌, ◌%◌, ◌^◌, ◌<◌, ◌≤◌, Bool, List, [], ◌∷◌, ◌++◌};
ghost use Rattle.std.specs.Prelude.{length, set, take, drop, replicate, false, IsTrue, ◌↔◌, IfOk, OnOk, OnErr};
ghost use Rattle.std.specs.Prelude.{vec_len, slice_set};
ghost use Rattle.asn1_model.specs.Numbers.{binary, missing, octet_bits, packed};
ghost use Rattle.asn1_values_bits.specs.Octets.{padded};

use crate::BitStr;
use std::alloc::{AllocError, Global};
use std::default::MadeWith;
use std::marker::Model;

// 2^64.
const WORD: u128 = 0x1_0000_0000_0000_0000;

/// A growable list of bits. Between calls they are kept in octets, the first bit as the most significant, and the
/// unused bits of the last octet are zero.
#[derive(Drop)]
pub struct BitBuffer {
    octets: Vec<u8>,
    len: usize,
}

impl Model for BitBuffer {
    ghost use Rattle.std.specs.Prelude.{Bool, List, take};
    ghost use Rattle.asn1_model.specs.Numbers.{octet_bits};
    ghost use Rattle.asn1_values_bits.specs.Kept.{IsKept};

    ghost Value = { List Bool };

    ghost view = { λ b. take b.len (octet_bits b.octets.items) };

    ghost invariant = { λ b. IsKept b.len b.octets.items };
}

impl BitBuffer {
    ghost use Rattle.asn1_values_bits.specs.BitStr.{bits_of, offset_of};

    /// No bits. Allocates nothing; later bits are kept in memory from `alloc`.
    pub fn new(alloc: Global) -> Self
        ensures { result ≡ [] }
    {
        BitBuffer {
            octets: Vec::new(alloc),
            len: 0,
        }
    }

    /// How many bits there are.
    pub fn len(&self) -> usize
        ensures { result ≡ length self.now }
    {
        self.len
    }

    /// Whether there are no bits.
    pub fn is_empty(&self) -> bool
        ensures { IsTrue result ↔ (self.now ≡ []) }
    {
        self.len == 0
    }

    /// The bits in octets, the first bit as the most significant, padded with zero bits.
    pub fn as_bytes(&self) -> &[u8]
        ensures octets { result.now ≡ packed (padded self.now) }
        ensures bits { octet_bits result.now ≡ padded self.now }
    {
        let octets = self.octets.as_slice();
        octets
    }

    /// The octets of `as_bytes`, as a vector.
    pub fn into_vec(self) -> Vec<u8>
        ensures octets { result.items ≡ packed (padded self) }
        ensures bits { octet_bits result.items ≡ padded self }
    {
        let BitBuffer { octets, len: _ } = self;
        octets
    }

    /// All bits of the octets. The vector's allocator is kept.
    pub fn from_vec(octets: Vec<u8>) -> Self
        requires { vec_len octets < 2 ^ 61 }
        ensures { result ≡ octet_bits octets.items }
    {
        let len = octets.len() * 8;
        BitBuffer { octets, len }
    }

    /// Removes all bits and keeps the memory.
    pub fn clear(&mut self)
        ensures { self.new ≡ [] }
    {
        self.octets.clear();
        self.len = 0;
    }

    /// Reserves room for `additional` more octets.
    ///
    /// # Errors
    ///
    /// Out of memory; nothing is changed then.
    pub fn reserve_bytes(&mut self, additional: usize) -> Result<(), AllocError>
        ensures { self.new ≡ self.old }
    {
        self.octets.reserve(additional)?;
        Ok(())
    }

    // Appends up to eight bits: the low bits of a number, the most significant first.
    #[inline(always)]
    fn push_few(&mut self, bits: u16, count: u32) -> Result<(), AllocError>
        requires few { count ≤ 8 }
        requires fits { bits < 2 ^ count }
        ensures ok { OnOk result (self.new ≡ self.old ++ binary count bits) }
        ensures err { OnErr result (self.new ≡ self.old) }
    {
        let Some(len) = self.len.checked_add(count as usize) else {
            return Err(AllocError);
        };
        let free = free_bits(self.len);
        let wide = bits << (8 + free - count);
        let octets = self.octets.len();
        if count > free {
            self.octets.push((wide % 256) as u8)?;
        }
        if free > 0 {
            self.octets[octets - 1] |= (wide / 256) as u8;
        }
        self.len = len;
        Ok(())
    }

    /// Keeps only the first `len` bits, or all if there are fewer. Allocates nothing.
    pub fn truncate(&mut self, len: usize)
        ensures { self.new ≡ take len self.old }
    {
        if len >= self.len {
            return;
        }
        let whole = len / 8;
        if len % 8 == 0 {
            self.octets.truncate(whole);
            self.len = len;
            return;
        }
        let free = free_bits(len);
        self.octets.truncate(whole + 1);
        self.octets[whole] = self.octets[whole] >> free << free;
        self.len = len;
    }

    /// Appends one bit.
    ///
    /// # Errors
    ///
    /// Out of memory; nothing is changed then.
    #[inline(always)]
    pub fn push(&mut self, bit: bool) -> Result<(), AllocError>
        ensures ok { OnOk result (self.new ≡ self.old ++ bit ∷ []) }
        ensures err { OnErr result (self.new ≡ self.old) }
    {
        self.push_few(if bit { 1 } else { 0 }, 1)?;
        Ok(())
    }

    /// Appends the low `width` bits of a number, the most significant first.
    ///
    /// # Errors
    ///
    /// Out of memory; nothing is changed then.
    #[inline(always)]
    pub fn push_bits(&mut self, value: u128, width: u32) -> Result<(), AllocError>
        requires { width ≤ 128 }
        ensures ok { OnOk result (self.new ≡ self.old ++ binary width value) }
        ensures err { OnErr result (self.new ≡ self.old) }
    {
        if width <= 64 {
            return self.push_word((value % WORD) as u64, width);
        }
        self.push_many(value, width)
    }

    // Appends the low `width` bits of a number, up to 64.
    #[inline(always)]
    fn push_word(&mut self, value: u64, width: u32) -> Result<(), AllocError>
        requires { width ≤ 64 }
        ensures ok { OnOk result (self.new ≡ self.old ++ binary width value) }
        ensures err { OnErr result (self.new ≡ self.old) }
    {
        if width <= 8 {
            return self.push_few((value & ((1 << width) - 1)) as u16, width);
        }
        self.push_across(value, width)
    }

    // Appends the low `width` bits of a number: first those that fill the last octet, then the others in new octets.
    fn push_across(&mut self, value: u64, width: u32) -> Result<(), AllocError>
        requires some { 8 < width }
        requires narrow { width ≤ 64 }
        ensures ok { OnOk result (self.new ≡ self.old ++ binary width value) }
        ensures err { OnErr result (self.new ≡ self.old) }
    {
        let Some(len) = self.len.checked_add(width as usize) else {
            return Err(AllocError);
        };
        let free = free_bits(self.len);
        let left = width - free;
        let octets = (value << (64 - left)).to_be_bytes();
        let count = (left as usize + 7) / 8;
        let before = self.octets.len();
        self.octets.extend_from_slice(&octets[..count])?;
        if free > 0 {
            self.octets[before - 1] |= ((value >> left) & ((1 << free) - 1)) as u8;
        }
        self.len = len;
        Ok(())
    }

    // Appends the low `width` bits of a number: first those that fill the last octet.
    fn push_many(&mut self, value: u128, width: u32) -> Result<(), AllocError>
        requires { width ≤ 128 }
        ensures ok { OnOk result (self.new ≡ self.old ++ binary width value) }
        ensures err { OnErr result (self.new ≡ self.old) }
    {
        let before = self.len();
        let left = self.fill_octet(value, width)?;
        if left == 0 {
            return Ok(());
        }
        let pushed = self.push_whole(value, left);
        self.cut_if_refused(before, pushed)
    }

    // Returns `added`, and if that is an error, keeps only the first `len` bits.
    fn cut_if_refused(
        &mut self,
        len: usize,
        added: Result<(), AllocError>,
    ) -> Result<(), AllocError>
        ensures same { result ≡ added }
        ensures ok { OnOk result (self.new ≡ self.old) }
        ensures err { OnErr result (self.new ≡ take len self.old) }
    {
        if added.is_err() {
            self.truncate(len);
        }
        added
    }

    // Fills the last octet with the first of the low `width` bits of a number, and returns how many are left.
    fn fill_octet(&mut self, value: u128, width: u32) -> Result<u32, AllocError>
        requires { width ≤ 128 }
        ensures fewer { IfOk result (λ left. left ≤ width) }
        ensures bits { IfOk result (λ left. self.new ++ binary left value ≡ self.old ++ binary width value) }
        ensures whole { IfOk result (λ left. 0 < left → length self.new % 8 ≡ 0) }
        ensures err { OnErr result (self.new ≡ self.old) }
    {
        let few = width.min(free_bits(self.len()));
        if few == 0 {
            return Ok(width);
        }
        let bits = ((value >> (width - few)) & ((1 << few) - 1)) as u16;
        self.push_few(bits, few)?;
        Ok(width - few)
    }

    // Appends the low `width` bits of a number after whole octets.
    fn push_whole(&mut self, value: u128, width: u32) -> Result<(), AllocError>
        requires narrow { width ≤ 128 }
        requires some { 0 < width }
        requires whole { length self.old % 8 ≡ 0 }
        ensures ok { OnOk result (self.new ≡ self.old ++ binary width value) }
        ensures err { OnErr result (self.new ≡ self.old) }
    {
        let Some(len) = self.len.checked_add(width as usize) else {
            return Err(AllocError);
        };
        let octets = (value << (128 - width)).to_be_bytes();
        let count = (width as usize + 7) / 8;
        self.octets.extend_from_slice(&octets[..count])?;
        self.len = len;
        Ok(())
    }

    /// Appends all bits of the octets.
    ///
    /// # Errors
    ///
    /// Out of memory; nothing is changed then.
    pub fn extend_from_bytes(&mut self, bytes: &[u8]) -> Result<(), AllocError>
        ensures ok { OnOk result (self.new ≡ self.old ++ octet_bits bytes.now) }
        ensures err { OnErr result (self.new ≡ self.old) }
    {
        if self.len % 8 == 0 {
            self.push_octets(bytes)?;
            return Ok(());
        }
        let Some(bits) = bytes.len().checked_mul(8) else {
            return Err(AllocError);
        };
        self.extend_shifted(BitStr::front_of(bytes, bits))?;
        Ok(())
    }

    // Appends octets after whole octets.
    fn push_octets(&mut self, octets: &[u8]) -> Result<(), AllocError>
        requires { length self.old % 8 ≡ 0 }
        ensures ok { OnOk result (self.new ≡ self.old ++ octet_bits octets.now) }
        ensures err { OnErr result (self.new ≡ self.old) }
    {
        let Some(bits) = octets.len().checked_mul(8) else {
            return Err(AllocError);
        };
        let Some(len) = self.len.checked_add(bits) else {
            return Err(AllocError);
        };
        self.octets.extend_from_slice(octets)?;
        self.len = len;
        Ok(())
    }

    // Appends the bits of a view: as one number if there are few, else those that fill the last octet first.
    fn extend_shifted(&mut self, bits: BitStr<'_>) -> Result<(), AllocError>
        ensures ok { OnOk result (self.new ≡ self.old ++ bits_of bits.entry) }
        ensures err { OnErr result (self.new ≡ self.old) }
    {
        if bits.len() <= 128 {
            return self.push_view(bits);
        }
        let before = self.len();
        let few = bits.len().min(free_bits(before) as usize);
        let (first, rest) = bits.split_at(few);
        self.push_view(first)?;
        let extended = self.extend_whole(rest);
        self.cut_if_refused(before, extended)
    }

    // Appends the bits of a view after whole octets. After an error, some of them may have been appended.
    fn extend_whole(&mut self, bits: BitStr<'_>) -> Result<(), AllocError>
        requires { 0 < length (bits_of bits) → length self.old % 8 ≡ 0 }
        ensures ok { OnOk result (self.new ≡ self.old ++ bits_of bits.entry) }
        ensures err { OnErr result (take (length self.old) self.new ≡ self.old) }
    {
        if bits.len() < 8 {
            self.push_view(bits)?;
            return Ok(());
        }
        let count = bits.len() / 8;
        self.push_shifted(bits, count)?;
        let (_, rest) = bits.split_at(count * 8);
        self.push_view(rest)?;
        Ok(())
    }

    // Appends the bits of a view, at most 128, as one number.
    #[inline(always)]
    fn push_view(&mut self, bits: BitStr<'_>) -> Result<(), AllocError>
        requires { length (bits_of bits) ≤ 128 }
        ensures ok { OnOk result (self.new ≡ self.old ++ bits_of bits.entry) }
        ensures err { OnErr result (self.new ≡ self.old) }
    {
        let width = bits.len() as u32;
        self.push_bits(bits.first_number(width), width)
    }

    // Appends the first `count` octets of a view after whole octets.
    fn push_shifted(&mut self, bits: BitStr<'_>, count: usize) -> Result<(), AllocError>
        requires whole { length self.old % 8 ≡ 0 }
        requires within { count * 8 ≤ length (bits_of bits) }
        ensures ok { OnOk result (self.new ≡ self.old ++ take (count * 8) (bits_of bits.entry)) }
        ensures err { OnErr result (self.new ≡ self.old) }
    {
        let Some(len) = self.len.checked_add(count * 8) else {
            return Err(AllocError);
        };
        let start = self.octets.len();
        self.octets.resize(start + count, 0)?;
        let octets = self.octets.as_mut_slice();
        bits.copy_to(&mut octets[start..]);
        self.len = len;
        Ok(())
    }

    /// A view of the bits.
    pub fn as_bitslice(&self) -> BitStr<'_>
        ensures bits { bits_of result ≡ self.now }
        ensures offset { offset_of result ≡ 0 }
    {
        BitStr::front_of(self.octets.as_slice(), self.len)
    }

    /// Appends the bits of a view.
    ///
    /// # Errors
    ///
    /// Out of memory; nothing is changed then.
    pub fn extend_from_bitslice(&mut self, bits: BitStr<'_>) -> Result<(), AllocError>
        ensures ok { OnOk result (self.new ≡ self.old ++ bits_of bits.entry) }
        ensures err { OnErr result (self.new ≡ self.old) }
    {
        if self.len % 8 > 0 {
            return self.extend_shifted(bits);
        }
        let before = self.len();
        let (octets, rest) = bits.whole_octets();
        self.extend_from_bytes(octets)?;
        if rest.is_empty() {
            return Ok(());
        }
        let extended = self.extend_shifted(rest);
        self.cut_if_refused(before, extended)
    }

    /// Appends the bits of another buffer.
    ///
    /// # Errors
    ///
    /// Out of memory; nothing is changed then.
    pub fn extend_from_buffer(&mut self, other: &BitBuffer) -> Result<(), AllocError>
        ensures ok { OnOk result (self.new ≡ self.old ++ other.now) }
        ensures err { OnErr result (self.new ≡ self.old) }
    {
        self.extend_from_bitslice(other.as_bitslice())?;
        Ok(())
    }

    /// Sets the bit at position `index`.
    pub fn set(&mut self, index: usize, bit: bool)
        requires { index < length self.old }
        ensures { self.new ≡ slice_set self.old index bit }
    {
        let octet = self.octets[index / 8];
        self.octets[index / 8] = with_bit(octet, (index % 8) as u32, bit);
    }

    // Overwrites bits with the low `width` bits of a number.
    pub(crate) fn put_bits(&mut self, at: usize, value: u128, width: u32)
        requires narrow { width ≤ 128 }
        requires within { at + width ≤ length self.old }
        ensures { self.new ≡ take at self.old ++ (binary width value ++ drop (at + width) self.old) }
    {
        if width <= 64 {
            self.put_word(at, (value % WORD) as u64, width);
            return;
        }
        let len = self.len();
        prove!(at <= len);
        let high = width - 64;
        self.put_word(at, (value / WORD) as u64, high);
        self.put_word(at + high as usize, (value % WORD) as u64, 64);
    }

    // Overwrites bits with the low `width` bits of a number, up to 64.
    fn put_word(&mut self, at: usize, value: u64, width: u32)
        requires narrow { width ≤ 64 }
        requires within { at + width ≤ length self.old }
        ensures { self.new ≡ take at self.old ++ (binary width value ++ drop (at + width) self.old) }
    {
        let len = self.len();
        prove!(at <= len);
        let mut place = at;
        let mut left = width;
        while left > 0 {
            let few = left.min(8 - (place % 8) as u32);
            left -= few;
            self.put_few(place, ((value >> left) & ((1 << few) - 1)) as u16, few);
            place += few as usize;
        }
    }

    // Overwrites up to eight bits of one octet.
    fn put_few(&mut self, place: usize, bits: u16, count: u32)
        requires octet { place % 8 + count ≤ 8 }
        requires within { place + count ≤ length self.old }
        requires fits { bits < 2 ^ count }
        requires some { 0 < count }
        ensures { self.new ≡ take place self.old ++ (binary count bits ++ drop (place + count) self.old) }
    {
        let past = 8 - (place % 8) as u32 - count;
        let octet = self.octets[place / 8] as u16;
        let high = octet >> (count + past);
        let low = octet & ((1 << past) - 1);
        self.octets[place / 8] = ((high << count | bits) << past | low) as u8;
    }

    /// Truncates to the first `len` bits, or extends to `len` bits with copies of `bit`.
    ///
    /// # Errors
    ///
    /// Out of memory; nothing is changed then.
    pub fn resize(&mut self, len: usize, bit: bool) -> Result<(), AllocError>
        ensures ok { OnOk result (self.new ≡ take len self.old ++ replicate (len - length self.old) bit) }
        ensures err { OnErr result (self.new ≡ self.old) }
    {
        let before = self.len();
        if len <= before {
            self.truncate(len);
            return Ok(());
        }
        let value = if bit { u128::MAX } else { 0 };
        let mut left = len - before;
        while left > 0 {
            let few = left.min(128);
            let pushed = self.push_bits(value, few as u32);
            self.cut_if_refused(before, pushed)?;
            left -= few;
        }
        Ok(())
    }
}

/// Clones into memory of the same allocator.
impl Clone for BitBuffer {
    ghost is_clone = { λ buffer copy. copy ≡ buffer };

    fn clone(&self) -> Result<Self, AllocError> {
        let mut copy = BitBuffer::new(*self.octets.allocator());
        copy.extend_from_buffer(self)?;
        Ok(copy)
    }
}

/// No bits. Takes the place of `Default`, which has no allocator.
impl MadeWith<Global> for BitBuffer {
    ghost is_made_with = { λ buffer. buffer ≡ [] };

    fn made_with(alloc: Global) -> Self {
        BitBuffer::new(alloc)
    }
}

/// How many bits of the last octet are unused after `len` bits: the padding up to whole octets.
#[inline(always)]
pub fn free_bits(len: usize) -> u32
    ensures { result ≡ missing len }
{
    ((8 - len % 8) % 8) as u32
}

// An octet with one bit changed; index 0 is the most significant bit.
fn with_bit(octet: u8, index: u32, bit: bool) -> u8
    requires { index < 8 }
    ensures { binary 8 result ≡ slice_set (binary 8 octet) index bit }
{
    let mask = 1 << (7 - index);
    if bit { octet | mask } else { octet & !mask }
}
