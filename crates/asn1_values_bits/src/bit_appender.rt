//! Appends bits to a buffer within room reserved before.
ghost use Rattle.std.specs.Prelude.{◌≡◌, ◌++◌, ◌+◌, ◌-◌, ◌≤◌, IfOk};
ghost use Rattle.std.specs.Borrow.{sem, RestsIfErr};
ghost use Rattle.asn1_model.specs.Numbers.{binary};
ghost use Rattle.asn1_values_bits.specs.Appending.{appended, room_of, lender_of};
ghost use Rattle.asn1_values_bits.specs.contracts.bit_buffer.BitBuffer.{the_row};

use crate::bit_buffer::BitBuffer;
use std::alloc::AllocError;

/// Appends bits to a buffer within room reserved before, so that no further allocation is needed. Dropping it removes
/// the room that is left.
pub struct BitAppender<'a> {
    buffer: &'a mut BitBuffer,
    next: usize,
}

impl BitBuffer {
    /// Reserves room for `room` bits, which an appender fills.
    ///
    /// # Errors
    ///
    /// Out of memory; nothing is changed then.
    pub fn appender(&mut self, room: usize) -> Result<BitAppender<'_>, AllocError>
        ensures* refused { sem 𝓛 (RestsIfErr the_row self.entry lender_of result (λ last. last ≡ self.old)) }
        ensures same_reference { IfOk result (λ appender. lender_of appender ≡ self.entry.ghost_name) }
        ensures bits { IfOk result (λ appender. appended appender ≡ self.old) }
        ensures room { IfOk result (λ appender. room_of appender ≡ room) }
    {
        let next = self.len();
        let Some(len) = next.checked_add(room) else {
            return Err(AllocError);
        };
        self.resize(len, false)?;
        Ok(BitAppender { buffer: self, next })
    }
}

impl BitAppender<'_> {
    /// Appends the low `width` bits of a number, the most significant first.
    pub fn push(&mut self, value: u128, width: u32)
        requires narrow { width ≤ 128 }
        requires room { width ≤ room_of self.old }
        ensures same_reference { lender_of self.new ≡ lender_of self.old }
        ensures bits { appended self.new ≡ appended self.old ++ binary width value }
        ensures room { room_of self.new + width ≡ room_of self.old }
    {
        if width == 0 {
            return;
        }
        let len = self.buffer.len();
        prove!(self.next < len);
        self.buffer.put_bits(self.next, value, width);
        self.next += width as usize;
    }
}

impl Drop for BitAppender<'_> {
    fn drop(self)
        ensures { self.exit.0.now ≡ appended self.entry }
    {
        let BitAppender { buffer, next } = self;
        buffer.truncate(next);
    }
}
