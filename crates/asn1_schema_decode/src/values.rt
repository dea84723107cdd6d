//! The values of messages that follow one another, in octets that are appended in pieces.
ghost use Rattle.std.specs.Prelude.{◌≡◌, ◌++◌, IfOk, OnErr, OnOk, length};

use crate::Decode;
use crate::front::FrontReader;
use asn1_schema_errors::DecodeError;
use bytes::BytesMut;
use std::alloc::{AllocError, Global};
use std::marker::{Model, PhantomData};

/// Reads one value after another from the start of its unread octets. It never ends, as more octets may be appended.
#[derive(Drop)]
pub struct Iter<T, R> {
    alloc: Global,
    reader: R,
    unread: BytesMut,
    values: PhantomData<T>,
}

impl<T, R> Model for Iter<T, R> {
    ghost use Rattle.std.specs.Prelude.{ℕ, List};

    ghost Value = { List ℕ };

    ghost view = { λ i. i.unread.items };
}

impl<T: Decode, R: FrontReader<T> + Drop> Iter<T, R> {
    /// The values of the messages that follow one another in octets, read by a reader.
    ///
    /// # Errors
    ///
    /// If memory runs out.
    pub fn new(alloc: Global, reader: R, input: &[u8]) -> Result<Iter<T, R>, AllocError>
        ensures { IfOk result (λ values. values ≡ input.now) }
    {
        let unread = BytesMut::copy_from_slice(alloc, input)?;
        Ok(Iter {
            alloc,
            reader,
            unread,
            values: PhantomData,
        })
    }

    /// Appends octets after those that are unread.
    ///
    /// # Errors
    ///
    /// If memory runs out; the unread octets are then unchanged.
    pub fn append_bytes(&mut self, bytes: &[u8]) -> Result<(), AllocError>
        ensures ok { OnOk result (self.new ≡ self.old ++ bytes.now) }
        ensures err { OnErr result (self.new ≡ self.old) }
    {
        self.unread.extend_from_slice(bytes)
    }

    /// The number of unread octets.
    pub fn unread_len(&self) -> usize
        ensures { result ≡ length self.now }
    {
        self.unread.len()
    }
}

impl<T: Decode, R: FrontReader<T> + Drop> Iterator for Iter<T, R> {
    ghost use Rattle.asn1_schema_decode.specs.Steps.{ReadsNext};

    type Item = Result<T, DecodeError>;

    ghost next_gives = { λ before item after. ReadsNext R.rules T.schema T.meaning R.refuses before item after };

    fn next(&mut self) -> Option<Result<T, DecodeError>> {
        match self.reader.read_front(self.alloc, self.unread.as_slice()) {
            Ok((value, count)) => {
                self.unread.advance(count);
                Some(Ok(value))
            }
            Err(error) => Some(Err(error)),
        }
    }
}
