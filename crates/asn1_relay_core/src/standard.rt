//! Readers and writers of the standard library.
ghost use Rattle.std.specs.Prelude.{◌≡◌, ◌≢◌, Some, IfErr, IsOk, OnOk, MatchResult, []};
ghost use Rattle.std.specs.IoError.{error_kind};
ghost use Rattle.std.specs.Io.KnownBytes.{Appends, Keeps};
ghost use Rattle.asn1_relay_core.specs.Ends.{BeginsToAppend, Gives};

use crate::ends::{ReadFailed, Sink, Source, WriteFailed};
use std::io::{self, ErrorKind, Read, Write};

/// Wraps a reader of the standard library, which may return at most a given number of octets.
#[derive(Debug, Drop)]
pub struct StdSource<'a, R> {
    reader: &'a mut R,
    budget: u64,
    failed: u64,
}

impl<'a, R: Read> StdSource<'a, R> {
    /// Wraps this reader, which may return at most `budget` octets.
    pub fn new(reader: &'a mut R, budget: u64) -> StdSource<'a, R>
        ensures failures { ⟦<StdSource<'a, R> as Source>⟧.failures result ≡ 0 }
        ensures budget { ⟦<StdSource<'a, R> as Source>⟧.budget result ≡ budget }
        ensures coming { ⟦<StdSource<'a, R> as Source>⟧.coming result ≡ R.remaining reader.old }
        ensures lender { ⟦<StdSource<'a, R> as Source>⟧.lender result ≡ Some reader.entry.ghost_name }
    {
        StdSource {
            reader,
            budget,
            failed: 0,
        }
    }
}

impl<'a, R: Read> Source for StdSource<'a, R> {
    ghost failures = { λ s. s.failed };

    ghost budget = { λ s. s.budget };

    ghost coming = { λ s. R.remaining s.reader.now };

    ghost lender = { λ s. Some s.reader.ghost_name };

    fn read(&mut self, room: &mut [u8]) -> Result<usize, ReadFailed> {
        if self.budget == 0 {
            self.failed += 1;
            return Err(ReadFailed);
        }
        // It asks for no more octets than it may return, so that none is lost.
        let most = room.len().min(self.budget as usize);
        match read_some(self.reader, &mut room[..most]) {
            Ok(count) => {
                self.budget -= count as u64;
                Ok(count)
            }
            Err(_) => {
                self.failed += 1;
                Err(ReadFailed)
            }
        }
    }
}

/// Reads once, and again after an interruption. Returns the number of octets read.
///
/// # Errors
///
/// Fails if the reader fails. It has then returned no octets.
fn read_some<R: Read>(reader: &mut R, room: &mut [u8]) -> io::Result<usize>
    ensures gives { MatchResult result (Gives (R.remaining reader.old) (R.remaining reader.new) room.new)
        (λ _. Keeps (R.remaining reader.old) (R.remaining reader.new)) }
    ensures again { IfErr result (λ e. error_kind e ≢ ErrorKind.Interrupted) }
{
    // 2^64 - 1 interruptions count as a failure.
    for _ in 0..u64::MAX {
        match reader.read(room) {
            Ok(count) => return Ok(count),
            Err(error) if error.kind() == ErrorKind::Interrupted => {}
            Err(error) => return Err(error),
        }
    }
    Err(io::Error::from(ErrorKind::TimedOut))
}

/// Wraps a writer of the standard library.
#[derive(Debug, Drop)]
pub struct StdSink<'a, W> {
    writer: &'a mut W,
    failed: u64,
}

impl<'a, W: Write> StdSink<'a, W> {
    /// Wraps this writer.
    pub fn new(writer: &'a mut W) -> StdSink<'a, W>
        ensures failures { ⟦<StdSink<'a, W> as Sink>⟧.failures result ≡ 0 }
        ensures taken { ⟦<StdSink<'a, W> as Sink>⟧.taken result ≡ W.contents writer.old }
        ensures lender { ⟦<StdSink<'a, W> as Sink>⟧.lender result ≡ Some writer.entry.ghost_name }
    {
        StdSink { writer, failed: 0 }
    }
}

impl<'a, W: Write> Sink for StdSink<'a, W> {
    ghost failures = { λ s. s.failed };

    ghost taken = { λ s. W.contents s.writer.now };

    ghost lender = { λ s. Some s.writer.ghost_name };

    fn write(&mut self, octets: &[u8]) -> Result<(), WriteFailed> {
        match write_octets(octets, self.writer) {
            Ok(()) => Ok(()),
            Err(_) => {
                self.failed += 1;
                Err(WriteFailed)
            }
        }
    }

    fn flush(&mut self) -> Result<(), WriteFailed> {
        match self.writer.flush() {
            Ok(()) => Ok(()),
            Err(_) => {
                self.failed += 1;
                Err(WriteFailed)
            }
        }
    }
}

/// Writes all octets. It tries again after an interruption.
///
/// # Errors
///
/// Fails if the writer fails, or accepts none of the remaining octets. A prefix of the octets has then been written.
pub fn write_octets<W: Write>(octets: &[u8], writer: &mut W) -> io::Result<()>
    ensures all { OnOk result (Appends (W.contents writer.old) (W.contents writer.new) octets.now) }
    ensures begins { BeginsToAppend (W.contents writer.old) (W.contents writer.new) octets.now }
    ensures nothing { octets.now ≡ [] → IsOk result }
    ensures again { IfErr result (λ e. error_kind e ≢ ErrorKind.Interrupted) }
{
    let mut count = 0;
    // Each turn writes at least one octet, of which there are fewer than 2^64, or is an interruption; 2^64 - 1 turns
    // count as a failure.
    for _ in 0..u64::MAX {
        if count == octets.len() {
            return Ok(());
        }
        match writer.write(&octets[count..]) {
            Ok(0) => return Err(io::Error::from(ErrorKind::WriteZero)),
            Ok(more) => count += more,
            Err(error) if error.kind() == ErrorKind::Interrupted => {}
            Err(error) => return Err(error),
        }
    }
    Err(io::Error::from(ErrorKind::TimedOut))
}
