//! Readers and writers of octets.
ghost use Rattle.std.specs.Prelude.{◌≡◌, ◌+◌, ◌<◌, ◌≤◌, ℕ, List, Option, IfOk, IsErr, OnErr, OnOk, MatchResult, length};
ghost use Rattle.std.specs.Borrow.{GName};
ghost use Rattle.std.specs.Io.KnownBytes.{Appends, Keeps, ReadConsumes};
ghost use Rattle.asn1_relay_core.specs.Ends.{BeginsToAppend, failures_after};

use thiserror::Error;

/// A reader could not return any octets.
#[derive(Clone, Copy, Debug, PartialEq, Eq, Error)]
#[error("read failed")]
pub struct ReadFailed;

/// A writer could not accept all octets, or could not flush them.
#[derive(Clone, Copy, Debug, PartialEq, Eq, Error)]
#[error("write failed")]
pub struct WriteFailed;

/// A reader with two bounds: the number of its failed calls, and the number of octets that it may still return.
pub trait Source {
    /// How many of its calls have failed.
    ghost failures: { Self → ℕ };

    /// How many octets it may still return, fewer than 2^64.
    ghost budget: { Self → ℕ };

    /// The octets that it will still return, if they are known.
    ghost coming: { Self → Option (List ℕ) };

    /// The borrow through which it reads, if there is one.
    ghost lender: { Self → Option GName };

    /// Fills a prefix of `room`, and returns how many octets it has filled. If `room` is not empty, 0 means the end of
    /// the input.
    ///
    /// # Errors
    ///
    /// Fails if it could not return any octets. The reader is then unchanged, except that it has counted the call. Each
    /// call fails once no octets may be returned any more.
    fn read(&mut self, room: &mut [u8]) -> Result<usize, ReadFailed>
        requires { failures self.old < 18446744073709551615 }
        ensures bound { IfOk result (λ n. n ≤ length room.new) }
        ensures octets { ReadConsumes (coming self.old) (coming self.new) result room.new }
        ensures few { budget self.old < 18446744073709551616 }
        ensures spends { IfOk result (λ n. budget self.new + n ≡ budget self.old) }
        ensures keeps { OnErr result (budget self.new ≡ budget self.old) }
        ensures spent { budget self.old ≡ 0 → IsErr result }
        ensures counts { failures self.new ≡ failures_after result (failures self.old) }
        ensures stays { lender self.new ≡ lender self.old };
}

/// A writer that counts its failed calls.
pub trait Sink {
    /// How many of its calls have failed.
    ghost failures: { Self → ℕ };

    /// The octets that it has accepted, if they are known.
    ghost taken: { Self → Option (List ℕ) };

    /// The borrow through which it writes, if there is one.
    ghost lender: { Self → Option GName };

    /// Writes all octets.
    ///
    /// # Errors
    ///
    /// Fails if it could not write them all. It has then accepted a prefix of them, and counted the call.
    fn write(&mut self, octets: &[u8]) -> Result<(), WriteFailed>
        requires { failures self.old < 18446744073709551615 }
        ensures all { OnOk result (Appends (taken self.old) (taken self.new) octets.now) }
        ensures begins { OnErr result (BeginsToAppend (taken self.old) (taken self.new) octets.now) }
        ensures counts { failures self.new ≡ failures_after result (failures self.old) }
        ensures stays { lender self.new ≡ lender self.old };

    /// Flushes the octets that it has accepted.
    ///
    /// # Errors
    ///
    /// Fails if it could not. It has then counted the call.
    fn flush(&mut self) -> Result<(), WriteFailed>
        requires { failures self.old < 18446744073709551615 }
        ensures keeps { Keeps (taken self.old) (taken self.new) }
        ensures counts { failures self.new ≡ failures_after result (failures self.old) }
        ensures stays { lender self.new ≡ lender self.old };
}
