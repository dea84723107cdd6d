//! Readers and writers in memory, with an optional injected failure.
ghost use Rattle.std.specs.Prelude.{◌≡◌, ◌↔◌, ◌+◌, ◌++◌, ◌<◌, ◌≤◌, Some, None, IfOk, IsErr, OnErr, OnOk, []};
ghost use Rattle.std.specs.Prelude.{if◌then◌else◌, length, min, true};
ghost use Rattle.std.specs.Io.KnownBytes.{Appends, Keeps, ReadConsumes};
ghost use Rattle.asn1_relay_core.specs.Ends.{BeginsToAppend, failures_after};
ghost use Rattle.asn1_relay_core.specs.Memory.{no_lender, one_call_on};

use crate::ends::{ReadFailed, Sink, Source, WriteFailed};
use std::alloc::Global;
use std::marker::Model;

/// Reads from a vector. The call number `fail_at`, counted from 0, fails, and no other does. It may return one octet
/// more than the vector has, so that it can report the end.
#[derive(Debug, Drop)]
pub struct MemorySource {
    octets: Vec<u8>,
    given: usize,
    calls: Calls,
}

impl Model for MemorySource {
    ghost use Rattle.std.specs.Prelude.{◌≤◌, drop, length};
    ghost use Rattle.asn1_relay_core.specs.Memory.{Giving};

    ghost Value = { Giving };

    ghost view = { λ s. record {
      coming = drop s.given s.octets.items;
      fails_in = s.calls.before;
      failed =
          s.calls.failed;
    } };

    ghost invariant = { λ s. s.given ≤ length s.octets.items };
}

impl MemorySource {
    /// A reader of these octets, whose call number `fail_at` fails.
    pub fn new(octets: Vec<u8>, fail_at: Option<u64>) -> MemorySource
        ensures { result ≡ record { coming = octets.items; fails_in = fail_at; failed = 0 } }
    {
        MemorySource {
            octets,
            given: 0,
            calls: Calls::new(fail_at),
        }
    }
}

impl Source for MemorySource {
    ghost failures = { λ s. s.failed };

    ghost budget = { λ s. length s.coming + 1 };

    ghost coming = { λ s. Some s.coming };

    ghost lender = { λ _. no_lender };

    /// Fills the room with as many octets as are left. Fails only at the call that has to fail.
    fn read(&mut self, room: &mut [u8]) -> Result<usize, ReadFailed>
        requires { self.old.failed < 18446744073709551615 }
        ensures fails { IsErr result ↔ (self.old.fails_in ≡ Some 0) }
        ensures goes_on { self.new.fails_in ≡ one_call_on self.old.fails_in }
        ensures fills { IfOk result (λ n. n ≡ min (length self.old.coming) (length room.new)) }
        ensures bound { IfOk result (λ n. n ≤ length room.new) }
        ensures octets { ReadConsumes (Some self.old.coming) (Some self.new.coming) result room.new }
        ensures few { length self.old.coming + 1 < 18446744073709551616 }
        ensures spends { IfOk result (λ n. length self.new.coming + 1 + n ≡ length self.old.coming + 1) }
        ensures keeps { OnErr result (length self.new.coming + 1 ≡ length self.old.coming + 1) }
        ensures spent { length self.old.coming + 1 ≡ 0 → IsErr result }
        ensures counts { self.new.failed ≡ failures_after result self.old.failed }
        ensures stays { no_lender ≡ no_lender }
    {
        if self.calls.fails() {
            return Err(ReadFailed);
        }
        let rest = &self.octets[self.given..];
        let count = rest.len().min(room.len());
        room[..count].copy_from_slice(&rest[..count]);
        self.given += count;
        Ok(count)
    }
}

/// Writes to a vector. The call number `fail_at`, counted from 0, fails, and so does each call for which memory runs
/// out.
#[derive(Debug, Drop)]
pub struct MemorySink {
    octets: Vec<u8>,
    calls: Calls,
}

impl Model for MemorySink {
    ghost use Rattle.asn1_relay_core.specs.Memory.{Taking};

    ghost Value = { Taking };

    ghost view = { λ s. record { taken = s.octets.items; fails_in = s.calls.before; failed = s.calls.failed } };
}

impl MemorySink {
    /// A writer that has accepted nothing yet, whose call number `fail_at` fails.
    pub fn new(alloc: Global, fail_at: Option<u64>) -> MemorySink
        ensures { result ≡ record { taken = []; fails_in = fail_at; failed = 0 } }
    {
        MemorySink {
            octets: Vec::new(alloc),
            calls: Calls::new(fail_at),
        }
    }

    /// The octets that it has accepted.
    pub fn octets(&self) -> &[u8]
        ensures { result.now ≡ self.now.taken }
    {
        self.octets.as_slice()
    }
}

impl Sink for MemorySink {
    ghost failures = { λ s. s.failed };

    ghost taken = { λ s. Some s.taken };

    ghost lender = { λ _. no_lender };

    /// Accepts all octets or none. Fails at the call that has to fail, or if memory runs out.
    fn write(&mut self, octets: &[u8]) -> Result<(), WriteFailed>
        requires { self.old.failed < 18446744073709551615 }
        ensures fails { self.old.fails_in ≡ Some 0 → IsErr result }
        ensures goes_on { self.new.fails_in ≡ one_call_on self.old.fails_in }
        ensures none { OnErr result (self.new.taken ≡ self.old.taken) }
        ensures takes { OnOk result (self.new.taken ≡ self.old.taken ++ octets.now) }
        ensures all { OnOk result (Appends (Some self.old.taken) (Some self.new.taken) octets.now) }
        ensures begins { OnErr result (BeginsToAppend (Some self.old.taken) (Some self.new.taken) octets.now) }
        ensures counts { self.new.failed ≡ failures_after result self.old.failed }
        ensures stays { no_lender ≡ no_lender }
    {
        if self.calls.fails() {
            return Err(WriteFailed);
        }
        if self.octets.extend_from_slice(octets).is_err() {
            self.calls.failed += 1;
            return Err(WriteFailed);
        }
        Ok(())
    }

    /// Fails only at the call that has to fail.
    fn flush(&mut self) -> Result<(), WriteFailed>
        requires { self.old.failed < 18446744073709551615 }
        ensures fails { IsErr result ↔ (self.old.fails_in ≡ Some 0) }
        ensures goes_on { self.new.fails_in ≡ one_call_on self.old.fails_in }
        ensures keeps { Keeps (Some self.old.taken) (Some self.new.taken) }
        ensures counts { self.new.failed ≡ failures_after result self.old.failed }
        ensures stays { no_lender ≡ no_lender }
    {
        if self.calls.fails() {
            return Err(WriteFailed);
        }
        Ok(())
    }
}

/// How many calls precede the one that fails, if there is one, and how many have failed.
#[derive(Clone, Copy, Debug)]
struct Calls {
    before: Option<u64>,
    failed: u64,
}

impl Calls {
    fn new(fail_at: Option<u64>) -> Calls
        ensures { result ≡ record { before = fail_at; failed = 0 } }
    {
        Calls {
            before: fail_at,
            failed: 0,
        }
    }

    /// Counts a call, and returns whether it has to fail.
    fn fails(&mut self) -> bool
        requires { self.old.failed < 18446744073709551615 }
        ensures fails { (result ≡ true) ↔ (self.old.before ≡ Some 0) }
        ensures goes_on { self.new.before ≡ one_call_on self.old.before }
        ensures counts { self.new.failed ≡ (if result then self.old.failed + 1 else self.old.failed) }
    {
        match self.before {
            Some(0) => {
                self.before = None;
                self.failed += 1;
                true
            }
            Some(count) => {
                self.before = Some(count - 1);
                false
            }
            None => false,
        }
    }
}
