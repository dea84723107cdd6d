//! Readers and writers that take all memory before one of their calls.
ghost use Rattle.std.specs.Prelude.{◌≡◌};

use crate::full::memory::take_memory;
use asn1_relay_core::{ReadFailed, Sink, Source, WriteFailed};
use std::alloc::Global;

/// A reader or a writer, and the call of `read` or `write` before which all memory is taken.
#[derive(Drop)]
pub struct Starving<S> {
    /// The reader or the writer.
    pub inner: S,
    hunger: Hunger,
}

/// How many calls precede that call, and the memory taken.
#[derive(Drop)]
struct Hunger {
    alloc: Global,
    before: Option<u32>,
    taken: Vec<Vec<u8>>,
}

impl Hunger {
    /// Counts a call, and takes all memory before the selected one.
    fn count(&mut self) {
        match self.before {
            Some(0) => {
                if let Ok(taken) = take_memory(self.alloc) {
                    self.taken = taken;
                }
                self.before = None;
            }
            Some(count) => self.before = Some(count - 1),
            None => {}
        }
    }
}

impl<S> Starving<S> {
    /// A reader or a writer before whose call with this number, counted from 0, all memory is taken.
    pub fn new(alloc: Global, inner: S, before: Option<u32>) -> Starving<S>
        ensures { result.inner ≡ inner }
    {
        Starving {
            inner,
            hunger: Hunger {
                alloc,
                before,
                taken: Vec::new(alloc),
            },
        }
    }
}

impl<S: Source> Source for Starving<S> {
    ghost failures = { λ s. S.failures s.inner };

    ghost budget = { λ s. S.budget s.inner };

    ghost coming = { λ s. S.coming s.inner };

    ghost lender = { λ s. S.lender s.inner };

    fn read(&mut self, room: &mut [u8]) -> Result<usize, ReadFailed> {
        self.hunger.count();
        self.inner.read(room)
    }
}

impl<S: Sink> Sink for Starving<S> {
    ghost failures = { λ s. S.failures s.inner };

    ghost taken = { λ s. S.taken s.inner };

    ghost lender = { λ s. S.lender s.inner };

    fn write(&mut self, octets: &[u8]) -> Result<(), WriteFailed> {
        self.hunger.count();
        self.inner.write(octets)
    }

    fn flush(&mut self) -> Result<(), WriteFailed> {
        self.inner.flush()
    }
}
