//! Encodings in shared memory.
ghost use Rattle.std.specs.Prelude.{◌≡◌, ◌++◌, ◌<◌, [], ◌∷◌, length, OnOk, OnErr, IfOk, IsTrue, ◌↔◌, get_or};
ghost use Rattle.std.specs.Cmp.Lexicographic.{slice_cmp};
ghost use Rattle.std.specs.Ordering.{nat_cmp};
ghost use Rattle.asn1_schema_order.specs.Entries.{octets_of, AreInOrder};
ghost use Rattle.asn1_schema_order.specs.LeadingOctets.{leading, fronted};

use std::alloc::{AllocError, Global};
use std::cmp::Ordering;
use std::marker::Model;

// The octets from `from` up to, but not including, `to`.
#[derive(Clone, Copy)]
struct Span {
    from: usize,
    to: usize,
}

/// A list of encodings in one shared buffer.
#[derive(Drop)]
pub struct Encodings {
    octets: Vec<u8>,
    spans: Vec<Span>,
}

impl Model for Encodings {
    ghost use Rattle.std.specs.Prelude.{ℕ, List, length};

    ghost Value = { List (List ℕ) };

    ghost use Rattle.asn1_schema_order.specs.Spans.{cut, AreWithin};

    ghost view = { λ e. cut e.octets.items e.spans.items };

    ghost invariant = { λ e. AreWithin (length e.octets.items) e.spans.items };
}

// The first eight octets as a number, the most significant first; missing octets are zero.
#[inline]
fn front_of(octets: &[u8]) -> u64
    ensures { result ≡ leading 8 octets.now }
{
    let first = &octets[..octets.len().min(8)];
    let mut front = 0;
    let mut weight: u64 = 1 << 56;
    for octet in first {
        front += u64::from(*octet) * weight;
        weight /= 256;
    }
    front
}

/// One of the encodings: its octets, and its index. Only [`Encodings::in_order`] makes one.
#[derive(Clone, Copy)]
pub struct Entry<'a> {
    /// Its octets.
    pub octets: &'a [u8],
    /// How many of the encodings were added before it.
    pub index: usize,
    // Its first eight octets as a number, which mostly decides a comparison.
    front: u64,
}

impl Entry<'_> {
    // Compares two entries by their first eight octets and, if these are equal, by all octets.
    #[inline]
    fn compare(&self, other: &Entry<'_>) -> Ordering
        ensures { result ≡ slice_cmp nat_cmp (fronted self.now) (fronted other.now) }
    {
        match self.front.cmp(&other.front) {
            Ordering::Equal => self.octets.cmp(other.octets),
            differing => differing,
        }
    }
}

impl Encodings {
    /// No encodings. Allocates nothing until one is added.
    pub fn new(alloc: Global) -> Self
        ensures { result ≡ [] }
    {
        Encodings {
            octets: Vec::new(alloc),
            spans: Vec::new(alloc),
        }
    }

    /// The number of encodings.
    #[inline]
    pub fn len(&self) -> usize
        ensures { result ≡ length self.now }
    {
        self.spans.len()
    }

    /// Whether there are no encodings.
    #[inline]
    pub fn is_empty(&self) -> bool
        ensures { IsTrue result ↔ (self.now ≡ []) }
    {
        self.len() == 0
    }

    /// Appends an encoding.
    ///
    /// # Errors
    ///
    /// Out of memory; nothing is changed then.
    #[inline]
    pub fn push(&mut self, octets: &[u8]) -> Result<(), AllocError>
        ensures ok { OnOk result (self.new ≡ self.old ++ (octets.now ∷ [])) }
        ensures err { OnErr result (self.new ≡ self.old) }
    {
        let from = self.octets.len();
        self.octets.extend_from_slice(octets)?;
        let to = self.octets.len();
        self.spans.push(Span { from, to })?;
        Ok(())
    }

    /// The octets of the encoding at an index.
    #[inline]
    pub fn get(&self, index: usize) -> &[u8]
        requires { index < length self.now }
        ensures { result.now ≡ get_or self.now index [] }
    {
        let span = self.spans[index];
        &self.octets[span.from..span.to]
    }

    /// All encodings in ascending order (X.691 22, X.696 19), each with its index; equal ones keep their order. The
    /// first octet in which two differ decides, and a prefix comes before the longer one.
    ///
    /// # Errors
    ///
    /// Out of memory.
    pub fn in_order(&self, alloc: Global) -> Result<Vec<Entry<'_>>, AllocError>
        ensures { IfOk result (λ all. AreInOrder self.now all.items) }
    {
        let mut all = Vec::with_capacity(alloc, self.len())?;
        for index in 0..self.len() {
            let octets = self.get(index);
            all.push(Entry {
                octets,
                index,
                front: front_of(octets),
            })?;
        }
        all.sort_by(|a, b| a.compare(b))?;
        Ok(all)
    }
}
