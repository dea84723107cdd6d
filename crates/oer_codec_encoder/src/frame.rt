//! What may be open: the frames.

use asn1_schema_order::Encodings;

/// The preamble of a sequence, a set or an extension addition group (X.696 16.2). Its presence bits are given one at
/// a time, and the components follow it.
#[derive(Clone, Copy)]
pub(crate) struct Preamble {
    /// Whether there is an extension marker.
    pub(crate) extensible: bool,
    /// The number of presence bits still due.
    pub(crate) due: usize,
    /// The number of presence bits given.
    pub(crate) given: usize,
    /// The position of the preamble.
    pub(crate) start: usize,
}

/// The extension additions of a sequence or set (X.696 16.4 and 16.5). After the root comes the presence bitmap, with
/// a bit for each addition, then the octets of the additions that are present.
#[derive(Clone, Copy)]
pub(crate) struct Additions {
    /// The number of additions still due.
    pub(crate) due: usize,
    /// The number of additions whose presence was given.
    pub(crate) given: usize,
    /// Whether an addition is present.
    pub(crate) any: bool,
    /// The position of the bits of the presence bitmap.
    pub(crate) bitmap: usize,
    /// The number of presence bits in the preamble.
    pub(crate) optional: usize,
    /// The position of the preamble.
    pub(crate) start: usize,
    /// The end of the root.
    pub(crate) root_end: usize,
}

/// A bag (X.696 19). Its open element is written into a buffer that holds nothing else.
#[derive(Drop)]
pub(crate) struct Bag {
    /// The number of elements still due.
    pub(crate) due: usize,
    /// The octets before the elements.
    pub(crate) outer: Vec<u8>,
    /// The octets of each element before the open one; `None` if no element is open.
    pub(crate) members: Option<Encodings>,
}

/// What is open.
#[derive(Drop)]
pub(crate) enum Frame {
    /// A sequence, a set, or a group of additions.
    Components(Preamble),
    /// A sequence or a set after its root.
    Added(Additions),
    /// An addition or an added alternative. Its octets follow one octet reserved for the length determinant.
    OpenType {
        /// The position of the reserved octet.
        start: usize,
    },
    /// A list.
    Members {
        /// The number of elements still due.
        due: usize,
    },
    /// A bag. It is boxed because it is larger than the others.
    Bag(Box<Bag>),
    /// A root alternative of a choice.
    Alternative,
}
