//! What may be open: the frames.
ghost use Rattle.std.specs.Prelude.{◌≡◌, ◌+◌, length};
ghost use Rattle.per_codec_packing.specs.Packed.{solid};

use asn1_schema_constraints::{Bounded, Sizes};
use per_codec_additions::Slots;
use per_codec_packing::{FieldLists, Packing};
use per_codec_writing::Due;

/// A position in a field-list.
#[derive(Clone, Copy, PartialEq, Eq)]
pub(crate) struct Position {
    /// The number of bits before it.
    pub bits: usize,
    /// The number of open paddings before it.
    pub paddings: usize,
}

impl Position {
    /// The position after a field-list.
    pub(crate) fn end_of(field_list: &Packing) -> Self
        ensures bits { result.bits ≡ length (solid field_list.now.field_list) }
        ensures all { result.bits + result.paddings ≡ length field_list.now.field_list }
    {
        Position {
            bits: field_list.len(),
            paddings: field_list.padding_count(),
        }
    }
}

/// What is open.
#[derive(Drop)]
pub(crate) enum Frame {
    /// A sequence, a set or an extension addition group.
    Components {
        /// Whether it has an extension bit.
        extensible: bool,
        /// The number of presence bits still due.
        due: usize,
        /// The number of presence bits given.
        given: usize,
        /// The start of its preamble.
        start: Position,
    },
    /// A sequence or a set after its root.
    Added(Additions),
    /// An addition or an added alternative, whose bits are kept apart.
    OpenType {
        /// What precedes it.
        outer: Packing,
    },
    /// A list, and what is due of its elements.
    Members(Due),
    /// A bag, whose elements are stored until it ends. It is boxed because it is larger than the others.
    Bag(Box<Bag>),
    /// A root alternative of a choice.
    Alternative,
}

/// The extension additions of a sequence or a set, which are stored until it ends.
#[derive(Drop)]
pub(crate) struct Additions {
    /// The number of additions still due.
    pub due: usize,
    /// The number of presence bits in the preamble.
    pub given: usize,
    /// The start of the preamble.
    pub start: Position,
    /// The end of the root.
    pub end: Position,
    /// The additions so far: the bits of each that is present.
    pub slots: Slots,
}

/// A bag. Its elements are kept apart until the bag ends, which orders them (X.691 22).
#[derive(Drop)]
pub(crate) struct Bag {
    /// What precedes it.
    pub outer: Packing,
    /// The counts that its size constraint admits.
    pub sizes: Sizes,
    /// The counts that the Rust type holds.
    pub held: Bounded<usize>,
    /// The number of elements still due.
    pub due: usize,
    /// The elements before the open one; `None` if no element is open.
    pub members: Option<FieldLists>,
}
