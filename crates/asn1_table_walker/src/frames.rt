//! What is still to come of the lists, sequences, sets, groups and choices that have begun.

/// What is still to come of a value that has begun. Types are named by their indices in the table.
#[derive(Clone, Copy, Debug)]
pub enum Frame {
    /// Elements of a list, and its end.
    Members {
        /// The index of the list's type.
        list: usize,
        /// Where its beginning is kept.
        begins: usize,
        /// How many elements were read.
        count: usize,
    },
    /// Root components of a sequence, set or group, then its additions, and its end.
    Root {
        /// The index of its type.
        sequence: usize,
        /// The index of the next component.
        next: usize,
    },
    /// What is noted of a root component with a default, whose value was read; then as `Root`.
    Noting {
        /// The index of the sequence's type.
        sequence: usize,
        /// The index of the component.
        component: usize,
        /// Where its presence bit is kept.
        from: usize,
    },
    /// Additions of a sequence, and its end.
    Added {
        /// The index of the sequence's type.
        sequence: usize,
        /// The index of the next addition.
        next: usize,
    },
    /// The end of an addition whose value was read, and what is noted of it; then as `Added`.
    Inside {
        /// The index of the sequence's type.
        sequence: usize,
        /// The index of the addition.
        component: usize,
        /// Where it is kept that the addition is there.
        from: usize,
    },
    /// The value of the chosen alternative of a choice, and its end.
    Alternative {
        /// The index of the value's type.
        value: usize,
    },
    /// The end of a choice whose value was read.
    Closing,
}

/// What a turn leaves.
#[derive(Clone, Copy, Debug)]
pub enum Turn {
    /// The value has ended.
    Ended,
    /// The rest of it is still to come.
    Again(Frame),
    /// A value of the type at an index comes first, and then the rest.
    Value(Frame, usize),
}
