//! Which alternative of a choice is chosen.
ghost use Rattle.std.specs.Prelude.{◌≡◌, true, false};

/// The chosen alternative of a CHOICE (X.680 29): whether it is an extension addition, and its choice index. The index
/// is among the root alternatives in ascending order of their tags, or among the added ones in their order.
#[derive(Clone, Copy, Debug, PartialEq, Eq)]
pub struct Chosen {
    /// Whether it is an extension addition.
    pub added: bool,
    /// Its index among the root alternatives, or among the added ones, from 0.
    pub place: usize,
}

impl Chosen {
    /// The root alternative with this choice index.
    pub fn root(place: usize) -> Self
        ensures { result ≡ record { added = false; place = place } }
    {
        Chosen {
            added: false,
            place,
        }
    }

    /// The added alternative with this index.
    pub fn addition(place: usize) -> Self
        ensures { result ≡ record { added = true; place = place } }
    {
        Chosen { added: true, place }
    }
}
