//! What is kept of each record.
ghost use Rattle.asn1_model.specs.Schema.{any_number};
ghost use Rattle.asn1_model.specs.Schema.{any_alphabet};
ghost use Rattle.std.specs.Prelude.{◌≡◌, ◌↔◌, ℕ, ℤ, Bool, List, [], IsTrue, MatchOption, string_bytes};
ghost use Rattle.asn1_model.specs.Schema.{Bounds, Size, utf8, visible, any_count};
ghost use Rattle.asn1_schema_constraints.specs.Terms.{bounds_of, sizes_of};
ghost use Rattle.asn1_schema_laws.specs.Records.{flag, nil, whole, one_of, bits, octets, characters, identifier};
ghost use Rattle.asn1_schema_laws.specs.Records.{list_begins, bag_begins, further, sequence_begins, set_begins};
ghost use Rattle.asn1_schema_laws.specs.Records.{group_begins, presence_bit, is_default, is_empty};
ghost use Rattle.asn1_schema_laws.specs.Records.{additions_begin, addition, addition_ends, choice_begins, ends};
ghost use Rattle.asn1_schema_records.specs.Kept.{bounds_in, sizes_in, record_of};

use asn1_schema_constraints::Constraints;
use asn1_schema_tags::{Chosen, EnumerationItems};
use asn1_values_bit_strings::BitString;
use asn1_values_identifiers::ObjectIdentifier;
use asn1_values_integers::Integer;

/// A value constraint (X.680 51.4), and whether an extension marker follows it.
#[derive(Clone, Copy, Debug, PartialEq, Eq)]
pub struct Limits {
    /// The least value, or `None` if there is none.
    pub low: Option<i128>,
    /// The greatest value, or `None` if there is none.
    pub high: Option<i128>,
    /// Whether an extension marker follows.
    pub extensible: bool,
}

impl Limits {
    /// The value constraint among these constraints.
    pub fn among(constraints: &Constraints) -> Limits
        ensures { bounds_in result ≡ bounds_of constraints.now.value }
    {
        match constraints.value {
            None => Limits {
                low: None,
                high: None,
                extensible: false,
            },
            Some(value) => Limits {
                low: value.constraint.value.as_start().copied(),
                high: value.constraint.value.as_end().copied(),
                extensible: value.extensible.is_some(),
            },
        }
    }

    /// Whether these constraints have exactly this value constraint.
    pub fn are_among(&self, constraints: &Constraints) -> bool
        ensures { IsTrue result ↔ (bounds_in self.now ≡ bounds_of constraints.now.value) }
    {
        *self == Limits::among(constraints)
    }
}

/// A size constraint (X.680 51.5), and whether an extension marker follows it.
#[derive(Clone, Copy, Debug, PartialEq, Eq)]
pub struct Sizes {
    /// The least size.
    pub low: usize,
    /// The greatest size, or `None` if there is none.
    pub high: Option<usize>,
    /// Whether an extension marker follows.
    pub extensible: bool,
}

impl Sizes {
    /// The size constraint among these constraints.
    pub fn among(constraints: &Constraints) -> Sizes
        ensures { sizes_in result ≡ sizes_of constraints.now.size }
    {
        match constraints.size {
            None => Sizes {
                low: 0,
                high: None,
                extensible: false,
            },
            Some(size) => Sizes {
                low: size.constraint.range.minimum(),
                high: size.constraint.range.as_end().copied(),
                extensible: size.extensible.is_some(),
            },
        }
    }

    /// Whether these constraints have exactly this size constraint.
    pub fn are_among(&self, constraints: &Constraints) -> bool
        ensures { IsTrue result ↔ (sizes_in self.now ≡ sizes_of constraints.now.size) }
    {
        *self == Sizes::among(constraints)
    }
}

/// A record, without the bounds of the user-defined type; of a character string without its kind and alphabet, and of
/// an enumeration or a choice without its tables.
#[derive(Debug, Drop)]
pub enum Item {
    /// BOOLEAN.
    Flag(bool),
    /// NULL.
    Null,
    /// INTEGER: its bounds, and the number.
    Integer(Limits, Integer),
    /// ENUMERATED: whether it has an extension marker, and the number of the item.
    OneOf(bool, isize),
    /// BIT STRING: its size, and the bits.
    Bits(Sizes, BitString),
    /// OCTET STRING: its size, and the octets.
    Octets(Sizes, Vec<u8>),
    /// UTF8String: its size, and the text.
    Text(Sizes, String),
    /// A character string of another kind: its size, and the characters.
    Characters(Sizes, Vec<u32>),
    /// OBJECT IDENTIFIER.
    Identifier(ObjectIdentifier),
    /// SEQUENCE OF begins: its size, and the number of elements.
    ListBegins(Sizes, usize),
    /// SET OF begins: its size, and the number of elements.
    BagBegins(Sizes, usize),
    /// Whether another element follows.
    Further(bool),
    /// SEQUENCE begins: whether it has an extension marker, and the number of root components that may be absent.
    SequenceBegins(bool, usize),
    /// SET begins: whether it has an extension marker, and the number of root components that may be absent.
    SetBegins(bool, usize),
    /// An extension addition group begins: the number of its components that may be absent.
    GroupBegins(usize),
    /// Whether a component is present.
    PresenceBit(bool),
    /// The previous component is equal to its default.
    IsDefault,
    /// The previous group has no component present.
    IsEmpty,
    /// The extension additions begin: how many there are.
    AdditionsBegin(usize),
    /// Whether an addition is present.
    Addition(bool),
    /// The end of an addition.
    AdditionEnds,
    /// CHOICE begins: whether it has an extension marker, and which alternative is chosen.
    ChoiceBegins(bool, Chosen),
    /// The end of a SEQUENCE OF, SET OF, SEQUENCE, SET, group or CHOICE.
    Ends,
}

impl Item {
    /// The value of a BOOLEAN; `None` for any other item.
    pub fn into_flag(self) -> Option<bool>
        ensures { MatchOption result ((b : Bool) → record_of self ≡ flag b → ⊥) (λ b. record_of self ≡ flag b) }
    {
        match self {
            Item::Flag(value) => Some(value),
            _ => None,
        }
    }

    /// Whether it is NULL.
    pub fn is_null(&self) -> bool
        ensures { IsTrue result ↔ (record_of self.now ≡ nil) }
    {
        matches!(self, Item::Null)
    }

    /// The bounds and the number of an INTEGER; `None` for any other item.
    pub fn into_integer(self) -> Option<(Limits, Integer)>
        ensures { MatchOption result ((b : Bounds) (v : ℤ) → record_of self ≡ whole b any_number v → ⊥)
            (λ p. record_of self ≡ whole (bounds_in p.0) any_number p.1) }
    {
        match self {
            Item::Integer(limits, number) => Some((limits, number)),
            _ => None,
        }
    }

    /// The number of the item of an ENUMERATED with or without an extension marker; `None` for any other item.
    pub fn into_one_of(self, extensible: bool) -> Option<isize>
        ensures { MatchOption result ((v : ℤ) → record_of self ≡ one_of [] extensible [] v → ⊥)
            (λ v. record_of self ≡ one_of [] extensible [] v) }
    {
        match self {
            Item::OneOf(is_extensible, number) if is_extensible == extensible => Some(number),
            _ => None,
        }
    }

    /// The size and the bits of a BIT STRING; `None` for any other item.
    pub fn into_bits(self) -> Option<(Sizes, BitString)>
        ensures { MatchOption result ((z : Size) (bs : List Bool) → record_of self ≡ bits z any_count bs → ⊥)
            (λ p. record_of self ≡ bits (sizes_in p.0) any_count p.1) }
    {
        match self {
            Item::Bits(sizes, bits) => Some((sizes, bits)),
            _ => None,
        }
    }

    /// The size and the octets of an OCTET STRING; `None` for any other item.
    pub fn into_octets(self) -> Option<(Sizes, Vec<u8>)>
        ensures { MatchOption result ((z : Size) (os : List ℕ) → record_of self ≡ octets z any_count os → ⊥)
            (λ p. record_of self ≡ octets (sizes_in p.0) any_count p.1.items) }
    {
        match self {
            Item::Octets(sizes, octets) => Some((sizes, octets)),
            _ => None,
        }
    }

    /// The size and the text of a UTF8String; `None` for any other item.
    pub fn into_text(self) -> Option<(Sizes, String)>
        ensures { MatchOption result ((z : Size) (os : List ℕ) → record_of self
            ≡ characters utf8 z any_alphabet any_count os → ⊥)
            (λ p. record_of self ≡ characters utf8 (sizes_in p.0) any_alphabet any_count (string_bytes p.1)) }
    {
        match self {
            Item::Text(sizes, text) => Some((sizes, text)),
            _ => None,
        }
    }

    /// The size and the characters of a character string that is no UTF8String; `None` for any other item.
    pub fn into_characters(self) -> Option<(Sizes, Vec<u32>)>
        ensures { MatchOption result ((z : Size) (cs : List ℕ) → record_of self
            ≡ characters visible z any_alphabet any_count cs → ⊥)
            (λ p. record_of self ≡ characters visible (sizes_in p.0) any_alphabet any_count p.1.items) }
    {
        match self {
            Item::Characters(sizes, characters) => Some((sizes, characters)),
            _ => None,
        }
    }

    /// An OBJECT IDENTIFIER; `None` for any other item.
    pub fn into_identifier(self) -> Option<ObjectIdentifier>
        ensures { MatchOption result ((ns : List ℕ) → record_of self ≡ identifier ns → ⊥)
            (λ i. record_of self ≡ identifier i) }
    {
        match self {
            Item::Identifier(identifier) => Some(identifier),
            _ => None,
        }
    }

    /// The size and the number of elements of a SEQUENCE OF that begins; `None` for any other item.
    pub fn into_list(self) -> Option<(Sizes, usize)>
        ensures { MatchOption result ((z : Size) (n : ℕ) → record_of self ≡ list_begins z any_count n → ⊥)
            (λ p. record_of self ≡ list_begins (sizes_in p.0) any_count p.1) }
    {
        match self {
            Item::ListBegins(sizes, count) => Some((sizes, count)),
            _ => None,
        }
    }

    /// The size and the number of elements of a SET OF that begins; `None` for any other item.
    pub fn into_bag(self) -> Option<(Sizes, usize)>
        ensures { MatchOption result ((z : Size) (n : ℕ) → record_of self ≡ bag_begins z any_count n → ⊥)
            (λ p. record_of self ≡ bag_begins (sizes_in p.0) any_count p.1) }
    {
        match self {
            Item::BagBegins(sizes, count) => Some((sizes, count)),
            _ => None,
        }
    }

    /// Whether another element follows; `None` for any other item.
    pub fn into_further(self) -> Option<bool>
        ensures { MatchOption result ((b : Bool) → record_of self ≡ further b → ⊥) (λ b. record_of self ≡ further b) }
    {
        match self {
            Item::Further(more) => Some(more),
            _ => None,
        }
    }

    /// Whether it is the beginning of a SEQUENCE with or without an extension marker, `optional` of whose root
    /// components may be absent.
    pub fn is_sequence(&self, extensible: bool, optional: usize) -> bool
        ensures { IsTrue result ↔ (record_of self.now ≡ sequence_begins extensible optional) }
    {
        match self {
            Item::SequenceBegins(is_extensible, count) => *is_extensible == extensible
                && *count == optional,
            _ => false,
        }
    }

    /// Whether it is the beginning of a SET with or without an extension marker, `optional` of whose root components
    /// may be absent.
    pub fn is_set(&self, extensible: bool, optional: usize) -> bool
        ensures { IsTrue result ↔ (record_of self.now ≡ set_begins extensible optional) }
    {
        match self {
            Item::SetBegins(is_extensible, count) => *is_extensible == extensible
                && *count == optional,
            _ => false,
        }
    }

    /// Whether it is the beginning of an extension addition group, `optional` of whose components may be absent.
    pub fn is_group(&self, optional: usize) -> bool
        ensures { IsTrue result ↔ (record_of self.now ≡ group_begins optional) }
    {
        match self {
            Item::GroupBegins(count) => *count == optional,
            _ => false,
        }
    }

    /// Whether a component is present; `None` for any other item.
    pub fn into_presence_bit(self) -> Option<bool>
        ensures { MatchOption result ((b : Bool) → record_of self ≡ presence_bit b → ⊥)
            (λ b. record_of self ≡ presence_bit b) }
    {
        match self {
            Item::PresenceBit(present) => Some(present),
            _ => None,
        }
    }

    /// Whether it says that the previous component is equal to its default.
    pub fn is_default(&self) -> bool
        ensures { IsTrue result ↔ (record_of self.now ≡ is_default) }
    {
        matches!(self, Item::IsDefault)
    }

    /// Whether it says that the previous group has no component present.
    pub fn is_empty(&self) -> bool
        ensures { IsTrue result ↔ (record_of self.now ≡ is_empty) }
    {
        matches!(self, Item::IsEmpty)
    }

    /// Whether it is the beginning of this number of additions.
    pub fn is_additions(&self, additions: usize) -> bool
        ensures { IsTrue result ↔ (record_of self.now ≡ additions_begin additions) }
    {
        match self {
            Item::AdditionsBegin(count) => *count == additions,
            _ => false,
        }
    }

    /// Whether an addition is present; `None` for any other item.
    pub fn into_addition(self) -> Option<bool>
        ensures { MatchOption result ((b : Bool) → record_of self ≡ addition b → ⊥) (λ b. record_of self ≡ addition b) }
    {
        match self {
            Item::Addition(present) => Some(present),
            _ => None,
        }
    }

    /// Whether it is the end of an addition.
    pub fn is_addition_end(&self) -> bool
        ensures { IsTrue result ↔ (record_of self.now ≡ addition_ends) }
    {
        matches!(self, Item::AdditionEnds)
    }

    /// The chosen alternative of a CHOICE with or without an extension marker that begins; `None` for any other item.
    pub fn into_choice(self, extensible: bool) -> Option<Chosen>
        ensures { MatchOption result ((added : Bool) (i : ℕ) → record_of self ≡ choice_begins [] extensible [] added i
            → ⊥) (λ c. record_of self ≡ choice_begins [] extensible [] c.added c.place) }
    {
        match self {
            Item::ChoiceBegins(is_extensible, chosen) if is_extensible == extensible => Some(
                chosen,
            ),
            _ => None,
        }
    }

    /// Whether it is the end of a SEQUENCE OF, SET OF, SEQUENCE, SET, group or CHOICE.
    pub fn is_end(&self) -> bool
        ensures { IsTrue result ↔ (record_of self.now ≡ ends) }
    {
        matches!(self, Item::Ends)
    }
}

/// Whether an enumeration has an extension marker (X.680 20).
pub fn is_extensible<I: EnumerationItems>(items: &I) -> bool
    ensures { result ≡ I.extensible items.now }
{
    items.added_items().is_some()
}
