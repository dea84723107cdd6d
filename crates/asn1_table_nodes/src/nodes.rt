//! The types of a table as an author writes them. A type names another by its index in the table, counted from 0. At a
//! place outside the table is a type without values, as below the levels to which a recursive type is unfolded.
use crate::DefaultValue;
use asn1_schema_constraints::{Bounded, Sizes};
use asn1_schema_tags::Tag;

/// A type of a table.
#[derive(Drop)]
pub enum TypeNode {
    /// BOOLEAN (X.680 18).
    Boolean,
    /// NULL (X.680 24).
    Null,
    /// INTEGER (X.680 19), with a value constraint if it has one.
    Integer(Option<NumberLimits>),
    /// ENUMERATED (X.680 20).
    Enumerated(ItemTable),
    /// BIT STRING (X.680 22), by its sizes in bits.
    BitString(Sizes),
    /// OCTET STRING (X.680 23), by its sizes in octets.
    OctetString(Sizes),
    /// A restricted character string (X.680 41).
    CharacterString(StringTable),
    /// OBJECT IDENTIFIER (X.680 32).
    ObjectIdentifier,
    /// SEQUENCE OF (X.680 26): its sizes, and the index of its elements' type.
    SequenceOf(Sizes, usize),
    /// SET OF (X.680 28): the same.
    SetOf(Sizes, usize),
    /// SEQUENCE (X.680 25).
    Sequence(ComponentTable),
    /// SET (X.680 27), the root components in the order of their tags (X.680 8.6).
    Set(ComponentTable),
    /// A group of additions (X.680 25), which is an optional one among additions.
    Group(Vec<Component>),
    /// CHOICE (X.680 29).
    Choice(AlternativeTable),
}

/// A value constraint: the numbers of the root, and whether an extension marker follows them (X.680 51.4 and 52).
#[derive(Clone, Copy, Debug, PartialEq, Eq)]
pub struct NumberLimits {
    /// The numbers of the root.
    pub root: Bounded<i128>,
    /// Whether an extension marker follows.
    pub is_extensible: bool,
}

/// The items of an ENUMERATED, by their numbers, which ascend (X.680 20).
#[derive(Drop)]
pub struct ItemTable {
    /// The root items.
    pub root: Vec<isize>,
    /// Whether there is an extension marker.
    pub is_extensible: bool,
    /// The added items.
    pub additions: Vec<isize>,
}

/// The restricted character string types (X.680 41).
#[derive(Clone, Copy)]
pub enum StringKind {
    /// NumericString.
    Numeric,
    /// PrintableString.
    Printable,
    /// VisibleString.
    Visible,
    /// IA5String.
    Ia5,
    /// BMPString.
    Bmp,
    /// GeneralString.
    General,
    /// GraphicString.
    Graphic,
    /// TeletexString.
    Teletex,
    /// UTF8String.
    Utf8,
}

/// A restricted character string (X.680 41).
#[derive(Drop)]
pub struct StringTable {
    /// Its kind.
    pub kind: StringKind,
    /// Its sizes in characters.
    pub sizes: Sizes,
    /// Its permitted alphabet, if it has one.
    pub alphabet: Option<CharacterTable>,
}

/// A permitted alphabet: its characters in any order, and whether an extension marker follows them (X.680 51.7 and 52).
#[derive(Drop)]
pub struct CharacterTable {
    /// The characters, by their numbers.
    pub characters: Vec<u32>,
    /// Whether an extension marker follows.
    pub is_extensible: bool,
}

/// The components of a SEQUENCE or SET (X.680 25 and 27).
#[derive(Drop)]
pub struct ComponentTable {
    /// The root components.
    pub root: Vec<Component>,
    /// Whether there is an extension marker.
    pub is_extensible: bool,
    /// The additions after it.
    pub additions: Vec<Component>,
}

/// A component.
#[derive(Drop)]
pub struct Component {
    /// The tags with which it may begin: its own, or those of all alternatives of an untagged CHOICE, the added ones
    /// last, or those of all components of a group of additions.
    pub tags: Vec<Tag>,
    /// Whether it may be absent.
    pub presence: Presence,
    /// The place of its type.
    pub place: usize,
}

/// Whether a component may be absent (X.680 25).
#[derive(Drop)]
pub enum Presence {
    /// It is always there.
    Required,
    /// OPTIONAL.
    Optional,
    /// DEFAULT, with the value that is meant where it is absent.
    Default(DefaultValue),
}

/// The alternatives of a CHOICE (X.680 29).
#[derive(Drop)]
pub struct AlternativeTable {
    /// The root alternatives, in the order of their tags (X.680 8.6).
    pub root: Vec<Alternative>,
    /// Whether there is an extension marker.
    pub is_extensible: bool,
    /// The added alternatives.
    pub additions: Vec<Alternative>,
}

/// An alternative of a CHOICE.
#[derive(Clone, Copy)]
pub struct Alternative {
    /// Its tag.
    pub tag: Tag,
    /// The place of its type.
    pub place: usize,
}
