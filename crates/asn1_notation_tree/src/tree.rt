//! The syntax tree of a text in the notation of X.680.
//!
//! Types, constraints and values are terms in three lists of a `Syntax`. A term names others by their indices in these
//! lists, and those come earlier in their list. Each term has its place in the text: the index of the lexical item at
//! which it begins (X.680 12), of which `Syntax::offset` is the octet.
ghost use Rattle.std.specs.Prelude.{◌≤◌};

use asn1_notation_tokens::Items;

/// The index of a term in `Syntax::types`.
pub type TypeIndex = usize;

/// The index of a term in `Syntax::constraints`.
pub type ConstraintIndex = usize;

/// The index of a term in `Syntax::values`.
pub type ValueIndex = usize;

/// The modules of a text, and the terms in them.
#[derive(Drop)]
pub struct Syntax {
    /// The modules, in the order of the text.
    pub modules: Vec<Module>,
    /// The types.
    pub types: Vec<TypeTerm>,
    /// The constraints.
    pub constraints: Vec<ConstraintTerm>,
    /// The values.
    pub values: Vec<ValueTerm>,
    /// The lexical items of the text.
    pub items: Items,
}

impl Syntax {
    /// The index of the octet at which a lexical item begins; the length of the text, if there is no such item.
    pub fn offset(&self, place: usize) -> usize
        ensures { result ≤ self.now.items.text_length }
    {
        self.items.offset(place)
    }
}

/// A reference or an identifier, and its place.
#[derive(Drop)]
pub struct Name {
    /// Its letters, digits and hyphens. The name of a field of an information object begins with `&`.
    pub text: String,
    /// The index of its lexical item.
    pub place: usize,
}

/// A module (X.680 13.1).
#[derive(Drop)]
pub struct Module {
    /// Its name.
    pub name: Name,
    /// Its object identifier, if it has one: a value in braces.
    pub identifier: Option<ValueIndex>,
    /// How its tags are meant.
    pub tags: TagDefault,
    /// Whether EXTENSIBILITY IMPLIED is given.
    pub is_extensibility_implied: bool,
    /// What it exports.
    pub exports: Exports,
    /// What it imports, by module.
    pub imports: Vec<Import>,
    /// Its assignments.
    pub assignments: Vec<Assignment>,
}

/// How tags without EXPLICIT and IMPLICIT are meant (X.680 13.2).
#[derive(Clone, Copy)]
pub enum TagDefault {
    /// EXPLICIT TAGS, or nothing.
    Explicit,
    /// IMPLICIT TAGS.
    Implicit,
    /// AUTOMATIC TAGS.
    Automatic,
}

/// The symbols that a module exports (X.680 13.1).
#[derive(Drop)]
pub enum Exports {
    /// EXPORTS ALL, or nothing.
    All,
    /// These.
    Symbols(Vec<Name>),
}

/// The symbols that a module imports from another one (X.680 13.1).
#[derive(Drop)]
pub struct Import {
    /// The symbols, without the braces of parameterised ones.
    pub symbols: Vec<Name>,
    /// The name of the other module.
    pub module: Name,
    /// Its object identifier, if it is given: a value in braces, or a reference to one.
    pub identifier: Option<ValueIndex>,
}

/// An assignment (X.680 16, X.681, X.682, X.683).
#[derive(Drop)]
pub struct Assignment {
    /// The name that it defines.
    pub name: Name,
    /// Its parameters; none if it is not parameterised (X.683 8).
    pub parameters: Vec<Parameter>,
    /// What it defines.
    pub kind: AssignmentKind,
}

/// What an assignment defines.
#[derive(Drop)]
pub enum AssignmentKind {
    /// A type (X.680 16.1). It may be a reference to an information object class.
    Type(TypeIndex),
    /// A value, by its type (X.680 16.2).
    Value(TypeIndex, ValueIndex),
    /// A set of values, by its type (X.680 16.6).
    ValueSet(TypeIndex, ConstraintIndex),
    /// An information object class (X.681 9.1), by its fields.
    ObjectClass(Vec<ClassField>),
    /// An information object (X.681 11.1), by what stands in place of its class. Its fields are not kept.
    Object(TypeIndex),
    /// A set of information objects (X.681 12.1), by what stands in place of its class; or of values of a type whose
    /// name has no small letter, if it begins with a name. Its elements are not kept.
    ObjectSet(TypeIndex),
}

/// A parameter of a parameterised assignment (X.683 8.2).
#[derive(Drop)]
pub struct Parameter {
    /// Its governor, if it has one: a type, or a class.
    pub governor: Option<TypeIndex>,
    /// Its name.
    pub name: Name,
}

/// A field of an information object class (X.681 9.3).
#[derive(Drop)]
pub struct ClassField {
    /// Its name, with `&`.
    pub name: Name,
    /// The type of its values, or what stands in the place of it, such as a class; a field of types has none. UNIQUE,
    /// OPTIONAL and DEFAULT are not kept.
    pub fixed: Option<TypeIndex>,
}

/// A type.
#[derive(Drop)]
pub struct TypeTerm {
    /// The index of the lexical item at which it begins.
    pub place: usize,
    /// Its kind.
    pub kind: TypeKind,
    /// Its constraints, one after the other (X.680 49). Those of a tagged type are at the type inside the tag; those
    /// between SEQUENCE or SET and OF are of the list, and those after it of the element.
    pub constraints: Vec<ConstraintIndex>,
}

/// The kinds of types (X.680 17).
#[derive(Drop)]
pub enum TypeKind {
    /// BOOLEAN (X.680 18).
    Boolean,
    /// NULL (X.680 24).
    Null,
    /// INTEGER with its named numbers (X.680 19).
    Integer(Vec<NamedNumber>),
    /// ENUMERATED (X.680 20).
    Enumerated(Enumeration),
    /// BIT STRING with its named bits (X.680 22).
    BitString(Vec<NamedNumber>),
    /// OCTET STRING (X.680 23).
    OctetString,
    /// A restricted character string (X.680 41).
    CharacterString(StringName),
    /// OBJECT IDENTIFIER (X.680 32).
    ObjectIdentifier,
    /// SEQUENCE (X.680 25).
    Sequence(Components),
    /// SET (X.680 27).
    Set(Components),
    /// SEQUENCE OF (X.680 26).
    SequenceOf(Element),
    /// SET OF (X.680 28).
    SetOf(Element),
    /// CHOICE (X.680 29).
    Choice(Components),
    /// A type with a tag before it (X.680 31).
    Tagged(Tagging, TypeIndex),
    /// A type by its name (X.680 14.1, X.683 9).
    Reference(Reference),
    /// The type of an alternative of a CHOICE, such as `name < Choice` (X.680 30).
    Selection(Name, TypeIndex),
    /// A type that tables do not hold.
    Unsupported(UnsupportedType),
}

/// The names of the restricted character string types (X.680 41).
#[derive(Clone, Copy)]
pub enum StringName {
    /// BMPString.
    Bmp,
    /// GeneralString.
    General,
    /// GraphicString.
    Graphic,
    /// IA5String.
    Ia5,
    /// NumericString.
    Numeric,
    /// PrintableString.
    Printable,
    /// TeletexString or T61String.
    Teletex,
    /// UniversalString.
    Universal,
    /// UTF8String.
    Utf8,
    /// VideotexString.
    Videotex,
    /// VisibleString or ISO646String.
    Visible,
}

/// Types that can be written, and that tables do not hold.
#[derive(Drop)]
pub enum UnsupportedType {
    /// REAL (X.680 21).
    Real,
    /// UTCTime (X.680 47).
    UtcTime,
    /// GeneralizedTime (X.680 46).
    GeneralizedTime,
    /// TIME (X.680 38.1).
    Time,
    /// DATE (X.680 38.4).
    Date,
    /// TIME-OF-DAY (X.680 38.4).
    TimeOfDay,
    /// DATE-TIME (X.680 38.4).
    DateTime,
    /// DURATION (X.680 38.4).
    Duration,
    /// ObjectDescriptor (X.680 48).
    ObjectDescriptor,
    /// EXTERNAL (X.680 37).
    External,
    /// EMBEDDED PDV (X.680 36).
    EmbeddedPdv,
    /// CHARACTER STRING (X.680 44).
    UnrestrictedCharacterString,
    /// RELATIVE-OID (X.680 33).
    RelativeObjectIdentifier,
    /// OID-IRI (X.680 34).
    InternationalizedIdentifier,
    /// RELATIVE-OID-IRI (X.680 35).
    RelativeInternationalizedIdentifier,
    /// ANY, with or without DEFINED BY, of the notation before 1994.
    Any,
    /// A field of an information object class, such as `CLASS.&Type` (X.681 14): the class and the names of the
    /// fields, each with `&`.
    Field(Reference, Vec<Name>),
    /// The type of a field of an information object, such as `object.&Type` (X.681 15). It is not kept.
    OfObject,
    /// INSTANCE OF a class (X.681 annex C).
    InstanceOf(Reference),
}

/// A name, and a number or a reference to one: a named number (X.680 19.1), a named bit (X.680 22.1).
#[derive(Drop)]
pub struct NamedNumber {
    /// The name.
    pub name: Name,
    /// The number.
    pub number: ValueIndex,
}

/// The items of an ENUMERATED (X.680 20.1).
#[derive(Drop)]
pub struct Enumeration {
    /// The root items.
    pub root: Vec<EnumerationItem>,
    /// Whether there is an extension marker.
    pub is_extensible: bool,
    /// The added items.
    pub additions: Vec<EnumerationItem>,
}

/// An item of an ENUMERATED (X.680 20.1).
#[derive(Drop)]
pub struct EnumerationItem {
    /// Its name.
    pub name: Name,
    /// Its number, if it is given: a number or a reference to one.
    pub number: Option<ValueIndex>,
}

/// The components of a SEQUENCE or SET (X.680 25.1, 27.1), or the alternatives of a CHOICE (X.680 29.1), in which each
/// is `Required` and none is `ComponentsOf`.
#[derive(Drop)]
pub struct Components {
    /// The root components before the extension marker.
    pub root: Vec<Component>,
    /// Whether there is an extension marker.
    pub is_extensible: bool,
    /// The additions after it.
    pub additions: Vec<Addition>,
    /// The root components after the second extension marker. A CHOICE has none.
    pub second_root: Vec<Component>,
}

/// A component or an alternative.
#[derive(Drop)]
pub enum Component {
    /// One with its name, its type, and whether it may be absent.
    Named(Name, TypeIndex, Presence),
    /// COMPONENTS OF a type (X.680 25.5).
    ComponentsOf(TypeIndex),
}

/// Whether a component may be absent (X.680 25.1).
#[derive(Clone, Copy)]
pub enum Presence {
    /// It is always there.
    Required,
    /// OPTIONAL.
    Optional,
    /// DEFAULT with this value.
    Default(ValueIndex),
}

/// What an extension adds.
#[derive(Drop)]
pub enum Addition {
    /// A component or an alternative.
    Single(Component),
    /// An extension addition group, in version brackets.
    Group(AdditionGroup),
}

/// An extension addition group (X.680 25.1), or the alternatives of one (X.680 29.1).
#[derive(Drop)]
pub struct AdditionGroup {
    /// The index of the lexical item `[[`.
    pub place: usize,
    /// Its version number, if it is given: a number.
    pub version: Option<ValueIndex>,
    /// Its components.
    pub components: Vec<Component>,
}

/// What a SEQUENCE OF or SET OF lists (X.680 26.1, 28.1).
#[derive(Drop)]
pub struct Element {
    /// The name of an element, if it is given.
    pub name: Option<Name>,
    /// Its type.
    pub element: TypeIndex,
}

/// A tag before a type (X.680 31.2).
#[derive(Drop)]
pub struct Tagging {
    /// Its class.
    pub class: TagClass,
    /// Its number, or a reference to one.
    pub number: ValueIndex,
    /// IMPLICIT or EXPLICIT, if it is given.
    pub mode: Option<TaggingMode>,
}

/// The class of a tag (X.680 31.2).
#[derive(Clone, Copy)]
pub enum TagClass {
    /// UNIVERSAL.
    Universal,
    /// APPLICATION.
    Application,
    /// No class is given: context-specific.
    Context,
    /// PRIVATE.
    Private,
}

/// Whether a tag replaces that of its type (X.680 31.2).
#[derive(Clone, Copy)]
pub enum TaggingMode {
    /// IMPLICIT: it does.
    Implicit,
    /// EXPLICIT: it encloses it.
    Explicit,
}

/// The name of something that is defined elsewhere (X.680 14.1).
#[derive(Drop)]
pub struct Reference {
    /// The module before the dot, if it is given.
    pub module: Option<Name>,
    /// The name.
    pub name: Name,
    /// The actual parameters of a parameterised type (X.683 9), else none. Those of a value are kept as `Braces`.
    pub parameters: Vec<ActualParameter>,
}

impl Reference {
    /// Whether it is to a class that each module has (X.681 annexes A and B).
    pub fn is_built_in_class(&self) -> bool {
        self.module.is_none() && is_built_in_class(self.name.text.as_bytes())
    }
}

/// Whether a name is that of a class that each module has (X.681 annexes A and B).
pub fn is_built_in_class(name: &[u8]) -> bool {
    matches!(name, b"TYPE-IDENTIFIER" | b"ABSTRACT-SYNTAX")
}

/// What is given for a parameter (X.683 9.5).
#[derive(Drop)]
pub enum ActualParameter {
    /// A type. It may be a reference to an information object class.
    Type(TypeIndex),
    /// A value. It may be a reference to an information object.
    Value(ValueIndex),
    /// What is in braces: a set of values or of objects, or an object or a value in braces, by the index of the lexical
    /// item `{`. It is not kept.
    Braces(usize),
}

/// A constraint, or a part of one (X.680 50).
#[derive(Drop)]
pub struct ConstraintTerm {
    /// The index of the lexical item at which it begins.
    pub place: usize,
    /// Its kind.
    pub kind: ConstraintKind,
}

/// The kinds of constraints and of their elements (X.680 50 and 51).
#[derive(Drop)]
pub enum ConstraintKind {
    /// A root, an extension marker and the additions after it, if there are any (X.680 50.1). It is a whole constraint,
    /// also of a SIZE or FROM.
    Extensible(ConstraintIndex, Option<ConstraintIndex>),
    /// A single value (X.680 51.2).
    Single(ValueIndex),
    /// A range of values (X.680 51.4): its lower and its upper end.
    Range(RangeEnd, RangeEnd),
    /// SIZE (X.680 51.5).
    Size(ConstraintIndex),
    /// FROM (X.680 51.7).
    From(ConstraintIndex),
    /// The values of a type, with or without INCLUDES (X.680 51.3).
    Contained(TypeIndex),
    /// What is in one of these: UNION or `|` (X.680 50.1).
    Union(Vec<ConstraintIndex>),
    /// What is in all of these: INTERSECTION or `^` (X.680 50.1).
    Intersection(Vec<ConstraintIndex>),
    /// What is in the first, EXCEPT what is in the second (X.680 50.1).
    Except(ConstraintIndex, ConstraintIndex),
    /// ALL EXCEPT this (X.680 50.1).
    AllExcept(ConstraintIndex),
    /// What neither PER nor OER sees (X.691 10.3, X.696 8.2).
    Unseen(UnseenConstraint),
}

/// An end of a range of values (X.680 51.4).
#[derive(Clone, Copy)]
pub struct RangeEnd {
    /// What it is.
    pub limit: Limit,
    /// Whether `<` is given, so that the end itself is outside the range.
    pub is_open: bool,
}

/// Where a range ends (X.680 51.4).
#[derive(Clone, Copy)]
pub enum Limit {
    /// MIN.
    Minimum,
    /// MAX.
    Maximum,
    /// A value.
    Value(ValueIndex),
}

/// Constraints that neither PER nor OER sees.
#[derive(Drop)]
pub enum UnseenConstraint {
    /// WITH COMPONENT, with the constraint of each element (X.680 51.8.5).
    WithComponent(ConstraintIndex),
    /// WITH COMPONENTS (X.680 51.8.6). Whether it begins with an ellipsis is not kept.
    WithComponents(Vec<ComponentConstraint>),
    /// PATTERN, with its value (X.680 51.9).
    Pattern(ValueIndex),
    /// SETTINGS, with its text (X.680 51.10).
    Settings(ValueIndex),
    /// CONTAINING a type, ENCODED BY a value, or both (X.682 11). They are not kept.
    Contents,
    /// CONSTRAINED BY (X.682 9).
    UserDefined,
    /// A set of information objects, with or without components at which it looks (X.682 10).
    Table,
}

/// The constraint of a component in WITH COMPONENTS (X.680 51.8.6).
#[derive(Drop)]
pub struct ComponentConstraint {
    /// The name of the component.
    pub name: Name,
    /// The constraint of its values, if there is one.
    pub constraint: Option<ConstraintIndex>,
    /// Whether it is there, if that is given.
    pub presence: Option<PresenceConstraint>,
}

/// Whether a component is there (X.680 51.8.9).
#[derive(Clone, Copy)]
pub enum PresenceConstraint {
    /// PRESENT.
    Present,
    /// ABSENT.
    Absent,
    /// OPTIONAL.
    Optional,
}

/// A value.
#[derive(Drop)]
pub struct ValueTerm {
    /// The index of the lexical item at which it begins.
    pub place: usize,
    /// Its kind.
    pub kind: ValueKind,
}

/// The notations of values (X.680 17.7).
#[derive(Drop)]
pub enum ValueKind {
    /// TRUE or FALSE (X.680 18.3).
    Boolean(bool),
    /// NULL (X.680 24.3).
    Null,
    /// A number, also after `-` (X.680 19.9).
    Number(i128),
    /// A cstring, its characters in UTF-8 (X.680 12.14).
    Text(Vec<u8>),
    /// A bstring: its digits, each 0 or 1 (X.680 12.10).
    Binary(Vec<u8>),
    /// An hstring: its digits, each from 0 to 15 (X.680 12.12).
    Hexadecimal(Vec<u8>),
    /// A name: a value, an item of an ENUMERATED, a named number.
    Reference(Reference),
    /// An alternative and its value (X.680 29.11).
    Choice(Name, ValueIndex),
    /// What is in braces, separated by commas: the components of a SEQUENCE or SET (X.680 25.18), elements of a list
    /// (X.680 26.3), named bits (X.680 22.9), numbers of a character (X.680 41.8). An object identifier of a single
    /// part, or of a name and a number or a name, has this form too.
    List(Vec<ListElement>),
    /// The parts of an object identifier in braces (X.680 32.3), unless they have the form of a `List`.
    Arcs(Vec<Arc>),
    /// A value of a REAL: a number with a decimal point or an exponent, PLUS-INFINITY, MINUS-INFINITY or NOT-A-NUMBER
    /// (X.680 21.6). It is not kept.
    Real,
    /// The value of a field of an information object, such as `object.&value` (X.681 15). It is not kept.
    OfObject,
    /// A value after its type and a colon, in place of an open type (X.681 14.6). The type is not kept.
    Typed(ValueIndex),
    /// A value after CONTAINING (X.680 22.9, 23.3).
    Containing(ValueIndex),
}

/// An element in braces.
#[derive(Drop)]
pub struct ListElement {
    /// The name of the component, if it is given.
    pub name: Option<Name>,
    /// Its value.
    pub value: ValueIndex,
}

/// A part of an object identifier (X.680 32.3): a number, a name, or a name with a number.
#[derive(Drop)]
pub struct Arc {
    /// The name before a number in parentheses, if there is one.
    pub name: Option<Name>,
    /// The number, or a name: a reference to a number or to an object identifier, or a name that X.680 32.7 to 32.9
    /// give a number, such as `iso`.
    pub number: ValueIndex,
}
