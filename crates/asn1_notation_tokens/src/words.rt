//! Reserved words (X.680 12.38).
ghost use Rattle.std.specs.Prelude.{◌≡◌, IfSome};
ghost use Rattle.asn1_notation_tokens.specs.Words.{word_text};

/// A reserved word (X.680 12.38). ANY and DEFINED are of the notation before 1994; INSTRUCTIONS and ENCODING-CONTROL
/// begin encoding instructions (X.680 54).
#[derive(Clone, Copy, Debug, PartialEq, Eq)]
pub enum Word {
    /// ABSENT.
    Absent,
    /// ALL.
    All,
    /// ANY.
    Any,
    /// APPLICATION.
    Application,
    /// AUTOMATIC.
    Automatic,
    /// BEGIN.
    Begin,
    /// BIT.
    Bit,
    /// BMPString.
    BmpString,
    /// BOOLEAN.
    Boolean,
    /// BY.
    By,
    /// CHARACTER.
    Character,
    /// CHOICE.
    Choice,
    /// CLASS.
    Class,
    /// COMPONENT.
    Component,
    /// COMPONENTS.
    Components,
    /// CONSTRAINED.
    Constrained,
    /// CONTAINING.
    Containing,
    /// DATE.
    Date,
    /// DATE-TIME.
    DateTime,
    /// DEFAULT.
    Default,
    /// DEFINED.
    Defined,
    /// DEFINITIONS.
    Definitions,
    /// DURATION.
    Duration,
    /// EMBEDDED.
    Embedded,
    /// ENCODED.
    Encoded,
    /// ENCODING-CONTROL.
    EncodingControl,
    /// END.
    End,
    /// ENUMERATED.
    Enumerated,
    /// EXCEPT.
    Except,
    /// EXPLICIT.
    Explicit,
    /// EXPORTS.
    Exports,
    /// EXTENSIBILITY.
    Extensibility,
    /// EXTERNAL.
    External,
    /// FALSE.
    False,
    /// FROM.
    From,
    /// GeneralizedTime.
    GeneralizedTime,
    /// GeneralString.
    GeneralString,
    /// GraphicString.
    GraphicString,
    /// IA5String.
    Ia5String,
    /// IDENTIFIER.
    Identifier,
    /// IMPLICIT.
    Implicit,
    /// IMPLIED.
    Implied,
    /// IMPORTS.
    Imports,
    /// INCLUDES.
    Includes,
    /// INSTANCE.
    Instance,
    /// INSTRUCTIONS.
    Instructions,
    /// INTEGER.
    Integer,
    /// INTERSECTION.
    Intersection,
    /// ISO646String.
    Iso646String,
    /// MAX.
    Max,
    /// MIN.
    Min,
    /// MINUS-INFINITY.
    MinusInfinity,
    /// NOT-A-NUMBER.
    NotANumber,
    /// NULL.
    Null,
    /// NumericString.
    NumericString,
    /// OBJECT.
    Object,
    /// ObjectDescriptor.
    ObjectDescriptor,
    /// OCTET.
    Octet,
    /// OF.
    Of,
    /// OID-IRI.
    OidIri,
    /// OPTIONAL.
    Optional,
    /// PATTERN.
    Pattern,
    /// PDV.
    Pdv,
    /// PLUS-INFINITY.
    PlusInfinity,
    /// PRESENT.
    Present,
    /// PrintableString.
    PrintableString,
    /// PRIVATE.
    Private,
    /// REAL.
    Real,
    /// RELATIVE-OID.
    RelativeOid,
    /// RELATIVE-OID-IRI.
    RelativeOidIri,
    /// SEQUENCE.
    Sequence,
    /// SET.
    Set,
    /// SETTINGS.
    Settings,
    /// SIZE.
    Size,
    /// STRING.
    String,
    /// SYNTAX.
    Syntax,
    /// T61String.
    T61String,
    /// TAGS.
    Tags,
    /// TeletexString.
    TeletexString,
    /// TIME.
    Time,
    /// TIME-OF-DAY.
    TimeOfDay,
    /// TRUE.
    True,
    /// UNION.
    Union,
    /// UNIQUE.
    Unique,
    /// UNIVERSAL.
    Universal,
    /// UniversalString.
    UniversalString,
    /// UTCTime.
    UtcTime,
    /// UTF8String.
    Utf8String,
    /// VideotexString.
    VideotexString,
    /// VisibleString.
    VisibleString,
    /// WITH.
    With,
}

impl Word {
    /// Its letters and hyphens.
    pub fn text(self) -> &'static str
        ensures { result.now ≡ word_text self }
    {
        match self {
            Word::Absent => "ABSENT",
            Word::All => "ALL",
            Word::Any => "ANY",
            Word::Application => "APPLICATION",
            Word::Automatic => "AUTOMATIC",
            Word::Begin => "BEGIN",
            Word::Bit => "BIT",
            Word::BmpString => "BMPString",
            Word::Boolean => "BOOLEAN",
            Word::By => "BY",
            Word::Character => "CHARACTER",
            Word::Choice => "CHOICE",
            Word::Class => "CLASS",
            Word::Component => "COMPONENT",
            Word::Components => "COMPONENTS",
            Word::Constrained => "CONSTRAINED",
            Word::Containing => "CONTAINING",
            Word::Date => "DATE",
            Word::DateTime => "DATE-TIME",
            Word::Default => "DEFAULT",
            Word::Defined => "DEFINED",
            Word::Definitions => "DEFINITIONS",
            Word::Duration => "DURATION",
            Word::Embedded => "EMBEDDED",
            Word::Encoded => "ENCODED",
            Word::EncodingControl => "ENCODING-CONTROL",
            Word::End => "END",
            Word::Enumerated => "ENUMERATED",
            Word::Except => "EXCEPT",
            Word::Explicit => "EXPLICIT",
            Word::Exports => "EXPORTS",
            Word::Extensibility => "EXTENSIBILITY",
            Word::External => "EXTERNAL",
            Word::False => "FALSE",
            Word::From => "FROM",
            Word::GeneralizedTime => "GeneralizedTime",
            Word::GeneralString => "GeneralString",
            Word::GraphicString => "GraphicString",
            Word::Ia5String => "IA5String",
            Word::Identifier => "IDENTIFIER",
            Word::Implicit => "IMPLICIT",
            Word::Implied => "IMPLIED",
            Word::Imports => "IMPORTS",
            Word::Includes => "INCLUDES",
            Word::Instance => "INSTANCE",
            Word::Instructions => "INSTRUCTIONS",
            Word::Integer => "INTEGER",
            Word::Intersection => "INTERSECTION",
            Word::Iso646String => "ISO646String",
            Word::Max => "MAX",
            Word::Min => "MIN",
            Word::MinusInfinity => "MINUS-INFINITY",
            Word::NotANumber => "NOT-A-NUMBER",
            Word::Null => "NULL",
            Word::NumericString => "NumericString",
            Word::Object => "OBJECT",
            Word::ObjectDescriptor => "ObjectDescriptor",
            Word::Octet => "OCTET",
            Word::Of => "OF",
            Word::OidIri => "OID-IRI",
            Word::Optional => "OPTIONAL",
            Word::Pattern => "PATTERN",
            Word::Pdv => "PDV",
            Word::PlusInfinity => "PLUS-INFINITY",
            Word::Present => "PRESENT",
            Word::PrintableString => "PrintableString",
            Word::Private => "PRIVATE",
            Word::Real => "REAL",
            Word::RelativeOid => "RELATIVE-OID",
            Word::RelativeOidIri => "RELATIVE-OID-IRI",
            Word::Sequence => "SEQUENCE",
            Word::Set => "SET",
            Word::Settings => "SETTINGS",
            Word::Size => "SIZE",
            Word::String => "STRING",
            Word::Syntax => "SYNTAX",
            Word::T61String => "T61String",
            Word::Tags => "TAGS",
            Word::TeletexString => "TeletexString",
            Word::Time => "TIME",
            Word::TimeOfDay => "TIME-OF-DAY",
            Word::True => "TRUE",
            Word::Union => "UNION",
            Word::Unique => "UNIQUE",
            Word::Universal => "UNIVERSAL",
            Word::UniversalString => "UniversalString",
            Word::UtcTime => "UTCTime",
            Word::Utf8String => "UTF8String",
            Word::VideotexString => "VideotexString",
            Word::VisibleString => "VisibleString",
            Word::With => "WITH",
        }
    }

    /// The reserved word with this text.
    pub fn of(text: &[u8]) -> Option<Word>
        ensures { IfSome result (λ w. word_text w ≡ text.now) }
    {
        for word in WORDS.iter() {
            if word.text().as_bytes() == text {
                return Some(*word);
            }
        }
        None
    }
}

/// All of them.
pub const WORDS: [Word; 91] = [
    Word::Absent,
    Word::All,
    Word::Any,
    Word::Application,
    Word::Automatic,
    Word::Begin,
    Word::Bit,
    Word::BmpString,
    Word::Boolean,
    Word::By,
    Word::Character,
    Word::Choice,
    Word::Class,
    Word::Component,
    Word::Components,
    Word::Constrained,
    Word::Containing,
    Word::Date,
    Word::DateTime,
    Word::Default,
    Word::Defined,
    Word::Definitions,
    Word::Duration,
    Word::Embedded,
    Word::Encoded,
    Word::EncodingControl,
    Word::End,
    Word::Enumerated,
    Word::Except,
    Word::Explicit,
    Word::Exports,
    Word::Extensibility,
    Word::External,
    Word::False,
    Word::From,
    Word::GeneralizedTime,
    Word::GeneralString,
    Word::GraphicString,
    Word::Ia5String,
    Word::Identifier,
    Word::Implicit,
    Word::Implied,
    Word::Imports,
    Word::Includes,
    Word::Instance,
    Word::Instructions,
    Word::Integer,
    Word::Intersection,
    Word::Iso646String,
    Word::Max,
    Word::Min,
    Word::MinusInfinity,
    Word::NotANumber,
    Word::Null,
    Word::NumericString,
    Word::Object,
    Word::ObjectDescriptor,
    Word::Octet,
    Word::Of,
    Word::OidIri,
    Word::Optional,
    Word::Pattern,
    Word::Pdv,
    Word::PlusInfinity,
    Word::Present,
    Word::PrintableString,
    Word::Private,
    Word::Real,
    Word::RelativeOid,
    Word::RelativeOidIri,
    Word::Sequence,
    Word::Set,
    Word::Settings,
    Word::Size,
    Word::String,
    Word::Syntax,
    Word::T61String,
    Word::Tags,
    Word::TeletexString,
    Word::Time,
    Word::TimeOfDay,
    Word::True,
    Word::Union,
    Word::Unique,
    Word::Universal,
    Word::UniversalString,
    Word::UtcTime,
    Word::Utf8String,
    Word::VideotexString,
    Word::VisibleString,
    Word::With,
];
