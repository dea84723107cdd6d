//! The names of types.
ghost use Rattle.std.specs.Prelude.{◌≡◌, IsSome, is_some, Some, if◌then◌else◌};

/// The name of a type, if it has one.
#[derive(Clone, Copy, Debug, PartialEq, Eq)]
pub struct Identifier(pub Option<&'static str>);

impl Identifier {
    /// No name.
    pub const EMPTY: Identifier = Identifier(None);

    pub const BOOL: Identifier = Identifier(Some("BOOLEAN"));

    pub const INTEGER: Identifier = Identifier(Some("INTEGER"));

    pub const BIT_STRING: Identifier = Identifier(Some("BIT_STRING"));

    pub const OCTET_STRING: Identifier = Identifier(Some("OCTET_STRING"));

    pub const NULL: Identifier = Identifier(Some("NULL"));

    pub const OBJECT_IDENTIFIER: Identifier = Identifier(Some("OBJECT_IDENTIFIER"));

    pub const EXTERNAL: Identifier = Identifier(Some("EXTERNAL"));

    pub const ENUMERATED: Identifier = Identifier(Some("ENUMERATED"));

    pub const EMBEDDED_PDV: Identifier = Identifier(Some("EMBEDDED_PDV"));

    pub const UTF8_STRING: Identifier = Identifier(Some("UTF8String"));

    pub const RELATIVE_OID: Identifier = Identifier(Some("RELATIVE_OID"));

    pub const TIME: Identifier = Identifier(Some("TIME"));

    pub const SEQUENCE: Identifier = Identifier(Some("SEQUENCE"));

    pub const SET: Identifier = Identifier(Some("SET"));

    pub const NUMERIC_STRING: Identifier = Identifier(Some("NumericString"));

    pub const PRINTABLE_STRING: Identifier = Identifier(Some("PrintableString"));

    pub const TELETEX_STRING: Identifier = Identifier(Some("TeletexString"));

    pub const IA5_STRING: Identifier = Identifier(Some("IA5String"));

    pub const UTC_TIME: Identifier = Identifier(Some("UTCTime"));

    pub const GENERALIZED_TIME: Identifier = Identifier(Some("GeneralizedTime"));

    pub const GRAPHIC_STRING: Identifier = Identifier(Some("GraphicString"));

    pub const VISIBLE_STRING: Identifier = Identifier(Some("VisibleString"));

    pub const GENERAL_STRING: Identifier = Identifier(Some("GeneralString"));

    pub const BMP_STRING: Identifier = Identifier(Some("BMPString"));

    pub const DATE: Identifier = Identifier(Some("DATE"));

    pub const TIME_OF_DAY: Identifier = Identifier(Some("TIME_OF_DAY"));

    pub const DATE_TIME: Identifier = Identifier(Some("DATE_TIME"));

    pub const DURATION: Identifier = Identifier(Some("DURATION"));

    pub const CHOICE: Identifier = Identifier(Some("CHOICE"));

    pub const INSTANCE_OF: Identifier = Identifier(Some("INSTANCE_OF"));

    pub const IRI: Identifier = Identifier(Some("IRI"));

    pub const RELATIVE_IRI: Identifier = Identifier(Some("RELATIVE_IRI"));

    pub const SEQUENCE_OF: Identifier = Identifier(Some("SEQUENCE_OF"));

    pub const SET_OF: Identifier = Identifier(Some("SET_OF"));

    pub const UNRESTRICTED_CHARACTER_STRING: Identifier = Identifier(Some(
        "UNRESTRICTED_CHARACTER_STRING",
    ));

    /// This name, or `other` if there is none.
    pub fn or(self, other: Self) -> Self
        ensures { result ≡ (if is_some self.0 then self else other) }
    {
        match self.0 {
            Some(_) => self,
            None => other,
        }
    }

    /// The name; there has to be one.
    pub fn unwrap(self) -> &'static str
        requires { IsSome self.0 }
        ensures { self.0 ≡ Some result }
    {
        self.0.unwrap()
    }
}
