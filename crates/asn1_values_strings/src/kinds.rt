//! The kinds of strings, each with its permitted characters.
ghost use Rattle.std.specs.Prelude.{◌≡◌, ◌<◌, ℕ, List, true};
ghost use Rattle.asn1_model.specs.Schema.{StringKind, numeric, printable, visible, ia5, general, graphic, teletex};
ghost use Rattle.asn1_values_alphabets.specs.Permitted.{permits, permits_all};
ghost use Rattle.asn1_values_strings.specs.Octets.{octet_among, ascii_among};
ghost use Rattle.asn1_model.specs.Strings.{characters_of, may_hold};
ghost use Rattle.std.specs.Prelude.{refl};
ghost use Rattle.asn1_values_alphabets.specs.declared.error.InvalidRestrictedString.{InvalidRestrictedString as Reason};
ghost use Rattle.asn1_values_alphabets.specs.declared.error.InvalidRestrictedString.TheVariants as outside;

use asn1_values_alphabets::{
    InvalidGeneralString, InvalidGraphicString, InvalidIA5String, InvalidNumericString,
    InvalidPrintableString, InvalidRestrictedString, InvalidTeletexString, InvalidVisibleString,
};

/// A kind of character string with one octet per character: which characters it permits, and its error for others.
pub trait CharacterKind: Drop {
    ghost kind: { StringKind };

    ghost refused: { ℕ → Reason };

    /// The type's name in X.680.
    const NAME: &'static str;

    /// Whether a string of this kind may hold the character (X.680 41).
    fn permits(character: u32) -> bool
        ensures { result ≡ permits kind character };

    /// The error for a character that it may not hold.
    fn refuse(character: u32) -> InvalidRestrictedString
        ensures { result ≡ refused character };

    // its characters are octets
    ghost octets: { (c : ℕ) → permits kind c ≡ true → c < 256 };

    // such a string may hold exactly the characters that the kind permits
    ghost holds: { (cs : List ℕ) → may_hold kind cs ≡ permits_all kind cs };
}

/// A kind whose characters are all ASCII.
pub trait TextKind: CharacterKind {
    ghost ascii: { (c : ℕ) → permits Self.kind c ≡ true → c < 128 };
}

/// Digits and the space.
#[derive(Debug, Drop)]
pub struct Numeric;

impl CharacterKind for Numeric {
    ghost kind = { numeric };

    ghost refused = { λ c. outside.InvalidNumericString (record { character = c }) };

    ghost octets = { octet_among (characters_of numeric) refl };

    ghost holds = { λ cs. refl };

    const NAME: &'static str = "NumericString";

    fn permits(character: u32) -> bool {
        matches!(character, 0x20 | 0x30..=0x39)
    }

    fn refuse(character: u32) -> InvalidRestrictedString {
        InvalidRestrictedString::InvalidNumericString(InvalidNumericString { character })
    }
}

/// Latin letters, digits, the space and `'()+,-./:=?`.
#[derive(Debug, Drop)]
pub struct Printable;

impl CharacterKind for Printable {
    ghost kind = { printable };

    ghost refused = { λ c. outside.InvalidPrintableString (record { character = c }) };

    ghost octets = { octet_among (characters_of printable) refl };

    ghost holds = { λ cs. refl };

    const NAME: &'static str = "PrintableString";

    fn permits(character: u32) -> bool {
        matches!(character, 0x20 | 0x27..=0x29 | 0x2B..=0x3A | 0x3D | 0x3F | 0x41..=0x5A | 0x61..=0x7A)
    }

    fn refuse(character: u32) -> InvalidRestrictedString {
        InvalidRestrictedString::InvalidPrintableString(InvalidPrintableString { character })
    }
}

/// The printing characters of ISO 646, and the space.
#[derive(Debug, Drop)]
pub struct Visible;

impl CharacterKind for Visible {
    ghost kind = { visible };

    ghost refused = { λ c. outside.InvalidVisibleString (record { character = c }) };

    ghost octets = { octet_among (characters_of visible) refl };

    ghost holds = { λ cs. refl };

    const NAME: &'static str = "VisibleString";

    fn permits(character: u32) -> bool {
        matches!(character, 0x20..=0x7E)
    }

    fn refuse(character: u32) -> InvalidRestrictedString {
        InvalidRestrictedString::InvalidVisibleString(InvalidVisibleString { character })
    }
}

/// The characters of ISO 646.
#[derive(Debug, Drop)]
pub struct Ia5;

impl CharacterKind for Ia5 {
    ghost kind = { ia5 };

    ghost refused = { λ c. outside.InvalidIA5String (record { character = c }) };

    ghost octets = { octet_among (characters_of ia5) refl };

    ghost holds = { λ cs. refl };

    const NAME: &'static str = "IA5String";

    fn permits(character: u32) -> bool {
        character <= 0x7F
    }

    fn refuse(character: u32) -> InvalidRestrictedString {
        InvalidRestrictedString::InvalidIA5String(InvalidIA5String { character })
    }
}

/// Any octets.
#[derive(Debug, Drop)]
pub struct General;

impl CharacterKind for General {
    ghost kind = { general };

    ghost refused = { λ c. outside.InvalidGeneralString (record { character = c }) };

    ghost octets = { octet_among (characters_of general) refl };

    ghost holds = { λ cs. refl };

    const NAME: &'static str = "GeneralString";

    fn permits(character: u32) -> bool {
        character <= 0xFF
    }

    fn refuse(character: u32) -> InvalidRestrictedString {
        InvalidRestrictedString::InvalidGeneralString(InvalidGeneralString { character })
    }
}

/// Any octets.
#[derive(Debug, Drop)]
pub struct Graphic;

impl CharacterKind for Graphic {
    ghost kind = { graphic };

    ghost refused = { λ c. outside.InvalidGraphicString (record { character = c }) };

    ghost octets = { octet_among (characters_of graphic) refl };

    ghost holds = { λ cs. refl };

    const NAME: &'static str = "GraphicString";

    fn permits(character: u32) -> bool {
        character <= 0xFF
    }

    fn refuse(character: u32) -> InvalidRestrictedString {
        InvalidRestrictedString::InvalidGraphicString(InvalidGraphicString { character })
    }
}

/// Any octets.
#[derive(Debug, Drop)]
pub struct Teletex;

impl CharacterKind for Teletex {
    ghost kind = { teletex };

    ghost refused = { λ c. outside.InvalidTeletexString (record { character = c }) };

    ghost octets = { octet_among (characters_of teletex) refl };

    ghost holds = { λ cs. refl };

    const NAME: &'static str = "TeletexString";

    fn permits(character: u32) -> bool {
        character <= 0xFF
    }

    fn refuse(character: u32) -> InvalidRestrictedString {
        InvalidRestrictedString::InvalidTeletexString(InvalidTeletexString { character })
    }
}

impl TextKind for Visible {
    ghost ascii = { ascii_among (characters_of visible) refl };
}

impl TextKind for Ia5 {
    ghost ascii = { ascii_among (characters_of ia5) refl };
}
