//! The kinds of restricted character strings with one octet per character (X.680 41).
ghost use Rattle.std.specs.Prelude.{◌≡◌, ℕ, refl};
ghost use Rattle.asn1_schema_tags.specs.Tags.{tag_of};
ghost use Rattle.asn1_schema_tags.specs.declared.tags.Class.{Class};
ghost use Rattle.asn1_schema_tags.specs.declared.tags.Tag.{Tag};

use asn1_schema_tags::{Identifier, Tag};
use asn1_values_strings::{
    CharacterKind, General, Graphic, Ia5, Numeric, Printable, Teletex, Visible,
};

/// A kind of character string with one octet per character, with its tag and its name (X.680 41).
pub trait TaggedKind: CharacterKind {
    /// The tag of its strings.
    const TAG: Tag;

    /// The same tag, as clauses name it.
    ghost TAG: { Tag };

    /// The name of its strings.
    const IDENTIFIER: Identifier;

    /// The number of the tag, which is of the universal class.
    ghost number: { ℕ };

    /// Does nothing: the items before it are data, those after it are laws (see `Described::described`).
    fn tagged(&self) {}

    /// The tag has this number.
    ghost is_universal: { tag_of TAG ≡ record { class = 0; number = number } };
}

impl TaggedKind for Numeric {
    ghost number = { 18 };

    const TAG: Tag = Tag::NUMERIC_STRING;

    ghost TAG = { record { class = Class.Universal; value = 18 } };

    const IDENTIFIER: Identifier = Identifier::NUMERIC_STRING;

    ghost is_universal = { refl };
}

impl TaggedKind for Printable {
    ghost number = { 19 };

    const TAG: Tag = Tag::PRINTABLE_STRING;

    ghost TAG = { record { class = Class.Universal; value = 19 } };

    const IDENTIFIER: Identifier = Identifier::PRINTABLE_STRING;

    ghost is_universal = { refl };
}

impl TaggedKind for Visible {
    ghost number = { 26 };

    const TAG: Tag = Tag::VISIBLE_STRING;

    ghost TAG = { record { class = Class.Universal; value = 26 } };

    const IDENTIFIER: Identifier = Identifier::VISIBLE_STRING;

    ghost is_universal = { refl };
}

impl TaggedKind for Ia5 {
    ghost number = { 22 };

    const TAG: Tag = Tag::IA5_STRING;

    ghost TAG = { record { class = Class.Universal; value = 22 } };

    const IDENTIFIER: Identifier = Identifier::IA5_STRING;

    ghost is_universal = { refl };
}

impl TaggedKind for General {
    ghost number = { 27 };

    const TAG: Tag = Tag::GENERAL_STRING;

    ghost TAG = { record { class = Class.Universal; value = 27 } };

    const IDENTIFIER: Identifier = Identifier::GENERAL_STRING;

    ghost is_universal = { refl };
}

impl TaggedKind for Graphic {
    ghost number = { 25 };

    const TAG: Tag = Tag::GRAPHIC_STRING;

    ghost TAG = { record { class = Class.Universal; value = 25 } };

    const IDENTIFIER: Identifier = Identifier::GRAPHIC_STRING;

    ghost is_universal = { refl };
}

impl TaggedKind for Teletex {
    ghost number = { 20 };

    const TAG: Tag = Tag::TELETEX_STRING;

    ghost TAG = { record { class = Class.Universal; value = 20 } };

    const IDENTIFIER: Identifier = Identifier::TELETEX_STRING;

    ghost is_universal = { refl };
}
