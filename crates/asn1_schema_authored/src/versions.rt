//! Newer versions of types around structs and enums (X.680 52).
ghost use Rattle.asn1_schema_types.specs.Versions.{ExtendsFrom, Unfolds};
ghost use Rattle.asn1_schema_authored.specs.Shapes.{shape_type};
ghost use Rattle.asn1_schema_constructed.specs.Tables.{choice_type};

use crate::{ChoiceAlternatives, ChoiceOf, Components, Composite};
use asn1_schema_types::Extends;

/// Says that one struct is a newer version of another. Then the SEQUENCE or SET of the one extends that of the other.
/// The author of the newer version implements it.
pub trait ExtendsComponents<Old: Components>: Components {
    /// Unfolded to the same number of levels, 128 or more, the type is a newer version of the other one.
    ghost extends: { ExtendsFrom 128 (shape_type Old.shape) (shape_type Self.shape) };

    /// The older version means the same at any depth to which it is unfolded.
    ghost old_unfolds: { Unfolds (shape_type Old.shape) };

    /// So does this type.
    ghost unfolds: { Unfolds (shape_type Self.shape) };
}

impl<Old: Components, New: ExtendsComponents<Old>> Extends<Composite<Old>> for Composite<New> {
    ghost extends = { New.extends };

    ghost old_unfolds = { New.old_unfolds };

    ghost unfolds = { New.unfolds };
}

/// Says that one enum is a newer version of another. Then the CHOICE of the one extends that of the other. The author
/// of the newer version implements it.
pub trait ExtendsAlternatives<Old: ChoiceAlternatives>: ChoiceAlternatives {
    /// Unfolded to the same number of levels, 128 or more, the type is a newer version of the other one.
    ghost extends: { ExtendsFrom 128 (choice_type Old.shape.table) (choice_type Self.shape.table) };

    /// The older version means the same at any depth to which it is unfolded.
    ghost old_unfolds: { Unfolds (choice_type Old.shape.table) };

    /// So does this type.
    ghost unfolds: { Unfolds (choice_type Self.shape.table) };
}

impl<Old: ChoiceAlternatives, New: ExtendsAlternatives<Old>> Extends<ChoiceOf<Old>>
    for ChoiceOf<New> {
    ghost extends = { New.extends };

    ghost old_unfolds = { New.old_unfolds };

    ghost unfolds = { New.unfolds };
}
