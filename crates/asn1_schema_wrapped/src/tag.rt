//! A type for each tag that X.680 itself defines (X.680 8.4), and for those of the other classes: the first parameter
//! of [`crate::Implicit`] and [`crate::Explicit`]. A marker is itself a type: NULL (X.680 24) with its tag. Any other
//! type is a marker too, of its tag.
ghost use Rattle.std.specs.Prelude.{refl, [], ◌∷◌};
ghost use Rattle.asn1_model.specs.Value.{nothing};
ghost use Rattle.asn1_model.specs.Schema.{null};
ghost use Rattle.asn1_schema_constraints.specs.Terms.{no_constraint};
ghost use Rattle.asn1_schema_laws.proofs.TypesByKind.{null_type, null_value};

use asn1_schema_constraints::Constraints;
use asn1_schema_tags::{Class, Identifier, Tag, TagTree};
use asn1_schema_types::{AsnType, Described};

/// The universal tag of this number.
#[derive(Clone, Copy, Debug, PartialEq, Eq)]
pub struct Universal<const NUMBER: u32>;

impl<const NUMBER: u32> Described for Universal<NUMBER> {
    ghost tags = { record { class = 0; number = NUMBER } ∷ [] };

    ghost own = { no_constraint };

    ghost under = { λ _ _. null };

    ghost schema = { λ _. null };

    ghost is_own = { λ _. refl };

    ghost meaning = { λ _. nothing };

    ghost typed = { null_type refl };

    ghost valued = { λ _. null_value };

    ghost valued_under = { λ _ _. null_value };
}

impl<const NUMBER: u32> AsnType for Universal<NUMBER> {
    const TAG: Tag = Tag {
        class: Class::Universal,
        value: NUMBER,
    };

    const IDENTIFIER: Identifier = Identifier::NULL;

    const IS_CHOICE: bool = false;

    fn tag_tree() -> TagTree<'static> {
        TagTree::of(Tag {
            class: Class::Universal,
            value: NUMBER,
        })
    }

    fn constraints() -> Constraints<'static> {
        Constraints::NONE
    }
}

/// The application tag of this number.
#[derive(Clone, Copy, Debug, PartialEq, Eq)]
pub struct Application<const NUMBER: u32>;

impl<const NUMBER: u32> Described for Application<NUMBER> {
    ghost tags = { record { class = 1; number = NUMBER } ∷ [] };

    ghost own = { no_constraint };

    ghost under = { λ _ _. null };

    ghost schema = { λ _. null };

    ghost is_own = { λ _. refl };

    ghost meaning = { λ _. nothing };

    ghost typed = { null_type refl };

    ghost valued = { λ _. null_value };

    ghost valued_under = { λ _ _. null_value };
}

impl<const NUMBER: u32> AsnType for Application<NUMBER> {
    const TAG: Tag = Tag {
        class: Class::Application,
        value: NUMBER,
    };

    const IDENTIFIER: Identifier = Identifier::NULL;

    const IS_CHOICE: bool = false;

    fn tag_tree() -> TagTree<'static> {
        TagTree::of(Tag {
            class: Class::Application,
            value: NUMBER,
        })
    }

    fn constraints() -> Constraints<'static> {
        Constraints::NONE
    }
}

/// The context-specific tag of this number.
#[derive(Clone, Copy, Debug, PartialEq, Eq)]
pub struct Context<const NUMBER: u32>;

impl<const NUMBER: u32> Described for Context<NUMBER> {
    ghost tags = { record { class = 2; number = NUMBER } ∷ [] };

    ghost own = { no_constraint };

    ghost under = { λ _ _. null };

    ghost schema = { λ _. null };

    ghost is_own = { λ _. refl };

    ghost meaning = { λ _. nothing };

    ghost typed = { null_type refl };

    ghost valued = { λ _. null_value };

    ghost valued_under = { λ _ _. null_value };
}

impl<const NUMBER: u32> AsnType for Context<NUMBER> {
    const TAG: Tag = Tag {
        class: Class::Context,
        value: NUMBER,
    };

    const IDENTIFIER: Identifier = Identifier::NULL;

    const IS_CHOICE: bool = false;

    fn tag_tree() -> TagTree<'static> {
        TagTree::of(Tag {
            class: Class::Context,
            value: NUMBER,
        })
    }

    fn constraints() -> Constraints<'static> {
        Constraints::NONE
    }
}

/// The private tag of this number.
#[derive(Clone, Copy, Debug, PartialEq, Eq)]
pub struct Private<const NUMBER: u32>;

impl<const NUMBER: u32> Described for Private<NUMBER> {
    ghost tags = { record { class = 3; number = NUMBER } ∷ [] };

    ghost own = { no_constraint };

    ghost under = { λ _ _. null };

    ghost schema = { λ _. null };

    ghost is_own = { λ _. refl };

    ghost meaning = { λ _. nothing };

    ghost typed = { null_type refl };

    ghost valued = { λ _. null_value };

    ghost valued_under = { λ _ _. null_value };
}

impl<const NUMBER: u32> AsnType for Private<NUMBER> {
    const TAG: Tag = Tag {
        class: Class::Private,
        value: NUMBER,
    };

    const IDENTIFIER: Identifier = Identifier::NULL;

    const IS_CHOICE: bool = false;

    fn tag_tree() -> TagTree<'static> {
        TagTree::of(Tag {
            class: Class::Private,
            value: NUMBER,
        })
    }

    fn constraints() -> Constraints<'static> {
        Constraints::NONE
    }
}

pub type EOC = Universal<0>;

pub type BOOL = Universal<1>;

pub type INTEGER = Universal<2>;

pub type BIT_STRING = Universal<3>;

pub type OCTET_STRING = Universal<4>;

pub type NULL = Universal<5>;

pub type OBJECT_IDENTIFIER = Universal<6>;

pub type OBJECT_DESCRIPTOR = Universal<7>;

pub type EXTERNAL = Universal<8>;

pub type REAL = Universal<9>;

pub type ENUMERATED = Universal<10>;

pub type EMBEDDED_PDV = Universal<11>;

pub type UTF8_STRING = Universal<12>;

pub type RELATIVE_OID = Universal<13>;

pub type TIME = Universal<14>;

pub type SEQUENCE = Universal<16>;

pub type SET = Universal<17>;

pub type NUMERIC_STRING = Universal<18>;

pub type PRINTABLE_STRING = Universal<19>;

pub type TELETEX_STRING = Universal<20>;

pub type VIDEOTEX_STRING = Universal<21>;

pub type IA5_STRING = Universal<22>;

pub type UTC_TIME = Universal<23>;

pub type GENERALIZED_TIME = Universal<24>;

pub type GRAPHIC_STRING = Universal<25>;

pub type VISIBLE_STRING = Universal<26>;

pub type GENERAL_STRING = Universal<27>;

pub type UNIVERSAL_STRING = Universal<28>;

pub type CHARACTER_STRING = Universal<29>;

pub type BMP_STRING = Universal<30>;

pub type DATE = Universal<31>;

pub type TIME_OF_DAY = Universal<32>;

pub type DATE_TIME = Universal<33>;

pub type DURATION = Universal<34>;
