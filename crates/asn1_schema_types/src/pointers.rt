//! Values held by pointers.
use crate::described::{AsnType, Described};
use asn1_schema_constraints::Constraints;
use asn1_schema_tags::{Identifier, Tag, TagTree};

impl<T: Described> Described for Box<T> {
    ghost tags = { T.tags };

    ghost own = { T.own };

    ghost under = { T.under };

    ghost schema = { T.schema };

    ghost is_own = { T.is_own };

    ghost meaning = { λ b. T.meaning b.value };

    ghost typed = { T.typed };

    ghost valued = { λ b. T.valued b.value };

    ghost valued_under = { λ c b. T.valued_under c b.value };
}

impl<T: AsnType> AsnType for Box<T> {
    const TAG: Tag = T::TAG;

    const IDENTIFIER: Identifier = T::IDENTIFIER;

    const IS_CHOICE: bool = T::IS_CHOICE;

    fn tag_tree() -> TagTree<'static> {
        T::tag_tree()
    }

    fn constraints() -> Constraints<'static> {
        T::constraints()
    }
}
