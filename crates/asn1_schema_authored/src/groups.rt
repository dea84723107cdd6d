//! Extension addition groups (X.680 25.1) around user-defined structs.
ghost use Rattle.std.specs.Prelude.{◌≡◌};
ghost use Rattle.std.proofs.Common.{◌∙◌, ap};
ghost use Rattle.asn1_model.specs.Value.{are_absent};
ghost use Rattle.asn1_schema_authored.specs.Groups.{GroupShape, shape_table};

use crate::Group;
use crate::composites::{Composite, FieldTables};

/// A struct whose fields are the components of an extension addition group (X.680 25.1).
pub trait GroupComponents: FieldTables {
    /// The components, of which there is at least one, without an extension marker.
    ghost group: { GroupShape Self };

    /// Whether none of the components is present.
    fn is_empty(&self) -> bool
        ensures { result ≡ are_absent (group.shape.root self.now) };

    /// These are the components of the struct.
    ghost same: { Self.shape ≡ group.shape };
}

impl<T: GroupComponents> Group for Composite<T> {
    ghost components = { T.group.shape.table };

    ghost parts = { λ x. T.group.shape.root x.value };

    ghost plain = { T.group.plain };

    ghost lawful = { T.group.lawful };

    ghost tidy = { T.group.tidy };

    ghost each = { λ x. T.group.each x.value };

    fn is_empty(&self) -> bool {
        self.value.is_empty()
    }

    ghost same_components = { ap shape_table T.same };

    ghost same_parts = { λ x. ap (λ s. s.root x.value) T.same };

    ghost no_others = { λ x. ap (λ s. s.added x.value) T.same ∙ T.group.no_others x.value };
}
