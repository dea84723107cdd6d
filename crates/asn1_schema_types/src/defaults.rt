//! DEFAULT values of components (X.680 25).
ghost use Rattle.std.specs.Prelude.{◌≡◌, IfOk};
ghost use Rattle.asn1_model.specs.Value.{Value, same};
ghost use Rattle.asn1_schema_laws.specs.Typed.{IsDefault};

use crate::Described;
use std::alloc::{AllocError, Global};

/// The DEFAULT of a component of this type; implemented by a user-defined marker type.
pub trait DefaultOf<T: Described> {
    /// The default.
    ghost value: { Value };

    /// A value of the Rust type that represents the default. The only error is that memory runs out.
    fn default_value(alloc: Global) -> Result<T, AllocError>
        ensures { IfOk result (λ x. T.meaning x ≡ value) };

    /// Whether a component represents the same value as the default.
    fn is_default(component: &T) -> bool
        ensures { result ≡ same (T.meaning component.now) value };

    /// It is allowed as a default of the type.
    ghost lawful: { IsDefault T.schema value };
}
