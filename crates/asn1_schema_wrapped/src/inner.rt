//! Constraints on the components of a value (X.680 51.8).
ghost use Rattle.std.specs.Prelude.{Option, None, Result};
ghost use Rattle.asn1_schema_errors.specs.declared.CodecKind.{CodecKind};
ghost use Rattle.asn1_schema_wrapped.specs.declared.inner.InnerSubtypeConstraintError.{InnerSubtypeConstraintError};

use asn1_schema_errors::CodecKind;
use thiserror::Error;

/// The component that does not satisfy its constraint.
#[derive(Clone, Copy, Debug, PartialEq, Eq, Error)]
#[error("the component `{component}` does not satisfy its constraint")]
pub struct InnerSubtypeConstraintError {
    /// The name of the component.
    pub component: &'static str,
}

/// A type with constraints on its components (X.680 51.8).
pub trait InnerSubtypeConstraint: Sized {
    /// Relates a value, the encoding rules of what its components contain (if that is to be decoded), and the result:
    /// the value, or the component that does not satisfy its constraint.
    ghost validates: { Self → Option CodecKind → Result Self InnerSubtypeConstraintError → Type 0 };

    /// The value, if its components satisfy their constraints and, if encoding rules are given, what they contain is an
    /// encoding in these.
    ///
    /// # Errors
    ///
    /// The component that does not satisfy its constraint.
    fn validate_and_decode_containing(
        self,
        codec: Option<CodecKind>,
    ) -> Result<Self, InnerSubtypeConstraintError>
        ensures { validates self codec result };

    /// As `validate_and_decode_containing`, without decoding what the components contain.
    final fn validate_components(self) -> Result<Self, InnerSubtypeConstraintError>
        ensures { validates self None result }
    {
        self.validate_and_decode_containing(None)
    }
}
