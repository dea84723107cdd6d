//! Newer versions of types: types that differ from the older one only after extension markers (X.680 52).
ghost use Rattle.asn1_schema_types.specs.Versions.{ExtendsFrom, Unfolds};

use crate::described::Described;

/// A newer version of a type. The roots are the same in the same positions, with the same bounds, sizes and extension
/// markers; additions, items and alternatives are appended only after extension markers; and a default is that of the
/// older version, with what was added absent or at its default.
///
/// A decoder accepts 128 nested levels. Unfolded to fewer, a nested default is cut, and what is below the cut is not
/// compared.
pub trait Extends<Old: Described>: Described {
    /// Unfolded to 128 levels or more, the type is a newer version of the other one, unfolded to the same number.
    ghost extends: { ExtendsFrom 128 Old.schema Self.schema };

    /// The older version means the same at any depth of unfolding.
    ghost old_unfolds: { Unfolds Old.schema };

    /// The type, too, means the same at any depth of unfolding.
    ghost unfolds: { Unfolds Self.schema };
}
