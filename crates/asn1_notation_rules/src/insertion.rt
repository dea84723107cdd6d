//! Extension insertion points (X.680 13.4, 25.1 and 52).
ghost use Rattle.std.specs.Prelude.{◌≡◌, ◌++◌, ◌||◌, IfOk};
ghost use Rattle.asn1_notation_rules.specs.Insertions.{additions_of, is_extended, later_of};

use std::alloc::{AllocError, Global};

/// The components of a SEQUENCE or SET, or the alternatives of a CHOICE, as they are written.
#[derive(Drop)]
pub struct Written<T> {
    /// Those before the first extension marker, or all.
    pub first: Vec<T>,
    /// What follows the first extension marker, if there is one.
    pub extension: Option<Extension<T>>,
}

/// What follows the first extension marker.
#[derive(Drop)]
pub struct Extension<T> {
    /// The additions, up to the second extension marker if there is one. Those in version brackets are one.
    pub additions: Vec<T>,
    /// The components after the second extension marker.
    pub later: Vec<T>,
}

/// The components or alternatives of the extension root, and the additions.
#[derive(Drop)]
pub struct Inserted<T> {
    /// Those of the root.
    pub root: Vec<T>,
    /// Whether additions may be inserted.
    pub is_extensible: bool,
    /// The additions.
    pub additions: Vec<T>,
}

/// The extension root, which is what comes before the first extension marker and then what comes after the second, and
/// the additions between them (X.680 25.1, 27.1, 29.1 and 52.1). Without a marker, EXTENSIBILITY IMPLIED puts one at
/// the end (X.680 13.4).
///
/// # Errors
///
/// Out of memory.
pub fn insert_extensions<T: Drop>(
    alloc: Global,
    written: Written<T>,
    is_implied: bool,
) -> Result<Inserted<T>, AllocError>
    ensures root { IfOk result (λ r. r.root.items ≡ written.first.items ++ later_of written) }
    ensures extensible { IfOk result (λ r. r.is_extensible ≡ (is_extended written || is_implied)) }
    ensures additions { IfOk result (λ r. r.additions.items ≡ additions_of written) }
{
    let Written { first, extension } = written;
    match extension {
        None => Ok(Inserted {
            root: first,
            is_extensible: is_implied,
            additions: Vec::new(alloc),
        }),
        Some(Extension { additions, later }) => {
            let root = joined(first, later)?;
            Ok(Inserted {
                root,
                is_extensible: true,
                additions,
            })
        }
    }
}

/// One vector after another.
fn joined<T: Drop>(first: Vec<T>, later: Vec<T>) -> Result<Vec<T>, AllocError>
    ensures { IfOk result (λ all. all.items ≡ first.items ++ later.items) }
{
    let mut all = first;
    let mut rest = later;
    all.append(&mut rest)?;
    Ok(all)
}
