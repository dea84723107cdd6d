//! The call that makes an `Iter`.
ghost use Rattle.std.specs.Prelude.{◌≡◌, IfOk};

use crate::Decode;
use crate::front::FrontReader;
use crate::values::Iter;
use std::alloc::{AllocError, Global};

/// The values of the messages that follow one another in octets, read by a reader.
///
/// # Errors
///
/// If memory runs out.
pub fn iter<T: Decode, R: FrontReader<T> + Drop>(
    alloc: Global,
    reader: R,
    input: &[u8],
) -> Result<Iter<T, R>, AllocError>
    ensures { IfOk result (λ values. values ≡ input.now) }
{
    Iter::new(alloc, reader, input)
}
