//! Allocation of all memory.
use std::alloc::{AllocError, Global};

/// The maximum number of blocks.
const BLOCKS: usize = 40_000;

/// The octets from which room is left: more than come from the heap's own lists of small blocks.
const SPARE: usize = 65_536;

/// Allocates blocks of a size until one is refused.
fn take_all(alloc: Global, blocks: &mut Vec<Vec<u8>>, size: usize) {
    for _ in 0..BLOCKS {
        if blocks.len() == blocks.capacity() {
            return;
        }
        match Vec::with_capacity(alloc, size) {
            Ok(block) => {
                let _ = blocks.push(block);
            }
            Err(AllocError) => return,
        }
    }
}

/// Allocates all memory, in blocks of 2^46, 2^45 and so on to 16 octets, and then of each size of which the heap keeps
/// freed blocks. The memory is freed when the blocks are dropped.
///
/// # Errors
///
/// If there is no memory for the list of the blocks.
pub fn take_memory(alloc: Global) -> Result<Vec<Vec<u8>>, AllocError> {
    let mut blocks = Vec::with_capacity(alloc, BLOCKS)?;
    for place in 0..43u32 {
        take_all(alloc, &mut blocks, 1usize << (46 - place));
    }
    for place in 0..65usize {
        take_all(alloc, &mut blocks, 1048 - 16 * place);
    }
    Ok(blocks)
}

/// Allocates all memory except for about `room` octets.
///
/// # Errors
///
/// If there is no memory for the list of the blocks, or for the octets themselves.
pub fn take_all_but(alloc: Global, room: usize) -> Result<Vec<Vec<u8>>, AllocError> {
    let spare: Vec<u8> = Vec::with_capacity(alloc, SPARE)?;
    let mut blocks = take_memory(alloc)?;
    drop(spare);
    let rest = Vec::with_capacity(alloc, SPARE.saturating_sub(room))?;
    let _ = blocks.push(rest);
    Ok(blocks)
}

/// Whether no memory is left.
pub fn is_taken(alloc: Global) -> bool {
    Vec::<u8>::with_capacity(alloc, 1).is_err()
}
