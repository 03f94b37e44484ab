// Memory that is kept for the next block.

use std::alloc::Global;

// Nearly the largest block that the C library's allocator ever keeps.
const BLOCK: usize = 33_546_240;

/// Has the allocator keep large blocks that are given back. By itself the C library gives each block of 128 kB or more back to the
/// kernel at once, which clears the pages of the next one again as they are touched; but it keeps those that are no larger than the
/// largest that it gave back so. A job has some ten blocks of the size of its files. Nothing but time depends on it.
pub fn keep_blocks(alloc: Global) {
    let block: Result<Vec<u8>, _> = Vec::with_capacity(alloc, BLOCK);
    drop(block);
}
