//! The calls on a device that rows of scripts make (`rows`).
use crate::rows::Row;
use crate::runs::{reads, writes};
use block_file::Blocks;
use std::alloc::Global;

// The run that a row reads or writes: the first block, and the bytes that fill its blocks.
fn run_of(alloc: Global, row: &Row) -> Option<(u32, Vec<u8>)> {
    Some((row.block()?, row.bytes(alloc)?))
}

/// Makes the call of a row on a device: whether that was done. None: it spells no block, or no bytes.
pub fn is_done_on<B: Blocks>(alloc: Global, blocks: &mut B, row: &Row) -> Option<bool> {
    match row.word {
        "read" => {
            let (first, bytes) = run_of(alloc, row)?;
            Some(reads(blocks, first, &bytes))
        }
        "write" => {
            let (first, bytes) = run_of(alloc, row)?;
            Some(writes(blocks, first, &bytes))
        }
        "flush" => Some(blocks.flush().is_ok()),
        _ => {
            let count = row.block()?;
            Some(blocks.count() == count)
        }
    }
}
