//! Files of a test, and runs of blocks, each told by the byte that fills it.
use block_file::Blocks;
use disk_preparer::BlockMemory;
use std::alloc::{AllocError, Global};
use std::fs::{File, Files};
use std::{fs, io};

/// The folder of a test of this process, made anew in the one that the test runs in: who runs it made that for it, and takes it away
/// again, also where it fails.
pub fn folder<R: Files<File = File> + AllocGlobal>(
    rt: &R,
    process: u32,
    name: &str,
) -> io::Result<String> {
    let folder = format!(in rt.alloc(); "arrayd_{process}_{name}")?;
    let _ = fs::remove_dir_all(rt, folder.as_str());
    fs::create_dir(rt, folder.as_str())?;
    Ok(folder)
}

/// Takes the folder of a test away.
pub fn clean<R: Files<File = File> + AllocGlobal>(rt: &R, folder: &str) -> io::Result<()> {
    fs::remove_dir_all(rt, folder)
}

/// The path of a name in a folder.
pub fn path_of(alloc: Global, folder: &str, name: &str) -> Result<String, AllocError> {
    format!(in alloc; "{folder}/{name}")
}

/// Sets the length of a file, if it was opened.
pub fn sized(file: io::Result<File>, bytes: u64) -> bool {
    match file {
        Ok(file) => file.set_len(bytes).is_ok(),
        Err(_) => false,
    }
}

/// Four blocks, which these bytes fill in turn.
fn filled(bytes: &[u8]) -> [u8; 2048] {
    let mut blocks = [0xEE; 2048];
    for (block, byte) in blocks.chunks_exact_mut(512).zip(bytes) {
        block.fill(*byte);
    }
    blocks
}

/// Whether a run of blocks was read that these bytes fill.
pub fn reads<B: Blocks>(device: &mut B, first: u32, bytes: &[u8]) -> bool {
    let n = bytes.len();
    if n > 4 || first > 4 || first as usize + n > device.count() as usize {
        return false;
    }
    let mut run = [0xDD; 2048];
    let run = &mut run[..512 * n];
    device.read_run(first, run).is_ok() && filled(bytes).starts_with(run)
}

/// Whether a run of blocks that these bytes fill was written.
pub fn writes<B: Blocks>(device: &mut B, first: u32, bytes: &[u8]) -> bool {
    let n = bytes.len();
    n <= 4
        && first <= 4
        && first as usize + n <= device.count() as usize
        && device.write_run(first, &filled(bytes)[..512 * n]).is_ok()
}

/// The byte that fills a block, as the device gives it into this memory.
pub fn given<B: Blocks>(device: &mut B, block: u32, memory: BlockMemory) -> Option<u8> {
    if memory.bytes.len() != 512 || block >= device.count() {
        return None;
    }
    let bytes = device.read_into(block, memory).ok()?;
    let byte = *bytes.first()?;
    if bytes.iter().all(|other| *other == byte) {
        Some(byte)
    } else {
        None
    }
}
