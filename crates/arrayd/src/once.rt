//! One session from standard input to standard output.

use block_file::MemBlocks;
use command_line::Fault;
use once_target::once;
use session::{End, TargetRecord, Watched};
use std::alloc::Global;
use std::io;
use std::net::{Ipv4Addr, SocketAddrV4};

/// How many blocks the unit has.
const BLOCKS: u32 = 2048;

/// The name of the target.
const TARGET_NAME: &[u8] = b"iqn.2000-01.test:array";

// The one portal of a controller, at this port of the host itself.
fn portal(port: u16) -> [SocketAddrV4; 1] {
    [SocketAddrV4::new(Ipv4Addr::new(127, 0, 0, 1), port)]
}

/// Serves standard input to standard output over one unit in memory.
pub fn serve_once<R: Input + Print>(rt: &R, alloc: Global) -> Result<(), Fault> {
    let blocks = MemBlocks::new(alloc, BLOCKS)?;
    let mut source = Watched::new(rt.reader());
    let mut sink = Watched::new(io::writer(rt));
    let me = TargetRecord {
        target_name: TARGET_NAME,
        first: &portal(3260),
        second: &portal(3264),
    };
    let (_end, _blocks, _registrations): (End, MemBlocks, MemBlocks) = once::once(
        alloc,
        &mut source,
        &mut sink,
        blocks,
        &me,
    )?;
    Ok(())
}
