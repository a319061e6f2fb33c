//! Devices whose calls have a deadline.
ghost use Rattle.std.specs.Prelude.{◌≡◌, IfOk};
ghost use Rattle.std.specs.Arc.{arc_value};

use block_file::Opener;
use deadline::Deadlined;
use disk_files::FileDevice;
use disk_preparer::Node;
use event_log::Log;
use events::Part;
use std::alloc::Global;
use std::io::{self, ErrorKind};
use std::sync::{Arc, Wait};
use std::thread::Threads;
use std::time::{Clock, Duration};
use timed_calls::Watch;

/// A watch over a disk, of which a call may take so many seconds.
pub fn watch(alloc: Global, patience: u64, disk: Node) -> io::Result<Arc<Watch, Global>>
    ensures { IfOk result (λ watch. (arc_value watch).node ≡ disk) }
{
    let patience = Duration::from_secs(patience);
    let watch = Watch::new(patience, Log::off(), 0, Part::Disk, disk);
    Ok(Arc::new(alloc, watch)?)
}

/// Hands a device of this disk, which has a block, and what opens it anew, to a thread of its own.
pub fn timed<
    R: Threads + Wait + Clock + Clone + Drop + Send + 'static,
    B: FileDevice + Send + 'static,
    O: Opener<B> + Send + 'static,
>(
    rt: &R,
    alloc: Global,
    blocks: B,
    opener: O,
    disk: Node,
    watch: &Arc<Watch, Global>,
) -> io::Result<Deadlined<R, B, O>>
    requires disk { disk ≡ B.OnDisk.disk blocks }
    requires watched { (arc_value watch.now).node ≡ disk }
{
    if blocks.count() == 0 {
        return Err(ErrorKind::InvalidInput.into());
    }
    Deadlined::start(rt, alloc, blocks, opener, disk, watch)
}
