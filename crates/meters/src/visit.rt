//! Who a session is, as it is shown.

use events::{Initiator, Path, SessionType};
use std::alloc::{AllocError, Global};
use std::time::Duration;

/// Who a session is: its initiator port, by which path it came, its TSIH, what it is for, and since when after the beginning of 1970.
#[derive(Clone, Drop)]
pub struct Visit {
    pub name: Vec<u8>,
    pub isid: u64,
    pub path: Path,
    pub tsih: u16,
    pub kind: SessionType,
    pub since: Duration,
}

impl Visit {
    /// A session of this initiator, which is for this.
    pub fn new(
        alloc: Global,
        who: Initiator<'_>,
        path: Path,
        tsih: u16,
        kind: SessionType,
        since: Duration,
    ) -> Result<Visit, AllocError> {
        Ok(Visit {
            name: who.name.to_vec(alloc)?,
            isid: who.isid,
            path,
            tsih,
            kind,
            since,
        })
    }
}
