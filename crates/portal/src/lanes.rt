//! The lanes of a controller: the threads that serve what waits at its desk.
ghost use Rattle.std.specs.Prelude.{◌≡◌, IfOk};
ghost use Rattle.portal.specs.Lanes.{AreLanesOf};

use crate::server::Server;
use crate::stacks::Stacks;
use block_file::{Blocks, Opener};
use scsi_types::{Group, NoMemory};
use session_units::{Controllers, Gate};
use std::alloc::Global;
use std::marker::Model;
use std::sync::{Arc, Wait};
use std::thread::{Builder, Promise, PromisedHandle, Threads};
use unit_history::Opened;
use unit_sequence::ArrayNaming;

/// What a lane's thread comes to: it has served at the desk of this group.
#[derive(Clone, Copy, Drop)]
pub struct AtDesk {
    pub group: Group,
}

impl Promise<Group> for AtDesk {
    ghost use Rattle.std.specs.Prelude.{◌≡◌};

    ghost kept_by = { λ promise served. served ≡ promise.group };
}

/// A lane: its thread ends with the group at whose desk it has served.
pub type Lane = PromisedHandle<Group, AtDesk>;

// Serves what comes to the desk of a group, until it is closed and nothing waits there any more: the group of that desk.
fn lane<B: Blocks, F: Blocks, O: Opener<B>, N: ArrayNaming<Opened>, R: Wait>(
    rt: &R,
    controllers: &Controllers<B, F, O, N>,
    group: Group,
) -> Group
    ensures { result ≡ group }
{
    let desk = controllers.desk(group);
    for _ in rt.forever() {
        if !desk.serve_next(rt, controllers.units()) {
            break;
        }
    }
    desk.group()
}

/// Starts the lanes of a group's controller, as many as serve a desk. They end behind its close.
pub fn start_lanes<
    N: ArrayNaming<Opened> + Send + Sync + 'static,
    B: Blocks + Send + Sync + 'static,
    F: Blocks + Send + Sync + 'static,
    O: Opener<B> + Send + Sync + 'static,
    G: Gate + Drop + Send + Sync + 'static,
    R: Threads + Wait + Clone + Drop + Send + 'static,
    S: Stacks,
>(
    rt: &R,
    server: &Arc<Server<Controllers<B, F, O, N>, G>, Global>,
    group: Group,
    stacks: &mut S,
) -> Result<[Lane; 4], NoMemory>
    ensures { IfOk result (AreLanesOf group) }
{
    let mut start = || -> Result<Lane, NoMemory>
        ensures { IfOk result (λ lane. lane.promise.group ≡ group) }
    {
        let server = Arc::try_clone(server)?;
        let mine = rt.clone()?;
        let work = move || lane(&mine, &server.device.units, group);
        match Builder::new()
            .stack_size(stacks.next_stack())
            .spawn_with(rt, AtDesk { group }, work)
        {
            Ok(lane) => Ok(lane),
            Err(_) => Err(NoMemory),
        }
    };
    Ok([start()?, start()?, start()?, start()?])
}
