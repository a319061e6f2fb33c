//! How the command is served that a job is known by.
ghost use Rattle.std.specs.Prelude.{◌≡◌, ◌<◌, MatchBool};
ghost use Rattle.forwarding.specs.Names.{names_of};
ghost use Rattle.forwarding.specs.Served.{HasAnsweredJob, handed};
ghost use Rattle.unit_entries.specs.Devices.{devices};

use array_units::Units;
use block_file::{Blocks, Opener, ReplyMemory};
use desk_jobs::Names;
use scsi_types::{Asked, Group, Reply};
use std::sync::Wait;
use unit_history::{Opened, Pass, Refused};
use unit_sequence::ArrayNaming;

/// What a command of the session with this pass is known by at the desk of a group.
pub(crate) fn named<B: Blocks, F: Blocks, O: Opener<B>, N: ArrayNaming<Opened>>(
    pass: &Pass<B, F, O, N>,
    asked: &Asked,
    by_group: Group,
) -> Names
    ensures { result ≡ names_of pass.now asked.now by_group }
{
    Names {
        place: pass.place(),
        session: pass.session(),
        serial: pass.serial(),
        by_group,
        asked: *asked,
    }
}

/// Whether they are of the next command of the session with this pass.
pub(crate) fn are_of<B: Blocks, F: Blocks, O: Opener<B>, N: ArrayNaming<Opened>>(
    names: &Names,
    pass: &Pass<B, F, O, N>,
) -> bool
    ensures { MatchBool result (names_of pass.now names.now.asked names.now.by_group ≡ names.now) (Unit {0}) }
{
    names.place == pass.place() && names.session == pass.session() && names.serial == pass.serial()
}

/// Serves the command, with its session's pass and the data that came for it, as [`Units::serve`].
pub(crate) fn serve_named<B: Blocks, F: Blocks, O: Opener<B>, N: ArrayNaming<Opened>, W: Wait>(
    names: &Names,
    rt: &W,
    room: ReplyMemory,
    units: &Units<B, F, O, N>,
    pass: Pass<B, F, O, N>,
    bytes: &[u8],
) -> (Pass<B, F, O, N>, Result<Reply, Refused<Group>>)
    requires own { names_of pass names.now.asked names.now.by_group ≡ names.now }
    requires place { names.now.place < units.now }
    ensures place { result.0.place ≡ names.now.place }
    ensures end { HasAnsweredJob (devices B.Blocks F.Blocks O.Opener) (N.opening names.now.place)
        (handed names.now bytes.now pass.pass.seen) result.0.pass result.1 }
{
    units.serve(rt, pass, room, &names.by_group, &names.asked, bytes)
}
