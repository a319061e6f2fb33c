//! What tells one command on its way to a desk from another.
ghost use Rattle.std.specs.Prelude.{◌≡◌, MatchBool};

use scsi_types::{Asked, CdbFault, Command, Group};

/// What a job is known by, beside its data: the place of its unit, the session there, the serial of the command, the group whose
/// desk has the job, and the command.
#[derive(Clone, Copy)]
pub struct Names {
    pub place: usize,
    pub session: u64,
    pub serial: u64,
    pub by_group: Group,
    pub asked: Asked,
}

fn is_same_command(one: &Command, other: &Command) -> bool
    ensures { MatchBool result (one.now ≡ other.now) (Unit {0}) }
{
    one == other
}

fn is_same_fault(one: &CdbFault, other: &CdbFault) -> bool
    ensures { MatchBool result (one.now ≡ other.now) (Unit {0}) }
{
    one == other
}

fn is_same_asked(one: &Asked, other: &Asked) -> bool
    ensures { MatchBool result (one.now ≡ other.now) (Unit {0}) }
{
    match (one, other) {
        (Ok(one), Ok(other)) => is_same_command(one, other),
        (Err(one), Err(other)) => is_same_fault(one, other),
        _ => false,
    }
}

fn is_same_group(one: Group, other: Group) -> bool
    ensures { MatchBool result (one ≡ other) (Unit {0}) }
{
    one == other
}

impl Names {
    /// Whether these are the same.
    pub fn is_same(&self, other: &Names) -> bool
        ensures { MatchBool result (self.now ≡ other.now) (Unit {0}) }
    {
        self.place == other.place
            && self.session == other.session
            && self.serial == other.serial
            && is_same_group(self.by_group, other.by_group)
            && is_same_asked(&self.asked, &other.asked)
    }
}
