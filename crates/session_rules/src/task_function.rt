//! The functions of task management, and what they come to (RFC 7143, 11.5 and 11.6).
ghost use Rattle.std.specs.Prelude.{◌≡◌};
ghost use Rattle.session_rules.specs.Drops.{function_of};

/// The functions of task management that are told apart (RFC 7143, 11.5.1).
#[derive(Clone, Copy)]
pub enum TaskFunction {
    AbortTask,
    AbortTaskSet,
    LogicalUnitReset,
    TaskReassign,
    /// Any other, which is not supported.
    Other,
}

impl TaskFunction {
    /// The function with this code (11.5.1).
    pub fn of(code: u8) -> TaskFunction
        ensures { result ≡ function_of code }
    {
        match code {
            1 => TaskFunction::AbortTask,
            2 => TaskFunction::AbortTaskSet,
            5 => TaskFunction::LogicalUnitReset,
            8 => TaskFunction::TaskReassign,
            _ => TaskFunction::Other,
        }
    }
}

/// What a request comes to. Which commands that wait it drops is said in `specs/Drops`.
#[derive(Clone, Copy)]
pub enum ManagementOutcome {
    /// A response with this code (11.6.1).
    Respond(u8),
    /// A reset of the unit with this number, which is there.
    Reset(u8),
}
