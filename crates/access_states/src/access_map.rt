//! The access states of a unit.
ghost use Rattle.std.specs.Prelude.{◌≡◌, IsTrue, IfOk, IfErr, Ok, Err, take};
ghost use Rattle.access_states.specs.AccessMap.{group_access, has_one_owner, opening_access, owner_of};
ghost use Rattle.access_states.specs.Change.{access_after, altered_to, becomes_optimized, change_between, next_state};
ghost use Rattle.access_states.specs.Report.{report_bytes};

use crate::list::named_by;
use crate::report::report_bytes;
use crate::{AccessState, AsetFault, Cause, Change, GroupAccess};
use scsi_types::{Group, NoMemory};
use std::alloc::Global;
use std::marker::Model;

/// The access state of each of a unit's two target port groups, and what altered it last (SPC-4, 5.15.2). Just one group
/// is active/optimized: the owner.
#[derive(Clone, Copy)]
pub struct AccessMap {
    one: GroupAccess,
    two: GroupAccess,
}

impl Model for AccessMap {
    ghost use Rattle.std.specs.Prelude.{IsTrue};
    ghost use Rattle.access_states.specs.AccessMap.{AccessMapValue, just_one_optimized};

    ghost Value = { AccessMapValue };

    ghost view = { λ m. record { one = m.one; two = m.two } };

    ghost invariant = { λ m. IsTrue (just_one_optimized m.one.state m.two.state) };

    ghost inverse = { λ v. record { one = v.one; two = v.two } };
}

impl AccessMap {
    /// As a unit opens: its preferred group is active/optimized, the other active/non-optimized, and nothing has altered
    /// them.
    pub fn opening(preferred: Group) -> Self
        ensures { result ≡ opening_access preferred }
    {
        let optimized = unaltered(AccessState::ActiveOptimized);
        let other = unaltered(AccessState::ActiveNonOptimized);
        match preferred {
            Group::One => AccessMap {
                one: optimized,
                two: other,
            },
            Group::Two => AccessMap {
                one: other,
                two: optimized,
            },
        }
    }

    /// The group that is active/optimized. Of every map it is known that just one is.
    pub fn owner(&self) -> Group
        ensures owner { result ≡ owner_of self.now }
        ensures only { IsTrue (has_one_owner self.now) }
    {
        if self.one.state.is_optimized() {
            Group::One
        } else {
            Group::Two
        }
    }

    /// The access state of a group, and what altered it last.
    pub fn access(&self, group: Group) -> GroupAccess
        ensures { result ≡ group_access self.now group }
    {
        match group {
            Group::One => self.one,
            Group::Two => self.two,
        }
    }

    /// The access state of a group.
    pub fn state(&self, group: Group) -> AccessState
        ensures { result ≡ (group_access self.now group).state }
    {
        self.access(group).state
    }

    /// The access states after a list of SET TARGET PORT GROUPS (SPC-4, 6.45), altered by this cause. `list` is the whole
    /// parameter list: four reserved bytes, and four for each group.
    #[tactic(auto, unfolding(crate::specs::Change::access_after))]
    pub fn after(&self, cause: Cause, list: &[u8]) -> Result<AccessMap, AsetFault>
        ensures { result ≡ access_after cause self.now list.now }
    {
        let named = named_by(list)?;
        let next_one = next_state(self.one, named.one, self.two, named.two);
        let next_two = next_state(self.two, named.two, self.one, named.one);
        let one = altered_to(cause, self.one, next_one);
        let two = altered_to(cause, self.two, next_two);
        if one.state.is_optimized() == two.state.is_optimized() {
            return Err(AsetFault::BadList);
        }
        Ok(AccessMap { one, two })
    }

    /// What changes where these states are followed by others.
    pub fn change_to(&self, new: &AccessMap) -> Change
        ensures { result ≡ change_between self.now new.now }
    {
        let changed = [
            !self.one.state.same(new.one.state),
            !self.two.state.same(new.two.state),
        ];
        let owner = new.owner();
        Change {
            changed,
            owner: if owner == self.owner() {
                None
            } else {
                Some(owner)
            },
        }
    }

    /// Sets a list, as [`after`](Self::after) says. A list that is refused changes nothing.
    pub fn set(&mut self, cause: Cause, list: &[u8]) -> Result<Change, AsetFault>
        ensures ok { IfOk result (λ change. (access_after cause self.old list.now ≡ Ok self.new)
            × (change ≡ change_between self.old self.new)) }
        ensures err { IfErr result (λ fault. (access_after cause self.old list.now ≡ Err fault)
            × (self.new ≡ self.old)) }
    {
        let new = self.after(cause, list)?;
        let change = self.change_to(&new);
        *self = new;
        Ok(change)
    }

    /// REPORT TARGET PORT GROUPS data (SPC-4, 6.37) of a unit that prefers this group, as many bytes as `allocation`, the
    /// ALLOCATION LENGTH, lets through.
    pub fn report(
        &self,
        alloc: Global,
        preferred: Group,
        allocation: u32,
    ) -> Result<Vec<u8>, NoMemory>
        ensures { IfOk result (λ v. v.items ≡ take allocation (report_bytes preferred self.now)) }
    {
        let mut bytes = report_bytes(preferred, self.one, self.two).to_vec(alloc)?;
        bytes.truncate(allocation as usize);
        Ok(bytes)
    }
}

// A state that nothing has altered.
fn unaltered(state: AccessState) -> GroupAccess
    ensures { result ≡ record { state = state; altered = None } }
{
    GroupAccess {
        state,
        altered: None,
    }
}

// The next state of a group, where a list names the groups with these states.
fn next_state(
    own: GroupAccess,
    named: Option<AccessState>,
    other: GroupAccess,
    named_other: Option<AccessState>,
) -> AccessState
    ensures { result ≡ next_state own.state named other.state named_other }
{
    match named {
        Some(state) => state,
        None if becomes_optimized(other, named_other) => AccessState::ActiveNonOptimized,
        None => own.state,
    }
}

// Whether a group becomes active/optimized that was not.
fn becomes_optimized(old: GroupAccess, named: Option<AccessState>) -> bool
    ensures { result ≡ becomes_optimized old.state named }
{
    match named {
        Some(state) => state.is_optimized() && !old.state.is_optimized(),
        None => false,
    }
}

// The access of a group once it has this state.
fn altered_to(cause: Cause, old: GroupAccess, state: AccessState) -> GroupAccess
    ensures { result ≡ altered_to cause old state }
{
    if state.same(old.state) {
        return old;
    }
    GroupAccess {
        state,
        altered: Some(cause),
    }
}
