//! The records to last.
ghost use Rattle.std.specs.Prelude.{◌≡◌, ◌↔◌, IsTrue};

use reservations::{Lasting, Nexus, Registrant, Reservation};

/// What the last save left besides the record to last.
#[derive(Clone, Copy)]
pub enum LastSave {
    /// It was done: a crash leaves the record to last.
    Done,
    /// It failed before its root: a crash leaves the record to last still.
    Failed,
    /// It failed at its root: a crash leaves the record to last, or the one that was being saved.
    Undecided,
}

/// Whether both are one record.
pub fn same_record(one: &Lasting<'_>, other: &Lasting<'_>) -> bool
    ensures { IsTrue result ↔ (one.now ≡ other.now) }
{
    one.aptpl() == other.aptpl()
        && same_registrants(one.registrants(), other.registrants())
        && same_reservation(one.reservation(), other.reservation())
}

fn same_registrants(one: &[Registrant], other: &[Registrant]) -> bool
    ensures { IsTrue result ↔ (one.now ≡ other.now) }
{
    if one.len() != other.len() {
        return false;
    }
    for place in 0..one.len() {
        if !same_registrant(&one[place], &other[place]) {
            return false;
        }
    }
    true
}

fn same_registrant(one: &Registrant, other: &Registrant) -> bool
    ensures { IsTrue result ↔ (one.now ≡ other.now) }
{
    one.key == other.key && one.nexus.same(&other.nexus)
}

fn same_reservation(one: &Option<Reservation>, other: &Option<Reservation>) -> bool
    ensures { IsTrue result ↔ (one.now ≡ other.now) }
{
    match (one, other) {
        (None, None) => true,
        (Some(one), Some(other)) => {
            one.kind == other.kind && same_holder(&one.holder, &other.holder)
        }
        (None, Some(_)) | (Some(_), None) => false,
    }
}

fn same_holder(one: &Option<Nexus>, other: &Option<Nexus>) -> bool
    ensures { IsTrue result ↔ (one.now ≡ other.now) }
{
    match (one, other) {
        (None, None) => true,
        (Some(one), Some(other)) => one.same(other),
        (None, Some(_)) | (Some(_), None) => false,
    }
}
