//! The entries of a slot.
ghost use Rattle.std.specs.Prelude.{◌≡◌, ◌≤◌, ◌∷◌, [], length, IfNone, IfSome, Some};
ghost use Rattle.aptpl_format.specs.Format.{covers, entries_of, has_pair, is_pair, place_of};

use crate::FileVersion;
use registrants::{Nexus, Registrant};
use scsi_types::Group;

/// How many entries a slot has room for.
pub const MOST_ENTRIES: usize = 64;

/// The holder's place where no holder is named.
pub const NO_HOLDER: u8 = 0xFF;

/// An entry of a slot: a registrant; or, where it is of both groups, that one, which is through group 1, and the nexus of
/// its port through group 2, which is registered with the same key.
#[derive(Drop)]
pub struct Entry {
    pub registrant: Registrant,
    pub both: bool,
}

// Whether these are the two nexuses of one port, with one key.
fn is_pair(x: &Registrant, y: &Registrant) -> bool
    ensures { result ≡ is_pair x.now y.now }
{
    x.nexus.group() == Group::One
        && y.nexus.group() == Group::Two
        && x.nexus.isid() == y.nexus.isid()
        && x.nexus.name() == y.nexus.name()
        && x.key == y.key
}

// Whether the version has one entry for these.
fn has_pair(version: FileVersion, x: &Registrant, y: &Registrant) -> bool
    ensures { result ≡ has_pair version x.now y.now }
{
    match version {
        FileVersion::Version1 => false,
        FileVersion::Version2 => is_pair(x, y),
    }
}

/// The first entry of registrants: its registrant, whether it is of both groups, and the registrants behind it.
pub fn first_entry<'a>(
    version: FileVersion,
    registrants: &'a [Registrant],
) -> Option<(&'a Registrant, bool, &'a [Registrant])>
    ensures none { IfNone result (registrants.now ≡ []) }
    ensures some { IfSome result (λ first. entries_of version registrants.now
        ≡ record { registrant = first.0.now; both = first.1 } ∷ entries_of version first.2.now) }
{
    let (x, rest) = registrants.split_first()?;
    let Some((y, behind)) = rest.split_first() else {
        return Some((x, false, rest));
    };
    if has_pair(version, x, y) {
        return Some((x, true, behind));
    }
    Some((x, false, rest))
}

/// How many entries registrants have.
pub fn entry_count(version: FileVersion, registrants: &[Registrant]) -> usize
    requires { length registrants.now ≤ 64 }
    ensures count { result ≡ length (entries_of version registrants.now) }
    ensures few { result ≤ 64 }
{
    let mut rest = registrants;
    let mut count = 0;
    for _k in 0..MOST_ENTRIES {
        if let Some((_, _, behind)) = first_entry(version, rest) {
            rest = behind;
            count += 1;
        }
    }
    count
}

// Whether an entry covers a nexus.
fn covers(x: &Registrant, both: bool, nexus: &Nexus) -> bool
    ensures { result ≡ covers nexus.now (record { registrant = x.now; both = both }) }
{
    if both {
        x.nexus.isid() == nexus.isid() && x.nexus.name() == nexus.name()
    } else {
        x.nexus.same(nexus)
    }
}

/// The place of the entry that covers a nexus.
pub fn place_of(version: FileVersion, holder: &Nexus, registrants: &[Registrant]) -> u8
    requires { length registrants.now ≤ 64 }
    ensures { result ≡ place_of version (Some holder.now) registrants.now }
{
    let mut rest = registrants;
    for k in 0..64u8 {
        let Some((x, both, behind)) = first_entry(version, rest) else {
            return NO_HOLDER;
        };
        if covers(x, both, holder) {
            return k;
        }
        rest = behind;
    }
    NO_HOLDER
}
