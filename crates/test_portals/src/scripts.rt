//! The scripts of an array of units in memory, and their tests. A table is one text, with an empty line between two scripts, of each of
//! which the first line is the name.
use crate::ends::done;
use crate::{
    clients, discovery, down, fencing, hanging, late, lives, logins, medium, silence, streams,
    wanting, worked,
};
use std::net::Ipv4Addr;
use std::test::*;
use test_scenes::{Machine, Script};

/// Bytes that go out whole.
const WHOLE: usize = usize::MAX;

#[test]
fn sessions_and_controllers(rt: HostRuntime) {
    for table in &[
        fencing::scripts(),
        hanging::scripts(),
        late::scripts(),
        down::scripts(),
        wanting::scripts(),
    ] {
        done(&rt, Machine::of(&rt).run_all(*table, WHOLE));
    }
}

// An array may listen at any address, too.
#[test]
fn logins_blocks_and_bytes(rt: HostRuntime) {
    for table in &[
        discovery::scripts(),
        logins::scripts(),
        medium::scripts(),
        streams::scripts(),
    ] {
        done(&rt, Machine::of(&rt).run_all(*table, WHOLE));
    }
    let mut anywhere = Script::of(discovery::scripts());
    anywhere.host = Ipv4Addr::UNSPECIFIED;
    done(&rt, Machine::of(&rt).run(&anywhere));
}

#[test]
fn worked_examples(rt: HostRuntime) {
    done(&rt, Machine::of(&rt).run_all(worked::scripts(), WHOLE));
}

// In pieces, too, that are one byte shorter than a header segment, and in single bytes.
#[test]
fn whole_lives_and_what_hosts_in_use_send(rt: HostRuntime) {
    for piece in &[WHOLE, 47, 1] {
        done(&rt, Machine::of(&rt).run_all(lives::scripts(), *piece));
        done(&rt, Machine::of(&rt).run_all(clients::scripts(), *piece));
    }
}

// An accept fails where no connection waits.
#[test]
fn hosts_that_are_silent_and_portals_whose_accepts_fail(rt: HostRuntime) {
    let silent = Script::of(silence::script());
    done(&rt, Machine::of(&rt).run(&silent));
}
