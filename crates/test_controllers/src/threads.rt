//! Three threads that use one unit: two that write, and one that reads its row.
use crate::any_array::{Array, attached};
use crate::runs::run;
use crate::tales::Tale;
use scsi_types::{Command, Group, PrOutAction};
use std::test::Fail;
use std::thread::{Threads, join};
use test_connections::want;

/// So many commands a thread.
const TIMES: u64 = 400;

/// Whether the host registers, or gives up its registration.
fn registers<S, A: Array<S>>(array: &A, host: &mut S, key: u8) -> bool {
    let command = Command::PersistentReserveOut {
        action: PrOutAction::RegisterAndIgnoreExistingKey,
        scope: 0,
        kind: 0,
        list_length: 24,
    };
    let mut list = [0; 24];
    list[15] = key;
    array.ask(host, Group::One, command, &list).word == "good"
}

/// A host registers and gives up its registration, again and again, so that each change makes the count of registrants odd or
/// even as the generation is.
fn comes_and_goes<S, A: Array<S>>(array: &A, host: &mut S) -> bool {
    for _ in 0..TIMES {
        if !registers(array, host, 0x11) || !registers(array, host, 0) {
            return false;
        }
    }
    true
}

/// So many rows a reader takes.
const ROWS: u64 = 5000;

/// Whether no row is older than the one before, and each is whole.
fn never_older<S, A: Array<S>>(array: &A) -> bool {
    let mut last = 0;
    for _ in 0..ROWS {
        let Some(row) = array.row(0) else {
            return false;
        };
        let is_whole = row.generation % 2 == row.registrants % 2 && row.registrants <= 2;
        if row.entries < last || !is_whole {
            return false;
        }
        last = row.entries;
    }
    true
}

/// Two write, and a third reads: whether each was right.
fn are_right<W: Threads + Sync, S: Send, A: Array<S> + Sync>(
    rt: &W,
    array: &A,
    hosts: (&mut S, &mut S),
) -> bool {
    let (one, two) = hosts;
    let (first, others) = join(
        rt,
        || comes_and_goes(array, one),
        || join(rt, || comes_and_goes(array, two), || never_older(array)),
    );
    first && others.0 && others.1
}

/// Two threads write, and a third reads the board.
pub fn are_watched<W: Threads + Sync, S: Send + Drop, A: Array<S> + Sync>(
    rt: &W,
    array: &A,
) -> Result<(), Fail> {
    // Their attaches and their power on are four entries.
    let (Some(mut one), Some(mut two)) = (attached(array, 1), attached(array, 2)) else {
        return Err("two sessions".into());
    };
    let is_right = are_right(rt, array, (&mut one, &mut two));
    want(
        is_right && shows_the_last(array),
        "whole rows, none older than the one before, and the last",
    )
}

/// Whether the board shows the row behind all that both did.
fn shows_the_last<S, A: Array<S>>(array: &A) -> bool {
    match array.row(0) {
        Some(row) => {
            row.entries == 4 + 4 * TIMES && row.generation == 4 * TIMES && row.registrants == 0
        }
        None => false,
    }
}

#[test]
fn rows_are_whole_and_never_older(rt: HostRuntime) -> Result<(), Fail> {
    run(&rt, rt.alloc(), &[9], Tale::Watched)
}
