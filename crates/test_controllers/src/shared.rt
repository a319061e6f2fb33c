//! The product's units behind what tests see of an array. Its calls are made here, once for all tests.
ghost use Rattle.std.specs.Prelude.{◌<◌, ◌≤◌, IfSome, length};
ghost use Rattle.unit_history.specs.Naming.{IsNamed};

use crate::any_array::{Array, End, ended, number_of, sense_number};
use crate::tales::{Tale, happens};
use access_states::AsetFault;
use array_units::Units;
use block_file::{BLOCK_LENGTH, Blocks, MemBlocks, Opener, ReplyMemory};
use disk_preparer::BlockMemory;
use failover::{Mover, set_groups, take_down};
use forwarding::{Desk, DeskFault, Ticket};
use scsi_types::{Command, Group, PortName, Reply, Status};
use status::Row;
use std::alloc::Global;
use std::process::Abort;
use std::sync::Wait;
use std::test::Fail;
use std::thread::Threads;
use unit_history::{NewUnit, Opened, Pass, Refused};
use unit_sequence::ArrayNaming;
use unit_state::MoveFault;

fn end_of(reply: &Reply) -> End {
    match (reply.status(), reply.sense()) {
        (Status::Good, _) => ended("good"),
        (Status::ReservationConflict, _) => ended("conflict"),
        (_, Some(sense)) => End {
            word: "check",
            number: sense_number(sense.key, sense.asc, sense.ascq),
        },
        (_, None) => ended("nobody"),
    }
}

fn end_by(why: Refused<Group>) -> End {
    match why {
        Refused::Gone => ended("gone"),
        Refused::Moved(owner) => End {
            word: "moved",
            number: number_of(owner),
        },
        Refused::NoMemory => ended("memory"),
    }
}

fn end_at(fault: DeskFault) -> End {
    match fault {
        DeskFault::Full => ended("full"),
        DeskFault::Closed => ended("closed"),
        DeskFault::NoMemory => ended("memory"),
    }
}

// Why a unit stays.
fn stays(why: MoveFault) -> &'static str {
    match why {
        MoveFault::List(AsetFault::Length) => "length",
        MoveFault::List(AsetFault::BadList) => "list",
        MoveFault::OpenFailed => "unopened",
        MoveFault::Gone => "gone",
    }
}

/// Units that threads share, whose registration files lie in memory, and the desk of their first controller.
#[derive(Drop)]
struct Shared<W: Wait + Drop, B: Blocks, O: Opener<B>, N: ArrayNaming<Opened>> {
    rt: W,
    alloc: Global,
    units: Units<B, MemBlocks, O, N>,
    desk: Desk<B, MemBlocks, O, N>,
}

/// Memory that is handed in with a command has room for so many bytes.
const ROOM: usize = 4096;

// Memory that is handed in for a block.
fn room(alloc: Global) -> ReplyMemory {
    let mut bytes = Vec::with_capacity(alloc, ROOM).unwrap_or(Vec::new(alloc));
    let _ = bytes.resize(BLOCK_LENGTH, 0);
    ReplyMemory::with(alloc, BlockMemory::fresh(bytes))
}

/// The session of a host at one of them: its pass, the ticket of its command that waits at the desk, and the data of the last reply.
#[derive(Drop)]
struct Host<B: Blocks, O: Opener<B>, N: ArrayNaming<Opened>> {
    pass: Option<Pass<B, MemBlocks, O, N>>,
    ticket: Option<Ticket<'static, B, MemBlocks, O, N>>,
    data: Vec<u8>,
}

impl<B: Blocks, O: Opener<B>, N: ArrayNaming<Opened>> Host<B, O, N> {
    // Keeps the pass, and the reply, which is told in short.
    fn keep(&mut self, pass: Pass<B, MemBlocks, O, N>, end: Result<Reply, Refused<Group>>) -> End {
        self.pass = Some(pass);
        match end {
            Ok(reply) => {
                let end = end_of(&reply);
                self.data = reply.into_bytes();
                end
            }
            Err(why) => {
                self.data.clear();
                end_by(why)
            }
        }
    }
}

impl<W: Wait + Drop, B: Blocks, O: Opener<B>, N: ArrayNaming<Opened>> Shared<W, B, O, N> {
    // Takes the pass of a host, where it has one, of a unit that there is.
    fn pass_of(&self, host: &mut Host<B, O, N>) -> Option<Pass<B, MemBlocks, O, N>>
        ensures { IfSome result (λ pass. pass.place < self.now.units) }
    {
        let pass = host.pass.take()?;
        if pass.place() < self.units.count() {
            Some(pass)
        } else {
            None
        }
    }
}

impl<W: Wait + Drop, B: Blocks, O: Opener<B>, N: ArrayNaming<Opened>> Array<Host<B, O, N>>
    for Shared<W, B, O, N> {
    fn attach(&self, place: usize, isid: u32, group: Group) -> Option<Host<B, O, N>> {
        if place >= self.units.count() {
            return None;
        }
        let name = b"iqn.2000-01.test:a".to_vec(self.alloc).ok()?;
        let port = PortName::new(name, u64::from(isid))?;
        let pass = self.units.attach(&self.rt, place, port, group).ok()?;
        Some(Host {
            pass: Some(pass),
            ticket: None,
            data: Vec::new(self.alloc),
        })
    }

    fn ask(
        &self,
        host: &mut Host<B, O, N>,
        by_group: Group,
        command: Command,
        bytes: &[u8],
    ) -> End {
        let Some(pass) = self.pass_of(host) else {
            return ended("nobody");
        };
        let (units, room) = (&self.units, ReplyMemory::new(self.alloc));
        let (pass, end) = units.serve(&self.rt, pass, room, &by_group, &Ok(command), bytes);
        host.keep(pass, end)
    }

    fn ask_at_desk(&self, host: &mut Host<B, O, N>, command: Command, bytes: &[u8]) -> End {
        let Some(pass) = self.pass_of(host) else {
            return ended("nobody");
        };
        let (units, room) = (&self.units, ReplyMemory::new(self.alloc));
        let (pass, end) = self
            .desk
            .serve(&self.rt, room, units, pass, &Ok(command), bytes);
        match end {
            Ok(end) => host.keep(pass, end),
            Err(fault) => {
                host.pass = Some(pass);
                end_at(fault)
            }
        }
    }

    fn hand_in(&self, host: &mut Host<B, O, N>, command: Command, bytes: &'static [u8]) -> End {
        let Some(pass) = host.pass.take() else {
            return ended("nobody");
        };
        match self
            .desk
            .submit(&self.rt, room(self.alloc), pass, &Ok(command), bytes)
        {
            Ok(ticket) => {
                host.ticket = Some(ticket);
                ended("waits")
            }
            Err((fault, pass, _)) => {
                host.pass = Some(pass);
                end_at(fault)
            }
        }
    }

    fn collect(&self, host: &mut Host<B, O, N>) -> End {
        let Some(ticket) = host.ticket.take() else {
            return ended("nobody");
        };
        let (pass, end) = self.desk.collect(&self.rt, ticket);
        host.keep(pass, end)
    }

    fn serve_own(&self, host: &mut Host<B, O, N>) -> End {
        let units = &self.units;
        let Some(ticket) = host.ticket.take() else {
            return ended("nobody");
        };
        if ticket.place() >= units.count() {
            return ended("nobody");
        }
        let (pass, end) = self.desk.serve_own(&self.rt, units, ticket);
        host.keep(pass, end)
    }

    fn data<'s>(&self, host: &'s Host<B, O, N>) -> &'s [u8] {
        &host.data
    }

    fn is_kept(&self, host: &Host<B, O, N>) -> bool {
        host.data.capacity() >= ROOM
    }

    fn reset(&self, host: &mut Host<B, O, N>) -> bool {
        let Some(pass) = self.pass_of(host) else {
            return false;
        };
        let (pass, is_done) = self.units.reset(&self.rt, pass);
        host.pass = Some(pass);
        is_done
    }

    fn retire(&self, host: &mut Host<B, O, N>) -> bool {
        let Some(pass) = self.pass_of(host) else {
            return false;
        };
        self.units.retire(&self.rt, pass).is_ok()
    }

    fn row(&self, place: usize) -> Option<Row> {
        if place >= self.units.count() {
            return None;
        }
        Some(self.units.read(&self.rt, place))
    }

    fn move_by(&self, place: usize, list: &[u8]) -> End {
        if place >= self.units.count() {
            return ended("nobody");
        }
        let (_seen, came) = set_groups(&self.rt, &self.units, place, list);
        match came {
            Ok(_) => ended("done"),
            Err(why) => ended(stays(why)),
        }
    }

    fn take_down(&self, group: Group) -> End {
        let mut mover = Mover::new(&self.units);
        match take_down(&self.rt, &mut mover, group) {
            Ok(()) => ended("done"),
            Err(stopped) => End {
                word: stays(stopped.why),
                number: stopped.unit as u64,
            },
        }
    }

    fn serve_first(&self) -> End {
        let Some(job) = self.desk.take(&self.rt) else {
            return ended("no-job");
        };
        let unit = job.place();
        if unit < self.units.count() {
            let answer = job.serve(&self.rt, &self.units);
            self.desk.post(&self.rt, answer);
        }
        End {
            word: "job",
            number: unit as u64,
        }
    }

    fn serve_next(&self) -> bool {
        self.desk.serve_next(&self.rt, &self.units)
    }

    fn close(&self) {
        self.desk.close(&self.rt);
    }
}

/// Shares these units, and tells a tale of them.
pub fn tell<
    N: ArrayNaming<Opened> + Send + Sync,
    B: Blocks + Send + Sync,
    O: Opener<B> + Send + Sync,
    W: Threads + Wait + Abort + Clone + Send + Sync + Drop,
>(rt: &W, alloc: Global, new: Vec<NewUnit<B, MemBlocks, O>>, tale: Tale<'_>) -> Result<(), Fail>
    requires named { IsNamed N.book N.table N.opening B.contents new.items }
    requires count { length new.items ≤ 8 }
{
    let shared: Shared<W, B, O, N> = Shared {
        rt: rt.clone().expect(rt, "memory"),
        alloc,
        units: Units::new(rt, alloc, new).expect(rt, "memory"),
        desk: Desk::new(alloc, Group::One).expect(rt, "memory"),
    };
    happens::<W, Host<B, O, N>, Shared<W, B, O, N>>(rt, alloc, &shared, tale)
}
