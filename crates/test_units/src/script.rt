//! The scripts, and what is known of them.
use crate::calls::{Call, Does, Reach, picked, put_calls, values_of};
use crash_blocks::Pick;
use std::alloc::Global;
use std::test::Fail;
use test_connections::{lines_of, want_at};
use test_scripts::{Setup, is_row, part, setup_of};

// Whether a line says what no stop looks at.
fn is_passed_over(line: &str) -> bool {
    line.starts_with("written ") || line.starts_with("numbers ") || line.starts_with("each ")
}

/// The two devices of a unit.
#[derive(Clone, Copy, PartialEq, Eq)]
pub enum Device {
    Blocks,
    Registrations,
}

/// Where the power is lost: the calls of a device come so far.
#[derive(Clone, Copy)]
pub struct Stop {
    pub of: Device,
    pub reach: Reach,
}

/// A script: its unit, its rows, and the calls that these make of each device.
///
/// It is read from a text. Its rows have two parts more: what they call of the blocks' device, and of the registration file's, whose
/// block 0, the root, has the number of the record that it leads to. Where one of these calls is a stop, a row ends as it
/// says behind the first bar, or where that call is a read, behind the second. `loses blocks 0 26` says that the power is lost at each
/// call of this device from the first on and behind the last, 26 times in all.
#[derive(Drop)]
pub struct Script<'a> {
    pub setup: Setup<'a>,
    pub rows: Vec<&'a str>,
    blocks: Vec<Call>,
    registrations: Vec<Call>,
}

impl<'a> Script<'a> {
    /// The script of this text.
    pub fn read(alloc: Global, text: &'a str) -> Result<Script<'a>, Fail> {
        let mut lines = lines_of(alloc, text)?;
        lines.retain(|line| !line.starts_with("loses "));
        let mut script = Script {
            setup: setup_of(&lines, 0)?,
            rows: Vec::new(alloc),
            blocks: Vec::new(alloc),
            registrations: Vec::new(alloc),
        };
        for line in &lines {
            if is_row(line) {
                script.add(*line)?;
            }
            let is_looked_at = *line == script.setup.script || !is_passed_over(line);
            want_at(is_looked_at, text, line)?;
        }
        Ok(script)
    }

    // Adds a row.
    fn add(&mut self, row: &'a str) -> Result<(), Fail> {
        let at = self.rows.len();
        put_calls(&mut self.blocks, at, part(row, 4))?;
        put_calls(&mut self.registrations, at, part(row, 5))?;
        self.rows.push(row)?;
        Ok(())
    }

    /// The calls of a device.
    pub fn calls(&self, of: Device) -> &[Call] {
        match of {
            Device::Blocks => &self.blocks,
            Device::Registrations => &self.registrations,
        }
    }

    // The call that fails at a stop; none where all are done.
    fn stopped(&self, stop: Stop) -> Option<Call> {
        self.calls(stop.of).get(stop.reach.calls).copied()
    }

    /// The last row that is played up to a stop, and which of its ends it has.
    pub fn last(&self, stop: Stop) -> (usize, u64) {
        match self.stopped(stop) {
            None => (usize::MAX, 0),
            Some(call) => match call.does {
                Does::Reads => (call.command, 2),
                Does::Writes { .. } | Does::Flushes | Does::Fails => (call.command, 1),
            },
        }
    }

    /// The unit whose power is lost there, and what these pick is left.
    pub fn setup(&self, stop: Stop, pick: Pick) -> Setup<'a> {
        let mut setup = self.setup;
        setup.pick = pick;
        let failing = match stop.of {
            Device::Blocks => &mut setup.faults.disk,
            Device::Registrations => &mut setup.faults.file,
        };
        failing.behind = stop.reach.calls as u64;
        failing.lands = stop.reach.landed;
        setup
    }

    // How far the calls of a device come up to a stop of this or of the other.
    fn reach(&self, of: Device, stop: Stop) -> Reach {
        if of == stop.of {
            return stop.reach;
        }
        let (last, _end) = self.last(stop);
        let mut calls = 0usize;
        for call in self.calls(of) {
            if call.command < last {
                calls = calls.wrapping_add(1);
            }
        }
        Reach { calls, landed: 0 }
    }

    /// The value that is left of a block of a device.
    pub fn left(
        &self,
        alloc: Global,
        (of, block): (Device, u32),
        stop: Stop,
        pick: Pick,
    ) -> Result<u64, Fail> {
        let values = values_of(alloc, self.calls(of), self.reach(of, stop), block)?;
        Ok(u64::from(picked(&values, block, pick).ok_or("a value")?))
    }
}
