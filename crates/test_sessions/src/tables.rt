//! The tables whose rows are served alike, a few in a test. Those of a module are what its function returns: a constant is written
//! out at each step of a function that names it, where that is proved.
use crate::run::{run, run_form};
use crate::tables::Table::{Alike, OneUnit, Rows};
use crate::{
    answers, command_window, data_out_faults, data_outs, discovery, first_commands, libiscsi,
    login_faults, login_later, login_names, login_others, login_refusals, login_requests,
    login_texts, logins, logout, long_write, negotiated_reads, negotiated_writes, nop, once,
    open_iscsi, r2ts, reads, rejects, residuals, runs, task_management, tasks, text,
};
use std::alloc::Global;
use std::process::Abort;
use std::test::*;

/// A table by its name.
#[derive(Clone, Copy)]
pub enum Table {
    /// These rows, with empty lines between.
    Rows(&'static str, &'static str),
    /// Rows of a form, and of each the line that fills it (`filled`), whose first part is the name.
    Alike(&'static str, &'static str, &'static str),
    /// Rows that are served over a unit.
    OneUnit(&'static str, &'static str),
}

// Serves each row of these tables.
fn run_all<R: Abort>(rt: &R, alloc: Global, tables: &[Table]) {
    for table in tables {
        match *table {
            Rows(name, rows) => run(rt, alloc, name, rows),
            Alike(name, form, rows) => run_form(rt, alloc, name, form, rows),
            OneUnit(name, rows) => once::run::run(rt, alloc, name, rows),
        }
    }
}

#[test]
fn what_initiators_ask_first(rt: HostRuntime) {
    let alloc = rt.alloc();
    run_all(&rt, alloc, discovery::tables());
    run_all(&rt, alloc, first_commands::tables());
    run_all(&rt, alloc, libiscsi::tables());
}

#[test]
fn logins_of_one_request_and_of_several(rt: HostRuntime) {
    let alloc = rt.alloc();
    run_all(&rt, alloc, logins::tables());
    run_all(&rt, alloc, login_requests::tables());
    run_all(&rt, alloc, open_iscsi::tables());
}

#[test]
fn later_requests_of_a_login(rt: HostRuntime) {
    let alloc = rt.alloc();
    run_all(&rt, alloc, login_later::tables());
}

#[test]
fn names_in_a_login(rt: HostRuntime) {
    let alloc = rt.alloc();
    run_all(&rt, alloc, login_names::tables());
    run_all(&rt, alloc, login_texts::tables());
}

#[test]
fn logins_that_are_refused_or_end(rt: HostRuntime) {
    let alloc = rt.alloc();
    run_all(&rt, alloc, login_faults::tables());
    run_all(&rt, alloc, login_others::tables());
    run_all(&rt, alloc, login_refusals::tables());
}

#[test]
fn lengths_that_were_negotiated(rt: HostRuntime) {
    let alloc = rt.alloc();
    run_all(&rt, alloc, negotiated_reads::tables());
    run_all(&rt, alloc, negotiated_writes::tables());
}

#[test]
fn data_in_and_out(rt: HostRuntime) {
    let alloc = rt.alloc();
    run_all(&rt, alloc, data_outs::tables());
    run_all(&rt, alloc, r2ts::tables());
    run_all(&rt, alloc, long_write::tables());
    run_all(&rt, alloc, reads::tables());
    run_all(&rt, alloc, runs::tables());
    run_all(&rt, alloc, data_out_faults::tables());
}

#[test]
fn answers_and_rejects(rt: HostRuntime) {
    let alloc = rt.alloc();
    run_all(&rt, alloc, answers::tables());
    run_all(&rt, alloc, logout::tables());
    run_all(&rt, alloc, nop::tables());
    run_all(&rt, alloc, rejects::tables());
    run_all(&rt, alloc, residuals::tables());
}

#[test]
fn sessions_with_tasks(rt: HostRuntime) {
    let alloc = rt.alloc();
    run_all(&rt, alloc, task_management::tables());
    run_all(&rt, alloc, tasks::tables());
}

#[test]
fn text_and_the_window(rt: HostRuntime) {
    let alloc = rt.alloc();
    run_all(&rt, alloc, text::tables());
    run_all(&rt, alloc, command_window::tables());
}

#[test]
fn sessions_of_one_unit(rt: HostRuntime) {
    let alloc = rt.alloc();
    run_all(&rt, alloc, once::examples::tables());
    run_all(&rt, alloc, once::first_questions::tables());
    run_all(&rt, alloc, once::luns::tables());
    run_all(&rt, alloc, once::medium::tables());
}
