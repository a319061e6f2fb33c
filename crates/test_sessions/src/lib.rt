//! Tests of the session over its public calls: each table has rows of PDUs that come, and of PDUs that go out. Each key of a
//! login and PDUs by themselves stand beside them, in `negotiation` and `pdus`; those of `--once`, whose target is a unit, in `once`.
#![tactic(auto)]

#[cfg(test)]
mod answers;
#[cfg(test)]
mod batches;
#[cfg(test)]
mod command_window;
#[cfg(test)]
mod data_out_faults;
#[cfg(test)]
mod data_outs;
#[cfg(test)]
mod discovery;
#[cfg(test)]
mod ends;
#[cfg(test)]
mod first_commands;
#[cfg(test)]
mod fixed;
#[cfg(test)]
mod libiscsi;
#[cfg(test)]
mod login_faults;
#[cfg(test)]
mod login_later;
#[cfg(test)]
mod login_names;
#[cfg(test)]
mod login_others;
#[cfg(test)]
mod login_refusals;
#[cfg(test)]
mod login_requests;
#[cfg(test)]
mod login_texts;
#[cfg(test)]
mod logins;
#[cfg(test)]
mod logout;
#[cfg(test)]
mod long_write;
#[cfg(test)]
mod negotiated_reads;
#[cfg(test)]
mod negotiated_writes;
#[cfg(test)]
mod negotiation;
#[cfg(test)]
mod nop;
#[cfg(test)]
mod once;
#[cfg(test)]
mod open_iscsi;
#[cfg(test)]
mod pdus;
#[cfg(test)]
mod r2ts;
#[cfg(test)]
mod reads;
#[cfg(test)]
mod rejects;
#[cfg(test)]
mod residuals;
#[cfg(test)]
mod row;
#[cfg(test)]
mod run;
#[cfg(test)]
mod runs;
#[cfg(test)]
mod streams;
#[cfg(test)]
mod tables;
#[cfg(test)]
mod task_management;
#[cfg(test)]
mod tasks;
#[cfg(test)]
mod text;
