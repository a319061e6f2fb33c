//! Tests of a logical unit over its public calls: each table is a text with rows of what sessions ask, and of what is answered
//! (`test_scripts`). Beside them stand the rules that stand below a unit (`rules`), registrations and reservations (`registrations`), the
//! registration file by itself (`reg_file`), and what a restart finds behind a loss of power at each call of each device (`power`,
//! `stops`).
#![tactic(auto)]

#[cfg(test)]
mod access;
#[cfg(test)]
mod calls;
#[cfg(test)]
mod ends;
#[cfg(test)]
mod failing;
#[cfg(test)]
mod fencing;
#[cfg(test)]
mod identities;
#[cfg(test)]
mod lasting;
#[cfg(test)]
mod medium;
#[cfg(test)]
mod power;
#[cfg(test)]
mod reg_file;
#[cfg(test)]
mod registrations;
#[cfg(test)]
mod rules;
#[cfg(test)]
mod run;
#[cfg(test)]
mod script;
#[cfg(test)]
mod sessions;
#[cfg(test)]
mod states;
#[cfg(test)]
mod stops;
#[cfg(test)]
mod unit_attentions;
