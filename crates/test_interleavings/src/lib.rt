//! Tests of what happens in some order or other: of the pure world, of two units in memory, where each table has rows of what happens,
//! what the sessions hear of it, how many entries the units then have, and where the sessions' commands are; and of one unit that threads
//! share, what its sessions have seen, and what readers find on its board (`readers`).
#![tactic(auto)]

#[cfg(test)]
mod ends;
#[cfg(test)]
mod full;
#[cfg(test)]
mod late;
#[cfg(test)]
mod moves;
#[cfg(test)]
mod readers;
#[cfg(test)]
mod run;
#[cfg(test)]
mod sessions;
#[cfg(test)]
mod worlds;
