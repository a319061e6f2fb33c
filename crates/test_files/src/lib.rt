//! Tests of disks that are files: over real ones, in a folder of their own each, and over one in memory.
#![tactic(auto)]

#[cfg(test)]
mod calls;
#[cfg(test)]
mod ends;
#[cfg(test)]
mod kept;
#[cfg(test)]
mod memory;
#[cfg(test)]
mod scripts;
#[cfg(test)]
mod system;
