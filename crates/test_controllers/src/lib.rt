//! Tests of units that threads share; of a desk and a lane; and of units that move between the controllers of an array, by SET TARGET
//! PORT GROUPS, by the array itself, and as a controller goes down. What happens stands in scripts, and in tales of what several
//! threads do.
#![tactic(auto)]

#[cfg(test)]
mod any_array;
#[cfg(test)]
mod ends;
#[cfg(test)]
mod lanes;
#[cfg(test)]
mod moves;
#[cfg(test)]
mod runs;
#[cfg(test)]
mod script;
#[cfg(test)]
mod shared;
#[cfg(test)]
mod stage;
#[cfg(test)]
mod tales;
#[cfg(test)]
mod threads;
#[cfg(test)]
mod waiting;
