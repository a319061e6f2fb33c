//! Tests of the portals over the loopback: an array, its portals and its initiators in threads of one process. Each test is a
//! script of what the initiators do and are answered.
#![tactic(auto)]

#[cfg(test)]
mod clients;
#[cfg(test)]
mod discovery;
#[cfg(test)]
mod down;
#[cfg(test)]
mod ends;
#[cfg(test)]
mod failing;
#[cfg(test)]
mod fencing;
#[cfg(test)]
mod hanging;
#[cfg(test)]
mod hung;
#[cfg(test)]
mod late;
#[cfg(test)]
mod lives;
#[cfg(test)]
mod logged_ends;
#[cfg(test)]
mod logins;
#[cfg(test)]
mod medium;
#[cfg(test)]
mod restart;
#[cfg(test)]
mod scripts;
#[cfg(test)]
mod silence;
#[cfg(test)]
mod streams;
#[cfg(test)]
mod wanting;
#[cfg(test)]
mod worked;
