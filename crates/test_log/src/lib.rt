//! Tests of what an array tells, which need no disk: the lines of the log and the thread that writes them, what is counted and what is
//! kept of it, the words of the command line, and the texts of faults.
#![tactic(auto)]

#[cfg(test)]
mod counted;
#[cfg(test)]
mod ends;
#[cfg(test)]
mod log_lines;
#[cfg(test)]
mod log_writer;
#[cfg(test)]
mod recent;
#[cfg(test)]
mod strangers;
#[cfg(test)]
mod words;
