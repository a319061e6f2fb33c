//! Tests of what prepares a disk and flushes it: what is not flushed and who waits for that, how much the kernel lets programs write,
//! preparers that cannot prepare; and flushes of a device and beside it, where one fails or takes its time (`flushes`, `beside`). Beside
//! them stands the order in which a registration file is written and flushed (`order`). The gate of the product asks something of the
//! preparer of each disk (`prepared`), and reads blocks beside their unit (`reads_beside`). Of calls that have a deadline, which a thread
//! makes, there are those on a disk that stands still (`deadlines`), and what is read ahead (`ahead`). What such a disk is asked is seen
//! (`seen`).
#![tactic(auto)]

#[cfg(test)]
mod ahead;
#[cfg(test)]
mod backlog;
#[cfg(test)]
mod beside;
#[cfg(test)]
mod deadlines;
#[cfg(test)]
mod ends;
#[cfg(test)]
mod fake;
#[cfg(test)]
mod files;
#[cfg(test)]
mod flushes;
#[cfg(test)]
mod limits;
#[cfg(test)]
mod order;
#[cfg(test)]
mod prepared;
#[cfg(test)]
mod preparers;
#[cfg(test)]
mod reads_beside;
#[cfg(test)]
mod seen;
