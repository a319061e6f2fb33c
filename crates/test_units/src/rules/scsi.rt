//! What CDBs ask for.

mod cdbs;
mod commands;
mod faults;
