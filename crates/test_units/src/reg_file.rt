//! The registration file over its public calls.

mod bytes;
mod files;
mod records;
mod refusals;
mod saves;
