//! Tests of the one session of `--once` over its public call, from the bytes that come to the bytes that go out: each table is a
//! text with rows of PDUs.

pub mod examples;
pub mod first_questions;
pub mod luns;
pub mod medium;
pub mod run;
