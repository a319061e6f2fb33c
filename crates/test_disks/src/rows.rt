//! The rows of scripts over disks.
use std::alloc::Global;
use test_connections::bytes_of;

/// A row: the word of its call, what that is on, what comes behind, and how it is to end.
#[derive(Clone, Copy)]
pub struct Row<'a> {
    pub word: &'a str,
    pub on: &'a str,
    pub rest: &'a str,
    pub end: &'a str,
}

/// The row that a line says.
pub fn row_of(line: &str) -> Row<'_> {
    let (call, end) = line.split_once("; ").unwrap_or((line, "done"));
    let (word, rest) = call.split_once(' ').unwrap_or((call, ""));
    let (on, rest) = rest.split_once(' ').unwrap_or((rest, ""));
    Row {
        word,
        on,
        rest,
        end,
    }
}

impl Row<'_> {
    /// Whether it is a call on what is kept.
    pub fn is_on_what_is_kept(&self) -> bool {
        matches!(
            self.word,
            "read" | "write" | "flush" | "anew" | "blocks" | "save"
        )
    }

    /// The block that it is on.
    pub fn block(&self) -> Option<u32> {
        self.on.parse().ok()
    }

    /// The number behind what it is on.
    pub fn number(&self) -> Option<u64> {
        self.rest.parse().ok()
    }

    /// The bytes behind what it is on.
    pub fn bytes(&self, alloc: Global) -> Option<Vec<u8>> {
        bytes_of(alloc, &[], self.rest).ok()
    }

    /// Whether it is to end as done, or as failed.
    pub fn ends(&self, is_done: bool) -> bool {
        self.end == if is_done { "done" } else { "failed" }
    }
}
