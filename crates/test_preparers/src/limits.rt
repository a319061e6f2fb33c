//! How much the kernel lets programs write, by what its files say, and that these are looked at now and then.
use crate::ends::must;
use file_preparer::{KernelFiles, KernelLimits};
use std::alloc::Global;
use std::fs::File;
use std::io::Write;
use std::process;
use std::process::Abort;
use std::rt::Files;
use test_disks::{clean, folder, path_of};

/// What the files say: how many KiB of memory are available, the limit in bytes and as hundredths of that memory, and both of where
/// the kernel begins to write.
type Texts = [&'static str; 5];

/// So many microseconds old is what they say at most.
const AGE: u64 = 10_000_000;

const MEMORY: &str =
    "MemTotal:       16000000 kB\nMemFree:         123456 kB\nMemAvailable:    8388608 kB\nBuffers: 1 kB\n";

const HUNDREDTHS: Texts = [MEMORY, "0\n", "20\n", "0\n", "10\n"];

const BYTES: Texts = [MEMORY, "268435456\n", "0\n", "134217728\n", "0\n"];

// The files of a test.
#[derive(Drop)]
struct Said {
    paths: [String; 5],
}

impl Said {
    fn new(rt: &impl Abort, alloc: Global, folder: &str) -> Said {
        Said {
            paths: [
                "memory",
                "limit",
                "limit_ratio",
                "background",
                "background_ratio",
            ]
            .map(|name| path_of(alloc, folder, name).expect(rt, "memory")),
        }
    }

    // They say this from now on.
    fn say<R: Files<File = File> + Abort>(&self, rt: &R, texts: &Texts) {
        for (path, text) in self.paths.iter().zip(texts) {
            let mut file = File::create(rt, path.as_str()).expect(rt, "a file");
            file.write_all(text.as_bytes()).expect(rt, "a text");
        }
    }

    fn names(&self) -> KernelFiles<'_> {
        KernelFiles {
            memory: self.paths[0].as_str(),
            limit: self.paths[1].as_str(),
            limit_ratio: self.paths[2].as_str(),
            background: self.paths[3].as_str(),
            background_ratio: self.paths[4].as_str(),
        }
    }
}

// The middle between where the kernel begins to write and its limit, where no program waits yet. Of 8 GiB, a hundredth is 85899345.
#[test]
fn the_middle_of_both_limits_is_free(rt: HostRuntime) {
    let folder = folder(&rt, process::id(rt.process()), "limits").expect(&rt, "a folder");
    let said = Said::new(&rt, rt.alloc(), folder.as_str());
    let rows: [(Texts, u64); 7] = [
        (HUNDREDTHS, 1_288_490_175),
        (BYTES, 201_326_592),
        // As the kernel does, where it would begin behind its limit: at half of that.
        (
            [MEMORY, "268435456\n", "0\n", "536870912\n", "0\n"],
            201_326_592,
        ),
        ([MEMORY, "268435456\n", "20\n", "0\n", "1\n"], 177_167_400),
        // What is not said is not guessed by parts.
        (["", "0\n", "20\n", "0\n", "10\n"], 268_435_456),
        ([MEMORY, "", "", "", ""], 268_435_456),
        (
            ["MemTotal: 1 kB\n", "0\n", "20\n", "0\n", "10\n"],
            268_435_456,
        ),
    ];
    for (texts, wanted) in &rows {
        said.say(&rt, texts);
        let files = said.names();
        let free = KernelLimits::new(&rt, &files, 0).free(&rt, &files, 0);
        must(&rt, free == *wanted, "bytes", &(texts, free));
    }
    clean(&rt, folder.as_str()).expect(&rt, "a folder");
}

#[test]
fn limits_that_change_are_seen_in_ten_seconds(rt: HostRuntime) {
    let folder = folder(&rt, process::id(rt.process()), "later").expect(&rt, "a folder");
    let said = Said::new(&rt, rt.alloc(), folder.as_str());
    said.say(&rt, &HUNDREDTHS);
    let files = said.names();
    let limits = KernelLimits::new(&rt, &files, 5);
    said.say(&rt, &BYTES);
    let before = limits.free(&rt, &files, 5 + AGE - 1);
    let behind = limits.free(&rt, &files, 5 + AGE);
    said.say(&rt, &HUNDREDTHS);
    let later = (
        limits.free(&rt, &files, 4 + 2 * AGE),
        limits.free(&rt, &files, 5 + 2 * AGE),
    );
    let seen = (before, behind, later);
    let wanted = (1_288_490_175, 201_326_592, (201_326_592, 1_288_490_175));
    must(&rt, seen == wanted, "bytes", &seen);
    clean(&rt, folder.as_str()).expect(&rt, "a folder");
}
