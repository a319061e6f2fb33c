//! The words of the command line, and the texts of the faults.
use crate::ends::{must, must_read};
use command_line::{Fault, Options, WordsFault, read};
use std::alloc::Global;
use std::net::{Ipv4Addr, SocketAddrV4};
use std::process::Abort;
use std::test::*;

// The words of a line, each as a string of its own: they stand between bars. A line of nothing has none.
fn words_of(rt: &impl Abort, alloc: Global, line: &str) -> Vec<String> {
    let mut words = Vec::new(alloc);
    if !line.is_empty() {
        for word in line.split('|') {
            let word = word.to_string(alloc).expect(rt, "memory");
            words.push(word).expect(rt, "memory");
        }
    }
    words
}

// What options ask for, as a line.
fn told(rt: &impl Abort, alloc: Global, options: &Options<'_>) -> String {
    let mut line = format!(in alloc;
        "{} {} {} {} {} {}",
        options.is_once, options.target, options.array, options.host, options.port, options.portals
    )
    .expect(rt, "memory");
    for path in &options.paths {
        write!(line, " {path}").expect(rt, "memory");
    }
    line
}

// Words that are obeyed, behind the program's name, and what they ask for: whether one session is served, the target, the number
// of the array, the host, the port, how many portals, and the files.
fn obeyed() -> &'static str {
    "arrayd|a = false iqn.2000-01.test:array 1 127.0.0.1 3260 1 a
arrayd|--once = true iqn.2000-01.test:array 1 127.0.0.1 3260 1
arrayd|--once|--array|7 = true iqn.2000-01.test:array 7 127.0.0.1 3260 1
arrayd|--target|iqn.2020-02.a:b|a = false iqn.2020-02.a:b 1 127.0.0.1 3260 1 a
arrayd|--target=x|a = false x 1 127.0.0.1 3260 1 a
arrayd|--array|0|a = false iqn.2000-01.test:array 0 127.0.0.1 3260 1 a
arrayd|--array|4294967295|a = false iqn.2000-01.test:array 4294967295 127.0.0.1 3260 1 a
arrayd|--array|007|a = false iqn.2000-01.test:array 7 127.0.0.1 3260 1 a
arrayd|--host|0.0.0.0|a = false iqn.2000-01.test:array 1 0.0.0.0 3260 1 a
arrayd|a|--host=255.10.9.199 = false iqn.2000-01.test:array 1 255.10.9.199 3260 1 a
arrayd|--port|1|a = false iqn.2000-01.test:array 1 127.0.0.1 1 1 a
arrayd|--port=65528|a = false iqn.2000-01.test:array 1 127.0.0.1 65528 1 a
arrayd|--portals|4|a = false iqn.2000-01.test:array 1 127.0.0.1 3260 4 a
arrayd|a|--portals|2|b = false iqn.2000-01.test:array 1 127.0.0.1 3260 2 a b
arrayd|--|--once|b = false iqn.2000-01.test:array 1 127.0.0.1 3260 1 --once b
arrayd|1|2|3|4|5|6|7|8 = false iqn.2000-01.test:array 1 127.0.0.1 3260 1 1 2 3 4 5 6 7 8"
}

#[test]
fn words_that_are_obeyed(rt: HostRuntime) {
    let alloc = rt.alloc();
    must(&rt, !obeyed().is_empty(), "words", &"a table has rows");
    for line in obeyed().lines() {
        let (words, wanted) = line.split_once(" = ").expect(&rt, line);
        let words = words_of(&rt, alloc, words);
        let options = read(alloc, words.as_slice()).expect(&rt, line);
        let told = told(&rt, alloc, &options);
        must(&rt, told.as_str() == wanted, line, &told);
    }
}

// Whether these words are refused as wrong ones.
fn are_wrong(alloc: Global, words: &[String]) -> bool {
    matches!(read(alloc, words), Err(WordsFault::Wrong))
}

// Words that are wrong. The first line has none.
fn wrong() -> &'static str {
    "
arrayd
arrayd|--port|3260
arrayd|1|2|3|4|5|6|7|8|9
arrayd|--once|a
arrayd|a|--once
arrayd|--once|--|a
arrayd|--once|--once
arrayd|--onc
arrayd|--once=true
arrayd|--help
arrayd|-h
arrayd|--version
arrayd|-V
arrayd|--size|4|a
arrayd|-p|3260|a
arrayd|--port|3260|--port|3260|a
arrayd|--target
arrayd|--target||a
arrayd|--target=|a
arrayd|--array|-1|a
arrayd|--array|4294967296|a
arrayd|--array|0x10|a
arrayd|--array|1_0|a
arrayd|--array||a
arrayd|--array| 1|a
arrayd|--host|localhost|a
arrayd|--host|::1|a
arrayd|--host|127.0.0.256|a
arrayd|--host|127.0.0|a
arrayd|--host|127.0.0.1.|a
arrayd|--host|127.0.0.01|a
arrayd|--host|00.0.0.0|a
arrayd|--host|+1.0.0.0|a
arrayd|--host| 1.0.0.0|a
arrayd|--host||a
arrayd|--once|--host|localhost
arrayd|--once|--port|0
arrayd|--port|0|a
arrayd|--port|65529|a
arrayd|--port|65536|a
arrayd|--port|-3260|a
arrayd|--port|0xCBC|a
arrayd|--port|3260.0|a
arrayd|--portals|0|a
arrayd|--portals|5|a
arrayd|--portals|two|a"
}

#[test]
fn wrong_words(rt: HostRuntime) {
    must(&rt, !wrong().is_empty(), "words", &"a table has rows");
    for line in wrong().lines() {
        let words = words_of(&rt, rt.alloc(), line);
        must(&rt, are_wrong(rt.alloc(), &words), line, &"obeyed");
    }
}

// Words with a target's name of so many bytes.
fn named(rt: &impl Abort, alloc: Global, len: usize) -> Vec<String> {
    let mut line = String::new(alloc);
    line.push_str("arrayd|a|--target=").expect(rt, "memory");
    for _ in 0..len {
        line.push('n').expect(rt, "memory");
    }
    words_of(rt, alloc, line.as_str())
}

#[test]
fn length_of_a_name(rt: HostRuntime) {
    let alloc = rt.alloc();
    let longest = named(&rt, alloc, 196);
    let options = read(alloc, longest.as_slice()).expect(&rt, "options");
    must(
        &rt,
        options.target.len() == 196,
        "the longest",
        &options.target,
    );
    let longer = named(&rt, alloc, 197);
    let is_refused = are_wrong(alloc, &longer);
    must(&rt, is_refused, "one that is longer", &longer);
}

#[test]
fn texts_of_the_faults(rt: HostRuntime) {
    let at = SocketAddrV4::new(Ipv4Addr::new(10, 0, 5, 1), 3260);
    let rows = [
        (Fault::WrongWords, "wrong words"),
        (
            Fault::OtherUnit(0, 1, 3, 7),
            "unit 0 of array 1 is unit 3 of array 7",
        ),
        (
            Fault::CannotUseUnit(0, "it is not there", 2),
            "cannot use unit 0: it is not there, errno 2",
        ),
        (
            Fault::CannotUseRegistrationFile(7, "it is of another version", 0),
            "cannot use registration file 7: it is of another version",
        ),
        (
            Fault::CannotListen(1, 0, at, 98),
            "cannot listen at controller 1 portal 0: 10.0.5.1:3260, errno 98",
        ),
        (
            Fault::CannotListen(2, 3, at, 0),
            "cannot listen at controller 2 portal 3: 10.0.5.1:3260",
        ),
        (
            Fault::CannotListenAt(at, 13),
            "cannot listen at 10.0.5.1:3260: errno 13",
        ),
        (
            Fault::CannotControl(98),
            "cannot make the control socket: errno 98",
        ),
        (Fault::NoMemory, "no memory"),
        (Fault::NotFlushed(7), "unit 7 was not flushed"),
    ];
    for (fault, text) in &rows {
        let said = fault.to_string(rt.alloc()).expect(&rt, "memory");
        must_read(&rt, said.as_str(), text);
    }
}
