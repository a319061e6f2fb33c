//! The answers to the text of a Text request.
use crate::ends::must;
use crate::row::named_texts;
use crate::run::portal;
use login::{SessionType, TextEnd, send_targets};
use std::alloc::Global;
use std::process::Abort;
use std::test::*;
use test_connections::bytes_of;

/// A name, the session's kind, a text, and the answer to it, both spelled as a PDU's data segment.
type Row = (&'static str, SessionType, &'static str, &'static str);

fn rows() -> &'static [Row] {
    &[
        (
            "all, in a discovery session",
            SessionType::Discovery,
            r#""SendTargets=All\0""#,
            "THE_TARGET",
        ),
        (
            "all, in a normal session",
            SessionType::Normal,
            r#""SendTargets=All\0""#,
            r#""SendTargets=Reject\0""#,
        ),
        (
            "the target's name",
            SessionType::Normal,
            r#""SendTargets=iqn.2000-01.test:array\0""#,
            "THE_TARGET",
        ),
        (
            "the target's name, in a discovery session",
            SessionType::Discovery,
            r#""SendTargets=iqn.2000-01.test:array\0""#,
            "THE_TARGET",
        ),
        (
            "the session's target",
            SessionType::Normal,
            r#""SendTargets=\0""#,
            "THE_TARGET",
        ),
        (
            "another target",
            SessionType::Discovery,
            r#""SendTargets=iqn.2000-01.test:other\0""#,
            "",
        ),
        (
            "other keys",
            SessionType::Normal,
            r#""MaxBurstLength=512\0X-a=1\0SendTargets=all\0""#,
            r#""MaxBurstLength=Reject\0X-a=NotUnderstood\0""#,
        ),
        ("nothing", SessionType::Normal, "", ""),
    ]
}

fn check(rt: &impl Abort, alloc: Global, (name, kind, text, want): Row) {
    let text = bytes_of(alloc, named_texts(), text).expect(rt, name);
    let want = bytes_of(alloc, named_texts(), want).expect(rt, name);
    let target = b"iqn.2000-01.test:array";
    let first = [portal(3260)];
    let second = [portal(3264)];
    let end = send_targets(alloc, target, kind, &first, &second, &text);
    must(rt, answers(&end, &want), name, &"another answer");
}

fn answers(end: &TextEnd, want: &[u8]) -> bool {
    matches!(end, TextEnd::Answer(answer) if answer.as_slice() == want)
}

#[test]
fn texts(rt: HostRuntime) {
    for row in rows() {
        check(&rt, rt.alloc(), *row);
    }
}
