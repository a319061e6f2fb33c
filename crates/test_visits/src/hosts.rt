//! What hosts do at an array, and are answered. A script has a line for each PDU: `> PDU` is sent, and `< PDU` comes.
//! `test_connections` says how a PDU is spelled.
use crate::site::{PORTALS, Site};
use std::alloc::Global;
use std::net::{Net, SocketAddrV4, TcpListener, TcpStream};
use std::test::Fail;
use test_connections::{Host, host_texts, is_text, lines_of, pdu_of, want, want_at};

// Sends what a line spells, or compares it with what comes.
fn obey(alloc: Global, host: &mut Host, line: &str) -> Result<(), Fail> {
    let (verb, spelling) = line.split_once(' ').ok_or("a line")?;
    let mut pdu = pdu_of(alloc, host_texts(), spelling)?;
    if verb == ">" {
        return host.send(pdu.as_mut_slice());
    }
    want(verb == "<", "a verb")?;
    let came = host.receive(alloc)?;
    let is_answer = host.is_answer(came.as_slice(), pdu.as_mut_slice());
    want_at(is_answer, line, &came)
}

/// A host does what the lines of a script say.
pub fn perform(alloc: Global, host: &mut Host, script: &str) -> Result<(), Fail> {
    let lines = lines_of(alloc, script)?;
    want(!lines.is_empty(), "a script has lines")?;
    for line in &lines {
        obey(alloc, host, line)?;
    }
    Ok(())
}

/// A host connects to a portal, and does what the lines of a script say.
pub fn come<R: Net<Listener = TcpListener, Stream = TcpStream>>(
    rt: &R,
    alloc: Global,
    portal: SocketAddrV4,
    script: &str,
) -> Result<Host, Fail> {
    let mut host = Host::connect(rt, portal)?;
    perform(alloc, &mut host, script)?;
    Ok(host)
}

// What an initiator finds at the portals of a discovery session.
const DISCOVERY: &str = r#"
> LOGIN 7:37 FINDS
< LOGGED_IN 7:1F "MaxRecvDataSegmentLength=65536\0"
> TEXT_REQUEST 7:10 "SendTargets=All\0"
"#;

// What initiators are told of the target: its portals, each with the tag of its group (RFC 7143, appendix C).
fn told(alloc: Global, site: &Site<'_>) -> Result<String, Fail> {
    let mut text = String::new(alloc);
    text.push_str("TargetName=iqn.2000-01.test:array\0")?;
    for controller in 1..3u16 {
        for portal in 0..PORTALS {
            let address = site.portal(controller, portal);
            write!(text, "TargetAddress={address},{controller}\0")?;
        }
    }
    Ok(text)
}

/// An initiator finds all portals, each with its group, by the last of controller 2.
pub fn finds<R: Net<Listener = TcpListener, Stream = TcpStream>>(
    rt: &R,
    alloc: Global,
    site: &Site<'_>,
) -> Result<(), Fail> {
    let mut host = come(rt, alloc, site.portal(2, PORTALS - 1), DISCOVERY)?;
    let wanted = told(alloc, site)?;
    let came = host.receive(alloc)?;
    let is_told = is_text(came.as_slice(), wanted.as_bytes());
    want_at(is_told, "what is told", &came)
}
