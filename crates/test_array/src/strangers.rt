//! Who connected to the control socket before it was its owner's alone.
use crate::ends::must;
use array_administration::give_to_owner;
use std::io::Read;
use std::os::unix::fs::PermissionsExt;
use std::os::unix::net::{UnixListener, UnixStream};
use std::test::*;
use std::{fs, process};

/// What the owner alone may do.
const OWNER_ALONE: u32 = 0o600;

// Who came before is at the end of what is said; who comes later is let in.
#[test]
fn strangers_are_turned_away(rt: HostRuntime) -> Result<(), Fail> {
    let path = format!(in rt.alloc(); "arrayd_{}_strangers", process::id(rt.process()))?;
    let path = path.as_str();
    let _ = fs::remove_file(&rt, path);
    let listener = UnixListener::bind(&rt, path)?;
    let before = [
        UnixStream::connect(&rt, path)?,
        UnixStream::connect(&rt, path)?,
    ];
    give_to_owner(&rt, path, &listener)?;
    let mode = fs::metadata(&rt, path)?.permissions().mode() & 0o777;
    must(&rt, mode == OWNER_ALONE, "its mode", &mode);
    for stranger in &before {
        let mut stranger = stranger;
        let end = stranger.read(&mut [0; 1]);
        must(&rt, matches!(end, Ok(0)), "a stranger", &end.is_ok());
    }
    let _owner = UnixStream::connect(&rt, path)?;
    must(&rt, listener.accept().is_ok(), "its owner", &());
    fs::remove_file(&rt, path)?;
    Ok(())
}
