//! Registrations that are to last.
use reservations::{PrOut, Registry};
use scsi_types::{Group, PortName, PrOutAction};
use std::alloc::Global;

/// A registry in which the port `a` is registered by this key with APTPL, through both groups or through the first.
pub fn registered(alloc: Global, key: u64, is_through_both: bool) -> Option<Registry> {
    let name = Vec::from_slice(alloc, b"iqn.2000-01.test:a").ok()?;
    let port = PortName::new(name, 0x4000_0137_0000)?;
    let request = PrOut {
        action: PrOutAction::Register,
        scope: 0,
        kind: 0,
        key: 0,
        sakey: key,
        spec_i_pt: false,
        all_tg_pt: is_through_both,
        aptpl: true,
    };
    let mut registry = Registry::new(alloc).ok()?;
    let _ = registry.out(&port, Group::One, request);
    Some(registry)
}
