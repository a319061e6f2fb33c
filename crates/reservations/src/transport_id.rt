//! The TransportID of an iSCSI initiator port.
ghost use Rattle.std.specs.Prelude.{◌≡◌, ◌<◌, ◌++◌, IfOk, OnOk};
ghost use Rattle.std.specs.List.{flat_map};
ghost use Rattle.reservations.specs.Reading.{digit, padded, port_text, transport_id, two_digits};

use crate::Nexus;
use std::alloc::{AllocError, Global};

/// The TransportID of the port of a nexus (SPC-4, 7.6.4.6).
#[tactic(auto, unfolding(crate::specs::Reading::transport_id))]
pub fn transport_id(alloc: Global, nexus: &Nexus) -> Result<Vec<u8>, AllocError>
    ensures { IfOk result (λ v. v.items ≡ transport_id nexus.now.port) }
{
    let mut text = port_text(alloc, nexus)?;
    pad(&mut text)?;
    let length = (text.len() as u64).to_be_bytes();
    let mut id = Vec::new(alloc);
    id.extend_from_slice(&[0x45, 0x00])?;
    id.extend_from_slice(&length[6..])?;
    id.extend_from_slice(&text)?;
    Ok(id)
}

// The port's name.
#[tactic(auto, unfolding(crate::specs::Reading::port_text))]
fn port_text(alloc: Global, nexus: &Nexus) -> Result<Vec<u8>, AllocError>
    ensures { IfOk result (λ v. v.items ≡ port_text nexus.now.port) }
{
    let isid = nexus.isid().to_be_bytes();
    let mut text = Vec::from_slice(alloc, nexus.name())?;
    text.extend_from_slice(b",i,0x")?;
    push_digits(&mut text, &isid[2..])?;
    text.push(0)?;
    Ok(text)
}

// Zeros to a multiple of 4 bytes.
#[tactic(auto, unfolding(crate::specs::Reading::padded))]
fn pad(text: &mut Vec<u8>) -> Result<(), AllocError>
    ensures { OnOk result (text.new.items ≡ padded text.old.items) }
{
    let zeros = [0; 3];
    let short = (4 - text.len() % 4) % 4;
    text.extend_from_slice(&zeros[..short])?;
    Ok(())
}

// The bytes as hexadecimal digits.
fn push_digits(text: &mut Vec<u8>, bytes: &[u8]) -> Result<(), AllocError>
    ensures { OnOk result (text.new.items ≡ text.old.items ++ flat_map two_digits bytes.now) }
{
    for b in bytes {
        text.push(digit(*b / 16))?;
        text.push(digit(*b % 16))?;
    }
    Ok(())
}

// A hexadecimal digit.
fn digit(value: u8) -> u8
    requires { value < 16 }
    ensures { result ≡ digit value }
{
    if value < 10 {
        0x30 + value
    } else {
        0x57 + value
    }
}
