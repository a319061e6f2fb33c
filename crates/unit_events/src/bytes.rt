//! Bytes that come with an event.
ghost use Rattle.std.specs.Prelude.{◌≡◌, IfOk};

use scsi_types::NoMemory;
use std::alloc::Global;
use std::marker::Model;

/// The data of a command, or a list that a unit moves by. Contracts see the bytes.
#[derive(Drop)]
pub struct Bytes {
    items: Vec<u8>,
}

impl Model for Bytes {
    ghost use Rattle.std.specs.Prelude.{List, ℕ};

    ghost Value = { List ℕ };

    ghost view = { λ b. b.items.items };
}

impl Bytes {
    /// These bytes.
    pub fn new(items: Vec<u8>) -> Bytes
        ensures { result ≡ items.items }
    {
        Bytes { items }
    }

    /// The bytes.
    pub fn as_slice(&self) -> &[u8]
        ensures { result.now ≡ self.now }
    {
        &self.items
    }

    /// The same bytes once more.
    pub fn copy(&self, alloc: Global) -> Result<Bytes, NoMemory>
        ensures { IfOk result (λ copy. copy ≡ self.now) }
    {
        let Ok(items) = self.items.to_vec(alloc) else {
            return Err(NoMemory);
        };
        Ok(Bytes { items })
    }
}
