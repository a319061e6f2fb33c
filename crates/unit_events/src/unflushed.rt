//! What a unit is asked in place of a command that ends with a flush.
ghost use Rattle.std.specs.Prelude.{IfSome};
ghost use Rattle.unit_events.specs.Flushes.{IsUnflushed};

use scsi_types::{Asked, Command};

/// What a unit is asked in place of a command that ends with a flush: the same without it. A SYNCHRONIZE CACHE is a write of no block
/// at the last block of its range. None where a command has no flush, or one before it reads.
pub fn without_flush(asked: &Asked) -> Option<Asked>
    ensures { IfSome result (λ served. IsUnflushed asked.now served) }
{
    match asked {
        Ok(
            Command::Write {
                lba,
                blocks,
                fua: true,
            },
        ) => Some(Ok(Command::Write {
            lba: *lba,
            blocks: *blocks,
            fua: false,
        })),
        Ok(
            Command::CompareAndWrite {
                lba,
                blocks,
                fua: true,
            },
        ) => Some(Ok(Command::CompareAndWrite {
            lba: *lba,
            blocks: *blocks,
            fua: false,
        })),
        Ok(Command::SynchronizeCache { lba, blocks }) => {
            let last = lba.checked_add(u64::from(blocks.saturating_sub(1)))?;
            Some(Ok(Command::Write {
                lba: last,
                blocks: 0,
                fua: false,
            }))
        }
        _ => None,
    }
}
