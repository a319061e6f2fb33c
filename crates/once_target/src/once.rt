//! One session over one unit, from a stream of bytes to a stream of bytes.
ghost use Rattle.std.specs.Prelude.{◌≡◌, ◌<◌, IfOk, OnErr};
ghost use Rattle.session_rules.specs.declared.end.End.TheVariants.{InputFailed, OutputFailed};
ghost use Rattle.session_rules.specs.Setting.{setting_of};
ghost use Rattle.session.specs.Transcript.{IsFailureOf};
ghost use Rattle.once_target.specs.Once.{IsOnce, from_one};

use crate::target::OneUnit;
use block_file::{Blocks, MemBlocks};
use login::SessionType;
use scsi_types::NoMemory;
use session::{End, Lengths, Opening, Sink, Source, Start, TargetRecord, serve_stream};
use std::alloc::Global;

/// Serves one session in full feature phase, of initiator `iqn.2000-01.test:host` with ISID 0 through group 1, over
/// one unit with these blocks, one at least, which tells this of itself. CmdSN 1 is expected first, StatSN 1 is used first,
/// and the lengths are those where none are negotiated. Answers the session's end, the device, and that of the registration
/// file. Refused for want of memory, it has read, written and changed nothing.
pub fn once<S: Source, K: Sink, B: Blocks>(
    alloc: Global,
    source: &mut S,
    sink: &mut K,
    blocks: B,
    me: &TargetRecord<'_>,
) -> Result<(End, B, MemBlocks), NoMemory>
    requires { 0 < B.size blocks }
    ensures served { IfOk result (λ r. IsOnce (setting_of 1 me.now SessionType.Normal from_one)
        B.Blocks ⟦<MemBlocks as Blocks>⟧ (record {
          left = S.left source.old;
          left_after = S.left source.new;
          held = K.held sink.old;
          held_after = K.held sink.new;
        }) blocks r.0 r.1 r.2) }
    ensures input_failed { IfOk result (λ r.
        IsFailureOf InputFailed (S.failures source.old) (S.failures source.new) r.0) }
    ensures output_failed { IfOk result (λ r.
        IsFailureOf OutputFailed (K.failures sink.old) (K.failures sink.new) r.0) }
    ensures no_memory { OnErr result ((source.new ≡ source.old) × (sink.new ≡ sink.old)) }
{
    let mut target = OneUnit::over(alloc, blocks)?;
    let start = Start {
        exp_cmd_sn: 1,
        stat_sn: 1,
        lengths: Lengths::defaults(),
    };
    let opening = Opening::FullFeature(SessionType::Normal, start);
    let end = serve_stream(alloc, source, sink, &mut target, opening, me)?;
    let (device, registrations) = target.close();
    Ok((end, device, registrations))
}
