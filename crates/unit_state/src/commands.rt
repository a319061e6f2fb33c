//! What a command is answered.
ghost use Rattle.std.specs.Prelude.{◌≡◌, ℕ, false, IsTrue, IfOk, OnErr, Ok, None};
ghost use Rattle.block_file.specs.Failures.{Tells};
ghost use Rattle.unit_control.specs.Answer.{IsPerformed, Lasts};
ghost use Rattle.unit_control.specs.Choice.{IsFine, choice_of};
ghost use Rattle.unit_control.specs.Counts.{AreCounted, counters};
ghost use Rattle.unit_control.specs.Crash.{LeavesAmong, holds_after};
ghost use Rattle.unit_control.specs.Medium.{Fits, is_medium, work_of};
ghost use Rattle.identity.specs.SenseData.{told_sense};
ghost use Rattle.identity.specs.Table.{cut};
ghost use Rattle.scsi_types.specs.Sense.{sense_bytes};
ghost use Rattle.unit_control.specs.Entry.{described};
ghost use Rattle.scsi_types.specs.declared.command.Command.TheVariants.{PersistentReserveOut, SetTargetPortGroups};
ghost use Rattle.scsi_types.specs.declared.reservation.PrOutAction.{PrOutAction};
ghost use Rattle.unit_control.specs.Reserve.{HasList};
ghost use Rattle.unit_control.specs.Sessions.{first_pending};
ghost use Rattle.unit_control.specs.Places.{IsPlaceOf, Stays};
ghost use Rattle.unit_control.specs.Refusal.{refusal, refusal_control, request};
ghost use Rattle.unit_control.specs.State.{tell, unit_of};
ghost use Rattle.unit_state.specs.Answered.{HasLeft, HasReplied, LacksMemory, unit_over};
ghost use Rattle.unit_state.specs.Step.{MayTake, is_describing};

use crate::devices::UnitDevices;
use crate::reserve::{pr_out, reservation_data};
use crate::rules::admit;
use block_file::{BLOCK_LENGTH, Blocks, Opener, ReplyMemory};
use identity::{
    inquiry, mode_sense, read_capacity_10, read_capacity_16, report_luns, request_sense,
};
use scsi_types::{Asked, Command, NoMemory, Reply};
use std::alloc::Global;
use unit_control::groups::set_groups;
use unit_control::medium::{compare, flush, medium_reply, read, write};
use unit_control::saving::reserve;
use unit_control::{Control, Refusal, Sender};

/// Answers a command: the refusal of the first rule that applies, else what the command returns. Memory is taken for
/// the data of a reply alone, before anything changes.
pub fn answer<B: Blocks, F: Blocks, O: Opener<B>>(
    devices: &mut UnitDevices<B, F, O>,
    control: &mut Control,
    room: ReplyMemory,
    sender: Sender,
    asked: Asked,
    bytes: &[u8],
) -> Result<Reply, NoMemory>
    requires total { control.old.total ≡ B.size devices.old.device }
    requires place { IsPlaceOf control.old.sessions sender.session sender.at }
    ensures leaves { let r = request sender.session asked bytes.now in
        HasLeft B.Blocks F.Blocks O.Opener (refusal control.old r) r sender.at
        (unit_over devices.old control.old) (unit_over devices.new control.new) }
    ensures replied { let r = request sender.session asked bytes.now in
        IfOk result (HasReplied B.Blocks F.Blocks O.Opener (refusal control.old r) r
        (unit_over devices.old control.old) (unit_over devices.new control.new)) }
    ensures err { let r = request sender.session asked bytes.now in
        OnErr result (LacksMemory (refusal control.old r) r
        (unit_over devices.old control.old) (unit_over devices.new control.new)) }
{
    let command = match admit(control, sender, asked, bytes) {
        Ok(command) => command,
        Err(refusal) => {
            refuse(control, sender, refusal);
            return Ok(refusal.reply(room.alloc()));
        }
    };
    serve(devices, control, room, sender, command, bytes)
}

/// What telling a refusal changes.
fn refuse(control: &mut Control, sender: Sender, refusal: Refusal)
    requires { IsPlaceOf control.old.sessions sender.session sender.at }
    ensures told { control.new ≡ refusal_control control.old sender.session refusal }
    ensures access { control.new.access ≡ control.old.access }
    ensures lasting { control.new.lasting ≡ control.old.lasting }
    ensures stays { Stays control.old control.new sender.session sender.at }
{
    match refusal {
        Refusal::Attention(_) => control.tell(sender),
        Refusal::Conflict | Refusal::Check(_) => {}
    }
}

/// Serves a command that no rule refuses.
fn serve<B: Blocks, F: Blocks, O: Opener<B>>(
    devices: &mut UnitDevices<B, F, O>,
    control: &mut Control,
    room: ReplyMemory,
    sender: Sender,
    command: Command,
    bytes: &[u8],
) -> Result<Reply, NoMemory>
    requires fits { Fits (B.size devices.old.device) (work_of command bytes.now) }
    requires list { HasList control.old command bytes.now }
    requires place { IsPlaceOf control.old.sessions sender.session sender.at }
    ensures leaves { HasLeft B.Blocks F.Blocks O.Opener None (request sender.session (Ok command) bytes.now) sender.at
        (unit_over devices.old control.old) (unit_over devices.new control.new) }
    ensures replied { IfOk result (HasReplied B.Blocks F.Blocks O.Opener None
        (request sender.session (Ok command) bytes.now)
        (unit_over devices.old control.old) (unit_over devices.new control.new)) }
    ensures err { OnErr result (LacksMemory None (request sender.session (Ok command) bytes.now)
        (unit_over devices.old control.old) (unit_over devices.new control.new)) }
{
    match command {
        Command::SetTargetPortGroups { list_length } => Ok(set_groups(
            &mut devices.device,
            &mut devices.opener,
            control,
            room.alloc(),
            sender,
            list_length,
            bytes,
        )),
        Command::PersistentReserveOut {
            action,
            scope,
            kind,
            ..
        } => Ok(reserve(
            &mut devices.file,
            control,
            &mut devices.scratch,
            room.alloc(),
            sender,
            pr_out(action, scope, kind, bytes),
        )),
        Command::TestUnitReady
        | Command::RequestSense { .. }
        | Command::Read { .. }
        | Command::Write { .. }
        | Command::CompareAndWrite { .. }
        | Command::SynchronizeCache { .. }
        | Command::Inquiry { .. }
        | Command::ModeSense { .. }
        | Command::ReportLuns { .. }
        | Command::PersistentReserveIn { .. }
        | Command::ReportTargetPortGroups { .. }
        | Command::ReadCapacity10
        | Command::ReadCapacity16 { .. } => {
            perform(&mut devices.device, control, room, sender, command, bytes)
        }
    }
}

/// Serves a command that asks for nothing to be opened or saved.
fn perform<B: Blocks>(
    device: &mut B,
    control: &mut Control,
    room: ReplyMemory,
    sender: Sender,
    command: Command,
    bytes: &[u8],
) -> Result<Reply, NoMemory>
    requires fits { Fits (B.size device.old) (work_of command bytes.now) }
    requires no_change { (list_length : ℕ) → command ≡ SetTargetPortGroups list_length → ⊥ }
    requires no_save { (action : PrOutAction) (scope kind list_length : ℕ)
        → command ≡ PersistentReserveOut action scope kind list_length → ⊥ }
    requires place { IsPlaceOf control.old.sessions sender.session sender.at }
    ensures size { B.size device.new ≡ B.size device.old }
    ensures lasting { control.new.lasting ≡ control.old.lasting }
    ensures stays { Stays control.old control.new sender.session sender.at }
    ensures err { OnErr result ((device.new ≡ device.old) × (control.new ≡ control.old)) }
    ensures idle { is_medium (work_of command bytes.now) ≡ false → device.new ≡ device.old }
    ensures memory { OnErr result (MayTake (Ok command)) }
    ensures served { IfOk result (IsPerformed B.claims (unit_of control.old (B.contents device.old))
        (unit_of control.new (B.contents device.new)) sender.session command bytes.now) }
    ensures access { control.new.access ≡ control.old.access }
    ensures counted { (opens saves : ℕ) → IfOk result (λ reply. AreCounted
        (counters (B.reads_failed device.old) (B.writes_failed device.old) opens saves)
        (counters (B.reads_failed device.new) (B.writes_failed device.new) opens saves)
        (choice_of reply (B.contents device.new) control.new.lasting)) }
    ensures fine { IfOk result (λ reply. Tells (B.failures device.old) (B.failures device.new)
        (IsFine (choice_of reply (B.contents device.new) control.new.lasting))) }
    ensures lasts { IsTrue B.claims → IfOk result (Lasts (B.contents device.new) (B.may_hold device.new)
        (work_of command bytes.now)) }
    ensures left { IsTrue B.claims → IfOk result (λ reply. LeavesAmong B.claims_moments B.moment B.left_since B.size B.may_hold
        (holds_after (B.contents device.old) (work_of command bytes.now)
        (choice_of reply (B.contents device.new) control.new.lasting) (B.may_hold device.old)) device.old device.new) }
{
    let alloc = room.alloc();
    match command {
        Command::TestUnitReady => Ok(Reply::good(Vec::new(alloc))),
        Command::RequestSense { allocation } => {
            Ok(Reply::good(sense(control, alloc, sender, allocation)?))
        }
        Command::Read { lba, blocks, fua } => {
            let memory = room.memory(BLOCK_LENGTH * usize::from(blocks))?;
            let (end, read) = read(device, lba as u32, blocks, fua, memory);
            Ok(medium_reply(alloc, end, read))
        }
        Command::Write { lba, blocks, fua } => {
            let end = write(device, lba as u32, blocks, fua, bytes);
            Ok(medium_reply(alloc, end, Vec::new(alloc)))
        }
        Command::CompareAndWrite { lba, blocks, fua } => {
            let end = compare(device, lba as u32, blocks, fua, bytes);
            Ok(medium_reply(alloc, end, Vec::new(alloc)))
        }
        Command::SynchronizeCache { .. } => {
            let end = flush(device);
            Ok(medium_reply(alloc, end, Vec::new(alloc)))
        }
        Command::Inquiry { .. }
        | Command::ModeSense { .. }
        | Command::ReportLuns { .. }
        | Command::PersistentReserveIn { .. }
        | Command::ReportTargetPortGroups { .. }
        | Command::ReadCapacity10
        | Command::ReadCapacity16 { .. } => {
            Ok(Reply::good(describe(control, alloc, sender, command)?))
        }
        Command::PersistentReserveOut { .. } | Command::SetTargetPortGroups { .. } => {
            unreachable!()
        }
    }
}

/// The data of REQUEST SENSE: tells a session its first attention, or that there is none.
fn sense(
    control: &mut Control,
    alloc: Global,
    sender: Sender,
    allocation: u8,
) -> Result<Vec<u8>, NoMemory>
    requires { IsPlaceOf control.old.sessions sender.session sender.at }
    ensures sense { IfOk result (λ v. v.items ≡ cut allocation
        (sense_bytes (told_sense (first_pending control.old.sessions sender.session)))) }
    ensures told { IfOk result (λ v. control.new ≡ tell control.old sender.session) }
    ensures access { control.new.access ≡ control.old.access }
    ensures lasting { control.new.lasting ≡ control.old.lasting }
    ensures stays { Stays control.old control.new sender.session sender.at }
    ensures err { OnErr result (control.new ≡ control.old) }
{
    let sense = request_sense(alloc, control.first(sender), allocation)?;
    control.tell(sender);
    Ok(sense)
}

/// The data of a command that asks what the unit is, who is registered with it, or what state each group is in.
fn describe(
    control: &Control,
    alloc: Global,
    sender: Sender,
    command: Command,
) -> Result<Vec<u8>, NoMemory>
    requires { IsPlaceOf control.now.sessions sender.session sender.at }
    ensures described { IfOk result (λ v. v.items ≡ described control.now sender.session command) }
    ensures memory { OnErr result (IsTrue (is_describing command)) }
{
    match command {
        Command::Inquiry { page, allocation } => {
            inquiry(
                alloc,
                control.place(),
                control.group(sender),
                page,
                allocation,
            )
        }
        Command::ModeSense {
            header,
            control: values,
            page,
            allocation,
        } => mode_sense(alloc, header, values, page, allocation),
        Command::ReportLuns { select, allocation } => {
            report_luns(alloc, control.place(), select, allocation)
        }
        Command::PersistentReserveIn { action, allocation } => {
            reservation_data(control.registry(), action, allocation)
        }
        Command::ReportTargetPortGroups { allocation } => {
            control
                .access()
                .report(alloc, control.preferred(), allocation)
        }
        Command::ReadCapacity10 => read_capacity_10(alloc, control.total()),
        Command::ReadCapacity16 { allocation } => {
            read_capacity_16(alloc, control.total(), allocation)
        }
        Command::TestUnitReady
        | Command::RequestSense { .. }
        | Command::Read { .. }
        | Command::Write { .. }
        | Command::CompareAndWrite { .. }
        | Command::SynchronizeCache { .. }
        | Command::PersistentReserveOut { .. }
        | Command::SetTargetPortGroups { .. } => Ok(Vec::new(alloc)),
    }
}
