//! How an event is spelled.
ghost use Rattle.std.specs.Prelude.{◌≡◌, ◌∷◌, [], OnOk};
ghost use Rattle.std.specs.Fmt.{decimal};
ghost use Rattle.std.specs.String.{string_bytes};
ghost use Rattle.events.specs.Text.{by_in, cause_in, command_in, error_in, failed_in, file_in, initiator_in, joined, parts, path_in};
ghost use Rattle.events.specs.Text.{numbered_in, portal_in, sense_in, session_in, stay_in, unusable_in, why_in};
ghost use Rattle.events.specs.declared.event.Event.TheVariants as events;
ghost use Rattle.events.specs.declared.words.Why.TheVariants as whys;

use crate::event::{By, Event, Initiator, Path, Place, Reservation};
use crate::line::Piece::{Address, Hex, Name, Number, Text};
use crate::line::put;
use crate::stamp::Stamp;
use crate::words::{
    Access, Call, Cause, Operation, Part, Sense, SessionType, Stayed, Unusable, Why, error_text,
    reject_text, status_text,
};
use std::alloc::AllocError;
use std::net::SocketAddrV4;

// A word, and a number behind it.
fn counted(line: &mut String, what: &str, n: u64) -> Result<(), AllocError>
    ensures { OnOk result (string_bytes line.new ≡ joined (string_bytes line.old) (what.now ∷ decimal n ∷ [])) }
{
    put(line, &[Text(what), Number(n)])
}

fn initiator(line: &mut String, who: &Initiator<'_>) -> Result<(), AllocError>
    ensures { OnOk result (string_bytes line.new ≡ joined (string_bytes line.old) (initiator_in who.now [])) }
{
    put(
        line,
        &[
            Text(" initiator="),
            Name(who.name),
            Text(" isid=0x"),
            Hex(who.isid),
        ],
    )
}

fn path(line: &mut String, path: &Path) -> Result<(), AllocError>
    ensures { OnOk result (string_bytes line.new ≡ joined (string_bytes line.old) (path_in path.now [])) }
{
    put(
        line,
        &[
            Text(" from="),
            Address(path.from),
            Text(" portal="),
            Address(path.portal),
            Text(" tag="),
            Number(u64::from(path.tag)),
        ],
    )
}

// What an initiator did, and how it came.
fn came(line: &mut String, what: &str, who: &Initiator<'_>, by: &Path) -> Result<(), AllocError>
    ensures { OnOk result (string_bytes line.new
        ≡ joined (string_bytes line.old) (what.now ∷ initiator_in who.now (path_in by.now []))) }
{
    line.push_str(what)?;
    initiator(line, who)?;
    path(line, by)
}

fn by(line: &mut String, by: &By<'_>) -> Result<(), AllocError>
    ensures { OnOk result (string_bytes line.new ≡ joined (string_bytes line.old) (by_in by.now)) }
{
    match by {
        By::Console => line.push_str(" by=console"),
        By::Session(who) => {
            line.push_str(" by=session")?;
            initiator(line, who)
        }
    }
}

fn cause(line: &mut String, cause: Cause) -> Result<(), AllocError>
    ensures { OnOk result (string_bytes line.new ≡ joined (string_bytes line.old) (cause_in cause)) }
{
    match cause {
        Cause::Request => Ok(()),
        Cause::NoRoom(unit) => counted(line, " lacks=room unit=", u64::from(unit)),
        Cause::NoTsih => line.push_str(" lacks=tsih"),
        Cause::NoNumber => line.push_str(" lacks=number"),
        Cause::NoMemory => line.push_str(" lacks=memory"),
    }
}

fn rejected(line: &mut String, reason: u8, opcode: u8, task: u32) -> Result<(), AllocError>
    ensures { OnOk result (string_bytes line.new
        ≡ joined (string_bytes line.old) (why_in (whys.Rejected reason opcode task))) }
{
    put(
        line,
        &[
            Text(" why=protocol_error reason=0x"),
            Hex(u64::from(reason)),
            Text(" words=\""),
            Text(reject_text(reason)),
            Text("\" opcode=0x"),
            Hex(u64::from(opcode)),
            Text(" task=0x"),
            Hex(u64::from(task)),
        ],
    )
}

fn why(line: &mut String, why: Why) -> Result<(), AllocError>
    ensures { OnOk result (string_bytes line.new ≡ joined (string_bytes line.old) (why_in why)) }
{
    match why {
        Why::Logout => line.push_str(" why=logout"),
        Why::Closed => line.push_str(" why=connection_closed"),
        Why::InputFailed => line.push_str(" why=connection_lost in=read"),
        Why::OutputFailed => line.push_str(" why=connection_lost in=write"),
        Why::Replaced => line.push_str(" why=replaced_by_same_initiator"),
        Why::Rejected(reason, opcode, task) => rejected(line, reason, opcode, task),
        Why::Gap => line.push_str(" why=protocol_error words=\"CmdSN leaves a gap\""),
        Why::NoMemory => line.push_str(" why=no_memory"),
        Why::PushedOut => line.push_str(" why=too_many_wait"),
        Why::ByConsole => line.push_str(" why=by_console"),
    }
}

// A session at a unit: the group of its portal, and its initiator port.
fn session(line: &mut String, who: &Initiator<'_>, group: u16) -> Result<(), AllocError>
    ensures { OnOk result (string_bytes line.new ≡ joined (string_bytes line.old) (session_in who.now group)) }
{
    counted(line, " group=", u64::from(group))?;
    initiator(line, who)
}

// What happened to a portal of a controller.
fn portal(
    line: &mut String,
    what: &str,
    controller: u16,
    portal: SocketAddrV4,
) -> Result<(), AllocError>
    ensures { OnOk result (string_bytes line.new
        ≡ joined (string_bytes line.old) (what.now ∷ portal_in controller portal [])) }
{
    put(
        line,
        &[
            Text(what),
            Text(" controller="),
            Number(u64::from(controller)),
            Text(" portal="),
            Address(portal),
        ],
    )
}

// An error of the system.
fn error(line: &mut String, error: u32) -> Result<(), AllocError>
    ensures { OnOk result (string_bytes line.new ≡ joined (string_bytes line.old) (error_in error)) }
{
    put(
        line,
        &[
            Text(" errno="),
            Number(u64::from(error)),
            Text(" error="),
            Text(error_text(error)),
        ],
    )
}

// An error of the system, behind what it kept from being done.
fn told_error(line: &mut String, what: &str, errno: u32) -> Result<(), AllocError>
    ensures { OnOk result (string_bytes line.new ≡ joined (string_bytes line.old) (what.now ∷ error_in errno)) }
{
    put(line, &[Text(what)])?;
    error(line, errno)
}

// What happened to a command of a session at a unit.
fn command(line: &mut String, what: &str, unit: u8, operation: Operation) -> Result<(), AllocError>
    ensures { OnOk result (string_bytes line.new
        ≡ joined (string_bytes line.old) (what.now ∷ command_in unit operation [])) }
{
    put(
        line,
        &[
            Text(what),
            Text(" unit="),
            Number(u64::from(unit)),
            Text(" command="),
            Text(operation.text()),
        ],
    )
}

// What happened to a file of a unit.
fn file(line: &mut String, what: &str, unit: u8, part: Part) -> Result<(), AllocError>
    ensures { OnOk result (string_bytes line.new ≡ joined (string_bytes line.old) (what.now ∷ file_in unit part [])) }
{
    put(
        line,
        &[
            Text(what),
            Text(" unit="),
            Number(u64::from(unit)),
            Text(" file="),
            Text(part.text()),
        ],
    )
}

// The number of a session, and its kind.
fn numbered(line: &mut String, tsih: u16, kind: SessionType) -> Result<(), AllocError>
    ensures { OnOk result (string_bytes line.new ≡ joined (string_bytes line.old) (numbered_in tsih kind [])) }
{
    put(
        line,
        &[
            Text(" tsih="),
            Number(u64::from(tsih)),
            Text(" type="),
            Text(kind.text()),
        ],
    )
}

fn logged_in(
    line: &mut String,
    who: &Initiator<'_>,
    by: &Path,
    tsih: u16,
    kind: SessionType,
) -> Result<(), AllocError>
    ensures { OnOk result (string_bytes line.new
        ≡ joined (string_bytes line.old) (parts (events.LoggedIn who.now by.now tsih kind))) }
{
    came(line, "event=login", who, by)?;
    numbered(line, tsih, kind)
}

fn refused(
    line: &mut String,
    who: &Initiator<'_>,
    by: &Path,
    status: u16,
    lacks: Cause,
) -> Result<(), AllocError>
    ensures { OnOk result (string_bytes line.new
        ≡ joined (string_bytes line.old) (parts (events.LoginRefused who.now by.now status lacks))) }
{
    came(line, "event=login_refused", who, by)?;
    put(
        line,
        &[
            Text(" status=0x"),
            Hex(u64::from(status)),
            Text(" words=\""),
            Text(status_text(status)),
            Text("\""),
        ],
    )?;
    cause(line, lacks)
}

fn session_ended(
    line: &mut String,
    who: &Initiator<'_>,
    by: &Path,
    tsih: u16,
    kind: SessionType,
    end: Why,
) -> Result<(), AllocError>
    ensures { OnOk result (string_bytes line.new
        ≡ joined (string_bytes line.old) (parts (events.SessionEnded who.now by.now tsih kind end))) }
{
    came(line, "event=session_ended", who, by)?;
    numbered(line, tsih, kind)?;
    why(line, end)
}

// That the groups of a unit were set.
fn set(
    line: &mut String,
    unit: u8,
    group: u16,
    first: Access,
    second: Access,
    whom: &By<'_>,
) -> Result<(), AllocError>
    ensures { OnOk result (string_bytes line.new
        ≡ joined (string_bytes line.old) (parts (events.GroupsSet unit group first second whom.now))) }
{
    put(
        line,
        &[
            Text("event=groups_set unit="),
            Number(u64::from(unit)),
            Text(" owner="),
            Number(u64::from(group)),
            Text(" states="),
            Text(first.text()),
            Text(","),
            Text(second.text()),
        ],
    )?;
    by(line, whom)
}

// That a unit was to move, and why it stays.
fn stay(line: &mut String, unit: u8, group: u16, end: Stayed) -> Result<(), AllocError>
    ensures { OnOk result (string_bytes line.new ≡ joined (string_bytes line.old) (stay_in unit group end [])) }
{
    put(
        line,
        &[
            Text("event=not_moved unit="),
            Number(u64::from(unit)),
            Text(" to="),
            Number(u64::from(group)),
            Text(" why="),
            Text(end.text()),
        ],
    )
}

fn reserved(
    line: &mut String,
    unit: u8,
    asked: &Reservation,
    who: &Initiator<'_>,
    group: u16,
) -> Result<(), AllocError>
    ensures { OnOk result (string_bytes line.new
        ≡ joined (string_bytes line.old) (parts (events.Reserved unit asked.now who.now group))) }
{
    put(
        line,
        &[
            Text("event=reservation unit="),
            Number(u64::from(unit)),
            Text(" action="),
            Text(asked.action.text()),
            Text(" key=0x"),
            Hex(asked.key),
            Text(" service_action_key=0x"),
            Hex(asked.service_action_key),
            Text(" type="),
            Number(u64::from(asked.kind)),
        ],
    )?;
    session(line, who, group)
}

fn sense(line: &mut String, sense: Sense) -> Result<(), AllocError>
    ensures { OnOk result (string_bytes line.new ≡ joined (string_bytes line.old) (sense_in sense [])) }
{
    put(
        line,
        &[
            Text(" key=0x"),
            Hex(u64::from(sense.key)),
            Text(" asc=0x"),
            Hex(u64::from(sense.code)),
            Text(" ascq=0x"),
            Hex(u64::from(sense.qualifier)),
        ],
    )
}

fn failed(line: &mut String, call: Call, place: Place, errno: u32) -> Result<(), AllocError>
    ensures { OnOk result (string_bytes line.new ≡ joined (string_bytes line.old) (failed_in call place errno)) }
{
    put(
        line,
        &[
            Text(" call="),
            Text(call.text()),
            Text(" block="),
            Number(u64::from(place.first)),
            Text(" blocks="),
            Number(u64::from(place.count)),
        ],
    )?;
    error(line, errno)
}

// Why a file of a unit cannot be used, whose disk has this name.
fn unusable(line: &mut String, disk: &[u8], cause: Unusable, errno: u32) -> Result<(), AllocError>
    ensures { OnOk result (string_bytes line.new
        ≡ joined (string_bytes line.old) (unusable_in disk.now cause errno)) }
{
    put(
        line,
        &[
            Text(" disk="),
            Name(disk),
            Text(" why="),
            Text(cause.text()),
        ],
    )?;
    error(line, errno)
}

fn hung(line: &mut String, unit: u8, part: Part, call: Call) -> Result<(), AllocError>
    ensures { OnOk result (string_bytes line.new
        ≡ joined (string_bytes line.old) (parts (events.Hung unit part call))) }
{
    file(line, "event=hung", unit, part)?;
    put(line, &[Text(" call="), Text(call.text())])
}

fn back(line: &mut String, unit: u8, part: Part, call: Call, time: u64) -> Result<(), AllocError>
    ensures { OnOk result (string_bytes line.new
        ≡ joined (string_bytes line.old) (parts (events.Back unit part call time))) }
{
    file(line, "event=back", unit, part)?;
    put(
        line,
        &[
            Text(" call="),
            Text(call.text()),
            Text(" ms="),
            Number(time),
        ],
    )
}

fn busy(
    line: &mut String,
    unit: u8,
    operation: Operation,
    who: &Initiator<'_>,
    group: u16,
) -> Result<(), AllocError>
    ensures { OnOk result (string_bytes line.new
        ≡ joined (string_bytes line.old) (parts (events.Busy unit operation who.now group))) }
{
    command(line, "event=busy", unit, operation)?;
    session(line, who, group)
}

fn cannot_control(line: &mut String, errno: u32) -> Result<(), AllocError>
    ensures { OnOk result (string_bytes line.new
        ≡ joined (string_bytes line.old) (parts (events.CannotControl errno))) }
{
    told_error(line, "event=cannot_control", errno)
}

fn connection_ended(line: &mut String, by: &Path, end: Why) -> Result<(), AllocError>
    ensures { OnOk result (string_bytes line.new
        ≡ joined (string_bytes line.old) (parts (events.ConnectionEnded by.now end))) }
{
    line.push_str("event=connection_ended")?;
    path(line, by)?;
    why(line, end)
}

fn reset(line: &mut String, unit: u8, who: &Initiator<'_>, group: u16) -> Result<(), AllocError>
    ensures { OnOk result (string_bytes line.new
        ≡ joined (string_bytes line.old) (parts (events.Reset unit who.now group))) }
{
    counted(line, "event=unit_reset unit=", u64::from(unit))?;
    session(line, who, group)
}

fn command_failed(
    line: &mut String,
    unit: u8,
    operation: Operation,
    told: Sense,
    who: &Initiator<'_>,
    group: u16,
) -> Result<(), AllocError>
    ensures { OnOk result (string_bytes line.new
        ≡ joined (string_bytes line.old) (parts (events.CommandFailed unit operation told who.now group))) }
{
    command(line, "event=command_failed", unit, operation)?;
    sense(line, told)?;
    session(line, who, group)
}

/// Spells an event behind what a line has.
pub fn spell(line: &mut String, event: &Event<'_>) -> Result<(), AllocError>
    ensures { OnOk result (string_bytes line.new ≡ joined (string_bytes line.old) (parts event.now)) }
{
    match event {
        Event::Started(version) => put(line, &[Text("event=started version="), Name(version)]),
        Event::WrongWords(what) => put(line, &[Text("event=wrong_words what="), Name(what)]),
        Event::Listening(controller, at) => portal(line, "event=listening", *controller, *at),
        Event::CannotListen(controller, at, errno) => {
            portal(line, "event=cannot_listen", *controller, *at)?;
            error(line, *errno)
        }
        Event::CannotControl(errno) => cannot_control(line, *errno),
        Event::Ready => line.push_str("event=ready"),
        Event::Stopping => line.push_str("event=stopping"),
        Event::LoggedIn(who, by, tsih, kind) => logged_in(line, who, by, *tsih, *kind),
        Event::LoginRefused(who, by, status, lacks) => refused(line, who, by, *status, *lacks),
        Event::SessionEnded(who, by, tsih, kind, end) => {
            session_ended(line, who, by, *tsih, *kind, *end)
        }
        Event::ConnectionEnded(by, end) => connection_ended(line, by, *end),
        Event::ConnectionsEnded(count) => counted(line, "event=connections_ended count=", *count),
        Event::LoginsRefused(count) => counted(line, "event=logins_refused count=", *count),
        Event::Discoveries(count) => counted(line, "event=discoveries count=", *count),
        Event::Ordered(what) => put(line, &[Text("event=order by=control line="), Name(what)]),
        Event::GroupsSet(unit, group, first, second, whom) => {
            set(line, *unit, *group, *first, *second, whom)
        }
        Event::NotMoved(unit, group, end, whom) => {
            stay(line, *unit, *group, *end)?;
            by(line, whom)
        }
        Event::Reserved(unit, asked, who, group) => reserved(line, *unit, asked, who, *group),
        Event::Reset(unit, who, group) => reset(line, *unit, who, *group),
        Event::CommandFailed(unit, operation, told, who, group) => {
            command_failed(line, *unit, *operation, *told, who, *group)
        }
        Event::Busy(unit, operation, who, group) => busy(line, *unit, *operation, who, *group),
        Event::DeviceFailed(unit, part, call, place, errno) => {
            file(line, "event=device_failed", *unit, *part)?;
            failed(line, *call, *place, *errno)
        }
        Event::Hung(unit, part, call) => hung(line, *unit, *part, *call),
        Event::Back(unit, part, call, time) => back(line, *unit, *part, *call, *time),
        Event::Grew(unit, part) => file(line, "event=grew", *unit, *part),
        Event::NotFlushed(unit) => counted(line, "event=not_flushed unit=", u64::from(*unit)),
        Event::CannotUse(unit, part, disk, cause, errno) => {
            file(line, "event=cannot_use", *unit, *part)?;
            unusable(line, disk, *cause, *errno)
        }
        Event::NoKeepalive(from) => {
            put(line, &[Text("event=no_keepalive from="), Address(*from)])
        }
        Event::Wanting(what) => put(line, &[Text("event=wanting what="), Text(what.text())]),
        Event::Dropped(count) => counted(line, "event=dropped lines=", *count),
    }
}

/// Puts the line of an event behind what there is, with the time at which it happened, and its end.
pub fn put_line(lines: &mut String, when: Stamp, event: &Event<'_>) -> Result<(), AllocError> {
    write!(lines, "{when} ")?;
    spell(lines, event)?;
    lines.push('\n')
}
