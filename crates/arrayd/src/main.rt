//! The start of `arrayd`, a disk array over iSCSI: its words, its environment, its log, then the array; and the exit status of each fault.
#![tactic(auto)]

ghost use Rattle.std.specs.Prelude.{◌≡◌, ◌≤◌, IfOk, length};
ghost use Rattle.std.specs.Process.{exit_status};
ghost use Rattle.command_line.specs.Fault.{status_of};

mod once;

use array::{Administration, Attended, open, open_files, serve, serve_timed, tell_want};
use command_line::{Fault, MAX_UNITS, Options};
use event_log::{Log, start};
use events::Event;
use settings::administration::Asked;
use settings::environment::{self, Settings};
use settings::log_file::{self, LogFile, NotHeld};
use settings::wrong_words::{self, Shown};
use settings::{standard, target_name, usage};
use std::alloc::Global;
use std::env::Env;
use std::fs::File;
use std::net::{Net, TcpListener, TcpStream};
use std::process::ExitCode;
use std::rt::Files;
use std::time::Clock;
use std::{env, io};

// The program's words, its own name first.
fn all_words(rt: &(impl Env + AllocGlobal)) -> Result<Vec<String>, Fault> {
    match env::args(rt) {
        Ok(args) => Ok(args.collect(rt.alloc())?),
        Err(e) if e.kind() == io::ErrorKind::OutOfMemory => Err(Fault::NoMemory),
        Err(_) => Err(Fault::WrongWords),
    }
}

// The log, with its file where the environment names one; else one that is off.
fn asked_log<R: Env + AllocGlobal + Files<File = File> + Clone + Drop>(
    rt: &R,
    alloc: Global,
) -> Result<(Log, Option<LogFile<R>>), Fault> {
    match LogFile::named(rt.clone()?)? {
        Some(file) => Ok((Log::new(alloc)?, Some(file))),
        None => Ok((Log::off(), None)),
    }
}

// The log, which also counts for the window and the control socket, where one of them is asked for; and its file.
fn counting_log<R: Env + AllocGlobal + Files<File = File> + Clone + Drop>(
    rt: &R,
    alloc: Global,
    asked: &Asked,
    units: usize,
) -> Result<(Log, Option<LogFile<R>>), Fault> {
    let (log, file) = asked_log(rt, alloc)?;
    Ok((asked.counted(alloc, log, units)?, file))
}

// The log's file, held so that no array takes it for a disk as long as this is kept; none where there is none to hold.
fn held_log<R: AllocGlobal + Files<File = File> + Drop>(
    rt: &impl Eprint,
    file: &Option<LogFile<R>>,
    options: &Options<'_>,
) -> Result<Option<File>, Fault> {
    let Some(file) = file else {
        return Ok(None);
    };
    match file.held(options.paths.as_slice()) {
        Ok(held) => Ok(Some(held)),
        Err(NotHeld::Disk) => Err(Fault::WrongWords),
        Err(NotHeld::NoMemory) => Err(Fault::NoMemory),
        Err(NotHeld::Closed(error)) => {
            let path = Shown(file.path());
            let _ = eprintln!(rt; "arrayd: cannot write the log: errno {error}: {path}");
            Ok(None)
        }
    }
}

// Why the log's file is refused, where that is what is wrong.
fn why_no_log(fault: Fault, why: &'static str) -> &'static str {
    match fault {
        Fault::WrongWords => why,
        _ => "",
    }
}

// What stands behind the name of a disk in the name of the file of which a fault tells.
fn ending_of(fault: Fault, disk: &str) -> &'static str {
    match fault {
        Fault::CannotUseRegistrationFile(_, _, _) if !disk.is_empty() => ".reg",
        _ => "",
    }
}

// Says on standard error why the program ends, and of what that is told, if of anything; its exit status.
fn complain(rt: &impl Eprint, fault: Fault, of: &str) -> ExitCode
    ensures { exit_status result ≡ status_of fault }
{
    let before = if of.is_empty() { "" } else { ": " };
    let ending = ending_of(fault, of);
    let of = Shown(of);
    let _ = eprintln!(rt; "arrayd: {fault}{before}{of}{ending}");
    fault.status()
}

// The disk of a unit.
fn disk_of<'a>(options: &'a Options<'_>, unit: u8) -> &'a str {
    match options.paths.get(usize::from(unit)) {
        Some(path) => *path,
        None => "",
    }
}

// The file of which a fault tells; of a registration file the disk beside which it is.
fn file_of<'a>(fault: Fault, options: &'a Options<'_>, asked: &'a Asked) -> &'a str {
    match fault {
        Fault::OtherUnit(unit, _, _, _)
        | Fault::CannotUseUnit(unit, _, _)
        | Fault::CannotUseRegistrationFile(unit, _, _)
        | Fault::NotFlushed(unit) => disk_of(options, unit),
        Fault::CannotControl(_) => asked.control().unwrap_or(""),
        Fault::WrongWords
        | Fault::CannotListen(_, _, _, _)
        | Fault::CannotListenAt(_, _)
        | Fault::NoMemory => "",
    }
}

// The exit status of what has ended so.
fn status_of_end(
    rt: &impl Eprint,
    end: Result<(), Fault>,
    options: &Options<'_>,
    asked: &Asked,
) -> ExitCode {
    match end {
        Ok(()) => ExitCode::SUCCESS,
        Err(fault) => complain(rt, fault, file_of(fault, options, asked)),
    }
}

// Why the program ends, before the log is open. Which word or variable is wrong is written to the log's file first.
fn refuse<R: Clock + Env + AllocGlobal + Files<File = File> + Eprint + Clone + Drop>(
    rt: &R,
    alloc: Global,
    fault: Fault,
    what: &str,
) -> ExitCode
    ensures { exit_status result ≡ status_of fault }
{
    if fault == Fault::WrongWords {
        let _ = log_file::write_one(rt, alloc, &Event::WrongWords(what.as_bytes()));
        return complain(rt, fault, what);
    }
    complain(rt, fault, "")
}

// The options that the words give; or the exit status, where a word is wrong.
fn options_of<'a, R: Clock + Env + AllocGlobal + Files<File = File> + Eprint + Clone + Drop>(
    rt: &R,
    alloc: Global,
    words: &'a [String],
) -> Result<Options<'a>, ExitCode>
    ensures few { IfOk result (λ options. length options.paths.items ≤ MAX_UNITS) }
{
    if let Some(option) = wrong_words::signed(words) {
        let part = wrong_words::with_word(alloc, words, option).unwrap_or(String::new(alloc));
        return Err(refuse(rt, alloc, Fault::WrongWords, part.as_str()));
    }
    match command_line::read(alloc, words) {
        Ok(options) => Ok(options),
        Err(fault) => {
            let part = wrong_words::part(alloc, words).unwrap_or(String::new(alloc));
            Err(refuse(rt, alloc, Fault::from(fault), part.as_str()))
        }
    }
}

// Serves one session from standard input to standard output: the exit status.
fn once_status(rt: &(impl Input + Print + Eprint), alloc: Global) -> ExitCode {
    match once::serve_once(rt, alloc) {
        Ok(()) => ExitCode::SUCCESS,
        Err(fault) => complain(rt, fault, ""),
    }
}

// The exit status, where a target may not have this name.
fn look_at_target<R: Clock + Env + AllocGlobal + Files<File = File> + Eprint + Clone + Drop>(
    rt: &R,
    alloc: Global,
    target: &str,
) -> Result<(), ExitCode> {
    if target_name::is_allowed(target) {
        return Ok(());
    }
    let part = wrong_words::with_value(alloc, "--target", target);
    let part = part.unwrap_or(String::new(alloc));
    Err(refuse(rt, alloc, Fault::WrongWords, part.as_str()))
}

// What else the environment asks for; or the exit status, where a variable is wrong, or none of the program's.
fn settings_of<R: Clock + Env + AllocGlobal + Files<File = File> + Eprint + Clone + Drop>(
    rt: &R,
    alloc: Global,
) -> Result<Settings, ExitCode> {
    match environment::unknown(rt) {
        Ok(None) => {}
        Ok(Some(name)) => return Err(refuse(rt, alloc, Fault::WrongWords, name.as_str())),
        Err(fault) => return Err(complain(rt, fault, "")),
    }
    match environment::read(rt) {
        Ok(settings) => Ok(settings),
        Err(refused) => Err(refuse(rt, alloc, refused.0, refused.1)),
    }
}

// The options, of the words and of the environment, and what else the environment asks for; or the exit status, where the words
// ask for what is done at once, or where something is wrong.
fn asked<
    'a,
    R: Clock + Env + AllocGlobal + Files<File = File> + Input + Print + Eprint + Clone + Drop,
>(rt: &R, alloc: Global, words: &'a [String]) -> Result<(Options<'a>, Settings), ExitCode>
    ensures few { IfOk result (λ found. length found.0.paths.items ≤ MAX_UNITS) }
{
    if usage::tells(rt, words) {
        return Err(ExitCode::SUCCESS);
    }
    let mut options = options_of(rt, alloc, words)?;
    if options.is_once {
        return Err(once_status(rt, alloc));
    }
    look_at_target(rt, alloc, options.target)?;
    let settings = settings_of(rt, alloc)?;
    options.second_host = settings.second_host;
    Ok((options, settings))
}

// The same as `complain`, once the log is open: it is told of want of memory, and closed.
fn give_up(
    rt: &(impl Eprint + Clock),
    log: &Log,
    fault: Fault,
    options: &Options<'_>,
    asked: &Asked,
) -> ExitCode
    ensures { exit_status result ≡ status_of fault }
{
    tell_want(rt, log, fault);
    event_log::close(rt, log);
    complain(rt, fault, file_of(fault, options, asked))
}

// The log and its file, which is held as long as what is given last is kept; or the exit status.
fn opened_log<R: Env + AllocGlobal + Files<File = File> + Eprint + Clone + Drop>(
    rt: &R,
    alloc: Global,
    options: &Options<'_>,
    asked: &Asked,
) -> Result<(Log, Option<LogFile<R>>, Option<File>), ExitCode> {
    let (log, file) = match counting_log(rt, alloc, asked, options.paths.len()) {
        Ok(found) => found,
        Err(fault) => return Err(complain(rt, fault, why_no_log(fault, log_file::UNFIT))),
    };
    match held_log(rt, &file, options) {
        Ok(held) => Ok((log, file, held)),
        Err(fault) => Err(complain(rt, fault, why_no_log(fault, log_file::TAKEN))),
    }
}

// What administrators reach the array by; or the exit status.
fn opened_administration<'a>(
    rt: &(impl Net<Listener = TcpListener, Stream = TcpStream> + Clock + Eprint),
    log: &Log,
    options: &Options<'_>,
    asked: &'a Asked,
) -> Result<Option<Administration<'a>>, ExitCode> {
    match asked.opened(rt, log) {
        Ok(administration) => Ok(administration),
        Err(fault) => Err(give_up(rt, log, fault, options, asked)),
    }
}

fn main(rt: HostRuntime) -> ExitCode {
    let _standard = standard::taken(&rt);
    let alloc = rt.alloc();
    let words = match all_words(&rt) {
        Ok(words) => words,
        Err(fault) => return refuse(&rt, alloc, fault, "a word that is not UTF-8"),
    };
    let (options, settings) = match asked(&rt, alloc, words.as_slice()) {
        Ok(found) => found,
        Err(status) => return status,
    };
    let asked = &settings.asked;
    let (log, file, _held) = match opened_log(&rt, alloc, &options, asked) {
        Ok(opened) => opened,
        Err(status) => return status,
    };
    // The types that threads take along are known here alone.
    if let Some(file) = file {
        if start::<HostRuntime, LogFile<HostRuntime>>(&rt, alloc, &log, file).is_err() {
            return complain(&rt, Fault::NoMemory, "");
        }
        log.tell(&rt, &Event::Started(usage::VERSION.as_bytes()));
    }
    let administration = match opened_administration(&rt, &log, &options, asked) {
        Ok(administration) => administration,
        Err(status) => return status,
    };
    // What serves closes the log, whatever comes.
    if let Some(patience) = settings.patience {
        let parts = match open_files(&rt, alloc, &log, &options) {
            Ok(parts) => parts,
            Err(fault) => return give_up(&rt, &log, fault, &options, asked),
        };
        let reader = Attended::new(rt.reader(), &log);
        let mut writer = io::writer(&rt);
        let served = serve_timed(
            &rt,
            alloc,
            &options,
            parts,
            patience,
            &log,
            administration,
            reader,
            &mut writer,
        );
        return status_of_end(&rt, served, &options, asked);
    }
    let array = match open(&rt, alloc, &log, &options) {
        Ok(array) => array,
        Err(fault) => return give_up(&rt, &log, fault, &options, asked),
    };
    let served = serve(
        &rt,
        alloc,
        &options,
        array,
        &log,
        administration,
        Attended::new(rt.reader(), &log),
        &mut io::writer(&rt),
    );
    status_of_end(&rt, served, &options, asked)
}
