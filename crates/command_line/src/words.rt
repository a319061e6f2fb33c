//! The command line.

ghost use Rattle.std.specs.Prelude.{◌≡◌, ◌≤◌, ◌↔◌, ℕ, IfOk, IsTrue, MatchOption, Some, [], codes, false, length, map, option_map, pos};
ghost use Rattle.std.specs.Prelude.{true};
ghost use Rattle.std.specs.String.{string_bytes};
ghost use Rattle.command_line.specs.declared.words.WordsFault.TheVariants.{NoMemory};
ghost use Rattle.command_line.specs.Words.{AreRestIn, Asks, Gives, IsCount, IsName, IsNumberIn, Meaning, arrayd, flag_lem};
ghost use Rattle.command_line.specs.Words.{meaning_of, of_array, option_lem, rest_lem, rows};
ghost use Rattle.clap.specs.Words.{app_of, fault_of, first_of, found_of, rows_of, rule_of};
ghost use Rattle.clap.specs.declared.builder.value_parser.ValueParser.TheVariants as vp;

use clap::builder::ValueParser;
use clap::error::ErrorKind;
use clap::{Arg, ArgAction, ArgMatches, Command, Error};
use std::alloc::{AllocError, Global};
use std::net::Ipv4Addr;

/// The most bytes that a target's name has, so that all that a portal says of it fits.
pub const MAX_NAME: usize = 196;

/// The most units of an array.
pub const MAX_UNITS: usize = 8;

/// What the words ask for.
#[derive(Drop)]
pub struct Options<'a> {
    /// Standard input is to be served to standard output, over one unit in memory.
    pub is_once: bool,
    /// The target's name.
    pub target: &'a str,
    /// The array's number, which its units tell by page 83h.
    pub array: u32,
    /// The address at which the portals listen.
    pub host: Ipv4Addr,
    /// Another one at which those of controller 2 listen, where one is named. No word names it.
    pub second_host: Option<Ipv4Addr>,
    /// The port of the first portal of controller 1.
    pub port: u16,
    /// How many portals each controller has.
    pub portals: u16,
    /// The files of unit 0, of unit 1, and so on.
    pub paths: Vec<&'a str>,
}

/// Why the words are refused.
#[derive(Clone, Copy, Debug, PartialEq, Eq)]
pub enum WordsFault {
    Wrong,
    NoMemory,
}

impl From<AllocError> for WordsFault {
    ghost from_gives = { λ _ fault. fault ≡ NoMemory };

    fn from(_: AllocError) -> WordsFault {
        WordsFault::NoMemory
    }
}

// An option that takes a value, and has the default where it is not given.
fn option<'a>(alloc: Global, name: &'a str, default: &'a str) -> Arg<'a>
    ensures rule { rule_of result ≡ option_lem name.entry.now default.entry.now }
    ensures local { result.global ≡ false }
{
    Arg::new(alloc, name)
        .long(name)
        .action(ArgAction::Set)
        .default_value(default)
}

// One whose value this parser takes.
fn number<'a>(alloc: Global, name: &'a str, default: &'a str, parser: ValueParser<'a>) -> Arg<'a>
    ensures rule { rule_of result ≡ record (option_lem name.entry.now default.entry.now) { parser = Some parser.entry } }
    ensures local { result.global ≡ false }
{
    option(alloc, name, default).value_parser(parser)
}

// The flag that is given or not.
fn flag<'a>(alloc: Global, name: &'a str) -> Arg<'a>
    ensures rule { rule_of result ≡ flag_lem name.entry.now }
    ensures local { result.global ≡ false }
{
    Arg::new(alloc, name).long(name).action(ArgAction::SetTrue)
}

// The words that belong to no option, as many as there are.
fn rest<'a>(alloc: Global, name: &'a str) -> Arg<'a>
    ensures rule { rule_of result ≡ rest_lem name.entry.now }
    ensures local { result.global ≡ false }
{
    Arg::new(alloc, name)
        .action(ArgAction::Append)
        .num_args(0..)
}

// The numbers that a port may have, so that there are eight from it on.
fn ports<'a>() -> ValueParser<'a>
    ensures { result ≡ vp.Signed (pos 1) (pos 65528) }
{
    clap::value_parser!(u16).range(1..=65528)
}

// How many portals a controller may have.
fn counts<'a>() -> ValueParser<'a>
    ensures { result ≡ vp.Signed (pos 1) (pos 4) }
{
    clap::value_parser!(u16).range(1..=4)
}

// The number of an array.
fn arrays<'a>() -> ValueParser<'a>
    ensures { result ≡ vp.Signed (pos 0) (pos 4294967295) }
{
    clap::value_parser!(u32)
}

// The part of the command line that says which array is served.
fn array_command<'a>(alloc: Global) -> Result<Command<'a>, AllocError>
    ensures { IfOk result (λ command. app_of command ≡ of_array) }
{
    Command::new(alloc, "arrayd")
        .arg(flag(alloc, "once"))?
        .arg(option(alloc, "target", "iqn.2000-01.test:array"))?
        .arg(number(alloc, "array", "1", arrays()))
}

// The command line as `clap` takes it: which array, and where it listens.
fn command<'a>(alloc: Global) -> Result<Command<'a>, AllocError>
    ensures { IfOk result (λ command. app_of command ≡ arrayd) }
{
    array_command(alloc)?
        .arg(option(alloc, "host", "127.0.0.1"))?
        .arg(number(alloc, "port", "3260", ports()))?
        .arg(number(alloc, "portals", "1", counts()))?
        .arg(rest(alloc, "paths"))
}

// Which fault a parse that failed is.
fn refused(kind: ErrorKind) -> WordsFault
    ensures { result ≡ WordsFault.Wrong → kind ≡ ErrorKind.OutOfMemory → ⊥ }
{
    match kind {
        ErrorKind::OutOfMemory => WordsFault::NoMemory,
        _ => WordsFault::Wrong,
    }
}

// What `clap` finds in the words.
fn matched<'a>(alloc: Global, words: &'a [String]) -> Result<ArgMatches<'a>, WordsFault>
    ensures ok { IfOk result (λ matches. (rows_of (found_of matches) ≡ rows (map string_bytes words.entry.now))
        × (fault_of arrayd (map string_bytes words.entry.now) ≡ [])) }
    ensures wrong { result ≡ Err WordsFault.Wrong
        → fault_of arrayd (map string_bytes words.entry.now) ≡ [] → ⊥ }
{
    let command = command(alloc)?;
    match command.try_get_matches_from(words) {
        Ok(matches) => Ok(matches),
        Err(e) => Err(refused(e.kind())),
    }
}

// The text of an option.
fn text_given<'a>(matches: &ArgMatches<'a>, id: &str) -> Option<&'a str>
    ensures { option_map (λ text. text.now) result ≡ first_of id.now (rows_of (found_of matches.now)) }
{
    matches.get_str(id)
}

// The number of an option, of 16 bits and of 32.
fn short_given(matches: &ArgMatches<'_>, id: &str) -> Option<u16>
    ensures { MatchOption result ((n : ℕ) → IsNumberIn 16 id.now (rows_of (found_of matches.now)) n → ⊥)
        (IsNumberIn 16 id.now (rows_of (found_of matches.now))) }
{
    matches.get_one::<u16>(id)
}

fn number_given(matches: &ArgMatches<'_>, id: &str) -> Option<u32>
    ensures { MatchOption result ((n : ℕ) → IsNumberIn 32 id.now (rows_of (found_of matches.now)) n → ⊥)
        (IsNumberIn 32 id.now (rows_of (found_of matches.now))) }
{
    matches.get_one::<u32>(id)
}

// Whether a flag is given.
fn is_given(matches: &ArgMatches<'_>, id: &str) -> bool
    ensures { IsTrue result ↔ (first_of id.now (rows_of (found_of matches.now)) ≡ Some (codes "true")) }
{
    match matches.get_str(id) {
        Some(text) => text == "true",
        None => false,
    }
}

// The words that belong to no option.
fn rest_given<'a>(
    alloc: Global,
    matches: &ArgMatches<'a>,
    id: &str,
) -> Result<Vec<&'a str>, AllocError>
    ensures { IfOk result (λ rest. AreRestIn id.now (rows_of (found_of matches.now)) (map (λ text. text.now) rest.items)) }
{
    match matches.get_strs(id) {
        Some(rest) => Vec::from_slice(alloc, rest),
        None => Ok(Vec::new(alloc)),
    }
}

// Whether a target may have this name.
fn is_name(text: &str) -> bool
    ensures { IsTrue result ↔ IsName text.now }
{
    !text.is_empty() && text.len() <= MAX_NAME
}

// Whether there may be so many files.
fn are_files(is_once: bool, paths: &[&str]) -> bool
    ensures { IsTrue result ↔ IsCount is_once (length paths.now) }
{
    if is_once {
        paths.is_empty()
    } else {
        !paths.is_empty() && paths.len() <= MAX_UNITS
    }
}

// What the words ask for, of what `clap` found in them.
fn options_in<'a>(alloc: Global, matches: &ArgMatches<'a>) -> Result<Options<'a>, WordsFault>
    ensures asked { IfOk result (λ options. Gives (rows_of (found_of matches.now)) (meaning_of options)) }
    ensures wrong { result ≡ Err WordsFault.Wrong
        → (m : Meaning) → Gives (rows_of (found_of matches.now)) m → ⊥ }
    ensures few { IfOk result (λ options. length options.paths.items ≤ MAX_UNITS) }
{
    let Some(target) = text_given(matches, "target") else {
        return Err(WordsFault::Wrong);
    };
    if !is_name(target) {
        return Err(WordsFault::Wrong);
    }
    let Some(array) = number_given(matches, "array") else {
        return Err(WordsFault::Wrong);
    };
    let Some(host) = text_given(matches, "host") else {
        return Err(WordsFault::Wrong);
    };
    let Ok(host) = host.parse::<Ipv4Addr>() else {
        return Err(WordsFault::Wrong);
    };
    let Some(port) = short_given(matches, "port") else {
        return Err(WordsFault::Wrong);
    };
    let Some(portals) = short_given(matches, "portals") else {
        return Err(WordsFault::Wrong);
    };
    let is_once = is_given(matches, "once");
    let paths = rest_given(alloc, matches, "paths")?;
    if !are_files(is_once, paths.as_slice()) {
        return Err(WordsFault::Wrong);
    }
    Ok(Options {
        is_once,
        target,
        array,
        host,
        second_host: None,
        port,
        portals,
        paths,
    })
}

// Which option, or that it is the disks.
fn part_of(matches: &ArgMatches<'_>) -> &'static str {
    match text_given(matches, "target") {
        Some(target) if is_name(target) => {}
        _ => return "--target",
    }
    match text_given(matches, "host") {
        Some(host) if host.parse::<Ipv4Addr>().is_ok() => {}
        _ => return "--host",
    }
    "DISK"
}

// The first line of what `clap` says.
fn first_line(alloc: Global, e: &Error) -> Result<String, AllocError> {
    let mut text = String::new(alloc);
    write!(text, "{e}")?;
    String::from_str(alloc, text.as_str().lines().next().unwrap_or(""))
}

/// What of words that are refused as wrong asks for nothing: as `clap` says it, or the option whose value there cannot be, or that
/// there are no disks, or too many.
pub fn wrong_part(alloc: Global, words: &[String]) -> Result<String, AllocError> {
    let command = command(alloc)?;
    match command.try_get_matches_from(words) {
        Ok(matches) => String::from_str(alloc, part_of(&matches)),
        Err(e) => first_line(alloc, &e),
    }
}

/// Reads the words, the program's name first. They are refused as wrong only where they ask for nothing.
pub fn read<'a>(alloc: Global, words: &'a [String]) -> Result<Options<'a>, WordsFault>
    ensures asked { IfOk result (λ options. Asks (map string_bytes words.entry.now) (meaning_of options)) }
    ensures wrong { result ≡ Err WordsFault.Wrong
        → (m : Meaning) → Asks (map string_bytes words.entry.now) m → ⊥ }
    ensures few { IfOk result (λ options. length options.paths.items ≤ MAX_UNITS) }
{
    let matches = matched(alloc, words)?;
    options_in(alloc, &matches)
}
