//! What the words of a service say.

ghost use Rattle.std.specs.Prelude.{◌≡◌, false, map, string_bytes, true, IfErr, IfOk, IfSome};
ghost use Rattle.serve_words.specs.Options.{AreWithinLimits};
ghost use Rattle.serve_words.specs.ServeLines.{is_serve_line};
ghost use Rattle.serve_words.specs.declared.fault.ServeFault.TheVariants.{NoMemory, Usage};

use crate::fault::ServeFault;
use crate::lines::{IDLE_LIMIT, SEAT_LIMIT, is_serve_line};
use clap::{Arg, ArgAction, ArgMatches, Command};
use std::alloc::{AllocError, Global};
use word_numbers::number_within;

/// How many seats there are, where no option says it.
const SEATS: &str = "4";

/// How many seconds a link may be idle, where no option says it.
const IDLE: &str = "30";

/// What the words of a service say.
#[derive(Clone, Copy)]
pub struct ServeOptions<'a> {
    /// The host and the port at which it listens.
    pub addr: &'a str,
    /// How many seats it has.
    pub seats: u32,
    /// How many seconds a link may be idle.
    pub idle: u32,
    /// Whether one thread serves all links, in place of seats.
    pub single: bool,
}

/// The command whose options these are.
fn command<'a>(alloc: Global) -> Result<Command<'a>, AllocError> {
    let addr = Arg::new(alloc, "addr").long("addr").required(true);
    let seats = Arg::new(alloc, "seats").long("seats").default_value(SEATS);
    let idle = Arg::new(alloc, "idle").long("idle").default_value(IDLE);
    let single = Arg::new(alloc, "single")
        .long("single")
        .action(ArgAction::SetTrue);
    Command::new(alloc, "serve")
        .no_binary_name(true)
        .arg(addr)?
        .arg(seats)?
        .arg(idle)?
        .arg(single)
}

/// What the words give. They are those of the command, which takes them; so all that can lack is memory.
fn matches_of<'a>(alloc: Global, words: &'a [String]) -> Option<ArgMatches<'a>> {
    command(alloc).ok()?.try_get_matches_from(words).ok()
}

/// The options that these matches give.
fn options_in<'a>(matches: &ArgMatches<'a>) -> Option<ServeOptions<'a>>
    ensures { IfSome result AreWithinLimits }
{
    Some(ServeOptions {
        addr: matches.get_str("addr")?,
        seats: number_within(1, SEAT_LIMIT, matches.get_str("seats")?)?,
        idle: number_within(1, IDLE_LIMIT, matches.get_str("idle")?)?,
        single: matches.get_flag("single"),
    })
}

/// What the words say, as `clap` reads them: where no option says it there are 4 seats, and a link may be idle
/// for 30 seconds. `Usage` comes just where they aren't those of a service, and else `NoMemory` where memory
/// runs out.
pub fn serve_options<'a>(alloc: Global, words: &'a [String]) -> Result<ServeOptions<'a>, ServeFault>
    ensures usage { is_serve_line (map string_bytes words.now) ≡ false → result ≡ Err Usage }
    ensures fault { is_serve_line (map string_bytes words.now) ≡ true
        → IfErr result (λ fault. fault ≡ NoMemory) }
    ensures limits { IfOk result AreWithinLimits }
{
    if !is_serve_line(words) {
        return Err(ServeFault::Usage);
    }
    let Some(matches) = matches_of(alloc, words) else {
        return Err(ServeFault::NoMemory);
    };
    match options_in(&matches) {
        Some(options) => Ok(options),
        None => Err(ServeFault::NoMemory),
    }
}
