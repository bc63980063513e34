//! `kapd - check` prints the canonical form of the script on standard input, and `kapd - replay ID SCRIPT`
//! replays the recording there by the task of the script, and writes what it does to standard output. `kapd
//! PLACE init` makes a store in the folder PLACE; `kapd PLACE tasks`, `topics`, `alerts` and `export` list what
//! the store there holds, and `define`, `enable`, `disable`, `delete`, `write` and `compact` change it. `kapd
//! PLACE serve` does the same for clients that ask over HTTP.
#![tactic(auto)]

mod places;
mod service;

ghost use Rattle.std.specs.Prelude.{IsTrue};
ghost use Rattle.kap_base.specs.Points.{is_time};

use flow_core::Net;
use kap_io::{
    Clock, DirDisk, Disk, LockFile, MemDisk, NoGate, ReadSource, RealClock, Sink, Source, WriteSink,
};
use kap_server::{Status, command, status_text};
use lambda_types::{Patterns, RegexPatterns};
use net_run::NumberingNode;
use node_set::{AnyNode, ScriptNode};
use places::{Place, place_in};
use serve_words::ServeFault;
use service::{ServiceEnd, ended_by, serve_disk, service_in};
use std::alloc::Global;
use std::env::Env;
use std::fs::Files;
use std::os::unix::fs::FileExt;
use std::path::PathBuf;
use std::process::ExitCode;
use std::thread::Threads;
use std::{env, io, time};

/// What `kapd --help` prints.
const HELP: &str = "kapd PLACE COMMAND ..

PLACE is the folder of a store; or `-`, an empty disk in memory, gone at the
end. `check`, `replay` and `gen` don't look at it. Commands:

  check        reads a script from standard input, looks at its tokens,
               grammar, names, nodes with their arguments and properties,
               lambdas with their patterns, and graph, and writes its canonical
               form
  replay [OPTION].. ID SCRIPT [ID SCRIPT]..
               reads a recording from standard input, and writes what the tasks
               do at its points
  gen N        writes a sample recording of N points (1 to 1000000): a point a
               second, of one of eight hosts in turn
  gen N ID SCRIPT [ID SCRIPT]..
               writes how many points it has, and how many lines and bytes a
               replay of it would write
  init         makes an empty store in the folder, which must be there: its
               files are head, left and right
  tasks        writes a line `ID enabled` or `ID disabled` for each task of the
               store in the folder
  topics       writes a line `topic LEVEL TOPIC` for each topic of its alerts,
               with the greatest level of its ids, and behind it a line `id
               LEVEL ID` for each of these
  alerts       writes the lines of all changes of level
  export       writes a recording of all points
  define ID    reads a script from standard input, and defines a task by it in
               the store in the folder; it isn't enabled
  enable ID, disable ID, delete ID
               an enabled task sees the points that are written from then on
  write [OPTION].. DB RP
               reads points in line protocol from standard input, stores them
               under a database and a policy, and writes what the enabled tasks
               do at them
  compact      writes the store anew, without what it needs no more: tasks,
               points and changes of level stay
  serve --addr HOST:PORT [OPTION]..
               answers what is asked over HTTP at this address, as Kapacitor's
               API does, until it is killed; when it listens, standard error
               says `kapd: listening on HOST:PORT`. In memory there is no store
               that it could open

But for init these open the store in the folder, and first store the changes of
level that a stop left out.

Options of replay, in any order before the first ID, each at most once:

  --counts     tells behind the output how many points each node dropped
  --workers W  has the nodes run by W workers in threads (1 to 64, of which a
               replay has no more than tasks; else one a task, and at most 4)
  --capacity C gives each edge between two nodes room for C messages (1 to
               65536; else 64)
  --schedule N runs the nodes in one thread and no workers, in the order that N
               (0 to 4294967295) gives

write takes --workers and --capacity, and before DB

  --precision P has a time of a line count nanoseconds (ns or n, also where it
               isn't given), microseconds (u), milliseconds (ms), seconds (s),
               minutes (m) or hours (h); a line without one has the time of now

serve takes, before or behind --addr, each at most once

  --seats N    answers N links at a time, each in a thread (1 to 64; else 4)
  --single     answers all links by one thread, at most 1024 at a time; this
               one stands alone, and not with --seats
  --idle S     ends a link where nothing comes or goes for S seconds (1 to 3600;
               else 30)

The output is the same for each W, C and N.

ID is a task's name: 1 to 64 ASCII letters, digits, `_`, `-` and `.`; the first
doesn't begin with `--`. SCRIPT is the task's script, a TICKscript of at most
65,536 bytes. A replay, or a gen, has at most 64 tasks. A task's nodes are of
these kinds: stream, from, where, eval, groupBy, log, default, delete, shift,
sample, window, sum, count, min, max, first, last, spread, distinct, top,
bottom, stateCount, changeDetect, difference, cumulativeSum, elapsed, union,
join and alert. Other kinds of Kapacitor 1.6 are refused as NoKind.

A recording has three lines a point: the database, the retention policy, and the
point in InfluxDB's line protocol. Database and policy are UTF-8 of at most
65,536 bytes. Numbers of fields are whole, from -9223372036854775808i to
9223372036854775807i, and end in `i`; others are refused. A time is whole
nanoseconds since 1970, at most 9000000000000000000 before or behind it.

An example:

  printf 'd\\nr\\ncpu,host=a idle=7i 5\\n' | kapd - replay t \\
    \"stream|from().measurement('cpu')|alert().crit(lambda: \\\"idle\\\" < 10)\"

A script that stands in a file, on a recording that Kapacitor made (those are
gzipped):

  zcat day.srpl | kapd - replay t \"$(cat cpu_alert.tick)\"

A line of the output is `out ID NODE POINT` for a point that a log passes,
`alert NUMBER TOPIC EVENT OLD->NEW TIME MESSAGE` for a change of level, or with
--counts `dropped ID NODE NUMBER`. NODE is a kind and the node's number in its
task; changes are numbered from 1 over all tasks. An alert's topic is
`main:ID:NODE` unless its script names one. A measurement or a field that no
point has is no fault: what asks for it says nothing.

The exit status, and what standard error says behind `kapd: `:

  0   (nothing: all was done)          8   exists
  2   usage                            9   too many tasks
  3   script: FAULT at BYTE            10  too long
  4   line N: FAULT                    70  no memory
  5   truncated at line N              71  read fault
  6   not a store: FILE at OFFSET      72  write fault
  7   no task                          73  disk fault
  74  door fault                       75  ready fault

BYTE is a byte of the script, counted from 0; of a Graph fault it is the node's
number. Exists: an id was given to two tasks, a task of the store has it, or
init found a store's head in the folder. Not a store: the folder has no head of
a store (head at 0: no init was done there, or the head was damaged, and init
would then empty the logs), or a log is none at this offset, or the record there
defines a task by a script that is none, or it is the last snapshot, and has
states of other nodes. Disk fault: PLACE isn't there, is no folder, or its files
can't be read or written; or another process uses the store, which a second line
says then: `kapd: another process uses the store`. Door fault: nobody can listen
at HOST:PORT, or no more links can be taken there. Ready fault: the system
doesn't tell which links may go on.

  kapd --help        prints this
  kapd --version     prints the version
";

/// What `kapd --version` prints.
const VERSION: &str = "kapd 0.1.0
";

/// The words of the command line, without the program's name. Words that aren't UTF-8 are no command's.
fn words_of<R: Env + AllocGlobal>(rt: &R) -> Result<Vec<String>, Status> {
    let args = match env::args(rt) {
        Ok(args) => args,
        Err(fault) if fault.kind() == io::ErrorKind::OutOfMemory => return Err(Status::NoMemory),
        Err(_) => return Err(Status::Usage),
    };
    let mut words = Vec::new(rt.alloc());
    for word in args.skip(1) {
        if words.push(word).is_err() {
            return Err(Status::NoMemory);
        }
    }
    Ok(words)
}

/// Does what the words ask for, over any devices, by nodes of this type.
fn run_over<
    S: Source,
    K: Sink,
    D: Disk,
    P: Patterns,
    R: Threads + Sync,
    N: ScriptNode + NumberingNode + Send,
>(
    rt: &R,
    alloc: Global,
    words: &[String],
    now: i64,
    input: &mut S,
    out: &mut K,
    disk: &mut D,
    pats: &mut P,
) -> Status
    requires { IsTrue (is_time now) }
{
    let mut ran: Option<Net<N>> = None;
    command(
        rt, alloc, words, now, input, out, disk, pats, &NoGate, &mut ran,
    )
}

/// Does what the words behind the place ask for, by nodes of this type, with the store on this disk.
fn run_on<
    R: time::Clock + Threads + Sync + Input + Print + AllocGlobal,
    D: Disk,
    N: ScriptNode + NumberingNode + Send,
>(rt: &R, words: &[String], disk: &mut D) -> Status {
    let now = RealClock::new(rt).now();
    let mut input = ReadSource::new(rt.reader());
    let mut out = WriteSink::new(io::writer(rt));
    let mut pats = RegexPatterns::new(rt.alloc(), Vec::new(rt.alloc()));
    run_over::<_, _, _, _, R, N>(
        rt,
        rt.alloc(),
        words,
        now,
        &mut input,
        &mut out,
        disk,
        &mut pats,
    )
}

/// How a command ended.
#[derive(Drop)]
struct Outcome {
    status: Status,
    /// Whether another process uses the store.
    in_use: bool,
}

/// What ended with this status, and has nothing to do with other processes.
fn alone(status: Status) -> Outcome {
    Outcome {
        status,
        in_use: false,
    }
}

/// Does what the words behind the place ask for.
fn run<
    R: Files + time::Clock + Threads + Sync + Input + Print + AllocGlobal,
    N: ScriptNode + NumberingNode + Send,
>(rt: &R, place: Place<'_>, words: &[String]) -> Outcome
where
    R::File: FileExt + LockFile,
{
    let alloc = rt.alloc();
    match place {
        Place::Memory => alone(run_on::<R, MemDisk, N>(
            rt,
            words,
            &mut MemDisk::new(alloc, Vec::new(alloc)),
        )),
        Place::Folder(path) => match PathBuf::from_str(alloc, path) {
            Ok(folder) => {
                let mut disk = DirDisk::new(alloc, rt, folder);
                let status = run_on::<R, _, N>(rt, words, &mut disk);
                Outcome {
                    status,
                    in_use: disk.is_in_use(),
                }
            }
            Err(_) => alone(Status::NoMemory),
        },
    }
}

/// Prints a text to standard output.
fn show<R: Print>(rt: &R, text: &str) -> Status {
    match rt.print(text) {
        Ok(()) => Status::Ok,
        Err(_) => Status::WriteFault,
    }
}

/// How the program ended.
#[derive(Drop)]
enum Ended {
    /// As a command.
    Command(Outcome),
    /// As a service that had a fault.
    Service(ServiceEnd),
}

fn answer<
    R: Files + time::Clock + Threads + Sync + Input + Print + AllocGlobal,
    N: ScriptNode + NumberingNode + Send,
>(rt: &R, words: &[String]) -> Outcome
where
    R::File: FileExt + LockFile,
{
    match words {
        [word] if word.as_str() == "--help" => alone(show(rt, HELP)),
        [word] if word.as_str() == "--version" => alone(show(rt, VERSION)),
        _ => match place_in(words) {
            Some((place, rest)) => run::<R, N>(rt, place, rest),
            None => alone(Status::Usage),
        },
    }
}

/// Says on standard error how the command ended.
fn tell<R: Eprint + AllocGlobal>(rt: &R, status: &Status) -> io::Result<()> {
    match status_text(rt.alloc(), status) {
        Ok(text) => {
            let words = str::from_utf8(text.as_slice()).unwrap_or("");
            eprintln!(rt; "kapd: {words}")
        }
        Err(_) => eprintln!(rt; "kapd: no memory"),
    }
}

/// Says that another process uses the store, behind a disk fault where one does.
fn tell_use<R: Eprint>(rt: &R, in_use: bool) -> io::Result<()> {
    if in_use {
        eprintln!(rt; "kapd: another process uses the store")?;
    }
    Ok(())
}

/// Says on standard error how the program ended, where it didn't end well; and gives its exit status.
fn told<R: Eprint + AllocGlobal>(rt: &R, ended: &Ended) -> u8 {
    match ended {
        Ended::Command(Outcome { status, in_use }) => {
            if *status != Status::Ok {
                let _ = tell(rt, status);
                let _ = tell_use(rt, *in_use && *status == Status::DiskFault);
            }
            status.number()
        }
        Ended::Service(ServiceEnd { fault, in_use }) => {
            let _ = eprintln!(rt; "kapd: {fault}");
            let _ = tell_use(rt, *in_use && *fault == ServeFault::DiskFault);
            fault.number()
        }
    }
}

/// Serves the store in a folder, as it is in `main`: a disk over its files may go to other threads there, where
/// the runtime is known.
fn main(rt: HostRuntime) -> ExitCode {
    let alloc = rt.alloc();
    let words = match words_of(&rt) {
        Ok(words) => words,
        Err(status) => return ExitCode::from(told(&rt, &Ended::Command(alone(status)))),
    };
    let ended = match service_in(alloc, &words) {
        None => Ended::Command(answer::<HostRuntime, AnyNode>(&rt, &words)),
        Some(Err(fault)) => Ended::Service(ended_by(fault)),
        Some(Ok((Place::Memory, options))) => {
            let disk = MemDisk::new(alloc, Vec::new(alloc));
            match serve_disk(&rt, alloc, disk, options) {
                Ok(()) => Ended::Command(alone(Status::Ok)),
                Err(end) => Ended::Service(ended_by(end.fault)),
            }
        }
        Some(Ok((Place::Folder(path), options))) => match PathBuf::from_str(alloc, path) {
            Err(_) => Ended::Service(ended_by(ServeFault::NoMemory)),
            Ok(folder) => match serve_disk(&rt, alloc, DirDisk::new(alloc, &rt, folder), options) {
                Ok(()) => Ended::Command(alone(Status::Ok)),
                Err(end) => Ended::Service(ServiceEnd {
                    fault: end.fault,
                    in_use: end.disk.is_some_and(|disk| disk.is_in_use()),
                }),
            },
        },
    };
    ExitCode::from(told(&rt, &ended))
}
