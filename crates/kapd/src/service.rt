//! The service of a store.

ghost use Rattle.std.specs.Prelude.{IfOk, IfSome};
ghost use Rattle.serve_words.specs.Options.{AreWithinLimits};

use crate::places::{Place, place_in};
use engine_store::EngineFault;
use kap_io::Disk;
use lambda_types::RegexPatterns;
use serve_words::{ServeFault, ServeOptions, serve_options};
use service_engine::{DiskEngine, Unopened};
use socket_service::{Sockets, Unserved, serve_alone, serve_seats};
use std::alloc::Global;
use std::sync::Wait;
use std::thread::Threads;
use std::time::Clock;

/// How many workers the engine has.
const WORKERS: u32 = 4;

/// For how many messages each edge of its net has room.
const CAPACITY: u32 = 64;

/// How a service ended, and the disk of its store, where the engine couldn't be opened or shared.
#[derive(Drop)]
pub struct Ended<D: Disk + Drop> {
    pub fault: ServeFault,
    pub disk: Option<D>,
}

/// What a service says of an engine that can't be opened.
fn fault_of(fault: EngineFault) -> ServeFault {
    match fault {
        EngineFault::NotStore { part, offset } => ServeFault::NotStore { part, offset },
        EngineFault::DiskFault => ServeFault::DiskFault,
        _ => ServeFault::NoMemory,
    }
}

/// Serves the store of a disk.
pub fn serve_disk<
    D: Disk + Drop + Send,
    R: Sockets + Threads + Wait + Clock + Eprint + Sync + Send,
>(rt: &R, alloc: Global, disk: D, options: ServeOptions<'_>) -> Result<(), Ended<D>>
    requires { AreWithinLimits options }
{
    let pats = RegexPatterns::new(alloc, Vec::new(alloc));
    let engine = match DiskEngine::<D, RegexPatterns, R>::open(
        rt, alloc, disk, pats, WORKERS, CAPACITY,
    ) {
        Ok(engine) => engine,
        Err(Unopened { fault, disk, .. }) => {
            return Err(Ended {
                fault: fault_of(fault),
                disk: Some(disk),
            });
        }
    };
    let served = if options.single {
        serve_alone(rt, alloc, engine, options)
    } else {
        serve_seats(rt, alloc, engine, options)
    };
    match served {
        Ok(()) => Ok(()),
        Err(Unserved { fault, engine }) => Err(Ended {
            fault,
            disk: engine.map(|engine| engine.into_parts().0),
        }),
    }
}

/// What the words of a command line ask of a service, where they ask for one: the place of its store, and its
/// options.
pub fn service_in(
    alloc: Global,
    words: &[String],
) -> Option<Result<(Place<'_>, ServeOptions<'_>), ServeFault>>
    ensures { IfSome result (λ asked. IfOk asked (λ service. AreWithinLimits service.1)) }
{
    let (place, rest) = place_in(words)?;
    let (command, options) = rest.split_first()?;
    if command.as_str() != "serve" {
        return None;
    }
    match serve_options(alloc, options) {
        Ok(options) => Some(Ok((place, options))),
        Err(fault) => Some(Err(fault)),
    }
}

/// How a service ended that wasn't closed.
#[derive(Drop)]
pub struct ServiceEnd {
    /// Why.
    pub fault: ServeFault,
    /// Whether another process uses the store.
    pub in_use: bool,
}

/// It ended by this fault, and not by another process.
pub fn ended_by(fault: ServeFault) -> ServiceEnd {
    ServiceEnd {
        fault,
        in_use: false,
    }
}
