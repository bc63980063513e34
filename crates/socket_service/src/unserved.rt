//! Why a service ended.

ghost use Rattle.std.specs.Prelude.{◌≡◌, None, Some};
ghost use Rattle.socket_service.specs.Ends.{fault_of};

use kap_service::{Engine, ShareFault, Unshared};
use serve_words::ServeFault;

/// Why a service didn't begin, or ended; and its engine, where that couldn't be shared.
#[derive(Drop)]
pub struct Unserved<E: Engine> {
    /// Why.
    pub fault: ServeFault,
    /// The engine that couldn't be shared.
    pub engine: Option<E>,
}

/// It ended by this fault, and not by its engine.
pub(crate) fn ended_by<E: Engine>(fault: ServeFault) -> Unserved<E>
    ensures fault { result.fault ≡ fault }
    ensures engine { result.engine ≡ None }
{
    Unserved {
        fault,
        engine: None,
    }
}

/// What a service says of an engine that can't be shared.
fn fault_of(fault: ShareFault) -> ServeFault
    ensures { result ≡ fault_of fault }
{
    match fault {
        ShareFault::NotStore { part, offset } => ServeFault::NotStore { part, offset },
        ShareFault::DiskFault => ServeFault::DiskFault,
        ShareFault::NoMemory => ServeFault::NoMemory,
    }
}

/// The engine couldn't be shared.
pub(crate) fn unshared_by<E: Engine>(left: Unshared<E>) -> Unserved<E>
    ensures fault { result.fault ≡ fault_of left.fault }
    ensures engine { result.engine ≡ Some left.engine }
{
    let Unshared { fault, engine } = left;
    Unserved {
        fault: fault_of(fault),
        engine: Some(engine),
    }
}
