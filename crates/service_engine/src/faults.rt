//! Why an engine can't be made, as the service tells it.

ghost use Rattle.std.specs.Prelude.{◌≡◌};
ghost use Rattle.service_engine.specs.Faults.{share_fault};

use engine_store::EngineFault;
use kap_service::ShareFault;

/// What a fault of an engine is for the service, where it is made: no script is asked for then.
pub(crate) fn share_fault(fault: EngineFault) -> ShareFault
    ensures { result ≡ share_fault fault }
{
    match fault {
        EngineFault::NotStore { part, offset } => ShareFault::NotStore { part, offset },
        EngineFault::DiskFault => ShareFault::DiskFault,
        _ => ShareFault::NoMemory,
    }
}
