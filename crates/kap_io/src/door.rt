ghost use Rattle.std.specs.Prelude.{ℕ, Option};
ghost use Rattle.kap_io.specs.Causes.{HasCause};
ghost use Rattle.kap_io.specs.Doors.{Admits};

use crate::failed::Failed;
use crate::link::Link;

/// Where links come. Each thread has a door of its own.
pub trait Door<L: Link> {
    /// How many links are still to come, where it tells.
    ghost left: { Self → Option ℕ };

    /// How often it has failed; a count at 2^64 - 1 stays there.
    ghost faults: { Self → ℕ };

    /// The next link, `None` only where no more come. `Failed` comes only where the count of faults rose in
    /// this call, and then no link is taken.
    fn accept(&mut self) -> Result<Option<L>, Failed>
        ensures links { Admits (left self.old) (left self.new) result }
        ensures cause { HasCause (faults self.old) (faults self.new) result };
}
