ghost use Rattle.std.specs.Prelude.{ℕ, Option};
ghost use Rattle.kap_io.specs.Doors.{Admits};
ghost use Rattle.conn_loop.specs.Doors.{MayStopAt};

use kap_io::{Stop, TryLink};

/// Where links come that don't wait. Its calls never wait: where they would have to, they answer `Waits`.
pub trait TryDoor<L: TryLink> {
    /// How many links are still to come, where it tells.
    ghost left: { Self → Option ℕ };

    /// How often it has failed; a count at 2^64 - 1 stays there.
    ghost faults: { Self → ℕ };

    /// How often a call would have had to wait; a count at 2^64 - 1 stays there.
    ghost waits: { Self → ℕ };

    /// The next link, `None` only where no more come. `Failed` comes only where the count of faults rose in
    /// this call, `Waits` only where that of waits did, and then no link is taken.
    fn try_accept(&mut self) -> Result<Option<L>, Stop>
        ensures links { Admits (left self.old) (left self.new) result }
        ensures cause { MayStopAt (faults self.old) (faults self.new) (waits self.old)
            (waits self.new) result };
}
