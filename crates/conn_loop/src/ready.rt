ghost use Rattle.std.specs.Prelude.{◌≡◌, ◌≤◌, ℕ};
ghost use Rattle.kap_io.specs.Causes.{HasCause};

use kap_io::{Failed, TryLink};

/// What tells which links may go on. It promises nothing of the numbers that it tells.
pub trait Ready<L: TryLink> {
    /// How often it has failed; a count at 2^64 - 1 stays there.
    ghost faults: { Self → ℕ };

    /// Has this number told from now on, where this link may go on. It changes nothing of what was read and
    /// written, nor of the link's counts. `Failed` comes only where the count of faults rose in this call.
    fn watch(&mut self, link: &mut L, number: u32) -> Result<(), Failed>
        ensures left { L.left link.new ≡ L.left link.old }
        ensures written { L.written link.new ≡ L.written link.old }
        ensures reads { L.read_faults link.new ≡ L.read_faults link.old }
        ensures writes { L.write_faults link.new ≡ L.write_faults link.old }
        ensures waits { L.waits link.new ≡ L.waits link.old }
        ensures cause { HasCause (faults self.old) (faults self.new) result };

    /// Takes a link with this number, which has ended.
    fn release(&mut self, number: u32, link: L)
        ensures later { faults self.old ≤ faults self.new };

    /// Waits until links may go on, or some while is over; where `at_once`, it doesn't wait. `Failed` comes
    /// only where the count of faults rose in this call.
    fn wait(&mut self, at_once: bool) -> Result<(), Failed>
        ensures cause { HasCause (faults self.old) (faults self.new) result };

    /// The numbers of links that may go on, as the last wait found them.
    fn numbers(&self) -> &[u32];
}
