ghost use Rattle.std.specs.Prelude.{ℕ, ◌<◌, List, Option, length};
ghost use Rattle.std.specs.Io.{ReadsAtMost};
ghost use Rattle.std.specs.Io.KnownBytes.{ReadConsumes};
ghost use Rattle.kap_io.specs.Causes.{HasCause};

use crate::failed::Failed;

/// What bytes are read from.
pub trait Source {
    /// The bytes still to come, where it tells them.
    ghost left: { Self → Option (List ℕ) };

    /// How often it has failed; a count at 2^64 - 1 stays there.
    ghost faults: { Self → ℕ };

    /// Reads the next bytes to the front of `buf`, and answers how many: 0 only at the end. `Failed` comes
    /// only where the count of faults rose in this call, and then no byte is taken.
    fn read(&mut self, buf: &mut [u8]) -> Result<usize, Failed>
        requires { 0 < length buf.old }
        ensures bound { ReadsAtMost result buf.new }
        ensures bytes { ReadConsumes (left self.old) (left self.new) result buf.new }
        ensures cause { HasCause (faults self.old) (faults self.new) result };
}
