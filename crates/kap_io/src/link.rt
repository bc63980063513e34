ghost use Rattle.std.specs.Prelude.{ℕ, ◌<◌, ◌≤◌, List, Option, length};
ghost use Rattle.std.specs.Io.{ReadsAtMost};
ghost use Rattle.std.specs.Io.KnownBytes.{ReadConsumes, WriteAppends};
ghost use Rattle.kap_io.specs.Causes.{HasCause};
ghost use Rattle.kap_io.specs.Pieces.{Keeps, TakesSome};

use crate::failed::Failed;

/// A connection: what comes is read, and what goes is written. Each side has a count of its own, and a call
/// of one side leaves the bytes of the other one as they are.
pub trait Link {
    /// The bytes still to come, where it tells them.
    ghost left: { Self → Option (List ℕ) };

    /// The bytes that it has taken, where it tells them.
    ghost written: { Self → Option (List ℕ) };

    /// How often reading has failed; a count at 2^64 - 1 stays there.
    ghost read_faults: { Self → ℕ };

    /// How often writing has failed; a count at 2^64 - 1 stays there.
    ghost write_faults: { Self → ℕ };

    /// Reads the next bytes to the front of `buf`, and answers how many: 0 only at the end. `Failed` comes
    /// only where the count of failed reads rose in this call, and then no byte is taken.
    fn read(&mut self, buf: &mut [u8]) -> Result<usize, Failed>
        requires { 0 < length buf.old }
        ensures bound { ReadsAtMost result buf.new }
        ensures bytes { ReadConsumes (left self.old) (left self.new) result buf.new }
        ensures kept { Keeps (written self.old) (written self.new) }
        ensures cause { HasCause (read_faults self.old) (read_faults self.new) result }
        ensures other { write_faults self.old ≤ write_faults self.new };

    /// Takes a prefix of the piece, and answers how many bytes that is, 1 at least. A device that takes
    /// nothing has failed. `Failed` comes only where the count of failed writes rose in this call, and then
    /// nothing is taken.
    fn write(&mut self, piece: &[u8]) -> Result<usize, Failed>
        requires { 0 < length piece.now }
        ensures bound { TakesSome result piece.now }
        ensures bytes { WriteAppends (written self.old) (written self.new) result piece.now }
        ensures kept { Keeps (left self.old) (left self.new) }
        ensures cause { HasCause (write_faults self.old) (write_faults self.new) result }
        ensures other { read_faults self.old ≤ read_faults self.new };
}
