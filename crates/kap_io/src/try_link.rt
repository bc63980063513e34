ghost use Rattle.std.specs.Prelude.{ℕ, ◌<◌, List, Option, length};
ghost use Rattle.std.specs.Io.{ReadsAtMost};
ghost use Rattle.std.specs.Io.KnownBytes.{ReadConsumes, WriteAppends};
ghost use Rattle.kap_io.specs.Pieces.{Keeps, TakesSome};
ghost use Rattle.kap_io.specs.Tries.{MayStop};

/// Why a call of a link that doesn't wait came to nothing.
#[derive(Clone, Copy, Debug, PartialEq, Eq)]
pub enum Stop {
    /// It would have to wait.
    Waits,
    /// The link has failed.
    Failed,
}

/// A connection whose calls never wait: where they would have to, they answer `Waits`. Each side has a count
/// of its failures, and a call of one side leaves the bytes of the other one as they are.
pub trait TryLink {
    /// The bytes still to come, where it tells them.
    ghost left: { Self → Option (List ℕ) };

    /// The bytes that it has taken, where it tells them.
    ghost written: { Self → Option (List ℕ) };

    /// How often reading has failed; a count at 2^64 - 1 stays there.
    ghost read_faults: { Self → ℕ };

    /// How often writing has failed; a count at 2^64 - 1 stays there.
    ghost write_faults: { Self → ℕ };

    /// How often a call would have had to wait; a count at 2^64 - 1 stays there.
    ghost waits: { Self → ℕ };

    /// Reads the next bytes to the front of `buf`, and answers how many: 0 only at the end. `Failed` comes
    /// only where the count of failed reads rose in this call, `Waits` only where that of waits did, and then
    /// no byte is taken.
    fn try_read(&mut self, buf: &mut [u8]) -> Result<usize, Stop>
        requires { 0 < length buf.old }
        ensures bound { ReadsAtMost result buf.new }
        ensures bytes { ReadConsumes (left self.old) (left self.new) result buf.new }
        ensures kept { Keeps (written self.old) (written self.new) }
        ensures cause { MayStop (read_faults self.old) (read_faults self.new) (write_faults self.old)
            (write_faults self.new) (waits self.old) (waits self.new) result };

    /// Takes a prefix of the piece, and answers how many bytes that is, 1 at least. `Failed` comes only where
    /// the count of failed writes rose in this call, `Waits` only where that of waits did, and then nothing
    /// is taken.
    fn try_write(&mut self, piece: &[u8]) -> Result<usize, Stop>
        requires { 0 < length piece.now }
        ensures bound { TakesSome result piece.now }
        ensures bytes { WriteAppends (written self.old) (written self.new) result piece.now }
        ensures kept { Keeps (left self.old) (left self.new) }
        ensures cause { MayStop (write_faults self.old) (write_faults self.new) (read_faults self.old)
            (read_faults self.new) (waits self.old) (waits self.new) result };
}
