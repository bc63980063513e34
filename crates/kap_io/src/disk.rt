ghost use Rattle.std.specs.Prelude.{◌≡◌, ◌≤◌, ◌<◌, Bool, IsTrue, ℕ, length, IfOk, OnOk};
ghost use Rattle.kap_io.specs.Causes.{HasCause};
ghost use Rattle.kap_io.specs.Disk.{Image, Elapses, Elsewhere, Follows, Narrows, OnlyIn, Places, Stretched, Torn, overwritten, resized};
ghost use Rattle.kap_io.specs.declared.disk.Part.{Part};

use crate::failed::Failed;

/// One of the three files of a disk.
#[derive(Clone, Copy, Debug, PartialEq, Eq)]
pub enum Part {
    /// The head, which tells which of the two logs is the current one.
    Head,
    /// The one log.
    Left,
    /// The other log.
    Right,
}

/// Three files with one clock of moments. Between two syncs of a file a crash may leave any bytes in each
/// range that was written and past the old end, and any length from the least to the greatest that the file
/// had; the bytes outside stay. After a sync that succeeds it leaves what a read gives. `Failed` comes only
/// where the count of faults rose in the call.
pub trait Disk {
    /// Whether disks of this kind tell what a read gives and what a crash may leave.
    ghost tells: { Bool };

    /// What a read gives.
    ghost seen: { Self → Image };

    /// The images that a crash at this moment may leave.
    ghost may_leave: { Self → Image → Type 0 };

    /// The moment, as a number that never falls.
    ghost moment: { Self → ℕ };

    /// The images that a crash at some moment from that one on may have left, inside a call or between two.
    ghost left_since: { Self → ℕ → Image → Type 0 };

    /// How often it has failed; a count at 2^64 - 1 stays there.
    ghost faults: { Self → ℕ };

    /// The length of a file.
    fn size(&mut self, part: Part) -> Result<u64, Failed>
        ensures size { IsTrue tells → IfOk result (λ size. size ≡ length (seen self.old part)) }
        ensures seen { IsTrue tells → seen self.new ≡ seen self.old }
        ensures crash { IsTrue tells → Narrows (may_leave self.old) (may_leave self.new) }
        ensures time { IsTrue tells → Elapses (moment self.old) (moment self.new)
            (left_since self.old) (left_since self.new) (may_leave self.new) }
        ensures cause { HasCause (faults self.old) (faults self.new) result };

    /// Places bytes of a file from an offset on at the front of `buf`, and answers how many: 0 only at the
    /// file's end or past it.
    fn read(&mut self, part: Part, at: u64, buf: &mut [u8]) -> Result<usize, Failed>
        requires { 0 < length buf.old }
        ensures bound { IfOk result (λ count. count ≤ length buf.new) }
        ensures bytes { IsTrue tells → IfOk result (Places at (seen self.old part) buf.new) }
        ensures seen { IsTrue tells → seen self.new ≡ seen self.old }
        ensures crash { IsTrue tells → Narrows (may_leave self.old) (may_leave self.new) }
        ensures time { IsTrue tells → Elapses (moment self.old) (moment self.new)
            (left_since self.old) (left_since self.new) (may_leave self.new) }
        ensures cause { HasCause (faults self.old) (faults self.new) result };

    /// Writes all of these bytes at an offset, over what is there and past the end. A gap behind the old end
    /// reads as zeros. After `Failed` the file reads as one of its images, and the other two are as they
    /// were.
    fn write_at(&mut self, part: Part, at: u64, piece: &[u8]) -> Result<(), Failed>
        ensures written { IsTrue tells
            → OnOk result (seen self.new part ≡ overwritten at piece.now (seen self.old part)) }
        ensures elsewhere { IsTrue tells → Elsewhere part (seen self.old) (seen self.new) }
        ensures crash { IsTrue tells → Follows part (Torn at (length piece.now))
            (may_leave self.old) (may_leave self.new) }
        ensures time { IsTrue tells → Elapses (moment self.old) (moment self.new)
            (left_since self.old) (left_since self.new) (may_leave self.new) }
        ensures cause { HasCause (faults self.old) (faults self.new) result };

    /// Gives a file this length. A gap behind the old end reads as zeros. After `Failed` the file reads as
    /// one of its images, and the other two are as they were.
    fn cut(&mut self, part: Part, size: u64) -> Result<(), Failed>
        ensures cut { IsTrue tells
            → OnOk result (seen self.new part ≡ resized size (seen self.old part)) }
        ensures elsewhere { IsTrue tells → Elsewhere part (seen self.old) (seen self.new) }
        ensures crash { IsTrue tells → Follows part (Stretched size)
            (may_leave self.old) (may_leave self.new) }
        ensures time { IsTrue tells → Elapses (moment self.old) (moment self.new)
            (left_since self.old) (left_since self.new) (may_leave self.new) }
        ensures cause { HasCause (faults self.old) (faults self.new) result };

    /// From its `Ok` on a crash leaves of this file what a read gives, until the file is written or cut
    /// again.
    fn sync(&mut self, part: Part) -> Result<(), Failed>
        ensures durable { IsTrue tells
            → OnOk result (OnlyIn part (seen self.old part) (may_leave self.new)) }
        ensures seen { IsTrue tells → seen self.new ≡ seen self.old }
        ensures crash { IsTrue tells → Narrows (may_leave self.old) (may_leave self.new) }
        ensures time { IsTrue tells → Elapses (moment self.old) (moment self.new)
            (left_since self.old) (left_since self.new) (may_leave self.new) }
        ensures cause { HasCause (faults self.old) (faults self.new) result };

    /// What it reads as is one of the images of now.
    ghost reads_as: { (disk : Self) → IsTrue tells → may_leave disk (seen disk) };

    /// An image of now is one of those since an earlier moment.
    ghost counts_now: { (disk : Self) (t : ℕ) (c : Image) → IsTrue tells
        → t ≤ moment disk → may_leave disk c → left_since disk t c };

    /// An image since this moment is one of now.
    ghost only_now: { (disk : Self) (c : Image) → IsTrue tells
        → left_since disk (moment disk) c → may_leave disk c };
}
