ghost use Rattle.std.specs.Prelude.{◌≡◌};
ghost use Rattle.futures.specs.Task.{IsArmed, Keeps as KeepsTask};

use crate::try_link::TryLink;
use futures::task::Context;

/// A connection whose calls never wait, and that has a task woken where it may go on.
pub trait PollLink: TryLink {
    /// Has the task of this context woken where a call that would have had to wait may go on. It changes
    /// nothing of what was read and written, nor of the counts.
    fn register(&mut self, cx: &mut Context<'_>)
        ensures left { Self.left self.new ≡ Self.left self.old }
        ensures written { Self.written self.new ≡ Self.written self.old }
        ensures reads { Self.read_faults self.new ≡ Self.read_faults self.old }
        ensures writes { Self.write_faults self.new ≡ Self.write_faults self.old }
        ensures waits { Self.waits self.new ≡ Self.waits self.old }
        ensures armed { IsArmed cx.new }
        ensures task { KeepsTask cx.old cx.new };
}
