//! What has lines of its own in a list.

ghost use Rattle.std.specs.Prelude.{◌≡◌};
ghost use Rattle.recording_file.specs.Printed.{record_text};
ghost use Rattle.topic_core.specs.Print.{transition_line};
ghost use Rattle.store_lists.specs.Lists.{task_line};

use kap_base::{Bytes, NoMemory, Point, Shared};
use recording_file::print_record;
use std::alloc::Global;
use store_records::StoredTask;
use topic_core::{Transition, print_transition};

/// What has lines of its own in a list.
pub(crate) trait Listed {
    ghost use Rattle.std.specs.Prelude.{◌≡◌, ◌++◌, ℕ, List, OnOk};

    /// Its lines, each with its line feed.
    ghost lines: { Self → List ℕ };

    /// Adds its lines.
    fn put(&self, alloc: Global, text: &mut Bytes) -> Result<(), NoMemory>
        ensures { OnOk result (text.new ≡ text.old ++ lines self.now) };
}

/// A task has a line: its id, and whether it is enabled.
impl Listed for StoredTask {
    ghost lines = { λ task. task_line task };

    fn put(&self, _: Global, text: &mut Bytes) -> Result<(), NoMemory> {
        text.append(self.id.bytes())?;
        if self.enabled {
            text.append(b" enabled\n")
        } else {
            text.append(b" disabled\n")
        }
    }
}

/// A transition has the line that a replay prints of it.
impl Listed for Transition {
    ghost lines = { λ transition. transition_line transition };

    fn put(&self, alloc: Global, text: &mut Bytes) -> Result<(), NoMemory> {
        let line = print_transition(alloc, self)?;
        text.append(line.as_slice())
    }
}

/// A point has its three lines in a recording.
impl Listed for Shared<Point> {
    ghost lines = { λ point. record_text point };

    fn put(&self, alloc: Global, text: &mut Bytes) -> Result<(), NoMemory> {
        let record = print_record(alloc, self.value())?;
        text.append(record.as_slice())
    }
}
