ghost use Rattle.alert_node.specs.AlertLaws.{alert_goes_on};
ghost use Rattle.alert_node.specs.Alerts.{alert_says, alert_step};
ghost use Rattle.alert_node.specs.Watches.{watch_in};

use crate::events::say;
use crate::levels::watched;
use crate::watch::{Counts, Watch};
use kap_base::{Level, NoMemory, Point, Shared, Text};
use lambda_types::Lambda;
use msg_template::Template;
use node_core::{Rule, Said};
use std::alloc::Global;
use task_graph::Conditions;

/// What `alert` does (Kapacitor 1.6: alert node): each point of a group has a level, by expressions, by
/// resets, and by the level of the group's point before; and of levels above OK, and of OK after another one,
/// a topic is told by events.
#[derive(Drop)]
pub struct Alert {
    /// The expressions: `.info`, `.warn` and `.crit`.
    pub expressions: Conditions<Lambda>,
    /// The resets: `.infoReset`, `.warnReset` and `.critReset`.
    pub resets: Conditions<Lambda>,
    /// The template of an event's id.
    pub id: Template,
    /// The template of an event's message.
    pub message: Template,
    /// The topic that is told.
    pub topic: Text,
    /// The id of the task.
    pub task: Text,
    /// `.stateChangesOnly`: of a level that the group has already no event tells.
    pub state_changes_only: bool,
    /// `.noRecoveries`: of OK no event tells.
    pub no_recoveries: bool,
}

impl Rule for Alert {
    type Cell = Watch;

    ghost ports = { λ a. 1 };

    ghost answer = { alert_says };

    ghost kept = { watch_in };

    ghost step = { alert_step };

    ghost goes_on = { alert_goes_on };

    fn first(&self, alloc: Global) -> Watch {
        let _ = alloc;
        let none = Counts {
            info: 0,
            warn: 0,
            crit: 0,
        };
        Watch {
            level: Level::Fine,
            expressions: none,
            resets: none,
        }
    }

    fn feed(
        &mut self,
        alloc: Global,
        cell: &mut Watch,
        port: u32,
        point: Shared<Point>,
    ) -> Result<Said, NoMemory> {
        let _ = port;
        let before = *cell;
        let now = watched(alloc, self, before, point.value())?;
        *cell = now;
        say(alloc, self, before.level, now.level, point)
    }
}
