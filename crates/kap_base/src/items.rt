//! What nodes hand on to one another, and what they do.

use crate::duplicate::Duplicate;
use crate::groups::Batch;
use crate::memory::NoMemory;
use crate::point::Point;
use crate::shared::Shared;
use crate::text::Text;
use std::alloc::Global;
use std::fmt;
use std::marker::Model;

/// The number of a source point in a run or a store, from 1. What a node gives has the stamp of the point
/// that caused it.
#[derive(Clone, Copy, Debug, PartialEq, Eq, PartialOrd, Ord)]
pub struct Stamp(pub u64);

/// What a node hands on: a point, or points that a window gives together.
#[derive(Debug, PartialEq, Eq, Drop)]
pub enum Body {
    /// A point of a stream.
    Point(Shared<Point>),
    /// The points of a window.
    Batch(Shared<Batch>),
}

impl Duplicate for Body {
    fn copy(&self, alloc: Global) -> Result<Body, NoMemory> {
        match self {
            Body::Point(point) => Ok(Body::Point(point.copy(alloc)?)),
            Body::Batch(batch) => Ok(Body::Batch(batch.copy(alloc)?)),
        }
    }
}

/// What a node hands on, with its stamp.
#[derive(Debug, PartialEq, Eq, Drop)]
pub struct Item {
    /// The stamp of the source point that caused it.
    pub stamp: Stamp,
    /// The point or the points.
    pub body: Body,
}

impl Duplicate for Item {
    fn copy(&self, alloc: Global) -> Result<Item, NoMemory> {
        Ok(Item {
            stamp: self.stamp,
            body: self.body.copy(alloc)?,
        })
    }
}

/// What goes over an edge of a graph: an item, or a barrier behind all items with stamps up to its own.
#[derive(Debug, PartialEq, Eq, Drop)]
pub enum Msg {
    /// An item.
    Item(Item),
    /// A barrier.
    Barrier(Stamp),
}

impl Duplicate for Msg {
    fn copy(&self, alloc: Global) -> Result<Msg, NoMemory> {
        match self {
            Msg::Item(item) => Ok(Msg::Item(item.copy(alloc)?)),
            Msg::Barrier(stamp) => Ok(Msg::Barrier(*stamp)),
        }
    }
}

/// The level of an alert (Kapacitor 1.6: alert node), in rising order.
#[derive(Clone, Copy, Debug, PartialEq, Eq, PartialOrd, Ord)]
pub enum Level {
    /// Nothing is wrong, printed `OK`.
    Fine,
    /// Printed `INFO`.
    Info,
    /// Printed `WARNING`.
    Warning,
    /// Printed `CRITICAL`.
    Critical,
}

impl Level {
    ghost use Rattle.std.specs.Prelude.{◌≡◌};
    ghost use Rattle.kap_base.specs.Levels.{level_name, same_level};

    /// The word that it is printed as.
    pub fn name(&self) -> &'static str
        ensures { result.now ≡ level_name self.now }
    {
        match self {
            Level::Fine => "OK",
            Level::Info => "INFO",
            Level::Warning => "WARNING",
            Level::Critical => "CRITICAL",
        }
    }

    /// Whether the two levels are one.
    pub fn is_same(self, other: Level) -> bool
        ensures { result ≡ same_level self other }
    {
        self == other
    }
}

impl fmt::Display for Level {
    fn fmt<W: fmt::Write>(&self, f: &mut fmt::Formatter<W>) -> fmt::Result {
        f.write_str(self.name())
    }
}

impl Duplicate for Level {
    fn copy(&self, alloc: Global) -> Result<Level, NoMemory> {
        let _ = alloc;
        Ok(*self)
    }
}

/// What an alert node tells a topic of a point (Kapacitor 1.6: alert events).
#[derive(Debug, PartialEq, Eq, Drop)]
pub struct Event {
    /// The topic.
    pub topic: Text,
    /// The id of what is watched.
    pub id: Text,
    /// How bad it is.
    pub level: Level,
    /// The time of the point, in nanoseconds from 1970-01-01T00:00:00Z on, within `TIME_LIMIT`.
    pub time: i64,
    /// The message for people.
    pub message: Text,
}

impl Model for Event {
    ghost use Rattle.std.specs.Prelude.{IsTrue};
    ghost use Rattle.kap_base.specs.Events.{EventValue};
    ghost use Rattle.kap_base.specs.Points.{is_time};

    ghost Value = { EventValue };

    ghost view = { λ e. record {
      topic = e.topic;
      id = e.id;
      level = e.level;
      time = e.time;
      message = e.message;
    } };

    ghost inverse = { λ s. record {
      topic = s.topic;
      id = s.id;
      level = s.level;
      time = s.time;
      message = s.message;
    } };

    ghost invariant = { λ e. IsTrue (is_time e.time) };
}

/// What a node does beside handing items on.
#[derive(Debug, PartialEq, Eq, Drop)]
pub enum What {
    /// It logs a point.
    Line(Shared<Point>),
    /// It tells a topic of an event.
    Event(Shared<Event>),
}

/// What a node does: when, in which life, which node, and which of its effects with the same stamp.
#[derive(Debug, PartialEq, Eq, Drop)]
pub struct Effect {
    /// The stamp of the source point that caused it.
    pub stamp: Stamp,
    /// The number of the life of its task, from 1.
    pub life: u32,
    /// The number of the node in its task.
    pub node: u32,
    /// How many effects the node gave before with the same stamp.
    pub seq: u32,
    /// What is done.
    pub what: What,
}
