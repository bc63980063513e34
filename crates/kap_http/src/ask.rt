//! What is asked of the service.

use kap_base::{Bytes, Text};
use std::marker::Model;

/// The precision of times that are written (InfluxDB 1.8: the write endpoint).
#[derive(Clone, Copy, Debug, PartialEq, Eq)]
pub enum Precision {
    /// Nanoseconds: `ns`, `n`, or none.
    Ns,
    /// Microseconds: `u`.
    Us,
    /// Milliseconds: `ms`.
    Ms,
    /// Seconds: `s`.
    S,
    /// Minutes: `m`.
    M,
    /// Hours: `h`.
    H,
}

/// What is to be done with a task.
#[derive(Clone, Copy, Debug, PartialEq, Eq)]
pub enum TaskAct {
    /// To show it.
    Show,
    /// To enable it.
    Enable,
    /// To disable it.
    Disable,
    /// To delete it.
    Delete,
}

/// Points to be written. The names are on one line and no longer than a target, 16,384 bytes; the database's
/// isn't empty, and the body has at most 8 MiB.
#[derive(Debug, PartialEq, Eq, Drop)]
pub struct WriteAsk {
    /// The database.
    pub db: Text,
    /// The retention policy, which may be empty.
    pub rp: Text,
    /// The unit of the times.
    pub precision: Precision,
    /// The lines of the points.
    pub body: Bytes,
}

impl Model for WriteAsk {
    ghost use Rattle.kap_http.specs.AskValues.{WriteValue, IsWrite};

    ghost Value = { WriteValue };

    ghost view = { λ w. record {
      db = w.db;
      rp = w.rp;
      precision = w.precision;
      body = w.body;
    } };

    ghost inverse = { λ w. record {
      db = w.db;
      rp = w.rp;
      precision = w.precision;
      body = w.body;
    } };

    ghost invariant = { λ w. IsWrite (record {
      db = w.db;
      rp = w.rp;
      precision = w.precision;
      body = w.body;
    }) };
}

/// A task to be defined. Its id is one, and its script has at most 65,536 bytes.
#[derive(Debug, PartialEq, Eq, Drop)]
pub struct DefineAsk {
    /// The id: 1 to 64 ASCII letters, digits, `_`, `-` and `.`.
    pub id: Text,
    /// The script.
    pub script: Text,
    /// Whether it is to be enabled.
    pub enabled: bool,
}

impl Model for DefineAsk {
    ghost use Rattle.kap_http.specs.AskValues.{DefineValue, IsDefine};

    ghost Value = { DefineValue };

    ghost view = { λ d. record {
      id = d.id;
      script = d.script;
      enabled = d.enabled;
    } };

    ghost inverse = { λ d. record {
      id = d.id;
      script = d.script;
      enabled = d.enabled;
    } };

    ghost invariant = { λ d. IsDefine (record {
      id = d.id;
      script = d.script;
      enabled = d.enabled;
    }) };
}

/// A task, and what is to be done with it. The id is any text no longer than a target, 16,384 bytes.
#[derive(Debug, PartialEq, Eq, Drop)]
pub struct TaskAsk {
    /// The id.
    pub id: Text,
    /// What is to be done.
    pub act: TaskAct,
}

impl Model for TaskAsk {
    ghost use Rattle.kap_http.specs.AskValues.{TaskValue, IsTask};

    ghost Value = { TaskValue };

    ghost view = { λ t. record {
      id = t.id;
      act = t.act;
    } };

    ghost inverse = { λ t. record {
      id = t.id;
      act = t.act;
    } };

    ghost invariant = { λ t. IsTask (record {
      id = t.id;
      act = t.act;
    }) };
}

/// A topic. The name is any text no longer than a target, 16,384 bytes.
#[derive(Debug, PartialEq, Eq, Drop)]
pub struct TopicAsk {
    /// The name.
    pub name: Text,
}

impl Model for TopicAsk {
    ghost use Rattle.kap_http.specs.AskValues.{TopicValue, IsTopic};

    ghost Value = { TopicValue };

    ghost view = { λ t. record { name = t.name } };

    ghost inverse = { λ t. record { name = t.name } };

    ghost invariant = { λ t. IsTopic (record { name = t.name }) };
}

/// What is asked of the service (Kapacitor 1.6: HTTP API).
#[derive(Debug, PartialEq, Eq, Drop)]
pub enum Ask {
    /// Whether it is there: `GET` and `HEAD` of `/kapacitor/v1/ping`.
    Ping,
    /// To write points: `POST` to `/kapacitor/v1/write` and `/write`.
    Write(WriteAsk),
    /// The tasks: `GET` of `/kapacitor/v1/tasks`.
    Tasks,
    /// To define a task: `POST` to `/kapacitor/v1/tasks`.
    Define(DefineAsk),
    /// A task: `GET`, `PATCH` and `DELETE` of `/kapacitor/v1/tasks/ID`.
    Task(TaskAsk),
    /// The topics: `GET` of `/kapacitor/v1/alerts/topics`.
    Topics,
    /// A topic: `GET` of `/kapacitor/v1/alerts/topics/NAME`.
    Topic(TopicAsk),
}
