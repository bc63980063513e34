//! What an alert evaluates at a point, and what it keeps of a group.

ghost use Rattle.std.specs.Prelude.{◌≡◌, OnOk};
ghost use Rattle.alert_node.specs.Watches.{count_of, counted, number_of, one_more};
ghost use Rattle.alert_node.specs.WatchSpelling.{FitsCounts, FitsWatch, counts_spelled, read_counts, read_watch, spell_counts, spell_watch, watch_spelled};

use kap_base::{Bytes, Level, NoMemory};
use lambda_eval::next_count;
use state_code::{CodeFault, Cursor, Spelled};
use std::alloc::Global;

/// What an alert evaluates at a point.
#[derive(Clone, Copy, Debug, PartialEq, Eq)]
pub enum Ask {
    /// The expression of a level: `.info`, `.warn` or `.crit`.
    Expression(Level),
    /// The reset of a level: `.infoReset`, `.warnReset` or `.critReset`.
    Reset(Level),
}

/// How often the expression, or the reset, of each level above OK was evaluated.
#[derive(Clone, Copy, Debug, PartialEq, Eq)]
pub struct Counts {
    /// That of INFO.
    pub info: u64,
    /// That of WARNING.
    pub warn: u64,
    /// That of CRITICAL.
    pub crit: u64,
}

/// What an alert keeps of a group: its level, and how often each expression and each reset was evaluated at
/// its points.
#[derive(Clone, Copy, Debug, PartialEq, Eq)]
pub struct Watch {
    /// The level of its last point, OK where there is none.
    pub level: Level,
    /// How often the expressions were evaluated.
    pub expressions: Counts,
    /// How often the resets were evaluated.
    pub resets: Counts,
}

impl Counts {
    /// How often that of a level was evaluated; OK has none.
    fn number_of(&self, level: Level) -> u64
        ensures { result ≡ number_of self.now level }
    {
        match level {
            Level::Fine => 0,
            Level::Info => self.info,
            Level::Warning => self.warn,
            Level::Critical => self.crit,
        }
    }

    /// Counts one evaluation more.
    fn count(&mut self, level: Level) -> Result<(), NoMemory>
        ensures { OnOk result (self.new ≡ one_more self.old level) }
    {
        match level {
            Level::Fine => {}
            Level::Info => self.info = next_count(self.info)?,
            Level::Warning => self.warn = next_count(self.warn)?,
            Level::Critical => self.crit = next_count(self.crit)?,
        }
        Ok(())
    }
}

impl Watch {
    /// How often it was evaluated.
    pub(crate) fn count_of(&self, ask: Ask) -> u64
        ensures { result ≡ count_of self.now ask }
    {
        match ask {
            Ask::Expression(level) => self.expressions.number_of(level),
            Ask::Reset(level) => self.resets.number_of(level),
        }
    }

    /// Counts one evaluation more.
    pub(crate) fn count(&mut self, ask: Ask) -> Result<(), NoMemory>
        ensures { OnOk result (self.new ≡ counted self.old ask) }
    {
        match ask {
            Ask::Expression(level) => self.expressions.count(level),
            Ask::Reset(level) => self.resets.count(level),
        }
    }
}

/// The numbers of INFO, of WARNING and of CRITICAL.
impl Spelled for Counts {
    ghost fits = { FitsCounts };

    ghost spell = { spell_counts };

    ghost read = { read_counts };

    ghost spelled = { counts_spelled };

    fn append_spelling(&self, to: &mut Bytes) -> Result<(), NoMemory> {
        self.info.append_spelling(to)?;
        self.warn.append_spelling(to)?;
        self.crit.append_spelling(to)
    }

    fn read_spelling(alloc: Global, from: &mut Cursor) -> Result<Counts, CodeFault> {
        let _ = alloc;
        let info = from.u64()?;
        let warn = from.u64()?;
        let crit = from.u64()?;
        Ok(Counts { info, warn, crit })
    }
}

/// The level, the numbers of the expressions, and those of the resets.
impl Spelled for Watch {
    ghost fits = { FitsWatch };

    ghost spell = { spell_watch };

    ghost read = { read_watch };

    ghost spelled = { watch_spelled };

    fn append_spelling(&self, to: &mut Bytes) -> Result<(), NoMemory> {
        self.level.append_spelling(to)?;
        self.expressions.append_spelling(to)?;
        self.resets.append_spelling(to)
    }

    fn read_spelling(alloc: Global, from: &mut Cursor) -> Result<Watch, CodeFault> {
        let level = Level::read_spelling(alloc, from)?;
        let expressions = Counts::read_spelling(alloc, from)?;
        let resets = Counts::read_spelling(alloc, from)?;
        Ok(Watch {
            level,
            expressions,
            resets,
        })
    }
}
