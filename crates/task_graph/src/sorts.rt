//! What a script hands to a node, as types that keep what holds of each value.

ghost use Rattle.std.specs.Prelude.{◌≡◌, IsTrue};
ghost use Rattle.kap_base.specs.Texts.{is_line, is_measurement, is_name};
ghost use Rattle.task_graph.specs.Sorts.{is_count, is_period, is_span, is_unit, tested, tested_number};

use kap_base::{SharedText, Text};
use std::marker::Model;

/// The longest duration of a script, in nanoseconds.
pub const SPAN_LIMIT: u64 = 200_000_000_000_000_000;

/// The least unit in which `elapsed` counts, in nanoseconds.
pub const UNIT_LIMIT: u64 = 1_000;

/// A text that can be the key of a tag or a field, or the value of a tag: not empty, without a line feed, and
/// not ending in a backslash.
#[derive(Debug, Drop)]
pub struct Name {
    text: SharedText,
}

impl Model for Name {
    ghost use Rattle.std.specs.Prelude.{IsTrue, List, ℕ};
    ghost use Rattle.kap_base.specs.Texts.{is_name};

    ghost Value = { List ℕ };

    ghost view = { λ t. t.text };

    ghost invariant = { λ t. IsTrue (is_name t.text) };
}

impl Name {
    /// The name of a text that can be one.
    pub fn from_text(text: SharedText) -> Option<Name>
        ensures { result ≡ tested is_name text }
    {
        if text.text().is_name() {
            Some(Name { text })
        } else {
            None
        }
    }

    /// Its text.
    pub fn text(&self) -> &Text
        ensures same { result.now ≡ self.now }
        ensures name { IsTrue (is_name self.now) }
    {
        self.text.text()
    }
}

/// A text that can be a measurement: a name that doesn't begin with `#`.
#[derive(Debug, Drop)]
pub struct Measurement {
    text: SharedText,
}

impl Model for Measurement {
    ghost use Rattle.std.specs.Prelude.{IsTrue, List, ℕ};
    ghost use Rattle.kap_base.specs.Texts.{is_measurement};

    ghost Value = { List ℕ };

    ghost view = { λ t. t.text };

    ghost invariant = { λ t. IsTrue (is_measurement t.text) };
}

impl Measurement {
    /// The measurement of a text that can be one.
    pub fn from_text(text: SharedText) -> Option<Measurement>
        ensures { result ≡ tested is_measurement text }
    {
        if text.text().is_measurement() {
            Some(Measurement { text })
        } else {
            None
        }
    }

    /// Its text.
    pub fn text(&self) -> &Text
        ensures same { result.now ≡ self.now }
        ensures measurement { IsTrue (is_measurement self.now) }
    {
        self.text.text()
    }
}

/// A text without a line feed, which may be empty.
#[derive(Debug, Drop)]
pub struct Line {
    text: SharedText,
}

impl Model for Line {
    ghost use Rattle.std.specs.Prelude.{IsTrue, List, ℕ};
    ghost use Rattle.kap_base.specs.Texts.{is_line};

    ghost Value = { List ℕ };

    ghost view = { λ t. t.text };

    ghost invariant = { λ t. IsTrue (is_line t.text) };
}

impl Line {
    /// The line of a text that is one.
    pub fn from_text(text: SharedText) -> Option<Line>
        ensures { result ≡ tested is_line text }
    {
        if text.text().is_line() {
            Some(Line { text })
        } else {
            None
        }
    }

    /// Its text.
    pub fn text(&self) -> &Text
        ensures same { result.now ≡ self.now }
        ensures line { IsTrue (is_line self.now) }
    {
        self.text.text()
    }
}

/// A number of at least 1.
#[derive(Clone, Copy, Debug)]
pub struct Count {
    number: u64,
}

impl Model for Count {
    ghost use Rattle.std.specs.Prelude.{IsTrue, ℕ};
    ghost use Rattle.task_graph.specs.Sorts.{is_count};

    ghost Value = { ℕ };

    ghost view = { λ n. n.number };

    ghost inverse = { λ n. record { number = n } };

    ghost invariant = { λ n. IsTrue (is_count n.number) };
}

impl Count {
    /// The number 1.
    pub fn one() -> Count
        ensures { result ≡ 1 }
    {
        Count { number: 1 }
    }

    /// The count of this number, where it is at least 1.
    pub fn from_number(number: i64) -> Option<Count>
        ensures { result ≡ tested_number is_count number }
    {
        if number >= 1 {
            Some(Count {
                number: number as u64,
            })
        } else {
            None
        }
    }

    /// The number.
    pub fn number(&self) -> u64
        ensures same { result ≡ self.now }
        ensures rule { IsTrue (is_count self.now) }
    {
        self.number
    }
}

/// A time that may pass: 0 to `SPAN_LIMIT` nanoseconds.
#[derive(Clone, Copy, Debug)]
pub struct Span {
    nanos: u64,
}

impl Model for Span {
    ghost use Rattle.std.specs.Prelude.{IsTrue, ℕ};
    ghost use Rattle.task_graph.specs.Sorts.{is_span};

    ghost Value = { ℕ };

    ghost view = { λ n. n.nanos };

    ghost inverse = { λ n. record { nanos = n } };

    ghost invariant = { λ n. IsTrue (is_span n.nanos) };
}

impl Span {
    /// No time.
    pub fn zero() -> Span
        ensures { result ≡ 0 }
    {
        Span { nanos: 0 }
    }

    /// The span of this many nanoseconds, where there is one.
    pub fn from_nanos(number: i64) -> Option<Span>
        ensures { result ≡ tested_number is_span number }
    {
        if number >= 0 && number <= SPAN_LIMIT as i64 {
            Some(Span {
                nanos: number as u64,
            })
        } else {
            None
        }
    }

    /// The nanoseconds.
    pub fn nanos(&self) -> u64
        ensures same { result ≡ self.now }
        ensures rule { IsTrue (is_span self.now) }
    {
        self.nanos
    }
}

/// A time that passes: 1 to `SPAN_LIMIT` nanoseconds.
#[derive(Clone, Copy, Debug)]
pub struct Period {
    nanos: u64,
}

impl Model for Period {
    ghost use Rattle.std.specs.Prelude.{IsTrue, ℕ};
    ghost use Rattle.task_graph.specs.Sorts.{is_period};

    ghost Value = { ℕ };

    ghost view = { λ n. n.nanos };

    ghost inverse = { λ n. record { nanos = n } };

    ghost invariant = { λ n. IsTrue (is_period n.nanos) };
}

impl Period {
    /// The period of this many nanoseconds, where there is one.
    pub fn from_nanos(number: i64) -> Option<Period>
        ensures { result ≡ tested_number is_period number }
    {
        if number >= 1 && number <= SPAN_LIMIT as i64 {
            Some(Period {
                nanos: number as u64,
            })
        } else {
            None
        }
    }

    /// The nanoseconds.
    pub fn nanos(&self) -> u64
        ensures same { result ≡ self.now }
        ensures rule { IsTrue (is_period self.now) }
    {
        self.nanos
    }
}

/// What `elapsed` counts in: `UNIT_LIMIT` to `SPAN_LIMIT` nanoseconds.
#[derive(Clone, Copy, Debug)]
pub struct ElapsedUnit {
    nanos: u64,
}

impl Model for ElapsedUnit {
    ghost use Rattle.std.specs.Prelude.{IsTrue, ℕ};
    ghost use Rattle.task_graph.specs.Sorts.{is_unit};

    ghost Value = { ℕ };

    ghost view = { λ n. n.nanos };

    ghost inverse = { λ n. record { nanos = n } };

    ghost invariant = { λ n. IsTrue (is_unit n.nanos) };
}

impl ElapsedUnit {
    /// The unit of this many nanoseconds, where there is one.
    pub fn from_nanos(number: i64) -> Option<ElapsedUnit>
        ensures { result ≡ tested_number is_unit number }
    {
        if number >= UNIT_LIMIT as i64 && number <= SPAN_LIMIT as i64 {
            Some(ElapsedUnit {
                nanos: number as u64,
            })
        } else {
            None
        }
    }

    /// The nanoseconds.
    pub fn nanos(&self) -> u64
        ensures same { result ≡ self.now }
        ensures rule { IsTrue (is_unit self.now) }
    {
        self.nanos
    }
}
