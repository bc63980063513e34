//! Units of durations.

ghost use Rattle.std.specs.Prelude.{◌≡◌, length};

/// A unit of a duration (Kapacitor 1.6 TICKscript language reference: Durations).
#[derive(Clone, Copy, Debug, PartialEq, Eq, Drop)]
pub enum Unit {
    /// `w`, 604,800 seconds.
    Week,
    /// `d`, 86,400 seconds.
    Day,
    /// `h`, 3,600 seconds.
    Hour,
    /// `m`, 60 seconds.
    Minute,
    /// `s`, 10^9 ns.
    Second,
    /// `ms`, 10^6 ns.
    Milli,
    /// `u`, 1,000 ns.
    Micro,
    /// The micro sign U+00B5, 1,000 ns.
    MicroSign,
}

impl Unit {
    ghost use Rattle.tick_lexer.specs.Front.{unit_at};
    ghost use Rattle.tick_lexer.specs.Spelling.{unit_bytes, unit_nanos};

    /// How many nanoseconds it has.
    pub fn nanos(self) -> u64
        ensures { result ≡ unit_nanos self }
    {
        match self {
            Unit::Week => 604_800_000_000_000,
            Unit::Day => 86_400_000_000_000,
            Unit::Hour => 3_600_000_000_000,
            Unit::Minute => 60_000_000_000,
            Unit::Second => 1_000_000_000,
            Unit::Milli => 1_000_000,
            Unit::Micro | Unit::MicroSign => 1_000,
        }
    }

    /// How many bytes its spelling has.
    pub(crate) fn size(self) -> usize
        ensures { result ≡ length (unit_bytes self) }
    {
        match self {
            Unit::Milli | Unit::MicroSign => 2,
            _ => 1,
        }
    }

    /// The longest unit at the front.
    pub(crate) fn at_front(text: &[u8]) -> Option<Unit>
        ensures { result ≡ unit_at text.now }
    {
        if matches!(text, [0xc2, 0xb5, ..]) {
            return Some(Unit::MicroSign);
        }
        if matches!(text, [b'm', b's', ..]) {
            return Some(Unit::Milli);
        }
        match text {
            [b'u', ..] => Some(Unit::Micro),
            [b'm', ..] => Some(Unit::Minute),
            [b's', ..] => Some(Unit::Second),
            [b'h', ..] => Some(Unit::Hour),
            [b'd', ..] => Some(Unit::Day),
            [b'w', ..] => Some(Unit::Week),
            _ => None,
        }
    }
}
