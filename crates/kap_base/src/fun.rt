/// A function of a lambda expression whose value follows from its arguments' values alone (Kapacitor 1.6
/// TICKscript language reference: lambda expressions, built-in functions). `isPresent`, `if` and `count` are
/// no such functions, since they ask for a point, a part that isn't evaluated, or the evaluations before.
#[derive(Clone, Copy, Debug, PartialEq, Eq)]
pub enum Fun {
    /// `int(x)`: an integer of an integer, a truth value or a text.
    Int,
    /// `bool(x)`: a truth value of a truth value, an integer or a text.
    Bool,
    /// `string(x)`: a text of an integer, a truth value or a text.
    String,
    /// `strLength(s)`: how many bytes a text has.
    StrLength,
    /// `strContains(s, t)`: whether `t` stands in `s`.
    StrContains,
    /// `strHasPrefix(s, t)`: whether `s` begins with `t`.
    StrHasPrefix,
    /// `strHasSuffix(s, t)`: whether `s` ends with `t`.
    StrHasSuffix,
    /// `strIndex(s, t)`: the first place of `t` in `s`.
    StrIndex,
    /// `strToLower(s)`: with small ASCII letters.
    StrToLower,
    /// `strToUpper(s)`: with capital ASCII letters.
    StrToUpper,
    /// `strTrimSpace(s)`: without white space at both ends.
    StrTrimSpace,
    /// `strReplace(s, a, b, n)`: with `b` for the first `n` places of `a`.
    StrReplace,
    /// `strSubstring(s, i, j)`: the bytes from `i` to before `j`.
    StrSubstring,
}

/// A part of a time in UTC, which a function of the same name gives of `"time"` (Kapacitor 1.6 TICKscript
/// language reference: lambda expressions, time functions).
#[derive(Clone, Copy, Debug, PartialEq, Eq)]
pub enum TimePart {
    /// The nanoseconds since 1970-01-01T00:00:00Z, negative before.
    UnixNano,
    /// The minute of the hour, from 0 to 59.
    Minute,
    /// The hour of the day, from 0 to 23.
    Hour,
    /// The day of the week, from 0 for Sunday to 6.
    Weekday,
    /// The day of the month, from 1.
    Day,
    /// The month of the year, from 1 to 12.
    Month,
    /// The year.
    Year,
}
