//! Calendar parts of a time, in UTC.

ghost use Rattle.std.specs.Prelude.{◌≡◌, ℤ, IsTrue, Ok};
ghost use Rattle.jiff_core.specs.DateTime.{civil_nanos};
ghost use Rattle.kap_base.specs.Points.{is_time};
ghost use Rattle.lambda_fns.specs.Parts.{IsDateOf, day_number, day_of, month_of, value_of, year_of};

use jiff::Timestamp;
use jiff::tz::Offset;
use jiff_core::civil::DateTime;
use kap_base::{NoMemory, TimePart};

/// What a clock in UTC shows at the time.
fn civil(time: i64) -> DateTime
    requires { IsTrue (is_time time) }
    ensures { civil_nanos result ≡ time }
{
    let Ok(instant) = Timestamp::from_nanosecond(time as i128) else {
        return DateTime::MIN;
    };
    Offset::UTC.to_datetime(instant).to_plain()
}

fn number_of(part: TimePart, time: i64) -> i64
    requires { IsTrue (is_time time) }
    ensures { result ≡ value_of part time }
{
    let shown = civil(time);
    match part {
        TimePart::UnixNano => time,
        TimePart::Minute => shown.time.minute as i64,
        TimePart::Hour => shown.time.hour as i64,
        TimePart::Weekday => shown.date.weekday().to_sunday_zero_offset() as i64,
        TimePart::Day => shown.date.day as i64,
        TimePart::Month => shown.date.month as i64,
        TimePart::Year => shown.date.year as i64,
    }
}

/// A part of a time in UTC (Kapacitor 1.6 TICKscript language reference: time functions), by the Gregorian
/// calendar. The time is in nanoseconds from 1970-01-01T00:00:00Z on, within plus or minus
/// 9,000,000,000,000,000,000. No memory is needed, so the answer is always `Ok`.
pub fn time_part(part: TimePart, time: i64) -> Result<i64, NoMemory>
    requires { IsTrue (is_time time) }
    ensures { result ≡ Ok (value_of part time) }
{
    Ok(number_of(part, time))
}

/// The year, the month and the day of a time are a date of the calendar, and the time's day is that date's.
pub fn parts_are_a_date()
    ensures { (time : ℤ) → IsTrue (is_time time)
        → IsDateOf (day_number time) (year_of (day_number time)) (month_of (day_number time))
        (day_of (day_number time)) }
{}
