// Dates and times, by the calendar of `jiff`.
ghost use Rattle.std.specs.Prelude.{◌≡◌, ◌↔◌, ◌<◌, IsSome, IfSome, pos};
ghost use Rattle.jiff.specs.Words.{IsBetween};
ghost use Rattle.pro_dates.specs.Dates.{full_year};
ghost use Rattle.pro_dates.specs.Moments.{IsMoment, IsMomentOf, IsMinuteOf};

use byteorder::{ByteOrder, LittleEndian};
use jiff::civil::DateTime;
use pro_dir::ProDate;

/// The civil date and time that the bytes name, if they name one: a year from 1940 to 2039, and a day and a minute that
/// the calendar and a clock have.
pub fn to_civil(date: ProDate) -> Option<DateTime>
    ensures known { IsSome result ↔ IsMoment date.0 }
    ensures value { IfSome result (IsMomentOf date.0) }
{
    let word = LittleEndian::read_u16(&date.0);
    let (minute, hour) = (date.0[2], date.0[3]);
    if word / 512 >= 100 || minute >= 60 || hour >= 24 {
        return None;
    }
    let year = full_year(word / 512);
    let month = signed(word / 32 % 16);
    let day = signed(word % 32);
    let hour = signed(u16::from(hour));
    let minute = signed(u16::from(minute));
    DateTime::new(year, month, day, hour, minute, 0, 0).ok()
}

/// The bytes of a civil date and time, without its seconds. `None` for a year before 1940 or after 2039.
pub fn from_civil(moment: DateTime) -> Option<ProDate>
    ensures known { IsSome result ↔ IsBetween (pos 1940) (pos 2039) moment.date.year }
    ensures moment { IfSome result (λ date. IsMoment date.0) }
    ensures value { IfSome result (λ date. IsMinuteOf date.0 moment) }
{
    let plain = moment.to_plain();
    let year = kept_year(plain.date.year)?;
    let word = 512 * year + 32 * plain.date.month as u16 + plain.date.day as u16;
    let [low, high] = word.to_le_bytes();
    Some(ProDate([low, high, plain.time.minute, plain.time.hour]))
}

// The year of the two digits that are kept.
fn full_year(year: u16) -> i16
    requires { year < 100 }
    ensures { result ≡ pos (full_year year) }
{
    (if year < 40 { 2000 + year } else { 1900 + year }) as i16
}

// The two digits that are kept of a year.
fn kept_year(year: i16) -> Option<u16>
    ensures known { IsSome result ↔ IsBetween (pos 1940) (pos 2039) year }
    ensures digits { IfSome result (λ kept. kept < 100) }
    ensures value { IfSome result (λ kept. pos (full_year kept) ≡ year) }
{
    match year {
        1940..=1999 => Some((year - 1900) as u16),
        2000..=2039 => Some((year - 2000) as u16),
        _ => None,
    }
}

fn signed(n: u16) -> i8
    requires { n < 128 }
    ensures { result ≡ pos n }
{
    n as i8
}
