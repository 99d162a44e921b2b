// The date and the time of an entry, as data has them.
ghost use Rattle.std.specs.Prelude.{◌≡◌, ◌<◌, option_map};
ghost use Rattle.pro_dates.specs.ShownDates.{minute_of};
ghost use Rattle.pro_dates.specs.Stamps.{HasDigits, stamp_bytes, two_digits};

use crate::shown::{Minute, minute_of};
use pro_dir::ProDate;

// A number below 100 as its two digits.
fn two_digits(n: u16) -> [u8; 2]
    requires { n < 100 }
    ensures { result ≡ two_digits n }
{
    [b'0' + (n / 10) as u8, b'0' + (n % 10) as u8]
}

// A minute of a year of four digits.
fn stamp_of(minute: Minute) -> [u8; 16]
    requires { HasDigits minute }
    ensures { result ≡ stamp_bytes minute }
{
    let [y0, y1] = two_digits(minute.year / 100);
    let [y2, y3] = two_digits(minute.year % 100);
    let [m0, m1] = two_digits(u16::from(minute.month));
    let [d0, d1] = two_digits(u16::from(minute.day));
    let [h0, h1] = two_digits(u16::from(minute.hour));
    let [n0, n1] = two_digits(u16::from(minute.minute));
    [
        y0, y1, y2, y3, b'-', m0, m1, b'-', d0, d1, b'T', h0, h1, b':', n0, n1,
    ]
}

/// The minute that stored bytes name, as `YYYY-MM-DDTHH:MM`; `None` where they name none.
pub fn stamp(date: ProDate) -> Option<[u8; 16]>
    ensures { result ≡ option_map stamp_bytes (minute_of date.0) }
{
    Some(stamp_of(minute_of(date)?))
}
