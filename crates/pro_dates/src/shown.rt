// The date and the time of an entry, as a listing shows them.
ghost use Rattle.std.specs.Prelude.{◌≡◌, Some};
ghost use Rattle.pro_dates.specs.ShownDates.{date_text, minute_of, minute_text};

use crate::to_civil;
use pro_dir::ProDate;
use std::fmt;

/// A minute of a year that the directories can keep.
#[derive(Clone, Copy)]
pub struct Minute {
    pub year: u16,
    pub month: u8,
    pub day: u8,
    pub hour: u8,
    pub minute: u8,
}

/// The minute that stored bytes name, if they name one.
pub(crate) fn minute_of(date: ProDate) -> Option<Minute>
    ensures { result ≡ minute_of date.0 }
{
    let moment = to_civil(date)?.to_plain();
    Some(Minute {
        year: moment.date.year.unsigned_abs(),
        month: moment.date.month,
        day: moment.date.day,
        hour: moment.time.hour,
        minute: moment.time.minute,
    })
}

impl fmt::Display for Minute {
    ghost output = { λ m. Some (minute_text m) };

    fn fmt<W: fmt::Write>(&self, f: &mut fmt::Formatter<W>) -> fmt::Result {
        let Minute {
            year,
            month,
            day,
            hour,
            minute,
        } = *self;
        write!(f, "{year:04}-{month:02}-{day:02} {hour:02}:{minute:02}")
    }
}

/// A date as it is shown: in 16 places.
#[derive(Clone, Copy)]
pub struct ShownDate(pub ProDate);

impl fmt::Display for ShownDate {
    ghost output = { λ d. Some (date_text d.0.0) };

    fn fmt<W: fmt::Write>(&self, f: &mut fmt::Formatter<W>) -> fmt::Result {
        match minute_of(self.0) {
            Some(minute) => write!(f, "{minute}"),
            None => write!(f, "<NO DATE>       "),
        }
    }
}
