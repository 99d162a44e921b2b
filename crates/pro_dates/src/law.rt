// Laws of dates.
ghost use Rattle.std.specs.Prelude.{◌≡◌, ◌↔◌, true};
ghost use Rattle.pro_dates.specs.Moments.{IsMoment};
ghost use Rattle.pro_dates.specs.ShownDates.{is_moment};

use pro_dir::ProDate;

/// Bytes are shown as a minute exactly where they name a civil date and time.
pub fn a_minute_is_shown_exactly_where_one_is_named(date: ProDate)
    ensures { (is_moment date.0 ≡ true) ↔ IsMoment date.0 }
{}
