//! The dates and times of the entries of a ProDOS directory: as a civil date and time of `jiff`, as a listing shows
//! them, and as a word says them.
//!
//! The model: the four bytes of a `ProDate` of `pro_dir` hold a year, a month, a day, an hour and a minute
//! (`specs/Dates.antt`); they name a civil date and time where the calendar and a clock have it
//! (`specs/Moments.antt`), and are shown in 16 characters (`specs/ShownDates.antt`), in data as `specs/Stamps.antt`
//! has them. A word says the date that `jiff` reads in it (`specs/SaidDates.antt`). What always holds: bytes are shown
//! as a minute exactly where they name one.
//!
//! It stands apart since `jiff` is large: a crate whose calls have none of its types in their signatures is proved
//! without it.
#![tactic(auto)]

mod civil;
mod law;
mod said;
mod shown;
mod stamps;

pub use civil::{from_civil, to_civil};
pub use law::a_minute_is_shown_exactly_where_one_is_named;
pub use said::date;
pub use shown::{Minute, ShownDate};
pub use stamps::stamp;
