// The date that a word says.
ghost use Rattle.std.specs.Prelude.{◌≡◌, ◌↔◌, None, IfSome, option_map};
ghost use Rattle.pro_dates.specs.SaidDates.{IsDateOf, NamesDate};

use crate::from_civil;
use jiff::civil::DateTime;
use pro_dir::ProDate;

/// The bytes of no date.
const NO_DATE: ProDate = ProDate([0; 4]);

/// The date of a file's creation: that of a civil date and time of 1940 to 2039, without its seconds; no date (four
/// bytes 0) if none is said. `None` where the word is no such date and time.
pub fn date(word: Option<&str>) -> Option<ProDate>
    ensures said { IfSome result (IsDateOf (option_map (λ s. s.now) word.entry)) }
    ensures none { (result ≡ None) ↔ (¬ NamesDate (option_map (λ s. s.now) word.entry)) }
{
    match word {
        Some(text) => from_civil(text.parse::<DateTime>().ok()?),
        None => Some(NO_DATE),
    }
}
