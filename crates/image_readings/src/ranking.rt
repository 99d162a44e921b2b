// Which reading of an image is best.
ghost use Rattle.std.specs.Prelude.{◌≡◌, ◌<◌, ◌↔◌, IsTrue, length};
ghost use Rattle.image_readings.specs.Ranking.{
  BeatsOthers,
  HasVolume,
  IsBest,
  IsVerdict,
  contests as contested_by,
  is_sounder as sounder_than,
  outranks as outranked_by,
  yields,
};

use crate::reading::{Finding, Found, Reading, Standing};

/// Which reading of a list is best.
#[derive(Clone, Copy)]
pub enum Verdict {
    /// The reading of this number beats every other.
    Best(usize),
    /// Some volume can be read, and no reading beats every other.
    Ambiguous,
    /// No volume can be read.
    NoVolume,
}

// Whether a volume is accepted with fewer lost places, or with none where the other is refused.
fn is_sounder(one: Standing, other: Standing) -> bool
    ensures { result ≡ sounder_than one other }
{
    match (one, other) {
        (Standing::Accepted { lost, .. }, Standing::Accepted { lost: more, .. }) => lost < more,
        (Standing::Accepted { lost, .. }, Standing::Refused) => lost == 0,
        (Standing::Refused, _) => false,
    }
}

// Whether a volume has more entries, or as many and more directory units, or as many of both and is sounder.
fn outranks(one: &Found, other: &Found) -> bool
    ensures { result ≡ outranked_by one.now other.now }
{
    if one.entries != other.entries {
        return one.entries > other.entries;
    }
    if one.units != other.units {
        return one.units > other.units;
    }
    is_sounder(one.standing, other.standing)
}

// Whether a volume is accepted with files, where the other is refused or has more lost places.
fn contests(one: Standing, other: Standing) -> bool
    ensures { result ≡ contested_by one other }
{
    match (one, other) {
        (Standing::Accepted { files, .. }, Standing::Refused) => files > 0,
        (Standing::Accepted { files, lost }, Standing::Accepted { lost: more, .. }) => {
            files > 0 && lost < more
        }
        (Standing::Refused, _) => false,
    }
}

// Whether what is found in one reading yields to a volume that was found in another.
fn yields_to(finding: &Finding, best: &Found) -> bool
    ensures { result ≡ yields finding.now best.now }
{
    match finding {
        Finding::Unreadable => true,
        Finding::Broken => false,
        Finding::Volume(other) => outranks(best, other) && !contests(other.standing, best.standing),
    }
}

// Whether all readings but the one of this number yield to what was found in it.
fn beats_others(readings: &[Reading], best: usize, found: &Found) -> bool
    ensures { IsTrue result ↔ BeatsOthers readings.now best found.now }
{
    for other in 0..readings.len() {
        if other != best && !yields_to(&readings[other].finding, found) {
            return false;
        }
    }
    true
}

// Whether the reading of this number beats every other.
fn is_best(readings: &[Reading], number: usize) -> bool
    requires { number < length readings.now }
    ensures { IsTrue result ↔ IsBest readings.now number }
{
    match readings[number].finding {
        Finding::Volume(found) => beats_others(readings, number, &found),
        Finding::Unreadable | Finding::Broken => false,
    }
}

// Whether some volume can be read.
fn has_volume(readings: &[Reading]) -> bool
    ensures { IsTrue result ↔ HasVolume readings.now }
{
    for reading in readings {
        if let Finding::Volume(_) = reading.finding {
            return true;
        }
    }
    false
}

/// Which reading is best: the one that beats every other.
pub fn rank(readings: &[Reading]) -> Verdict
    ensures { IsVerdict readings.now result }
{
    for number in 0..readings.len() {
        if is_best(readings, number) {
            return Verdict::Best(number);
        }
    }
    if has_volume(readings) {
        Verdict::Ambiguous
    } else {
        Verdict::NoVolume
    }
}
