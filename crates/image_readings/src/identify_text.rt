// The text of the readings of an image.
ghost use Rattle.std.specs.Prelude.{◌≡◌, Some, IfOk, flat_map, string_bytes};
ghost use Rattle.image_readings.specs.Ranking.{IsVerdict};
ghost use Rattle.image_readings.specs.IdentifyText.{
  container_text as text_of_container,
  file_system_word as word_of_file_system,
  identify_text as text_of_all,
  order_word as word_of_order,
  finding_text,
  found_text,
  reading_line,
  way_text,
  yes_or_no as word_of_answer,
};

use crate::ranking::Verdict;
use crate::reading::{Finding, Found, Reading, Standing};
use a2_device::Order;
use disk_container::Container;
use shop_jobs::FileSystem;
use std::alloc::{AllocError, Global};
use std::fmt;

/// The word of `--fs` that names a file system.
pub fn file_system_word(file_system: FileSystem) -> &'static str
    ensures { result.now ≡ word_of_file_system file_system }
{
    match file_system {
        FileSystem::Dos => "dos",
        FileSystem::Prodos => "prodos",
    }
}

/// The word of `--order` that names an order.
pub fn order_word(order: Order) -> &'static str
    ensures { result.now ≡ word_of_order order }
{
    match order {
        Order::Dos => "dos",
        Order::Prodos => "prodos",
        Order::Nibble => "nibble",
    }
}

fn yes_or_no(answer: bool) -> &'static str
    ensures { result.now ≡ word_of_answer answer }
{
    if answer { "yes" } else { "no" }
}

// The words of a way to read an image.
#[derive(Clone, Copy)]
struct WayText(Reading);

impl fmt::Display for WayText {
    ghost output = { λ w. Some (way_text w.0) };

    fn fmt<W: fmt::Write>(&self, f: &mut fmt::Formatter<W>) -> fmt::Result {
        let file_system = file_system_word(self.0.file_system);
        let order = order_word(self.0.order);
        write!(f, "{file_system} {order}")
    }
}

// The words of how a volume stands.
#[derive(Clone, Copy)]
struct FoundText(Found);

impl fmt::Display for FoundText {
    ghost output = { λ f. Some (found_text f.0.standing f.0.entries f.0.units) };

    fn fmt<W: fmt::Write>(&self, f: &mut fmt::Formatter<W>) -> fmt::Result {
        let Found {
            entries,
            units,
            standing,
        } = self.0;
        match standing {
            Standing::Accepted { files, lost } => write!(
                f,
                "ACCEPTED files {files} entries {entries} chain {units} lost {lost}"
            ),
            Standing::Refused => write!(f, "REFUSED entries {entries} chain {units}"),
        }
    }
}

// The words of what is found.
#[derive(Clone, Copy)]
struct FindingText(Finding);

impl fmt::Display for FindingText {
    ghost output = { λ f. Some (finding_text f.0) };

    fn fmt<W: fmt::Write>(&self, f: &mut fmt::Formatter<W>) -> fmt::Result {
        match self.0 {
            Finding::Unreadable => write!(f, "UNREADABLE"),
            Finding::Broken => write!(f, "BROKEN"),
            Finding::Volume(found) => {
                let text = FoundText(found);
                write!(f, "{text}")
            }
        }
    }
}

// A line for each reading.
fn reading_lines(alloc: Global, readings: &[Reading]) -> Result<String, AllocError>
    ensures { IfOk result (λ text. string_bytes text ≡ flat_map reading_line readings.now) }
{
    let mut text = String::new(alloc);
    for reading in readings {
        let way = WayText(*reading);
        let finding = FindingText(reading.finding);
        writeln!(text, "{way} {finding}")?;
    }
    Ok(text)
}

/// What a container says of its payload, on a line.
///
/// # Errors
/// Want of memory alone.
pub fn container_text(alloc: Global, container: Container) -> Result<String, AllocError>
    ensures { IfOk result (λ text. string_bytes text ≡ text_of_container container) }
{
    let order = order_word(container.order);
    let size = container.size;
    let protected = yes_or_no(container.protected);
    format!(in alloc; "2IMG order {order} bytes {size} protected {protected}\n")
}

/// A line for each reading, then the verdict.
///
/// # Errors
/// Want of memory alone.
pub fn identify_text(
    alloc: Global,
    readings: &[Reading],
    verdict: Verdict,
) -> Result<String, AllocError>
    requires { IsVerdict readings.now verdict }
    ensures { IfOk result (λ text. string_bytes text ≡ text_of_all readings.now verdict) }
{
    let mut text = reading_lines(alloc, readings)?;
    match verdict {
        Verdict::Best(number) => {
            let way = WayText(readings[number]);
            writeln!(text, "BEST {way}")?;
        }
        Verdict::Ambiguous => writeln!(text, "AMBIGUOUS")?,
        Verdict::NoVolume => writeln!(text, "NONE")?,
    }
    Ok(text)
}
