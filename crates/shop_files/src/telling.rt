// What is told to people beside the answer.
ghost use Rattle.std.specs.Prelude.{◌≡◌, IsTrue};
ghost use Rattle.shop_files.specs.Noted.{nothing_found};
ghost use Rattle.shop_host.specs.Runs.{IsLooking};
ghost use Rattle.shop_host.specs.State.{HostState};

use crate::foreign::{Foreign, foreign_of};
use crate::text_fault::text_fault;
use crate::ways::{BrokenWay, broken_way, header_order, orders_apart};
use a2_device::Order;
use disk_container::MOST_BYTES;
use explanations::{Explanation, FINDINGS, REFUSALS, explained};
use shop_host::{Host, Readable, note, read_file};
use shop_inputs::ImageFault;
use shop_outputs::{Unwritten, target_of};
use shop_replies::most_bytes;
use shown_text::escaped;
use std::alloc::{AllocError, Global};
use std::fmt;

/// Why a machine does not start from a disk with the system of another.
#[derive(Clone, Copy)]
pub enum BootFault {
    /// The first sector or block of that one, which a machine loads, has zeros alone.
    Zeros,
    /// That one has a volume of another file system.
    OtherSystem,
}

/// What became known of the files of a job.
pub struct Found {
    /// Whether the answer is to be explained.
    pub is_wanted: bool,
    /// The path of the image.
    pub path: Option<String>,
    /// The path of the file that is read beside it, or of the folder whose files are added.
    pub given: Option<String>,
    /// The path of the output file.
    pub out: Option<String>,
    /// The path of the certificate's file.
    pub certificate: Option<String>,
    /// The path of the new folder.
    pub folder: Option<String>,
    /// The order that the job names for its image.
    pub order: Option<Order>,
    /// How many bytes were read of the image.
    pub bytes: Option<usize>,
    /// How many of its bytes are told at the most, where no more than one beyond those are read.
    pub most: Option<usize>,
    /// Why the image was not opened.
    pub fault: Option<ImageFault>,
    /// What could not be written.
    pub unwritten: Option<Unwritten>,
    /// The lines that name the files of faults: a fault as it is told, and the path of its file behind it.
    pub fault_files: Option<String>,
    /// Another kind of file that the image is, where it was read.
    pub foreign: Option<Foreign>,
    /// The lines that `identify` tells of the image, where `auto` chose none of its ways.
    pub ways: Option<String>,
    /// Why a machine does not start from a new disk.
    pub boot: Option<BootFault>,
    /// Whether what is told is the bytes of a file, and no words of the program's.
    pub is_content: bool,
}

impl Drop for Found {
    fn drop(self) {
        let Found {
            is_wanted: _,
            path: _,
            given: _,
            out: _,
            certificate: _,
            folder: _,
            order: _,
            bytes: _,
            most: _,
            fault: _,
            unwritten: _,
            fault_files: _,
            foreign: _,
            ways: _,
            boot: _,
            is_content: _,
        } = self;
    }
}

impl Found {
    /// Nothing is known yet.
    pub fn new() -> Found
        ensures { result ≡ nothing_found }
    {
        Found {
            is_wanted: false,
            path: None,
            given: None,
            out: None,
            certificate: None,
            folder: None,
            order: None,
            bytes: None,
            most: None,
            fault: None,
            unwritten: None,
            fault_files: None,
            foreign: None,
            ways: None,
            boot: None,
            is_content: false,
        }
    }
}

/// The words of a refusal of the image's length.
const LENGTH: &str = "REFUSED Length";

/// The words of a refusal of a text.
const TEXT: &str = "REFUSED Text";

/// The words of which it matters which other kind of file an image is.
const UNUSABLE: [&str; 10] = [
    LENGTH,
    "REFUSED Unknown",
    "REFUSED Ambiguous",
    "REFUSED Check",
    "REFUSED NoSector",
    "REFUSED Container Magic",
    "FAILED Device",
    "FAULT Geometry",
    "AMBIGUOUS",
    "NONE",
];

/// The words that tell that there is no volume.
const NO_VOLUME: [&str; 2] = ["REFUSED Unknown", "NONE"];

/// What these mean where there is a volume whose directory is damaged.
const DAMAGED: &str = "No volume can be read, but there is one whose directory is damaged.";

// A number of bytes, with a comma before each three digits.
#[derive(Clone, Copy)]
struct Grouped(usize);

impl fmt::Display for Grouped {
    fn fmt<W: fmt::Write>(&self, f: &mut fmt::Formatter<W>) -> fmt::Result {
        let thousands = self.0 / 1_000;
        let rest = self.0 % 1_000;
        if thousands == 0 {
            return write!(f, "{rest}");
        }
        if thousands < 1_000 {
            return write!(f, "{thousands},{rest:03}");
        }
        let millions = thousands / 1_000;
        let thousands = thousands % 1_000;
        write!(f, "{millions},{thousands:03},{rest:03}")
    }
}

// How many bytes an image has in an order, or where none is named.
fn wanted_length(order: Option<Order>) -> &'static str {
    match order {
        Some(Order::Dos) => "An image in DOS order has 143,360 bytes.",
        Some(Order::Prodos) => {
            "An image in ProDOS order has 143,360 bytes, or of a ProDOS volume of another size 16 to 65,535 blocks of \
                512 bytes."
        }
        Some(Order::Nibble) => "An image in nibble order has 232,960 bytes.",
        None => {
            "An image has 143,360 bytes, in nibble order 232,960, or in ProDOS order 16 to 65,535 blocks of 512 bytes."
        }
    }
}

// Tells which image it is, and how many bytes were read of it.
fn tell_image(notes: &mut String, alloc: Global, found: &Found) -> Result<(), AllocError> {
    if found.path.is_none() {
        return Ok(());
    }
    let name = shown(alloc, &found.path)?;
    let most = found.most.unwrap_or(most_bytes(Order::Prodos));
    match found.bytes {
        Some(bytes) if bytes > most => {
            let most = Grouped(most);
            writeln!(notes, "{name}: more than {most} bytes.")
        }
        Some(bytes) => {
            let bytes = Grouped(bytes);
            writeln!(notes, "{name}: {bytes} bytes were read.")
        }
        None => writeln!(notes, "{name}: not read."),
    }
}

// Tells of which file the first fault with these words is, if it is of one.
fn tell_file(notes: &mut String, found: &Found, front: &str) -> Result<(), AllocError> {
    let Some(lines) = &found.fault_files else {
        return Ok(());
    };
    for line in lines.as_str().lines() {
        if line.starts_with(front) {
            writeln!(
                notes,
                "The first of them, and behind its place the path of its file: {line}"
            )?;
        }
    }
    Ok(())
}

// Whether the line with these words is of the second of two images.
fn is_of_other(front: &str, told: &[u8]) -> bool {
    match told.strip_prefix(front.as_bytes()) {
        Some(rest) => rest == b" 2\n".as_slice(),
        None => false,
    }
}

// Which other kind of file stands at a path, if it is one that is known and can be read again.
fn foreign_at<H: Host>(host: &mut H, path: &Option<String>) -> Option<Foreign>
    ensures looked { IsTrue (H.state host.old).honest → IsLooking (H.state host.old) (H.state host.new) }
{
    let path = path.as_ref()?.as_str();
    let bytes = read_file(host, path, Readable::File, MOST_BYTES as u32).ok()?;
    foreign_of(bytes.as_slice())
}

// Tells which other kind of file the second of two images is, if it is one.
fn tell_other_kind<H: Host>(
    notes: &mut String,
    host: &mut H,
    found: &Found,
) -> Result<(), AllocError>
    ensures looked { IsTrue (H.state host.old).honest → IsLooking (H.state host.old) (H.state host.new) }
{
    let Some(foreign) = foreign_at(host, &found.given) else {
        return Ok(());
    };
    let name = shown(host.alloc(), &found.given)?;
    let text = foreign.text();
    writeln!(notes, "{name}: {text}")
}

// Tells which other kind of file the image is, if it is one. A container that was opened is none.
fn tell_kind(notes: &mut String, found: &Found, told: &[u8]) -> Result<(), AllocError> {
    let Some(foreign) = found.foreign else {
        return Ok(());
    };
    if foreign == Foreign::Container && told.starts_with(b"2IMG") {
        return Ok(());
    }
    let text = foreign.text();
    writeln!(notes, "{text}")
}

// Tells of an image that is refused by these words how many bytes were wanted, and which other kind of file it is.
fn tell_unusable<H: Host>(
    notes: &mut String,
    host: &mut H,
    found: &Found,
    front: &str,
    told: &[u8],
) -> Result<(), AllocError>
    ensures looked { IsTrue (H.state host.old).honest → IsLooking (H.state host.old) (H.state host.new) }
{
    if !UNUSABLE.iter().any(|words| *words == front) {
        return Ok(());
    }
    let is_other = is_of_other(front, told);
    if front == LENGTH {
        let order = if is_other { None } else { found.order };
        let wanted = wanted_length(order);
        writeln!(notes, "{wanted}")?;
    }
    if is_other {
        tell_other_kind(notes, host, found)
    } else {
        tell_kind(notes, found, told)
    }
}

// Tells which character of a text can't be taken, where these words refuse one.
fn tell_text<H: Host>(
    notes: &mut String,
    host: &mut H,
    found: &Found,
    front: &str,
    told: &[u8],
) -> Result<(), AllocError>
    ensures looked { IsTrue (H.state host.old).honest → IsLooking (H.state host.old) (H.state host.new) }
{
    if front != TEXT {
        return Ok(());
    }
    match text_fault(host, &found.given, told)? {
        Some(fault) => writeln!(notes, "{fault}"),
        None => Ok(()),
    }
}

// What the words of a row mean and what to do next. Of a volume that is damaged it is not said that there is none.
fn meaning_of(row: &Explanation, is_broken: bool) -> (&'static str, &'static str) {
    if is_broken && NO_VOLUME.iter().any(|words| *words == row.front) {
        (DAMAGED, "")
    } else {
        (row.meaning, row.advice)
    }
}

// Tells what the words of a row mean.
fn tell_meaning(notes: &mut String, row: &Explanation, is_broken: bool) -> Result<(), AllocError> {
    let front = row.front;
    let (meaning, advice) = meaning_of(row, is_broken);
    let colon = if front.ends_with(':') { "" } else { ":" };
    let space = if advice.is_empty() { "" } else { " " };
    writeln!(notes, "{front}{colon} {meaning}{space}{advice}")
}

// Tells what the words of a row mean, and of which files they are.
fn tell_row<H: Host>(
    notes: &mut String,
    host: &mut H,
    found: &Found,
    row: &Explanation,
    told: &[u8],
    is_broken: bool,
) -> Result<(), AllocError>
    ensures looked { IsTrue (H.state host.old).honest → IsLooking (H.state host.old) (H.state host.new) }
{
    tell_unusable(notes, host, found, row.front, told)?;
    tell_text(notes, host, found, row.front, told)?;
    tell_meaning(notes, row, is_broken)?;
    tell_file(notes, found, row.front)
}

// Tells what each of the words of a table means that begin a line of what was told.
fn tell_rows<H: Host>(
    notes: &mut String,
    host: &mut H,
    found: &Found,
    table: &[Explanation],
    told: &[u8],
    is_broken: bool,
) -> Result<(), AllocError>
    ensures looked { IsTrue (H.state host.old).honest → IsLooking (H.state host.old) (H.state host.new) }
{
    for row in explained(host.alloc(), table, told)? {
        tell_row(notes, host, found, row, told, is_broken)?;
    }
    Ok(())
}

// The lines that `identify` tells of the image.
fn told_ways<'a>(found: &'a Found, told: &'a [u8]) -> &'a str {
    match &found.ways {
        Some(ways) => ways.as_str(),
        None => std::str::from_utf8(told).unwrap_or(""),
    }
}

// Tells of a volume whose directory is damaged what that means, and which command tells where.
fn tell_broken<H: Host>(
    notes: &mut String,
    host: &mut H,
    found: &Found,
    told: &[u8],
    way: BrokenWay<'_>,
) -> Result<(), AllocError>
    ensures looked { IsTrue (H.state host.old).honest → IsLooking (H.state host.old) (H.state host.new) }
{
    tell_rows(notes, host, found, &FINDINGS, b"BROKEN\n", false)?;
    tell_where(notes, told_ways(found, told), way)
}

// Tells which command tells where the fault of a damaged volume is.
fn tell_where(notes: &mut String, ways: &str, way: BrokenWay<'_>) -> Result<(), AllocError> {
    let BrokenWay { file_system, order } = way;
    let (image, order) = match header_order(ways) {
        None => ("IMAGE", order),
        Some(header) if header == order => ("IMAGE", "2img"),
        Some(_) => {
            writeln!(
                notes,
                "`a2shop unwrap IMAGE --out FILE` first takes the image out of its container."
            )?;
            ("FILE", order)
        }
    };
    writeln!(
        notes,
        "`a2shop check {image} --fs {file_system} --order {order}` tells where the fault is."
    )
}

// What to do where the file of an image is not opened, in whole sentences.
fn fault_text(fault: ImageFault) -> &'static str {
    match fault {
        ImageFault::Unopened => {
            "it could not be opened. Look whether it is there, whether you may read it and, with `--in-place`, write \
                it: a file that is write-protected is not changed, and `chmod u+w` lets it be."
        }
        ImageFault::Held => {
            "another program works on it and holds its lock, so nothing was read or written. Try again when that has \
                ended."
        }
        ImageFault::Replaced => {
            "another program has replaced it since it was opened, so nothing was written. Try again."
        }
    }
}

// Why a machine does not start from a disk with the system of another, in whole sentences.
fn boot_text(fault: BootFault) -> &'static str {
    match fault {
        BootFault::Zeros => {
            "its first sector, which a machine loads when it starts, has zeros alone. A machine does not start from \
                it, nor from the new disk."
        }
        BootFault::OtherSystem => {
            "it has a volume of the other file system, so its system is the other one too: a machine that starts from \
                the new disk does not find its files there."
        }
    }
}

// What stands where something could not be written, in whole sentences.
fn unwritten_text(unwritten: Unwritten) -> &'static str {
    match unwritten {
        Unwritten::Text => "the text could not be written there. Each file is as it was.",
        Unwritten::TextAfterImage => {
            "the text could not be written there. The image was changed in its own file."
        }
        Unwritten::Image | Unwritten::ImageAfterText => {
            "it could not be written. Each file is as it was."
        }
        Unwritten::ImageAfterCertificate => {
            "it could not be written, and is as it was. The certificate was written, and is good for the image as it \
                is."
        }
        Unwritten::Certificate => {
            "it could not be written. Each file is as it was, the one of the image too."
        }
        Unwritten::CertificateBeforeImage => {
            "it could not be written, so nothing was done. Each file is as it was."
        }
        Unwritten::CertificateAfterImage => {
            "it could not be written. The image was changed in its own file."
        }
        Unwritten::Folder | Unwritten::FolderAfterText => {
            "it could not be written. What stood there stands."
        }
    }
}

/// What may be in the way of a new folder.
const IN_THE_WAY_OF_A_FOLDER: &str =
    "A folder is first filled under another name in the same place, one that ends in `.new`. Look whether the folder \
    around it is there and may be written to, whether the disk has room and takes such names, and, where an empty \
    folder stands there, whether you may fill it. Folders that end in `.new` and were left behind may be deleted.";

/// What may be in the way of an output file.
const IN_THE_WAY: &str =
    "A file is first written under another name in the same folder, one that ends in `.new`. Look whether the folder \
    is there and may be written to, whether the disk has room, and whether the name is that of a folder or too long; \
    a new file does not take the place of one that was put there in the meantime. \
    Files that end in `.new` and were left behind there may be deleted.";

/// What is in the way of an output file that is to replace one that no one may write.
const WRITE_PROTECTED: &str =
    "It is write-protected: no one may write it. `chmod u+w` lets it be replaced.";

// What may be in the way of an output file at a path.
fn in_the_way<H: Host>(host: &mut H, path: &Option<String>) -> &'static str
    ensures looked { IsTrue (H.state host.old).honest → IsLooking (H.state host.old) (H.state host.new) }
{
    let Some(path) = path else {
        return IN_THE_WAY;
    };
    match target_of(host, path.as_str()) {
        Ok(target) if target.is_protected() => WRITE_PROTECTED,
        _ => IN_THE_WAY,
    }
}

// The name of a file as it is shown.
fn shown(alloc: Global, path: &Option<String>) -> Result<String, AllocError> {
    let Some(path) = path else {
        return "the file".to_string(alloc);
    };
    if path.as_str() == "-" {
        return "standard input".to_string(alloc);
    }
    escaped(alloc, path.as_str())
}

// Tells why the image was not opened, if it was not.
fn tell_fault(notes: &mut String, alloc: Global, found: &Found) -> Result<(), AllocError> {
    let Some(fault) = found.fault else {
        return Ok(());
    };
    let name = shown(alloc, &found.path)?;
    let text = fault_text(fault);
    writeln!(notes, "{name}: {text}")
}

// Tells what could not be written, and what stands then.
fn tell_unwritten<H: Host>(
    notes: &mut String,
    host: &mut H,
    found: &Found,
) -> Result<(), AllocError>
    ensures looked { IsTrue (H.state host.old).honest → IsLooking (H.state host.old) (H.state host.new) }
{
    let Some(unwritten) = found.unwritten else {
        return Ok(());
    };
    let text = unwritten_text(unwritten);
    let path = match unwritten {
        Unwritten::Text | Unwritten::TextAfterImage => {
            return writeln!(notes, "standard output: {text}");
        }
        Unwritten::Image | Unwritten::ImageAfterText | Unwritten::ImageAfterCertificate => {
            &found.out
        }
        Unwritten::Certificate
        | Unwritten::CertificateBeforeImage
        | Unwritten::CertificateAfterImage => &found.certificate,
        Unwritten::Folder | Unwritten::FolderAfterText => {
            let name = shown(host.alloc(), &found.folder)?;
            return writeln!(notes, "{name}: {text} {IN_THE_WAY_OF_A_FOLDER}");
        }
    };
    let name = shown(host.alloc(), path)?;
    let advice = in_the_way(host, path);
    writeln!(notes, "{name}: {text} {advice}")
}

// Tells that the header of a container names another order than the best way to read its image, if it does.
fn tell_orders(
    notes: &mut String,
    alloc: Global,
    found: &Found,
    told: &[u8],
) -> Result<(), AllocError> {
    let Some((header, best)) = orders_apart(told) else {
        return Ok(());
    };
    let name = shown(alloc, &found.path)?;
    writeln!(
        notes,
        "{name}: the header says that the image is in {header} order, and it is best read in {best} order: the header \
        is wrong."
    )
}

// Tells why a machine does not start from a new disk, if it does not.
fn tell_boot(notes: &mut String, alloc: Global, found: &Found) -> Result<(), AllocError> {
    let Some(fault) = found.boot else {
        return Ok(());
    };
    let name = shown(alloc, &found.path)?;
    let text = boot_text(fault);
    writeln!(notes, "{name}: {text}")
}

// Tells which image was read, and what each of the words means that begin a line of what was told.
fn tell<H: Host>(
    notes: &mut String,
    host: &mut H,
    found: &Found,
    told: &[u8],
) -> Result<(), AllocError>
    ensures looked { IsTrue (H.state host.old).honest → IsLooking (H.state host.old) (H.state host.new) }
{
    let broken = broken_way(told_ways(found, told));
    let alloc = host.alloc();
    tell_image(notes, alloc, found)?;
    tell_fault(notes, alloc, found)?;
    tell_unwritten(notes, host, found)?;
    tell_boot(notes, alloc, found)?;
    tell_orders(notes, alloc, found, told)?;
    tell_rows(notes, host, found, &REFUSALS, told, broken.is_some())?;
    tell_rows(notes, host, found, &FINDINGS, told, broken.is_some())?;
    match broken {
        Some(way) => tell_broken(notes, host, found, told, way),
        None => Ok(()),
    }
}

/// Explains on standard error what was told. Where that can't be written, nothing else changes.
pub fn explain<H: Host>(host: &mut H, found: &Found, told: &[u8])
    ensures looked { IsTrue (H.state host.old).honest → IsLooking (H.state host.old) (H.state host.new) }
{
    let mut notes = String::new(host.alloc());
    // Want of memory ends the text, and what there is of it is written.
    let _ = tell(&mut notes, host, found, told);
    note(host, notes.as_str().as_bytes());
}

/// Tells on standard error of which other kind a file is that a survey found to be no image, and where it is.
pub fn tell_foreign<H: Host>(host: &mut H, path: &str, foreign: Foreign)
    ensures looked { IsTrue (H.state host.old).honest → IsLooking (H.state host.old) (H.state host.new) }
{
    let alloc = host.alloc();
    let Ok(name) = escaped(alloc, path) else {
        return;
    };
    let text = foreign.text();
    if let Ok(line) = format!(in alloc; "{name}: {text}\n") {
        note(host, line.as_str().as_bytes());
    }
}

/// Warns on standard error that `identify` names another way to read the image than the words of a job do.
pub fn warn_of_order<H: Host>(host: &mut H, file_system: &str, order: &str)
    ensures looked { IsTrue (H.state host.old).honest → IsLooking (H.state host.old) (H.state host.new) }
{
    let warning = format!(in host.alloc();
        "warning: `a2shop identify` names another way to read this image: `--fs {file_system} --order {order}`. In a \
        wrong order a change destroys files; look at `a2shop catalog` in both, and keep the original.\n"
    );
    if let Ok(warning) = warning {
        note(host, warning.as_str().as_bytes());
    }
}
