// The line of a file in JSON, its members in rising order of their keys.
//
// Each part below is that of the members from one key on, with the closing brace behind them.
ghost use Rattle.std.specs.Prelude.{◌≡◌, ◌∷◌, ◌++◌, [], IfOk, Some, option_map, string_bytes, true};
ghost use Rattle.file_listings.specs.DosText.{line};
ghost use Rattle.image_readings.specs.IdentifyText.{file_system_word, order_word};
ghost use Rattle.image_survey.specs.JsonLines.{
  bare_row,
  best_row,
  digest_or_null,
  file_data,
  free_on,
  image_on,
  path_on,
  row_by,
  row_data,
  shell_text,
  text_or_null,
  word_text,
};
ghost use Rattle.image_survey.specs.JsonViews.{row_view};
ghost use Rattle.image_survey.specs.Lines.{volume_text};
ghost use Rattle.json.specs.Print.{quoted};
ghost use Rattle.row_text.specs.Row.{number_or_null};
ghost use Rattle.row_text.specs.Shown.{lower_hex};
ghost use Rattle.serde_json.specs.Written.{compact_text, members_text};

use crate::json_string::JsonString;
use crate::line::{VolumeText, digest_in};
use crate::surveyed::{BestReading, ImageFile, ImageVerdict, Surveyed};
use a2_device::Order;
use row_text::LowerHex;
use shop_jobs::FileSystem;
use std::alloc::{AllocError, Global};
use std::fmt;

/// The word for what is found of a file.
#[derive(Clone, Copy)]
pub enum VerdictWord {
    Best,
    Ambiguous,
    NoVolume,
    Other,
    Unread,
}

// That word, as a string.
#[derive(Clone, Copy)]
struct WordString(VerdictWord);

impl fmt::Display for WordString {
    ghost output = { λ w. Some (quoted (word_text w.0)) };

    #[tactic(auto, unfolding(json::specs::Print::escape_byte))]
    fn fmt<W: fmt::Write>(&self, f: &mut fmt::Formatter<W>) -> fmt::Result {
        match self.0 {
            VerdictWord::Best => write!(f, "\"BEST\""),
            VerdictWord::Ambiguous => write!(f, "\"AMBIGUOUS\""),
            VerdictWord::NoVolume => write!(f, "\"NONE\""),
            VerdictWord::Other => write!(f, "\"OTHER\""),
            VerdictWord::Unread => write!(f, "\"UNREAD\""),
        }
    }
}

// No digit of a digest is escaped in a string. It does nothing, and is called for this clause.
fn digits_stand(bytes: &[u8])
    ensures { quoted (lower_hex bytes.now) ≡ 34 ∷ lower_hex bytes.now ++ 34 ∷ [] }
{}

// A digest, or `null`.
#[derive(Clone, Copy)]
struct DigestOrNull(Option<[u8; 32]>);

impl fmt::Display for DigestOrNull {
    ghost output = { λ d. Some (compact_text (digest_or_null d.0)) };

    fn fmt<W: fmt::Write>(&self, f: &mut fmt::Formatter<W>) -> fmt::Result {
        match &self.0 {
            None => write!(f, "null"),
            Some(digest) => {
                digits_stand(digest);
                let digits = LowerHex(digest);
                write!(f, "\"{digits}\"")
            }
        }
    }
}

// A number, or `null`.
#[derive(Clone, Copy)]
struct NumberOrNull(Option<u64>);

impl fmt::Display for NumberOrNull {
    ghost output = { λ n. Some (compact_text (number_or_null n.0)) };

    fn fmt<W: fmt::Write>(&self, f: &mut fmt::Formatter<W>) -> fmt::Result {
        match self.0 {
            None => write!(f, "null"),
            Some(number) => write!(f, "{number}"),
        }
    }
}

// The word of an order, or `null`.
#[derive(Clone, Copy)]
struct OrderOrNull(Option<Order>);

impl fmt::Display for OrderOrNull {
    ghost output = { λ o. Some (compact_text (text_or_null (option_map order_word o.0))) };

    #[tactic(auto, unfolding(json::specs::Print::escape_byte))]
    fn fmt<W: fmt::Write>(&self, f: &mut fmt::Formatter<W>) -> fmt::Result {
        match self.0 {
            None => write!(f, "null"),
            Some(Order::Dos) => write!(f, "\"dos\""),
            Some(Order::Prodos) => write!(f, "\"prodos\""),
            Some(Order::Nibble) => write!(f, "\"nibble\""),
        }
    }
}

// The word of a file system, or `null`.
#[derive(Clone, Copy)]
struct SystemOrNull(Option<FileSystem>);

impl fmt::Display for SystemOrNull {
    ghost output = { λ s. Some (compact_text (text_or_null (option_map file_system_word s.0))) };

    #[tactic(auto, unfolding(json::specs::Print::escape_byte))]
    fn fmt<W: fmt::Write>(&self, f: &mut fmt::Formatter<W>) -> fmt::Result {
        match self.0 {
            None => write!(f, "null"),
            Some(FileSystem::Dos) => write!(f, "\"dos\""),
            Some(FileSystem::Prodos) => write!(f, "\"prodos\""),
        }
    }
}

// The word for a container, or `null`.
#[derive(Clone, Copy)]
struct ShellOrNull(bool);

impl fmt::Display for ShellOrNull {
    ghost output = { λ s. Some (compact_text (text_or_null (shell_text s.0))) };

    #[tactic(auto, unfolding(json::specs::Print::escape_byte))]
    fn fmt<W: fmt::Write>(&self, f: &mut fmt::Formatter<W>) -> fmt::Result {
        if self.0 {
            write!(f, "\"2img\"")
        } else {
            write!(f, "null")
        }
    }
}

// A text, or `null`.
#[derive(Clone, Copy)]
struct StringOrNull<'a>(Option<&'a JsonString>);

impl fmt::Display for StringOrNull<'_> {
    ghost output = { λ s. Some (compact_text (text_or_null (option_map (λ string. string.now) s.0))) };

    fn fmt<W: fmt::Write>(&self, f: &mut fmt::Formatter<W>) -> fmt::Result {
        match self.0 {
            None => write!(f, "null"),
            Some(string) => write!(f, "{string}"),
        }
    }
}

/// What is told of a file, where it is there.
#[derive(Clone, Copy)]
struct JsonRow<'a> {
    content: Option<[u8; 32]>,
    disk: Option<[u8; 32]>,
    files: Option<u64>,
    free: Option<u64>,
    file_system: Option<FileSystem>,
    image: Option<[u8; 32]>,
    lost: Option<u64>,
    order: Option<Order>,
    path: &'a JsonString,
    container: bool,
    word: VerdictWord,
    volume: Option<&'a JsonString>,
}

// The members from `path` on.
#[derive(Clone, Copy)]
struct PathOn<'a>(&'a JsonRow<'a>);

impl fmt::Display for PathOn<'_> {
    ghost output = { λ r. Some (members_text true (path_on (row_view r.0.now))) };

    #[tactic(auto, unfolding(json::specs::Print::escape_byte))]
    fn fmt<W: fmt::Write>(&self, f: &mut fmt::Formatter<W>) -> fmt::Result {
        let path = self.0.path;
        let shell = ShellOrNull(self.0.container);
        let word = WordString(self.0.word);
        let volume = StringOrNull(self.0.volume);
        write!(
            f,
            ",\"path\":{path},\"shell\":{shell},\"verdict\":{word},\"volume\":{volume}}}"
        )
    }
}

// The members from `image` on.
#[derive(Clone, Copy)]
struct ImageOn<'a>(&'a JsonRow<'a>);

impl fmt::Display for ImageOn<'_> {
    ghost output = { λ r. Some (members_text true (image_on (row_view r.0.now))) };

    #[tactic(auto, unfolding(json::specs::Print::escape_byte))]
    fn fmt<W: fmt::Write>(&self, f: &mut fmt::Formatter<W>) -> fmt::Result {
        let image = DigestOrNull(self.0.image);
        let lost = NumberOrNull(self.0.lost);
        let order = OrderOrNull(self.0.order);
        let path_on = PathOn(self.0);
        write!(
            f,
            ",\"image\":{image},\"lost\":{lost},\"order\":{order}{path_on}"
        )
    }
}

// The members from `free` on.
#[derive(Clone, Copy)]
struct FreeOn<'a>(&'a JsonRow<'a>);

impl fmt::Display for FreeOn<'_> {
    ghost output = { λ r. Some (members_text true (free_on (row_view r.0.now))) };

    #[tactic(auto, unfolding(json::specs::Print::escape_byte))]
    fn fmt<W: fmt::Write>(&self, f: &mut fmt::Formatter<W>) -> fmt::Result {
        let free = NumberOrNull(self.0.free);
        let system = SystemOrNull(self.0.file_system);
        let image_on = ImageOn(self.0);
        write!(f, ",\"free\":{free},\"fs\":{system}{image_on}")
    }
}

impl fmt::Display for JsonRow<'_> {
    ghost output = { λ r. Some (compact_text (row_data (row_view r))) };

    #[tactic(auto, unfolding(json::specs::Print::escape_byte))]
    fn fmt<W: fmt::Write>(&self, f: &mut fmt::Formatter<W>) -> fmt::Result {
        let content = DigestOrNull(self.content);
        let disk = DigestOrNull(self.disk);
        let files = NumberOrNull(self.files);
        let free_on = FreeOn(self);
        write!(
            f,
            "{{\"content\":{content},\"disk\":{disk},\"files\":{files}{free_on}"
        )
    }
}

// Of a file without a best reading the digest of its image, and whether it is a container.
fn bare_row<'a>(
    word: VerdictWord,
    image: Option<[u8; 32]>,
    container: bool,
    path: &'a JsonString,
) -> JsonRow<'a>
    ensures { row_view result ≡ bare_row word image container path.now }
{
    JsonRow {
        content: None,
        disk: None,
        files: None,
        free: None,
        file_system: None,
        image,
        lost: None,
        order: None,
        path,
        container,
        word,
        volume: None,
    }
}

// How many places are lost, where it is told.
fn wide(lost: Option<usize>) -> Option<u64>
    ensures { result ≡ lost }
{
    match lost {
        Some(lost) => Some(lost as u64),
        None => None,
    }
}

// Of a file with a best reading all that is told of it.
fn best_row<'a>(
    best: &BestReading,
    sha256: &[u8; 32],
    container: bool,
    path: &'a JsonString,
    name: &'a JsonString,
) -> JsonRow<'a>
    ensures { name.now ≡ volume_text best.now.file_system best.now.facts.name
        → row_view result ≡ best_row best.now sha256.now container path.now }
{
    let volume = Some(name);
    JsonRow {
        content: digest_in(best.facts.content),
        disk: best.disk,
        files: Some(u64::from(best.facts.files)),
        free: Some(u64::from(best.facts.free)),
        file_system: Some(best.file_system),
        image: Some(*sha256),
        lost: wide(best.facts.lost),
        order: Some(best.order),
        path,
        container,
        word: VerdictWord::Best,
        volume,
    }
}

// The name of a volume as it is shown, as a string.
fn volume_string(alloc: Global, best: &BestReading) -> Result<JsonString, AllocError>
    ensures { IfOk result (λ name. name ≡ volume_text best.now.file_system best.now.facts.name) }
{
    let name = VolumeText {
        file_system: best.file_system,
        name: best.facts.name.as_bytes(),
    };
    let name = format!(in alloc; "{name}")?;
    JsonString::of(alloc, name.as_str())
}

// The line of a file with a best reading.
fn best_json(
    alloc: Global,
    best: &BestReading,
    sha256: &[u8; 32],
    container: bool,
    path: &JsonString,
) -> Result<String, AllocError>
    ensures { IfOk result (λ text. string_bytes text
        ≡ line (compact_text (row_data (best_row best.now sha256.now container path.now)))) }
{
    let name = volume_string(alloc, best)?;
    let row = best_row(best, sha256, container, path, &name);
    format!(in alloc; "{row}\n")
}

// The line of a file without a best reading.
fn bare_json(
    alloc: Global,
    word: VerdictWord,
    image: Option<[u8; 32]>,
    container: bool,
    path: &JsonString,
) -> Result<String, AllocError>
    ensures { IfOk result (λ text. string_bytes text
        ≡ line (compact_text (row_data (bare_row word image container path.now)))) }
{
    let row = bare_row(word, image, container, path);
    format!(in alloc; "{row}\n")
}

// The line of a file with an image.
fn image_json(alloc: Global, image: &ImageFile, path: &JsonString) -> Result<String, AllocError>
    ensures { IfOk result (λ text. string_bytes text
        ≡ line (compact_text (row_data (row_by image.now.verdict image.now.sha256 image.now.container path.now)))) }
{
    let (sha256, container) = (image.sha256, image.container);
    match &image.verdict {
        ImageVerdict::Best(best) => best_json(alloc, best, &sha256, container, path),
        ImageVerdict::Ambiguous => {
            bare_json(alloc, VerdictWord::Ambiguous, Some(sha256), container, path)
        }
        ImageVerdict::NoVolume => {
            bare_json(alloc, VerdictWord::NoVolume, Some(sha256), container, path)
        }
    }
}

/// The line of a file, with its end.
///
/// # Errors
/// Want of memory alone.
pub(crate) fn file_json(alloc: Global, found: &Surveyed, path: &str) -> Result<String, AllocError>
    ensures { IfOk result (λ text. string_bytes text ≡ line (compact_text (file_data found.now path.now))) }
{
    let path = JsonString::of(alloc, path)?;
    match found {
        Surveyed::Image(image) => image_json(alloc, image, &path),
        Surveyed::Other => bare_json(alloc, VerdictWord::Other, None, false, &path),
        Surveyed::Unread => bare_json(alloc, VerdictWord::Unread, None, false, &path),
    }
}
