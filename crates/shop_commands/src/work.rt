// The work that a change asks for.
ghost use Rattle.std.specs.Prelude.{◌≡◌, IfErr, IfOk, option_map};
ghost use Rattle.shop_changes.specs.SaidFile.{said_view};
ghost use Rattle.shop_jobs.specs.Job.{attributes_view, change_view};
ghost use Rattle.shop_changes.specs.Work.{work_view};
ghost use Rattle.shop_commands.specs.Answer.{
  AsksFor,
  IsMakingWork,
  IsSaid,
  RefusesAttributes,
  RefusesDate,
  RefusesWords,
  given_in,
  kind_said as said_kind,
  limit_of as of_limit,
  saving_work as work_of_saving,
  usual_high as high_of,
};

use apple_text::HighBit;
use file_forms::GivenForm;
use pro_dates::date;
use shop_changes::{SaidFile, Work, kind_named};
use shop_jobs::{Change, FileSystem, SaveAttributes, SaveForm, VolumeOptions};
use shop_reads::file_name;
use shop_replies::Refusal;

// After how many writes to stop.
fn limit_of(stop_after: Option<u64>) -> u64
    ensures { result ≡ of_limit stop_after }
{
    match stop_after {
        Some(limit) => limit,
        None => u64::MAX,
    }
}

// The type that the words name, in a file system, if they name one; `None` for one that it does not have.
fn kind_said(file_system: FileSystem, word: Option<&str>) -> Option<Option<u8>>
    ensures { result ≡ said_kind file_system (option_map (λ s. s.now) word.entry) }
{
    match word {
        Some(word) => Some(Some(kind_named(file_system, word)?)),
        None => Some(None),
    }
}

// The highest bit that the texts of a file system have.
fn usual_high(file_system: FileSystem) -> HighBit
    ensures { result ≡ high_of file_system }
{
    match file_system {
        FileSystem::Dos => HighBit::On,
        FileSystem::Prodos => HighBit::Off,
    }
}

// The form in which a file is given, in a file system, if it is not given as its bytes are.
fn given_form(file_system: FileSystem, form: Option<SaveForm>) -> Option<GivenForm>
    ensures { result ≡ option_map (given_in file_system) form }
{
    match form {
        Some(SaveForm::Text { high: Some(high) }) => Some(GivenForm::Text(high)),
        Some(SaveForm::Text { high: None }) => Some(GivenForm::Text(usual_high(file_system))),
        Some(SaveForm::Applesoft) => Some(GivenForm::Applesoft),
        Some(SaveForm::Single) => Some(GivenForm::Single),
        None => None,
    }
}

// The file that the words of a saving and these bytes say.
fn said_by<'a>(
    file_system: FileSystem,
    attributes: &SaveAttributes,
    form: Option<SaveForm>,
    bytes: &'a [u8],
) -> Result<SaidFile<'a>, Refusal>
    ensures said { IfOk result (λ said.
        IsSaid file_system (attributes_view attributes.now) form bytes.now (said_view said)) }
    ensures refused { IfErr result (RefusesAttributes file_system (attributes_view attributes.now)) }
{
    let Some(kind) = kind_said(file_system, attributes.kind.as_deref()) else {
        return Err(Refusal::Type);
    };
    let Some(date) = date(attributes.date.as_deref()) else {
        return Err(Refusal::Date);
    };
    Ok(SaidFile {
        file_system,
        kind,
        aux: attributes.aux,
        date,
        form: given_form(file_system, form),
        bytes,
    })
}

// The work of a file that is saved.
fn saving_work<'a>(replace: bool, path: &'a [u8], said: SaidFile<'a>) -> Work<'a>
    ensures { work_view result ≡ work_of_saving replace path.entry.now (said_view said.entry) }
{
    if replace {
        Work::Replace { path, said }
    } else {
        Work::Save { path, said }
    }
}

// The work of a directory that is made.
fn making_work<'a>(path: &'a str, said: Option<&str>) -> Result<Work<'a>, Refusal>
    ensures work { IfOk result (λ work. IsMakingWork path.entry.now (option_map (λ s. s.now) said.entry)
        (work_view work)) }
    ensures refused { IfErr result (RefusesDate (option_map (λ s. s.now) said.entry)) }
{
    match date(said) {
        Some(date) => Ok(Work::MakeDirectory {
            path: path.as_bytes(),
            date,
        }),
        None => Err(Refusal::Date),
    }
}

/// The work that a change asks of its volume, with the bytes of a file beside the image.
///
/// # Errors
/// Of a saving `Type` for a type that the file system does not have, then `Date` for a date that is none; of a
/// directory that is made `Date` too. Of another change there is none.
pub fn change_work<'a>(
    volume: VolumeOptions,
    change: &'a Change,
    extra: &'a [u8],
) -> Result<Work<'a>, Refusal>
    ensures work { IfOk result (λ work. AsksFor volume (change_view change.now) extra.now (work_view work)) }
    ensures refused { IfErr result (RefusesWords volume (change_view change.now)) }
{
    match change {
        Change::Optimize {
            reclaim,
            stop_after,
        } => Ok(Work::Optimize {
            reclaim: *reclaim,
            limit: limit_of(*stop_after),
        }),
        Change::Edit { name, edit } => Ok(Work::Edit {
            edit,
            name: file_name(name),
        }),
        Change::Save {
            name,
            attributes,
            form,
            replace,
        } => {
            let said = said_by(volume.file_system, attributes, *form, extra)?;
            Ok(saving_work(*replace, name.as_bytes(), said))
        }
        Change::Reclaim => Ok(Work::Reclaim),
        Change::MakeDirectory { path, date } => making_work(path, date.as_deref()),
    }
}
