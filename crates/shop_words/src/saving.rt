//! The change that is made by `save`.
ghost use Rattle.std.specs.Prelude.{◌≡◌, IfErr, IfOk, option_map};
ghost use Rattle.shop_jobs.specs.Job.{attributes_view, change_view};
ghost use Rattle.shop_words.specs.Given.{said_of};
ghost use Rattle.shop_words.specs.Gives.{Gives};
ghost use Rattle.shop_words.specs.Job.{
  attributes_by,
  aux_named,
  high_said,
  is_loadable,
  save_by,
  save_form_by,
  save_form_named,
  save_form_said,
};

use crate::given::Given;
use crate::misfit::Misfit;
use crate::reading::address_named;
use apple_text::HighBit;
use shop_jobs::{Change, SaveAttributes, SaveForm};
use std::alloc::Global;

/// Where a program in Applesoft BASIC is loaded.
const PROGRAM_START: u16 = 0x0801;

// The auxiliary type, if one is said.
fn aux_named(word: Option<&str>) -> Result<Option<u16>, Misfit>
    ensures { Gives (λ a. a) (aux_named (option_map (λ s. s.now) word.entry)) result }
{
    let Some(word) = word else {
        return Ok(None);
    };
    match address_named(word) {
        Some(aux) => Ok(Some(aux)),
        None => Err(Misfit::Value { name: "aux" }),
    }
}

// The highest bit of the bytes of a text, where one is said.
fn high_said(word: Option<&str>) -> Result<Option<HighBit>, Misfit>
    ensures { Gives (λ h. h) (high_said (option_map (λ s. s.now) word.entry)) result }
{
    match word {
        None => Ok(None),
        Some("on") => Ok(Some(HighBit::On)),
        Some("off") => Ok(Some(HighBit::Off)),
        Some(_) => Err(Misfit::Value { name: "high" }),
    }
}

// The form that a word names, with the highest bit that is said of a text.
fn save_form_named(word: &str, high: Option<&str>) -> Result<Option<SaveForm>, Misfit>
    ensures { Gives (λ f. f) (save_form_named word.now (option_map (λ s. s.now) high.entry)) result }
{
    match (word, high) {
        ("text", high) => Ok(Some(SaveForm::Text {
            high: high_said(high)?,
        })),
        ("applesoft", None) => Ok(Some(SaveForm::Applesoft)),
        ("single", None) => Ok(Some(SaveForm::Single)),
        ("applesoft" | "single", Some(_)) => Err(Misfit::HighWithoutText),
        _ => Err(Misfit::Value { name: "as" }),
    }
}

// The form in which a new file is given; `None` is its bytes.
fn save_form_said(word: Option<&str>, high: Option<&str>) -> Result<Option<SaveForm>, Misfit>
    ensures { Gives (λ f. f)
        (save_form_said (option_map (λ s. s.now) word.entry) (option_map (λ s. s.now) high.entry)) result }
{
    match (word, high) {
        (Some(word), high) => save_form_named(word, high),
        (None, None) => Ok(None),
        (None, Some(_)) => Err(Misfit::HighWithoutText),
    }
}

// Whether a file that is given so may have this auxiliary type: a program is made for one place.
fn is_loadable(form: Option<SaveForm>, aux: Option<u16>) -> bool
    ensures { result ≡ is_loadable form aux }
{
    match (form, aux) {
        (Some(SaveForm::Applesoft), Some(aux)) => aux == PROGRAM_START,
        _ => true,
    }
}

// The form in which a new file with this auxiliary type is given.
fn save_form_in(given: &Given<'_, '_>, aux: Option<u16>) -> Result<Option<SaveForm>, Misfit>
    ensures { Gives (λ f. f) (save_form_by aux (said_of given.now)) result }
{
    let form = save_form_said(given.said("as"), given.said("high"))?;
    if !is_loadable(form, aux) {
        return Err(Misfit::LoadedElsewhere);
    }
    Ok(form)
}

// What is told of words whose form of a new file is wrong so: what is wrong with the file system, where that is too.
fn form_misfit(given: &Given<'_, '_>, misfit: Misfit) -> Misfit
    ensures { misfit ≡ Misfit.Memory → result ≡ Misfit.Memory }
{
    match (misfit, given.file_system()) {
        (Misfit::Memory, _) | (_, Ok(_)) => misfit,
        (_, Err(first)) => first,
    }
}

// What the words say of a new file with this auxiliary type.
fn attributes_in(
    alloc: Global,
    given: &Given<'_, '_>,
    aux: Option<u16>,
) -> Result<SaveAttributes, Misfit>
    ensures attributes { IfOk result (λ attributes.
        attributes_view attributes ≡ attributes_by aux (said_of given.now)) }
    ensures memory { IfErr result (λ misfit. misfit ≡ Misfit.Memory) }
{
    Ok(SaveAttributes {
        kind: given.text(alloc, "type")?,
        aux,
        date: given.text(alloc, "date")?,
    })
}

/// The change that is made by `save`.
pub fn save_in(alloc: Global, given: &Given<'_, '_>) -> Result<Change, Misfit>
    ensures { Gives change_view (save_by (said_of given.now)) result }
{
    let aux = aux_named(given.said("aux"))?;
    let form = match save_form_in(given, aux) {
        Ok(form) => form,
        Err(misfit) => return Err(form_misfit(given, misfit)),
    };
    Ok(Change::Save {
        name: given.needed_text(alloc, "name")?,
        attributes: attributes_in(alloc, given, aux)?,
        form,
        replace: given.has("replace"),
    })
}
