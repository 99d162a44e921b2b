//! What a list of words asks for: the words of a command, and whether its answer is to be explained.
ghost use Rattle.std.specs.Prelude.{◌≡◌, find, IfErr, IfOk, List, option_map, Some, true};
ghost use Rattle.std.specs.Str.{bytes_eq};
ghost use Rattle.clap.specs.Matches.{found_of};
ghost use Rattle.clap.specs.Simple.{subcommand_rows_of};
ghost use Rattle.clap.specs.Walk.{first_of, rows_of};
ghost use Rattle.shop_jobs.specs.Input.{is_settled};
ghost use Rattle.shop_jobs.specs.Job.{job_view};
ghost use Rattle.shop_words.specs.Asked.{asked_list, asked_view, found_asked};
ghost use Rattle.shop_words.specs.Given.{words_of};
ghost use Rattle.shop_words.specs.Gives.{Gives};
ghost use Rattle.shop_words.specs.Job.{form_of, is_counted, is_flagged, line_job, words_job};
ghost use Rattle.shop_words.specs.Plain.{IsLine, IsPlain, Use};
ghost use Rattle.shop_words.specs.Table.{FormView, Text, form_view};

use crate::asking::job_in;
use crate::given::{Given, said};
use crate::misfit::Misfit;
use crate::table::{Form, all_forms};
use clap::ArgMatches;
use shop_jobs::Job;
use std::alloc::Global;

/// What a list of words asks for.
#[derive(Drop)]
pub struct Asked<'a> {
    pub(crate) form: &'static Form,
    /// Whether the words say `--auto`.
    pub(crate) is_auto: bool,
    pub(crate) is_explained: bool,
    pub(crate) matches: ArgMatches<'a>,
}

fn is_named(form: &Form, name: &str) -> bool
    ensures { result ≡ bytes_eq form.now.name.now name.now }
{
    form.name == name
}

// The form with this name.
fn form_among<'t>(forms: &'t [Form], name: &str) -> Option<&'t Form>
    ensures { option_map (λ f. f.now) result ≡ find (λ f. bytes_eq f.name.now name.now) forms.now }
{
    forms.iter().find(|form| is_named(form, name))
}

/// The form of the command with this name.
pub fn form_named(name: &str) -> Option<&'static Form>
    ensures { option_map (λ f. form_view f.now) result ≡ form_of name.now }
{
    form_among(all_forms(), name)
}

// Whether a flag of the program is there.
fn is_counted(word: Option<&str>) -> bool
    ensures { result ≡ is_counted (option_map (λ s. s.now) word.entry) }
{
    match word {
        Some(word) => word != "0",
        None => false,
    }
}

// The same, before the command's name or behind it.
fn is_flagged(name: &str, above: &ArgMatches<'_>, matches: &ArgMatches<'_>) -> bool
    ensures { result ≡ is_flagged name.now (rows_of (found_of above.now)) (rows_of (found_of matches.now)) }
{
    is_counted(said(above, name)) || is_counted(said(matches, name))
}

/// What clap's matches ask for.
pub fn asked_in<'a>(mut above: ArgMatches<'a>) -> Option<Asked<'a>>
    ensures { option_map asked_view result
        ≡ found_asked (rows_of (found_of above.entry)) (subcommand_rows_of above.entry) }
{
    let (command, matches) = above.remove_subcommand()?;
    let form = form_named(command)?;
    Some(Asked {
        form,
        is_auto: is_flagged("auto", &above, &matches),
        is_explained: is_flagged("explain", &above, &matches),
        matches,
    })
}

impl<'a> Asked<'a> {
    // The words.
    fn given(&self) -> Given<'_, 'a>
        ensures { words_of result ≡ (asked_view self.now).words }
    {
        Given {
            form: self.form,
            is_auto: self.is_auto,
            matches: &self.matches,
        }
    }

    /// The command's form.
    pub fn form(&self) -> &'static Form
        ensures { form_view result.now ≡ (asked_view self.now).words.form }
    {
        self.form
    }

    /// What the words say under a parameter's name; a flag says `true`.
    pub fn said(&self, name: &str) -> Option<&'a str>
        ensures { option_map (λ s. s.now) result ≡ (asked_view self.now).words.say name.now }
    {
        said(&self.matches, name)
    }

    /// Whether the answer is to be explained: `--explain`.
    pub fn is_explained(&self) -> bool
        ensures { result ≡ self.now.is_explained }
    {
        self.is_explained
    }

    /// The job that the words ask for; what they leave to the images stands in it as such. That of a plain list leaves
    /// nothing to them, and is what its form says of its words.
    ///
    /// # Errors
    /// Why the words are no job, or want of memory.
    pub fn job(&self, alloc: Global) -> Result<Job, Misfit>
        ensures job { Gives job_view (words_job (asked_view self.now).words) result }

        // a plain list has a job, where there is memory
        ensures plain { (words : List Text) → IsPlain words → asked_list words ≡ Some (asked_view self.now)
            → IfErr result (λ misfit. misfit ≡ Misfit.Memory) }

        // its job leaves nothing to the images
        ensures settled { (words : List Text) → IsPlain words → asked_list words ≡ Some (asked_view self.now)
            → IfOk result (λ job. is_settled (job_view job).input ≡ true) }

        // and its job is what its form says of its words
        ensures line { (words : List Text) → (f : FormView) → (positionals : List Text) → (uses : List Use)
            → IsLine words f positionals uses → asked_list words ≡ Some (asked_view self.now)
            → IfOk result (λ job. line_job f positionals uses ≡ Some (job_view job)) }
    {
        job_in(alloc, &self.given())
    }
}
