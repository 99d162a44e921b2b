// Where the paths of a job lead.
ghost use Rattle.std.specs.Prelude.{◌≡◌, ◌≢◌, ◌↔◌, IfErr, IfOk, IfSome, IsTrue, None, option_map, string_bytes};
ghost use Rattle.std.specs.IoError.{error_kind};
ghost use Rattle.shop_jobs.specs.Input.{StandardInput, beside_view, folder_of, source_view};
ghost use Rattle.shop_jobs.specs.Job.{job_view, target_view};
ghost use Rattle.shop_files.specs.Outputs.{
  IsDestination,
  IsNamed,
  IsOutputOf,
  IsPlacingOf,
  NamesFiles,
};
ghost use Rattle.shop_files.specs.Roles.{HasClash, IsUse, identity_of, identity_view, image_identity, roles_of};
ghost use Rattle.shop_host.specs.Runs.{IsLooking};
ghost use Rattle.shop_outputs.specs.Asides.{destination};
ghost use Rattle.shop_files.specs.declared.clash.Clash.{Clash as AClash};

use crate::clash::{Clash, Roles};
use crate::identity::{FileIdentity, is_same_file};
use shop_host::{Host, Node};
use shop_inputs::ImageUse;
use shop_jobs::{Beside, Job, Source};
use shop_outputs::{Output, Placing, Target, target_of};
use std::alloc::Global;
use std::io::{self, ErrorKind};

/// By which path the system shows standard input.
const STANDARD_INPUT: &str = "/dev/stdin";

/// No file.
const NONE: FileIdentity<'static> = FileIdentity {
    path: None,
    node: None,
};

/// A path that a job may name, and where it leads.
#[derive(Drop)]
struct NamedFile {
    path: Option<String>,
    target: Target,
}

impl NamedFile {
    // Looks where a path leads; one that is left out leads nowhere.
    fn of<H: Host>(host: &mut H, path: Option<&str>) -> io::Result<NamedFile>
        ensures named { IfOk result (IsNamed (option_map (λ s. s.now) path.entry)) }
        ensures failed { IfErr result (λ error. error_kind error ≡ ErrorKind.OutOfMemory) }
        ensures looked { IsTrue (H.state host.old).honest → IsLooking (H.state host.old) (H.state host.new) }
    {
        let Some(path) = path else {
            return Ok(NamedFile {
                path: None,
                target: Target::Nowhere,
            });
        };
        let target = target_of(host, path)?;
        Ok(NamedFile {
            path: Some(path.to_string(host.alloc())?),
            target,
        })
    }

    // Which file stands or is to stand there.
    fn identity(&self) -> FileIdentity<'_>
        ensures { identity_view result ≡ identity_of self.now.target }
    {
        match &self.target {
            Target::Place(place) => FileIdentity {
                path: Some(place.path.as_str()),
                node: match &place.standing {
                    Some(standing) => Some(standing.node),
                    None => None,
                },
            },
            Target::Straight | Target::StandardOutput | Target::Nowhere => NONE,
        }
    }

    // The file to be written there, if there is a path, which may take such a place; no file aside gets the path of
    // the other file.
    fn output<'a, H: Host>(
        &'a self,
        alloc: Global,
        other: &'a NamedFile,
        placing: Placing,
    ) -> Output<'a, H>
        ensures output { IsOutputOf (option_map string_bytes self.now.path) self.now.target placing result }
        ensures destination { IsDestination (option_map string_bytes self.now.path) self.now.target
            (identity_of other.now.target).path placing (destination result) }
    {
        match &self.path {
            Some(path) => {
                let apart = other.identity().path;
                Output::new(alloc, path.as_str(), &self.target, apart, placing)
            }
            None => Output::Nothing,
        }
    }

    // Whether something stands at the path itself, a link too.
    fn is_taken<H: Host>(&self, host: &mut H) -> bool
        ensures looked { IsTrue (H.state host.old).honest → IsLooking (H.state host.old) (H.state host.new) }
    {
        match &self.path {
            Some(path) => host.found_itself(path.as_str()).is_ok(),
            None => false,
        }
    }
}

/// The files that a job names, where their paths lead, and which file standard input is where the image comes from
/// there.
pub struct JobFiles {
    image: NamedFile,
    input: Option<Node>,
    from: NamedFile,
    /// The path of the folder whose files are added, with links followed.
    folder: Option<String>,
    out: NamedFile,
    placing: Placing,
    certificate: NamedFile,
}

impl Drop for JobFiles {
    fn drop(self) {
        let JobFiles {
            image: _,
            input: _,
            from: _,
            folder: _,
            out: _,
            placing: _,
            certificate: _,
        } = self;
    }
}

// Which place the output file of a job may take.
fn placing_of(output: &shop_jobs::Target) -> Placing
    ensures { IsPlacingOf (target_view output.now) result }
{
    if output.is_new_file() {
        Placing::Free
    } else {
        Placing::Over
    }
}

// The path of the folder whose files are added, with links followed; `None` where it leads to nothing.
fn added_folder<H: Host>(host: &mut H, beside: &Beside) -> io::Result<Option<String>>
    ensures none { folder_of (beside_view beside.now) ≡ None → IfOk result (λ folder. folder ≡ None) }
    ensures failed { IfErr result (λ error. error_kind error ≡ ErrorKind.OutOfMemory) }
    ensures looked { IsTrue (H.state host.old).honest → IsLooking (H.state host.old) (H.state host.new) }
{
    let Some(path) = beside.folder() else {
        return Ok(None);
    };
    match host.own_path(path) {
        Ok(folder) => Ok(Some(folder)),
        Err(error) if error.kind() == ErrorKind::OutOfMemory => Err(error),
        Err(_) => Ok(None),
    }
}

// Which file standard input is, if it is a regular one and the system shows it.
fn input_node<H: Host>(host: &mut H) -> Option<Node>
    ensures { IsTrue (H.state host.old).honest → IsLooking (H.state host.old) (H.state host.new) }
{
    match host.found(STANDARD_INPUT) {
        Ok(found) if found.is_file() => Some(found.node),
        _ => None,
    }
}

// Which file the image comes from where it is standard input, if that is known.
fn input_of<H: Host>(host: &mut H, image: &Source) -> Option<Node>
    ensures looked { IsTrue (H.state host.old).honest → IsLooking (H.state host.old) (H.state host.new) }
    ensures none { source_view image.now ≢ StandardInput → result ≡ None }
{
    match image {
        Source::StandardInput => input_node(host),
        Source::Nothing | Source::File(_) => None,
    }
}

impl JobFiles {
    /// Looks where the paths of a job lead.
    ///
    /// # Errors
    /// Want of memory.
    pub fn of<H: Host>(host: &mut H, job: &Job) -> io::Result<JobFiles>
        ensures named { IfOk result (NamesFiles (job_view job.now)) }
        ensures failed { IfErr result (λ error. error_kind error ≡ ErrorKind.OutOfMemory) }
        ensures looked { IsTrue (H.state host.old).honest → IsLooking (H.state host.old) (H.state host.new) }
    {
        let input = input_of(host, &job.input.image);
        Ok(JobFiles {
            image: NamedFile::of(host, job.input.image.path())?,
            input,
            from: NamedFile::of(host, job.input.beside.path())?,
            folder: added_folder(host, &job.input.beside)?,
            out: NamedFile::of(host, job.output.file())?,
            placing: placing_of(&job.output),
            certificate: NamedFile::of(host, job.certificate.as_deref())?,
        })
    }

    // Which file the image is.
    fn image_identity(&self) -> FileIdentity<'_>
        ensures { identity_view result ≡ image_identity self.now.input self.now.image.target }
    {
        match self.input {
            Some(node) => FileIdentity {
                path: None,
                node: Some(node),
            },
            None => self.image.identity(),
        }
    }

    /// Two roles that one file has, of which one is written, where the image is changed in its own file or is not; or
    /// an output file in the folder whose files are added.
    pub fn clash(&self, in_place: bool) -> Option<Clash>
        ensures some { IfSome result (HasClash (roles_of self.now in_place)) }
        ensures none { result ≡ None ↔ ((clash : AClash) → ¬ HasClash (roles_of self.now in_place) clash) }
    {
        let roles = Roles {
            image: self.image_identity(),
            in_place,
            from: self.from.identity(),
            folder: self.folder.as_deref(),
            out: self.out.identity(),
            certificate: self.certificate.identity(),
        };
        roles.clash()
    }

    /// How the file of the image is used, where it is changed in place or is not.
    pub fn image_use(&self, in_place: bool) -> ImageUse
        ensures { IsUse (roles_of self.now in_place) result }
    {
        if in_place {
            ImageUse::Change
        } else if is_same_file(self.out.identity(), self.image_identity()) {
            ImageUse::Replace
        } else {
            ImageUse::Read
        }
    }

    /// Whether the output file is to be a new one, and something stands at its path, a link too.
    pub fn has_no_free_place<H: Host>(&self, host: &mut H) -> bool
        ensures free { IsTrue result → self.now.placing ≡ Placing.Free }
        ensures looked { IsTrue (H.state host.old).honest → IsLooking (H.state host.old) (H.state host.new) }
    {
        self.placing == Placing::Free && self.out.is_taken(host)
    }

    /// The output file of a job that has one, for its image or for the bytes of a file.
    pub fn output<H: Host>(&self, alloc: Global) -> Output<'_, H>
        ensures output { IsOutputOf
            (option_map string_bytes self.now.out.path) self.now.out.target self.now.placing result }
        ensures destination { IsDestination (option_map string_bytes self.now.out.path) self.now.out.target
            (identity_of self.now.certificate.target).path self.now.placing (destination result) }
    {
        self.out.output(alloc, &self.certificate, self.placing)
    }

    /// The file of the certificate of a job that writes one.
    pub fn certificate_output<H: Host>(&self, alloc: Global) -> Output<'_, H>
        ensures output { IsOutputOf
            (option_map string_bytes self.now.certificate.path) self.now.certificate.target Placing.Over result }
        ensures destination { IsDestination (option_map string_bytes self.now.certificate.path)
            self.now.certificate.target (identity_of self.now.out.target).path Placing.Over (destination result) }
    {
        self.certificate.output(alloc, &self.out, Placing::Over)
    }
}
