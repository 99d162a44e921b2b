// How a job names a file, to the formats of files.
ghost use Rattle.std.specs.Prelude.{◌≡◌};
ghost use Rattle.file_formats.specs.FileNames.{name_view};
ghost use Rattle.shop_jobs.specs.Job.{file_name_view};
ghost use Rattle.shop_reads.specs.FileNames.{named_by};

use file_formats::FileName;

/// The name of a file that a job gives, as the formats of files have it.
pub fn file_name(name: &shop_jobs::FileName) -> FileName<'_>
    ensures { name_view result ≡ named_by (file_name_view name.now) }
{
    match name {
        shop_jobs::FileName::Path(path) => FileName::Path(path.as_bytes()),
        shop_jobs::FileName::Stored(bytes) => FileName::Stored(bytes.as_slice()),
    }
}
