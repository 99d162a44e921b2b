//! What help tells of each command and of each of its words.
use shop_words::{Help, Verb};

/// The help of `--auto`.
pub const AUTO: &str = "Find out how the image is read, where --fs or --order is left out";

/// The help of `--explain`.
pub const EXPLAIN: &str = "Say on standard error what the answer means and what to do next";

/// The commands that belong together, in the order in which they are shown.
pub const GROUPS: &[(&str, &[&str])] = &[
    (
        "Look",
        &[
            "identify", "survey", "catalog", "list", "map", "check", "compare",
        ],
    ),
    ("Take out", &["read", "extract"]),
    (
        "Bring in and change",
        &[
            "save", "add", "mkdir", "lock", "unlock", "rename", "delete", "reclaim",
        ],
    ),
    (
        "Make, convert and wrap",
        &["create", "convert", "wrap", "unwrap"],
    ),
    ("Put in order and prove", &["plan", "optimize", "verify"]),
];

/// What help and usage call the value of a parameter.
pub fn value_of(help: Help) -> &'static str {
    match help {
        Help::Image | Help::Boot => "IMAGE",
        Help::OtherImage => "OTHER",
        Help::Name | Help::VolumeName => "NAME",
        Help::NewName => "NEW",
        Help::NewDirectory => "PATH",
        Help::Path => "PATH",
        Help::FileSystem | Help::NewFileSystem | Help::OnlyProdos => "FS",
        Help::Order | Help::ImageOrder | Help::To | Help::OtherOrder | Help::NewOrder => "ORDER",
        Help::Out
        | Help::OutOrInPlace
        | Help::Cert
        | Help::Certificate
        | Help::Content
        | Help::NewFile
        | Help::Container
        | Help::Payload => "FILE",
        Help::Into | Help::HostFolder => "FOLDER",
        Help::Directory => "DIRECTORY",
        Help::Format | Help::SurveyFormat | Help::ReadAs | Help::SaveAs => "FORM",
        Help::Names => "NAMES",
        Help::High => "BIT",
        Help::Type => "TYPE",
        Help::Date | Help::NewDate | Help::FilesDate | Help::DirectoryDate => "DATE",
        Help::Reserve => "PLACES",
        Help::Comment => "TEXT",
        Help::Most | Help::MostWritten => "BYTES",
        Help::StopAfter => "K",
        _ => "N",
    }
}

/// What is told of a parameter.
pub fn text_of(help: Help) -> &'static str {
    match help {
        Help::Image => "File of the disk image; '-' is standard input",
        Help::Name => "Name of the file in the volume",
        Help::NewName =>
            "New name of the file; in ProDOS the last part of its path, without a slash",
        Help::FileSystem => "File system of the volume; auto: detect it",
        Help::Order => {
            "Order of the sectors in the image; auto: detect it; 2img: use the one in the header of a 2IMG file"
        }
        Help::ImageOrder => "Order of the sectors in the image; auto: detect it",
        Help::To => "Order of the sectors in the image that is written",
        Help::Out => "File that the image is written to",
        Help::OutOrInPlace => "File that the image is written to; this or --in-place",
        Help::InPlace => "Change the image in its own file; this or --out",
        Help::Volume => "Volume number of the tracks that are made, 0 to 255; 254 if left out",
        Help::DataDisk => "Tracks 1 and 2 hold files, as on a disk without DOS",
        Help::UnusedDataDisk => "Taken as in the other commands; it changes nothing here",
        Help::Reserve => {
            "Places that no file may use, beside those of the system: sectors as 3/14,4/0 or blocks as 7,280"
        }
        Help::Reclaim => "Mark the places free that are marked used and belong to no file",
        Help::StopAfter => "Stop after so many writes; without it, when all is done",
        Help::Cert => "File that the certificate is written to, for verify --from",
        Help::Words => "Print the moves in words, and not as a certificate",
        Help::Certificate => "File of the certificate, as optimize --cert and plan write it",
        Help::Content => "File that is saved: its bytes, or what --as makes of them",
        Help::Type => {
            "Type of the file: a letter T I A B S R for DOS 3.3, T if left out; two hexadecimal digits for \
                ProDOS, 06 if left out; with --as that of the form if left out"
        }
        Help::Aux => {
            "Auxiliary type, 0 to 65535, or 0x and hexadecimal digits; for DOS 3.3 the address of a binary file; \
                0 if left out"
        }
        Help::Date => {
            "Date and time of its creation, for ProDOS, as 1986-05-01T12:30; none if left out"
        }
        Help::Format => "What a line has; names if left out",
        Help::Digests => "Add the SHA-256 of the contents of each file",
        Help::Places => "Add where each part of a file stands; with --format json",
        Help::OtherImage => "File of the other disk image; '-' is standard input",
        Help::OtherOrder => {
            "Order of the sectors in the other image, as --order; that of --order if left out"
        }
        Help::All => "Print the files that are the same too",
        Help::Most => {
            "The most bytes that the files that are read may have together; 1073741824 if left out"
        }
        Help::Into => {
            "Folder that the files are put into; nothing, or an empty folder, may stand there"
        }
        Help::Names => {
            "What the names say: naps adds type and aux type, plain does not; naps if left out"
        }
        Help::Texts => {
            "Write the readable form of a text or a program too, beside its file; with --names plain in its place"
        }
        Help::MostWritten => {
            "The most bytes that the files that are written may have together; 1073741824 if left out"
        }
        Help::ReadAs => {
            "Form in which the file is printed; applesoft and integer list a program, single makes an \
                AppleSingle file, shown is text or a listing by the file's type"
        }
        Help::NewFile => "New file that it is written to, whole or not at all",
        Help::SaveAs => {
            "Form that the file of --from has; applesoft is the listing of a program, single an AppleSingle file"
        }
        Help::High => {
            "Highest bit of each byte of a text; on for DOS 3.3 and off for ProDOS if left out"
        }
        Help::Container => "New file that the image is written to, behind a header",
        Help::Comment => "Comment that stands behind the image, of up to 65472 bytes",
        Help::ToldVolume => { "Volume number of DOS 3.3 in the header, 0 to 255; none if left out" }
        Help::Protect => "Let the header say that the image is write-protected",
        Help::Payload => "New file that the image is written to",
        Help::Path => {
            "File, or folder whose files are all looked at; '-' is a list of paths on standard input, one a line"
        }
        Help::SurveyFormat => "What a line is; lines of words if left out",
        Help::NewFileSystem => "File system of the volume",
        Help::NewOrder => {
            "Order of the sectors in the image; that of the file system if left out"
        }
        Help::Blocks => {
            "How many blocks of 512 bytes a ProDOS volume has, 16 to 65535; 280, those of a disk, if left out"
        }
        Help::VolumeName => {
            "Name of a ProDOS volume: up to 15 letters, digits and points, a letter first; UNTITLED if left out"
        }
        Help::NewDate => {
            "Date and time of the creation of a ProDOS volume, as 1986-05-01T12:30; none if left out"
        }
        Help::NewNumber => {
            "Volume number of a DOS 3.3 disk and of tracks that are made, 0 to 255; 254 if left out"
        }
        Help::NewDataDisk => "Tracks 1 and 2 may hold files too; such a disk starts no machine",
        Help::Boot => {
            "Image, in the same order, whose system is copied: tracks 0 to 2 of a DOS 3.3 disk, blocks 0 and 1 of \
                a ProDOS volume"
        }
        Help::HostFolder => {
            "Folder whose files are saved, each under the name and with the type that its name says, as extract \
                writes it"
        }
        Help::Directory => {
            "Directory of a ProDOS volume that the files are put into; the volume's own if left out"
        }
        Help::FilesDate => {
            "Date and time of the creation of each file, for ProDOS, as 1986-05-01T12:30; none if left out"
        }
        Help::OnlyProdos => "File system of the volume; prodos if left out, and by auto too",
        Help::NewDirectory => {
            "Path of the new directory in the volume, as SUB, or SUB/INNER where SUB is there"
        }
        Help::DirectoryDate => {
            "Date and time of its creation, as 1986-05-01T12:30; none if left out"
        }
        Help::Bodies => "Read the sectors of each file too, and list those that can't be read",
        Help::Whole => "Take all bytes of the file's sectors, and not its content alone",
        Help::Stored => {
            "The name is the stored one in hexadecimal digits, two a byte, as list prints it in JSON; for DOS 3.3 \
                without the spaces behind it or with them"
        }
        Help::Replace => {
            "A file that has the name is deleted first, and gives the type and the aux type that the words leave \
                out; with --out alone"
        }
    }
}

/// What a command does.
pub fn of(verb: Verb) -> &'static str {
    match verb {
        Verb::Catalog => "List the files of a volume",
        Verb::List => "Print the path of each file, or all about it as JSON or CSV",
        Verb::Compare => "Name the files that differ between two volumes",
        Verb::Map => "Draw where the files stand, a character for each sector or block",
        Verb::Check => "Say that a volume is sound, or name each fault",
        Verb::Read => "Write the contents of a file, as bytes, text, listing or AppleSingle",
        Verb::Extract => "Put all files into a new folder, all of them or none",
        Verb::Convert => "Write the same sectors in another order",
        Verb::Plan => "Print the fewest moves that put a volume in order",
        Verb::Optimize => "Put the files of a volume in order, by the fewest moves",
        Verb::Lock => "Lock a file, so that it is not deleted, renamed or written",
        Verb::Unlock => "Unlock a file",
        Verb::Delete => "Delete a file",
        Verb::Rename => "Rename a file",
        Verb::Save => "Save a new file to a volume",
        Verb::Verify => "Say whether a certificate shows that no plan is shorter",
        Verb::Identify => "Try each way to read an image, and name the best",
        Verb::Wrap => "Put an image into a new 2IMG file, as emulators take it",
        Verb::Unwrap => "Take the image out of a 2IMG file",
        Verb::Survey => "List the disk images in a folder, what is on each, and which are the same",
        Verb::Create => "Make the image of a new volume without a file",
        Verb::Reclaim => "Mark lost places free: those marked used that belong to no file",
        Verb::Add => "Save all files of a folder to a volume, all of them or none",
        Verb::MakeDirectory => "Make an empty directory on a ProDOS volume",
    }
}
