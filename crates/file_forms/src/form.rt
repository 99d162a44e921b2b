// The forms of files.
ghost use Rattle.std.specs.Prelude.{◌≡◌};
ghost use Rattle.file_forms.specs.Shown.{form_of};

use apple_text::HighBit;

/// A form in which a file is read.
#[derive(Clone, Copy, Debug, PartialEq, Eq)]
pub enum FileForm {
    /// A text in UTF-8, with `\n` at the end of each line.
    Text,
    /// The listing of a program in Applesoft BASIC.
    Applesoft,
    /// The listing of a program in Integer BASIC.
    Integer,
    /// An AppleSingle file, with the name, the access, the type and the aux type.
    Single,
}

/// A form in which a new file is given.
#[derive(Clone, Copy, Debug, PartialEq, Eq)]
pub enum GivenForm {
    /// A text in UTF-8, whose bytes get this highest bit.
    Text(HighBit),
    /// The listing of a program in Applesoft BASIC.
    Applesoft,
    /// An AppleSingle file.
    Single,
}

impl FileForm {
    /// The form that the files of a type of ProDOS have: texts, and programs in Applesoft or Integer BASIC.
    pub fn of_type(file_type: u8) -> Option<FileForm>
        ensures { result ≡ form_of file_type }
    {
        match file_type {
            0x04 => Some(FileForm::Text),
            0xfa => Some(FileForm::Integer),
            0xfc => Some(FileForm::Applesoft),
            _ => None,
        }
    }
}
