//! The table of the commands: the form of each is a row.
ghost use Rattle.std.specs.Prelude.{◌≡◌, map};
ghost use Rattle.shop_words.specs.Table.{form_view, forms};

use crate::help::Help;

/// What words an option takes.
#[derive(Clone, Copy)]
pub enum Values {
    /// Any word.
    Any,
    /// One of these words.
    OneOf(&'static [&'static str]),
    /// One of these words, or one in whose place the program puts one of them.
    Way {
        words: &'static [&'static str],
        stand_ins: &'static [&'static str],
    },
    /// Decimal digits, of a number up to the greatest.
    Number {
        greatest: u64,
    },
    /// Decimal digits, of a number from the least to the greatest.
    Between {
        least: u64,
        greatest: u64,
    },
    /// A number of two bytes, in decimal digits or, behind `0x` or `$`, in hexadecimal ones.
    Address,
    /// Any word of up to so many bytes.
    Short {
        most: usize,
    },
}

/// How a parameter stands among the words of a command.
#[derive(Clone, Copy)]
pub enum Kind {
    /// A word that must be there, known by its place.
    Positional,
    /// `--name VALUE`, which must be there.
    Needed(Values),
    /// `--name VALUE`, which says in which way an image is read: it may be left to the image, where the command's
    /// reading lets it.
    Way(Values),
    /// `--name VALUE`, which may be left out.
    Optional(Values),
    /// `--name`, which may be left out.
    Flag,
}

/// A parameter of a command. Its help says nothing that is read.
#[derive(Clone, Copy)]
pub struct Parameter {
    pub name: &'static str,
    pub kind: Kind,
    pub help: Help,
}

/// What a command does.
#[derive(Clone, Copy)]
pub enum Verb {
    Identify,
    Survey,
    Catalog,
    List,
    Map,
    Check,
    Compare,
    Read,
    Extract,
    Save,
    Add,
    MakeDirectory,
    Lock,
    Unlock,
    Rename,
    Delete,
    Reclaim,
    Create,
    Convert,
    Wrap,
    Unwrap,
    Plan,
    Optimize,
    Verify,
}

/// When words may leave out in which way an image is read; it is then found.
#[derive(Clone, Copy)]
pub enum LeftOut {
    /// Where they say `--auto`.
    ByAuto,
    /// Always.
    Always,
    /// Always, but where the image is changed in its own file; there by `--auto`.
    UnlessInPlace,
}

/// Which ways to read an image the words of a command say.
#[derive(Clone, Copy)]
pub enum Reading {
    /// None.
    Nothing,
    /// The file system and the order.
    Volume(LeftOut),
    /// The order alone, of a volume that must be one of ProDOS.
    Prodos(LeftOut),
    /// The order alone.
    Order(LeftOut),
    /// The order alone, of an image that stands in no container.
    Bare(LeftOut),
}

/// A command: its name, what it does, how its words say in which way its image is read, and its parameters; the
/// positional ones are in the order of their words.
#[derive(Clone, Copy)]
pub struct Form {
    pub name: &'static str,
    pub verb: Verb,
    pub reading: Reading,
    pub parameters: &'static [Parameter],
}

const IMAGE: Parameter = Parameter {
    name: "image",
    kind: Kind::Positional,
    help: Help::Image,
};

const NAME: Parameter = Parameter {
    name: "name",
    kind: Kind::Positional,
    help: Help::Name,
};

const NEW: Parameter = Parameter {
    name: "new",
    kind: Kind::Positional,
    help: Help::NewName,
};

const FILE_SYSTEM: Parameter = Parameter {
    name: "fs",
    kind: Kind::Way(Values::Way {
        words: &["dos", "prodos"],
        stand_ins: &["auto"],
    }),
    help: Help::FileSystem,
};

const ORDERS: Values = Values::OneOf(&["dos", "prodos", "nibble"]);

const IMAGE_ORDERS: Values = Values::Way {
    words: &["dos", "prodos", "nibble"],
    stand_ins: &["auto", "2img"],
};

const ORDER: Parameter = Parameter {
    name: "order",
    kind: Kind::Way(IMAGE_ORDERS),
    help: Help::Order,
};

const IMAGE_ORDER: Parameter = Parameter {
    name: "order",
    kind: Kind::Way(Values::Way {
        words: &["dos", "prodos", "nibble"],
        stand_ins: &["auto"],
    }),
    help: Help::ImageOrder,
};

const TO: Parameter = Parameter {
    name: "to",
    kind: Kind::Needed(ORDERS),
    help: Help::To,
};

const OUT: Parameter = Parameter {
    name: "out",
    kind: Kind::Needed(Values::Any),
    help: Help::Out,
};

const OUT_FILE: Parameter = Parameter {
    name: "out",
    kind: Kind::Optional(Values::Any),
    help: Help::OutOrInPlace,
};

const IN_PLACE: Parameter = Parameter {
    name: "in-place",
    kind: Kind::Flag,
    help: Help::InPlace,
};

const VOLUME: Parameter = Parameter {
    name: "volume",
    kind: Kind::Optional(Values::Number { greatest: 255 }),
    help: Help::Volume,
};

const DATA_DISK: Parameter = Parameter {
    name: "data-disk",
    kind: Kind::Flag,
    help: Help::DataDisk,
};

const UNUSED_DATA_DISK: Parameter = Parameter {
    name: "data-disk",
    kind: Kind::Flag,
    help: Help::UnusedDataDisk,
};

const RESERVE: Parameter = Parameter {
    name: "reserve",
    kind: Kind::Optional(Values::Any),
    help: Help::Reserve,
};

const RECLAIM: Parameter = Parameter {
    name: "reclaim",
    kind: Kind::Flag,
    help: Help::Reclaim,
};

const STOP_AFTER: Parameter = Parameter {
    name: "stop-after",
    kind: Kind::Optional(Values::Number { greatest: u64::MAX }),
    help: Help::StopAfter,
};

const CERT: Parameter = Parameter {
    name: "cert",
    kind: Kind::Optional(Values::Any),
    help: Help::Cert,
};

const WORDS: Parameter = Parameter {
    name: "words",
    kind: Kind::Flag,
    help: Help::Words,
};

const FROM: Parameter = Parameter {
    name: "from",
    kind: Kind::Needed(Values::Any),
    help: Help::Certificate,
};

const CONTENT: Parameter = Parameter {
    name: "from",
    kind: Kind::Needed(Values::Any),
    help: Help::Content,
};

const TYPE: Parameter = Parameter {
    name: "type",
    kind: Kind::Optional(Values::Any),
    help: Help::Type,
};

const AUX: Parameter = Parameter {
    name: "aux",
    kind: Kind::Optional(Values::Address),
    help: Help::Aux,
};

const DATE: Parameter = Parameter {
    name: "date",
    kind: Kind::Optional(Values::Any),
    help: Help::Date,
};

const WHOLE: Parameter = Parameter {
    name: "whole",
    kind: Kind::Flag,
    help: Help::Whole,
};

const READ_AS: Parameter = Parameter {
    name: "as",
    kind: Kind::Optional(Values::OneOf(&["text", "applesoft", "integer", "single", "shown"])),
    help: Help::ReadAs,
};

const NEW_FILE: Parameter = Parameter {
    name: "out",
    kind: Kind::Optional(Values::Any),
    help: Help::NewFile,
};

const SAVE_AS: Parameter = Parameter {
    name: "as",
    kind: Kind::Optional(Values::OneOf(&["text", "applesoft", "single"])),
    help: Help::SaveAs,
};

const HIGH: Parameter = Parameter {
    name: "high",
    kind: Kind::Optional(Values::OneOf(&["on", "off"])),
    help: Help::High,
};

const STORED: Parameter = Parameter {
    name: "stored",
    kind: Kind::Flag,
    help: Help::Stored,
};

const REPLACE: Parameter = Parameter {
    name: "replace",
    kind: Kind::Flag,
    help: Help::Replace,
};

/// The parameters of a command that changes a file.
const EDIT: &[Parameter] = &[
    IMAGE,
    NAME,
    FILE_SYSTEM,
    ORDER,
    OUT_FILE,
    IN_PLACE,
    DATA_DISK,
    RESERVE,
    STORED,
];

const FORMAT: Parameter = Parameter {
    name: "format",
    kind: Kind::Optional(Values::OneOf(&["names", "json", "csv"])),
    help: Help::Format,
};

const DIGESTS: Parameter = Parameter {
    name: "digests",
    kind: Kind::Flag,
    help: Help::Digests,
};

const PLACES: Parameter = Parameter {
    name: "places",
    kind: Kind::Flag,
    help: Help::Places,
};

const OTHER: Parameter = Parameter {
    name: "other",
    kind: Kind::Positional,
    help: Help::OtherImage,
};

const OTHER_ORDER: Parameter = Parameter {
    name: "other-order",
    kind: Kind::Optional(IMAGE_ORDERS),
    help: Help::OtherOrder,
};

const ALL: Parameter = Parameter {
    name: "all",
    kind: Kind::Flag,
    help: Help::All,
};

const BODIES: Parameter = Parameter {
    name: "bodies",
    kind: Kind::Flag,
    help: Help::Bodies,
};

const MOST: Parameter = Parameter {
    name: "most",
    kind: Kind::Optional(Values::Number { greatest: u64::MAX }),
    help: Help::Most,
};

const INTO: Parameter = Parameter {
    name: "into",
    kind: Kind::Needed(Values::Any),
    help: Help::Into,
};

const NAMES: Parameter = Parameter {
    name: "names",
    kind: Kind::Optional(Values::OneOf(&["naps", "plain"])),
    help: Help::Names,
};

const TEXTS: Parameter = Parameter {
    name: "texts",
    kind: Kind::Flag,
    help: Help::Texts,
};

const MOST_WRITTEN: Parameter = Parameter {
    name: "most",
    kind: Kind::Optional(Values::Number { greatest: u64::MAX }),
    help: Help::MostWritten,
};

const CONTAINER: Parameter = Parameter {
    name: "out",
    kind: Kind::Needed(Values::Any),
    help: Help::Container,
};

const COMMENT: Parameter = Parameter {
    name: "comment",
    kind: Kind::Optional(Values::Short { most: 65_472 }),
    help: Help::Comment,
};

const TOLD_VOLUME: Parameter = Parameter {
    name: "volume",
    kind: Kind::Optional(Values::Number { greatest: 255 }),
    help: Help::ToldVolume,
};

const PROTECT: Parameter = Parameter {
    name: "protect",
    kind: Kind::Flag,
    help: Help::Protect,
};

const PAYLOAD: Parameter = Parameter {
    name: "out",
    kind: Kind::Needed(Values::Any),
    help: Help::Payload,
};

const PATH: Parameter = Parameter {
    name: "path",
    kind: Kind::Positional,
    help: Help::Path,
};

const SURVEY_FORMAT: Parameter = Parameter {
    name: "format",
    kind: Kind::Optional(Values::OneOf(&["lines", "json"])),
    help: Help::SurveyFormat,
};

const NEW_ORDER: Parameter = Parameter {
    name: "order",
    kind: Kind::Optional(ORDERS),
    help: Help::NewOrder,
};

const NEW_IMAGE: Parameter = Parameter {
    name: "out",
    kind: Kind::Needed(Values::Any),
    help: Help::Payload,
};

const NEW_FILE_SYSTEM: Parameter = Parameter {
    name: "fs",
    kind: Kind::Needed(Values::OneOf(&["dos", "prodos"])),
    help: Help::NewFileSystem,
};

const BLOCKS: Parameter = Parameter {
    name: "blocks",
    kind: Kind::Optional(Values::Between {
        least: 16,
        greatest: 65_535,
    }),
    help: Help::Blocks,
};

const VOLUME_NAME: Parameter = Parameter {
    name: "name",
    kind: Kind::Optional(Values::Any),
    help: Help::VolumeName,
};

const NEW_NUMBER: Parameter = Parameter {
    name: "volume",
    kind: Kind::Optional(Values::Number { greatest: 255 }),
    help: Help::NewNumber,
};

const NEW_DATE: Parameter = Parameter {
    name: "date",
    kind: Kind::Optional(Values::Any),
    help: Help::NewDate,
};

const NEW_DATA_DISK: Parameter = Parameter {
    name: "data-disk",
    kind: Kind::Flag,
    help: Help::NewDataDisk,
};

const BOOT: Parameter = Parameter {
    name: "boot",
    kind: Kind::Optional(Values::Any),
    help: Help::Boot,
};

const HOST_FOLDER: Parameter = Parameter {
    name: "from",
    kind: Kind::Needed(Values::Any),
    help: Help::HostFolder,
};

const DIRECTORY: Parameter = Parameter {
    name: "into",
    kind: Kind::Optional(Values::Any),
    help: Help::Directory,
};

const FILES_DATE: Parameter = Parameter {
    name: "date",
    kind: Kind::Optional(Values::Any),
    help: Help::FilesDate,
};

const ONLY_PRODOS: Parameter = Parameter {
    name: "fs",
    kind: Kind::Optional(Values::Way {
        words: &["prodos"],
        stand_ins: &["auto"],
    }),
    help: Help::OnlyProdos,
};

const NEW_DIRECTORY: Parameter = Parameter {
    name: "name",
    kind: Kind::Positional,
    help: Help::NewDirectory,
};

const DIRECTORY_DATE: Parameter = Parameter {
    name: "date",
    kind: Kind::Optional(Values::Any),
    help: Help::DirectoryDate,
};

static FORMS: [Form; 24] = [
    Form {
        name: "catalog",
        verb: Verb::Catalog,
        reading: Reading::Volume(LeftOut::ByAuto),
        parameters: &[IMAGE, FILE_SYSTEM, ORDER, DATA_DISK],
    },
    Form {
        name: "list",
        verb: Verb::List,
        reading: Reading::Volume(LeftOut::Always),
        parameters: &[
            IMAGE,
            FILE_SYSTEM,
            ORDER,
            FORMAT,
            DIGESTS,
            PLACES,
            MOST,
            DATA_DISK,
        ],
    },
    Form {
        name: "compare",
        verb: Verb::Compare,
        reading: Reading::Volume(LeftOut::Always),
        parameters: &[
            IMAGE,
            OTHER,
            FILE_SYSTEM,
            ORDER,
            OTHER_ORDER,
            ALL,
            MOST,
            DATA_DISK,
        ],
    },
    Form {
        name: "map",
        verb: Verb::Map,
        reading: Reading::Volume(LeftOut::Always),
        parameters: &[IMAGE, FILE_SYSTEM, ORDER, DATA_DISK, RESERVE],
    },
    Form {
        name: "check",
        verb: Verb::Check,
        reading: Reading::Volume(LeftOut::ByAuto),
        parameters: &[IMAGE, FILE_SYSTEM, ORDER, BODIES, DATA_DISK, RESERVE],
    },
    Form {
        name: "read",
        verb: Verb::Read,
        reading: Reading::Volume(LeftOut::ByAuto),
        parameters: &[
            IMAGE,
            NAME,
            FILE_SYSTEM,
            ORDER,
            WHOLE,
            READ_AS,
            NEW_FILE,
            DATA_DISK,
            STORED,
        ],
    },
    Form {
        name: "extract",
        verb: Verb::Extract,
        reading: Reading::Volume(LeftOut::Always),
        parameters: &[
            IMAGE,
            FILE_SYSTEM,
            ORDER,
            INTO,
            NAMES,
            TEXTS,
            MOST_WRITTEN,
            DATA_DISK,
        ],
    },
    Form {
        name: "convert",
        verb: Verb::Convert,
        reading: Reading::Order(LeftOut::ByAuto),
        parameters: &[IMAGE, ORDER, TO, OUT, VOLUME, UNUSED_DATA_DISK],
    },
    Form {
        name: "plan",
        verb: Verb::Plan,
        reading: Reading::Volume(LeftOut::ByAuto),
        parameters: &[
            IMAGE,
            FILE_SYSTEM,
            ORDER,
            DATA_DISK,
            RESERVE,
            RECLAIM,
            WORDS,
        ],
    },
    Form {
        name: "optimize",
        verb: Verb::Optimize,
        reading: Reading::Volume(LeftOut::ByAuto),
        parameters: &[
            IMAGE,
            FILE_SYSTEM,
            ORDER,
            OUT_FILE,
            IN_PLACE,
            DATA_DISK,
            RESERVE,
            RECLAIM,
            STOP_AFTER,
            CERT,
        ],
    },
    Form {
        name: "lock",
        verb: Verb::Lock,
        reading: Reading::Volume(LeftOut::ByAuto),
        parameters: EDIT,
    },
    Form {
        name: "unlock",
        verb: Verb::Unlock,
        reading: Reading::Volume(LeftOut::ByAuto),
        parameters: EDIT,
    },
    Form {
        name: "delete",
        verb: Verb::Delete,
        reading: Reading::Volume(LeftOut::ByAuto),
        parameters: EDIT,
    },
    Form {
        name: "rename",
        verb: Verb::Rename,
        reading: Reading::Volume(LeftOut::ByAuto),
        parameters: &[
            IMAGE,
            NAME,
            NEW,
            FILE_SYSTEM,
            ORDER,
            OUT_FILE,
            IN_PLACE,
            DATA_DISK,
            RESERVE,
            STORED,
        ],
    },
    Form {
        name: "save",
        verb: Verb::Save,
        reading: Reading::Volume(LeftOut::ByAuto),
        parameters: &[
            IMAGE,
            NAME,
            FILE_SYSTEM,
            ORDER,
            CONTENT,
            SAVE_AS,
            HIGH,
            OUT_FILE,
            IN_PLACE,
            TYPE,
            AUX,
            DATE,
            DATA_DISK,
            RESERVE,
            REPLACE,
        ],
    },
    Form {
        name: "verify",
        verb: Verb::Verify,
        reading: Reading::Volume(LeftOut::ByAuto),
        parameters: &[IMAGE, FILE_SYSTEM, ORDER, FROM, DATA_DISK, RESERVE, RECLAIM],
    },
    Form {
        name: "identify",
        verb: Verb::Identify,
        reading: Reading::Nothing,
        parameters: &[IMAGE],
    },
    Form {
        name: "wrap",
        verb: Verb::Wrap,
        reading: Reading::Bare(LeftOut::Always),
        parameters: &[IMAGE, IMAGE_ORDER, CONTAINER, COMMENT, TOLD_VOLUME, PROTECT],
    },
    Form {
        name: "unwrap",
        verb: Verb::Unwrap,
        reading: Reading::Nothing,
        parameters: &[IMAGE, PAYLOAD],
    },
    Form {
        name: "survey",
        verb: Verb::Survey,
        reading: Reading::Nothing,
        parameters: &[PATH, SURVEY_FORMAT],
    },
    Form {
        name: "create",
        verb: Verb::Create,
        reading: Reading::Nothing,
        parameters: &[
            NEW_FILE_SYSTEM,
            NEW_ORDER,
            NEW_IMAGE,
            BLOCKS,
            VOLUME_NAME,
            NEW_DATE,
            NEW_NUMBER,
            NEW_DATA_DISK,
            BOOT,
        ],
    },
    Form {
        name: "reclaim",
        verb: Verb::Reclaim,
        reading: Reading::Volume(LeftOut::UnlessInPlace),
        parameters: &[
            IMAGE,
            FILE_SYSTEM,
            ORDER,
            OUT_FILE,
            IN_PLACE,
            DATA_DISK,
            RESERVE,
        ],
    },
    Form {
        name: "add",
        verb: Verb::Add,
        reading: Reading::Volume(LeftOut::Always),
        parameters: &[
            IMAGE,
            FILE_SYSTEM,
            ORDER,
            HOST_FOLDER,
            OUT,
            DIRECTORY,
            FILES_DATE,
            DATA_DISK,
            RESERVE,
        ],
    },
    Form {
        name: "mkdir",
        verb: Verb::MakeDirectory,
        reading: Reading::Prodos(LeftOut::UnlessInPlace),
        parameters: &[
            IMAGE,
            NEW_DIRECTORY,
            ONLY_PRODOS,
            ORDER,
            OUT_FILE,
            IN_PLACE,
            DIRECTORY_DATE,
            RESERVE,
        ],
    },
];

/// The forms of all commands.
#[tactic(auto, unfolding(crate::specs::Table::forms))]
pub fn all_forms() -> &'static [Form]
    ensures { map form_view result.now ≡ forms }
{
    &FORMS
}
