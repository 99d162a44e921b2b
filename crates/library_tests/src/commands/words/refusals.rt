// Words that are refused, and the text that tells why.
use super::{helps, refuses};

const PROGRAM_USAGE: &str = "Usage: a2shop COMMAND [WORDS]...";

const CATALOG_USAGE: &str = "Usage: a2shop catalog ";

const CONVERT_USAGE: &str = "Usage: a2shop convert ";

const OPTIMIZE_USAGE: &str = "Usage: a2shop optimize ";

const PLAIN_OPTIMIZATION: &str = "optimize a.po --fs prodos --order prodos --reclaim";

const VERIFICATION: &str = "verify a.po --fs prodos --order prodos --reclaim";

#[test]
fn unknown_and_missing_words_are_refused(rt: HostRuntime) {
    for (line, wrong, usage) in [
        (
            "catolog a.dsk --fs dos --order dos",
            "'catolog'",
            PROGRAM_USAGE,
        ),
        ("--fs dos", "'--fs'", PROGRAM_USAGE),
        ("catalog a.dsk --order dos", "--fs <FS>", CATALOG_USAGE),
        ("catalog a.dsk --fs dos", "--order <ORDER>", CATALOG_USAGE),
        ("catalog --fs dos --order dos", "<IMAGE>", CATALOG_USAGE),
        (
            "catalog a.dsk --fs dos --order",
            "'--order <ORDER>'",
            "but none was supplied",
        ),
        (
            "read a.dsk --fs dos --order dos",
            "<NAME>",
            "Usage: a2shop read ",
        ),
        (
            "convert a.dsk --order dos --to nibble",
            "--out <FILE>",
            CONVERT_USAGE,
        ),
        (
            PLAIN_OPTIMIZATION,
            "<--out <FILE>|--in-place>",
            OPTIMIZE_USAGE,
        ),
        (
            "optimize a.po --fs prodos --order prodos --out b.po --in-place",
            "'--out <FILE>' cannot be used with '--in-place'",
            OPTIMIZE_USAGE,
        ),
        (VERIFICATION, "--from <FILE>", "Usage: a2shop verify "),
    ] {
        refuses(&rt, rt.alloc(), line, wrong, usage);
    }
}

const NO_STORED_NAME: &str = "for '<NAME>' with '--stored'\n  [hexadecimal digits, two a byte]";

#[test]
fn stored_names_that_are_no_digits_are_refused(rt: HostRuntime) {
    for (line, usage) in [
        (
            "read a.dsk HELLO --stored --fs dos --order dos",
            "Usage: a2shop read ",
        ),
        (
            "read a.dsk C8C --stored --fs dos --order dos",
            "Usage: a2shop read ",
        ),
        (
            "lock a.dsk c8:5 --stored --fs dos --order dos --in-place",
            "Usage: a2shop lock ",
        ),
        (
            "rename a.dsk G8 BYE --stored --fs dos --order dos --in-place",
            "Usage: a2shop rename ",
        ),
    ] {
        refuses(&rt, rt.alloc(), line, NO_STORED_NAME, usage);
    }
}

#[test]
fn words_that_are_too_many_are_refused(rt: HostRuntime) {
    for (line, wrong) in [
        ("catalog a.dsk b.dsk --fs dos --order dos", "'b.dsk'"),
        (
            "catalog a.dsk --fs dos --order dos --fs dos",
            "'--fs <FS>' cannot be used multiple times",
        ),
        ("catalog a.dsk --fs dos --order dos --whole", "'--whole'"),
    ] {
        refuses(&rt, rt.alloc(), line, wrong, CATALOG_USAGE);
    }
}

#[test]
fn words_out_of_their_set_are_refused(rt: HostRuntime) {
    for (line, wrong, usage) in [
        (
            "catalog a.dsk --fs cpm --order dos",
            "invalid value 'cpm' for '--fs <FS>'\n  [possible values: auto, dos, prodos]",
            CATALOG_USAGE,
        ),
        (
            "catalog a.dsk --fs dos --order DOS",
            "invalid value 'DOS' for '--order <ORDER>'\n  [possible values: auto, 2img, dos, prodos, nibble]",
            CATALOG_USAGE,
        ),
        (
            "convert a.dsk --order dos --to woz --out b.nib",
            "invalid value 'woz' for '--to <ORDER>'\n  [possible values: dos, prodos, nibble]",
            CONVERT_USAGE,
        ),
        (
            "optimize a.po --fs prodos --order prodos --reclaim --out b.po \
             --stop-after 18446744073709551616",
            "--stop-after",
            OPTIMIZE_USAGE,
        ),
    ] {
        refuses(&rt, rt.alloc(), line, wrong, usage);
    }
}

#[test]
fn help_is_told_where_it_is_asked_for(rt: HostRuntime) {
    for (line, wanted, usage) in [
        ("--help", "List the files of a volume", PROGRAM_USAGE),
        ("-h", "List the files of a volume", PROGRAM_USAGE),
        ("help", "List the files of a volume", PROGRAM_USAGE),
        (
            "catalog --help",
            "a2shop catalog disk.dsk --auto",
            CATALOG_USAGE,
        ),
        (
            "catalog a.dsk --fs dos --order dos -h",
            "REFUSED Length",
            CATALOG_USAGE,
        ),
        ("help catalog", "REFUSED Length", CATALOG_USAGE),
        (
            "convert --help",
            "of volume 254 where --volume",
            CONVERT_USAGE,
        ),
    ] {
        helps(&rt, rt.alloc(), line, wanted, usage);
    }
}

#[test]
fn help_of_what_is_none_is_refused(rt: HostRuntime) {
    for (line, wrong, usage) in [
        ("help catolog", "'catolog'", PROGRAM_USAGE),
        ("catalog --colour --help", "'--colour'", CATALOG_USAGE),
    ] {
        refuses(&rt, rt.alloc(), line, wrong, usage);
    }
}

#[test]
fn what_may_not_be_left_out_is_named(rt: HostRuntime) {
    for (line, wrong, usage) in [
        ("catalog a", "or say --auto\n", CATALOG_USAGE),
        ("catalog a", "  --fs <FS>\n  --order <ORDER>", CATALOG_USAGE),
        (
            "reclaim a --in-place",
            "or say --auto\n",
            "Usage: a2shop reclaim ",
        ),
        (
            "create --fs auto --out b",
            "'auto'",
            "Usage: a2shop create ",
        ),
        (
            "--auto create --fs dos --out b",
            "'--auto'",
            "Usage: a2shop ",
        ),
        (
            "wrap a --order 2img --out b",
            "'2img'",
            "Usage: a2shop wrap ",
        ),
    ] {
        refuses(&rt, rt.alloc(), line, wrong, usage);
    }
}

#[test]
fn the_version_is_told(rt: HostRuntime) {
    for line in ["--version", "-V"] {
        helps(&rt, rt.alloc(), line, "a2shop 1.0.0\n", "a2shop 1.0.0\n");
    }
}
