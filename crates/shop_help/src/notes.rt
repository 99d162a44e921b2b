//! What stands below the help of each command: an example, the statuses, and what is refused.

use shop_words::Verb;

pub const PROGRAM: &str = "\
What a command takes, prints and refuses: a2shop COMMAND --help
Without a command it lists the DOS 3.3 disk in DOS order on standard input.

--auto finds out the file system and the order that the words leave out, as identify does. Where no
way to read the image is best, the command is refused: REFUSED Ambiguous or Unknown.
--order auto detects the order of one image; --order 2img uses the one in the header of a 2IMG file.
An order that you name is taken as you name it. If it is wrong, a change destroys files: say --auto,
or ask identify first. What stands around the image in a 2IMG file stays as it is.
--explain adds, on standard error, what the answer means and what to do next.

Status:
  0  done; also for --help and --version
  1  found something: a fault, a difference, a wrong certificate, a file that can't be read
  2  bad command line; the message says what is wrong
  3  refused, and nothing was changed; one line says why
  4  failed: a file, a sector, the output, or not enough memory";

const CATALOG: &str = "\
Example:
  a2shop catalog disk.dsk --auto

Status:
  0  the files are listed
  3  REFUSED Length  not the size that its order requires: 143,360 bytes (nibble 232,960; ProDOS
                     16 to 65,535 blocks)
     REFUSED Check   the header, the directory or the map's pointer has a fault
  4  FAILED Input, Device or Memory: could not read the file or a sector, or ran out of memory";

const LIST: &str = "\
Examples:
  a2shop list disk.dsk
  a2shop list disk.po --format json
  a2shop list disk.po --format csv --digests
  a2shop list disk.dsk --format json --places

--fs and --order are detected where they are left out. A name of a directory has a slash behind it.
With --digests each file is read; one that can't be read has no digest, and the list goes on.
With --places each object of JSON has its parts, as \"body 0 3/14\"; no other form can tell them.

Status:
  0  the entries are listed
  1  they are, and a file has no digest, since it can't be read
  3  REFUSED Length    not the size that its order requires: 143,360 bytes (nibble 232,960; ProDOS
                       16 to 65,535 blocks)
     REFUSED Check     the header, the directory or the map's pointer has a fault
     REFUSED TooLarge  the files, or the parts that are listed, have more bytes than --most
  4  FAILED Input, Device or Memory: the file, a sector of the image or memory failed";

const COMPARE: &str = "\
Examples:
  a2shop compare disk.dsk copy.dsk
  a2shop compare disk.dsk disk.po --fs dos --order dos --other-order prodos --all

--fs and --order are auto where they are left out; --other-order is then auto too. Both images
have the file system of the first. Files of one path are compared, whatever the places that they
stand at:
  BODY PATH          their contents differ
  ENTRY PATH         they have the same contents, and another type, address, lock or date
  ONLY 1 PATH        only the first image has the file; ONLY 2 only the second
  UNREADABLE 1 PATH  the file of the first image can't be read; UNREADABLE 2 that of the second
  SAME PATH          with --all: they are the same
What stands outside of files, as boot tracks and empty directories, is not compared: survey tells
by TWIN which disks are alike in every sector.

Status:
  0  EQUAL files N: all files are the same, N of each image
  1  they are not; the last line counts the differences
  3  each line names the image, as REFUSED Check 2:
     REFUSED Length    not the size that its order requires: 143,360 bytes (nibble 232,960; ProDOS
                       16 to 65,535 blocks)
     REFUSED Check     the header, the directory or the map's pointer has a fault
     REFUSED TooLarge  the files have more bytes than --most
  4  FAILED Input, Device or Memory: could not read the file or a sector, or ran out of memory; or
     another program holds a lock on the file";

const MAP: &str = "\
Example:
  a2shop map disk.dsk

--fs and --order are detected where they are left out. Each character is a sector or a block:
  S  it belongs to the system    R  it is one of --reserve
  o  a part of a file that stands at its target place, where optimize puts it
  x  a part of a file that stands elsewhere
  ?  it is marked used and belongs to no file
  .  it is free

Status:
  0  the picture is printed
  3  REFUSED Reserve  the word of --reserve is no list of places
     REFUSED Length   not the size that its order requires: 143,360 bytes (nibble 232,960; ProDOS
                      16 to 65,535 blocks)
     REFUSED Check    the volume has a fault; check tells which
  4  FAILED Input, Device or Memory: could not read the file or a sector, or ran out of memory";

const CHECK: &str = "\
Examples:
  a2shop check disk.dsk --auto
  a2shop check disk.nib --auto --bodies

Without --bodies the contents of files are not read, and may hold sectors that can't be.

Status:
  0  the volume is accepted; with --bodies, and each sector of its files can be read
  1  it has faults, and a line for each tells its name and its place; or, with --bodies, a line
     UNREADABLE for each sector of a file that can't be read tells its place and the file
  3  REFUSED Reserve  the word of --reserve is no list of places
     REFUSED Length   not the size that its order requires: 143,360 bytes (nibble 232,960; ProDOS
                      16 to 65,535 blocks)
  4  FAILED Input, Device or Memory: could not read the file or a sector, or ran out of memory";

const READ: &str = "\
Examples:
  a2shop read disk.dsk HELLO --auto
  a2shop read disk.dsk LETTER --auto --as shown
  a2shop read disk.dsk PICTURE --auto --as single --out picture.as
  a2shop read disk.dsk C8C5CCCCCF --stored --auto

A text or a listing is printed in UTF-8, and a control character as its picture, as ␄.

Status:
  0  the bytes of the file are written
  3  REFUSED Exists    something stands at the path of --out
     REFUSED Length    not the size that its order requires: 143,360 bytes (nibble 232,960; ProDOS
                       16 to 65,535 blocks)
     REFUSED Check     the header, the directory, the map's pointer or the file has a fault
     REFUSED NotFound  no file has the name
     REFUSED Form      the file has no such form
  4  FAILED Input, Device, Memory or Output: could not read the file or a sector, ran out of
     memory, or could not write the new file";

const EXTRACT: &str = "\
Examples:
  a2shop extract disk.dsk --into files
  a2shop extract disk.dsk --into files --texts
  a2shop extract disk.po --fs prodos --order prodos --into files --names plain

--fs and --order are detected where they are left out. Files are written to a temporary folder that
is renamed once all are there; on any error it is removed. Each entry has a line, with its name in
the folder:
  FILE N NAME      the file of N bytes is written
  TEXT N NAME      with --texts: the readable form of a file, N bytes, is written
  FOLDER NAME/     the folder of a directory is made
  UNREADABLE NAME  the file can't be read, and nothing of it is written; see read --whole and
                   check
A name is the stored one, with % and two digits for what may not stand in a name, ~2 and so on for
the second of one name, and, as NAME#060300, the type and the aux type of the file. With --texts a
text or a program in Applesoft BASIC gets a second file, as NAME#040000.utf8.txt, with its
readable form in UTF-8, where that form gives the very bytes back; the file beside the readable
form is the one that comes back byte for byte. With --names plain the readable form is written
alone, as NAME.txt, and there a program in Integer BASIC has one too.

Status:
  0  all files are in the folder
  1  the folder stands, without the files that can't be read
  3  REFUSED Folder    something stands at the folder's path that is no empty folder
     REFUSED Length    not the size that its order requires: 143,360 bytes (nibble 232,960; ProDOS
                       16 to 65,535 blocks)
     REFUSED Check     the header, the directory or the map's pointer has a fault
     REFUSED TooDeep   an entry stands in more than 64 directories, or has too long a path
     REFUSED TooLarge  the files have more bytes than --most
  4  FAILED Input, Device, Memory or Output: could not read the file or a sector, ran out of
     memory, or could not write the folder";

const CONVERT: &str = "\
Example:
  a2shop convert disk.dsk --auto --to nibble --out disk.nib

Tracks are made for nibble order alone, of volume 254 where --volume is not given.

Status:
  0  the image is written
  3  REFUSED Length    not the size of a disk in its order: 143,360 bytes, or 232,960 in nibble
                       order
     REFUSED NoSector  a track of the image lacks a sector
  4  FAILED Input or Memory: could not read the file, or ran out of memory";

const PLAN: &str = "\
Examples:
  a2shop plan disk.dsk --auto
  a2shop plan disk.dsk --auto --words

In words each move has a line: the file, its part, and the places from and to which it moves.

Status:
  0  the plan is printed
  3  REFUSED Reserve      the word of --reserve is no list of places
     REFUSED Length       not the size that its order requires: 143,360 bytes (nibble 232,960;
                          ProDOS 16 to 65,535 blocks)
     REFUSED Check        the volume has a fault; check tells which
     REFUSED Lost N       N places are marked used and belong to no file; see --reclaim
     REFUSED NoFreePlace  some part is misplaced, and each place has a part
  4  FAILED Input, Device or Memory: could not read the file or a sector, or ran out of memory";

const OPTIMIZE: &str = "\
Examples:
  a2shop optimize disk.dsk --auto --out ordered.dsk
  a2shop optimize disk.dsk --auto --in-place

With --in-place the image's own file is changed, unit by unit, and no new image is written.

Status:
  0  the image is written, with the moves made up to --stop-after
  3  REFUSED InPlace      it is neither DOS 3.3 in DOS order nor ProDOS in ProDOS order, in a file
     REFUSED Reserve      the word of --reserve is no list of places
     REFUSED Length       not the size that its order requires: 143,360 bytes (nibble 232,960;
                          ProDOS 16 to 65,535 blocks)
     REFUSED Check        the volume has a fault; check tells which
     REFUSED Lost N       N places are marked used and belong to no file; see --reclaim
     REFUSED NoFreePlace  some part is misplaced, and each place has a part
  4  FAILED Input, Device or Memory: could not read the file or a sector, or ran out of memory";

const LOCK: &str = "\
Examples:
  a2shop lock disk.dsk HELLO --auto --out locked.dsk
  a2shop lock disk.dsk HELLO --auto --in-place

With --in-place the image's own file is changed, unit by unit, and no new image is written.

Status:
  0  the image is written, with the file locked
  3  REFUSED InPlace   it is neither DOS 3.3 in DOS order nor ProDOS in ProDOS order, in a file
     REFUSED Reserve   the word of --reserve is no list of places
     REFUSED Length    not the size that its order requires: 143,360 bytes (nibble 232,960; ProDOS
                       16 to 65,535 blocks)
     REFUSED Check     the volume has a fault; check tells which
     REFUSED NotFound  no file has the name
  4  FAILED Input, Device or Memory: could not read the file or a sector, or ran out of memory";

const UNLOCK: &str = "\
Examples:
  a2shop unlock disk.dsk HELLO --auto --out unlocked.dsk
  a2shop unlock disk.dsk HELLO --auto --in-place

With --in-place the image's own file is changed, unit by unit, and no new image is written.

Status:
  0  the image is written, with the file unlocked
  3  REFUSED InPlace   it is neither DOS 3.3 in DOS order nor ProDOS in ProDOS order, in a file
     REFUSED Reserve   the word of --reserve is no list of places
     REFUSED Length    not the size that its order requires: 143,360 bytes (nibble 232,960; ProDOS
                       16 to 65,535 blocks)
     REFUSED Check     the volume has a fault; check tells which
     REFUSED NotFound  no file has the name
  4  FAILED Input, Device or Memory: could not read the file or a sector, or ran out of memory";

const DELETE: &str = "\
Examples:
  a2shop delete disk.dsk HELLO --auto --out without.dsk
  a2shop delete disk.dsk HELLO --auto --in-place

With --in-place the image's own file is changed, unit by unit, and no new image is written.

Status:
  0  the image is written, without the file
  3  REFUSED InPlace   it is neither DOS 3.3 in DOS order nor ProDOS in ProDOS order, in a file
     REFUSED Reserve   the word of --reserve is no list of places
     REFUSED Length    not the size that its order requires: 143,360 bytes (nibble 232,960; ProDOS
                       16 to 65,535 blocks)
     REFUSED Check     the volume has a fault; check tells which
     REFUSED NotFound  no file has the name
     REFUSED Locked    the file is locked; see unlock
  4  FAILED Input, Device or Memory: could not read the file or a sector, or ran out of memory";

const RENAME: &str = "\
Examples:
  a2shop rename disk.dsk HELLO GREETING --auto --out renamed.dsk
  a2shop rename disk.dsk HELLO GREETING --auto --in-place

A file stays in its directory: the new name of a ProDOS file is the last of its path.
With --in-place the image's own file is changed, unit by unit, and no new image is written.

Status:
  0  the image is written, with the file under its new name
  3  REFUSED InPlace   it is neither DOS 3.3 in DOS order nor ProDOS in ProDOS order, in a file
     REFUSED Reserve   the word of --reserve is no list of places
     REFUSED Length    not the size that its order requires: 143,360 bytes (nibble 232,960; ProDOS
                       16 to 65,535 blocks)
     REFUSED Check     the volume has a fault; check tells which
     REFUSED NotFound  no file has the name
     REFUSED Name      no file may have the new name
     REFUSED Exists    an entry of the directory has the new name
     REFUSED Locked    the file is locked; see unlock
  4  FAILED Input, Device or Memory: could not read the file or a sector, or ran out of memory";

const SAVE: &str = "\
Examples:
  a2shop save disk.dsk PICTURE --auto --from picture.bin --out saved.dsk --type B --aux 768
  a2shop save disk.dsk NOTE --auto --from note.txt --in-place
  a2shop save disk.dsk LETTER --auto --from letter.txt --as text --in-place
  a2shop save disk.dsk GAME --auto --from game.bas --as applesoft --in-place
  a2shop save disk.po NOTE --auto --from note.txt --out saved.po --type 04 --date 1986-05-01T12:30
  a2shop save disk.dsk NOTE --auto --from newer.txt --out saved.dsk --replace

With --as the file of --from is a text in UTF-8, the listing of a program in Applesoft BASIC, or
an AppleSingle file; its type is then T or 04, A or fc, or the one that the AppleSingle file has.
DOS 3.3 files of the types A, I and B get their head before the bytes: the address for B, and the
length. With --in-place the image's own file is changed, unit by unit, and no new image is
written. With --replace a file that has the name is deleted first, in memory, and the image that
--out names has the old file or the new one at every moment. Access and dates are those of a new
file.

Status:
  0  the image is written, with the new file
  3  REFUSED InPlace       it is neither DOS 3.3 in DOS order nor ProDOS in ProDOS order, in a
                           file; or a file
                           is to be replaced, which is done with --out alone
     REFUSED Type          the word of --type, or the AppleSingle file, has no type of the file
                           system
     REFUSED Date          the word of --date is no date and time of 1940 to 2039
     REFUSED Reserve       the word of --reserve is no list of places
     REFUSED Length        not the size that its order requires: 143,360 bytes (nibble 232,960;
                           ProDOS 16 to 65,535 blocks)
     REFUSED InputTooLong  the file of --from has more than 16,777,216 bytes
     REFUSED Text N        line N of the file of --from can't be taken as --as says
     REFUSED Single        the file of --from is no AppleSingle file, or has a resource fork
     REFUSED TooLong       the file is longer than the file system allows
     REFUSED Check         the volume has a fault; check tells which
     REFUSED NotFound      a directory of the path is not there
     REFUSED Name          no file may have the name
     REFUSED Exists        an entry of the directory has the name; see --replace
     REFUSED Locked        the file that is to be replaced is locked; see unlock
     REFUSED DirFull       the directory has no place for an entry
     REFUSED VolumeFull    the volume has too few free places
  4  FAILED Input, Device or Memory: could not read the file or a sector, or ran out of memory";

const VERIFY: &str = "\
Example:
  a2shop verify disk.dsk --auto --from disk.cert

Status:
  0  OPTIMAL N: no plan has fewer than N moves
  1  REFUSED and what is wrong with the certificate
  3  REFUSED Reserve       the word of --reserve is no list of places
     REFUSED Length        not the size that its order requires: 143,360 bytes (nibble 232,960;
                           ProDOS 16 to 65,535 blocks)
     REFUSED InputTooLong  the certificate has more than 16,777,216 bytes
     REFUSED Check         the volume has a fault; check tells which
     REFUSED Lost N        N places are marked used and belong to no file; see --reclaim
     REFUSED NoFreePlace   some part is misplaced, and each place has a part
  4  FAILED Input, Device or Memory: could not read the file or a sector, or ran out of memory";

const IDENTIFY: &str = "\
Example:
  a2shop identify disk.dsk

Of a 2IMG file a first line tells what its header says, and the readings are those of the image in
it.

Status:
  0  the last line names the best file system and order
  1  no way to read the image is best
  3  REFUSED Length         the length of the image allows no way to read it
     REFUSED Container WHY  the file begins like a 2IMG file, and its header says what can't be
  4  FAILED Input or Memory: could not read the file, or ran out of memory";

const WRAP: &str = "\
Examples:
  a2shop wrap disk.po --order prodos --out disk.2mg
  a2shop wrap disk.dsk --order dos --comment Games --volume 254 --protect --out disk.2mg

--order is detected where it is left out. The new file has a header of 64 bytes in the 2IMG file
format, the image, and the comment behind it. With --protect emulators do not write the image, and
no command here changes it.

Status:
  0  the new file is written
  3  REFUSED Exists  something stands at the path of --out
     REFUSED Length  not the size that its order requires: 143,360 bytes (nibble 232,960; ProDOS
                     16 to 65,535 blocks)
  4  FAILED Input, Memory or Output: could not read the file, ran out of memory, or could not
     write the new file";

const UNWRAP: &str = "\
Example:
  a2shop unwrap disk.2mg --out disk.po

Ask identify for the order of the image.

Status:
  0  the image is written
  3  REFUSED Exists         something stands at the path of --out
     REFUSED Container WHY  the file is no 2IMG file, or its header says what can't be
  4  FAILED Input, Memory or Output: could not read the file, ran out of memory, or could not
     write the new file";

const SURVEY: &str = "\
Examples:
  a2shop survey images
  a2shop survey images --format json
  find . -name '*.dsk' | a2shop survey -

A line tells of each file what is found, in the order of their paths:
  BEST FS ORDER VOLUME files N lost N free N image SHA content SHA PATH  the best way to read the
                                                                         image
  AMBIGUOUS image SHA PATH  no way to read the image is best
  NONE image SHA PATH       it has the length of an image, and no volume
  OTHER PATH                it is no image
  UNREAD PATH               it can't be read, or a name in that folder is no UTF-8
SHA is the SHA-256 of the file, and of what the files of the volume are called and hold. Then come
the images with the same content as another: SAME K PATH, those of one K have one content. It says
nothing of what stands outside of files, as boot tracks. Last come the disks that are alike in
every sector, in whatever order they are:
TWIN K PATH; of those of one K one may be deleted. A file counts once, by whatever paths it is
reached. Links are not followed, and are counted behind passed, with pipes and devices.

Status:
  0  each file has its line
  1  a line says AMBIGUOUS, NONE or UNREAD
  4  FAILED Input or Memory: could not read the file, or ran out of memory";

const CREATE: &str = "\
Examples:
  a2shop create --fs prodos --out new.po --name LETTERS
  a2shop create --fs dos --out new.dsk --boot system.dsk
  a2shop create --fs prodos --blocks 65535 --out hard.po

A disk that is made without --boot starts no machine. With it the system of the owner's own disk
is copied; a ProDOS volume starts one once the file PRODOS is saved to it too. Another order than
that of the file system has a disk of 280 blocks alone.

Status:
  0  the image is written
  3  REFUSED Exists    something stands at the path of --out
     REFUSED Date      the word of --date is no date
     REFUSED Name      no volume can have the name of --name
     REFUSED Length    the order has no image of so many blocks, or the file of --boot has another
                       length
                       than an image in that order
     REFUSED NoSector  a sector that is to be copied can't be read in the image of --boot
  4  FAILED Input, Memory or Output: could not read the file, ran out of memory, or could not
     write the new file";

const RECLAIM: &str = "\
Examples:
  a2shop reclaim disk.dsk --out clean.dsk
  a2shop reclaim disk.po --in-place --auto

--fs and --order are detected where they are left out, but not with --in-place. No file is moved or
changed. With --data-disk on a disk that starts a machine the places of its system are freed. In
an order that is not the disk's own, hundreds of places may belong to no file: look at check
first.

Status:
  0  no place is lost
  3  REFUSED InPlace  it is neither DOS 3.3 in DOS order nor ProDOS in ProDOS order, in a file
     REFUSED Reserve  the word of --reserve is no list of places
     REFUSED Length   not the size that its order requires: 143,360 bytes (nibble 232,960; ProDOS
                      16 to 65,535 blocks)
     REFUSED Check    the volume has a fault; check tells which
  4  FAILED Input, Device, Memory or Output: could not read the file or a sector, ran out of
     memory, or could not write the file";

const ADD: &str = "\
Examples:
  a2shop extract old.po --into files
  a2shop create --fs prodos --out new.po
  a2shop add new.po --from files --out new.po
  a2shop add disk.dsk --from files --out disk.dsk --fs dos --order dos

The name of each file says its name and its type, as extract writes them: NAME#TTAAAA, with the
type and the aux type in hexadecimal digits. NAME#TTAAAA.utf8.txt is a text or a listing in UTF-8
that is turned into the bytes of the file; where NAME#TTAAAA stands beside it and has just these
bytes, its line says PASSED and it is not added; where it has others, nothing is added. Names that
begin with a point are passed over. The files are saved in the order of their names. Locks, dates,
and the holes of sparse files are not carried. On a ProDOS volume each folder is made as a
directory where none is there, before the files are saved; the directory of --into has to be
there. A directory that is made takes 12 files and directories; a folder of more is refused as
DirFull.

Status:
  0  the image is written; a line ADDED for each file, and how many there are
  3  REFUSED Folder       there is no folder at the path of --from
     REFUSED Date         the word of --date is no date
     REFUSED Reserve      the word of --reserve is no list of places
     REFUSED Length       not the size that its order requires: 143,360 bytes (nibble 232,960;
                          ProDOS 16 to 65,535 blocks)
     REFUSED Check        the volume has a fault; check tells which
     and with the path of the file or folder behind it:
     REFUSED Host         the name says no type or that of directories, or it is neither a file
                          nor a folder;
                          DOS 3.3 has no folders
     REFUSED Differs      it is a readable form, and gives other bytes than the file beside it has
     REFUSED Type         DOS 3.3 has no files of the type
     REFUSED Name         no file can have the name
     REFUSED Exists       the volume has an entry of that name
     REFUSED NotFound     the volume has no such directory
     REFUSED Text N       line N of a text or a listing can't be taken
     REFUSED TooLong, InputTooLong, DirFull, VolumeFull  as save tells them
  4  FAILED Input, Device, Memory or Output: could not read the file or a sector, ran out of
     memory, or could not write the file";

const MKDIR: &str = "\
Examples:
  a2shop mkdir disk.po LETTERS --out new.po
  a2shop mkdir disk.po LETTERS/JUNE --out new.po --date 1986-05-01T12:30
  a2shop mkdir disk.po LETTERS --auto --in-place

--order is detected where it is left out, but not with --in-place. The new directory has one block,
with places for 12 files and directories and no more, and is empty; the one that it stands in has
to be there. With --in-place the image's own file is changed, unit by unit, and no new image is
written.

Status:
  0  the image is written, with the directory
  3  REFUSED InPlace     it is not in ProDOS order, in a file
     REFUSED Date        the word of --date is no date and time of 1940 to 2039
     REFUSED Reserve     the word of --reserve is no list of places
     REFUSED Length      not the size that its order requires: 143,360 bytes (nibble 232,960;
                         ProDOS 16 to 65,535 blocks)
     REFUSED Check       the volume has a fault; check tells which
     REFUSED NotFound    the directory that it is to stand in is not there
     REFUSED Name        no directory may have the name
     REFUSED Exists      an entry of the directory that it is to stand in has the name
     REFUSED DirFull     that directory has no place for an entry
     REFUSED VolumeFull  the volume has no free block
  4  FAILED Input, Device, Memory or Output: could not read the file or a sector, ran out of
     memory, or could not write the file";

/// The notes on a command.
pub fn of(verb: Verb) -> &'static str {
    match verb {
        Verb::Catalog => CATALOG,
        Verb::List => LIST,
        Verb::Compare => COMPARE,
        Verb::Map => MAP,
        Verb::Check => CHECK,
        Verb::Read => READ,
        Verb::Extract => EXTRACT,
        Verb::Convert => CONVERT,
        Verb::Plan => PLAN,
        Verb::Optimize => OPTIMIZE,
        Verb::Lock => LOCK,
        Verb::Unlock => UNLOCK,
        Verb::Delete => DELETE,
        Verb::Rename => RENAME,
        Verb::Save => SAVE,
        Verb::Verify => VERIFY,
        Verb::Identify => IDENTIFY,
        Verb::Wrap => WRAP,
        Verb::Unwrap => UNWRAP,
        Verb::Survey => SURVEY,
        Verb::Create => CREATE,
        Verb::Reclaim => RECLAIM,
        Verb::Add => ADD,
        Verb::MakeDirectory => MKDIR,
    }
}
