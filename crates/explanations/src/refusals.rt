// The table of what is told of a job that is not done.
use crate::explanation::Explanation;

/// The explanations of a job that is not done: refusals and failures.
pub static REFUSALS: [Explanation; 37] = [
    Explanation {
        front: "REFUSED InPlace",
        meaning: "This image is not changed in its own file. That is done where the units of the volume stand in the \
            file one after the other: a DOS 3.3 disk in DOS order, or a ProDOS volume in ProDOS order, in a file that \
            has a name; and no file takes the place of another one there, since a stop between the two would leave \
            neither. Nothing was written.",
        advice: "Say `--out FILE` in place of `--in-place`; or bring a copy into the other order with `a2shop \
            convert`.",
    },
    Explanation {
        front: "REFUSED Length",
        meaning: "The image has another length than an image in this order. A disk in DOS order or in ProDOS order has \
            143,360 bytes, in nibble order 232,960 bytes. A ProDOS volume of another size has 16 to 65,535 blocks of \
            512 bytes.",
        advice: "Ask `a2shop identify` which ways to read the image there are. A file that is a little too long or too \
            short was often cut or wrapped by another program: fetch it again.",
    },
    Explanation {
        front: "REFUSED Container Magic",
        meaning: "The file does not begin as a 2IMG file does, with the letters 2IMG.",
        advice: "Ask `a2shop identify` which ways to read it there are, and say one of those in place of `--order \
            2img`.",
    },
    Explanation {
        front: "REFUSED Container Header",
        meaning: "The header of the 2IMG file has another length than 64 bytes, or 52 as in some old files, or is cut \
            short. Nothing was written.",
        advice: "The file was often cut on its way: fetch it again.",
    },
    Explanation {
        front: "REFUSED Container Format",
        meaning: "The header of the 2IMG file names another kind of image than one in DOS order, ProDOS order or \
            nibble order. Nothing was written.",
        advice: "Open it with the program that made it, and save the image in one of these orders.",
    },
    Explanation {
        front: "REFUSED Container Data",
        meaning: "By its header the image in the 2IMG file begins inside the header, or goes on past the end of the \
            file. Nothing was written.",
        advice: "The file was often cut on its way: fetch it again.",
    },
    Explanation {
        front: "REFUSED Container Length",
        meaning: "By its header the image in the 2IMG file has another length than an image in its order, or the file \
            is longer than the longest image and 65,536 bytes. Nothing was written.",
        advice: "Open it with the program that made it, and save the image in another form. Images of hard disks may \
            be too long: the longest has 65,535 blocks of 512 bytes.",
    },
    Explanation {
        front: "REFUSED Protected",
        meaning: "The header of the 2IMG file says that the image in it is not to be written. Nothing was written.",
        advice: "Take the image out by `a2shop unwrap`, change that, and put it into a new file by `a2shop wrap`. The \
            protected file stays as it is.",
    },
    Explanation {
        front: "REFUSED Reserve",
        meaning: "The word behind `--reserve` is no list of places. A place of a DOS disk is its track and its sector, \
            as `3/14`; of a ProDOS volume it is a block, as `280`. Commas stand between the places, and no spaces.",
        advice: "Write the list as `--reserve 3/14,4/0` or `--reserve 7,280`.",
    },
    Explanation {
        front: "REFUSED Type",
        meaning: "The word behind `--type` is no type of this file system's files, or the AppleSingle file has one \
            that DOS 3.3 does not have. DOS 3.3 takes one of the capital letters T, I, A, B, S and R: text, Integer \
            BASIC, Applesoft, binary and two special types; ProDOS takes two hexadecimal digits. Nothing was written.",
        advice: "Write it as `--type B` for a binary file of DOS 3.3; for ProDOS as `--type 04` for text, `06` for \
            binary or `FC` for Applesoft. `0F` is the type of directories, and ProDOS opens no file of it: \
            `a2shop mkdir` makes a directory.",
    },
    Explanation {
        front: "REFUSED Date",
        meaning: "The word behind `--date` is no date and time, or one of a year that ProDOS does not keep: it keeps \
            1940 to 2039. Nothing was written.",
        advice: "Write it as `--date 1986-05-01T12:30`, or leave it out.",
    },
    Explanation {
        front: "REFUSED Check",
        meaning: "The volume has a fault, so this job could not be done without a guess. Nothing was written.",
        advice: "Run `a2shop check` with the same `--fs` and `--order`: it tells each fault and its place. Where it \
            tells very many, the order or the file system is often the wrong one: ask `a2shop identify`.",
    },
    Explanation {
        front: "REFUSED NotFound",
        meaning: "The volume has no file of this name, or, where a file was to be saved or a directory to be made, not \
            the directory that it was to stand in.",
        advice: "Run `a2shop catalog` to see the names. Names of DOS 3.3 are matched letter by letter; a file in a \
            directory of ProDOS is named by its whole path, as `LETTERS/JUNE`. `a2shop mkdir` makes a directory.",
    },
    Explanation {
        front: "REFUSED Name",
        meaning: "No file may have the new name, or the name of the new file, and no directory that of a new one; or \
            no volume the name behind `--name` of `a2shop create`. Nothing was written.",
        advice: "A name of DOS 3.3 has 1 to 30 characters from the space to the tilde and no comma, begins with a \
            capital letter and does not end with a space. A name of ProDOS has 1 to 15 letters, digits and periods and \
            begins with a letter, that of a volume too; it is the last of the path, without a slash. To `a2shop \
            rename` give that name alone, to `a2shop save` and `mkdir` the whole path.",
    },
    Explanation {
        front: "REFUSED Exists",
        meaning: "The directory has an entry with the new name, or with the name of the new file or directory: a file, \
            a directory, or the very file that was to be renamed. Letters of either case are the same to ProDOS. Of \
            `a2shop read`, `wrap`, `unwrap` and `create` it is the path behind `--out` at which something stands, a \
            link too. No file is replaced by another, and nothing was written.",
        advice: "Choose another name, or first rename or delete the entry that has it: `a2shop catalog` shows them. To \
            save a file anew, say `--replace`; a directory is not replaced.",
    },
    Explanation {
        front: "REFUSED Locked",
        meaning: "The file is locked, so it is not deleted, renamed or replaced. A file of ProDOS counts as locked \
            where its access bits do not let it be deleted, or renamed. Nothing was written.",
        advice: "Run `a2shop unlock` first, and this command on the image that it writes.",
    },
    Explanation {
        front: "REFUSED TooLong",
        meaning: "The file is longer than a file of this file system can be. A file of DOS 3.3 has at most 560 \
            sectors, and one of type A, I or B at most 65,535 bytes; a file of ProDOS has at most 32,768 blocks and \
            16,777,215 bytes. Nothing was written.",
        advice: "Look whether `--from` names the right file. Cut a long one into several files, and save each under a \
            name of its own.",
    },
    Explanation {
        front: "REFUSED DirFull",
        meaning: "The directory has no free entry: the catalog of a DOS disk mostly has 105 entries, the volume \
            directory of ProDOS 51, and a directory that `a2shop mkdir` makes 12. This program makes no directory of \
            ProDOS longer. Nothing was written.",
        advice: "Delete a file with `a2shop delete`, and try again on the image that it writes; or, in ProDOS, name a \
            path in another directory.",
    },
    Explanation {
        front: "REFUSED VolumeFull",
        meaning: "Fewer places are free on the volume than the file takes. It takes a sector or block for each of its \
            lists or indexes too, beside those of its bytes. A new directory takes one block. Nothing was written.",
        advice: "Delete files that are not needed; the line `FREE` of `a2shop catalog` tells how many places are free. \
            Where places are lost, `a2shop reclaim` marks them as free.",
    },
    Explanation {
        front: "REFUSED NoFreePlace",
        meaning: "A part of a file stands in the wrong place, and every place of the volume has a part, so there is \
            none over which the parts could be moved. Nothing was written.",
        advice: "Take a file off a copy of the disk, or name fewer places behind `--reserve`, and try again.",
    },
    Explanation {
        front: "REFUSED Folder",
        meaning: "The files are put into a new folder, and none can be made at this path: something stands there that \
            is no empty folder, a link too; or the folder in which it is to stand is not there; or the path is empty, \
            or ends in `.` or `..`. Of `add` it says that no folder stands at the path behind `--from`. Nothing was \
            written.",
        advice: "Name a folder behind `--into` that is not there yet, or an empty one, in a folder that is there; \
            behind `--from` the one that has the files.",
    },
    Explanation {
        front: "REFUSED Host",
        meaning: "The name of this file, in the folder behind `--from`, says no type, or 0f, the type that directories \
            alone have; or that of a folder says no name of a directory; or it is a link or something else that is \
            neither a file nor a folder; or it is a folder, and DOS 3.3 has none. No type is guessed. Nothing was \
            written.",
        advice: "Name the file as `a2shop extract` does, NAME#TTAAAA with the type and the aux type in hexadecimal \
            digits, as LETTER#040000 for a text, or take it out of the folder. A text in UTF-8 may be \
            LETTER#040000.utf8.txt.",
    },
    Explanation {
        front: "REFUSED Differs",
        meaning: "This text, in the folder behind `--from`, is the readable form of the file beside it, the one of the \
            same name without `.utf8.txt`, and gives other bytes than that file has: one of the two was changed. \
            Nothing was written.",
        advice: "Where the text is what you want on the volume, take the file beside it out of the folder; where that \
            file is, take the text out. Then add again.",
    },
    Explanation {
        front: "REFUSED TooDeep",
        meaning: "A file or a directory of the volume stands in more than 64 directories, or its path in the folder \
            would have more than 1,024 bytes. No volume that was filled on a real machine has such files: ProDOS takes \
            paths of 64 characters and a prefix. Nothing was written.",
        advice: "Run `a2shop check`: the volume is often damaged, or the order is the wrong one. `a2shop read` still \
            takes out one file.",
    },
    Explanation {
        front: "REFUSED TooLarge",
        meaning: "The files of the volume that are read or written, and the units of the parts that are listed, have \
            more bytes in all than `--most` allows, or than 1,073,741,824 where it is left out. A file of ProDOS may \
            have many bytes of which the volume holds none, and the files of a damaged volume may share their parts.",
        advice: "Give a greater number behind `--most`; of a list leave `--digests` and `--places` out.",
    },
    Explanation {
        front: "REFUSED Form",
        meaning: "The file can't be printed in the form that `--as` names: its bytes are no program of that BASIC, or \
            with `shown` it is neither a text nor a program.",
        advice: "Look at its type with `a2shop catalog`. Its bytes as they are come without `--as`, all bytes of its \
            sectors with `--whole`.",
    },
    Explanation {
        front: "REFUSED Text",
        meaning: "The line with this number of the file behind `--from` can't be taken as `--as` says: a text may have \
            the characters of the Apple II, tabs, and the pictures of control characters; a line of a program begins \
            with a number that is greater than that of the line before. Nothing was written.",
        advice: "Look at that line: quotation marks and dashes of today's texts, and letters with accents, are not \
            among the characters. Write plain ones in their place, and save it as UTF-8.",
    },
    Explanation {
        front: "REFUSED Single",
        meaning: "The file behind `--from` is no AppleSingle file of version 2 whose data can be read, or one with a \
            resource fork, which has no place in a file of the Apple II. Nothing was written.",
        advice: "Look whether it is the right file. To save its bytes as they are, leave `--as single` out.",
    },
    Explanation {
        front: "REFUSED InputTooLong",
        meaning: "The file behind `--from` has more than 16,777,216 bytes, which is more than any certificate of a \
            volume has, and more than any file of a volume.",
        advice: "For `a2shop verify` name the file that `a2shop plan` wrote; for `a2shop save` look whether it is the \
            right file.",
    },
    Explanation {
        front: "REFUSED NoSector",
        meaning: "A sector of the disk can't be found on its track, so the disk can't be written in another order, or \
            its system not be copied to a new one. A track of disk bytes may be damaged, copy-protected or never \
            formatted.",
        advice: "Read the disk again, if you can. `a2shop catalog`, `check` and `read` still work on what can be read.",
    },
    Explanation {
        front: "REFUSED Lost",
        meaning: "So many places are lost: the volume's map has them as used, and no file has them. They may be left \
            over from a program that was stopped, or hold something that stands outside of all files, as a second \
            system or a saved boot track.",
        advice: "With `--reclaim` they are marked as free and may be written over. Use it where nothing outside of the \
            files is worth keeping; else name the places that are to stay behind `--reserve`.",
    },
    Explanation {
        front: "REFUSED Ambiguous",
        meaning: "`auto` found more than one way in which the image may be read, and none that is better than all \
            others; or the image stands in a 2IMG file, and is in another order than the header of that says. Nothing \
            was written.",
        advice: "Run `a2shop identify` to see what is found in each way, and name the right one by `--fs` and \
            `--order`.",
    },
    Explanation {
        front: "REFUSED Unknown",
        meaning: "`auto` found no DOS 3.3 or ProDOS volume in the image, in none of the ways that its length and the \
            other words allow. Nothing was written.",
        advice: "Run `a2shop identify` to see each way. The image may be of another system, as Pascal or CP/M, be \
            damaged, or not be an image of a whole disk.",
    },
    Explanation {
        front: "FAILED Input",
        meaning: "A file that the words name could not be opened or read; or another program works on it and holds its \
            lock, as every command does for the files that it reads or changes; or it is to be changed, and is \
            write-protected or was replaced meanwhile. Nothing was written.",
        advice: "Look whether the name is spelled right, the file is there, it is no folder, and you may read it, and \
            with `--in-place` write it. Where another program holds the lock, wait until that has ended.",
    },
    Explanation {
        front: "FAILED Device",
        meaning: "A sector that the job needs can't be read from the tracks of the image; or, with `--in-place`, the \
            image's file could not be read or written, or what was written could not be put onto the disk.",
        advice: "Read the disk again, if you can. A file that does not need the sector can still be read by `a2shop \
            read`. With `--in-place` look whether the disk has room and is sound, and run `a2shop check` on the \
            image.",
    },
    Explanation {
        front: "FAILED Output",
        meaning: "The new file or folder could not be written, and nothing was told before that. What stood at its \
            path stands, and the image is as it was.",
        advice: "Look whether the folder around it is there and may be written to, and whether the disk has room; or \
            name another path.",
    },
    Explanation {
        front: "FAILED Memory",
        meaning: "There was not enough memory for the job. Nothing else is wrong with the image, as far as it was \
            read.",
        advice: "Close other programs, or raise the limit of memory, and try again.",
    },
];
