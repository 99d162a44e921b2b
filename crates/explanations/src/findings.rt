// The table of what a job finds.
use crate::explanation::Explanation;

/// The explanations of what a job finds: faults of a volume, faults of a certificate and verdicts; and of words that
/// are no job.
pub static FINDINGS: [Explanation; 38] = [
    Explanation {
        front: "2IMG",
        meaning: "The file is a 2IMG file, and its header says this of the image in it.",
        advice: "With a wrong header take the image out by `a2shop unwrap`, and put it into a new file by \
            `a2shop wrap` with the right order.",
    },
    Explanation {
        front: "FAULT Geometry",
        meaning: "The header of the volume is not that of a volume of this size: the table of contents of a DOS disk \
            does not tell 35 tracks of 16 sectors of 256 bytes, or a directory of ProDOS does not begin as one.",
        advice: "Often the file system or the order is the wrong one: ask `a2shop identify`.",
    },
    Explanation {
        front: "FAULT CatalogLink",
        meaning: "The catalog of the DOS disk is a chain of sectors, and this one leads to none that can be the next: \
            off track 17, or round to one that stood before.",
        advice: "Files that come behind it can't be listed. If the order may be the wrong one, ask `a2shop identify`.",
    },
    Explanation {
        front: "FAULT DirLink",
        meaning: "A directory of the ProDOS volume is a chain of blocks, and this one leads to none that can be the \
            next, or to a subdirectory that is none.",
        advice: "Files that come behind it can't be listed. If the order may be the wrong one, ask `a2shop identify`.",
    },
    Explanation {
        front: "FAULT MapPointer",
        meaning: "The header of the ProDOS volume names a place for the map of its free blocks where no map can stand.",
        advice: "Do not write to the volume: it is not known which blocks are free. Copy its files to a new one.",
    },
    Explanation {
        front: "FAULT StorageType",
        meaning: "An entry of a directory is of a kind that this program does not follow: neither a file of ProDOS nor \
            a directory. Files with two forks are of such a kind.",
        advice: "The other files of the volume can still be read.",
    },
    Explanation {
        front: "FAULT OutOfRange",
        meaning: "This sector or block names a place that the disk does not have.",
        advice: "The file to which it belongs is damaged. Copy the other files to another disk: `a2shop read` still \
            reads them, but no command changes a volume that has a fault.",
    },
    Explanation {
        front: "FAULT InSystem",
        meaning: "A file names a place that belongs to the system, as the tracks of DOS, a directory, a map, or a \
            place that you reserved.",
        advice: "Where the place is on track 1 or 2 of a DOS disk that does not start, add `--data-disk`. Where you \
            reserved it, leave it out of the list.",
    },
    Explanation {
        front: "FAULT Shared",
        meaning: "Two files, or two parts of one file, name the same place: only one of them can be right about what \
            stands there.",
        advice: "Copy both files to another disk and look which of them is whole. No command changes a volume that \
            has a fault.",
    },
    Explanation {
        front: "FAULT MarkedFree",
        meaning: "A file has a part at a place that the volume's map has as free. The next file that is saved may be \
            written over it.",
        advice: "Copy the files to another disk before anything is saved on this one.",
    },
    Explanation {
        front: "REFUSED Syntax",
        meaning: "The file behind `--from` is no certificate. The number is that of the first line that can't stand \
            there, from 1.",
        advice: "Name a file that `a2shop plan` wrote, unchanged.",
    },
    Explanation {
        front: "REFUSED OtherLayout",
        meaning: "The certificate is for a disk whose parts stand at other places than those of this one.",
        advice: "Use the image from which the certificate was made, with the same `--reserve` and `--data-disk`. Once \
            a disk is in order, its old certificate does not fit it any more.",
    },
    Explanation {
        front: "REFUSED NotMisplaced",
        meaning: "The certificate says of a part that it stands in the wrong place, and it stands in the right one. \
            The number is the part's.",
        advice: "The certificate proves nothing. Make a new one by `a2shop plan`.",
    },
    Explanation {
        front: "REFUSED Repeated",
        meaning: "The certificate counts a part twice. The number is the part's.",
        advice: "The certificate proves nothing. Make a new one by `a2shop plan`.",
    },
    Explanation {
        front: "REFUSED NotARing",
        meaning: "The certificate says of some parts that each stands at the place of the next, and they do not. The \
            number is that of the ring, from 0.",
        advice: "The certificate proves nothing. Make a new one by `a2shop plan`.",
    },
    Explanation {
        front: "REFUSED IllegalMove",
        meaning: "A move of the certificate goes to a place where a part stands, or that the disk does not have. The \
            number is that of the move, from 0.",
        advice: "Do not make these moves. Make a new certificate by `a2shop plan`.",
    },
    Explanation {
        front: "REFUSED NotAtTarget",
        meaning: "After the moves of the certificate the files are not in order.",
        advice: "Make a new certificate by `a2shop plan`.",
    },
    Explanation {
        front: "REFUSED Sum",
        meaning: "The numbers of the certificate do not add up: the bound, the misplaced parts with the rings, and \
            the moves.",
        advice: "The certificate proves nothing. Make a new one by `a2shop plan`.",
    },
    Explanation {
        front: "OPTIMAL",
        meaning: "The certificate is good for this disk: no plan has fewer moves than this number.",
        advice: "Nothing is to be done. `a2shop optimize` makes these moves.",
    },
    Explanation {
        front: "ACCEPTED",
        meaning: "The volume is sound: each part of each file stands alone, at a place that is marked as used. Without \
            `--bodies` what stands in the files was not read, and a file may be damaged all the same. Lost places, if \
            there are any, are marked as used and belong to no file; that is no fault.",
        advice: "Nothing is to be done. `a2shop check --bodies` reads each sector or block of the files too, and tells \
            which can't be read. Where places are lost, `a2shop plan` and `optimize` want `--reclaim`, to mark them as \
            free, or `--reserve`, to keep them.",
    },
    Explanation {
        front: "UNREADABLE",
        meaning: "This can't be read from the image: with `check --bodies` a sector or block of an accepted volume, \
            whose place comes first, with the path of the file behind it; with `compare` a file of the first image or \
            of the second, whose number comes first; with `extract` a file of which nothing was written, by the name \
            that it would have in the folder.",
        advice: "Take the other files off the image, and look for another copy of the disk. `a2shop list --digests` \
            tells a digest of each file that can be read as a whole, and `a2shop check` the faults of the volume.",
    },
    Explanation {
        front: "BODY",
        meaning: "Both images have the file, and its contents differ.",
        advice: "`a2shop read` with each image writes the two contents, which other programs can compare.",
    },
    Explanation {
        front: "ENTRY",
        meaning: "Both images have the file with the same contents, but something else of it differs: its type, its \
            address or auxiliary type, its lock or access, its length as the directory tells it, or a date.",
        advice: "`a2shop list --format json` with each image tells what the directory has of the file.",
    },
    Explanation {
        front: "ONLY",
        meaning: "One of the images has the file, the first or the second as the number says, and the other has no \
            more files of this path.",
        advice: "A file may have another name on the other disk: `a2shop list --digests` with each image shows files \
            of the same contents by their digests.",
    },
    Explanation {
        front: "DIFFERENT",
        meaning: "The images do not have the same files: so many are the same, so many differ, and so many are in one \
            of the images alone or can't be read.",
        advice: "The lines above it name the files. `--all` names those that are the same too.",
    },
    Explanation {
        front: "EQUAL",
        meaning: "The images have the same files with the same contents. Nothing is said of what stands outside of \
            files: boot tracks, data at places that no file has, empty directories, the name of the volume.",
        advice: "Before you delete one of them, see whether `a2shop survey` tells them as `TWIN`: then every sector is \
            alike.",
    },
    Explanation {
        front: "SAME",
        meaning: "The files of these volumes, or this file of both, are the same. Nothing is said of what stands \
            outside of files: boot tracks, data at places that no file has, empty directories, the name of the volume.",
        advice: "Before you delete one of two images, see whether `a2shop survey` tells them as `TWIN`: then every \
            sector is alike.",
    },
    Explanation {
        front: "TWIN",
        meaning: "Every sector or block of these disks is there and alike, in whatever order their images are.",
        advice: "One image of each number may stay, and the others be deleted.",
    },
    Explanation {
        front: "PASSED",
        meaning: "This was not added to the volume: it is the readable form of the file beside it, which was added \
            itself and has just the bytes that the form gives.",
        advice: "Nothing is to be done. A text that was changed is refused, as `REFUSED Differs`.",
    },
    Explanation {
        front: "PARTS",
        meaning: "In the picture S is the system's, R a place that you reserved, o a part of a file that stands at its \
            target place, x one that stands elsewhere, ? a place that is marked as used and belongs to no file, and a \
            full stop a free place.",
        advice: "`a2shop plan` tells the fewest moves that leave no x, and `a2shop optimize` makes them.",
    },
    Explanation {
        front: "BEST",
        meaning: "In this file system and this order more is found than in any other.",
        advice: "Give these two words to the other commands, as `--fs` and `--order`, or `auto` for both.",
    },
    Explanation {
        front: "AMBIGUOUS",
        meaning: "The image may be read in more than one way, and none of them is better than all others.",
        advice: "Compare the lines: the right way mostly has more entries, a longer chain and fewer lost places. Try \
            `a2shop catalog` with each.",
    },
    Explanation {
        front: "BROKEN",
        meaning: "There is a volume in this file system and this order: its header is right. But its directory, or one \
            below it, or the place that it names for the map of its free blocks, is damaged, so no command guesses \
            what stands in it.",
        advice: "`a2shop check` with the two words behind `--fs` and `--order` tells where the fault is. Look for \
            another copy of the disk, or mend that place with an editor of disks, in a copy of the image.",
    },
    Explanation {
        front: "UNREAD",
        meaning: "This file could not be read: it can't be opened, another program holds its lock, there was no memory \
            for it, or what a list named is no file. Of a folder it says that the folder, or a name in it, can't be \
            read.",
        advice: "Look whether it is there and whether you may read it. Where another program works on it, survey again \
            when that has ended.",
    },
    Explanation {
        front: "OTHER",
        meaning: "No image of a disk has the length of this file, or it begins as a 2IMG file does and is none that \
            can be read.",
        advice: "Where it is a packed file or an image in another form, unpack it or save it in DOS or ProDOS order. \
            Of a 2IMG file `a2shop identify` tells what is wrong.",
    },
    Explanation {
        front: "NONE",
        meaning: "There is no DOS 3.3 or ProDOS volume in the image, in none of the ways to read it.",
        advice: "The image may be of another system, as Pascal or CP/M, be damaged, or not be an image of a whole \
            disk.",
    },
    Explanation {
        front: "----------------------------------------------------------------",
        meaning: "The file has no digest, since it can't be read: one of its pointers leads nowhere, two of its parts \
            stand at one place, or a sector or block of it can't be read. The other files are listed all the same.",
        advice: "`a2shop check` tells the faults of the volume. Take the files that can be read off the image, and \
            look for another copy of the disk.",
    },
    Explanation {
        front: "error:",
        meaning: "The words are not those of a command.",
        advice: "`a2shop --help` tells the commands, and `a2shop COMMAND --help` the words of one.",
    },
];
