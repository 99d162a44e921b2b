// The calls of a host in memory.
ghost use Rattle.std.specs.Prelude.{◌≡◌};

use crate::entries::Entry;
use crate::host::{MODE_OF_NEW, MODE_OF_NEW_FOLDER, MemoryHost, refuse_unrooted};
use crate::journal::Change;
use crate::open::{OpenEntry, Unread, moved};
use crate::paths::rooted;
use crate::store::Taken;
use crate::units::MemoryUnits;
use a2_media::{MemoryFile, PositionedFile};
use shop_host::{Access, Found, FoundKind, Host, Lock};
use std::alloc::Global;
use std::io::{self, ErrorKind};

fn refused() -> io::Error {
    io::Error::from(ErrorKind::PermissionDenied)
}

impl Host for MemoryHost {
    type File = OpenEntry;

    type Units = MemoryUnits;

    type Names = Vec<String>;

    ghost use Rattle.std.specs.Prelude.{Some, string_bytes};
    ghost use Rattle.memory_host.specs.Journal.{memory_state, rest};

    ghost state = { λ host. memory_state host.store };

    ghost place = { λ file. string_bytes file.place };

    ghost unread = { λ file. Some (rest file.unread) };

    ghost units_place = { λ units. string_bytes units.place };

    ghost noted = { λ host. Some host.notes.items };

    fn alloc(&self) -> Global {
        self.alloc
    }

    fn found(&mut self, path: &str) -> io::Result<Found> {
        self.count()?;
        let (_, entry) = self.led(path)?;
        Ok(self.found_of(&entry))
    }

    fn found_itself(&mut self, path: &str) -> io::Result<Found> {
        self.count()?;
        let entry = self.standing_itself(path)?;
        Ok(self.found_of(&entry))
    }

    fn found_open(&mut self, file: &OpenEntry) -> io::Result<Found> {
        self.count()?;
        let entry = self.standing(file.place.as_str())?;
        Ok(self.found_of(&entry))
    }

    fn own_path(&mut self, path: &str) -> io::Result<String> {
        self.count()?;
        self.own(path)
    }

    fn link_target(&mut self, path: &str) -> io::Result<String> {
        self.count()?;
        self.target(path)
    }

    fn open(&mut self, path: &str, _access: Access) -> io::Result<OpenEntry> {
        self.count()?;
        let (place, entry) = self.led(path)?;
        let Entry { bytes, .. } = entry;
        Ok(OpenEntry {
            place,
            unread: Unread { bytes, read: 0 },
        })
    }

    fn make(&mut self, path: &str, mode: Option<u32>) -> io::Result<OpenEntry> {
        self.count()?;
        refuse_unrooted(path)?;
        self.refuse_taken(path)?;
        let place = path.to_string(self.alloc)?;
        self.make_file(path, mode.unwrap_or(MODE_OF_NEW))?;
        Ok(OpenEntry {
            place,
            unread: Unread::empty(self.alloc),
        })
    }

    fn open_empty(&mut self, path: &str) -> io::Result<OpenEntry> {
        self.count()?;
        let (place, entry) = self.led(path)?;
        self.empty(place.as_str(), &entry)?;
        Ok(OpenEntry {
            place,
            unread: Unread::empty(self.alloc),
        })
    }

    fn lock(&mut self, file: &OpenEntry, lock: Lock) -> io::Result<()> {
        self.count()?;
        let path = file.place.as_str().to_string(self.alloc)?;
        self.store.take(Taken { path, lock })?;
        Ok(())
    }

    fn read(&mut self, file: &mut OpenEntry, bytes: &mut [u8]) -> io::Result<usize> {
        self.count()?;
        Ok(file.unread.take(bytes))
    }

    fn write(&mut self, file: &mut OpenEntry, bytes: &[u8]) -> io::Result<usize> {
        self.count()?;
        let count = moved(bytes.len(), bytes.len());
        let own = Vec::from_slice(self.alloc, &bytes[..count])?;
        self.keep(file.place.as_str(), Change::Wrote(own))?;
        Ok(count)
    }

    fn flush(&mut self, file: &OpenEntry) -> io::Result<()> {
        self.count()?;
        self.keep(file.place.as_str(), Change::Flushed)
    }

    fn set_mode(&mut self, file: &OpenEntry, mode: u32) -> io::Result<()> {
        self.count()?;
        let entry = self.standing(file.place.as_str())?;
        self.give_mode(entry.number, mode)
    }

    fn set_owner(
        &mut self,
        path: &str,
        _owner: Option<u32>,
        _group: Option<u32>,
    ) -> io::Result<()> {
        self.count()?;
        let _entry = self.standing_itself(path)?;
        Ok(())
    }

    fn units(&mut self, file: &OpenEntry) -> io::Result<MemoryUnits> {
        self.count()?;
        let place = file.place.as_str().to_string(self.alloc)?;
        let Entry { kind, bytes, .. } = self.standing(file.place.as_str())?;
        if kind != FoundKind::File {
            return Err(refused());
        }
        Ok(MemoryUnits {
            place,
            file: MemoryFile::new(bytes),
        })
    }

    fn flush_units(&mut self, units: &MemoryUnits) -> io::Result<()> {
        self.count()?;
        let bytes = Vec::from_slice(self.alloc, units.file.as_bytes())?;
        let number = self.standing(units.place.as_str())?.number;
        self.keep(
            units.place.as_str(),
            Change::Stands(Entry {
                kind: FoundKind::File,
                number,
                bytes,
                on_disk: true,
            }),
        )
    }

    fn rename(&mut self, from: &str, to: &str) -> io::Result<()> {
        self.count()?;
        refuse_unrooted(to)?;
        let entry = self.standing(from)?;
        self.refuse_unreplaced(&entry, to)?;
        match entry.kind {
            FoundKind::File => {
                let from = from.to_string(self.alloc)?;
                self.keep(to, Change::Moved { entry, from })
            }
            FoundKind::Folder => {
                let pieces = self.pieces(from, to)?;
                let from = from.to_string(self.alloc)?;
                self.keep(
                    to,
                    Change::Carried {
                        entry,
                        from,
                        pieces,
                    },
                )
            }
            _ => Err(refused()),
        }
    }

    fn link(&mut self, from: &str, to: &str) -> io::Result<()> {
        if !self.knows_links {
            return Err(io::Error::from(ErrorKind::Unsupported));
        }
        self.count()?;
        refuse_unrooted(to)?;
        self.refuse_taken(to)?;
        let entry = self.standing(from)?;
        self.keep(to, Change::Stands(entry))
    }

    fn remove(&mut self, path: &str) -> io::Result<()> {
        self.count()?;
        let entry = self.standing(path)?;
        if entry.kind == FoundKind::Folder || entry.kind == FoundKind::Link {
            return Err(refused());
        }
        self.keep(path, Change::Gone)
    }

    fn make_folder(&mut self, path: &str) -> io::Result<()> {
        self.count()?;
        refuse_unrooted(path)?;
        self.refuse_taken(path)?;
        let bytes = Vec::new(self.alloc);
        let entry = self.new_entry(FoundKind::Folder, MODE_OF_NEW_FOLDER, bytes, true)?;
        self.keep(path, Change::Stands(entry))
    }

    fn set_folder_mode(&mut self, path: &str, mode: u32) -> io::Result<()> {
        self.count()?;
        let (_, entry) = self.led(path)?;
        self.give_mode(entry.number, mode)
    }

    fn remove_folder(&mut self, path: &str) -> io::Result<()> {
        self.count()?;
        let entry = self.standing(path)?;
        if entry.kind != FoundKind::Folder {
            return Err(refused());
        }
        self.keep(path, Change::Emptied)
    }

    fn names(&mut self, path: &str) -> io::Result<Vec<String>> {
        self.count()?;
        let (own, _) = self.led(path)?;
        self.names_in(own.as_str())
    }

    fn next_name(&mut self, names: &mut Vec<String>) -> Option<io::Result<String>> {
        match self.count() {
            Ok(()) => Some(Ok(names.pop()?)),
            Err(error) => Some(Err(error)),
        }
    }

    fn read_input(&mut self, bytes: &mut [u8]) -> io::Result<usize> {
        self.count()?;
        Ok(self.store.input.take(bytes))
    }

    fn note(&mut self, bytes: &[u8]) -> io::Result<usize> {
        if self.is_stopped() {
            return Err(refused());
        }
        self.notes.extend_from_slice(bytes)?;
        Ok(bytes.len())
    }
}
