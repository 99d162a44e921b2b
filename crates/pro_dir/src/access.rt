// The access bits of an entry.
ghost use Rattle.std.specs.Prelude.{⊤, ◌≡◌, ◌==◌, [], ◌∷◌, codes};
ghost use Rattle.std.specs.Int.RustNames.{bit_and, bit_or};

use bitflags::{Flag, Flags, bitflag_items};

/// The access bits of an entry; bits without a name are kept (ProDOS 8 Technical Reference Manual, Appendix B).
#[derive(Clone, Copy)]
pub struct Access(u8);

bitflag_items! {
    impl Access: u8 {
        const DESTROY = 0x80;
        const RENAME = 0x40;
        const BACKUP = 0x20;
        const WRITE = 0x02;
        const READ = 0x01;
    }
}

impl Flags for Access {
    type Bits = u8;

    ghost exact = { ⊤ };

    ghost table = { (codes "DESTROY", 128) ∷ (codes "RENAME", 64) ∷ (codes "BACKUP", 32) ∷ (codes "WRITE", 2)
        ∷ (codes "READ", 1) ∷ [] };

    ghost set_of = { λ a. a.0 };

    fn flags<'a>() -> &'a [Flag<Access>] {
        Access::FLAGS
    }

    fn bits(&self) -> u8 {
        self.0
    }

    fn from_bits_retain(bits: u8) -> Access {
        Access(bits)
    }
}

/// What unlocking sets: destroy, rename, write and read.
const UNLOCKED: u8 = 0xc3;

/// What locking clears: destroy, rename and write.
const LOCKED: u8 = 0xc2;

impl Access {
    /// The access bits as they are stored.
    pub fn of(bits: u8) -> Access
        ensures { result.0 ≡ bits }
    {
        Access(bits)
    }

    /// The access bits, as they are stored.
    pub fn byte(self) -> u8
        ensures { result ≡ self.0 }
    {
        self.0
    }

    /// Whether the file may be deleted.
    pub fn can_destroy(self) -> bool
        ensures { result ≡ (bit_and self.0 0x80 == 0x80) }
    {
        self.contains(Access::DESTROY)
    }

    /// Whether the file may be renamed.
    pub fn can_rename(self) -> bool
        ensures { result ≡ (bit_and self.0 0x40 == 0x40) }
    {
        self.contains(Access::RENAME)
    }

    /// Whether the file may be deleted, renamed and written.
    pub fn is_unlocked(self) -> bool
        ensures { result ≡ (bit_and self.0 0xc2 == 0xc2) }
    {
        self.contains(Access::from_bits_retain(LOCKED))
    }

    /// Sets destroy, rename, write and read, and keeps the rest.
    pub fn unlock(self) -> Access
        ensures { result.0 ≡ bit_or self.0 0xc3 }
    {
        let mut access = self;
        access.insert(Access::from_bits_retain(UNLOCKED));
        access
    }

    /// Clears destroy, rename and write, and keeps the rest.
    pub fn lock(self) -> Access
        ensures { result.0 ≡ bit_and self.0 0x3d }
    {
        let mut access = self;
        access.remove(Access::from_bits_retain(LOCKED));
        access
    }
}
