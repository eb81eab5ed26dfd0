//! Permission bits.
ghost use Rattle.std.specs.Prelude.{⊤, ◌≡◌, [], ◌∷◌, codes};
ghost use Rattle.hurd_creds.specs.Bits.{known_mode};
ghost use Rattle.hurd_creds.specs.Access.{has_exec_bit};

use bitflags::{Flag, Flags, bitflag_items};

/// The permission bits of a node: three for its owner, its group, others, and three for those who hold no uid, which
/// decide where `USE_UNK` is set; and the sticky bit.
#[derive(Clone, Copy, PartialEq, Eq, Debug)]
pub struct Mode(u32);

bitflag_items! {
    impl Mode: u32 {
        const OWNER_READ = 0o400;
        const OWNER_WRITE = 0o200;
        const OWNER_EXEC = 0o100;
        const GROUP_READ = 0o040;
        const GROUP_WRITE = 0o020;
        const GROUP_EXEC = 0o010;
        const OTHERS_READ = 0o004;
        const OTHERS_WRITE = 0o002;
        const OTHERS_EXEC = 0o001;
        const STICKY = 0o001000;
        const UNKNOWN_READ = 0o040000;
        const UNKNOWN_WRITE = 0o020000;
        const UNKNOWN_EXEC = 0o010000;
        const USE_UNK = 0o100000;
    }
}

impl Flags for Mode {
    type Bits = u32;

    ghost exact = { ⊤ };

    ghost table = { (codes "OWNER_READ", 256) ∷ (codes "OWNER_WRITE", 128) ∷ (codes "OWNER_EXEC", 64)
        ∷ (codes "GROUP_READ", 32) ∷ (codes "GROUP_WRITE", 16) ∷ (codes "GROUP_EXEC", 8)
        ∷ (codes "OTHERS_READ", 4) ∷ (codes "OTHERS_WRITE", 2) ∷ (codes "OTHERS_EXEC", 1)
        ∷ (codes "STICKY", 512)
        ∷ (codes "UNKNOWN_READ", 16384) ∷ (codes "UNKNOWN_WRITE", 8192) ∷ (codes "UNKNOWN_EXEC", 4096)
        ∷ (codes "USE_UNK", 32768) ∷ [] };

    ghost set_of = { λ m. m.0 };

    fn flags<'a>() -> &'a [Flag<Mode>] {
        Mode::FLAGS
    }

    fn bits(&self) -> u32 {
        self.0
    }

    fn from_bits_retain(bits: u32) -> Mode {
        Mode(bits)
    }
}

impl Mode {
    /// The known ones of these bits.
    pub fn from_bits_truncate(bits: u32) -> Mode
        ensures { result ≡ known_mode (record { 0 = bits }) }
    {
        <Mode as Flags>::from_bits_truncate(bits)
    }

    /// The known bits of this mode.
    pub fn known(self) -> Mode
        ensures { result ≡ known_mode self }
    {
        Mode::from_bits_truncate(self.0)
    }

    /// Whether the owner's, the group's or the others' execute bit is set.
    pub(crate) fn has_exec(self) -> bool
        ensures { result ≡ has_exec_bit self.0 }
    {
        self.contains(Mode::OWNER_EXEC)
            || self.contains(Mode::GROUP_EXEC)
            || self.contains(Mode::OTHERS_EXEC)
    }
}
