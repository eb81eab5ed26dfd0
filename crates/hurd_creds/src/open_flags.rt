//! Flags of opening.
ghost use Rattle.std.specs.Prelude.{⊤, ◌≡◌, [], ◌∷◌, codes};
ghost use Rattle.hurd_creds.specs.Bits.{known_open_flags, open_modes, asks, with_append};

use bitflags::{Flag, Flags, bitflag_items};

/// How a node is looked up and opened. An open keeps `READ`, `WRITE`, `EXEC` and `APPEND`.
#[derive(Clone, Copy, PartialEq, Eq, Debug)]
pub struct OpenFlags(u16);

bitflag_items! {
    impl OpenFlags: u16 {
        const READ = 1;
        const WRITE = 2;
        const EXEC = 4;
        const APPEND = 8;
        const CREATE = 16;
        const EXCL = 32;
        const NOTRANS = 64;
        const NOLINK = 128;
        const DIRECTORY = 256;
    }
}

impl Flags for OpenFlags {
    type Bits = u16;

    ghost exact = { ⊤ };

    ghost table = { (codes "READ", 1) ∷ (codes "WRITE", 2) ∷ (codes "EXEC", 4) ∷ (codes "APPEND", 8)
        ∷ (codes "CREATE", 16) ∷ (codes "EXCL", 32) ∷ (codes "NOTRANS", 64) ∷ (codes "NOLINK", 128)
        ∷ (codes "DIRECTORY", 256) ∷ [] };

    ghost set_of = { λ f. f.0 };

    fn flags<'a>() -> &'a [Flag<OpenFlags>] {
        OpenFlags::FLAGS
    }

    fn bits(&self) -> u16 {
        self.0
    }

    fn from_bits_retain(bits: u16) -> OpenFlags {
        OpenFlags(bits)
    }
}

impl OpenFlags {
    /// The known ones of these bits.
    pub fn from_bits_truncate(bits: u16) -> OpenFlags
        ensures { result ≡ known_open_flags (record { 0 = bits }) }
    {
        <OpenFlags as Flags>::from_bits_truncate(bits)
    }

    /// The flags that an open keeps: `READ`, `WRITE`, `EXEC` and `APPEND`.
    pub fn open_modes(self) -> OpenFlags
        ensures { result ≡ open_modes self }
    {
        let kept = OpenFlags::READ.0 | OpenFlags::WRITE.0 | OpenFlags::EXEC.0 | OpenFlags::APPEND.0;
        OpenFlags(self.0 & kept)
    }

    /// These flags with `APPEND`, or without it.
    pub fn with_append(self, append: bool) -> OpenFlags
        ensures { result ≡ with_append append self }
    {
        if append {
            OpenFlags(self.0 | OpenFlags::APPEND.0)
        } else {
            OpenFlags(self.0 & 503)
        }
    }

    /// Whether this flag is among these.
    pub fn asks(self, flag: OpenFlags) -> bool
        ensures { result ≡ asks self flag.0 }
    {
        self.contains(flag)
    }
}
