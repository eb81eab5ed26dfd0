//! Flags of setting a translator, and of sending one away.
ghost use Rattle.std.specs.Prelude.{⊤, ◌≡◌, [], ◌∷◌, codes};
ghost use Rattle.hurd_creds.specs.TransBits.{asks_goaway, asks_trans, known_goaway_flags, known_trans_flags};

use bitflags::{Flag, Flags, bitflag_items};

/// What a translator is set for (`FS_TRANS_SET`, `FS_TRANS_EXCL` and `FS_TRANS_ORPHAN` of `hurd_types.h`).
#[derive(Clone, Copy, PartialEq, Eq, Debug)]
pub struct TransFlags(u8);

bitflag_items! {
    impl TransFlags: u8 {
        const SET = 1;
        const EXCL = 2;
        const ORPHAN = 4;
    }
}

impl Flags for TransFlags {
    type Bits = u8;

    ghost exact = { ⊤ };

    ghost table = { (codes "SET", 1) ∷ (codes "EXCL", 2) ∷ (codes "ORPHAN", 4) ∷ [] };

    ghost set_of = { λ f. f.0 };

    fn flags<'a>() -> &'a [Flag<TransFlags>] {
        TransFlags::FLAGS
    }

    fn bits(&self) -> u8 {
        self.0
    }

    fn from_bits_retain(bits: u8) -> TransFlags {
        TransFlags(bits)
    }
}

impl TransFlags {
    /// The known ones of these bits.
    pub fn from_bits_truncate(bits: u8) -> TransFlags
        ensures { result ≡ known_trans_flags (record { 0 = bits }) }
    {
        <TransFlags as Flags>::from_bits_truncate(bits)
    }

    /// Whether this flag is among these.
    pub fn asks(self, flag: TransFlags) -> bool
        ensures { result ≡ asks_trans self flag.0 }
    {
        self.contains(flag)
    }
}

/// How a server is sent away (`FSYS_GOAWAY_FORCE`, `FSYS_GOAWAY_NOSYNC` and `FSYS_GOAWAY_NOWAIT` of `hurd_types.h`); the last
/// two have no effect.
#[derive(Clone, Copy, PartialEq, Eq, Debug)]
pub struct GoawayFlags(u8);

bitflag_items! {
    impl GoawayFlags: u8 {
        const FORCE = 1;
        const NOSYNC = 2;
        const NOWAIT = 4;
    }
}

impl Flags for GoawayFlags {
    type Bits = u8;

    ghost exact = { ⊤ };

    ghost table = { (codes "FORCE", 1) ∷ (codes "NOSYNC", 2) ∷ (codes "NOWAIT", 4) ∷ [] };

    ghost set_of = { λ f. f.0 };

    fn flags<'a>() -> &'a [Flag<GoawayFlags>] {
        GoawayFlags::FLAGS
    }

    fn bits(&self) -> u8 {
        self.0
    }

    fn from_bits_retain(bits: u8) -> GoawayFlags {
        GoawayFlags(bits)
    }
}

impl GoawayFlags {
    /// The known ones of these bits.
    pub fn from_bits_truncate(bits: u8) -> GoawayFlags
        ensures { result ≡ known_goaway_flags (record { 0 = bits }) }
    {
        <GoawayFlags as Flags>::from_bits_truncate(bits)
    }

    /// Whether this flag is among these.
    pub fn asks(self, flag: GoawayFlags) -> bool
        ensures { result ≡ asks_goaway self flag.0 }
    {
        self.contains(flag)
    }
}
