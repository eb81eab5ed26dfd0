//! The bits of a mode that decide, by whose they are; and flags for what is allowed.
ghost use Rattle.std.specs.Prelude.{◌≡◌};
ghost use Rattle.hurd_creds.specs.Access.{owner_bit, group_bit, others_bit, unknown_bit, bars_exec, flag_if};

use crate::attrs::{Attrs, Kind, Want};
use crate::mode::Mode;
use crate::open_flags::OpenFlags;
use bitflags::Flags;

/// The owner's bit.
pub(crate) fn owner_bit(want: Want) -> Mode
    ensures { result.0 ≡ owner_bit want }
{
    match want {
        Want::Read => Mode::OWNER_READ,
        Want::Write => Mode::OWNER_WRITE,
        Want::Exec => Mode::OWNER_EXEC,
    }
}

/// The group's bit.
pub fn group_bit(want: Want) -> Mode
    ensures { result.0 ≡ group_bit want }
{
    match want {
        Want::Read => Mode::GROUP_READ,
        Want::Write => Mode::GROUP_WRITE,
        Want::Exec => Mode::GROUP_EXEC,
    }
}

/// The others' bit.
pub fn others_bit(want: Want) -> Mode
    ensures { result.0 ≡ others_bit want }
{
    match want {
        Want::Read => Mode::OTHERS_READ,
        Want::Write => Mode::OTHERS_WRITE,
        Want::Exec => Mode::OTHERS_EXEC,
    }
}

/// The bit of those who hold no uid.
pub fn unknown_bit(want: Want) -> Mode
    ensures { result.0 ≡ unknown_bit want }
{
    match want {
        Want::Read => Mode::UNKNOWN_READ,
        Want::Write => Mode::UNKNOWN_WRITE,
        Want::Exec => Mode::UNKNOWN_EXEC,
    }
}

/// Whether this is to execute a file that nobody may execute, not even root.
pub(crate) fn bars_exec(attrs: &Attrs, want: Want) -> bool
    ensures { result ≡ bars_exec attrs.now.kind attrs.now.mode.0 want }
{
    match (attrs.kind, want) {
        (Kind::File, Want::Exec) => !attrs.mode.has_exec(),
        _ => false,
    }
}

/// This flag where the test holds, else none.
pub(crate) fn flag_if(flag: OpenFlags, test: bool) -> OpenFlags
    ensures { result.0 ≡ flag_if flag.0 test }
{
    if test { flag } else { OpenFlags::empty() }
}
