//! The flags that commands open nodes with, and set translators with.
ghost use Rattle.std.specs.Prelude.{◌≡◌};
ghost use Rattle.hurd_shell.specs.Commands as written;

use bitflags::Flags;
use hurd_creds::{GoawayFlags, OpenFlags, TransFlags};
use hurd_machine::Setting;
use hurd_script::SettransFlags;

/// The flags of a directory's opening.
pub(crate) fn to_list() -> OpenFlags
    ensures { result ≡ written.to_list }
{
    OpenFlags::READ.union(OpenFlags::DIRECTORY)
}

/// The flags of the opening of a file that is written, and made where it isn't there.
pub(crate) fn to_write() -> OpenFlags
    ensures { result ≡ written.to_write }
{
    OpenFlags::WRITE.union(OpenFlags::CREATE)
}

/// The flags of the opening of a node that is changed itself.
pub(crate) fn to_change() -> OpenFlags
    ensures { result ≡ written.to_change }
{
    OpenFlags::NOTRANS.union(OpenFlags::NOLINK)
}

/// The flags of the opening of a directory whose entries are changed.
pub(crate) fn to_enter() -> OpenFlags
    ensures { result ≡ written.to_enter }
{
    OpenFlags::DIRECTORY
}

/// The flags of the opening of a node whose server is asked or told something.
pub(crate) fn to_control() -> OpenFlags
    ensures { result ≡ written.to_control }
{
    OpenFlags::from_bits_truncate(0)
}

/// The flags of the opening of a node whose translator is set.
pub(crate) fn to_set(flags: SettransFlags) -> OpenFlags
    ensures { result ≡ written.to_set flags }
{
    if flags.create {
        OpenFlags::NOTRANS.union(OpenFlags::CREATE)
    } else {
        OpenFlags::NOTRANS
    }
}

/// A half of a translator that is set.
fn set_half(exclusive: bool, orphan: bool) -> TransFlags
    ensures { result ≡ written.set_half exclusive orphan }
{
    match (exclusive, orphan) {
        (false, false) => TransFlags::SET,
        (true, false) => TransFlags::SET.union(TransFlags::EXCL),
        (false, true) => TransFlags::SET.union(TransFlags::ORPHAN),
        (true, true) => TransFlags::SET
            .union(TransFlags::EXCL)
            .union(TransFlags::ORPHAN),
    }
}

/// A half that is left alone.
fn no_half() -> TransFlags
    ensures { result ≡ written.no_half }
{
    TransFlags::from_bits_truncate(0)
}

/// The passive half.
fn passive_half(flags: SettransFlags) -> TransFlags
    ensures { result ≡ written.passive_half flags }
{
    if flags.passive || !flags.active {
        set_half(flags.exclusive, false)
    } else {
        no_half()
    }
}

/// The active half.
fn active_half(flags: SettransFlags) -> TransFlags
    ensures { result ≡ written.active_half flags }
{
    if flags.active {
        set_half(flags.exclusive, flags.orphan)
    } else if flags.goaway || flags.orphan {
        set_half(false, flags.orphan)
    } else if flags.keep {
        no_half()
    } else {
        set_half(true, false)
    }
}

/// How an old server goes.
fn old_goes(flags: SettransFlags) -> GoawayFlags
    ensures { result ≡ written.old_goes flags }
{
    if flags.force {
        GoawayFlags::FORCE
    } else {
        GoawayFlags::from_bits_truncate(0)
    }
}

/// What `settrans` asks for.
pub(crate) fn setting_of(flags: SettransFlags) -> Setting
    ensures { result ≡ written.setting_of flags }
{
    Setting {
        passive: passive_half(flags),
        active: active_half(flags),
        goaway: old_goes(flags),
    }
}
