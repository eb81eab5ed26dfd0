//! Whether two calls are the same.
ghost use Rattle.std.specs.Prelude.{◌≡◌, IsTrue};
ghost use Rattle.hurd_machine.specs.Calls.{call_by};

use hurd_creds::Same;
use hurd_machine::{Call, PlainCall};
use hurd_trans_iface::{Server, Words};

/// Whether two calls on one port are the same.
fn same_on_port(one: &PlainCall, other: &PlainCall) -> bool
    ensures { IsTrue result → one.now ≡ other.now }
{
    match (one, other) {
        (PlainCall::PortDeallocate { port: a_port }, PlainCall::PortDeallocate { port: b_port }) =>
            *a_port == *b_port,
        (PlainCall::PortReceive, PlainCall::PortReceive) => true,
        (PlainCall::StartFailed, PlainCall::StartFailed) => true,
        (PlainCall::IoStat { port: a_port }, PlainCall::IoStat { port: b_port }) => *a_port
            == *b_port,
        (PlainCall::IoReadable { port: a_port }, PlainCall::IoReadable { port: b_port }) => *a_port
            == *b_port,
        (PlainCall::IoGetOpenmodes { port: a_port }, PlainCall::IoGetOpenmodes { port: b_port }) =>
            *a_port == *b_port,
        (PlainCall::IoDuplicate { port: a_port }, PlainCall::IoDuplicate { port: b_port }) =>
            *a_port == *b_port,
        (
            PlainCall::IoReauthenticate { port: a_port },
            PlainCall::IoReauthenticate { port: b_port },
        ) => *a_port == *b_port,
        (
            PlainCall::FileCheckAccess { port: a_port },
            PlainCall::FileCheckAccess { port: b_port },
        ) => *a_port == *b_port,
        (
            PlainCall::FileGetTranslator { port: a_port },
            PlainCall::FileGetTranslator { port: b_port },
        ) => *a_port == *b_port,
        (
            PlainCall::FileGetTranslatorCntl { port: a_port },
            PlainCall::FileGetTranslatorCntl { port: b_port },
        ) => *a_port == *b_port,
        (PlainCall::FileGetcontrol { port: a_port }, PlainCall::FileGetcontrol { port: b_port }) =>
            *a_port == *b_port,
        (
            PlainCall::FsysGetOptions { control: a_control },
            PlainCall::FsysGetOptions { control: b_control },
        ) => *a_control == *b_control,
        (PlainCall::DirReaddir { port: a_port }, PlainCall::DirReaddir { port: b_port }) => *a_port
            == *b_port,
        _ => false,
    }
}

/// Whether two calls that bring ids, bytes or numbers to a port are the same.
fn same_on_file(one: &PlainCall, other: &PlainCall) -> bool
    ensures { IsTrue result → one.now ≡ other.now }
{
    match (one, other) {
        (
            PlainCall::PortSend {
                port: a_port,
                to: a_to,
            },
            PlainCall::PortSend {
                port: b_port,
                to: b_to,
            },
        ) => *a_port == *b_port && *a_to == *b_to,
        (PlainCall::AuthMakeauth { ids: a_ids }, PlainCall::AuthMakeauth { ids: b_ids }) =>
            a_ids.is_same(b_ids),
        (
            PlainCall::IoRead {
                port: a_port,
                amount: a_amount,
                offset: a_offset,
            },
            PlainCall::IoRead {
                port: b_port,
                amount: b_amount,
                offset: b_offset,
            },
        ) => *a_port == *b_port && *a_amount == *b_amount && *a_offset == *b_offset,
        (
            PlainCall::IoWrite {
                port: a_port,
                bytes: a_bytes,
                offset: a_offset,
            },
            PlainCall::IoWrite {
                port: b_port,
                bytes: b_bytes,
                offset: b_offset,
            },
        ) => *a_port == *b_port && a_bytes.same(b_bytes) && *a_offset == *b_offset,
        (
            PlainCall::IoSeek {
                port: a_port,
                offset: a_offset,
                whence: a_whence,
            },
            PlainCall::IoSeek {
                port: b_port,
                offset: b_offset,
                whence: b_whence,
            },
        ) => *a_port == *b_port && *a_offset == *b_offset && *a_whence == *b_whence,
        (
            PlainCall::IoSetAllOpenmodes {
                port: a_port,
                flags: a_flags,
            },
            PlainCall::IoSetAllOpenmodes {
                port: b_port,
                flags: b_flags,
            },
        ) => *a_port == *b_port && *a_flags == *b_flags,
        (
            PlainCall::IoRestrictAuth {
                port: a_port,
                ids: a_ids,
            },
            PlainCall::IoRestrictAuth {
                port: b_port,
                ids: b_ids,
            },
        ) => *a_port == *b_port && a_ids.is_same(b_ids),
        (
            PlainCall::IoIdentity {
                port: a_port,
                other: a_other,
            },
            PlainCall::IoIdentity {
                port: b_port,
                other: b_other,
            },
        ) => *a_port == *b_port && *a_other == *b_other,
        (
            PlainCall::FileSetSize {
                port: a_port,
                size: a_size,
            },
            PlainCall::FileSetSize {
                port: b_port,
                size: b_size,
            },
        ) => *a_port == *b_port && *a_size == *b_size,
        (
            PlainCall::FileChmod {
                port: a_port,
                mode: a_mode,
            },
            PlainCall::FileChmod {
                port: b_port,
                mode: b_mode,
            },
        ) => *a_port == *b_port && *a_mode == *b_mode,
        (
            PlainCall::FileChown {
                port: a_port,
                owner: a_owner,
                group: a_group,
            },
            PlainCall::FileChown {
                port: b_port,
                owner: b_owner,
                group: b_group,
            },
        ) => *a_port == *b_port && *a_owner == *b_owner && *a_group == *b_group,
        _ => false,
    }
}

/// Whether two calls on directories and servers are the same.
fn same_on_directory(one: &PlainCall, other: &PlainCall) -> bool
    ensures { IsTrue result → one.now ≡ other.now }
{
    match (one, other) {
        (
            PlainCall::DirLookup {
                dir: a_dir,
                path: a_path,
                flags: a_flags,
                mode: a_mode,
            },
            PlainCall::DirLookup {
                dir: b_dir,
                path: b_path,
                flags: b_flags,
                mode: b_mode,
            },
        ) => *a_dir == *b_dir && a_path.same(b_path) && *a_flags == *b_flags && *a_mode == *b_mode,
        (
            PlainCall::FsysGetroot {
                control: a_control,
                dir: a_dir,
                flags: a_flags,
            },
            PlainCall::FsysGetroot {
                control: b_control,
                dir: b_dir,
                flags: b_flags,
            },
        ) => *a_control == *b_control && *a_dir == *b_dir && *a_flags == *b_flags,
        (
            PlainCall::FsysGoaway {
                control: a_control,
                flags: a_flags,
            },
            PlainCall::FsysGoaway {
                control: b_control,
                flags: b_flags,
            },
        ) => *a_control == *b_control && *a_flags == *b_flags,
        (
            PlainCall::FsysSetOptions {
                control: a_control,
                words: a_words,
            },
            PlainCall::FsysSetOptions {
                control: b_control,
                words: b_words,
            },
        ) => *a_control == *b_control && a_words.is_same(b_words),
        (
            PlainCall::DirMkdir {
                dir: a_dir,
                name: a_name,
                mode: a_mode,
            },
            PlainCall::DirMkdir {
                dir: b_dir,
                name: b_name,
                mode: b_mode,
            },
        ) => *a_dir == *b_dir && a_name.same(b_name) && *a_mode == *b_mode,
        (
            PlainCall::DirMkfile {
                dir: a_dir,
                flags: a_flags,
                mode: a_mode,
            },
            PlainCall::DirMkfile {
                dir: b_dir,
                flags: b_flags,
                mode: b_mode,
            },
        ) => *a_dir == *b_dir && *a_flags == *b_flags && *a_mode == *b_mode,
        (
            PlainCall::DirRmdir {
                dir: a_dir,
                name: a_name,
            },
            PlainCall::DirRmdir {
                dir: b_dir,
                name: b_name,
            },
        ) => *a_dir == *b_dir && a_name.same(b_name),
        (
            PlainCall::DirUnlink {
                dir: a_dir,
                name: a_name,
            },
            PlainCall::DirUnlink {
                dir: b_dir,
                name: b_name,
            },
        ) => *a_dir == *b_dir && a_name.same(b_name),
        (
            PlainCall::DirLink {
                dir: a_dir,
                name: a_name,
                file: a_file,
            },
            PlainCall::DirLink {
                dir: b_dir,
                name: b_name,
                file: b_file,
            },
        ) => *a_dir == *b_dir && a_name.same(b_name) && *a_file == *b_file,
        (
            PlainCall::DirRename {
                dir: a_dir,
                name: a_name,
                to: a_to,
                new: a_new,
            },
            PlainCall::DirRename {
                dir: b_dir,
                name: b_name,
                to: b_to,
                new: b_new,
            },
        ) => *a_dir == *b_dir && a_name.same(b_name) && *a_to == *b_to && a_new.same(b_new),
        _ => false,
    }
}

/// Whether two calls that bring no server are the same.
fn same_plain(one: &PlainCall, other: &PlainCall) -> bool
    ensures { IsTrue result → one.now ≡ other.now }
{
    same_on_port(one, other) || same_on_file(one, other) || same_on_directory(one, other)
}

/// Whether two calls, neither with a server in it, are the same.
pub(crate) fn same_call<S: Server>(one: &Call<S>, other: &Call<S>) -> bool
    ensures { IsTrue result → call_by S.meaning one.now ≡ call_by S.meaning other.now }
{
    match (one, other) {
        (Call::Plain(one), Call::Plain(other)) => same_plain(one, other),
        (
            Call::FileSetTranslator {
                port: a_port,
                setting: a_setting,
                words: a_words,
                server: None,
            },
            Call::FileSetTranslator {
                port: b_port,
                setting: b_setting,
                words: b_words,
                server: None,
            },
        ) => *a_port == *b_port && *a_setting == *b_setting && a_words.is_same(b_words),
        _ => false,
    }
}

/// Whether the words of servers are the same.
pub(crate) fn same_server(one: &Option<Words>, other: &Option<Words>) -> bool
    ensures { IsTrue result → one.now ≡ other.now }
{
    match (one, other) {
        (Some(one), Some(other)) => one.is_same(other),
        (None, None) => true,
        _ => false,
    }
}
