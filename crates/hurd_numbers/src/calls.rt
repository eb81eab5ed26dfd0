//! Which call numbers and bytes make.
ghost use Rattle.std.specs.Prelude.{◌≡◌, option_and_then, option_map};
ghost use Rattle.hurd_words.specs.Reading.{Reads, said};
ghost use Rattle.hurd_machine.specs.Calls.{call_by};
ghost use Rattle.hurd_machine.specs.declared.call.Call.TheVariants as call;
ghost use Rattle.hurd_machine.specs.declared.call.PlainCall.TheVariants as plain;
ghost use Rattle.hurd_lists.specs.Arguments.{ReadsInPlace, within_limits};
ghost use Rattle.hurd_lists.specs.Calls.{begun};
ghost use Rattle.hurd_lists.specs.Lists.{listed_by};
ghost use Rattle.hurd_numbers.specs.Calls.{begun_by, box_at, call_at, numbered, passive_words, rename, server_at, set_translator, setting_at, verb_at};
ghost use Rattle.hurd_numbers.specs.Words.{words_in};

use crate::flags::{goaway_flags, mode, open_flags, trans_flags, whence};
use crate::words::{after_first, begun_words, first_of, ids_at, server_words, words_in};
use hurd_creds::{Bytes, TaskId};
use hurd_lists::{ListedCall, Verb};
use hurd_machine::{Call, PlainCall, Setting};
use hurd_trans_iface::{Server, Words};
use hurd_words::fault::ReadFault;
use std::alloc::Global;

/// The numbers of a call. Those that a call has no use for are not looked at.
#[repr(C)]
#[derive(Clone, Copy, Debug)]
pub struct Numbers {
    /// The task that makes it.
    pub task: u32,
    /// Which call, from 1 for `port_deallocate` to 37 for `dir_rename`, in the order of `Verb`.
    pub call: u32,
    /// The port that is called: of the directory, the file or the server.
    pub port: u64,
    /// A second port: the other of `io_identity`, the file of `dir_link`, the new directory of `dir_rename`, the directory of `fsys_getroot`.
    pub other: u64,
    /// How many bytes to read at most; the size of `file_set_size`; how long the first name of `dir_rename` is; how many of the words of
    /// `file_set_translator` are the passive translator's, if it brings a server too.
    pub amount: u64,
    /// The offset of `io_read`, `io_write` and `io_seek`; -1 is the cursor in the first two.
    pub offset: i64,
    /// Flags of opening; from where `io_seek` counts: 0 the beginning, 1 the cursor, 2 the end; flags of the passive translator.
    pub flags: u32,
    /// The mode of a file.
    pub mode: u32,
    /// The owner and the group of `file_chown`.
    pub owner: u32,
    pub group: u32,
    /// The task that `port_send` sends to.
    pub to: u32,
    /// Flags of the active translator of `file_set_translator`.
    pub active: u32,
    /// Flags by which a server goes: of `file_set_translator` and `fsys_goaway`.
    pub goaway: u32,
    /// Whether `file_set_translator` brings a server: 0 if it doesn't.
    pub brings: u32,
}

/// The call of a number.
pub(crate) fn verb_at(number: u32) -> Option<Verb>
    ensures { result ≡ verb_at number }
{
    match number {
        1 => Some(Verb::PortDeallocate),
        2 => Some(Verb::PortSend),
        3 => Some(Verb::PortReceive),
        4 => Some(Verb::AuthMakeauth),
        5 => Some(Verb::IoRead),
        6 => Some(Verb::IoWrite),
        7 => Some(Verb::IoSeek),
        8 => Some(Verb::IoStat),
        9 => Some(Verb::IoReadable),
        10 => Some(Verb::IoGetOpenmodes),
        11 => Some(Verb::IoSetAllOpenmodes),
        12 => Some(Verb::IoDuplicate),
        13 => Some(Verb::IoReauthenticate),
        14 => Some(Verb::IoRestrictAuth),
        15 => Some(Verb::IoIdentity),
        16 => Some(Verb::FileChmod),
        17 => Some(Verb::FileChown),
        18 => Some(Verb::FileSetSize),
        19 => Some(Verb::FileCheckAccess),
        20 => Some(Verb::FileSetTranslator),
        21 => Some(Verb::FileGetTranslator),
        22 => Some(Verb::FileGetTranslatorCntl),
        23 => Some(Verb::FileGetcontrol),
        24 => Some(Verb::FsysStartup),
        25 => Some(Verb::StartFailed),
        26 => Some(Verb::FsysGetroot),
        27 => Some(Verb::FsysGoaway),
        28 => Some(Verb::FsysGetOptions),
        29 => Some(Verb::FsysSetOptions),
        30 => Some(Verb::DirLookup),
        31 => Some(Verb::DirReaddir),
        32 => Some(Verb::DirMkdir),
        33 => Some(Verb::DirMkfile),
        34 => Some(Verb::DirRmdir),
        35 => Some(Verb::DirUnlink),
        36 => Some(Verb::DirLink),
        37 => Some(Verb::DirRename),
        _ => None,
    }
}

/// What is asked for where a translator is set.
fn setting(numbers: &Numbers) -> Result<Setting, ReadFault>
    ensures { ReadsInPlace (λ s. s) (setting_at numbers.now) result }
{
    let passive = trans_flags(numbers.flags)?;
    let active = trans_flags(numbers.active)?;
    let goaway = goaway_flags(numbers.goaway)?;
    Ok(Setting {
        passive,
        active,
        goaway,
    })
}

/// The words of the passive translator: all, or the first, if a server is brought too.
fn passive<'a>(numbers: &Numbers, words: &'a [&'a [u8]]) -> Result<&'a [&'a [u8]], ReadFault>
    ensures { ReadsInPlace (λ w. said w.now) (passive_words numbers.now (said words.entry.now)) result }
{
    if numbers.brings == 0 {
        Ok(words)
    } else {
        first_of(words, numbers.amount)
    }
}

/// Sets a translator, without the server that is brought.
fn set_translator<S: Server>(
    alloc: Global,
    numbers: &Numbers,
    bytes: &[u8],
) -> Result<Call<S>, ReadFault>
    ensures { Reads (λ c. call_by S.meaning c) (set_translator numbers.now bytes.now) result }
{
    let setting = setting(numbers)?;
    let given = words_in(alloc, bytes)?;
    let first = passive(numbers, given.as_slice())?;
    let words = server_words(alloc, first)?;
    Ok(Call::FileSetTranslator {
        port: numbers.port,
        setting,
        words,
        server: None,
    })
}

/// Renames an entry: the bytes are its name, and after so many its new one.
fn rename<S: Server>(alloc: Global, numbers: &Numbers, bytes: &[u8]) -> Result<Call<S>, ReadFault>
    ensures { Reads (λ c. call_by S.meaning c) (rename numbers.now bytes.now) result }
{
    if numbers.amount > bytes.len() as u64 {
        return Err(ReadFault::Bad);
    }
    let (name, new) = bytes.split_at(numbers.amount as usize);
    Ok(Call::Plain(PlainCall::DirRename {
        dir: numbers.port,
        name: Bytes::copied(alloc, name)?,
        to: numbers.other,
        new: Bytes::copied(alloc, new)?,
    }))
}

/// Gives words to a server.
fn set_options<S: Server>(alloc: Global, control: u64, bytes: &[u8]) -> Result<Call<S>, ReadFault>
    ensures { Reads (λ c. call_by S.meaning c) (option_map (λ words. call.Plain (plain.FsysSetOptions control words)) (option_and_then within_limits (words_in bytes.now))) result }
{
    let given = words_in(alloc, bytes)?;
    let words = server_words(alloc, given.as_slice())?;
    Ok(Call::Plain(PlainCall::FsysSetOptions { control, words }))
}

/// The call of numbers and bytes, without a server that it may bring.
fn call_at<S: Server>(
    alloc: Global,
    verb: Verb,
    numbers: &Numbers,
    bytes: &[u8],
) -> Result<Call<S>, ReadFault>
    ensures { Reads (λ c. call_by S.meaning c) (call_at verb numbers.now bytes.now) result }
{
    let port = numbers.port;
    let call = match verb {
        Verb::FileSetTranslator => return set_translator(alloc, numbers, bytes),
        Verb::FsysSetOptions => return set_options(alloc, port, bytes),
        Verb::DirRename => return rename(alloc, numbers, bytes),
        Verb::PortDeallocate => PlainCall::PortDeallocate { port },
        Verb::PortSend => PlainCall::PortSend {
            port,
            to: TaskId(numbers.to),
        },
        Verb::PortReceive => PlainCall::PortReceive,
        Verb::AuthMakeauth => PlainCall::AuthMakeauth {
            ids: ids_at(alloc, bytes)?,
        },
        Verb::IoRead => PlainCall::IoRead {
            port,
            amount: numbers.amount,
            offset: numbers.offset,
        },
        Verb::IoWrite => PlainCall::IoWrite {
            port,
            bytes: Bytes::copied(alloc, bytes)?,
            offset: numbers.offset,
        },
        Verb::IoSeek => PlainCall::IoSeek {
            port,
            offset: numbers.offset,
            whence: whence(numbers.flags)?,
        },
        Verb::IoStat => PlainCall::IoStat { port },
        Verb::IoReadable => PlainCall::IoReadable { port },
        Verb::IoGetOpenmodes => PlainCall::IoGetOpenmodes { port },
        Verb::IoSetAllOpenmodes => PlainCall::IoSetAllOpenmodes {
            port,
            flags: open_flags(numbers.flags)?,
        },
        Verb::IoDuplicate => PlainCall::IoDuplicate { port },
        Verb::IoReauthenticate => PlainCall::IoReauthenticate { port },
        Verb::IoRestrictAuth => PlainCall::IoRestrictAuth {
            port,
            ids: ids_at(alloc, bytes)?,
        },
        Verb::IoIdentity => PlainCall::IoIdentity {
            port,
            other: numbers.other,
        },
        Verb::FileChmod => PlainCall::FileChmod {
            port,
            mode: mode(numbers.mode),
        },
        Verb::FileChown => PlainCall::FileChown {
            port,
            owner: numbers.owner,
            group: numbers.group,
        },
        Verb::FileSetSize => PlainCall::FileSetSize {
            port,
            size: numbers.amount,
        },
        Verb::FileCheckAccess => PlainCall::FileCheckAccess { port },
        Verb::FileGetTranslator => PlainCall::FileGetTranslator { port },
        Verb::FileGetTranslatorCntl => PlainCall::FileGetTranslatorCntl { port },
        Verb::FileGetcontrol => PlainCall::FileGetcontrol { port },
        Verb::FsysStartup | Verb::StartFailed => PlainCall::StartFailed,
        Verb::FsysGetroot => PlainCall::FsysGetroot {
            control: port,
            dir: numbers.other,
            flags: open_flags(numbers.flags)?,
        },
        Verb::FsysGoaway => PlainCall::FsysGoaway {
            control: port,
            flags: goaway_flags(numbers.goaway)?,
        },
        Verb::FsysGetOptions => PlainCall::FsysGetOptions { control: port },
        Verb::DirLookup => PlainCall::DirLookup {
            dir: port,
            path: Bytes::copied(alloc, bytes)?,
            flags: open_flags(numbers.flags)?,
            mode: mode(numbers.mode),
        },
        Verb::DirReaddir => PlainCall::DirReaddir { port },
        Verb::DirMkdir => PlainCall::DirMkdir {
            dir: port,
            name: Bytes::copied(alloc, bytes)?,
            mode: mode(numbers.mode),
        },
        Verb::DirMkfile => PlainCall::DirMkfile {
            dir: port,
            flags: open_flags(numbers.flags)?,
            mode: mode(numbers.mode),
        },
        Verb::DirRmdir => PlainCall::DirRmdir {
            dir: port,
            name: Bytes::copied(alloc, bytes)?,
        },
        Verb::DirUnlink => PlainCall::DirUnlink {
            dir: port,
            name: Bytes::copied(alloc, bytes)?,
        },
        Verb::DirLink => PlainCall::DirLink {
            dir: port,
            name: Bytes::copied(alloc, bytes)?,
            file: numbers.other,
        },
    };
    Ok(Call::Plain(call))
}

/// The words of the server that a translator is set with, if one is brought.
fn box_at(alloc: Global, numbers: &Numbers, bytes: &[u8]) -> Result<Option<Words>, ReadFault>
    ensures { Reads begun (box_at numbers.now bytes.now) result }
{
    if numbers.brings == 0 {
        return Ok(None);
    }
    let given = words_in(alloc, bytes)?;
    let words = after_first(given.as_slice(), numbers.amount)?;
    Ok(Some(begun_words(alloc, words)?))
}

/// The words of the server that is started.
fn started_at(alloc: Global, bytes: &[u8]) -> Result<Option<Words>, ReadFault>
    ensures { Reads begun (begun_by (words_in bytes.now)) result }
{
    let given = words_in(alloc, bytes)?;
    Ok(Some(begun_words(alloc, given.as_slice())?))
}

/// The words of the server that a call brings, if it brings one.
fn server_at(
    alloc: Global,
    verb: Verb,
    numbers: &Numbers,
    bytes: &[u8],
) -> Result<Option<Words>, ReadFault>
    ensures { Reads begun (server_at verb numbers.now bytes.now) result }
{
    match verb {
        Verb::FileSetTranslator => box_at(alloc, numbers, bytes),
        Verb::FsysStartup => started_at(alloc, bytes),
        _ => Ok(None),
    }
}

/// The call of numbers and bytes, with the task that makes it and the words of a server that it brings. It has no line.
///
/// The bytes are the data of `io_write`, the path of `dir_lookup`, the name of an entry; of `dir_rename` its name and then the new one; the words of
/// `file_set_translator`, `fsys_startup` and `fsys_set_options`, each ended by a zero byte; and of `auth_makeauth` and `io_restrict_auth` two such words,
/// uids and gids with commas between them, or `-` for none.
///
/// Errors, in order: `Bad` if there is no such call, if it has bits that no flag has, or bytes that are not of this form, or if no kind of server takes
/// its words; `Memory` at any point.
pub fn call_of<S: Server>(
    alloc: Global,
    numbers: &Numbers,
    bytes: &[u8],
) -> Result<ListedCall<S>, ReadFault>
    ensures { Reads (listed_by S.meaning) (numbered numbers.now bytes.now) result }
{
    let Some(verb) = verb_at(numbers.call) else {
        return Err(ReadFault::Bad);
    };
    let call = call_at(alloc, verb, numbers, bytes)?;
    let server = server_at(alloc, verb, numbers, bytes)?;
    Ok(ListedCall {
        task: TaskId(numbers.task),
        call,
        line: Bytes::new(Vec::new(alloc)),
        server,
    })
}
