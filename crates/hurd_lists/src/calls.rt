//! Which calls names and arguments make.
ghost use Rattle.std.specs.Prelude.{◌≡◌, IfSome, Some, option_and_then, option_map};
ghost use Rattle.hurd_words.specs.Reading.{Reads};
ghost use Rattle.hurd_trans_iface.specs.Meaning.{Begins, begin};
ghost use Rattle.hurd_machine.specs.Calls.{BringsBegun, call_by, start_call};
ghost use Rattle.hurd_lists.specs.Arguments.{ReadsInPlace, server_words};
ghost use Rattle.hurd_lists.specs.Calls.{auth_makeauth, before_box, begun, behind_box, box_place, call_of, dir_link, dir_lookup, dir_mkdir, dir_mkfile, dir_rename, dir_rmdir, dir_unlink, entry, file_chmod, file_chown, file_set_size, file_set_translator, fsys_getroot, fsys_goaway, fsys_set_options, fsys_startup, io_identity, io_read, io_restrict_auth, io_seek, io_set_all_openmodes, io_write, lone, pair, port_receive, port_send, server_of, setting_of, start_failed, with_server};

use crate::arguments::{
    bytes, goaway_flags, ids, long_number, mode, number, offset, open_flags, server_words, task,
    trans_flags, whence,
};
use crate::verb::Verb;
use hurd_creds::Bytes;
use hurd_machine::{Call, PlainCall, Setting};
use hurd_trans_iface::{Server, Words, words_ok};
use hurd_words::fault::ReadFault;
use std::alloc::Global;

/// A lone port.
fn lone(args: &[Bytes]) -> Result<u64, ReadFault>
    ensures { ReadsInPlace (λ n. n) (lone args.now) result }
{
    let [port] = args else {
        return Err(ReadFault::Bad);
    };
    long_number(port.as_slice())
}

/// A port and a number.
fn pair(args: &[Bytes]) -> Result<(u64, u64), ReadFault>
    ensures { ReadsInPlace (λ p. p) (pair args.now) result }
{
    let [port, amount] = args else {
        return Err(ReadFault::Bad);
    };
    let port = long_number(port.as_slice())?;
    Ok((port, long_number(amount.as_slice())?))
}

/// A directory, and a name in it.
fn entry(alloc: Global, args: &[Bytes]) -> Result<(u64, Bytes), ReadFault>
    ensures { Reads (λ p. p) (entry args.now) result }
{
    let [dir, name] = args else {
        return Err(ReadFault::Bad);
    };
    let dir = long_number(dir.as_slice())?;
    Ok((dir, bytes(alloc, name.as_slice())?))
}

/// `PORT TASK`.
fn port_send<S: Server>(args: &[Bytes]) -> Result<Call<S>, ReadFault>
    ensures { ReadsInPlace (λ c. call_by S.meaning c) (port_send args.now) result }
{
    let [port, to] = args else {
        return Err(ReadFault::Bad);
    };
    let port = long_number(port.as_slice())?;
    let to = task(to.as_slice())?;
    Ok(Call::Plain(PlainCall::PortSend { port, to }))
}

/// No argument.
fn port_receive<S: Server>(args: &[Bytes]) -> Result<Call<S>, ReadFault>
    ensures { ReadsInPlace (λ c. call_by S.meaning c) (port_receive args.now) result }
{
    if args.is_empty() {
        Ok(Call::Plain(PlainCall::PortReceive))
    } else {
        Err(ReadFault::Bad)
    }
}

/// No argument.
fn start_failed<S: Server>(args: &[Bytes]) -> Result<Call<S>, ReadFault>
    ensures { ReadsInPlace (λ c. call_by S.meaning c) (start_failed args.now) result }
{
    if args.is_empty() {
        Ok(Call::Plain(PlainCall::StartFailed))
    } else {
        Err(ReadFault::Bad)
    }
}

/// `UIDS GIDS`.
fn auth_makeauth<S: Server>(alloc: Global, args: &[Bytes]) -> Result<Call<S>, ReadFault>
    ensures { Reads (λ c. call_by S.meaning c) (auth_makeauth args.now) result }
{
    let [uids, gids] = args else {
        return Err(ReadFault::Bad);
    };
    let ids = ids(alloc, uids.as_slice(), gids.as_slice())?;
    Ok(Call::Plain(PlainCall::AuthMakeauth { ids }))
}

/// `PORT AMOUNT OFFSET`.
fn io_read<S: Server>(args: &[Bytes]) -> Result<Call<S>, ReadFault>
    ensures { ReadsInPlace (λ c. call_by S.meaning c) (io_read args.now) result }
{
    let [port, amount, at] = args else {
        return Err(ReadFault::Bad);
    };
    let port = long_number(port.as_slice())?;
    let amount = long_number(amount.as_slice())?;
    let offset = offset(at.as_slice())?;
    Ok(Call::Plain(PlainCall::IoRead {
        port,
        amount,
        offset,
    }))
}

/// `PORT =BYTES OFFSET`.
fn io_write<S: Server>(alloc: Global, args: &[Bytes]) -> Result<Call<S>, ReadFault>
    ensures { Reads (λ c. call_by S.meaning c) (io_write args.now) result }
{
    let [port, word, at] = args else {
        return Err(ReadFault::Bad);
    };
    let port = long_number(port.as_slice())?;
    let bytes = bytes(alloc, word.as_slice())?;
    let offset = offset(at.as_slice())?;
    Ok(Call::Plain(PlainCall::IoWrite {
        port,
        bytes,
        offset,
    }))
}

/// `PORT OFFSET WHENCE`.
fn io_seek<S: Server>(args: &[Bytes]) -> Result<Call<S>, ReadFault>
    ensures { ReadsInPlace (λ c. call_by S.meaning c) (io_seek args.now) result }
{
    let [port, at, from] = args else {
        return Err(ReadFault::Bad);
    };
    let port = long_number(port.as_slice())?;
    let offset = offset(at.as_slice())?;
    let whence = whence(from.as_slice())?;
    Ok(Call::Plain(PlainCall::IoSeek {
        port,
        offset,
        whence,
    }))
}

/// `PORT FLAGS`.
fn io_set_all_openmodes<S: Server>(alloc: Global, args: &[Bytes]) -> Result<Call<S>, ReadFault>
    ensures { Reads (λ c. call_by S.meaning c) (io_set_all_openmodes args.now) result }
{
    let [port, names] = args else {
        return Err(ReadFault::Bad);
    };
    let port = long_number(port.as_slice())?;
    let flags = open_flags(alloc, names.as_slice())?;
    Ok(Call::Plain(PlainCall::IoSetAllOpenmodes { port, flags }))
}

/// `PORT UIDS GIDS`.
fn io_restrict_auth<S: Server>(alloc: Global, args: &[Bytes]) -> Result<Call<S>, ReadFault>
    ensures { Reads (λ c. call_by S.meaning c) (io_restrict_auth args.now) result }
{
    let [port, uids, gids] = args else {
        return Err(ReadFault::Bad);
    };
    let port = long_number(port.as_slice())?;
    let ids = ids(alloc, uids.as_slice(), gids.as_slice())?;
    Ok(Call::Plain(PlainCall::IoRestrictAuth { port, ids }))
}

/// `PORT MODE`.
fn file_chmod<S: Server>(args: &[Bytes]) -> Result<Call<S>, ReadFault>
    ensures { ReadsInPlace (λ c. call_by S.meaning c) (file_chmod args.now) result }
{
    let [port, digits] = args else {
        return Err(ReadFault::Bad);
    };
    let port = long_number(port.as_slice())?;
    let mode = mode(digits.as_slice())?;
    Ok(Call::Plain(PlainCall::FileChmod { port, mode }))
}

/// `PORT OWNER GROUP`.
fn file_chown<S: Server>(args: &[Bytes]) -> Result<Call<S>, ReadFault>
    ensures { ReadsInPlace (λ c. call_by S.meaning c) (file_chown args.now) result }
{
    let [port, owner, group] = args else {
        return Err(ReadFault::Bad);
    };
    let port = long_number(port.as_slice())?;
    let owner = number(owner.as_slice())?;
    let group = number(group.as_slice())?;
    Ok(Call::Plain(PlainCall::FileChown { port, owner, group }))
}

/// `DIR =PATH FLAGS MODE`.
fn dir_lookup<S: Server>(alloc: Global, args: &[Bytes]) -> Result<Call<S>, ReadFault>
    ensures { Reads (λ c. call_by S.meaning c) (dir_lookup args.now) result }
{
    let [dir, word, names, digits] = args else {
        return Err(ReadFault::Bad);
    };
    let dir = long_number(dir.as_slice())?;
    let path = bytes(alloc, word.as_slice())?;
    let flags = open_flags(alloc, names.as_slice())?;
    let mode = mode(digits.as_slice())?;
    Ok(Call::Plain(PlainCall::DirLookup {
        dir,
        path,
        flags,
        mode,
    }))
}

/// `DIR =NAME MODE`.
fn dir_mkdir<S: Server>(alloc: Global, args: &[Bytes]) -> Result<Call<S>, ReadFault>
    ensures { Reads (λ c. call_by S.meaning c) (dir_mkdir args.now) result }
{
    let [dir, word, digits] = args else {
        return Err(ReadFault::Bad);
    };
    let dir = long_number(dir.as_slice())?;
    let name = bytes(alloc, word.as_slice())?;
    let mode = mode(digits.as_slice())?;
    Ok(Call::Plain(PlainCall::DirMkdir { dir, name, mode }))
}

/// `DIR FLAGS MODE`.
fn dir_mkfile<S: Server>(alloc: Global, args: &[Bytes]) -> Result<Call<S>, ReadFault>
    ensures { Reads (λ c. call_by S.meaning c) (dir_mkfile args.now) result }
{
    let [dir, names, digits] = args else {
        return Err(ReadFault::Bad);
    };
    let dir = long_number(dir.as_slice())?;
    let flags = open_flags(alloc, names.as_slice())?;
    let mode = mode(digits.as_slice())?;
    Ok(Call::Plain(PlainCall::DirMkfile { dir, flags, mode }))
}

/// `DIR =NAME`, an empty directory.
fn dir_rmdir<S: Server>(alloc: Global, args: &[Bytes]) -> Result<Call<S>, ReadFault>
    ensures { Reads (λ c. call_by S.meaning c) (dir_rmdir args.now) result }
{
    let (dir, name) = entry(alloc, args)?;
    Ok(Call::Plain(PlainCall::DirRmdir { dir, name }))
}

/// `DIR =NAME`, a file.
fn dir_unlink<S: Server>(alloc: Global, args: &[Bytes]) -> Result<Call<S>, ReadFault>
    ensures { Reads (λ c. call_by S.meaning c) (dir_unlink args.now) result }
{
    let (dir, name) = entry(alloc, args)?;
    Ok(Call::Plain(PlainCall::DirUnlink { dir, name }))
}

/// `DIR =NAME FILEPORT`.
fn dir_link<S: Server>(alloc: Global, args: &[Bytes]) -> Result<Call<S>, ReadFault>
    ensures { Reads (λ c. call_by S.meaning c) (dir_link args.now) result }
{
    let [dir, word, file] = args else {
        return Err(ReadFault::Bad);
    };
    let dir = long_number(dir.as_slice())?;
    let name = bytes(alloc, word.as_slice())?;
    let file = long_number(file.as_slice())?;
    Ok(Call::Plain(PlainCall::DirLink { dir, name, file }))
}

/// `DIR =NAME DIR2 =NEW`.
fn dir_rename<S: Server>(alloc: Global, args: &[Bytes]) -> Result<Call<S>, ReadFault>
    ensures { Reads (λ c. call_by S.meaning c) (dir_rename args.now) result }
{
    let [dir, word, to, new] = args else {
        return Err(ReadFault::Bad);
    };
    let dir = long_number(dir.as_slice())?;
    let name = bytes(alloc, word.as_slice())?;
    let to = long_number(to.as_slice())?;
    let new = bytes(alloc, new.as_slice())?;
    Ok(Call::Plain(PlainCall::DirRename { dir, name, to, new }))
}

/// `PORT PORT`.
fn io_identity<S: Server>(args: &[Bytes]) -> Result<Call<S>, ReadFault>
    ensures { ReadsInPlace (λ c. call_by S.meaning c) (io_identity args.now) result }
{
    let (port, other) = pair(args)?;
    Ok(Call::Plain(PlainCall::IoIdentity { port, other }))
}

/// `PORT SIZE`.
fn file_set_size<S: Server>(args: &[Bytes]) -> Result<Call<S>, ReadFault>
    ensures { ReadsInPlace (λ c. call_by S.meaning c) (file_set_size args.now) result }
{
    let (port, size) = pair(args)?;
    Ok(Call::Plain(PlainCall::FileSetSize { port, size }))
}

/// Where the word `box` comes first.
fn box_place(words: &[Bytes]) -> Option<usize>
    ensures { result ≡ box_place words.now }
{
    words.iter().position(|word| word.is(b"box"))
}

/// The words before `box`, or all.
fn before_box(words: &[Bytes]) -> &[Bytes]
    ensures { result.now ≡ before_box words.now }
{
    match box_place(words) {
        Some(place) => &words[..place],
        None => words,
    }
}

/// The words after `box`, where it stands.
fn behind_box(words: &[Bytes]) -> Option<&[Bytes]>
    ensures { option_map (λ ws. ws.now) result ≡ behind_box words.now }
{
    let place = box_place(words)?;
    Some(&words[place + 1..])
}

/// What is asked for where a translator is set.
fn setting(
    alloc: Global,
    passive: &[u8],
    active: &[u8],
    goaway: &[u8],
) -> Result<Setting, ReadFault>
    ensures { Reads (λ s. s) (setting_of passive.now active.now goaway.now) result }
{
    Ok(Setting {
        passive: trans_flags(alloc, passive)?,
        active: trans_flags(alloc, active)?,
        goaway: goaway_flags(alloc, goaway)?,
    })
}

/// `PORT PASSIVE ACTIVE GOAWAY [=WORD ..] [box =WORD ..]`, without the server of the words after `box`.
fn file_set_translator<S: Server>(alloc: Global, args: &[Bytes]) -> Result<Call<S>, ReadFault>
    ensures { Reads (λ c. call_by S.meaning c) (file_set_translator args.now) result }
{
    let [port, passive, active, goaway, words @ ..] = args else {
        return Err(ReadFault::Bad);
    };
    let port = long_number(port.as_slice())?;
    let setting = setting(
        alloc,
        passive.as_slice(),
        active.as_slice(),
        goaway.as_slice(),
    )?;
    let words = server_words(alloc, before_box(words))?;
    Ok(Call::FileSetTranslator {
        port,
        setting,
        words,
        server: None,
    })
}

/// `box =WORD ..`, without the server of the words after `box`: so far a start that failed.
fn fsys_startup<S: Server>(args: &[Bytes]) -> Result<Call<S>, ReadFault>
    ensures { Reads (λ c. call_by S.meaning c) (fsys_startup args.now) result }
{
    let [word, ..] = args else {
        return Err(ReadFault::Bad);
    };
    if word.is(b"box") {
        Ok(Call::Plain(PlainCall::StartFailed))
    } else {
        Err(ReadFault::Bad)
    }
}

/// `CONTROL DIR FLAGS`.
fn fsys_getroot<S: Server>(alloc: Global, args: &[Bytes]) -> Result<Call<S>, ReadFault>
    ensures { Reads (λ c. call_by S.meaning c) (fsys_getroot args.now) result }
{
    let [control, dir, names] = args else {
        return Err(ReadFault::Bad);
    };
    let control = long_number(control.as_slice())?;
    let dir = long_number(dir.as_slice())?;
    let flags = open_flags(alloc, names.as_slice())?;
    Ok(Call::Plain(PlainCall::FsysGetroot {
        control,
        dir,
        flags,
    }))
}

/// `CONTROL GOAWAY`.
fn fsys_goaway<S: Server>(alloc: Global, args: &[Bytes]) -> Result<Call<S>, ReadFault>
    ensures { Reads (λ c. call_by S.meaning c) (fsys_goaway args.now) result }
{
    let [control, names] = args else {
        return Err(ReadFault::Bad);
    };
    let control = long_number(control.as_slice())?;
    let flags = goaway_flags(alloc, names.as_slice())?;
    Ok(Call::Plain(PlainCall::FsysGoaway { control, flags }))
}

/// `CONTROL [=WORD ..]`.
fn fsys_set_options<S: Server>(alloc: Global, args: &[Bytes]) -> Result<Call<S>, ReadFault>
    ensures { Reads (λ c. call_by S.meaning c) (fsys_set_options args.now) result }
{
    let [control, words @ ..] = args else {
        return Err(ReadFault::Bad);
    };
    let control = long_number(control.as_slice())?;
    let words = server_words(alloc, words)?;
    Ok(Call::Plain(PlainCall::FsysSetOptions { control, words }))
}

/// The call of a name with these arguments, without a server that it may bring.
pub fn call_of<S: Server>(alloc: Global, verb: Verb, args: &[Bytes]) -> Result<Call<S>, ReadFault>
    ensures { Reads (λ c. call_by S.meaning c) (call_of verb args.now) result }
{
    match verb {
        Verb::PortDeallocate => Ok(Call::Plain(PlainCall::PortDeallocate { port: lone(args)? })),
        Verb::PortSend => port_send(args),
        Verb::PortReceive => port_receive(args),
        Verb::AuthMakeauth => auth_makeauth(alloc, args),
        Verb::IoRead => io_read(args),
        Verb::IoWrite => io_write(alloc, args),
        Verb::IoSeek => io_seek(args),
        Verb::IoStat => Ok(Call::Plain(PlainCall::IoStat { port: lone(args)? })),
        Verb::IoReadable => Ok(Call::Plain(PlainCall::IoReadable { port: lone(args)? })),
        Verb::IoGetOpenmodes => Ok(Call::Plain(PlainCall::IoGetOpenmodes { port: lone(args)? })),
        Verb::IoSetAllOpenmodes => io_set_all_openmodes(alloc, args),
        Verb::IoDuplicate => Ok(Call::Plain(PlainCall::IoDuplicate { port: lone(args)? })),
        Verb::IoReauthenticate => Ok(Call::Plain(PlainCall::IoReauthenticate {
            port: lone(args)?,
        })),
        Verb::IoRestrictAuth => io_restrict_auth(alloc, args),
        Verb::IoIdentity => io_identity(args),
        Verb::FileChmod => file_chmod(args),
        Verb::FileChown => file_chown(args),
        Verb::FileSetSize => file_set_size(args),
        Verb::FileCheckAccess => Ok(Call::Plain(PlainCall::FileCheckAccess { port: lone(args)? })),
        Verb::FileSetTranslator => file_set_translator(alloc, args),
        Verb::FileGetTranslator => Ok(Call::Plain(PlainCall::FileGetTranslator {
            port: lone(args)?,
        })),
        Verb::FileGetTranslatorCntl => Ok(Call::Plain(PlainCall::FileGetTranslatorCntl {
            port: lone(args)?,
        })),
        Verb::FileGetcontrol => Ok(Call::Plain(PlainCall::FileGetcontrol { port: lone(args)? })),
        Verb::FsysStartup => fsys_startup(args),
        Verb::StartFailed => start_failed(args),
        Verb::FsysGetroot => fsys_getroot(alloc, args),
        Verb::FsysGoaway => fsys_goaway(alloc, args),
        Verb::FsysGetOptions => Ok(Call::Plain(PlainCall::FsysGetOptions {
            control: lone(args)?,
        })),
        Verb::FsysSetOptions => fsys_set_options(alloc, args),
        Verb::DirLookup => dir_lookup(alloc, args),
        Verb::DirReaddir => Ok(Call::Plain(PlainCall::DirReaddir { port: lone(args)? })),
        Verb::DirMkdir => dir_mkdir(alloc, args),
        Verb::DirMkfile => dir_mkfile(alloc, args),
        Verb::DirRmdir => dir_rmdir(alloc, args),
        Verb::DirUnlink => dir_unlink(alloc, args),
        Verb::DirLink => dir_link(alloc, args),
        Verb::DirRename => dir_rename(alloc, args),
    }
}

/// The words of a server, where some kind of server takes them.
fn begun_words(alloc: Global, words: &[Bytes]) -> Result<Words, ReadFault>
    ensures { Reads (λ w. begin w) (option_map Some (option_and_then begin (server_words words.now))) result }
{
    let words = server_words(alloc, words)?;
    if words_ok(words.as_slice()) {
        Ok(words)
    } else {
        Err(ReadFault::Bad)
    }
}

/// The words of the server that a call of a name with these arguments brings, if it brings one.
pub fn server_of(alloc: Global, verb: Verb, args: &[Bytes]) -> Result<Option<Words>, ReadFault>
    ensures { Reads begun (server_of verb args.now) result }
{
    if verb != Verb::FileSetTranslator && verb != Verb::FsysStartup {
        return Ok(None);
    }
    match behind_box(args) {
        Some(words) => Ok(Some(begun_words(alloc, words)?)),
        None => Ok(None),
    }
}

/// The call that starts a translator with this server, or gives the start up without one.
fn start_call<S>(server: Option<S>) -> Call<S>
    ensures { result ≡ start_call server }
{
    match server {
        Some(server) => Call::FsysStartup { server },
        None => Call::Plain(PlainCall::StartFailed),
    }
}

/// A call with this server in place of the one that it brings: a start without one is a start that failed.
pub fn with_server<S: Server>(call: Call<S>, server: Option<S>) -> Call<S>
    ensures is { result ≡ with_server server call }
    ensures begun { IfSome server (λ s. Begins (S.meaning s)) → BringsBegun (call_by S.meaning result) }
{
    match call {
        Call::FileSetTranslator {
            port,
            setting,
            words,
            server: _,
        } => Call::FileSetTranslator {
            port,
            setting,
            words,
            server,
        },
        Call::FsysStartup { server: _ } => start_call(server),
        Call::Plain(PlainCall::StartFailed) => start_call(server),
        call => call,
    }
}
