//! The line of a list that makes a call.
ghost use Rattle.std.specs.Prelude.{◌≡◌, IfOk, IsTrue, map};
ghost use Rattle.std.specs.Result.{result_ok};
ghost use Rattle.hurd_words.specs.Reading.{Reads};
ghost use Rattle.hurd_lists.specs.Lists.{listed_by, reading_of, said_by};
ghost use Rattle.hurd_trans_iface.specs.Meaning.{begin};
ghost use Rattle.hurd_numbers.specs.Lines.{HasLine, HasOnly, IsLineOf, IsListed, IsOnly, start_of};

use crate::calls::{Numbers, call_of, verb_at};
use crate::flags::{mode, open_flags};
use crate::same::{same_call, same_server};
use crate::words::{after_first, first_of, words_in};
use hurd_creds::{Bytes, TaskId};
use hurd_lists::{
    CallList, ListFault, ListedCall, Verb, parse_calls, push_flags, push_high_digits,
};
use hurd_machine::{Call, PlainCall};
use hurd_trans_iface::{Server, Words};
use hurd_words::escapes::push_escaped;
use hurd_words::fault::ReadFault;
use hurd_words::printing::{push_mode, push_number};
use itoa::Buffer;
use std::alloc::Global;

/// What a call is named.
fn name_of(verb: Verb) -> &'static [u8] {
    match verb {
        Verb::PortDeallocate => b"port_deallocate",
        Verb::PortSend => b"port_send",
        Verb::PortReceive => b"port_receive",
        Verb::AuthMakeauth => b"auth_makeauth",
        Verb::IoRead => b"io_read",
        Verb::IoWrite => b"io_write",
        Verb::IoSeek => b"io_seek",
        Verb::IoStat => b"io_stat",
        Verb::IoReadable => b"io_readable",
        Verb::IoGetOpenmodes => b"io_get_openmodes",
        Verb::IoSetAllOpenmodes => b"io_set_all_openmodes",
        Verb::IoDuplicate => b"io_duplicate",
        Verb::IoReauthenticate => b"io_reauthenticate",
        Verb::IoRestrictAuth => b"io_restrict_auth",
        Verb::IoIdentity => b"io_identity",
        Verb::FileChmod => b"file_chmod",
        Verb::FileChown => b"file_chown",
        Verb::FileSetSize => b"file_set_size",
        Verb::FileCheckAccess => b"file_check_access",
        Verb::FileSetTranslator => b"file_set_translator",
        Verb::FileGetTranslator => b"file_get_translator",
        Verb::FileGetTranslatorCntl => b"file_get_translator_cntl",
        Verb::FileGetcontrol => b"file_getcontrol",
        Verb::FsysStartup => b"fsys_startup",
        Verb::StartFailed => b"start_failed",
        Verb::FsysGetroot => b"fsys_getroot",
        Verb::FsysGoaway => b"fsys_goaway",
        Verb::FsysGetOptions => b"fsys_get_options",
        Verb::FsysSetOptions => b"fsys_set_options",
        Verb::DirLookup => b"dir_lookup",
        Verb::DirReaddir => b"dir_readdir",
        Verb::DirMkdir => b"dir_mkdir",
        Verb::DirMkfile => b"dir_mkfile",
        Verb::DirRmdir => b"dir_rmdir",
        Verb::DirUnlink => b"dir_unlink",
        Verb::DirLink => b"dir_link",
        Verb::DirRename => b"dir_rename",
    }
}

/// Adds bytes after `=`, after a space.
fn push_bytes(line: &mut Vec<u8>, bytes: &[u8]) -> Result<(), ReadFault> {
    line.extend_from_slice(b" =")?;
    Ok(push_escaped(line, bytes)?)
}

/// Adds words that are read as they are, each after a space.
fn push_bare(line: &mut Vec<u8>, words: &[&[u8]]) -> Result<(), ReadFault> {
    for word in words {
        line.push(b' ')?;
        line.extend_from_slice(word)?;
    }
    Ok(())
}

/// Adds words, each after `=`, after a space.
fn push_words(line: &mut Vec<u8>, words: &[&[u8]]) -> Result<(), ReadFault> {
    for word in words {
        push_bytes(line, word)?;
    }
    Ok(())
}

/// Adds flags of opening by their names, after a space.
fn push_open_flags(line: &mut Vec<u8>, bits: u32) -> Result<(), ReadFault> {
    line.push(b' ')?;
    Ok(push_flags(line, open_flags(bits)?)?)
}

/// Flags of setting a translator by their names.
fn trans_names(bits: u32) -> &'static [u8] {
    match bits {
        0 => b" -",
        1 => b" SET",
        2 => b" EXCL",
        3 => b" SET,EXCL",
        4 => b" ORPHAN",
        5 => b" SET,ORPHAN",
        6 => b" EXCL,ORPHAN",
        _ => b" SET,EXCL,ORPHAN",
    }
}

/// Flags of sending a server away by their names.
fn goaway_names(bits: u32) -> &'static [u8] {
    match bits {
        0 => b" -",
        1 => b" FORCE",
        2 => b" NOSYNC",
        3 => b" FORCE,NOSYNC",
        4 => b" NOWAIT",
        5 => b" FORCE,NOWAIT",
        6 => b" NOSYNC,NOWAIT",
        _ => b" FORCE,NOSYNC,NOWAIT",
    }
}

/// From where a seek counts.
fn whence_name(number: u32) -> &'static [u8] {
    match number {
        0 => b" Set",
        1 => b" Current",
        _ => b" End",
    }
}

/// Adds a mode in octal digits, after a space.
fn push_mode_of(line: &mut Vec<u8>, bits: u32) -> Result<(), ReadFault> {
    line.push(b' ')?;
    push_high_digits(line, bits)?;
    Ok(push_mode(line, mode(bits))?)
}

/// Adds an offset, after a space.
fn push_offset(line: &mut Vec<u8>, offset: i64) -> Result<(), ReadFault> {
    line.push(b' ')?;
    let mut buffer = Buffer::new();
    Ok(line.extend_from_slice(buffer.format(offset).as_bytes())?)
}

/// Adds what a translator is set to.
fn push_translator(
    alloc: Global,
    line: &mut Vec<u8>,
    numbers: &Numbers,
    bytes: &[u8],
) -> Result<(), ReadFault> {
    line.extend_from_slice(trans_names(numbers.flags))?;
    line.extend_from_slice(trans_names(numbers.active))?;
    line.extend_from_slice(goaway_names(numbers.goaway))?;
    let words = words_in(alloc, bytes)?;
    if numbers.brings == 0 {
        return push_words(line, words.as_slice());
    }
    push_words(line, first_of(words.as_slice(), numbers.amount)?)?;
    line.extend_from_slice(b" box")?;
    push_words(line, after_first(words.as_slice(), numbers.amount)?)
}

/// Adds the names of an entry that is renamed, and the directory that it goes to.
fn push_rename(line: &mut Vec<u8>, numbers: &Numbers, bytes: &[u8]) -> Result<(), ReadFault> {
    if numbers.amount > bytes.len() as u64 {
        return Err(ReadFault::Bad);
    }
    let (name, new) = bytes.split_at(numbers.amount as usize);
    push_bytes(line, name)?;
    push_number(line, numbers.other)?;
    push_bytes(line, new)
}

/// Adds what a call on a port has besides the port, if it is no call on a directory.
fn push_io(
    alloc: Global,
    line: &mut Vec<u8>,
    verb: Verb,
    numbers: &Numbers,
    bytes: &[u8],
) -> Result<(), ReadFault> {
    match verb {
        Verb::PortSend => push_number(line, u64::from(numbers.to))?,
        Verb::IoRead => {
            push_number(line, numbers.amount)?;
            push_offset(line, numbers.offset)?;
        }
        Verb::IoWrite => {
            push_bytes(line, bytes)?;
            push_offset(line, numbers.offset)?;
        }
        Verb::IoSeek => {
            push_offset(line, numbers.offset)?;
            line.extend_from_slice(whence_name(numbers.flags))?;
        }
        Verb::IoSetAllOpenmodes => push_open_flags(line, numbers.flags)?,
        Verb::IoRestrictAuth => push_bare(line, words_in(alloc, bytes)?.as_slice())?,
        Verb::IoIdentity => push_number(line, numbers.other)?,
        Verb::FileChmod => push_mode_of(line, numbers.mode)?,
        Verb::FileChown => {
            push_number(line, u64::from(numbers.owner))?;
            push_number(line, u64::from(numbers.group))?;
        }
        Verb::FileSetSize => push_number(line, numbers.amount)?,
        _ => {}
    }
    Ok(())
}

/// Adds what a call on a directory or a server has besides the port.
fn push_entry(
    alloc: Global,
    line: &mut Vec<u8>,
    verb: Verb,
    numbers: &Numbers,
    bytes: &[u8],
) -> Result<(), ReadFault> {
    match verb {
        Verb::FileSetTranslator => push_translator(alloc, line, numbers, bytes)?,
        Verb::FsysGetroot => {
            push_number(line, numbers.other)?;
            push_open_flags(line, numbers.flags)?;
        }
        Verb::FsysGoaway => line.extend_from_slice(goaway_names(numbers.goaway))?,
        Verb::FsysSetOptions => push_words(line, words_in(alloc, bytes)?.as_slice())?,
        Verb::DirLookup => {
            push_bytes(line, bytes)?;
            push_open_flags(line, numbers.flags)?;
            push_mode_of(line, numbers.mode)?;
        }
        Verb::DirMkdir => {
            push_bytes(line, bytes)?;
            push_mode_of(line, numbers.mode)?;
        }
        Verb::DirMkfile => {
            push_open_flags(line, numbers.flags)?;
            push_mode_of(line, numbers.mode)?;
        }
        Verb::DirRmdir | Verb::DirUnlink => push_bytes(line, bytes)?,
        Verb::DirLink => {
            push_bytes(line, bytes)?;
            push_number(line, numbers.other)?;
        }
        Verb::DirRename => push_rename(line, numbers, bytes)?,
        _ => {}
    }
    Ok(())
}

/// Adds what comes after the name of a call.
fn push_arguments(
    alloc: Global,
    line: &mut Vec<u8>,
    verb: Verb,
    numbers: &Numbers,
    bytes: &[u8],
) -> Result<(), ReadFault> {
    match verb {
        Verb::PortReceive | Verb::StartFailed => Ok(()),
        Verb::AuthMakeauth => push_bare(line, words_in(alloc, bytes)?.as_slice()),
        Verb::FsysStartup => {
            line.extend_from_slice(b" box")?;
            push_words(line, words_in(alloc, bytes)?.as_slice())
        }
        _ => {
            push_number(line, numbers.port)?;
            push_io(alloc, line, verb, numbers, bytes)?;
            push_entry(alloc, line, verb, numbers, bytes)
        }
    }
}

/// The line of numbers and bytes, as it should be.
fn written(alloc: Global, numbers: &Numbers, bytes: &[u8]) -> Result<Vec<u8>, ReadFault> {
    let Some(verb) = verb_at(numbers.call) else {
        return Err(ReadFault::Bad);
    };
    let mut line = Vec::new(alloc);
    let mut buffer = Buffer::new();
    line.extend_from_slice(buffer.format(numbers.task).as_bytes())?;
    line.push(b' ')?;
    line.extend_from_slice(name_of(verb))?;
    push_arguments(alloc, &mut line, verb, numbers, bytes)?;
    Ok(line)
}

/// What a line is read as.
fn read_back<S: Server>(alloc: Global, line: &[u8]) -> Result<CallList<S>, ReadFault>
    ensures { Reads (said_by S.meaning) (result_ok (reading_of line.now)) result }
{
    match parse_calls(alloc, line) {
        Ok(list) => Ok(list),
        Err(ListFault::Memory) => Err(ReadFault::Memory),
        Err(ListFault::Bad { .. }) => Err(ReadFault::Bad),
    }
}

/// Whether two calls that were read are the same, but for their lines.
fn same_listed<S: Server>(read: &ListedCall<S>, call: &ListedCall<S>) -> bool
    ensures { IsTrue result → listed_by S.meaning read.now ≡ record (listed_by S.meaning call.now) { line = read.now.line } }
{
    if read.task.0 != call.task.0 {
        return false;
    }
    if !same_call(&read.call, &call.call) {
        return false;
    }
    same_server(&read.server, &call.server)
}

/// Whether these calls are this one alone.
fn is_only<S: Server>(calls: &[ListedCall<S>], call: &ListedCall<S>) -> bool
    ensures { IsTrue result → IsOnly (map (listed_by S.meaning) calls.now) (listed_by S.meaning call.now) }
{
    match calls {
        [read] => same_listed(read, call),
        _ => false,
    }
}

/// Whether a list has no task, and this one call.
fn has_only<S: Server>(list: &CallList<S>, call: &ListedCall<S>) -> bool
    ensures { IsTrue result → HasOnly (said_by S.meaning list.now) (listed_by S.meaning call.now) }
{
    match list.tasks.as_slice() {
        [] => is_only(list.calls.as_slice(), call),
        _ => false,
    }
}

/// The call that a line is read as, if it is this one alone.
fn lined<S: Server>(
    alloc: Global,
    line: &[u8],
    call: &ListedCall<S>,
) -> Result<ListedCall<S>, ReadFault>
    ensures { IfOk result (λ read. HasLine (listed_by S.meaning call.now) (listed_by S.meaning read)) }
{
    let read = read_back(alloc, line)?;
    if !has_only(&read, call) {
        return Err(ReadFault::Bad);
    }
    let CallList {
        tasks: _,
        mut calls,
    } = read;
    match calls.pop() {
        Some(call) => Ok(call),
        None => Err(ReadFault::Bad),
    }
}

/// The call of these numbers and bytes with its line, as it is read from that.
///
/// Errors: `Bad` if they make no call, or if the line is longer than a list may be; `Memory` at any point.
pub fn listed<S: Server>(
    alloc: Global,
    numbers: &Numbers,
    bytes: &[u8],
) -> Result<ListedCall<S>, ReadFault>
    ensures { IfOk result (λ read. IsListed numbers.now bytes.now (listed_by S.meaning read)) }
{
    let call = call_of(alloc, numbers, bytes)?;
    let line = written(alloc, numbers, bytes)?;
    lined(alloc, line.as_slice(), &call)
}

/// The call of a task that starts a translator by the server of these words, with its line.
///
/// Errors: `Bad` if no kind takes the words; `Memory` at any point.
pub fn listed_start<S: Server>(
    alloc: Global,
    task: TaskId,
    words: Words,
) -> Result<ListedCall<S>, ReadFault>
    ensures { IfOk result (λ read. HasLine (start_of task (begin words)) (listed_by S.meaning read)) }
{
    let mut line = Vec::new(alloc);
    let mut buffer = Buffer::new();
    line.extend_from_slice(buffer.format(task.0).as_bytes())?;
    line.extend_from_slice(b" fsys_startup box")?;
    for word in words.as_slice() {
        push_bytes(&mut line, word.as_slice())?;
    }
    let call = ListedCall {
        task,
        call: Call::Plain(PlainCall::StartFailed),
        line: Bytes::new(Vec::new(alloc)),
        server: Some(words),
    };
    lined(alloc, line.as_slice(), &call)
}

/// The line of a list that makes the call of these numbers and bytes, without a newline. It was read back.
///
/// Errors: `Bad` if they make no call, or if the line is longer than a list may be; `Memory` at any point.
pub fn line_of<S: Server>(
    alloc: Global,
    numbers: &Numbers,
    bytes: &[u8],
) -> Result<Bytes, ReadFault>
    ensures { IfOk result (λ line. IsLineOf numbers.now bytes.now line) }
{
    let call: ListedCall<S> = call_of(alloc, numbers, bytes)?;
    let line = written(alloc, numbers, bytes)?;
    let read = read_back(alloc, line.as_slice())?;
    if has_only(&read, &call) {
        Ok(Bytes::new(line))
    } else {
        Err(ReadFault::Bad)
    }
}
