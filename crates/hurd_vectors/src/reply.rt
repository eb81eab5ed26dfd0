//! Replies as objects.
ghost use Rattle.std.specs.Prelude.{◌≡◌, ◌++◌, OnOk, decimal};
ghost use Rattle.hurd_creds.specs.Errors.{name_of};
ghost use Rattle.hurd_machine.specs.Calls.{reply_by};
ghost use Rattle.hurd_lists.specs.Replies.{flags_text};
ghost use Rattle.hurd_vectors.specs.Json.{names};
ghost use Rattle.hurd_vectors.specs.Replies.{error_text, lookup_text, mode_text, owner_text, port_text, reply_fields, reply_text, rest_text, stat_text};

use crate::json::{push_decimal, push_names, push_quoted, push_texts, push_truth};
use bitflags::Flags;
use hurd_creds::{Errno, Mode, OpenFlags, Stat};
use hurd_lists::{kind_name, push_flags, push_high_digits, retry_name};
use hurd_machine::{Lookup, Reply};
use hurd_trans_iface::Server;
use hurd_words::printing::push_mode;
use std::alloc::{AllocError, Global};

/// Prints a number after a text.
fn push_behind(text: &mut Vec<u8>, front: &[u8], number: u64) -> Result<(), AllocError>
    ensures { OnOk result (text.new.items ≡ text.old.items ++ (front.now ++ decimal number)) }
{
    text.extend_from_slice(front)?;
    push_decimal(text, number)
}

/// Prints a port as a field after others, where there is one.
fn push_port(text: &mut Vec<u8>, port: Option<u64>) -> Result<(), AllocError>
    ensures { OnOk result (text.new.items ≡ text.old.items ++ port_text port) }
{
    let Some(port) = port else {
        return Ok(());
    };
    push_behind(text, b", \"port\": ", port)
}

/// Prints what a lookup found.
fn push_lookup(text: &mut Vec<u8>, found: &Lookup) -> Result<(), AllocError>
    ensures { OnOk result (text.new.items ≡ text.old.items ++ lookup_text found.now) }
{
    match found {
        Lookup::Done(port) => push_behind(text, b"\"Done\", \"port\": ", *port),
        Lookup::Retry { kind, name, port } => {
            text.extend_from_slice(b"\"Retry\", \"retry\": \"")?;
            text.extend_from_slice(retry_name(*kind).as_bytes())?;
            text.extend_from_slice(b"\", \"name\": ")?;
            push_quoted(text, name.as_slice())?;
            push_port(text, *port)
        }
        Lookup::Start { words } => {
            text.extend_from_slice(b"\"Start\", \"words\": ")?;
            push_texts(text, 0, words.as_slice())
        }
    }
}

/// Prints whose a node is.
fn push_owner(text: &mut Vec<u8>, stat: &Stat) -> Result<(), AllocError>
    ensures { OnOk result (text.new.items ≡ text.old.items ++ owner_text stat.now) }
{
    text.extend_from_slice(b", \"owner\": ")?;
    push_decimal(text, u64::from(stat.owner))?;
    text.extend_from_slice(b", \"group\": ")?;
    push_decimal(text, u64::from(stat.group))
}

/// Prints a mode in octal digits: six, or more where it has them.
fn push_whole_mode(text: &mut Vec<u8>, mode: Mode) -> Result<(), AllocError>
    ensures { OnOk result (text.new.items ≡ text.old.items ++ mode_text mode) }
{
    text.extend_from_slice(b", \"mode\": \"")?;
    push_high_digits(text, mode.bits())?;
    push_mode(text, mode)?;
    text.push(b'"')?;
    Ok(())
}

/// Prints how many entries name a node, its size, and whether it has translators.
fn push_rest(text: &mut Vec<u8>, stat: &Stat) -> Result<(), AllocError>
    ensures { OnOk result (text.new.items ≡ text.old.items ++ rest_text stat.now) }
{
    text.extend_from_slice(b", \"links\": ")?;
    push_decimal(text, u64::from(stat.links))?;
    text.extend_from_slice(b", \"size\": ")?;
    push_decimal(text, stat.size)?;
    text.extend_from_slice(b", \"passive\": ")?;
    push_truth(text, stat.passive)?;
    text.extend_from_slice(b", \"active\": ")?;
    push_truth(text, stat.active)
}

/// Prints attributes.
fn push_stat(text: &mut Vec<u8>, stat: &Stat) -> Result<(), AllocError>
    ensures { OnOk result (text.new.items ≡ text.old.items ++ stat_text stat.now) }
{
    text.extend_from_slice(b"\"Stat\", \"node\": \"")?;
    text.extend_from_slice(kind_name(stat.kind).as_bytes())?;
    text.push(b'"')?;
    push_owner(text, stat)?;
    push_whole_mode(text, stat.mode)?;
    push_rest(text, stat)
}

/// Prints the names of flags, as an array.
fn push_modes(alloc: Global, text: &mut Vec<u8>, flags: OpenFlags) -> Result<(), AllocError>
    ensures { OnOk result (text.new.items ≡ text.old.items ++ names (flags_text flags)) }
{
    let mut word = Vec::new(alloc);
    push_flags(&mut word, flags)?;
    push_names(text, word.as_slice())
}

/// Prints an error as a field, after the kind of the reply.
fn push_error(text: &mut Vec<u8>, kind: &[u8], errno: Errno) -> Result<(), AllocError>
    ensures { OnOk result (text.new.items ≡ text.old.items ++ error_text kind.now (name_of errno)) }
{
    text.extend_from_slice(kind)?;
    text.extend_from_slice(b", \"error\": \"")?;
    text.extend_from_slice(errno.name().as_bytes())?;
    text.push(b'"')?;
    Ok(())
}

/// Prints the fields of a reply from its kind on.
fn push_reply_fields<S: Server>(
    alloc: Global,
    text: &mut Vec<u8>,
    reply: &Reply<S>,
) -> Result<(), AllocError>
    ensures { OnOk result (text.new.items ≡ text.old.items ++ reply_fields (reply_by S.meaning reply.now)) }
{
    match reply {
        Reply::Done => text.extend_from_slice(b"\"Done\""),
        Reply::Found(found) => {
            text.extend_from_slice(b"\"Found\", \"found\": ")?;
            push_lookup(text, found)
        }
        Reply::Port(port) => push_behind(text, b"\"Port\", \"port\": ", *port),
        Reply::Data(bytes) => {
            text.extend_from_slice(b"\"Data\", \"bytes\": ")?;
            push_quoted(text, bytes.as_slice())
        }
        Reply::Count(count) => push_behind(text, b"\"Count\", \"count\": ", *count),
        Reply::Names(names) => {
            text.extend_from_slice(b"\"Names\", \"names\": ")?;
            push_texts(text, 0, names.as_slice())
        }
        Reply::Words(words) => {
            text.extend_from_slice(b"\"Words\", \"words\": ")?;
            push_texts(text, 0, words.as_slice())
        }
        Reply::Stat(stat) => push_stat(text, stat),
        Reply::Modes(flags) => {
            text.extend_from_slice(b"\"Modes\", \"flags\": ")?;
            push_modes(alloc, text, *flags)
        }
        Reply::Same(same) => {
            text.extend_from_slice(b"\"Same\", \"same\": ")?;
            push_truth(text, *same)
        }
        Reply::Refused(errno) => push_error(text, b"\"Refused\"", *errno),
        Reply::Back(errno, _) => push_error(text, b"\"Back\"", *errno),
    }
}

/// Prints a reply as an object. Of a box that comes back nothing is printed.
pub(crate) fn push_reply<S: Server>(
    alloc: Global,
    text: &mut Vec<u8>,
    reply: &Reply<S>,
) -> Result<(), AllocError>
    ensures { OnOk result (text.new.items ≡ text.old.items ++ reply_text (reply_by S.meaning reply.now)) }
{
    text.extend_from_slice(b"{\"kind\": ")?;
    push_reply_fields(alloc, text, reply)?;
    text.push(b'}')?;
    Ok(())
}
