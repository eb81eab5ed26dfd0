//! What the words of each command ask for.
ghost use Rattle.std.specs.Prelude.{◌≡◌, IfOk, map, string_bytes};
ghost use Rattle.hurd_script.specs.Actions.{asked_by, within_limits};

use crate::command::{Action, Verb};
use crate::places::place_of;
use crate::settrans::setting_of;
use crate::usage::{listed_of, node_of, pair_of, triple_of};
use hurd_creds::{Bytes, Errno, number};
use hurd_trans_iface::Words;
use hurd_words::modes::mode;
use std::alloc::{AllocError, Global};

/// The bytes of a text.
fn bytes_of(alloc: Global, text: &str) -> Result<Bytes, AllocError>
    ensures { IfOk result (λ bytes. bytes ≡ text.now) }
{
    Bytes::copied(alloc, text.as_bytes())
}

/// The bytes of each of these texts.
fn texts_of<'a>(alloc: Global, words: &'a [String]) -> Result<Vec<&'a [u8]>, AllocError>
    ensures { IfOk result (λ texts. map (λ text. text.now) texts.items ≡ map string_bytes words.entry.now) }
{
    words.iter().map(|word| word.as_bytes()).collect(alloc)
}

/// The words, unless they are past the limits.
fn words_from(alloc: Global, words: &[String]) -> Result<Option<Words>, AllocError>
    ensures { IfOk result (λ found. found ≡ within_limits (map string_bytes words.now)) }
{
    let texts = texts_of(alloc, words)?;
    match Words::new(alloc, texts.as_slice()) {
        Ok(words) => Ok(Some(words)),
        Err(Errno::ENOMEM) => Err(AllocError),
        Err(_) => Ok(None),
    }
}

/// `cat NODE`.
pub fn cat(alloc: Global, words: &[String]) -> Result<Action, AllocError>
    ensures { IfOk result (λ action. action ≡ asked_by Verb.Cat (map string_bytes words.now)) }
{
    match node_of(words) {
        Some(node) => Ok(Action::Cat {
            node: bytes_of(alloc, node)?,
        }),
        None => Ok(Action::Usage),
    }
}

/// `ls NODE` and `ls -d NODE`.
pub fn ls(alloc: Global, words: &[String]) -> Result<Action, AllocError>
    ensures { IfOk result (λ action. action ≡ asked_by Verb.Ls (map string_bytes words.now)) }
{
    let Some((node, itself)) = listed_of(alloc, "ls", words)? else {
        return Ok(Action::Usage);
    };
    let node = bytes_of(alloc, node)?;
    if itself {
        Ok(Action::Stat { node })
    } else {
        Ok(Action::Ls { node })
    }
}

/// `put NODE TEXT`.
pub fn put(alloc: Global, words: &[String]) -> Result<Action, AllocError>
    ensures { IfOk result (λ action. action ≡ asked_by Verb.Put (map string_bytes words.now)) }
{
    match pair_of(words) {
        Some((node, text)) => Ok(Action::Put {
            node: bytes_of(alloc, node)?,
            text: bytes_of(alloc, text)?,
        }),
        None => Ok(Action::Usage),
    }
}

/// `mkdir NODE`.
pub fn mkdir(alloc: Global, words: &[String]) -> Result<Action, AllocError>
    ensures { IfOk result (λ action. action ≡ asked_by Verb.Mkdir (map string_bytes words.now)) }
{
    match node_of(words) {
        Some(node) => Ok(Action::Mkdir {
            place: place_of(alloc, node.as_bytes())?,
        }),
        None => Ok(Action::Usage),
    }
}

/// `rm NODE`.
pub fn rm(alloc: Global, words: &[String]) -> Result<Action, AllocError>
    ensures { IfOk result (λ action. action ≡ asked_by Verb.Rm (map string_bytes words.now)) }
{
    match node_of(words) {
        Some(node) => Ok(Action::Rm {
            place: place_of(alloc, node.as_bytes())?,
        }),
        None => Ok(Action::Usage),
    }
}

/// `rmdir NODE`.
pub fn rmdir(alloc: Global, words: &[String]) -> Result<Action, AllocError>
    ensures { IfOk result (λ action. action ≡ asked_by Verb.Rmdir (map string_bytes words.now)) }
{
    match node_of(words) {
        Some(node) => Ok(Action::Rmdir {
            place: place_of(alloc, node.as_bytes())?,
        }),
        None => Ok(Action::Usage),
    }
}

/// `ln FILE NEW`.
pub fn ln(alloc: Global, words: &[String]) -> Result<Action, AllocError>
    ensures { IfOk result (λ action. action ≡ asked_by Verb.Ln (map string_bytes words.now)) }
{
    match pair_of(words) {
        Some((file, new)) => Ok(Action::Ln {
            file: bytes_of(alloc, file)?,
            new: place_of(alloc, new.as_bytes())?,
        }),
        None => Ok(Action::Usage),
    }
}

/// `mv OLD NEW`.
pub fn mv(alloc: Global, words: &[String]) -> Result<Action, AllocError>
    ensures { IfOk result (λ action. action ≡ asked_by Verb.Mv (map string_bytes words.now)) }
{
    match pair_of(words) {
        Some((old, new)) => Ok(Action::Mv {
            old: place_of(alloc, old.as_bytes())?,
            new: place_of(alloc, new.as_bytes())?,
        }),
        None => Ok(Action::Usage),
    }
}

/// `chmod MODE NODE`.
pub fn chmod(alloc: Global, words: &[String]) -> Result<Action, AllocError>
    ensures { IfOk result (λ action. action ≡ asked_by Verb.Chmod (map string_bytes words.now)) }
{
    let Some((digits, node)) = pair_of(words) else {
        return Ok(Action::Usage);
    };
    match mode(digits) {
        Some(mode) => Ok(Action::Chmod {
            mode,
            node: bytes_of(alloc, node)?,
        }),
        None => Ok(Action::Usage),
    }
}

/// `chown OWNER GROUP NODE`.
pub fn chown(alloc: Global, words: &[String]) -> Result<Action, AllocError>
    ensures { IfOk result (λ action. action ≡ asked_by Verb.Chown (map string_bytes words.now)) }
{
    let Some((owner, (group, node))) = triple_of(words) else {
        return Ok(Action::Usage);
    };
    let Some(owner) = number(owner) else {
        return Ok(Action::Usage);
    };
    let Some(group) = number(group) else {
        return Ok(Action::Usage);
    };
    Ok(Action::Chown {
        owner,
        group,
        node: bytes_of(alloc, node)?,
    })
}

/// `settrans [FLAGS] NODE [WORD..]`.
pub fn settrans(alloc: Global, words: &[String]) -> Result<Action, AllocError>
    ensures { IfOk result (λ action. action ≡ asked_by Verb.Settrans (map string_bytes words.now)) }
{
    let Some(setting) = setting_of(alloc, words)? else {
        return Ok(Action::Usage);
    };
    if setting.flags.is_at_odds() {
        return Ok(Action::Usage);
    }
    match words_from(alloc, setting.words)? {
        Some(words) => Ok(Action::Settrans {
            flags: setting.flags,
            node: bytes_of(alloc, setting.node)?,
            words,
        }),
        None => Ok(Action::Usage),
    }
}

/// `showtrans NODE`.
pub fn showtrans(alloc: Global, words: &[String]) -> Result<Action, AllocError>
    ensures { IfOk result (λ action. action ≡ asked_by Verb.Showtrans (map string_bytes words.now)) }
{
    match node_of(words) {
        Some(node) => Ok(Action::Showtrans {
            node: bytes_of(alloc, node)?,
        }),
        None => Ok(Action::Usage),
    }
}

/// `fsysopts NODE [WORD..]`.
pub fn fsysopts(alloc: Global, words: &[String]) -> Result<Action, AllocError>
    ensures { IfOk result (λ action. action ≡ asked_by Verb.Fsysopts (map string_bytes words.now)) }
{
    let (front, behind) = words.split_at(words.len().min(1));
    let Some(node) = node_of(front) else {
        return Ok(Action::Usage);
    };
    match words_from(alloc, behind)? {
        Some(words) => Ok(Action::Fsysopts {
            node: bytes_of(alloc, node)?,
            words,
        }),
        None => Ok(Action::Usage),
    }
}
