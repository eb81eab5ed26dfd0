//! The arguments of calls.
ghost use Rattle.std.specs.Prelude.{◌≡◌, ◌==◌, option_map};
ghost use Rattle.std.specs.List.{slice_split};
ghost use Rattle.std.specs.Int.RustNames.{bit_or};
ghost use Rattle.bitflags.specs.Sets.{find_name};
ghost use Rattle.hurd_words.specs.Reading.{Reads, said};
ghost use Rattle.hurd_lists.specs.Arguments.{ReadsInPlace, above_zero, below_zero, bits_of, bytes_of, goaway_flags_of, ids_of, long_number_of, mode_of, number_of, offset_of, open_flags_of, server_words, task_of, text_of, texts_of, trans_flags_of, whence_named, whence_of, with_names};

use bitflags::Flags;
use hurd_creds::{Bytes, Errno, GoawayFlags, Ids, Mode, OpenFlags, TaskId, TransFlags};
use hurd_machine::Whence;
use hurd_trans_iface::Words;
use hurd_words::fault::ReadFault;
use hurd_words::users::{ids_from, parts};
use std::alloc::Global;

/// The most that an offset below zero may be away from it.
const MOST_BELOW: u64 = 1 << 63;

/// What was to be read, if it was there.
fn wanted<T>(found: Option<T>) -> Result<T, ReadFault>
    ensures { ReadsInPlace (λ x. x) found result }
{
    match found {
        Some(value) => Ok(value),
        None => Err(ReadFault::Bad),
    }
}

/// A word that is text.
pub fn text(word: &[u8]) -> Result<&str, ReadFault>
    ensures { ReadsInPlace (λ s. s.now) (text_of word.now) result }
{
    match str::from_utf8(word) {
        Ok(text) => Ok(text),
        Err(_) => Err(ReadFault::Bad),
    }
}

/// A number below 2 to the 32nd.
pub fn number(word: &[u8]) -> Result<u32, ReadFault>
    ensures { ReadsInPlace (λ n. n) (number_of word.now) result }
{
    let digits = text(word)?;
    wanted(hurd_creds::number(digits))
}

/// A number below 2 to the 64th.
pub fn long_number(word: &[u8]) -> Result<u64, ReadFault>
    ensures { ReadsInPlace (λ n. n) (long_number_of word.now) result }
{
    let digits = text(word)?;
    wanted(hurd_creds::long_number(digits.as_bytes()))
}

/// A number that may be below zero.
pub fn offset(word: &[u8]) -> Result<i64, ReadFault>
    ensures { ReadsInPlace (λ n. n) (offset_of word.now) result }
{
    match word {
        [b'-', digits @ ..] => {
            let amount = long_number(digits)?;
            wanted(below_zero(amount))
        }
        _ => {
            let amount = long_number(word)?;
            wanted(above_zero(amount))
        }
    }
}

/// So much above zero.
fn above_zero(amount: u64) -> Option<i64>
    ensures { result ≡ above_zero amount }
{
    if amount < MOST_BELOW {
        Some(amount as i64)
    } else {
        None
    }
}

/// So much below zero.
fn below_zero(amount: u64) -> Option<i64>
    ensures { result ≡ below_zero amount }
{
    if amount <= MOST_BELOW {
        Some((0 - amount as i128) as i64)
    } else {
        None
    }
}

/// A task's number.
pub fn task(word: &[u8]) -> Result<TaskId, ReadFault>
    ensures { ReadsInPlace (λ t. t) (task_of word.now) result }
{
    let number = number(word)?;
    Ok(TaskId(number))
}

/// A mode in octal digits; bits that none knows stay.
pub fn mode(word: &[u8]) -> Result<Mode, ReadFault>
    ensures { ReadsInPlace (λ m. m) (mode_of word.now) result }
{
    let digits = text(word)?;
    let bits = wanted(hurd_creds::octal_number(digits))?;
    Ok(<Mode as Flags>::from_bits_retain(bits))
}

/// What comes after `=`.
fn behind_equals(word: &[u8]) -> Result<&[u8], ReadFault>
    ensures { ReadsInPlace (λ b. b.now) (bytes_of word.now) result }
{
    match word {
        [b'=', bytes @ ..] => Ok(bytes),
        _ => Err(ReadFault::Bad),
    }
}

/// A copy of the bytes after `=`.
pub fn bytes(alloc: Global, word: &[u8]) -> Result<Bytes, ReadFault>
    ensures { Reads (λ b. b) (bytes_of word.now) result }
{
    let bytes = behind_equals(word)?;
    Ok(Bytes::copied(alloc, bytes)?)
}

/// The ids of two lists.
pub fn ids(alloc: Global, uids: &[u8], gids: &[u8]) -> Result<Ids, ReadFault>
    ensures { Reads (λ i. i) (ids_of uids.now gids.now) result }
{
    let uids = text(uids)?;
    let gids = text(gids)?;
    ids_from(alloc, uids, gids)
}

/// From where a seek counts.
pub fn whence(word: &[u8]) -> Result<Whence, ReadFault>
    ensures { ReadsInPlace (λ w. w) (whence_of word.now) result }
{
    let name = text(word)?;
    wanted(whence_named(name))
}

/// What a name says of a seek.
fn whence_named(name: &str) -> Option<Whence>
    ensures { result ≡ whence_named name.now }
{
    match name {
        "Set" => Some(Whence::Set),
        "Current" => Some(Whence::Current),
        "End" => Some(Whence::End),
        _ => None,
    }
}

/// Flags joined by commas, or `-` for none.
fn flags<F: Flags>(alloc: Global, word: &[u8]) -> Result<F, ReadFault>
    requires { F.exact }
    ensures { Reads F.set_of (bits_of F.table word.now) result }
{
    let word = text(word)?;
    if word == "-" {
        return Ok(F::empty());
    }
    listed_flags(alloc, word)
}

/// Flags joined by commas.
fn listed_flags<F: Flags>(alloc: Global, word: &str) -> Result<F, ReadFault>
    requires { F.exact }
    ensures { Reads F.set_of (with_names F.table 0 (slice_split (λ b. b == 44) word.now)) result }
{
    let mut flags = F::empty();
    let names = parts(alloc, word)?;
    for name in names.as_slice() {
        add_flag(&mut flags, name)?;
    }
    Ok(flags)
}

/// Adds the flag of this name.
fn add_flag<F: Flags>(flags: &mut F, name: &str) -> Result<(), ReadFault>
    requires { F.exact }
    ensures { ReadsInPlace (λ _. F.set_of flags.new) (option_map (bit_or (F.set_of flags.old)) (find_name F.table name.now)) result }
{
    let flag = wanted(F::from_name(name))?;
    flags.insert(flag);
    Ok(())
}

/// Flags of opening.
pub fn open_flags(alloc: Global, word: &[u8]) -> Result<OpenFlags, ReadFault>
    ensures { Reads (λ f. f) (open_flags_of word.now) result }
{
    flags(alloc, word)
}

/// Flags of setting a translator.
pub fn trans_flags(alloc: Global, word: &[u8]) -> Result<TransFlags, ReadFault>
    ensures { Reads (λ f. f) (trans_flags_of word.now) result }
{
    flags(alloc, word)
}

/// Flags of sending a server away.
pub fn goaway_flags(alloc: Global, word: &[u8]) -> Result<GoawayFlags, ReadFault>
    ensures { Reads (λ f. f) (goaway_flags_of word.now) result }
{
    flags(alloc, word)
}

/// The bytes of words, each after `=`.
fn texts<'a>(alloc: Global, words: &'a [Bytes]) -> Result<Vec<&'a [u8]>, ReadFault>
    ensures { Reads (λ texts. said texts.items) (texts_of words.now) result }
{
    let mut texts = Vec::new(alloc);
    for word in words {
        texts.push(behind_equals(word.as_slice())?)?;
    }
    Ok(texts)
}

/// The words of a server, each after `=`.
pub fn server_words(alloc: Global, words: &[Bytes]) -> Result<Words, ReadFault>
    ensures { Reads (λ w. w) (server_words words.now) result }
{
    let texts = texts(alloc, words)?;
    match Words::new(alloc, texts.as_slice()) {
        Ok(words) => Ok(words),
        Err(Errno::ENOMEM) => Err(ReadFault::Memory),
        Err(_) => Err(ReadFault::Bad),
    }
}
