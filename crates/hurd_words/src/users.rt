//! The users that a script declares.
ghost use Rattle.std.specs.Prelude.{◌≡◌, ◌<◌, ◌==◌, ◌||◌, ◌⊎◌, ◌∷◌, List, None, codes, ℕ, IfErr, IfOk, IfSome, OnOk, length, map, string_bytes};
ghost use Rattle.std.specs.Char.{is_ascii_digit, is_ascii_lowercase};
ghost use Rattle.std.specs.List.{list_all, slice_split};
ghost use Rattle.hurd_words.specs.Reading.{Reads, Refuses, Takes};
ghost use Rattle.hurd_words.specs.Users.{begins_with, begins_with_letter, ids_from, is_taken, is_user_name, listed, numbers_of, task_of};

use crate::fault::ReadFault;
use hurd_creds::{Errno, Ids, number};
use std::alloc::{AllocError, Global};

/// Whether the first word is `user`.
pub fn is_user_line(words: &[String]) -> bool
    ensures { result ≡ begins_with (codes "user") (map string_bytes words.now) }
{
    match words.first() {
        Some(word) => word.as_str() == "user",
        None => false,
    }
}

/// Whether it is 1 to 16 lower-case letters and digits, the first a letter.
pub fn is_user_name(name: &str) -> bool
    ensures { result ≡ is_user_name name.now }
{
    let bytes = name.as_bytes();
    begins_with_letter(bytes) && bytes.len() <= 16 && are_letters_or_digits(bytes)
}

fn are_letters_or_digits(bytes: &[u8]) -> bool
    ensures { result ≡ list_all (λ b. is_ascii_lowercase b || is_ascii_digit b) bytes.now }
{
    bytes
        .iter()
        .all(|byte| byte.is_ascii_lowercase() || byte.is_ascii_digit())
}

fn begins_with_letter(name: &[u8]) -> bool
    ensures { result ≡ begins_with_letter name.now }
{
    !name.is_empty() && name[0].is_ascii_lowercase()
}

/// The task of a user, by the names of all.
pub fn task_of(names: &[String], name: &str) -> Option<usize>
    ensures place { result ≡ task_of (map string_bytes names.now) name.now }
    ensures within { IfSome result (λ task. task < length names.now) }
{
    names.iter().position(|known| known.as_str() == name)
}

/// Whether somebody has the name already, or it is `user`.
pub fn is_taken(names: &[String], name: &str) -> bool
    ensures { result ≡ is_taken (map string_bytes names.now) name.now }
{
    task_of(names, name).is_some() || name == "user"
}

/// The parts between commas.
pub fn parts<'a>(alloc: Global, word: &'a str) -> Result<Vec<&'a str>, AllocError>
    ensures { IfOk result (λ v. map (λ x. x.now) v.items ≡ slice_split (λ b. b == 44) word.entry.now) }
{
    word.split(',').collect(alloc)
}

/// Numbers joined by commas, or `-` for none.
fn listed(alloc: Global, word: &str) -> Result<Vec<u32>, ReadFault>
    ensures { Reads (λ v. v.items) (listed word.now) result }
{
    let mut numbers = Vec::new(alloc);
    if word == "-" {
        return Ok(numbers);
    }
    let parts = parts(alloc, word)?;
    for part in parts.as_slice() {
        add_number(&mut numbers, part)?;
    }
    Ok(numbers)
}

/// One number more.
fn add_number(numbers: &mut Vec<u32>, part: &str) -> Result<(), ReadFault>
    ensures ok { OnOk result (Takes numbers_of part.now numbers.old.items numbers.new.items) }
    ensures err { IfErr result (λ e. (e ≡ ReadFault.Memory) ⊎ Refuses numbers_of part.now) }
{
    let Some(number) = number(part) else {
        return Err(ReadFault::Bad);
    };
    numbers.push(number)?;
    Ok(())
}

/// The ids that two lists name.
pub fn ids_from(alloc: Global, uids: &str, gids: &str) -> Result<Ids, ReadFault>
    ensures { Reads (λ ids. ids) (ids_from (listed uids.now) (listed gids.now)) result }
{
    let uids = listed(alloc, uids)?;
    let gids = listed(alloc, gids)?;
    match Ids::new(alloc, uids.as_slice(), gids.as_slice()) {
        Ok(ids) => Ok(ids),
        Err(Errno::ENOMEM) => Err(ReadFault::Memory),
        Err(_) => Err(ReadFault::Bad),
    }
}
