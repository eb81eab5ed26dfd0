//! Whole texts: what C calls to have one told in a world of its own.
ghost use Rattle.std.specs.Prelude.{◌≡◌, ◌==◌, false, not, IsUtf8, MatchResult, None, option_map, string_bytes};
ghost use Rattle.hurd_can.specs.Programs.{could};
ghost use Rattle.hurd_dialogue.specs.Sorts.{running};
ghost use Rattle.hurd_teaching.specs.Drawings.{drawing};
ghost use Rattle.hurd_program.specs.Requests.{asked, sort_of};
ghost use Rattle.hurd_teaching.specs.Programs.{learning, seeing};
ghost use Rattle.hurd_c.specs.Texts.{Copies, IsUnnamed, OfSome, OfSort, marked_in, sort_at};

use crate::exports::copied;
use crate::said::{Said, ending, status_only};
use hurd_program::{Request, TextSort, Verb, answer_text};
use hurd_terminal::Fault;
use std::alloc::Global;

/// The sort of texts of a number.
fn sort_at(number: u32) -> Option<TextSort>
    ensures { option_map sort_of result ≡ sort_at number }
{
    match number {
        0 => Some(TextSort::Script),
        1 => Some(TextSort::Calls),
        _ => None,
    }
}

/// A word that names some. `Unknown` where it is no UTF-8, since that names nobody; `Memory`.
fn named(alloc: Global, who: &[u8]) -> Result<String, Fault>
    ensures { MatchResult result (λ word. (string_bytes word ≡ who.now) × IsUtf8 who.now) (λ fault. IsUnnamed who.now fault) }
{
    match str::from_utf8(who) {
        Ok(who) => Ok(String::from_str(alloc, who)?),
        Err(_) => Err(Fault::Unknown),
    }
}

/// A word that names those whose sight is marked, if there is one. Faults as of `named`.
fn marked(alloc: Global, who: &[u8]) -> Result<Option<String>, Fault>
    ensures { MatchResult result (λ word. (option_map string_bytes word ≡ marked_in who.now) × IsUtf8 who.now) (λ fault. IsUnnamed who.now fault) }
{
    if who.is_empty() {
        return Ok(None);
    }
    Ok(Some(named(alloc, who)?))
}

/// Does what is asked of a text, and copies what is told as far as there is room.
fn told(alloc: Global, request: &Request, text: &[u8], out: &mut [u8]) -> Said
    ensures { Copies (asked request.now) text.now result out.old out.new }
{
    let answer = answer_text(alloc, request, text);
    copied(answer.told.as_slice(), 0, out);
    ending(answer.ended, answer.told.len())
}

/// Runs a text in a world of its own, and copies what it tells as far as there is room. Of a bad text that is what comes after the name of a file.
#[unsafe(no_mangle)]
pub extern "C" fn hurd_run(alloc: Global, sort: u32, text: &[u8], out: &mut [u8]) -> Said
    ensures { OfSort sort running text.now result out.old out.new }
{
    let Some(sort) = sort_at(sort) else {
        return status_only(6);
    };
    let verb = Verb::Run;
    told(alloc, &Request { sort, verb }, text, out)
}

/// The same, with what those that WHO names learn: users by their names, or tasks by their numbers, between commas. Where one of them isn't in the text,
/// what comes after the name of a file is copied.
#[unsafe(no_mangle)]
pub extern "C" fn hurd_learn(
    alloc: Global,
    sort: u32,
    text: &[u8],
    who: &[u8],
    out: &mut [u8],
) -> Said
    ensures { OfSome who.now sort (λ s. learning s None who.now) text.now result out.old out.new }
{
    let Some(sort) = sort_at(sort) else {
        return status_only(6);
    };
    match named(alloc, who) {
        Ok(who) => {
            let verb = Verb::Learn { who, most: None };
            told(alloc, &Request { sort, verb }, text, out)
        }
        Err(fault) => ending(Err(fault), 0),
    }
}

/// The same of all that those see at the end of a text.
#[unsafe(no_mangle)]
pub extern "C" fn hurd_see(
    alloc: Global,
    sort: u32,
    text: &[u8],
    who: &[u8],
    out: &mut [u8],
) -> Said
    ensures { OfSome who.now sort (λ s. seeing s None who.now) text.now result out.old out.new }
{
    let Some(sort) = sort_at(sort) else {
        return status_only(6);
    };
    match named(alloc, who) {
        Ok(who) => {
            let verb = Verb::See { who, most: None };
            told(alloc, &Request { sort, verb }, text, out)
        }
        Err(fault) => ending(Err(fault), 0),
    }
}

/// The same of what those could be shown at the end of a text, and by whose help: of every part if `every` isn't 0, else of bytes, entries and nodes.
#[unsafe(no_mangle)]
pub extern "C" fn hurd_can(
    alloc: Global,
    sort: u32,
    text: &[u8],
    who: &[u8],
    every: u32,
    out: &mut [u8],
) -> Said
    ensures { OfSome who.now sort (λ s. could s (not (every == 0)) false who.now) text.now result out.old out.new }
{
    let Some(sort) = sort_at(sort) else {
        return status_only(6);
    };
    match named(alloc, who) {
        Ok(who) => {
            let every = every != 0;
            let verb = Verb::Can {
                who,
                every,
                how: false,
            };
            told(alloc, &Request { sort, verb }, text, out)
        }
        Err(fault) => ending(Err(fault), 0),
    }
}

/// The same of a picture of the world at the end of a text. What those that WHO names see is marked; nobody's sight is where it has no bytes.
#[unsafe(no_mangle)]
pub extern "C" fn hurd_draw(
    alloc: Global,
    sort: u32,
    text: &[u8],
    who: &[u8],
    out: &mut [u8],
) -> Said
    ensures { OfSome who.now sort (λ s. drawing s false (marked_in who.now)) text.now result out.old out.new }
{
    let Some(sort) = sort_at(sort) else {
        return status_only(6);
    };
    match marked(alloc, who) {
        Ok(who) => {
            let verb = Verb::Draw { who, can: false };
            told(alloc, &Request { sort, verb }, text, out)
        }
        Err(fault) => ending(Err(fault), 0),
    }
}
