//! What is printed of two scripts.
ghost use Rattle.std.specs.Prelude.{◌≡◌, ◌++◌, IfOk, OnOk, codes};
ghost use Rattle.hurd_pairs.specs.Lines.{line_before};
ghost use Rattle.hurd_pairs.specs.Reports.{get_of, difference_text, place_text, places_text, report_text, second_word, seen_text, told_text, verdict_of};

use crate::difference::{Compared, Difference, Verdict};
use crate::lines::line_before;
use hurd_creds::TaskId;
use hurd_teaching::Learners;
use itoa::Buffer;
use std::alloc::{AllocError, Global};

/// A text, with how many lines that say something stand before its parts, and one.
#[derive(Drop)]
pub(crate) struct Lined<'a> {
    pub text: &'a [u8],
    pub heading: usize,
}

/// Adds a place in a text: the line of a number, after a word, or the end.
#[tactic(auto, unfolding(crate::specs::Reports::place_text))]
fn push_place(text: &mut Vec<u8>, word: &str, line: Option<usize>) -> Result<(), AllocError>
    ensures { OnOk result (text.new.items ≡ text.old.items ++ place_text word.now line) }
{
    match line {
        Some(line) => {
            text.extend_from_slice(word.as_bytes())?;
            text.extend_from_slice(Buffer::new().format(line).as_bytes())
        }
        None => text.extend_from_slice(b" at the end"),
    }
}

/// The word before a line of the second text: where a line of the first is named, it is not said again what it is to the place.
fn second_word(word: &str, one: Option<usize>) -> &str
    ensures { result.now ≡ second_word word.now one }
{
    match one {
        Some(_) => " line ",
        None => word,
    }
}

/// Adds a place in each of two texts.
#[tactic(auto, unfolding(crate::specs::Reports::places_text))]
fn push_places(
    text: &mut Vec<u8>,
    word: &str,
    one: Option<usize>,
    two: Option<usize>,
) -> Result<(), AllocError>
    ensures { OnOk result (text.new.items ≡ text.old.items ++ places_text word.now one two) }
{
    push_place(text, word, one)?;
    text.extend_from_slice(b" of the first script,")?;
    push_place(text, second_word(word, one), two)?;
    text.extend_from_slice(b" of the second")?;
    Ok(())
}

/// Adds a difference: the places, between a word and another text, and what is said of it.
#[tactic(auto, unfolding(crate::specs::Reports::difference_text))]
fn push_difference(
    alloc: Global,
    text: &mut Vec<u8>,
    word: &str,
    end: &str,
    one: &Lined<'_>,
    two: &Lined<'_>,
    difference: &Difference,
) -> Result<(), AllocError>
    ensures { OnOk result (text.new.items ≡ text.old.items ++ difference_text word.now end.now (line_before one.now.heading one.now.text.now) (line_before two.now.heading two.now.text.now) difference.now) }
{
    let first = line_before(alloc, one.heading, one.text, difference.one)?;
    let second = line_before(alloc, two.heading, two.text, difference.two)?;
    push_places(text, word, first, second)?;
    text.extend_from_slice(end.as_bytes())?;
    text.extend_from_slice(difference.said.as_slice())
}

/// Adds where some first see a difference.
fn push_seen(
    alloc: Global,
    text: &mut Vec<u8>,
    learners: &Learners,
    one: &Lined<'_>,
    two: &Lined<'_>,
    seen: &Option<Difference>,
) -> Result<(), AllocError>
    ensures { OnOk result (text.new.items ≡ text.old.items ++ seen_text learners.now.sees.items (line_before one.now.heading one.now.text.now) (line_before two.now.heading two.now.text.now) seen.now) }
{
    text.extend_from_slice(learners.sees.as_slice())?;
    match seen {
        Some(seen) => {
            text.extend_from_slice(b" a difference")?;
            push_difference(
                alloc,
                text,
                " before line ",
                "; first -> second:\n",
                one,
                two,
                seen,
            )
        }
        None => text.extend_from_slice(b" the same\n"),
    }
}

/// What follows the names of those who get a reply.
fn get(tasks: &[TaskId]) -> &'static [u8]
    ensures { result.now ≡ get_of tasks.now }
{
    if tasks.len() > 1 { b" get" } else { b" gets" }
}

/// Adds where some first get a different reply.
fn push_told(
    alloc: Global,
    text: &mut Vec<u8>,
    learners: &Learners,
    one: &Lined<'_>,
    two: &Lined<'_>,
    told: &Option<Difference>,
) -> Result<(), AllocError>
    ensures { OnOk result (text.new.items ≡ text.old.items ++ told_text (learners.now.names.items ++ get_of learners.now.tasks.items)
        (line_before one.now.heading one.now.text.now) (line_before two.now.heading two.now.text.now) told.now) }
{
    text.extend_from_slice(learners.names.as_slice())?;
    text.extend_from_slice(get(learners.tasks.as_slice()))?;
    match told {
        Some(told) => {
            text.extend_from_slice(b" a different reply")?;
            push_difference(alloc, text, " at line ", ":\n", one, two, told)
        }
        None => text.extend_from_slice(b" the same replies\n"),
    }
}

/// The report on two texts. Fails only if memory runs out.
pub(crate) fn report(
    alloc: Global,
    learners: &Learners,
    one: &Lined<'_>,
    two: &Lined<'_>,
    compared: &Compared,
) -> Result<Vec<u8>, AllocError>
    ensures { IfOk result (λ text. text.items ≡ report_text learners.now (line_before one.now.heading one.now.text.now) (line_before two.now.heading two.now.text.now) compared.now) }
{
    let mut text = Vec::new(alloc);
    push_seen(alloc, &mut text, learners, one, two, &compared.seen)?;
    push_told(alloc, &mut text, learners, one, two, &compared.told)?;
    Ok(text)
}

/// Whether some get the same replies.
pub(crate) fn verdict(compared: &Compared) -> Verdict
    ensures { result ≡ verdict_of compared.now.told }
{
    match compared.told {
        Some(_) => Verdict::Different,
        None => Verdict::Same,
    }
}
