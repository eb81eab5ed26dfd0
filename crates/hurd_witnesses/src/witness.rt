//! Looking for a command that gets a different reply.
ghost use Rattle.std.specs.Prelude.{◌≡◌, ◌++◌, IfOk, OnOk, codes, decimal};
ghost use Rattle.hurd_witnesses.specs.Answers.{answer_of, first_difference, marks_of};
ghost use Rattle.hurd_words.specs.Marks.{marked};
ghost use Rattle.hurd_words.specs.Printing.{text_if};
ghost use Rattle.hurd_witnesses.specs.Witnesses.{ended, labelled, no_witness_text, place_text, replies_text, said_by, shown_text, text_before, told_apart, tried, witness_by, witness_of, witness_text};

use crate::answers::answer;
use crate::hunt::{Hunt, push_line, text_of};
use crate::shown::{first_difference, marks_of, shown_answer};
use hurd_creds::Bytes;
use hurd_dialogue::Telling;
use hurd_words::answers::Answer;
use hurd_words::marks::push_marked;
use itoa::Buffer;
use std::alloc::{AllocError, Global};

/// A command that gets a different reply: a line of a script, and its replies before and after what was done.
#[derive(Debug, Drop)]
pub struct Witness {
    pub trial: Bytes,
    pub before: Answer,
    pub after: Answer,
}

/// What a line is told as the last of a text; nothing where it is bad there. Fails only if memory runs out.
fn answer_behind<T: Telling>(
    alloc: Global,
    text: &[u8],
    line: &[u8],
) -> Result<Option<Answer>, AllocError>
    ensures { IfOk result (λ told. told ≡ answer_of T.sort (text.now ++ ended line.now)) }
{
    let mut whole = Vec::from_slice(alloc, text)?;
    push_line(&mut whole, line)?;
    answer::<T>(alloc, whole.as_slice())
}

/// What is printed of an answer with marks. Fails only if memory runs out.
fn marked(alloc: Global, answer: &Answer) -> Result<Vec<u8>, AllocError>
    ensures { IfOk result (λ text. text.items ≡ marked answer.now) }
{
    let mut text = Vec::new(alloc);
    push_marked(&mut text, answer)?;
    Ok(text)
}

/// The witness that a trial is, if it gets two different replies. Fails only if memory runs out.
fn told_apart(
    alloc: Global,
    trial: &Bytes,
    before: Option<Answer>,
    after: Option<Answer>,
) -> Result<Option<Witness>, AllocError>
    ensures { IfOk result (λ witness. witness ≡ told_apart trial.now before after) }
{
    let (Some(before), Some(after)) = (before, after) else {
        return Ok(None);
    };
    let first = marked(alloc, &before)?;
    let second = marked(alloc, &after)?;
    if first.as_slice() == second.as_slice() {
        return Ok(None);
    }
    let trial = Bytes::copied(alloc, trial.as_slice())?;
    Ok(Some(Witness {
        trial,
        before,
        after,
    }))
}

/// Whether a line is a witness where it is added to two texts. Fails only if memory runs out.
fn tried<T: Telling>(
    alloc: Global,
    before: &[u8],
    behind: &[u8],
    trial: &Bytes,
) -> Result<Option<Witness>, AllocError>
    ensures { IfOk result (λ witness. witness ≡ tried T.sort before.now behind.now trial.now) }
{
    let first = answer_behind::<T>(alloc, before, trial.as_slice())?;
    let second = answer_behind::<T>(alloc, behind, trial.as_slice())?;
    told_apart(alloc, trial, first, second)
}

/// The first of some lines that is answered otherwise as the last line of one text than of another. Fails only if memory runs out.
pub fn witness_of<T: Telling>(
    alloc: Global,
    before: &[u8],
    behind: &[u8],
    trials: &[Bytes],
) -> Result<Option<Witness>, AllocError>
    ensures { IfOk result (λ witness. witness ≡ witness_of T.sort before.now behind.now trials.now) }
{
    for trial in trials {
        if let Some(witness) = tried::<T>(alloc, before, behind, trial)? {
            return Ok(Some(witness));
        }
    }
    Ok(None)
}

/// The script up to a command. Fails only if memory runs out.
fn text_before(alloc: Global, hunt: &Hunt, made: usize) -> Result<Vec<u8>, AllocError>
    ensures { IfOk result (λ text. text.items ≡ text_before hunt.now made) }
{
    let mut text = Vec::from_slice(alloc, hunt.front.as_slice())?;
    let commands = text_of(alloc, hunt.commands.as_slice(), made)?;
    text.extend_from_slice(commands.as_slice())?;
    Ok(text)
}

/// The first trial that is answered otherwise after the command before which so many stand. Fails only if memory runs out.
fn witness_by<T: Telling>(
    alloc: Global,
    hunt: &Hunt,
    made: usize,
    trials: &[Bytes],
) -> Result<Option<Witness>, AllocError>
    ensures { IfOk result (λ witness. witness ≡ witness_by T.sort hunt.now made trials.now) }
{
    let Some(line) = hunt.commands.as_slice().get(made) else {
        return Ok(None);
    };
    let before = text_before(alloc, hunt, made)?;
    let mut behind = Vec::from_slice(alloc, before.as_slice())?;
    push_line(&mut behind, line.as_slice())?;
    witness_of::<T>(alloc, before.as_slice(), behind.as_slice(), trials)
}

/// Adds a number.
fn push_number(text: &mut Vec<u8>, number: usize) -> Result<(), AllocError>
    ensures { OnOk result (text.new.items ≡ text.old.items ++ decimal number) }
{
    text.extend_from_slice(Buffer::new().format(number).as_bytes())
}

/// Adds how many commands were tried without success.
fn push_tried(text: &mut Vec<u8>, tried: usize) -> Result<(), AllocError>
    ensures { OnOk result (text.new.items ≡ text.old.items ++ (codes "    tried " ++ (decimal tried ++ codes " commands: none shows it\n"))) }
{
    text.extend_from_slice(b"    tried ")?;
    push_number(text, tried)?;
    text.extend_from_slice(b" commands: none shows it\n")?;
    Ok(())
}

/// Adds that no command is a witness, and how many were tried.
fn push_none(text: &mut Vec<u8>, tried: usize) -> Result<(), AllocError>
    ensures { OnOk result (text.new.items ≡ text.old.items ++ no_witness_text tried) }
{
    if tried == 0 {
        text.extend_from_slice(b"    nothing to try: not a path\n")
    } else {
        push_tried(text, tried)
    }
}

/// Adds a line after its label.
fn push_labelled(text: &mut Vec<u8>, label: &[u8], said: &[u8]) -> Result<(), AllocError>
    ensures { OnOk result (text.new.items ≡ text.old.items ++ labelled label.now said.now) }
{
    text.extend_from_slice(label)?;
    text.extend_from_slice(said)?;
    text.push(b'\n')?;
    Ok(())
}

/// Adds from which byte on two replies differ.
fn push_place(text: &mut Vec<u8>, place: usize) -> Result<(), AllocError>
    ensures { OnOk result (text.new.items ≡ text.old.items ++ place_text place) }
{
    text.extend_from_slice(b"      differ: from byte ")?;
    push_number(text, place)?;
    text.extend_from_slice(b" on\n")?;
    Ok(())
}

/// The same if both are shown alike.
fn push_differ(
    alloc: Global,
    text: &mut Vec<u8>,
    alike: bool,
    before: &Answer,
    after: &Answer,
) -> Result<(), AllocError>
    ensures { OnOk result (text.new.items ≡ text.old.items
        ++ text_if alike (place_text (first_difference (marks_of before.now.content) (marks_of after.now.content)))) }
{
    if !alike {
        return Ok(());
    }
    let one = marks_of(alloc, &before.content)?;
    let two = marks_of(alloc, &after.content)?;
    push_place(text, first_difference(one.as_slice(), two.as_slice()))
}

/// Adds both replies, each on a line of its own.
fn push_replies(
    alloc: Global,
    text: &mut Vec<u8>,
    before: &Answer,
    after: &Answer,
) -> Result<(), AllocError>
    ensures { OnOk result (text.new.items ≡ text.old.items ++ replies_text before.now after.now) }
{
    let first = shown_answer(alloc, before)?;
    let second = shown_answer(alloc, after)?;
    push_labelled(text, b"      before: ", first.as_slice())?;
    push_labelled(text, b"      after:  ", second.as_slice())?;
    let alike = first.as_slice() == second.as_slice();
    push_differ(alloc, text, alike, before, after)
}

/// Adds a witness: its line, and both replies. Fails only if memory runs out.
pub fn push_shown(alloc: Global, text: &mut Vec<u8>, witness: &Witness) -> Result<(), AllocError>
    ensures { OnOk result (text.new.items ≡ text.old.items ++ shown_text witness.now) }
{
    push_labelled(text, b"    try ", witness.trial.as_slice())?;
    push_replies(alloc, text, &witness.before, &witness.after)
}

/// Adds what is said of a witness, or that there is none.
fn push_witness(
    alloc: Global,
    text: &mut Vec<u8>,
    tried: usize,
    witness: &Option<Witness>,
) -> Result<(), AllocError>
    ensures { OnOk result (text.new.items ≡ text.old.items ++ witness_text tried witness.now) }
{
    match witness {
        Some(witness) => push_shown(alloc, text, witness),
        None => push_none(text, tried),
    }
}

/// Adds what is said of what was learned by the command before which so many stand, by these trials.
pub(crate) fn push_said<T: Telling>(
    alloc: Global,
    text: &mut Vec<u8>,
    hunt: &Hunt,
    made: usize,
    trials: &[Bytes],
) -> Result<(), AllocError>
    ensures { OnOk result (text.new.items ≡ text.old.items ++ said_by T.sort hunt.now made trials.now) }
{
    let witness = witness_by::<T>(alloc, hunt, made, trials)?;
    push_witness(alloc, text, trials.len(), &witness)
}
