//! Scripts that are tried: whether one shows WHO a part, what of it does, and which command shows by its replies that it does.
ghost use Rattle.std.specs.Prelude.{◌≡◌, ◌≢◌, ◌↔◌, ◌++◌, ◌-◌, [], ◌∷◌, false, IfOk, IsTrue, OnOk};
ghost use Rattle.std.specs.Option.{option_map, option_or};
ghost use Rattle.hurd_dialogue.specs.Parts.{world_behind};
ghost use Rattle.hurd_machine.specs.Sight.{Sees};
ghost use Rattle.hurd_sight.specs.Parts.{part_of};
ghost use Rattle.hurd_sight.specs.Reach.{among};
ghost use Rattle.hurd_terminal.specs.declared.fault.Fault.{Fault};
ghost use Rattle.hurd_witnesses.specs.Witnesses.{text_up_to};
ghost use Rattle.hurd_can.specs.Tried.{FirstTried, Pared, SaysWay, Shows, ShowsWith, Tried, done_only, evidence, evidence_text, moved_in, none_found, way_text, witness_at, with_lines};
ghost use Rattle.hurd_witnesses.specs.Trials.{trials_on};
ghost use Rattle.hurd_can.specs.Ways.{each_does, set_name, way_by_all, way_by_helpers};

use crate::looking::look;
use crate::ways::{
    HelpSet, add_names, helper_names, push_each, push_set, way_by_all, way_by_helpers,
};
use hurd_creds::{Bytes, TaskId};
use hurd_dialogue::{Telling, play_silently};
use hurd_sight::SeenPart;
use hurd_terminal::Fault;
use hurd_witnesses::{Witness, lines_before, push_shown, text_up_to, trials_on, witness_of};
use hurd_words::answers::Ending;
use std::alloc::{AllocError, Global};

/// What is to be shown to whom, after a script.
#[derive(Clone, Copy)]
pub struct Trial<'a> {
    /// WHO, that is, those to whom it is to be shown.
    pub who: &'a [TaskId],
    /// What they are to be shown.
    pub part: SeenPart,
    /// How many commands come before the one that changed it last, if one did.
    pub made: Option<usize>,
    /// The command that looks at it.
    pub look: &'a [u8],
    /// The script.
    pub text: &'a [u8],
}

/// A text that was not begun shows nothing. Fails only if memory runs out.
fn nothing_shown(fault: Fault) -> Result<bool, AllocError>
    ensures { IfOk result (λ shown. (shown ≡ false) × (fault ≢ Fault.Memory)) }
{
    match fault {
        Fault::Memory => Err(AllocError),
        Fault::Read | Fault::Write | Fault::Bad { .. } | Fault::Unknown | Fault::Boot(_) => {
            Ok(false)
        }
    }
}

/// Whether a text on its way shows a part at its end. Fails only if memory runs out.
fn shows_at_end<T: Telling>(
    alloc: Global,
    telling: &mut T,
    who: &[TaskId],
    part: SeenPart,
) -> Result<bool, AllocError>
    ensures { IfOk result (λ shown. IsTrue shown ↔ Sees (among who.now) (world_behind (T.way telling.old).world (T.way telling.old).left) (part_of part)) }
{
    play_silently(alloc, telling)?;
    let core = telling.world().core();
    let sight = look(alloc, core.nodes(), core.ports(), who)?;
    Ok(sight.sees(core.nodes(), part))
}

/// Whether a text is good, and shows a part at its end. Fails only if memory runs out.
fn shows<T: Telling>(
    alloc: Global,
    who: &[TaskId],
    part: SeenPart,
    text: &[u8],
) -> Result<bool, AllocError>
    ensures { IfOk result (λ shown. IsTrue shown ↔ Shows T.sort who.now part text.now) }
{
    match T::begun(alloc, text) {
        Ok(mut telling) => shows_at_end(alloc, &mut *telling, who, part),
        Err(fault) => nothing_shown(fault),
    }
}

/// Adds lines to a text.
fn push_lines(text: &mut Vec<u8>, lines: &[Bytes]) -> Result<(), AllocError>
    ensures { OnOk result (text.new.items ≡ with_lines text.old.items lines.now) }
{
    for line in lines {
        text.extend_from_slice(line.as_slice())?;
        text.push(b'\n')?;
    }
    Ok(())
}

/// Whether these lines after the script show the part, first some and then others. Fails only if memory runs out.
fn shows_with<T: Telling>(
    alloc: Global,
    trial: &Trial<'_>,
    first: &[Bytes],
    rest: &[Bytes],
) -> Result<bool, AllocError>
    ensures { IfOk result (λ shown. IsTrue shown ↔ ShowsWith T.sort trial.now.who.now trial.now.part trial.now.text.now (first.now ++ rest.now)) }
{
    let mut text = Vec::from_slice(alloc, trial.text)?;
    text.push(b'\n')?;
    push_lines(&mut text, first)?;
    push_lines(&mut text, rest)?;
    shows::<T>(alloc, trial.who, trial.part, text.as_slice())
}

/// Lines without those that can be left out. Fails only if memory runs out.
fn pared<T: Telling>(
    alloc: Global,
    trial: &Trial<'_>,
    lines: &[Bytes],
) -> Result<Vec<Bytes>, AllocError>
    ensures { IfOk result (λ pared. Pared (ShowsWith T.sort trial.now.who.now trial.now.part trial.now.text.now) [] lines.now pared.items) }
{
    let mut kept = Vec::new(alloc);
    for (i, line) in lines.iter().enumerate() {
        if !shows_with::<T>(alloc, trial, kept.as_slice(), &lines[i + 1..])? {
            kept.push(Bytes::copied(alloc, line.as_slice())?)?;
        }
    }
    Ok(kept)
}

/// What is left of lines that show the part; none if they don't. Fails only if memory runs out.
fn tried<T: Telling>(
    alloc: Global,
    trial: &Trial<'_>,
    lines: &[Bytes],
) -> Result<Option<Vec<Bytes>>, AllocError>
    ensures { IfOk result (λ way. Tried (ShowsWith T.sort trial.now.who.now trial.now.part trial.now.text.now) lines.now (option_map (λ pared. pared.items) way)) }
{
    if shows_with::<T>(alloc, trial, lines, &[])? {
        Ok(Some(pared::<T>(alloc, trial, lines)?))
    } else {
        Ok(None)
    }
}

/// What is left of the first script that shows the part: of that of the helpers, and of that of all. Fails only if memory runs out.
fn way_of<T: Telling>(
    alloc: Global,
    trial: &Trial<'_>,
    names: &[Bytes],
    path: &[u8],
    set: HelpSet,
) -> Result<Option<Vec<Bytes>>, AllocError>
    ensures { IfOk result (λ way. FirstTried (ShowsWith T.sort trial.now.who.now trial.now.part trial.now.text.now) (way_by_helpers names.now set path.now) (way_by_all names.now set trial.now.who.now path.now) (option_map (λ pared. pared.items) way)) }
{
    let lines = way_by_helpers(alloc, names, set, path)?;
    if let Some(way) = tried::<T>(alloc, trial, lines.as_slice())? {
        return Ok(Some(way));
    }
    let others = way_by_all(alloc, names, set, trial.who, path)?;
    tried::<T>(alloc, trial, others.as_slice())
}

/// Adds lines, each moved in.
fn push_moved_in(text: &mut Vec<u8>, lines: &[Bytes]) -> Result<(), AllocError>
    ensures { OnOk result (text.new.items ≡ moved_in text.old.items lines.now) }
{
    for line in lines {
        text.extend_from_slice(b"      ")?;
        text.extend_from_slice(line.as_slice())?;
        text.push(b'\n')?;
    }
    Ok(())
}

/// The first lines of the script, up to a command, and these lines after them. Fails only if memory runs out.
fn text_before<T: Telling>(
    alloc: Global,
    trial: &Trial<'_>,
    made: usize,
    lines: &[Bytes],
) -> Result<Vec<u8>, AllocError>
    ensures { IfOk result (λ text. text.items ≡ with_lines (text_up_to trial.now.text.now (T.sort.heading trial.now.text.now - 1) made) lines.now) }
{
    let first = lines_before::<T>(alloc, trial.text)?;
    let mut text = text_up_to(alloc, trial.text, first, made)?;
    push_lines(&mut text, lines)?;
    Ok(text)
}

/// The script, and these lines after it. Fails only if memory runs out.
fn text_after(alloc: Global, trial: &Trial<'_>, lines: &[Bytes]) -> Result<Vec<u8>, AllocError>
    ensures { IfOk result (λ text. text.items ≡ with_lines (trial.now.text.now ++ 10 ∷ []) lines.now) }
{
    let mut text = Vec::from_slice(alloc, trial.text)?;
    text.push(b'\n')?;
    push_lines(&mut text, lines)?;
    Ok(text)
}

/// With these lines after it, the first of some commands that is answered otherwise at the end of the script than before the command that changed the part last.
/// Fails only if memory runs out.
fn witness_at<T: Telling>(
    alloc: Global,
    trial: &Trial<'_>,
    lines: &[Bytes],
    trials: &[Bytes],
) -> Result<Option<Witness>, AllocError>
    ensures { IfOk result (λ witness. witness ≡ witness_at T.sort trial.now.text.now trial.now.made lines.now trials.now) }
{
    let Some(made) = trial.made else {
        return Ok(None);
    };
    let before = text_before::<T>(alloc, trial, made, lines)?;
    let after = text_after(alloc, trial, lines)?;
    witness_of::<T>(alloc, before.as_slice(), after.as_slice(), trials)
}

/// The same of looks of these users at a path.
fn look_at<T: Telling>(
    alloc: Global,
    trial: &Trial<'_>,
    lines: &[Bytes],
    users: &[Bytes],
    path: &[u8],
) -> Result<Option<Witness>, AllocError>
    ensures { IfOk result (λ witness. witness ≡ witness_at T.sort trial.now.text.now trial.now.made lines.now (each_does trial.now.look.now path.now [] users.now)) }
{
    let mut trials = Vec::new(alloc);
    push_each(alloc, &mut trials, users, trial.look, path)?;
    witness_at::<T>(alloc, trial, lines, trials.as_slice())
}

/// The same of other commands, if no look is answered otherwise.
fn found_at<T: Telling>(
    alloc: Global,
    trial: &Trial<'_>,
    lines: &[Bytes],
    users: &[Bytes],
    path: &[u8],
) -> Result<Option<Witness>, AllocError>
    ensures { IfOk result (λ witness. witness ≡ option_or (witness_at T.sort trial.now.text.now trial.now.made lines.now (each_does trial.now.look.now path.now [] users.now))
        (witness_at T.sort trial.now.text.now trial.now.made lines.now (trials_on users.now path.now []))) }
{
    if let Some(witness) = look_at::<T>(alloc, trial, lines, users, path)? {
        return Ok(Some(witness));
    }
    let trials = trials_on(alloc, users, path, b"")?;
    witness_at::<T>(alloc, trial, lines, trials.as_slice())
}

/// A command that is done at the end.
fn done_only(witness: Option<Witness>) -> Option<Witness>
    ensures { result ≡ done_only witness }
{
    let witness = witness?;
    match witness.after.ending {
        Ending::Done => Some(witness),
        _ => None,
    }
}

/// What shows the part: after a script that was found a command of WHO; if none was found, a look of a helper who is told something by it. Fails only if memory
/// runs out.
fn evidence<T: Telling>(
    alloc: Global,
    trial: &Trial<'_>,
    names: &[Bytes],
    path: &[u8],
    set: HelpSet,
    way: Option<&[Bytes]>,
) -> Result<Option<Witness>, AllocError>
    ensures { IfOk result (λ witness. witness ≡ evidence T.sort trial.now.text.now names.now trial.now.who.now trial.now.made trial.now.look.now path.now set (option_map (λ lines. lines.now) way.entry)) }
{
    match way {
        Some(lines) => {
            let mut users = Vec::new(alloc);
            add_names(alloc, &mut users, names, trial.who)?;
            found_at::<T>(alloc, trial, lines, users.as_slice(), path)
        }
        None => {
            let users = helper_names(alloc, names, set)?;
            let found = look_at::<T>(alloc, trial, &[], users.as_slice(), path)?;
            Ok(done_only(found))
        }
    }
}

/// Adds a command that is answered otherwise, if there is one.
fn push_evidence(
    alloc: Global,
    text: &mut Vec<u8>,
    witness: &Option<Witness>,
) -> Result<(), AllocError>
    ensures { OnOk result (text.new.items ≡ text.old.items ++ evidence_text witness.now) }
{
    match witness {
        Some(witness) => push_shown(alloc, text, witness),
        None => Ok(()),
    }
}

/// That no script was found.
fn none_found(witness: &Option<Witness>) -> &'static [u8]
    ensures { result.now ≡ none_found witness.now }
{
    match witness {
        Some(_) => b": no command found; calls do, or telling what this says:\n",
        None => b": no command found; calls do\n",
    }
}

/// What is said of a set of helpers: the script that was found, or that none was; and the command that shows it. Fails only if memory runs out.
fn way_text(
    alloc: Global,
    names: &[Bytes],
    set: HelpSet,
    way: Option<&[Bytes]>,
    witness: &Option<Witness>,
) -> Result<Vec<u8>, AllocError>
    ensures { IfOk result (λ text. text.items ≡ way_text (set_name names.now set) (option_map (λ lines. lines.now) way.entry) witness.now) }
{
    let mut text = Vec::from_slice(alloc, b"    with ")?;
    push_set(&mut text, names, set)?;
    match way {
        None => text.extend_from_slice(none_found(witness))?,
        Some(lines) => {
            text.extend_from_slice(b":\n")?;
            push_moved_in(&mut text, lines)?;
        }
    }
    push_evidence(alloc, &mut text, witness)?;
    Ok(text)
}

/// What is said of a set of helpers, and of the script that was found, if one was. Fails only if memory runs out.
fn said_of<T: Telling>(
    alloc: Global,
    trial: &Trial<'_>,
    names: &[Bytes],
    path: &[u8],
    set: HelpSet,
    way: Option<&[Bytes]>,
) -> Result<Vec<u8>, AllocError>
    ensures { IfOk result (λ text. text.items ≡ way_text (set_name names.now set) (option_map (λ lines. lines.now) way.entry)
        (evidence T.sort trial.now.text.now names.now trial.now.who.now trial.now.made trial.now.look.now path.now set (option_map (λ lines. lines.now) way.entry))) }
{
    let witness = evidence::<T>(alloc, trial, names, path, set, way)?;
    way_text(alloc, names, set, way, &witness)
}

/// What is said of a set of helpers, of a part that all users together see at this path. Fails only if memory runs out.
pub(crate) fn way_said<T: Telling>(
    alloc: Global,
    trial: &Trial<'_>,
    names: &[Bytes],
    path: &[u8],
    set: HelpSet,
) -> Result<Vec<u8>, AllocError>
    ensures { IfOk result (λ text. SaysWay T.sort trial.now.text.now names.now trial.now.who.now trial.now.part trial.now.made trial.now.look.now path.now set text.items) }
{
    let way = way_of::<T>(alloc, trial, names, path, set)?;
    match &way {
        None => said_of::<T>(alloc, trial, names, path, set, None),
        Some(lines) => said_of::<T>(alloc, trial, names, path, set, Some(lines.as_slice())),
    }
}
