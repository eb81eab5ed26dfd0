//! Two texts on their way, compared whenever some tasks do something.
ghost use Rattle.std.specs.Prelude.{◌≡◌, ◌++◌, ◌&&◌, IfOk, OnOk, Option, is_some};
ghost use Rattle.hurd_sight.specs.Reach.{among};
ghost use Rattle.hurd_words.specs.declared.answers.Answer.{Answer};
ghost use Rattle.hurd_world.specs.Held.{world_of};
ghost use Rattle.hurd_pairs.specs.Differences.{Compares, SeeAlike, SeeOther, both_answers, marked_or_none};
ghost use Rattle.hurd_pairs.specs.Moments.{moments_left};
ghost use Rattle.hurd_pairs.specs.Steps.{HearsAt, IsSeenSo, Looks, StepsTo};

use crate::difference::{Compared, Difference};
use crate::own::reach_own;
use hurd_creds::{Bytes, Same};
use hurd_dialogue::Telling;
use hurd_lessons::tell_apart;
use hurd_looks::look_alike;
use hurd_teaching::{Learners, view_of};
use hurd_trans_iface::Server;
use hurd_words::answers::Answer;
use hurd_words::marks::push_marked;
use hurd_world::World;
use std::alloc::{AllocError, Global};

/// What some see otherwise of the second world than of the first, in lines; nothing where nothing differs but names of what others made. Fails only if
/// memory runs out.
fn seen_otherwise<S: Server>(
    alloc: Global,
    one: &World<S>,
    two: &World<S>,
    learners: &Learners,
) -> Result<Option<Bytes>, AllocError>
    ensures { IfOk result (λ said. IsSeenSo learners.now.tasks.items learners.now.sees.items (world_of S.meaning one.now) (world_of S.meaning two.now) said) }
{
    let first = view_of(alloc, one, learners.tasks.as_slice())?;
    let second = view_of(alloc, two, learners.tasks.as_slice())?;
    if look_alike(alloc, &first, &second, learners.tasks.as_slice())? {
        return Ok(None);
    }
    let said = tell_apart(alloc, learners.sees.as_slice(), &first, &second)?;
    Ok(Some(said))
}

/// Compares what some see of the worlds of two texts on their way, unless something else was seen before. Fails only if memory runs out.
fn look<T: Telling>(
    alloc: Global,
    one: &T,
    two: &T,
    learners: &Learners,
    seen: &mut Option<Difference>,
) -> Result<(), AllocError>
    ensures { OnOk result ((s t : Option Answer) → Looks learners.now.tasks.items learners.now.sees.items
        (record { made = (T.way one.now).told; world = (T.way one.now).world; answer = s }) (record { made = (T.way two.now).told; world = (T.way two.now).world; answer = t })
        seen.old seen.new) }
{
    if seen.is_some() {
        return Ok(());
    }
    if let Some(said) = seen_otherwise(alloc, one.world(), two.world(), learners)? {
        *seen = Some(Difference {
            one: one.told(),
            two: two.told(),
            said,
        });
    }
    Ok(())
}

/// Adds an answer with its marks, or that there is none.
fn push_answer(text: &mut Vec<u8>, answer: &Option<Answer>) -> Result<(), AllocError>
    ensures { OnOk result (text.new.items ≡ text.old.items ++ marked_or_none answer.now) }
{
    match answer {
        Some(answer) => push_marked(text, answer),
        None => text.extend_from_slice(b"(nothing)\n"),
    }
}

/// Two answers, one below the other. Fails only if memory runs out.
fn both_answers(
    alloc: Global,
    one: &Option<Answer>,
    two: &Option<Answer>,
) -> Result<Bytes, AllocError>
    ensures { IfOk result (λ text. text ≡ both_answers one.now two.now) }
{
    let mut text = Vec::from_slice(alloc, b"the first: ")?;
    push_answer(&mut text, one)?;
    text.extend_from_slice(b"the second: ")?;
    push_answer(&mut text, two)?;
    Ok(Bytes::new(text))
}

/// Compares what is answered in two texts, after so many parts in each, unless a different answer was found before. Fails only if memory runs out.
fn hear(
    alloc: Global,
    made: (usize, usize),
    one: &Option<Answer>,
    two: &Option<Answer>,
    told: &mut Option<Difference>,
) -> Result<(), AllocError>
    ensures { OnOk result (HearsAt made.0 made.1 one.now two.now told.old told.new) }
{
    if told.is_some() {
        return Ok(());
    }
    if one.same(two) {
        return Ok(());
    }
    let said = both_answers(alloc, one, two)?;
    *told = Some(Difference {
        one: made.0,
        two: made.1,
        said,
    });
    Ok(())
}

/// Whether there are two answers.
fn are_both(part: &Option<Answer>, other: &Option<Answer>) -> bool
    ensures { result ≡ (is_some part.now && is_some other.now) }
{
    part.is_some() && other.is_some()
}

/// Goes on in both texts to what some do next, compares what they see there and what they are told of it; whether there was something in both. Fails only
/// if memory runs out.
fn step<T: Telling>(
    alloc: Global,
    one: &mut T,
    two: &mut T,
    learners: &Learners,
    compared: &mut Compared,
) -> Result<bool, AllocError>
    ensures { IfOk result (λ more. StepsTo learners.now.tasks.items learners.now.sees.items (T.way one.old) (T.way two.old) compared.old
        more (T.way one.new) (T.way two.new) compared.new) }
{
    reach_own(alloc, one, learners)?;
    reach_own(alloc, two, learners)?;
    look(alloc, one, two, learners, &mut compared.seen)?;
    let made = (one.told(), two.told());
    let part = one.next(alloc)?;
    let other = two.next(alloc)?;
    hear(alloc, made, &part, &other, &mut compared.told)?;
    Ok(are_both(&part, &other))
}

/// Compares two texts on their way up to their ends, or until both differences are found. Fails only if memory runs out.
pub(crate) fn compare<T: Telling>(
    alloc: Global,
    one: &mut T,
    two: &mut T,
    learners: &Learners,
) -> Result<Compared, AllocError>
    ensures { IfOk result (λ c. Compares (SeeAlike learners.now.tasks.items) (SeeOther learners.now.tasks.items) learners.now.tasks.items learners.now.sees.items
        (moments_left (among learners.now.tasks.items) (T.way one.old)) (moments_left (among learners.now.tasks.items) (T.way two.old)) c) }
{
    let mut compared = Compared {
        seen: None,
        told: None,
    };
    'steps: loop {
        if !step(alloc, one, two, learners, &mut compared)? {
            return Ok(compared);
        }
        if compared.seen.is_some() && compared.told.is_some() {
            return Ok(compared);
        }
    }
}
