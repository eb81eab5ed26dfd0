//! Since which command a part is as it is at the end of a text.
ghost use Rattle.std.specs.Prelude.{◌≡◌, ◌↔◌, None, IfOk, IsTrue};
ghost use Rattle.hurd_core.specs.Core.{world_of};
ghost use Rattle.hurd_can.specs.Dated.{SeenAs, Since, SinceIn, made_before, since_then, worlds_from};
ghost use Rattle.hurd_can.specs.Remembered.{row_of};

use crate::remembering::saw_as;
use hurd_core::Core;
use hurd_creds::TaskId;
use hurd_dialogue::Telling;
use hurd_sight::SeenPart;
use hurd_trans_iface::Server;
use hurd_views::View;
use std::alloc::{AllocError, Global};

/// Whether these tasks together see a part of a world as the last view shows it. Fails only if memory runs out.
fn is_seen_so<S: Server>(
    alloc: Global,
    core: &Core<S>,
    last: &View,
    tasks: &[TaskId],
    part: SeenPart,
) -> Result<bool, AllocError>
    ensures { IfOk result (λ alike. IsTrue alike ↔ SeenAs (row_of last.now part) tasks.now part (world_of S.meaning core.now)) }
{
    let view = Box::new(alloc, View::of(alloc, core, tasks)?)?;
    Ok(saw_as(&view, last, part))
}

/// Since how many commands a part is seen so, one world further; none if it isn't seen so now.
fn since_then(alike: bool, since: Option<usize>, told: usize) -> Option<usize>
    ensures { result ≡ since_then alike since told }
{
    if alike { since.or(Some(told)) } else { None }
}

/// Since how many commands of a text on its way these tasks together see a part as the last view shows it. Fails only if memory runs out.
fn since<T: Telling>(
    alloc: Global,
    telling: &mut T,
    last: &View,
    tasks: &[TaskId],
    part: SeenPart,
) -> Result<Option<usize>, AllocError>
    ensures { IfOk result (λ since. Since (row_of last.now part) tasks.now part (worlds_from (T.way telling.old).world (T.way telling.old).left) (T.way telling.old).told None since) }
{
    let alike = is_seen_so(alloc, telling.world().core(), last, tasks, part)?;
    let mut since = since_then(alike, None, telling.told());
    while let Some(_answer) = telling.next(alloc)? {
        let alike = is_seen_so(alloc, telling.world().core(), last, tasks, part)?;
        since = since_then(alike, since, telling.told());
    }
    Ok(since)
}

/// The same of a text from its beginning on. Fails if memory runs out, or if the text is bad.
pub(crate) fn since_in<T: Telling>(
    alloc: Global,
    text: &[u8],
    last: &View,
    tasks: &[TaskId],
    part: SeenPart,
) -> Result<Option<usize>, AllocError>
    ensures { IfOk result (λ since. SinceIn T.sort text.now (row_of last.now part) tasks.now part since) }
{
    match T::begun(alloc, text) {
        Ok(mut telling) => since(alloc, &mut *telling, last, tasks, part),
        Err(_) => Err(AllocError),
    }
}

/// How many commands come before the one that made it so, if one did.
pub(crate) fn made_before(since: Option<usize>) -> Option<usize>
    ensures { result ≡ made_before since }
{
    match since {
        Some(count) if count > 0 => Some(count - 1),
        _ => None,
    }
}
