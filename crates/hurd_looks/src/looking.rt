//! Two views.
ghost use Rattle.std.specs.Prelude.{◌≡◌, ◌↔◌, ◌∷◌, [], Some, IfOk, IsTrue, map, option_copied, slice_get};
ghost use Rattle.hurd_creds.specs.declared.name.Name.{Name};
ghost use Rattle.hurd_nodes.specs.Shown.{boot_name};
ghost use Rattle.hurd_sight.specs.Reach.{among};
ghost use Rattle.hurd_views.specs.Views.{or_no_row};
ghost use Rattle.hurd_views.specs.declared.rows.Row.{Row};
ghost use Rattle.hurd_looks.specs.Pairings.{PairUp};
ghost use Rattle.hurd_looks.specs.Renamed.{AreAlike, listed, named_row_renamed, row_renamed};

use crate::meet::{Meet, meet_all};
use crate::pairs::Pairs;
use crate::rows::nothing;
use hurd_creds::TaskId;
use hurd_views::{Row, Rows, View};
use std::alloc::{AllocError, Global};

/// Pairs the names in what is seen under two names; nothing is seen where there is no row. Fails only if memory runs out.
fn meet_seen(row: Option<&Row>, other: Option<&Row>, pairs: &mut Pairs) -> Result<bool, AllocError>
    ensures { IfOk result (λ met. PairUp row_renamed (or_no_row (option_copied row.entry)) (or_no_row (option_copied other.entry)) pairs.old met pairs.new) }
{
    let none = nothing();
    row.unwrap_or(&none).meet(other.unwrap_or(&none), pairs)
}

/// Pairs the names at an index of both, and those in what is seen under them. Fails only if memory runs out.
fn meet_row(some: &Rows, others: &Rows, index: usize, pairs: &mut Pairs) -> Result<bool, AllocError>
    ensures { IfOk result (λ met. (x y : Name × Row) → slice_get (listed some.now) index ≡ Some x → slice_get (listed others.now) index ≡ Some y
        → PairUp named_row_renamed x y pairs.old met pairs.new) }
{
    let (Some(name), Some(other)) = (some.name_at(index), others.name_at(index)) else {
        return Ok(false);
    };
    if !name.meet(&other, pairs)? {
        return Ok(false);
    }
    meet_seen(some.get(name), others.get(other), pairs)
}

/// Pairs the names of two views' rows, in the order in which they were found; whether the rows are the same except for names. Fails only if memory runs out.
fn meet_rows(some: &Rows, others: &Rows, pairs: &mut Pairs) -> Result<bool, AllocError>
    ensures { IfOk result (λ met. PairUp (λ f es. map (named_row_renamed f) es) (listed some.now) (listed others.now) pairs.old met pairs.new) }
{
    if some.len() != others.len() {
        return Ok(false);
    }
    for i in 0..some.len() {
        if !meet_row(some, others, i, pairs)? {
            return Ok(false);
        }
    }
    Ok(true)
}

/// The same of views that count as many tasks, by pairs of which the boot root is the only one. Fails only if memory runs out.
fn alike(one: &View, two: &View, tasks: &[TaskId], pairs: &mut Pairs) -> Result<bool, AllocError>
    requires count { one.now.count ≡ two.now.count }
    requires start { pairs.old ≡ (boot_name, boot_name) ∷ [] }
    ensures { IfOk result (λ alike. IsTrue alike ↔ AreAlike (among tasks.now) one.now two.now) }
{
    if !meet_all(one.seats.as_slice(), two.seats.as_slice(), pairs)? {
        return Ok(false);
    }
    if !meet_rows(&one.rows, &two.rows, pairs)? {
        return Ok(false);
    }
    Ok(pairs.keep_own(tasks))
}

/// Whether the views of some tasks of two worlds are the same except for names of what others made. Fails only if memory runs out.
pub fn look_alike(
    alloc: Global,
    one: &View,
    two: &View,
    tasks: &[TaskId],
) -> Result<bool, AllocError>
    ensures { IfOk result (λ alike. IsTrue alike ↔ AreAlike (among tasks.now) one.now two.now) }
{
    if one.count != two.count {
        return Ok(false);
    }
    let mut pairs = Pairs::new(alloc)?;
    alike(one, two, tasks, &mut pairs)
}
