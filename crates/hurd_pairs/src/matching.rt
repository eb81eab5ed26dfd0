//! Whether two scripts are a pair.
ghost use Rattle.std.specs.Prelude.{◌≡◌, ◌≤◌, ◌↔◌, ℕ, List, IfOk, IsTrue, length, option_copied, slice_get};
ghost use Rattle.hurd_sight.specs.Reach.{among};
ghost use Rattle.hurd_pairs.specs.Pairs.{CommandsDiffer, IsNextOwn, IsRead, Mismatches};

use crate::difference::Mismatch;
use hurd_creds::Ids;
use hurd_script::{Command, Script, parse_script, same_texts};
use hurd_teaching::Learners;
use std::alloc::{AllocError, Global};

/// Whether these are the same ids in the same order.
fn same_ids(some: &[Ids], others: &[Ids]) -> bool
    ensures { IsTrue result ↔ (some.now ≡ others.now) }
{
    if some.len() != others.len() {
        return false;
    }
    for i in 0..some.len() {
        if !some[i].is_same(&others[i]) {
            return false;
        }
    }
    true
}

/// The place of the next command of these tasks, from a place on; after all commands where none is left.
fn next_own(commands: &[Command], from: usize, learners: &Learners) -> usize
    requires { from ≤ length commands.now }
    ensures { IsNextOwn (among learners.now.tasks.items) commands.now from result }
{
    for at in from..commands.len() {
        if learners.have(commands[at].task()) {
            return at;
        }
    }
    commands.len()
}

/// The command at a place, if there is one.
fn command_at(commands: &[Command], at: usize) -> Option<&Command>
    ensures { option_copied result ≡ slice_get commands.now at }
{
    commands.get(at)
}

/// Whether these are the same command, or both are none.
fn same_command(one: Option<&Command>, other: Option<&Command>) -> bool
    ensures { IsTrue result ↔ (option_copied one.entry ≡ option_copied other.entry) }
{
    match (one, other) {
        (Some(one), Some(other)) => one.is_same(other),
        (None, None) => true,
        _ => false,
    }
}

/// Where these tasks first give another command in the second script, if they do.
fn other_command(one: &[Command], two: &[Command], learners: &Learners) -> Option<Mismatch>
    ensures { CommandsDiffer (among learners.now.tasks.items) one.now two.now result }
{
    let mut first = next_own(one, 0, learners);
    let mut second = next_own(two, 0, learners);
    'commands: loop {
        if !same_command(command_at(one, first), command_at(two, second)) {
            return Some(Mismatch::Commands {
                one: first,
                two: second,
            });
        }
        if first >= one.len() || second >= two.len() {
            return None;
        }
        first = next_own(one, first + 1, learners);
        second = next_own(two, second + 1, learners);
    }
}

/// Why two scripts that were read are no pair for these tasks, if they are none.
fn mismatch_of(one: &Script, two: &Script, learners: &Learners) -> Option<Mismatch>
    ensures { (s t : List ℕ) → IsRead one.now s → IsRead two.now t → Mismatches (among learners.now.tasks.items) s t result }
{
    if !same_texts(one.names.as_slice(), two.names.as_slice())
        || !same_ids(one.users.as_slice(), two.users.as_slice())
    {
        return Some(Mismatch::Users);
    }
    other_command(one.commands.as_slice(), two.commands.as_slice(), learners)
}

/// Why two good scripts are no pair for these tasks, if they are none. Fails if memory runs out, or if the script is bad.
pub(crate) fn mismatch(
    alloc: Global,
    one: &[u8],
    two: &[u8],
    learners: &Learners,
) -> Result<Option<Mismatch>, AllocError>
    ensures { IfOk result (λ why. Mismatches (among learners.now.tasks.items) one.now two.now why) }
{
    let Ok(first) = parse_script(alloc, one) else {
        return Err(AllocError);
    };
    let Ok(second) = parse_script(alloc, two) else {
        return Err(AllocError);
    };
    Ok(mismatch_of(&first, &second, learners))
}
