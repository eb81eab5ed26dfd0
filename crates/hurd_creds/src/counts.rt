//! How often names are counted.
ghost use Rattle.std.specs.Prelude.{◌≡◌, ◌≤◌, ◌<◌, ◌+◌, if◌then◌else◌, Some, None, nat_lt};
ghost use Rattle.std.specs.Map.{lookup};
ghost use Rattle.indexmap.specs.IndexMap.{spare};
ghost use Rattle.hurd_creds.specs.Names.{same_name};
ghost use Rattle.hurd_creds.specs.declared.name.Name.{Name};
ghost use Rattle.hurd_creds.specs.Weights.{if_so};
ghost use Rattle.hurd_creds.specs.Counts.{counted};

use crate::name::Name;
use indexmap::IndexMap;

/// How often each name is counted; one that isn't there is not.
pub type Counts = IndexMap<Name, u128>;

/// How often the name is counted.
#[inline(always)]
pub fn count(counts: &Counts, name: Name) -> u128
    ensures { result ≡ counted counts.now.entries name }
{
    match counts.get(&name) {
        Some(count) => *count,
        None => 0,
    }
}

/// Counts the name so many times more. There is room for one name more.
#[inline(always)]
pub fn add(counts: &mut Counts, name: Name, more: u128)
    requires room { 0 < spare counts.old }
    requires fits { counted counts.old.entries name + more ≤ u128.MAX }
    ensures more { (n : Name) → counted counts.new.entries n ≡ counted counts.old.entries n + if_so (same_name n name) more }
    ensures room { spare counts.old ≤ spare counts.new + 1 }
{
    *counts.entry(name).unwrap().or_insert(0) += more;
}

/// Counts the name so many times less. If it is counted no more, nothing of it is kept, and it is answered. One search. Takes no room.
#[inline(always)]
pub fn subtract(counts: &mut Counts, name: Name, less: u128) -> Option<Name>
    requires { less ≤ counted counts.old.entries name }
    ensures less { (n : Name) → counted counts.new.entries n + if_so (same_name n name) less ≡ counted counts.old.entries n }
    ensures gone { result ≡ (if nat_lt 0 (counted counts.new.entries name) then None else Some name) }
    ensures forgotten { counted counts.new.entries name ≡ 0 → lookup (same_name name) counts.new.entries ≡ None }
    ensures room { spare counts.old ≤ spare counts.new }
{
    let Some((index, _, count)) = counts.get_full(&name) else {
        return Some(name);
    };
    if *count > less {
        let (_, count) = counts.pair_mut(index);
        *count -= less;
        None
    } else {
        counts.swap_remove_index(index);
        Some(name)
    }
}
