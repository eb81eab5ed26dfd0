//! User and group ids.
ghost use Rattle.std.specs.Prelude.{◌≡◌, ◌≢◌, ◌≤◌, ◌<◌, ◌&&◌, ◌↔◌, length, [], IsTrue, IsOk, IsNone, IfOk, IfSome, IfNone};
ghost use Rattle.std.specs.List.{All, Contains, filter, list_all};
ghost use Rattle.std.specs.Ordering.{nat_cmp};
ghost use Rattle.std.specs.FinSet as set;
ghost use Rattle.smallvec.specs.SmallVec.{small_vec_len};
ghost use Rattle.hurd_creds.specs.Access.{ids_of, most_ids, HasEachOnce, may, owns, is_root, least_uid, holds_uid, holds_gid, has_no_uids, may_give, access_of, is_among, restrict, may_take, USE_UNK};
ghost use Rattle.hurd_creds.specs.Memory.{Meets};
ghost use Rattle.hurd_creds.specs.Bits.{has_bits};

use crate::access::{self, flag_if};
use crate::attrs::{Attrs, Want};
use crate::errno::Errno;
use crate::mode::Mode;
use crate::open_flags::OpenFlags;
use bitflags::Flags;
use smallvec::SmallVec;
use std::alloc::{AllocError, Global};
use std::marker::Model;

/// The most different ids of a sort.
const MOST_IDS: usize = 32;

/// The user and group ids that a task or a port holds: two sets, either of which may be empty.
#[derive(Debug, Drop)]
pub struct Ids {
    uids: SmallVec<u32, 8>,
    gids: SmallVec<u32, 8>,
}

impl Model for Ids {
    ghost use Rattle.std.specs.FinSet as set;
    ghost use Rattle.hurd_creds.specs.Access.{IdSets, coded_ids};

    ghost Value = { IdSets };

    ghost coded = { coded_ids };

    ghost view = { λ i. record { uids = set.from_list i.uids.items; gids = set.from_list i.gids.items } };
}

impl Ids {
    /// The sets of these ids; repeats and order don't count.
    ///
    /// Errors, in order: `EINVAL` where more than 32 different uids or gids are asked for; `ENOMEM`, never for slices of
    /// at most 8.
    pub fn new(alloc: Global, uids: &[u32], gids: &[u32]) -> Result<Ids, Errno>
        ensures sets { Meets (ids_of uids.now gids.now) result }
        ensures inline { length uids.now ≤ 8 → length gids.now ≤ 8 → result ≢ Err Errno.ENOMEM }
    {
        let Some(uids) = each_once(alloc, uids) else {
            return Err(Errno::EINVAL);
        };
        let Some(gids) = each_once(alloc, gids) else {
            return Err(Errno::EINVAL);
        };
        Ok(Ids::holding(alloc, uids.as_slice(), gids.as_slice())?)
    }

    /// A copy.
    #[inline(always)]
    pub fn copied(&self, alloc: Global) -> Result<Ids, AllocError>
        ensures { IfOk result (λ ids. ids ≡ self.now) }
    {
        Ids::holding(alloc, self.uids.as_slice(), self.gids.as_slice())
    }

    /// The sets of these ids, which are stored as they stand.
    #[inline(always)]
    fn holding(alloc: Global, uids: &[u32], gids: &[u32]) -> Result<Ids, AllocError>
        ensures sets { IfOk result (λ ids. ids ≡ record { uids = set.from_list uids.now; gids = set.from_list gids.now }) }
        ensures inline { length uids.now ≤ 8 → length gids.now ≤ 8 → IsOk result }
    {
        let uids = SmallVec::from_slice(alloc, uids)?;
        let gids = SmallVec::from_slice(alloc, gids)?;
        Ok(Ids { uids, gids })
    }

    /// Those of the ids asked for that are held; where uid 0 is held, all that are asked for.
    #[tactic(auto, using(crate::proofs::IdLaws::filter_intersects))]
    pub fn restrict(&self, alloc: Global, asked: &Ids) -> Result<Ids, AllocError>
        ensures { IfOk result (λ ids. ids ≡ restrict self.now asked.now) }
    {
        if self.is_root() {
            return asked.copied(alloc);
        }
        Ok(Ids {
            uids: held_of(alloc, asked.uids.as_slice(), self.uids.as_slice())?,
            gids: held_of(alloc, asked.gids.as_slice(), self.gids.as_slice())?,
        })
    }

    /// Whether a task of these ids may take others for its own: with uid 0 any, else those that are held.
    #[tactic(auto, using(crate::proofs::IdLaws::all_subset))]
    pub fn may_take(&self, asked: &Ids) -> bool
        ensures { result ≡ may_take self.now asked.now }
    {
        self.is_root()
            || are_among(asked.uids.as_slice(), self.uids.as_slice())
                && are_among(asked.gids.as_slice(), self.gids.as_slice())
    }

    /// Whether these are the same sets. Takes no memory.
    pub fn is_same(&self, other: &Ids) -> bool
        ensures { IsTrue result ↔ (self.now ≡ other.now) }
    {
        hold_the_same(self.uids.as_slice(), other.uids.as_slice())
            && hold_the_same(self.gids.as_slice(), other.gids.as_slice())
    }

    /// The uids that are held, in no order. Takes no memory.
    pub fn uids(&self) -> &[u32]
        ensures { set.from_list {R = nat_cmp} result.now ≡ self.now.uids }
    {
        self.uids.as_slice()
    }

    /// The gids that are held, in no order. Takes no memory.
    pub fn gids(&self) -> &[u32]
        ensures { set.from_list {R = nat_cmp} result.now ≡ self.now.gids }
    {
        self.gids.as_slice()
    }

    /// Whether uid 0 is held.
    pub fn is_root(&self) -> bool
        ensures { result ≡ is_root self.now }
    {
        self.holds_uid(0)
    }

    /// The least uid, if any is held: the owner of what is made with these ids.
    pub fn least_uid(&self) -> Option<u32>
        ensures { result ≡ least_uid self.now }
    {
        least(self.uids.as_slice())
    }

    /// Whether the node's owner or 0 is among the uids (GNU Hurd Reference Manual, Files).
    pub fn owns(&self, attrs: &Attrs) -> bool
        ensures { result ≡ owns self.now attrs.now }
    {
        self.holds_uid(attrs.owner) || self.is_root()
    }

    /// Whether these ids may do this with a node of these attributes (GNU Hurd Reference Manual, Files and Users).
    #[inline(always)]
    pub fn may(&self, attrs: &Attrs, want: Want) -> bool
        ensures { result ≡ may self.now attrs.now want }
    {
        if self.is_root() {
            !access::bars_exec(attrs, want)
        } else if self.is_unknown_to(attrs) {
            attrs.mode.contains(access::unknown_bit(want))
        } else if self.holds_uid(attrs.owner) {
            attrs.mode.contains(access::owner_bit(want))
        } else if self.holds_gid(attrs.group) {
            attrs.mode.contains(access::group_bit(want))
        } else {
            attrs.mode.contains(access::others_bit(want))
        }
    }

    /// Those of `READ`, `WRITE` and `EXEC` that these ids may, of a node of these attributes.
    pub fn access(&self, attrs: &Attrs) -> OpenFlags
        ensures { result ≡ access_of self.now attrs.now }
    {
        let read = flag_if(OpenFlags::READ, self.may(attrs, Want::Read));
        let write = flag_if(OpenFlags::WRITE, self.may(attrs, Want::Write));
        let exec = flag_if(OpenFlags::EXEC, self.may(attrs, Want::Exec));
        read.union(write).union(exec)
    }

    /// Whether these ids may give a node of these attributes to an owner and a group: uid 0 may; the node's owner may keep
    /// it, with its present group or one of the gids.
    pub fn may_give(&self, attrs: &Attrs, owner: u32, group: u32) -> bool
        ensures { result ≡ may_give self.now attrs.now owner group }
    {
        let keeps = self.holds_uid(attrs.owner) && owner == attrs.owner;
        self.is_root() || keeps && (group == attrs.group || self.holds_gid(group))
    }

    /// Whether the unknown bits decide: no uid is held, and the node's mode has `USE_UNK`.
    fn is_unknown_to(&self, attrs: &Attrs) -> bool
        ensures { result ≡ (has_no_uids self.now && has_bits attrs.now.mode.0 USE_UNK) }
    {
        self.uids.is_empty() && attrs.mode.contains(Mode::USE_UNK)
    }

    /// Whether this uid is held.
    pub fn holds_uid(&self, uid: u32) -> bool
        ensures { result ≡ holds_uid self.now uid }
    {
        self.uids.as_slice().contains(&uid)
    }

    /// Whether this gid is held.
    fn holds_gid(&self, gid: u32) -> bool
        ensures { result ≡ holds_gid self.now gid }
    {
        self.gids.as_slice().contains(&gid)
    }
}

/// Those of the ids asked for that are held.
fn held_of(alloc: Global, asked: &[u32], held: &[u32]) -> Result<SmallVec<u32, 8>, AllocError>
    ensures { IfOk result (λ found. found.items ≡ filter (is_among held.now) asked.now) }
{
    let mut found = SmallVec::new(alloc);
    for &id in asked {
        if held.contains(&id) {
            found.push(id)?;
        }
    }
    Ok(found)
}

/// Whether all of the ids asked for are held.
fn are_among(asked: &[u32], held: &[u32]) -> bool
    ensures { result ≡ list_all (is_among held.now) asked.now }
{
    asked.iter().all(|id| held.contains(id))
}

/// Whether these ids are the same set; repeats and order don't count.
fn hold_the_same(some: &[u32], others: &[u32]) -> bool
    ensures { IsTrue result ↔ (set.from_list {R = nat_cmp} some.now ≡ set.from_list others.now) }
{
    are_among(some, others) && are_among(others, some)
}

/// The least of these ids, if there is any.
fn least(ids: &[u32]) -> Option<u32>
    ensures none { IsNone result ↔ (ids.now ≡ []) }
    ensures some { IfSome result (λ least. Contains ids.now least × All (λ id. least ≤ id) ids.now) }
{
    ids.iter().copied().min()
}

/// Each of these ids once, or `None` where more than 32 are different.
fn each_once(alloc: Global, ids: &[u32]) -> Option<SmallVec<u32, MOST_IDS>>
    ensures found { IfSome result (λ found. HasEachOnce ids.now found.items × (small_vec_len found ≤ most_ids)) }
    ensures too_many { IfNone result (most_ids < set.len (set.from_list {R = nat_cmp} ids.now)) }
{
    let mut found = SmallVec::new(alloc);
    for &id in ids {
        if found.as_slice().contains(&id) {
            continue;
        }
        if found.len() == MOST_IDS {
            return None;
        }
        found.push_reserved(id);
    }
    Some(found)
}
