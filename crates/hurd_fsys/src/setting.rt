//! Setting a translator, and telling the words of a passive one (`fs.defs`).
ghost use Rattle.std.specs.Prelude.{◌≡◌, ◌++◌, [], IfErr, IfSome, IsNone, Ok, is_some};
ghost use Rattle.std.specs.Option.{option_map};
ghost use Rattle.hurd_creds.specs.Memory.{Meets};
ghost use Rattle.hurd_trans_iface.specs.Nodes.{has_words};
ghost use Rattle.hurd_trans_iface.specs.Meaning.{Begins};
ghost use Rattle.hurd_machine.specs.World.{sets_attrs_at, words_at};
ghost use Rattle.hurd_machine.specs.Change.{apply_all};
ghost use Rattle.hurd_machine.specs.Plan.{Follows, Planned, told};
ghost use Rattle.hurd_machine.specs.declared.call.Reply.TheVariants as reply;
ghost use Rattle.hurd_core.specs.Core.{Does, attaching, naming_asks, without_box, world_of};
ghost use Rattle.hurd_core.specs.PortNode.{header_of, named, named_of};
ghost use Rattle.hurd_lookup.specs.Lacking.{PlannedOr};
ghost use Rattle.hurd_lookup.specs.Lent.{server_ids};
ghost use Rattle.hurd_fsys.specs.Setting.{SetLacks, emptying, is_excluded, leaver, may_replace, plan_get_translator, plan_set_translator, root_mode, seat_asks, sets_nothing, setter_asks, storing, with_search};

use crate::aims::aims;
use crate::owned::owned;
use bitflags::Flags;
use hurd_core::{Core, PortNode, ServerToMake};
use hurd_creds::{Errno, GoawayFlags, Ids, Kind, Mode, NodeName, ServerName, TaskId, TransFlags};
use hurd_machine::Setting;
use hurd_trans_iface::{HeaderEdit, Server, Words};
use std::alloc::Global;

/// Whether neither half is to be set.
fn sets_nothing(setting: Setting) -> bool
    ensures { result ≡ sets_nothing setting }
{
    !setting.passive.asks(TransFlags::SET) && !setting.active.asks(TransFlags::SET)
}

/// The server that goes: the old one, where the active half is set, unless it becomes an orphan.
fn leaver(setting: Setting, old: Option<ServerName>) -> Option<ServerName>
    ensures { result ≡ leaver setting old }
{
    if !setting.active.asks(TransFlags::SET) || setting.active.asks(TransFlags::ORPHAN) {
        None
    } else {
        old
    }
}

/// Sets the translators of a port's node. With passive `SET` the words are stored, in place of those that were there; no words are none
/// any more. With active `SET` the old server goes, or loses its seat with `ORPHAN`, and the new one, if one is brought, becomes active. It
/// runs with the uid of the node's owner; its root is like the node.
///
/// Errors, in order, with the box back: `ESRCH` no such task, `EBADF` no such port, or one that controls a server, `EDIED` no such node,
/// `EPERM` the port's ids don't own it, `EINVAL` a box without active `SET`; with neither `SET` nothing is done; `EOPNOTSUPP` a server's
/// root, or a node of a server that keeps no tree, `EBUSY` words that are there with passive `EXCL`, an old server with active `EXCL`, or with
/// active `SET` one with users, without `ORPHAN` and `FORCE`; of each target of the box in order `ENXIO` a translator waits there, or those of its lookup, with the uid of the
/// node's owner where the port's ids hold it or 0, else with no ids; `ENOTDIR` a union's target is no directory, `EOVERFLOW`, `ENOMEM`, which
/// may come in place of what is asked of targets, or after that. Without a box it takes no memory.
#[tactic(auto, unfolding(hurd_machine::specs::Plan::answered))]
pub fn file_set_translator<S: Server>(
    core: &mut Core<S>,
    alloc: Global,
    task: TaskId,
    port: u64,
    setting: Setting,
    words: Words,
    server: Option<S>,
) -> Result<(), (Errno, Option<S>)>
    requires { IfSome server (λ s. Begins (S.meaning s)) }
    ensures planned { let w = world_of S.meaning core.old in let box = option_map S.meaning server in
        PlannedOr (SetLacks w task.0 port setting box) w (plan_set_translator w task.0 port setting words box) (λ u. reply.Done) (without_box result) (world_of S.meaning core.new) }
    ensures free { let w = world_of S.meaning core.old in
        IsNone server → Follows w (plan_set_translator w task.0 port setting words (option_map S.meaning server)) (told (λ u. reply.Done) (without_box result)) (world_of S.meaning core.new) }
    ensures back { IfErr result (λ e. e.1 ≡ server) }
{
    let named = match setter(core, task, port, setting, is_brought(&server)) {
        Ok(named) => named,
        Err(errno) => return Err((errno, server)),
    };
    let node = named.right.node;
    let attrs = named.attrs;
    if sets_nothing(setting) {
        return Ok(());
    }
    let old = match old_server(core, &named, setting) {
        Ok(old) => old,
        Err(errno) => return Err((errno, server)),
    };
    match server {
        None => {
            store(core, node, setting, words);
            empty_seat(core, node, setting, old);
            Ok(())
        }
        Some(server) => {
            let targets = match aims(
                core,
                alloc,
                &named.right.ids,
                attrs.owner,
                &server,
                Errno::ENXIO,
            ) {
                Ok(targets) => targets,
                Err(errno) => return Err((errno, Some(server))),
            };
            let place = ServerToMake {
                seat: node,
                owner: attrs.owner,
                group: attrs.group,
                mode: root_mode(server.root().kind, attrs.mode),
                instead: leaver(setting, old),
                starts: false,
            };
            match seat_with(core, alloc, task, setting, place, words, targets, server) {
                Ok(()) => Ok(()),
                Err((errno, server)) => Err((errno, Some(server))),
            }
        }
    }
}

/// Whether a box is brought.
fn is_brought<S: Server>(server: &Option<S>) -> bool
    ensures { result ≡ is_some (option_map S.meaning server.now) }
{
    match server {
        Some(_) => true,
        None => false,
    }
}

/// The node of a port that its ids own, and that no box is brought to without active `SET`.
///
/// Errors, in order: `ESRCH`, `EBADF`, `EDIED`, `EPERM`, `EINVAL`.
#[tactic(auto, unfolding(hurd_machine::specs::Plan::given, hurd_machine::specs::Plan::first))]
fn setter<S: Server>(
    core: &Core<S>,
    task: TaskId,
    port: u64,
    setting: Setting,
    brings: bool,
) -> Result<PortNode, Errno>
    ensures { named result ≡ setter_asks (world_of S.meaning core.now) task.0 port setting brings }
{
    let named = owned(core, task, port)?;
    if brings && !setting.active.asks(TransFlags::SET) {
        return Err(Errno::EINVAL);
    }
    Ok(named)
}

/// What is active on a node, where a server may sit on the node, and both halves may be set.
///
/// Errors, in order: `EOPNOTSUPP`, `EBUSY`.
#[tactic(auto, unfolding(hurd_machine::specs::Plan::given))]
fn old_server<S: Server>(
    core: &Core<S>,
    named: &PortNode,
    setting: Setting,
) -> Result<Option<ServerName>, Errno>
    ensures { result ≡ seat_asks (world_of S.meaning core.now) setting (named_of named.now) }
{
    let node = named.right.node;
    if !core.keeps_tree(node) || core.is_root(node) {
        return Err(Errno::EOPNOTSUPP);
    }
    let old = core.active(node);
    let is_excluded = is_excluded(setting.passive, has_words(named))
        || is_excluded(setting.active, old.is_some());
    if is_excluded || !may_replace(core, setting, old) {
        return Err(Errno::EBUSY);
    }
    Ok(old)
}

/// Whether words are stored with a port's node.
fn has_words(named: &PortNode) -> bool
    ensures { result ≡ has_words (header_of named.now).passive }
{
    match named.words {
        Some(words) => words.has_any(),
        None => false,
    }
}

/// Whether a half that is there is to be a new one.
fn is_excluded(flags: TransFlags, is_there: bool) -> bool
    ensures { result ≡ is_excluded flags is_there }
{
    flags.asks(TransFlags::EXCL) && is_there
}

/// Whether what is active may be replaced, where the active half is to be set: not while it has users, unless it becomes an orphan, or is forced.
fn may_replace<S: Server>(core: &Core<S>, setting: Setting, old: Option<ServerName>) -> bool
    ensures { result ≡ may_replace (world_of S.meaning core.now) setting old }
{
    let Some(old) = old else {
        return true;
    };
    !setting.active.asks(TransFlags::SET)
        || setting.active.asks(TransFlags::ORPHAN)
        || setting.goaway.asks(GoawayFlags::FORCE)
        || core.users(old) == 0
}

/// Seats a server, which runs with the uid of its root's owner. An error gives the box back.
///
/// Errors, in order: `ESRCH`, `EOVERFLOW`, `ENOMEM`.
pub(crate) fn seat<S: Server>(
    core: &mut Core<S>,
    alloc: Global,
    task: TaskId,
    place: ServerToMake,
    targets: Vec<NodeName>,
    server: S,
) -> Result<(), (Errno, S)>
    requires { Begins (S.meaning server) }
    ensures does { let w = world_of S.meaning core.old in
        Does w (naming_asks w task.0 2) (attaching task.0 place (server_ids place.owner) targets.items (S.meaning server)) (λ x. tt) (without_box result) (world_of S.meaning core.new) }
    ensures back { IfErr result (λ e. e.1 ≡ server) }
{
    match Ids::new(alloc, &[place.owner], &[]) {
        Ok(ids) => core.attach(task, place, ids, targets, server),
        Err(errno) => Err((errno, server)),
    }
}

/// Stores the words of a passive translator with a node, where the passive half is set.
#[tactic(auto, unfolding(hurd_machine::specs::Plan::answered))]
fn store<S: Server>(core: &mut Core<S>, node: NodeName, setting: Setting, words: Words)
    requires { sets_attrs_at (world_of S.meaning core.old) node ≡ Ok tt }
    ensures { world_of S.meaning core.new ≡ apply_all (storing setting node words) (world_of S.meaning core.old) }
{
    if setting.passive.asks(TransFlags::SET) {
        let _ = core.edit_header(node, HeaderEdit::SetPassive(words));
    }
}

/// Stores words with a node, and seats a server there. An error gives the box back, and leaves the words that were there.
///
/// Errors, in order: `ESRCH`, `EOVERFLOW`, `ENOMEM`.
fn seat_with<S: Server>(
    core: &mut Core<S>,
    alloc: Global,
    task: TaskId,
    setting: Setting,
    place: ServerToMake,
    words: Words,
    targets: Vec<NodeName>,
    server: S,
) -> Result<(), (Errno, S)>
    requires begins { Begins (S.meaning server) }
    requires may { sets_attrs_at (world_of S.meaning core.old) place.seat ≡ Ok tt }
    ensures does { let w = world_of S.meaning core.old in
        Does w (naming_asks w task.0 2) (λ x. storing setting place.seat words ++ attaching task.0 place (server_ids place.owner) targets.items (S.meaning server) x) (λ x. tt) (without_box result) (world_of S.meaning core.new) }
    ensures back { IfErr result (λ e. e.1 ≡ server) }
{
    if let Err(errno) = core.naming(task, 2) {
        return Err((errno, server));
    }
    let kept = match stored(core, alloc, place.seat) {
        Ok(kept) => kept,
        Err(errno) => return Err((errno, server)),
    };
    store(core, place.seat, setting, words);
    match seat(core, alloc, task, place, targets, server) {
        Ok(()) => Ok(()),
        Err(refused) => {
            store(core, place.seat, setting, kept);
            Err(refused)
        }
    }
}

/// A copy of the words that are stored with a node. `ENOMEM`.
fn stored<S: Server>(core: &Core<S>, alloc: Global, node: NodeName) -> Result<Words, Errno>
    ensures { Meets (Ok (words_at (world_of S.meaning core.now) node)) result }
{
    match core.passive(node) {
        Some(words) => Ok(words.copied(alloc)?),
        None => Ok(Words::none(alloc)),
    }
}

/// The words of the passive translator of a port's node.
///
/// Errors, in order: `ESRCH` no such task, `EBADF` no such port, or one that controls a server, `EDIED` no such node, `EINVAL` it has
/// none, `ENOMEM`.
#[tactic(auto, unfolding(hurd_machine::specs::Plan::answered, hurd_machine::specs::Plan::first, hurd_machine::specs::Plan::on))]
pub fn file_get_translator<S: Server>(
    core: &Core<S>,
    alloc: Global,
    task: TaskId,
    port: u64,
) -> Result<Words, Errno>
    ensures { let w = world_of S.meaning core.now in Planned w (plan_get_translator w task.0 port) reply.Words result w }
{
    let found = core.port_node(task, port)?;
    match found.words {
        Some(words) if words.has_any() => Ok(words.copied(alloc)?),
        _ => Err(Errno::EINVAL),
    }
}

/// Where the active half is set, the old server goes, or loses its seat with `ORPHAN`.
fn empty_seat<S: Server>(
    core: &mut Core<S>,
    node: NodeName,
    setting: Setting,
    old: Option<ServerName>,
)
    ensures { world_of S.meaning core.new ≡ apply_all (emptying setting node old) (world_of S.meaning core.old) }
{
    let Some(old) = old else {
        return;
    };
    if !setting.active.asks(TransFlags::SET) {
        return;
    }
    if setting.active.asks(TransFlags::ORPHAN) {
        core.unseat(node);
    } else {
        core.send_away(old);
    }
}

/// The mode of a server's root: that of the node under it; in a directory each class that may read may search.
pub(crate) fn root_mode(kind: Kind, mode: Mode) -> Mode
    ensures { result ≡ root_mode kind mode }
{
    if kind != Kind::Dir {
        return mode;
    }
    let mode = with_search(Mode::UNKNOWN_READ, Mode::UNKNOWN_EXEC, mode);
    let mode = with_search(Mode::OTHERS_READ, Mode::OTHERS_EXEC, mode);
    let mode = with_search(Mode::GROUP_READ, Mode::GROUP_EXEC, mode);
    with_search(Mode::OWNER_READ, Mode::OWNER_EXEC, mode)
}

/// A class of a mode that may read may search too.
fn with_search(read: Mode, search: Mode, mode: Mode) -> Mode
    ensures { result ≡ record { 0 = with_search read.0 search.0 mode.0 } }
{
    if mode.contains(read) {
        mode.union(search)
    } else {
        mode
    }
}
