//! Kinds of server of one node of which nothing but options changes.
ghost use Rattle.std.specs.Option.{option_map};
ghost use Rattle.std.specs.Prelude.{◌≡◌, if◌then◌else◌, Some, None};
ghost use Rattle.hurd_small.specs.FixedKinds.{is_fixed, kind_of};

use hurd_trans_iface::ServerKind;

/// The kinds of server of one node of which nothing but options changes.
#[derive(Clone, Copy, Debug)]
pub enum FixedKind {
    /// A file that gives its text, and takes nothing (the Hurd's `/hurd/hello`).
    Hello,
    /// A stream without bytes, which drops what it takes (the Hurd's `/hurd/null`).
    Null,
    /// A stream of zero bytes without end, which drops what it takes (the Hurd's `/hurd/zero`).
    Zero,
    /// A link, which leads to where its text says (the Hurd's `/hurd/symlink`).
    Symlink,
    /// A firm link, which leads to the node that its text led to when it began (the Hurd's `/hurd/firmlink`). Of the link itself nothing is read.
    Firmlink,
    /// A link to the ports of whoever follows it, by their numbers (the Hurd's `/hurd/magic fd`, as on `/dev/fd`).
    Magic,
}

impl FixedKind {
    /// Such a kind among all kinds, if it is one.
    #[tactic(auto, using(crate::proofs::FixedLaws::not_fixed))]
    pub(crate) fn among(kind: ServerKind) -> Option<FixedKind>
        ensures { option_map kind_of result ≡ (if is_fixed kind then Some kind else None) }
    {
        match kind {
            ServerKind::Hello => Some(FixedKind::Hello),
            ServerKind::Null => Some(FixedKind::Null),
            ServerKind::Zero => Some(FixedKind::Zero),
            ServerKind::Symlink => Some(FixedKind::Symlink),
            ServerKind::Firmlink => Some(FixedKind::Firmlink),
            ServerKind::Magic => Some(FixedKind::Magic),
            _ => None,
        }
    }
}
