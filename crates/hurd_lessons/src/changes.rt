//! What became of what is seen under a name between two looks, and what differs of what is seen in two scripts.
ghost use Rattle.std.specs.Prelude.{◌≡◌, Some};
ghost use Rattle.hurd_views.specs.Views.{no_row};
ghost use Rattle.hurd_lessons.specs.Changes.{IsChange, Turned, between, in_one, is_kept, is_same, list_the_same, same_names, shows};

use hurd_creds::Same;
use hurd_ports::Ends;
use hurd_views::{BodyRow, EntryRow, Row};

/// What became of a part.
#[derive(Clone, Copy, Debug, PartialEq, Eq)]
pub(crate) enum Became {
    /// It is seen as it was, or is not seen either time.
    Same,
    /// It was not seen before.
    New,
    /// It is seen otherwise.
    Changed,
    /// It is no longer seen.
    Lost,
    /// It is seen in the first of two scripts alone.
    First,
    /// It is seen in the second alone.
    Second,
}

/// What became of each part of what is seen under a name.
#[derive(Clone, Copy, Debug, PartialEq, Eq)]
pub(crate) struct Change {
    pub(crate) attributes: Became,
    pub(crate) body: Became,
    pub(crate) ends: Became,
    pub(crate) empty: Became,
    pub(crate) opened: Became,
    pub(crate) server: Became,
    pub(crate) text: Became,
    pub(crate) users: Became,
    pub(crate) total: Became,
    /// Whether entries are compared by their names alone.
    pub(crate) by_name: bool,
}

impl Became {
    /// What became of a part, of which this was seen before, and that after.
    fn of<T: Same>(before: &Option<T>, after: &Option<T>) -> Became
        ensures { Turned before.now after.now result }
    {
        match (before, after) {
            (Some(before), Some(after)) => Became::of_seen(before, after),
            (None, None) => Became::Same,
            (None, Some(_)) => Became::New,
            (Some(_), None) => Became::Lost,
        }
    }

    /// What became of a part that is seen both times.
    fn of_seen<T: Same>(before: &T, after: &T) -> Became
        ensures { Turned (Some before.now) (Some after.now) result }
    {
        if before.same(after) {
            Became::Same
        } else {
            Became::Changed
        }
    }

    /// What became of a node's readers and writers.
    fn of_ends(before: Option<Option<Ends>>, after: Option<Option<Ends>>) -> Became
        ensures { Turned before after result }
    {
        if before == after {
            return Became::Same;
        }
        match (before, after) {
            (None, _) => Became::New,
            (_, None) => Became::Lost,
            (Some(_), Some(_)) => Became::Changed,
        }
    }

    /// Whether the part is as it was.
    fn is_same(self) -> bool
        ensures { result ≡ is_same self }
    {
        matches!(self, Became::Same)
    }

    /// The same of two scripts: what is not seen in both is seen in one alone.
    fn in_one(self) -> Became
        ensures { result ≡ in_one self }
    {
        match self {
            Became::New => Became::Second,
            Became::Lost => Became::First,
            _ => self,
        }
    }
}

impl Change {
    /// What became of each part, of which these were seen before, and those after.
    pub(crate) fn of(before: &Row, after: &Row) -> Change
        ensures { IsChange before.now after.now result }
    {
        Change {
            attributes: Became::of(&before.attributes, &after.attributes),
            body: Became::of(&before.body, &after.body),
            ends: Became::of_ends(before.ends, after.ends),
            empty: Became::of(&before.empty, &after.empty),
            opened: Became::of(&before.opened, &after.opened),
            server: Became::of(&before.server, &after.server),
            text: Became::of(&before.text, &after.text),
            users: Became::of(&before.users, &after.users),
            total: Became::of(&before.total, &after.total),
            by_name: false,
        }
    }

    /// What differs of each part in two scripts, from what would have become of it between two looks.
    pub(crate) fn between(self, first: &Row, second: &Row) -> Change
        ensures { result ≡ between first.now second.now self }
    {
        Change {
            attributes: self.attributes.in_one(),
            body: if list_the_same(&first.body, &second.body) {
                Became::Same
            } else {
                self.body.in_one()
            },
            ends: self.ends.in_one(),
            empty: self.empty.in_one(),
            opened: self.opened.in_one(),
            server: self.server.in_one(),
            text: self.text.in_one(),
            users: self.users.in_one(),
            total: self.total.in_one(),
            by_name: true,
        }
    }

    /// Whether each part is as it was.
    pub(crate) fn is_kept(&self) -> bool
        ensures { result ≡ is_kept self.now }
    {
        self.attributes.is_same()
            && self.body.is_same()
            && self.ends.is_same()
            && self.empty.is_same()
            && self.opened.is_same()
            && self.server.is_same()
            && self.text.is_same()
            && self.users.is_same()
            && self.total.is_same()
    }
}

/// Whether entries have the same names in the same order.
fn same_names(some: &[EntryRow], others: &[EntryRow]) -> bool
    ensures { result ≡ same_names some.now others.now }
{
    if some.len() != others.len() {
        return false;
    }
    for i in 0..some.len() {
        if some[i].name.as_slice() != others[i].name.as_slice() {
            return false;
        }
    }
    true
}

/// The same of two directories that are seen.
fn list_the_same(first: &Option<Option<BodyRow>>, second: &Option<Option<BodyRow>>) -> bool
    ensures { result ≡ list_the_same first.now second.now }
{
    match (first, second) {
        (Some(Some(BodyRow::Entries(some))), Some(Some(BodyRow::Entries(others)))) => {
            same_names(some.as_slice(), others.as_slice())
        }
        _ => false,
    }
}

/// Whether anything is seen.
pub(crate) fn shows(row: &Row) -> bool
    ensures { result ≡ shows row.now }
{
    row.attributes.is_some()
        || row.body.is_some()
        || row.ends.is_some()
        || row.empty.is_some()
        || row.opened.is_some()
        || row.server.is_some()
        || row.text.is_some()
        || row.users.is_some()
        || row.total.is_some()
}

/// A row in which nothing is seen.
pub(crate) fn no_row() -> Row
    ensures { result ≡ no_row }
{
    Row {
        attributes: None,
        empty: None,
        body: None,
        ends: None,
        opened: None,
        server: None,
        text: None,
        users: None,
        total: None,
    }
}
