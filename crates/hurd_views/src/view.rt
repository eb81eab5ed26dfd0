//! All that a set of tasks sees of a world, kept to be compared.
ghost use Rattle.std.specs.Prelude.{◌≡◌, ◌↔◌, ◌∷◌, [], true, Some, length, map, slice_get, option_copied, IfOk, OnOk, IsTrue};
ghost use Rattle.std.specs.Option.{option_map};
ghost use Rattle.hurd_core.specs.Core.{world_of};
ghost use Rattle.hurd_creds.specs.declared.name.Name.{Name};
ghost use Rattle.hurd_creds.specs.declared.name.TaskId.{TaskId};
ghost use Rattle.hurd_ports.specs.Seats.{seat_task};
ghost use Rattle.hurd_sight.specs.Parts.{maybe_named};
ghost use Rattle.hurd_views.specs.Views.{Fills, RowsAreViews, SameRows, TellsParts, Views, ViewsAreOne, ViewsStay, has_row, name_found, names_found, names_seen, or_no_row, row_at, row_tells, rows_for, tells_in};
ghost use Rattle.hurd_views.specs.declared.rows.Row.{Row};

use crate::rows::Row;
use crate::told;
use hurd_core::Core;
use hurd_creds::{Name, Same, TaskId, all_same};
use hurd_ports::{Ports, TaskSeat};
use hurd_sight::{NameSet, SeenPart, Sight};
use hurd_trans_iface::Server;
use indexmap::IndexMap;
use std::alloc::{AllocError, Global};
use std::marker::Model;

/// What is seen under each name of which anything is seen.
#[derive(Drop)]
pub struct Rows {
    rows: IndexMap<Name, Row>,
}

impl Model for Rows {
    ghost use Rattle.std.specs.Prelude.{List};
    ghost use Rattle.hurd_creds.specs.declared.name.Name.{Name};
    ghost use Rattle.std.specs.Coded.{coded_list, coded×};
    ghost use Rattle.hurd_creds.specs.Names.{coded_name};
    ghost use Rattle.hurd_views.specs.contracts.rows.Row as row;
    ghost use Rattle.hurd_views.specs.declared.rows.Row.{Row};

    ghost Value = { List (Name × Row) };

    ghost coded = { coded_list (coded× coded_name row.the_row.coded) };

    ghost view = { λ r. r.rows.entries };
}

/// A task, if it is there.
#[derive(Drop)]
pub struct SeatRow {
    seat: Option<TaskSeat>,
}

impl Model for SeatRow {
    ghost use Rattle.std.specs.Prelude.{Option};
    ghost use Rattle.std.specs.Option.{option_map};
    ghost use Rattle.std.specs.Coded.{coded_option};
    ghost use Rattle.hurd_ports.specs.Tables.{Task, coded_task};
    ghost use Rattle.hurd_ports.specs.Seats.{seat_task};

    ghost Value = { Option Task };

    ghost coded = { coded_option coded_task };

    ghost view = { λ r. option_map seat_task r.seat };
}

/// All that some tasks see of a world, as it was when it was looked at.
#[derive(Drop)]
pub struct View {
    /// Which parts were seen, and of nodes why.
    pub sight: Sight,
    pub rows: Rows,
    /// The tasks themselves.
    pub seats: Vec<SeatRow>,
    /// How many tasks there were in all.
    pub count: usize,
}

impl View {
    /// What these tasks see of a world.
    pub fn of<S: Server>(
        alloc: Global,
        core: &Core<S>,
        tasks: &[TaskId],
    ) -> Result<View, AllocError>
        ensures { IfOk result (λ view. Views tasks.now (world_of S.meaning core.now) view) }
    {
        let seats = seats_of(alloc, core.ports(), tasks)?;
        let sight = Sight::of(alloc, core.nodes(), core.ports(), tasks)?;
        let rows = Rows::of(alloc, core, &sight)?;
        Ok(View {
            sight,
            rows,
            seats,
            count: core.ports().task_count(),
        })
    }

    /// Whether nothing differs. Takes no memory.
    pub fn is_same(&self, other: &View) -> bool
        ensures { IsTrue result ↔ SameRows self.now other.now }
    {
        self.count == other.count
            && all_same(self.seats.as_slice(), other.seats.as_slice())
            && self.rows.is_same(&other.rows)
    }

    /// Whether a part was seen. Takes no memory.
    pub fn tells(&self, part: SeenPart) -> bool
        ensures { result ≡ tells_in self.now part }
    {
        match part {
            SeenPart::Attributes(name)
            | SeenPart::Empty(name)
            | SeenPart::Body(name)
            | SeenPart::Ends(name)
            | SeenPart::Open(name)
            | SeenPart::Options(name)
            | SeenPart::Text(name)
            | SeenPart::Users(name)
            | SeenPart::Total(name) => self.rows.tells(name, part),
            SeenPart::Task(task) => self.sight.tasks().contains(&task),
        }
    }
}

impl Rows {
    /// What is seen under each name of which anything is seen.
    fn of<S: Server>(alloc: Global, core: &Core<S>, sight: &Sight) -> Result<Rows, AllocError>
        ensures { IfOk result (λ rows. rows ≡ rows_for (world_of S.meaning core.now) sight.now (names_seen sight.now)) }
    {
        let mut rows = Rows {
            rows: IndexMap::new(alloc),
        };
        rows.fill_found(alloc, core, sight)?;
        rows.fill(alloc, core, sight, sight.opens())?;
        rows.fill(alloc, core, sight, sight.known())?;
        rows.fill(alloc, core, sight, sight.controlled())?;
        Ok(rows)
    }

    /// What is seen under the names of found nodes.
    fn fill_found<S: Server>(
        &mut self,
        alloc: Global,
        core: &Core<S>,
        sight: &Sight,
    ) -> Result<(), AllocError>
        ensures { OnOk result (Fills (world_of S.meaning core.now) sight.now (names_found sight.now.found) self.old self.new) }
    {
        for i in 0..sight.nodes().len() {
            self.add_found(alloc, core, sight, i)?;
        }
        Ok(())
    }

    /// What is seen under the name of the found node at an index.
    fn add_found<S: Server>(
        &mut self,
        alloc: Global,
        core: &Core<S>,
        sight: &Sight,
        index: usize,
    ) -> Result<(), AllocError>
        ensures { OnOk result (Fills (world_of S.meaning core.now) sight.now (name_found (slice_get sight.now.found index)) self.old self.new) }
    {
        match sight.nodes().get(index) {
            Some((node, _)) => self.add(alloc, core, sight, node),
            None => Ok(()),
        }
    }

    /// What is seen under these names.
    fn fill<S: Server>(
        &mut self,
        alloc: Global,
        core: &Core<S>,
        sight: &Sight,
        names: &NameSet,
    ) -> Result<(), AllocError>
        ensures { OnOk result (Fills (world_of S.meaning core.now) sight.now names.now self.old self.new) }
    {
        for i in 0..names.len() {
            self.add_at(alloc, core, sight, names.get(i))?;
        }
        Ok(())
    }

    /// What is seen under a name, if there is one.
    fn add_at<S: Server>(
        &mut self,
        alloc: Global,
        core: &Core<S>,
        sight: &Sight,
        name: Option<Name>,
    ) -> Result<(), AllocError>
        ensures { OnOk result (Fills (world_of S.meaning core.now) sight.now (maybe_named name) self.old self.new) }
    {
        match name {
            Some(name) => self.add(alloc, core, sight, name),
            None => Ok(()),
        }
    }

    /// What is seen under a name, after what is there, or in place of what was there under it.
    fn add<S: Server>(
        &mut self,
        alloc: Global,
        core: &Core<S>,
        sight: &Sight,
        name: Name,
    ) -> Result<(), AllocError>
        ensures { OnOk result (Fills (world_of S.meaning core.now) sight.now (name ∷ []) self.old self.new) }
    {
        let row = told::row_of(alloc, core, sight, name)?;
        self.rows.reserve(1)?;
        self.rows.insert(name, row).unwrap();
        Ok(())
    }

    /// How many names there are.
    pub fn len(&self) -> usize
        ensures { result ≡ length self.now }
    {
        self.rows.len()
    }

    /// The name at an index, if there are so many; they are in the order in which they were found.
    pub fn name_at(&self, index: usize) -> Option<Name>
        ensures { result ≡ option_map (λ (e : Name × Row). e.0) (slice_get self.now index) }
    {
        match self.rows.get_index(index) {
            Some((name, _)) => Some(*name),
            None => None,
        }
    }

    /// What was seen under a name, if anything.
    pub fn get(&self, name: Name) -> Option<&Row>
        ensures { or_no_row (option_copied result) ≡ row_at self.now name }
    {
        self.rows.get(&name)
    }

    /// Whether such a part of a name was seen.
    fn tells(&self, name: Name, part: SeenPart) -> bool
        ensures { result ≡ row_tells (row_at self.now name) part }
    {
        match self.get(name) {
            Some(row) => row.tells(part),
            None => false,
        }
    }

    /// Whether a name is there.
    pub fn has(&self, name: Name) -> bool
        ensures { result ≡ has_row self.now name }
    {
        self.rows.contains_key(&name)
    }

    /// Whether the same is seen under each name.
    fn is_same(&self, other: &Rows) -> bool
        ensures { IsTrue result ↔ ((n : Name) → row_at self.now n ≡ row_at other.now n) }
    {
        self.agrees(other) && other.agrees(self)
    }

    /// Whether the same is seen there under each name that is here.
    fn agrees(&self, other: &Rows) -> bool
        ensures { IsTrue result ↔ ((n : Name) → has_row self.now n ≡ true → row_at self.now n ≡ row_at other.now n) }
    {
        for i in 0..self.len() {
            if !self.agrees_at(other, i) {
                return false;
            }
        }
        true
    }

    /// Whether the same is seen there under the name at an index, if there are so many.
    fn agrees_at(&self, other: &Rows, index: usize) -> bool
        ensures { IsTrue result ↔ ((e : Name × Row) → slice_get self.now index ≡ Some e → row_at self.now e.0 ≡ row_at other.now e.0) }
    {
        match self.name_at(index) {
            Some(name) => same_rows(self.get(name), other.get(name)),
            None => true,
        }
    }
}

/// Whether the same is seen; nothing is seen where there is no row.
fn same_rows(row: Option<&Row>, other: Option<&Row>) -> bool
    ensures { IsTrue result ↔ (or_no_row (option_copied row.entry) ≡ or_no_row (option_copied other.entry)) }
{
    match (row, other) {
        (Some(row), Some(other)) => row.is_same(other),
        (Some(row), None) => row.is_none(),
        (None, Some(other)) => other.is_none(),
        (None, None) => true,
    }
}

/// These tasks, each if it is there.
fn seats_of(alloc: Global, ports: &Ports, tasks: &[TaskId]) -> Result<Vec<SeatRow>, AllocError>
    ensures { IfOk result (λ seats. seats.items ≡ map (λ (t : TaskId). slice_get ports.now.state.tasks t.0) tasks.now) }
{
    let mut seats = Vec::with_capacity(alloc, tasks.len())?;
    for task in tasks {
        seats.push_reserved(SeatRow::of(alloc, ports, *task)?);
    }
    Ok(seats)
}

impl SeatRow {
    /// A copy of a task, if it is there.
    fn of(alloc: Global, ports: &Ports, task: TaskId) -> Result<SeatRow, AllocError>
        ensures { IfOk result (λ row. row ≡ slice_get ports.now.state.tasks task.0) }
    {
        match ports.seat(task) {
            Some(seat) => Ok(SeatRow {
                seat: Some(seat.copied(alloc)?),
            }),
            None => Ok(SeatRow { seat: None }),
        }
    }

    /// The task, if it is there.
    pub fn seat(&self) -> Option<&TaskSeat>
        ensures { option_map seat_task (option_copied result) ≡ self.now }
    {
        self.seat.as_ref()
    }
}

impl Same for SeatRow {
    fn same(&self, other: &SeatRow) -> bool {
        match (&self.seat, &other.seat) {
            (Some(seat), Some(other)) => seat.is_same(other),
            (None, None) => true,
            _ => false,
        }
    }
}

/// A law: two views in which nothing differs are of worlds that have the same view for these tasks; and a world has one view for them.
pub fn rows_are_views()
    ensures same { RowsAreViews }
    ensures one { ViewsAreOne }
{}

/// A law: a view stays the view of these tasks while nothing that they see changes.
pub fn views_stay()
    ensures { ViewsStay }
{}

/// A law: a view tells exactly the parts that its tasks see.
pub fn views_tell_parts()
    ensures { TellsParts }
{}
