// Rows by name: where they stand, and how they come and go.
ghost use Rattle.std.specs.Prelude.{◌≡◌, ◌<◌, [], ◌∷◌, ◌++◌, List, IfOk, OnOk, IsOk, slice_get, if◌then◌else◌, is_ok, true, false};
ghost use Rattle.std.specs.List.{list_any};
ghost use Rattle.indexmap.specs.IndexMap.{spare};
ghost use Rattle.sp_locks.specs.Rows.{is_row_of, is_open, with_row};
ghost use Rattle.sp_locks.specs.Lists.{is_row_listed, KeepsLists};
ghost use Rattle.sp_locks.specs.Answers.{is_yes};
ghost use Rattle.sp_locks.specs.Table.{rows_on, with_row_on, replaced};
ghost use Rattle.sp_locks.specs.Slots.{AreSlots, ArePlaces, AreNames, IsMoved, IsForgotten, IsPlaced, rows_of, made, worked_through};

use crate::row::{Name, Row, Scope, SessionId};
use crate::{lists, rows};
use indexmap::IndexMap;
use std::alloc::{AllocError, Global};
use std::marker::Model;

// So many slots may stand, however few of them have rows.
const FEW: usize = 16;

/// Rows by name, in the order in which the names came, and on each name in order of arrival. A name
/// whose last row goes leaves an empty slot and has no place any more; if it comes again it is the
/// last.
#[derive(Drop)]
pub(crate) struct Slots {
    slots: Vec<Vec<Row>>,
    places: IndexMap<Name, usize>,
}

impl Model for Slots {
    ghost use Rattle.std.specs.Prelude.{List};
    ghost use Rattle.sp_locks.specs.declared.row.Row.{Row};

    ghost Value = { List Row };

    ghost use Rattle.sp_locks.specs.Slots.{rows_of, AreSlots, ArePlaces};

    ghost view = { λ a. rows_of (λ v. v.items) a.slots.items };

    ghost invariant = { λ a. AreSlots (λ v. v.items) a.slots.items × ArePlaces (λ v. v.items) a.places.entries a.slots.items };
}

// Moves a name to another place, where it has one.
fn move_name(places: &mut IndexMap<Name, usize>, name: Name, at: usize)
    ensures { IsMoved name at places.old.entries places.new.entries }
{
    if let Some(place) = places.get_mut(&name) {
        *place = at;
    }
}

// Gives a name a place, where there is room for it.
fn place_name(places: &mut IndexMap<Name, usize>, name: Name, at: usize) -> Result<(), AllocError>
    ensures placed { OnOk result (IsPlaced name at places.old.entries places.new.entries) }
    ensures succeeds { 0 < spare places.old → IsOk result }
{
    places.insert(name, at)?;
    Ok(())
}

// Takes the place of a name away.
fn forget_name(places: &mut IndexMap<Name, usize>, name: Name)
    ensures { IsForgotten name places.old.entries places.new.entries }
{
    places.swap_remove(&name);
}

// Numbers the slots anew.
fn number(slots: &[Vec<Row>], places: &mut IndexMap<Name, usize>)
    requires slots { AreSlots (λ v. v.items) slots.now }
    requires names { AreNames (λ v. v.items) places.old.entries slots.now }
    ensures { ArePlaces (λ v. v.items) places.new.entries slots.now }
{
    for i in 0..slots.len() {
        if let Some(row) = slots[i].first() {
            move_name(places, row.name, i);
        }
    }
}

// Squeezes the empty slots out.
fn squeeze(slots: &mut Vec<Vec<Row>>, places: &mut IndexMap<Name, usize>)
    requires slots { AreSlots (λ v. v.items) slots.old.items }
    requires places { ArePlaces (λ v. v.items) places.old.entries slots.old.items }
    ensures slots { AreSlots (λ v. v.items) slots.new.items }
    ensures places { ArePlaces (λ v. v.items) places.new.entries slots.new.items }
    ensures rows { rows_of (λ v. v.items) slots.new.items ≡ rows_of (λ v. v.items) slots.old.items }
{
    slots.retain(|rows| !rows.is_empty());
    number(slots, places);
}

// Does a release on one name.
fn release_on(
    slots: &mut Vec<Vec<Row>>,
    places: &mut IndexMap<Name, usize>,
    scope: Scope,
    session: SessionId,
    name: Name,
)
    requires slots { AreSlots (λ v. v.items) slots.old.items }
    requires places { ArePlaces (λ v. v.items) places.old.entries slots.old.items }
    ensures slots { AreSlots (λ v. v.items) slots.new.items }
    ensures places { ArePlaces (λ v. v.items) places.new.entries slots.new.items }
    ensures rows { (rest : List _) → made (λ v. v.items) scope session rest slots.new.items
        ≡ made (λ v. v.items) scope session (name ∷ rest) slots.old.items }
{
    let at = match places.get(&name) {
        Some(at) => *at,
        None => return,
    };
    let rows = &mut slots[at];
    rows::release(rows, scope, session);
    if rows.is_empty() {
        forget_name(places, name);
    }
}

// Does a release on each of the names.
fn release_each(
    slots: &mut Vec<Vec<Row>>,
    places: &mut IndexMap<Name, usize>,
    scope: Scope,
    session: SessionId,
    names: &[Name],
)
    requires slots { AreSlots (λ v. v.items) slots.old.items }
    requires places { ArePlaces (λ v. v.items) places.old.entries slots.old.items }
    ensures slots { AreSlots (λ v. v.items) slots.new.items }
    ensures places { ArePlaces (λ v. v.items) places.new.entries slots.new.items }
    ensures rows { (rest : List _) → made (λ v. v.items) scope session rest slots.new.items
        ≡ made (λ v. v.items) scope session (names.now ++ rest) slots.old.items }
{
    for i in 0..names.len() {
        release_on(slots, places, scope, session, names[i]);
    }
}

// Adds a row to others on its name, and lists the name for its session and its duration, unless the
// session has such a row among them.
fn add_listed(
    rows: &mut Vec<Row>,
    commits: &mut IndexMap<SessionId, Vec<Name>>,
    shorts: &mut IndexMap<SessionId, Vec<Name>>,
    alloc: Global,
    row: Row,
) -> Result<(), AllocError>
    ensures commits { KeepsLists (λ v. v.items) commits.old.entries commits.new.entries }
    ensures shorts { KeepsLists (λ v. v.items) shorts.old.entries shorts.new.entries }
    ensures listed { OnOk result (list_any (is_row_of row.session row.duration) rows.old.items ≡ false
        → is_row_listed (λ v. v.items) commits.new.entries shorts.new.entries row ≡ true) }
    ensures rows { rows.new.items ≡ (if is_ok result then with_row row rows.old.items else rows.old.items) }
{
    lists::list_row(commits, shorts, alloc, rows, row)?;
    rows::add(rows, row)
}

// Adds a lock so to others on its name where they are open to it, and says whether they are.
fn grant_listed(
    rows: &mut Vec<Row>,
    commits: &mut IndexMap<SessionId, Vec<Name>>,
    shorts: &mut IndexMap<SessionId, Vec<Name>>,
    alloc: Global,
    lock: Row,
) -> Result<bool, AllocError>
    ensures commits { KeepsLists (λ v. v.items) commits.old.entries commits.new.entries }
    ensures shorts { KeepsLists (λ v. v.items) shorts.old.entries shorts.new.entries }
    ensures answer { IfOk result (λ granted. granted ≡ is_open lock.session lock.mode rows.old.items) }
    ensures listed { is_yes result ≡ true → list_any (is_row_of lock.session lock.duration) rows.old.items ≡ false
        → is_row_listed (λ v. v.items) commits.new.entries shorts.new.entries lock ≡ true }
    ensures rows { rows.new.items ≡ (if is_yes result then with_row lock rows.old.items else rows.old.items) }
{
    if !rows::is_open(rows, lock.session, lock.mode) {
        return Ok(false);
    }
    add_listed(rows, commits, shorts, alloc, lock)?;
    Ok(true)
}

impl Slots {
    /// No rows.
    pub(crate) fn new(alloc: Global) -> Slots
        ensures { result ≡ [] }
    {
        Slots {
            slots: Vec::new(alloc),
            places: IndexMap::new(alloc),
        }
    }

    /// The rows on the name.
    pub(crate) fn on(&self, name: Name) -> &[Row]
        ensures { result.now ≡ rows_on name self.now }
    {
        match self.places.get(&name) {
            Some(at) => self.slots[*at].as_slice(),
            None => &[],
        }
    }

    /// Adds a row to those on its name: one that waits comes last, and a lock raises the one that
    /// its session holds there for that duration. The name is listed for its session and its
    /// duration, unless the session has such a row there. Where there is no memory the rows are as
    /// they were.
    pub(crate) fn add(
        &mut self,
        commits: &mut IndexMap<SessionId, Vec<Name>>,
        shorts: &mut IndexMap<SessionId, Vec<Name>>,
        alloc: Global,
        row: Row,
    ) -> Result<(), AllocError>
        ensures commits { KeepsLists (λ v. v.items) commits.old.entries commits.new.entries }
        ensures shorts { KeepsLists (λ v. v.items) shorts.old.entries shorts.new.entries }
        ensures listed { OnOk result (list_any (is_row_of row.session row.duration) (rows_on row.name self.old) ≡ false
            → is_row_listed (λ v. v.items) commits.new.entries shorts.new.entries row ≡ true) }
        ensures rows { self.new ≡ (if is_ok result then with_row_on row self.old else self.old) }
    {
        match self.places.get(&row.name) {
            Some(at) => {
                let at = *at;
                add_listed(&mut self.slots[at], commits, shorts, alloc, row)
            }
            None => {
                lists::list_row(commits, shorts, alloc, &[], row)?;
                self.add_name(alloc, row)
            }
        }
    }

    /// Adds a lock as `add` does where its name is open to it, and says whether it is. Else, and
    /// where there is no memory, the rows are as they were.
    pub(crate) fn grant(
        &mut self,
        commits: &mut IndexMap<SessionId, Vec<Name>>,
        shorts: &mut IndexMap<SessionId, Vec<Name>>,
        alloc: Global,
        lock: Row,
    ) -> Result<bool, AllocError>
        ensures commits { KeepsLists (λ v. v.items) commits.old.entries commits.new.entries }
        ensures shorts { KeepsLists (λ v. v.items) shorts.old.entries shorts.new.entries }
        ensures answer { IfOk result (λ granted. granted ≡ is_open lock.session lock.mode (rows_on lock.name self.old)) }
        ensures listed { is_yes result ≡ true → list_any (is_row_of lock.session lock.duration) (rows_on lock.name self.old) ≡ false
            → is_row_listed (λ v. v.items) commits.new.entries shorts.new.entries lock ≡ true }
        ensures rows { self.new ≡ (if is_yes result then with_row_on lock self.old else self.old) }
    {
        match self.places.get(&lock.name) {
            Some(at) => {
                let at = *at;
                grant_listed(&mut self.slots[at], commits, shorts, alloc, lock)
            }
            None => {
                lists::list_row(commits, shorts, alloc, &[], lock)?;
                self.add_name(alloc, lock)?;
                Ok(true)
            }
        }
    }

    // Adds a row on a name that has none.
    fn add_name(&mut self, alloc: Global, row: Row) -> Result<(), AllocError>
        requires { rows_on row.name self.old ≡ [] }
        ensures { self.new ≡ (if is_ok result then with_row_on row self.old else self.old) }
    {
        self.places.reserve(1)?;
        let mut rows = Vec::new(alloc);
        rows::add(&mut rows, row)?;
        let at = self.slots.len();
        self.slots.push(rows)?;
        place_name(&mut self.places, row.name, at)
    }

    /// Takes all rows on the name away.
    pub(crate) fn clear(&mut self, name: Name)
        ensures { self.new ≡ replaced name [] self.old }
    {
        if let Some(at) = self.places.get(&name) {
            let at = *at;
            self.slots[at].clear();
            forget_name(&mut self.places, name);
        }
    }

    /// Takes the rows of that scope away on these names, and tries on each those that wait. Takes
    /// no memory.
    pub(crate) fn release(
        &mut self,
        scope: Scope,
        session: SessionId,
        names: &[Name],
        others: &[Name],
    )
        ensures { self.new ≡ worked_through scope session (names.now ++ others.now) self.old }
    {
        release_each(&mut self.slots, &mut self.places, scope, session, names);
        release_each(&mut self.slots, &mut self.places, scope, session, others);
        if (self.slots.len() > FEW) & (self.places.len() < self.slots.len() / 2) {
            squeeze(&mut self.slots, &mut self.places);
        }
    }

    /// The same rows in the same order.
    pub(crate) fn copy(&self) -> Result<Slots, AllocError>
        ensures { IfOk result (λ copy. copy ≡ self.now) }
    {
        Ok(Slots {
            slots: self.slots.clone()?,
            places: self.places.clone()?,
        })
    }

    /// The row at a place.
    pub(crate) fn row(&self, i: usize) -> Option<Row>
        ensures { result ≡ slice_get self.now i }
    {
        let mut left = i;
        for k in 0..self.slots.len() {
            let rows = &self.slots[k];
            if left < rows.len() {
                return Some(rows[left]);
            }
            left -= rows.len();
        }
        None
    }
}
