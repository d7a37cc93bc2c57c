// The rows of a table by name, and the names by session.
ghost use Rattle.std.specs.Prelude.{◌≡◌, [], ◌∷◌, ◌++◌, OnOk, OnErr, IfOk, slice_get, if◌then◌else◌, List, is_ok, None, false};
ghost use Rattle.sp_locks.specs.Rows.{waiting_in, is_open};
ghost use Rattle.sp_locks.specs.Table.{rows_on, with_row_on, replaced, released, given, AreFreeInTurn};
ghost use Rattle.sp_locks.specs.Answers.{is_yes};
ghost use Rattle.sp_locks.specs.Soundness.{IsSound};
ghost use Rattle.sp_locks.specs.declared.row.Scope.TheVariants.{ShortLocks, AllRows};

use crate::lists;
use crate::needs::Need;
use crate::row::{Duration, Name, Row, Scope, SessionId};
use crate::slots::Slots;
use indexmap::IndexMap;
use std::alloc::{AllocError, Global};
use std::marker::Model;

/// Rows by name, in the order in which the names came, and on each name in order of arrival. Each
/// name has rows: one whose last row goes is forgotten. For each session it is known on which names
/// it may have rows for commit, and on which short ones.
#[derive(Drop)]
pub(crate) struct RowsByName {
    rows: Slots,
    commits: IndexMap<SessionId, Vec<Name>>,
    shorts: IndexMap<SessionId, Vec<Name>>,
}

impl Model for RowsByName {
    ghost use Rattle.std.specs.Prelude.{List};
    ghost use Rattle.sp_locks.specs.declared.row.Row.{Row};

    ghost Value = { List Row };

    ghost use Rattle.sp_locks.specs.Lists.{AreListed};

    ghost view = { λ a. a.rows };

    ghost invariant = { λ a. AreListed (λ v. v.items) a.commits.entries a.shorts.entries a.rows };
}

impl RowsByName {
    /// No rows.
    pub(crate) fn new(alloc: Global) -> RowsByName
        ensures { result ≡ [] }
    {
        RowsByName {
            rows: Slots::new(alloc),
            commits: IndexMap::new(alloc),
            shorts: IndexMap::new(alloc),
        }
    }

    /// The rows on the name.
    pub(crate) fn on(&self, name: Name) -> &[Row]
        ensures { result.now ≡ rows_on name self.now }
    {
        self.rows.on(name)
    }

    /// Adds a row to those on its name: one that waits comes last, and a lock raises the one that
    /// its session holds there for that duration. Where there is no memory all is as it was.
    pub(crate) fn add(&mut self, alloc: Global, row: Row) -> Result<(), AllocError>
        ensures { self.new ≡ (if is_ok result then with_row_on row self.old else self.old) }
    {
        self.rows
            .add(&mut self.commits, &mut self.shorts, alloc, row)
    }

    /// Adds a lock as `add` does where its name is open to it, and says whether it is. Else, and
    /// where there is no memory, all is as it was.
    pub(crate) fn grant(&mut self, alloc: Global, lock: Row) -> Result<bool, AllocError>
        ensures answer { IfOk result (λ granted. granted ≡ is_open lock.session lock.mode (rows_on lock.name self.old)) }
        ensures rows { self.new ≡ (if is_yes result then with_row_on lock self.old else self.old) }
    {
        self.rows
            .grant(&mut self.commits, &mut self.shorts, alloc, lock)
    }

    // Takes back the last row, the only one on its name.
    fn drop_last(&mut self, name: Name)
        ensures { self.new ≡ replaced name [] self.old }
    {
        self.rows.clear(name);
    }

    // Takes back that many of the locks that were given.
    fn take_back(&mut self, session: SessionId, needs: &[Need])
        ensures { (rows : List _) → AreFreeInTurn session rows needs.now
            → self.old ≡ rows ++ given session needs.now → self.new ≡ rows }
    {
        'back: for i in (0..needs.len()).rev() {
            self.drop_last(needs[i].name);
        }
    }

    /// Adds a commit lock of the session for each need, on names that have no rows: all of them, or
    /// none where there is no memory.
    pub(crate) fn give(
        &mut self,
        alloc: Global,
        session: SessionId,
        needs: &[Need],
    ) -> Result<(), AllocError>
        requires { AreFreeInTurn session self.old needs.now }
        ensures ok { OnOk result (self.new ≡ self.old ++ given session needs.now) }
        ensures err { OnErr result (self.new ≡ self.old) }
    {
        for i in 0..needs.len() {
            let need = needs[i];
            let lock = Row {
                session,
                name: need.name,
                mode: need.mode,
                duration: Duration::Commit,
                waiting: false,
            };
            if let Err(error) = self.add(alloc, lock) {
                self.take_back(session, &needs[..i]);
                return Err(error);
            }
        }
        Ok(())
    }

    /// Drops the short locks of the session, and tries on each of their names those that wait. A
    /// session that waits keeps its list of names. Takes no memory.
    pub(crate) fn release_short(&mut self, session: SessionId, waits: bool)
        requires sound { IsSound self.old }
        requires awake { waits ≡ false → waiting_in session self.old ≡ None }
        ensures { self.new ≡ released ShortLocks session self.old }
    {
        let names = lists::names(&self.shorts, session);
        self.rows.release(Scope::ShortLocks, session, names, &[]);
        if !waits {
            lists::forget(&mut self.shorts, session);
        }
    }

    /// Drops all rows of the session, and tries on each of their names those that wait. Takes no
    /// memory.
    pub(crate) fn release_all(&mut self, session: SessionId)
        requires { IsSound self.old }
        ensures { self.new ≡ released AllRows session self.old }
    {
        let commits = lists::names(&self.commits, session);
        let shorts = lists::names(&self.shorts, session);
        self.rows.release(Scope::AllRows, session, commits, shorts);
        lists::forget(&mut self.commits, session);
        lists::forget(&mut self.shorts, session);
    }

    /// The same rows in the same order.
    pub(crate) fn copy(&self) -> Result<RowsByName, AllocError>
        ensures { IfOk result (λ copy. copy ≡ self.now) }
    {
        Ok(RowsByName {
            rows: self.rows.copy()?,
            commits: self.commits.clone()?,
            shorts: self.shorts.clone()?,
        })
    }

    /// The row at a place.
    pub(crate) fn row(&self, i: usize) -> Option<Row>
        ensures { result ≡ slice_get self.now i }
    {
        self.rows.row(i)
    }
}
