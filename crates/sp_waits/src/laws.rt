// Laws of who waits for whom, for the crates that stand on them.
ghost use Rattle.std.specs.Prelude.{◌≡◌, ◌↔◌, ◌++◌, ℕ, true, false, None, List};
ghost use Rattle.sp_locks.specs.declared.mode.Mode.{Mode as AnyMode};
ghost use Rattle.sp_locks.specs.declared.row.Name.{Name as AnyName};
ghost use Rattle.sp_locks.specs.declared.row.Duration.{Duration as AnyDuration};
ghost use Rattle.sp_locks.specs.declared.row.Row.{Row as AnyRow};
ghost use Rattle.sp_locks.specs.declared.needs.Need.{Need as AnyNeed};
ghost use Rattle.sp_locks.specs.declared.row.Scope.TheVariants.{ShortLocks, AllRows};
ghost use Rattle.sp_locks.specs.Rows.{waiting_in};
ghost use Rattle.sp_locks.specs.Table.{released, row_of, with_row_on, given, AreFree};
ghost use Rattle.sp_locks.specs.Soundness.{IsSound};
ghost use Rattle.sp_waits.specs.Edges.{member, waits_of, Closes, NoCycle};
ghost use Rattle.sp_waits.specs.Waiting.{WaitsFor};

/// Where nobody waits for itself, nobody does once a session waits, for however long it asks, unless
/// that wait closes a cycle.
pub fn waits_that_close_none_make_none()
    ensures { (rows : List AnyRow) (session : ℕ) (name : AnyName) (mode : AnyMode) (duration : AnyDuration) → IsSound rows
        → waiting_in session rows ≡ None → NoCycle rows → (Closes rows session name mode → ⊥)
        → NoCycle (with_row_on (row_of session name mode duration true) rows) }
{}

/// A release makes no session wait for itself. One of short locks is of a session that does not
/// wait.
pub fn releases_make_no_cycle()
    ensures all { (rows : List AnyRow) (session : ℕ) → IsSound rows → NoCycle rows
        → NoCycle (released AllRows session rows) }
    ensures short { (rows : List AnyRow) (session : ℕ) → IsSound rows → waiting_in session rows ≡ None
        → NoCycle rows → NoCycle (released ShortLocks session rows) }
{}

/// The edges of a sound table in the words of its rules: a session waits for each other one that
/// holds an incompatible mode on the name of its waiting row and, where it holds nothing there, for
/// each that waits there for one and came earlier.
pub fn edges_go_to_holders_and_earlier_waiters()
    ensures { (rows : List AnyRow) (session other : ℕ) → IsSound rows
        → (member other (waits_of rows session) ≡ true) ↔ WaitsFor rows session other }
{}

/// A granted request makes no session wait for itself, and neither do gifts, since who gets a lock
/// does not wait.
pub fn grants_make_no_cycle()
    ensures granted { (rows : List AnyRow) (row : AnyRow) → row.waiting ≡ false → waiting_in row.session rows ≡ None
        → IsSound rows → IsSound (with_row_on row rows) → NoCycle rows → NoCycle (with_row_on row rows) }
    ensures given { (rows : List AnyRow) (session : ℕ) (needs : List AnyNeed) → AreFree rows needs
        → waiting_in session rows ≡ None → IsSound rows → NoCycle rows → NoCycle (rows ++ given session needs) }
{}
