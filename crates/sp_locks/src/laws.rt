// Laws of modes and of the lock table, for the crates that stand on it.
ghost use Rattle.std.specs.Prelude.{◌≡◌, ◌≢◌, ◌↔◌, ℕ, true, false, None, Some, ◌&&◌, ◌++◌, List, []};
ghost use Rattle.sp_locks.specs.declared.mode.Mode.{Mode as AnyMode};
ghost use Rattle.sp_locks.specs.declared.row.Name.{Name as AnyName};
ghost use Rattle.sp_locks.specs.declared.row.Scope.{Scope as AnyScope};
ghost use Rattle.sp_locks.specs.declared.row.Row.{Row as AnyRow};
ghost use Rattle.sp_locks.specs.declared.needs.Need.{Need as AnyNeed};
ghost use Rattle.sp_locks.specs.Modes.{compatible as are_compatible, join as joined, covers as is_covering};
ghost use Rattle.sp_locks.specs.Rows.{waiting_in, goes};
ghost use Rattle.sp_locks.specs.Table.{held, blockers, with_row_on, released, given, AreFree};
ghost use Rattle.sp_locks.specs.Soundness.{In, IsSound};
ghost use Rattle.sp_locks.specs.Changes.{ComesFrom, IsCovered};
ghost use Rattle.sp_locks.specs.Blocking.{member, IsAscending, Blocks};

/// The join of two modes is the least that is as much as both, and a mode is compatible with it
/// exactly where it is compatible with both.
pub fn joins_are_least()
    ensures compatible { (m a b : AnyMode) → are_compatible m (joined a b) ≡ (are_compatible m a && are_compatible m b) }
    ensures symmetric { (a b : AnyMode) → are_compatible a b ≡ are_compatible b a }
    ensures covers { (a b : AnyMode) → (is_covering a b ≡ true) ↔ (joined a b ≡ a) }
    ensures least { (m a b : AnyMode) → is_covering m (joined a b) ≡ (is_covering m a && is_covering m b) }
    ensures commutes { (a b : AnyMode) → joined a b ≡ joined b a }
    ensures associates { (a b c : AnyMode) → joined (joined a b) c ≡ joined a (joined b c) }
{}

/// The blockers of a request, in ascending order and each once, are the other sessions that hold an
/// incompatible mode on the name and, where the requester holds nothing there, those that wait there
/// for one.
pub fn holders_and_earlier_waiters_block()
    ensures exactly { (rows : List AnyRow) (session other : ℕ) (name : AnyName) (mode : AnyMode)
        → (member other (blockers session name mode rows) ≡ true) ↔ Blocks session name mode rows other }
    ensures ascending { (rows : List AnyRow) (session : ℕ) (name : AnyName) (mode : AnyMode)
        → IsAscending (blockers session name mode rows) }
{}

/// In a sound table what two sessions hold on a name is compatible.
pub fn held_modes_are_compatible()
    ensures { (rows : List AnyRow) (name : AnyName) (one other : ℕ) (a b : AnyMode) → IsSound rows → one ≢ other
        → held one name rows ≡ Some a → held other name rows ≡ Some b → are_compatible a b ≡ true }
{}

/// A table stays sound by a granted request, by one that waits, by gifts and by releases.
pub fn requests_and_releases_stay_sound()
    ensures granted { (rows : List AnyRow) (row : AnyRow) → row.waiting ≡ false → waiting_in row.session rows ≡ None
        → blockers row.session row.name row.mode rows ≡ [] → IsSound rows → IsSound (with_row_on row rows) }
    ensures waits { (rows : List AnyRow) (row : AnyRow) → row.waiting ≡ true → waiting_in row.session rows ≡ None
        → blockers row.session row.name row.mode rows ≢ [] → IsSound rows → IsSound (with_row_on row rows) }
    ensures given { (rows : List AnyRow) (session : ℕ) (needs : List AnyNeed) → AreFree rows needs
        → IsSound rows → IsSound (rows ++ given session needs) }
    ensures released { (rows : List AnyRow) (scope : AnyScope) (session : ℕ)
        → IsSound rows → IsSound (released scope session rows) }
{}

/// After a release each row is of the session, name and duration of one that the release did not
/// take, and each lock that it did not take is covered by one that is held still.
pub fn releases_take_no_other_rows()
    ensures rows { (rows : List AnyRow) (scope : AnyScope) (session : ℕ) (x : AnyRow) → In x (released scope session rows)
        → (from : ComesFrom rows x) × (goes scope session from.row ≡ false) }
    ensures locks { (rows : List AnyRow) (scope : AnyScope) (session : ℕ) (x : AnyRow) → In x rows → x.waiting ≡ false
        → goes scope session x ≡ false → IsCovered (released scope session rows) x }
{}
