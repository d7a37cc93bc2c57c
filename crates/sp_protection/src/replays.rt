// Laws of replays: what each transaction was told is what its operations give on what is live, whatever the
// others do.
ghost use Rattle.std.specs.Prelude.{◌≡◌, ◌≢◌, ◌↔◌, ℕ, true, List, [], ◌∷◌, ◌++◌, map};
ghost use Rattle.sp_rect.specs.Plane.{Rectangle as AnyRectangle};
ghost use Rattle.sp_rect.specs.declared.record.Record.{Record as AnyRecord};
ghost use Rattle.sp_rect.specs.declared.operation.Op.{Op as AnyOp};
ghost use Rattle.sp_rect.specs.declared.operation.Answered.{Answered as AnyAnswered};
ghost use Rattle.sp_rect.specs.Store.{IsAscendingFrom, IsOrdered, part_of, within, replied};
ghost use Rattle.sp_rect.specs.Serial.{records_after};
ghost use Rattle.sp_node.specs.declared.node.Entry.{Entry as AnyEntry};
ghost use Rattle.sp_node.specs.Among.{Among};
ghost use Rattle.sp_node.specs.Marks.{settled, undone};
ghost use Rattle.sp_node.specs.Table.{Table, IsValid};
ghost use Rattle.sp_granule.specs.Granules.{Standing as AnyStanding, standing, granules};
ghost use Rattle.sp_txn.specs.Visible.{is_live, is_visible, live, view};
ghost use Rattle.sp_protection.specs.Holding.{Lock as AnyLock, AllCompatible};
ghost use Rattle.sp_protection.specs.Guarding.{Guarded, Owned, MarksOwned};
ghost use Rattle.sp_protection.specs.Effects.{is_changed, entered, applied};
ghost use Rattle.sp_protection.specs.Apart.{DifferApart, Undisturbed, HasOneEach};
ghost use Rattle.sp_protection.specs.Replays.{Replays, HoldsParts, HasRectangles, OneEach, SameMembers, LeavesMarks, HoldsChanged};
ghost use Rattle.sp_protection.specs.Asking.{KeepsLocks};

/// A law: operations give the same replies on two stores that differ only where they do not look.
pub fn undisturbed()
    ensures { (pairs : List AnyAnswered) (records others : List AnyRecord) → IsAscendingFrom 0 records → IsAscendingFrom 0 others
        → DifferApart pairs records others → Undisturbed pairs records others }
{}

/// A law: an operation leaves what is live. It joins those that its transaction replays, with its reply on
/// what the transaction sees, and leaves what each other transaction replays whose marks it does not touch.
pub fn operations_apply()
    ensures live { (t number : ℕ) (op : AnyOp) (es : List AnyEntry) → live (applied t number op es) ≡ live es }
    ensures own { (t number : ℕ) (op : AnyOp) (es : List AnyEntry) (pairs : List AnyAnswered) → Replays es t pairs
        → Replays (applied t number op es) t (pairs ++ record { op = op; reply = replied op (view es t) } ∷ []) }
    ensures other { (t u number : ℕ) (op : AnyOp) (es : List AnyEntry) (pairs : List AnyAnswered) → u ≢ t → LeavesMarks t u op es
        → Replays es u pairs → Replays (applied t number op es) u pairs }
{}

/// A law: a rollback leaves what is live and what every other transaction replays.
pub fn rollbacks_are_apart()
    ensures live { (t : ℕ) (es : List AnyEntry) → live (map (undone t) es) ≡ live es }
    ensures other { (t u : ℕ) (es : List AnyEntry) (pairs : List AnyAnswered) → u ≢ t → Replays es u pairs
        → Replays (map (undone t) es) u pairs }
{}

/// A law: what a transaction sees is what is live once it has committed. What every other transaction
/// replays stays, in a valid tree and under compatible locks, where marks are owned, no id has two live
/// entries or two that the committing transaction sees, and the other holds what its operations look at.
pub fn commits_are_apart()
    ensures own { (t : ℕ) (es : List AnyEntry) → live (map (settled t) es) ≡ view es t }
    ensures other { (tree : Table) (locks : List AnyLock) (t u : ℕ) (es : List AnyEntry) (pairs : List AnyAnswered) → IsValid tree
        → AllCompatible locks → u ≢ t → MarksOwned (granules tree) locks es → OneEach is_live es → OneEach (is_visible u) es
        → HasRectangles pairs → HoldsParts (granules tree) locks t pairs → Replays es t pairs → Replays (map (settled u) es) t pairs }
{}

/// A law: what is still marked after a commit or a rollback is still owned, whatever becomes of the locks of
/// the transaction that ended. What is marked after an operation is owned, where what it changes and what it
/// enters is. X on the objects of the entries that an operation changes keeps it off the marks of others.
pub fn marks_are_owned()
    ensures commit { (tree : Table) (locks left : List AnyLock) (u : ℕ) (es : List AnyEntry) → ((v : ℕ) → v ≢ u → KeepsLocks locks left v)
        → MarksOwned (granules tree) locks es → MarksOwned (granules tree) left (map (settled u) es) }
    ensures rollback { (tree : Table) (locks left : List AnyLock) (u : ℕ) (es : List AnyEntry) → ((v : ℕ) → v ≢ u → KeepsLocks locks left v)
        → MarksOwned (granules tree) locks es → MarksOwned (granules tree) left (map (undone u) es) }
    ensures operation { (tree : Table) (locks : List AnyLock) (t number : ℕ) (op : AnyOp) (es : List AnyEntry)
        → ((e : AnyEntry) → Among e es → is_changed t op e ≡ true → Owned (granules tree) locks t (standing e))
        → ((e : AnyEntry) → Among e (entered t number op (within (part_of op) (view es t))) → Owned (granules tree) locks t (standing e))
        → MarksOwned (granules tree) locks es → MarksOwned (granules tree) locks (applied t number op es) }
    ensures apart { (tree : Table) (locks : List AnyLock) (t u : ℕ) (op : AnyOp) (es : List AnyEntry) → AllCompatible locks → u ≢ t
        → MarksOwned (granules tree) locks es → HoldsChanged locks t op es → LeavesMarks t u op es }
{}

/// A law: what a transaction guards and owns, and what its operations hold, rests on its own locks alone.
pub fn own_locks_are_enough()
    ensures guarded { (tree : Table) (locks left : List AnyLock) (t : ℕ) (rect : AnyRectangle) → KeepsLocks locks left t
        → Guarded (granules tree) locks t rect → Guarded (granules tree) left t rect }
    ensures owned { (tree : Table) (locks left : List AnyLock) (t : ℕ) (e : AnyStanding) → KeepsLocks locks left t
        → Owned (granules tree) locks t e → Owned (granules tree) left t e }
    ensures parts { (tree : Table) (locks left : List AnyLock) (t : ℕ) (pairs : List AnyAnswered) → KeepsLocks locks left t
        → HoldsParts (granules tree) locks t pairs → HoldsParts (granules tree) left t pairs }
{}

/// A law: what is live and what a transaction sees do not depend on the order of the entries, nor on
/// entries that do not count there, so a change of the tree alone leaves them.
pub fn order_is_free()
    ensures live { (es others : List AnyEntry) → SameMembers is_live es others → OneEach is_live es → live es ≡ live others }
    ensures view { (t : ℕ) (es others : List AnyEntry) → SameMembers (is_visible t) es others → OneEach (is_visible t) es
        → view es t ≡ view others t }
{}

/// A law: records in strict order of id are those in order with one of each id at most; operations keep
/// that; and where what is live, or what a transaction sees, is so, it comes from one entry of each id.
pub fn ids_are_distinct()
    ensures parts { (records : List AnyRecord) → IsOrdered records ↔ (IsAscendingFrom 0 records × HasOneEach records) }
    ensures run { (pairs : List AnyAnswered) (records : List AnyRecord) → IsOrdered records → IsOrdered (records_after records pairs) }
    ensures live { (es : List AnyEntry) → IsOrdered (live es) → OneEach is_live es }
    ensures view { (t : ℕ) (es : List AnyEntry) → IsOrdered (view es t) → OneEach (is_visible t) es }
{}
