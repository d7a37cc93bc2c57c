// The laws of insertions, of the trees and the needs that the code has.
ghost use Rattle.std.specs.Prelude.{◌≡◌, ℕ, List, ◌++◌, None};
ghost use Rattle.sp_rect.specs.Plane.{Rectangle as AnyRectangle, IsRectangle};
ghost use Rattle.sp_locks.specs.declared.needs.Need.{Need as AnyAsked};
ghost use Rattle.sp_node.specs.declared.node.Entry.{Entry as AnyEntry};
ghost use Rattle.sp_node.specs.Among.{Among};
ghost use Rattle.sp_node.specs.Index.{leaf_with};
ghost use Rattle.sp_node.specs.Plan.{SameEntries};
ghost use Rattle.sp_node.specs.Table.{Table, IsValid, entries_of};
ghost use Rattle.sp_granule.specs.Granules.{standing, granules};
ghost use Rattle.sp_grow.specs.Chosen.{ReachesOf};
ghost use Rattle.sp_grow.specs.Grown.{IsGrown};
ghost use Rattle.sp_protection.specs.Holding.{Lock as AnyLock};
ghost use Rattle.sp_protection.specs.Guarding.{Guarded};
ghost use Rattle.sp_protection.specs.Reshape.{EntersOrGives};
ghost use Rattle.sp_protection.specs.Insertion.{Inserts, KeepsAll};
ghost use Rattle.sp_protection.specs.Asking.{IsNew};
ghost use Rattle.sp_lawful.specs.Put.{IsPutInto, HoldsPutNeeds, AreGiven};

/// A law: an insertion into a valid tree, of an entry whose number it does not have, keeps what
/// stood there, has the new entry, and moves what moves to new leaves. The new entry is in the leaf that was
/// chosen for it, or that leaf gives an entry away.
pub fn insertions_are_lawful()
    ensures new { (t : Table) (e : AnyEntry) → IsValid t → leaf_with t.nodes e.number ≡ None → IsNew (granules t) (standing e) }
    ensures inserts { (t t' : Table) (e : AnyEntry) → IsValid t → IsValid t' → SameEntries (entries_of t) (entries_of t') → IsGrown t e t'
        → leaf_with t.nodes e.number ≡ None → Inserts (granules t) (granules t') (standing e) }
    ensures enters { (t t' : Table) (e : AnyEntry) (leaf : ℕ) → IsValid t → IsGrown t e t'
        → ReachesOf t e.rect leaf → EntersOrGives (granules t) (granules t') leaf (standing e) }
{}

/// A law: a put into a valid tree, under its own needs: it holds its commit
/// needs, and asked and holds for the moment its short ones, but for what its commit locks are enough for.
/// With its gifts on new nodes it then keeps what every transaction guards and owns, and owns its entry, and
/// still guards what it searched itself. `all` are the locks to the end with those for the moment.
pub fn puts_keep_all()
    ensures keeps { (t t' : Table) (e : AnyEntry) (leaf txn : ℕ) (searches : List AnyRectangle) (es : List AnyEntry) (locks all gifts : List AnyLock) (commit short asked : List AnyAsked)
        → IsPutInto t t' e leaf → HoldsPutNeeds t t' leaf searches locks all txn commit short asked → AreGiven t t' e searches es locks gifts txn
        → KeepsAll es (granules t) (granules t') locks (locks ++ gifts) txn (standing e) }
    ensures searched { (t t' : Table) (e : AnyEntry) (leaf txn : ℕ) (searches : List AnyRectangle) (es : List AnyEntry) (locks all gifts : List AnyLock) (commit short asked : List AnyAsked) (rect : AnyRectangle)
        → HoldsPutNeeds t t' leaf searches locks all txn commit short asked → AreGiven t t' e searches es locks gifts txn
        → Among rect searches → IsRectangle rect → Guarded (granules t) locks txn rect
        → Guarded (granules t') (locks ++ gifts) txn rect }
{}
