// Whether a transaction has changes.
ghost use Rattle.std.specs.Prelude.{◌≡◌, ◌<◌, ◌^◌, Some, length, slice_get};
ghost use Rattle.std.specs.List.{list_any};
ghost use Rattle.sp_node.specs.declared.node.Entry.{Entry as AnyEntry};
ghost use Rattle.sp_node.specs.Among.{Among};
ghost use Rattle.sp_node.specs.Table.{entries_of};
ghost use Rattle.sp_model.specs.declared.session.Session.{Session as AnySession};
ghost use Rattle.sp_model.specs.Stepped.{is_change, has_changes};
ghost use Rattle.sp_model.specs.Soundness.{Sound};
ghost use Rattle.sp_state.specs.Held.{kernel_of};

use sp_node::{Entry, Tree};
use sp_state::State;

// A mark of the transaction on an entry that it did not both make and end.
fn is_change(entry: &Entry, txn: u64) -> bool
    ensures { result ≡ is_change txn entry.now }
{
    let own = entry.marks.made.is_by(txn) & entry.marks.ended.is_by(txn);
    entry.is_marked(txn) & !own
}

// The same of the entry of this number.
fn is_changed(tree: &Tree, number: u64, txn: u64) -> bool
    ensures { (e : AnyEntry) → Among e (entries_of tree.now.table) → e.number ≡ number → result ≡ is_change txn e }
{
    let _valid = tree.root();
    match tree.entry(number) {
        Some(entry) => is_change(entry, txn),
        None => false,
    }
}

// Whether the transaction has a change, of the entries that bear its marks.
fn any_changed(tree: &Tree, txn: u64) -> bool
    requires { (e : AnyEntry) → Among e (entries_of tree.now.table) → e.number < 2 ^ 63 }
    ensures { result ≡ list_any (is_change txn) (entries_of tree.now.table) }
{
    let mut start = 0;
    'marked: while let Some(number) = tree.next_marked(txn, start) {
        if is_changed(tree, number, txn) {
            return true;
        }
        start = number + 1;
    }
    false
}

/// Whether the transaction of the session at this place has changes: it bears a mark on an entry that it did not
/// both make and end. Takes no memory. Costs the entries that bear its marks, up to the first change.
pub fn has_changes(state: &State, at: usize) -> bool
    requires bound { at < length state.now.seats.items }
    requires sound { Sound (kernel_of state.now) }
    ensures { (x : AnySession) → slice_get state.now.seats.items at ≡ Some x → result ≡ has_changes (kernel_of state.now) x }
{
    any_changed(&state.tree, state.seats[at].number())
}
