// The tree of records.
ghost use Rattle.std.specs.Prelude.{◌≡◌, ◌<◌, ◌≤◌, ◌+◌, ◌^◌, None, IfOk, OnOk, length};
ghost use Rattle.sp_rect.specs.Store.{IsOrdered};
ghost use Rattle.sp_node.specs.Index.{leaf_with};
ghost use Rattle.sp_node.specs.Table.{IsShape};
ghost use Rattle.sp_model.specs.Opening.{committed_entry, IsRebuilt};
ghost use Rattle.sp_model.specs.Plans.{IsInserted};
ghost use Rattle.sp_model.specs.Stepped.{most_entries};

use sp_insertion::insert;
use sp_list::Duplicate;
use sp_node::{Draft, Ended, Entry, Made, Marks, Shape, Tree};
use sp_rect::Record;
use std::alloc::{AllocError, Global};

// Inserts the committed entry of the record.
fn add(alloc: Global, tree: &mut Tree, number: u64, added: &Record) -> Result<(), AllocError>
    requires fresh { leaf_with tree.old.table.nodes number ≡ None }
    requires numbers { tree.old.table.next < 2 ^ 63 + 2 ^ 32 }
    ensures { OnOk result (IsInserted tree.old.table (committed_entry number added.now) tree.new.table) }
{
    let value = added.value.copy(alloc)?;
    let marks = Marks {
        made: Made::Committed,
        ended: Ended::Nobody,
        draft: Draft::None,
    };
    insert(
        alloc,
        tree,
        Entry {
            number,
            id: added.id,
            rect: added.rect,
            value,
            marks,
        },
    )
}

/// The tree after the insertion of the records, one after the other, with entry numbers from 1.
pub(crate) fn rebuild(alloc: Global, shape: Shape, records: &[Record]) -> Result<Tree, AllocError>
    requires shape { IsShape shape }
    requires ordered { IsOrdered records.now }
    requires few { length records.now ≤ most_entries }
    ensures { IfOk result (λ tree. IsRebuilt shape records.now tree.table) }
{
    let mut tree = Tree::new(alloc, shape)?;
    'records: for (i, record) in records.iter().enumerate() {
        add(alloc, &mut tree, i as u64 + 1, record)?;
    }
    Ok(tree)
}
