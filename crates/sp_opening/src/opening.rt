// The state that opening gives.
ghost use Rattle.std.specs.Prelude.{◌≤◌, IfOk, length};
ghost use Rattle.sp_rect.specs.Store.{IsOrdered};
ghost use Rattle.sp_node.specs.Table.{IsShape};
ghost use Rattle.sp_model.specs.Opening.{IsOpened};
ghost use Rattle.sp_model.specs.Stepped.{most_entries};
ghost use Rattle.sp_state.specs.Held.{kernel_of, Fits};

use crate::rebuilding::rebuild;
use sp_audit::Audit;
use sp_locks::Table;
use sp_node::Shape;
use sp_rect::Records;
use sp_state::State;
use std::alloc::{AllocError, Global};
use std::collections::VecDeque;

/// The state over these records, which stand by ascending id: their entries are committed and numbered from 1,
/// and nothing has happened. Takes at most 2^20 records. The one error is want of memory. Costs an insertion
/// for each record; the audit keeps the records themselves.
pub fn open_state(alloc: Global, shape: Shape, records: Records) -> Result<State, AllocError>
    requires shape { IsShape shape }
    requires ordered { IsOrdered records }
    requires few { length records ≤ most_entries }
    ensures opened { IfOk result (λ state. IsOpened shape records (kernel_of state)) }
    ensures fits { IfOk result Fits }
{
    let tree = rebuild(alloc, shape, records.as_slice())?;
    let dead = VecDeque::with_capacity(alloc, records.len())?;
    let next_entry = records.len() as u64 + 1;
    Ok(State {
        tree,
        next_entry,
        next_txn: 1,
        locks: Table::new(alloc),
        seats: Vec::new(alloc),
        dead,
        queue: Vec::new(alloc),
        flight: Vec::new(alloc),
        calls: 0,
        audit: Audit::new(alloc, records),
        stopped: None,
        operations: 0,
        records: 0,
        sketch: None,
    })
}
