// What an operation needs in the present tree.
ghost use Rattle.std.specs.Prelude.{◌≡◌, ◌<◌, ◌+◌, ◌^◌, true, false, None, Some, IfOk};
ghost use Rattle.sp_rect.specs.Store.{IsOrdered};
ghost use Rattle.sp_rect.specs.declared.operation.Op.{Op as AnyOp};
ghost use Rattle.sp_rect.specs.declared.operation.Op.TheVariants.{Put as APut};
ghost use Rattle.sp_node.specs.Index.{leaf_with};
ghost use Rattle.sp_node.specs.Table.{entries_of};
ghost use Rattle.sp_txn.specs.Visible.{view};
ghost use Rattle.sp_protection.specs.Effects.{fresh};
ghost use Rattle.sp_model.specs.Plans.{adds, is_adding, HasNeeds};
ghost use Rattle.sp_state.specs.Held.{kernel_of};
ghost use Rattle.sp_state.specs.Sketches.{IsSketchOf};

use sp_grow::choose_leaf;
use sp_insertion::plan_insertion;
use sp_list::Duplicate;
use sp_locks::Needs;
use sp_needs::short_needs;
use sp_node::{Draft, Ended, Entry, Made, Marks, Tree};
use sp_ops::{commit_needs, effect};
use sp_rect::{Op, Record, Reply};
use sp_state::{Seat, Sketch, State};
use std::alloc::{AllocError, Global};

/// The commit needs and the short needs of an operation, and the insertion that was planned for them.
#[derive(Drop)]
pub(crate) struct Asking {
    pub commit: Needs,
    pub short: Needs,
    pub sketch: Option<Sketch>,
}

// Whether the operation is a put that finds no record of its id. Costs the entries of that id.
fn adds(alloc: Global, tree: &Tree, op: &Op, txn: u64) -> Result<bool, AllocError>
    requires { IsOrdered (view (entries_of tree.now.table) txn) }
    ensures { IfOk result (λ is. is ≡ adds op.now (view (entries_of tree.now.table) txn)) }
{
    match op {
        Op::Put(_) => {
            let effect = effect(alloc, tree, op, txn)?;
            Ok(matches!(effect.reply, Reply::Done))
        }
        Op::Drop(_) | Op::Set(_, _) | Op::Get(_) | Op::Find(_) | Op::Fill(_, _) | Op::Clear(_) => {
            Ok(false)
        }
    }
}

// The new entry of a put.
fn fresh(alloc: Global, txn: u64, number: u64, added: &Record) -> Result<Entry, AllocError>
    ensures { IfOk result (λ entry. entry ≡ fresh txn number added.now) }
{
    let value = added.value.copy(alloc)?;
    Ok(Entry {
        number,
        id: added.id,
        rect: added.rect,
        value,
        marks: Marks {
            made: Made::By(txn),
            ended: Ended::Nobody,
            draft: Draft::None,
        },
    })
}

// The needs of an operation that adds no entry.
fn stay_needs(alloc: Global, state: &State, seat: &Seat, op: &Op) -> Result<Asking, AllocError>
    requires { is_adding (kernel_of state.now) seat.now op.now ≡ false }
    ensures needs { IfOk result (λ asking. HasNeeds (kernel_of state.now) seat.now op.now asking.commit asking.short) }
    ensures sketch { IfOk result (λ asking. IsSketchOf state.now.tree.table asking.sketch) }
{
    let commit = commit_needs(alloc, &state.tree, None, op, seat.number(), seat.searches())?;
    Ok(Asking {
        commit,
        short: Needs::new(alloc),
        sketch: None,
    })
}

// The needs of a put that adds its entry, by the plan of the insertion.
fn put_needs(
    alloc: Global,
    state: &State,
    seat: &Seat,
    op: &Op,
    added: &Record,
) -> Result<Asking, AllocError>
    requires put { op.now ≡ APut added.now }
    requires adding { is_adding (kernel_of state.now) seat.now (APut added.now) ≡ true }
    requires fresh { leaf_with state.now.tree.table.nodes state.now.next_entry ≡ None }
    requires numbers { state.now.tree.table.next < 2 ^ 63 + 2 ^ 32 }
    ensures needs { IfOk result (λ asking. HasNeeds (kernel_of state.now) seat.now (APut added.now) asking.commit asking.short) }
    ensures sketch { IfOk result (λ asking. IsSketchOf state.now.tree.table asking.sketch) }
{
    let entry = fresh(alloc, seat.number(), state.next_entry, added)?;
    let kept = entry.copy(alloc)?;
    let plan = plan_insertion(alloc, &state.tree, entry)?;
    let chosen = choose_leaf(&state.tree, &added.rect);
    let commit = commit_needs(
        alloc,
        &state.tree,
        Some(&plan),
        op,
        seat.number(),
        seat.searches(),
    )?;
    let short = short_needs(alloc, &state.tree, &plan, Some(chosen))?;
    Ok(Asking {
        commit,
        short,
        sketch: Some(Sketch { entry: kept, plan }),
    })
}

/// The needs of the operation of the session in the present tree. The insertion of a put that adds an
/// entry is planned, and handed out as well. Costs what `commit_needs` costs; of a put also the entries of its id, and where it adds an
/// entry what `grow` and `short_needs` cost.
pub(crate) fn needs(
    alloc: Global,
    state: &State,
    seat: &Seat,
    op: &Op,
) -> Result<Asking, AllocError>
    requires ordered { IsOrdered (view (entries_of state.now.tree.table) seat.now.txn.number) }
    requires fresh { leaf_with state.now.tree.table.nodes state.now.next_entry ≡ None }
    requires numbers { state.now.tree.table.next < 2 ^ 63 + 2 ^ 32 }
    ensures needs { IfOk result (λ asking. HasNeeds (kernel_of state.now) seat.now op.now asking.commit asking.short) }
    ensures sketch { IfOk result (λ asking. IsSketchOf state.now.tree.table asking.sketch) }
{
    let is_adding = adds(alloc, &state.tree, op, seat.number())?;
    match op {
        Op::Put(added) if is_adding => put_needs(alloc, state, seat, op, added),
        _ => stay_needs(alloc, state, seat, op),
    }
}
