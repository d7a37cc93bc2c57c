// What an operation marks.
ghost use Rattle.std.specs.Prelude.{◌≡◌, ◌++◌, ◌∷◌, [], IfOk, OnOk, map, if◌then◌else◌};
ghost use Rattle.sp_protection.specs.Effects.{is_marking, ended_by, drafted_by, marks_by};
ghost use Rattle.sp_ops.specs.Seen.{entries_at};
ghost use Rattle.sp_ops.specs.Effect.{mark_of};

use crate::effects::Marked;
use sp_list::Duplicate;
use sp_node::{Draft, Ended, Marks, Tree};
use sp_rect::{Op, Value};
use std::alloc::{AllocError, Global};

// The marks with an end by the transaction.
fn ended_by(alloc: Global, marks: &Marks, txn: u64) -> Result<Marks, AllocError>
    ensures { IfOk result (λ m. m ≡ ended_by txn marks.now) }
{
    let draft = marks.draft.copy(alloc)?;
    Ok(Marks {
        made: marks.made,
        ended: Ended::By(txn),
        draft,
    })
}

// The marks with a draft of the transaction.
fn drafted_by(alloc: Global, marks: &Marks, txn: u64, value: &Value) -> Result<Marks, AllocError>
    ensures { IfOk result (λ m. m ≡ drafted_by txn value.now marks.now) }
{
    let value = value.copy(alloc)?;
    Ok(Marks {
        made: marks.made,
        ended: marks.ended,
        draft: Draft::Of(txn, value),
    })
}

// The marks that the operation gives to an entry with these.
fn marks_by(alloc: Global, op: &Op, marks: &Marks, txn: u64) -> Result<Marks, AllocError>
    ensures { IfOk result (λ m. m ≡ marks_by txn op.now marks.now) }
{
    match op {
        Op::Drop(_) | Op::Clear(_) => ended_by(alloc, marks, txn),
        Op::Set(_, value) | Op::Fill(_, value) => drafted_by(alloc, marks, txn, value),
        Op::Put(_) | Op::Get(_) | Op::Find(_) => marks.copy(alloc),
    }
}

// Adds the entry of this number with the marks that the operation gives it.
fn push_mark(
    alloc: Global,
    tree: &Tree,
    op: &Op,
    number: u64,
    txn: u64,
    marked: &mut Vec<(u64, Marks)>,
) -> Result<(), AllocError>
    ensures { OnOk result (marked.new.items ≡ marked.old.items ++ map (mark_of txn op.now) (entries_at tree.now.table.nodes (number ∷ []))) }
{
    if let Some(entry) = tree.entry(number) {
        let marks = marks_by(alloc, op, &entry.marks, txn)?;
        marked.push((entry.number, marks))?;
    }
    Ok(())
}

// The entries of these numbers with the marks that the operation gives them.
fn marks_at(
    alloc: Global,
    tree: &Tree,
    op: &Op,
    numbers: &[u64],
    txn: u64,
) -> Result<Vec<(u64, Marks)>, AllocError>
    ensures { IfOk result (λ v. v.items ≡ map (mark_of txn op.now) (entries_at tree.now.table.nodes numbers.now)) }
{
    let mut marked = Vec::new(alloc);
    for number in numbers {
        push_mark(alloc, tree, op, *number, txn, &mut marked)?;
    }
    Ok(marked)
}

/// What the operation marks of the entries of these numbers.
pub(crate) fn marked(
    alloc: Global,
    tree: &Tree,
    op: &Op,
    numbers: &[u64],
    txn: u64,
) -> Result<Marked, AllocError>
    ensures { IfOk result (λ m. m ≡ (if is_marking op.now then map (mark_of txn op.now) (entries_at tree.now.table.nodes numbers.now) else [])) }
{
    match op {
        Op::Put(_) | Op::Get(_) | Op::Find(_) => Ok(Marked::new(alloc)),
        Op::Drop(_) | Op::Set(_, _) | Op::Fill(_, _) | Op::Clear(_) => {
            let marks = marks_at(alloc, tree, op, numbers, txn)?;
            Ok(Marked::from_vec(marks))
        }
    }
}
