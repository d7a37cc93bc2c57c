// A put that adds an entry.
ghost use Rattle.std.specs.Prelude.{◌≡◌, ◌⊎◌, ◌+◌, ◌<◌, ◌≤◌, ◌^◌, true, None, Some, IfOk, OnErr, MatchBool, length};
ghost use Rattle.sp_rect.specs.declared.operation.Op.TheVariants.{Put};
ghost use Rattle.sp_rect.specs.declared.record.Record.{Record as AnyRecord};
ghost use Rattle.sp_node.specs.Index.{leaf_with};
ghost use Rattle.sp_node.specs.Plan.{IsMadeOf, planned};
ghost use Rattle.sp_protection.specs.Effects.{fresh};
ghost use Rattle.sp_event.specs.declared.event.Event.TheVariants.{Apply as AskApply};
ghost use Rattle.sp_model.specs.declared.session.Session.{Session as AnySession};
ghost use Rattle.sp_model.specs.Plans.{is_adding, IsInserted};
ghost use Rattle.sp_model.specs.Refusals.{first_unused};
ghost use Rattle.sp_model.specs.Removal.{IsTakenOut};
ghost use Rattle.sp_model.specs.Soundness.{Sound};
ghost use Rattle.sp_model.specs.Stepped.{Does};
ghost use Rattle.sp_state.specs.Held.{kernel_of, Fits};
ghost use Rattle.sp_state.specs.Sketches.{IsSketchOf};
ghost use Rattle.sp_state.specs.Stages.{op_of};
ghost use Rattle.sp_apply.specs.Acting.{IsReady, IsGoing};

use crate::ending::end;
use crate::inserting::insert;
use sp_event::{Answer, Kind};
use sp_insertion::plan_insertion;
use sp_list::Duplicate;
use sp_locks::SessionId;
use sp_node::{Draft, Ended, Entry, Made, Marks, Plan, Tree};
use sp_rect::Op;
use sp_state::{Seat, Sketch, State, take_plan};
use std::alloc::{AllocError, Global};

// The most entries.
const MOST_ENTRIES: usize = 1 << 20;

// Numbers are used below this one.
const FIRST_UNUSED: u64 = 1 << 63;

// The new entry of the put that the session has planned.
fn fresh_entry(alloc: Global, seat: &Seat, number: u64) -> Result<Entry, AllocError>
    requires { (r : AnyRecord) × (op_of seat.now.stage ≡ Some (Put r)) }
    ensures { IfOk result (λ entry. (r : AnyRecord) → op_of seat.now.stage ≡ Some (Put r) → entry ≡ fresh seat.now.txn.number number r) }
{
    match seat.op() {
        Some(Op::Put(added)) => {
            let value = added.value.copy(alloc)?;
            let marks = Marks {
                made: Made::By(seat.number()),
                ended: Ended::Nobody,
                draft: Draft::None,
            };
            Ok(Entry {
                number,
                id: added.id,
                rect: added.rect,
                value,
                marks,
            })
        }
        _ => unreachable!(),
    }
}

// The plan of the entry's insertion: the one that was made when the operation was planned, or else a new one. No
// sketch is kept.
fn plan_of(
    alloc: Global,
    sketch: &mut Option<Sketch>,
    tree: &Tree,
    entry: Entry,
) -> Result<Plan, AllocError>
    requires fresh { leaf_with tree.now.table.nodes entry.number ≡ None }
    requires numbers { tree.now.table.next < 2 ^ 63 + 2 ^ 32 }
    requires sketch { IsSketchOf tree.now.table sketch.old }
    ensures gone { sketch.new ≡ None }
    ensures made { IfOk result (IsMadeOf tree.now.table) }
    ensures inserted { IfOk result (λ plan. IsInserted tree.now.table entry (planned tree.now.table plan)) }
{
    match take_plan(sketch, &entry) {
        Some(plan) => Ok(plan),
        None => plan_insertion(alloc, tree, entry),
    }
}

// Whether the entry's number or a new node's would pass the limit.
fn passes_numbers(entry: u64, next: u64, after: u64) -> bool
    ensures { MatchBool result ((first_unused ≤ entry) ⊎ ((first_unused ≤ next) × (next < after))) ((first_unused ≤ entry) ⊎ ((first_unused ≤ next) × (next < after)) → ⊥) }
{
    if FIRST_UNUSED <= entry {
        return true;
    }
    if next < FIRST_UNUSED {
        return false;
    }
    next < after
}

/// The put of the session at that place adds its entry.
pub(crate) fn put(
    alloc: Global,
    state: &mut State,
    session: SessionId,
    at: usize,
) -> Result<Answer, AllocError>
    requires sound { Sound (kernel_of state.old) }
    requires fits { Fits state.old }
    requires ready { (x : AnySession) × (r : AnyRecord) × IsReady (kernel_of state.old) session at x (Put r) × (is_adding (kernel_of state.old) x (Put r) ≡ true) }
    ensures done { IfOk result (λ answer. Does IsTakenOut (kernel_of state.old) (AskApply session) answer (kernel_of state.new)) }
    ensures same { OnErr result (kernel_of state.new ≡ kernel_of state.old) }
    ensures fits { Fits state.new }
{
    if MOST_ENTRIES <= state.tree.len() {
        end(state, session, at);
        return Ok(Answer::Full(Kind::Entries));
    }
    let entry = fresh_entry(alloc, &state.seats[at], state.next_entry)?;
    let plan = plan_of(alloc, &mut state.sketch, &state.tree, entry)?;
    if passes_numbers(state.next_entry, state.tree.next(), plan.next) {
        end(state, session, at);
        return Ok(Answer::Full(Kind::Numbers));
    }
    insert(alloc, state, session, at, plan)
}
