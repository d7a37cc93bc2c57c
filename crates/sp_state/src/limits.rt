// The limits that a begin or a start stands at.
ghost use Rattle.std.specs.Prelude.{◌≡◌, ℕ, None, Some};
ghost use Rattle.std.specs.Option.{option_copied};
ghost use Rattle.sp_model.specs.Refusals.{full, open_transactions, most_endings};
ghost use Rattle.sp_state.specs.Held.{kernel_of, Fits, kind_answer};
ghost use Rattle.sp_rect.specs.declared.operation.Op.{Op as AnyOp};
ghost use Rattle.sp_model.specs.Soundness.{WithinCounts};

use crate::seats::count_open;
use crate::{Seat, State};
use sp_event::{Event, Kind};

/// Numbers are used below this one.
pub const FIRST_UNUSED: u64 = 1 << 63;

/// The most open transactions.
pub const MOST_TRANSACTIONS: usize = 64;

/// The most commits and deadlocks that are kept, open transactions with them.
pub const MOST_ENDINGS: usize = 1 << 20;

/// The most operations of a transaction.
pub const MOST_OPERATIONS: usize = 4096;

/// The most operations that are kept.
pub const MOST_HISTORY: u64 = 1 << 22;

// The limit that a begin stands at.
fn full_begin(state: &State) -> Option<Kind>
    requires { WithinCounts (kernel_of state.now) }
    ensures { kind_answer result ≡ full (Event.Begin 0) None (kernel_of state.now) }
{
    let open = count_open(state.seats.as_slice());
    let endings = state.audit.commits().len() + state.audit.ended().len() + open;
    if state.next_txn >= FIRST_UNUSED {
        Some(Kind::Numbers)
    } else if open >= MOST_TRANSACTIONS {
        Some(Kind::Transactions)
    } else if endings >= MOST_ENDINGS {
        Some(Kind::Commits)
    } else {
        None
    }
}

// The limit that a start stands at.
fn full_start(state: &State, seat: &Seat) -> Option<Kind>
    requires { Fits state.now }
    ensures { (s : ℕ) (op : AnyOp) → kind_answer result ≡ full (Event.Start s op) (Some seat.now) (kernel_of state.now) }
{
    if seat.ops().len() >= MOST_OPERATIONS {
        Some(Kind::Operations)
    } else if state.operations >= MOST_HISTORY {
        Some(Kind::History)
    } else {
        None
    }
}

/// The limit that a begin or a start stands at.
pub(crate) fn full(event: &Event, seat: Option<&Seat>, state: &State) -> Option<Kind>
    requires counts { WithinCounts (kernel_of state.now) }
    requires fits { Fits state.now }
    ensures { kind_answer result ≡ full event.now (option_copied seat.entry) (kernel_of state.now) }
{
    match event {
        Event::Begin(_) => full_begin(state),
        Event::Start(_, _) => full_start(state, seat?),
        _ => None,
    }
}
