// What a transaction adds to the counters.
ghost use Rattle.std.specs.Prelude.{◌≡◌, ◌+◌, ◌-◌, ◌<◌, ◌≤◌, ◌^◌, length};
ghost use Rattle.sp_model.specs.Refusals.{under_way};
ghost use Rattle.sp_model.specs.Stepped.{records_in, records_told};

use sp_model::Stage;
use sp_rect::{Answered, Reply};
use sp_state::Seat;

// The operation that is under way.
fn under_way(stage: &Stage) -> u64
    ensures { result ≡ under_way stage.now }
{
    match stage {
        Stage::Started(_)
        | Stage::NameWait(_)
        | Stage::Named(_)
        | Stage::NeedWait(_)
        | Stage::Planned(_, _) => 1,
        Stage::Idle | Stage::Queued | Stage::Placed => 0,
    }
}

// How many operations the transaction keeps, with the one that is under way.
fn count_operations(seat: &Seat) -> u64
    ensures { result ≡ length seat.now.txn.ops + under_way seat.now.stage }
{
    seat.ops().len() as u64 + under_way(seat.stage())
}

// The records in a reply that count.
fn records_in(reply: &Reply) -> u64
    ensures { result ≡ records_in reply.now }
{
    match reply {
        Reply::Rec(_) => 1,
        Reply::Found(records) => records.len() as u64,
        Reply::Done | Reply::Exists | Reply::Absent | Reply::Count(_) => 0,
    }
}

// The records in these replies.
fn count_records(pairs: &[Answered]) -> u64
    requires { records_told pairs.now < 2 ^ 64 }
    ensures { result ≡ records_told pairs.now }
{
    let mut told = 0;
    'pairs: for pair in pairs {
        told += records_in(&pair.reply);
    }
    told
}

/// What the transaction adds to the counters goes. Costs its operations.
pub(crate) fn lower(operations: &mut u64, records: &mut u64, seat: &Seat)
    requires operations { length seat.now.txn.ops + under_way seat.now.stage ≤ operations.old }
    requires records { records_told seat.now.txn.ops ≤ records.old }
    ensures operations { operations.new ≡ operations.old - (length seat.now.txn.ops + under_way seat.now.stage) }
    ensures records { records.new ≡ records.old - records_told seat.now.txn.ops }
{
    let _told = *records;
    *operations -= count_operations(seat);
    *records -= count_records(seat.ops());
}
