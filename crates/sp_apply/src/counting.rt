// What a reply tells.
ghost use Rattle.std.specs.Prelude.{◌≡◌, ◌<◌, ◌+◌, ◌^◌, List, MatchBool};
ghost use Rattle.sp_rect.specs.declared.record.Record.{Record as AnyRecord};
ghost use Rattle.sp_rect.specs.Store.{replied};
ghost use Rattle.sp_model.specs.Plans.{adds};
ghost use Rattle.sp_model.specs.Stepped.{records_in, most_records_told};

use sp_rect::{Op, Reply};

// The most records in kept replies.
const MOST_RECORDS_TOLD: u64 = 1 << 23;

/// The records in the reply that count.
pub(crate) fn records_in(reply: &Reply) -> u64
    ensures count { result ≡ records_in reply.now }
    ensures small { result < 2 ^ 63 }
{
    match reply {
        Reply::Rec(_) => 1,
        Reply::Found(records) => records.len() as u64,
        Reply::Done | Reply::Exists | Reply::Absent | Reply::Count(_) => 0,
    }
}

/// Whether the operation that is replied this adds an entry.
pub(crate) fn is_adding(op: &Op, reply: &Reply) -> bool
    ensures { (records : List AnyRecord) → reply.now ≡ replied op.now records → result ≡ adds op.now records }
{
    match op {
        Op::Put(_) => matches!(reply, Reply::Done),
        Op::Drop(_) | Op::Set(_, _) | Op::Get(_) | Op::Find(_) | Op::Fill(_, _) | Op::Clear(_) =>
            false,
    }
}

/// Whether so many records more in replies pass the limit. None do not.
pub(crate) fn passes(kept: u64, told: u64) -> bool
    requires { kept + told < 2 ^ 64 }
    ensures { MatchBool result ((0 < told) × (most_records_told < kept + told)) ((0 < told) × (most_records_told < kept + told) → ⊥) }
{
    if told == 0 {
        return false;
    }
    MOST_RECORDS_TOLD < kept + told
}
