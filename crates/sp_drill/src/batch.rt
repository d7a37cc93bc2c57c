// The sessions of a batch.
ghost use Rattle.std.specs.Prelude.{◌≡◌, ◌-◌, ◌≤◌, length, map, drop, IfOk};

use sp_audit::Audit;
use sp_locks::SessionId;
use sp_rect::Commit;
use std::alloc::{AllocError, Global};

/// The sessions of the commits from that place on, in the order of their places.
pub(crate) fn sessions_from(
    alloc: Global,
    audit: &Audit,
    first: u64,
) -> Result<Vec<SessionId>, AllocError>
    requires place { 1 ≤ first }
    requires within { first - 1 ≤ length audit.now.commits }
    ensures { IfOk result (λ v. v.items ≡ map (λ c. c.session) (drop (first - 1) audit.now.commits)) }
{
    let from = (first - 1) as usize;
    sessions_of(alloc, &audit.commits()[from..])
}

fn sessions_of(alloc: Global, commits: &[Commit]) -> Result<Vec<SessionId>, AllocError>
    ensures { IfOk result (λ v. v.items ≡ map (λ c. c.session) commits.now) }
{
    let mut sessions = Vec::with_capacity(alloc, commits.len())?;
    for commit in commits {
        sessions.push(commit.session)?;
    }
    Ok(sessions)
}
