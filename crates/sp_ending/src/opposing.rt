// Held locks that are against the removal of an entry.
ghost use Rattle.std.specs.Prelude.{◌≡◌, ◌++◌, ◌∷◌, [], ℕ, List, MatchOption};
ghost use Rattle.sp_locks.specs.declared.row.Row.{Row as AnyRow};
ghost use Rattle.sp_locks.specs.declared.needs.Need.{Need as AnyNeed};
ghost use Rattle.sp_node.specs.Among.{Among};
ghost use Rattle.sp_model.specs.Stepped.{IsAgainst, AreUnopposed, IsPutOff};
ghost use Rattle.sp_ending.specs.Opposing.{is_against, IsLeast, IsGranule, IsOpposed};

use sp_locks::{Mode, Name, Need, Row, SessionId, Table, compatible};

/// A held lock that is against a need: the granule, the session that holds it, and what it holds there.
#[derive(Clone, Copy)]
pub struct Opposed {
    pub granule: u64,
    pub holder: SessionId,
    pub mode: Mode,
}

// A held lock that is against the mode.
fn is_against(mode: Mode, row: &Row) -> bool
    ensures { result ≡ is_against mode row.now }
{
    !row.waiting & !compatible(mode, row.mode)
}

// The lesser session, where the row is against the mode.
fn lesser(least: Option<SessionId>, mode: Mode, row: &Row) -> Option<SessionId>
    ensures { (rows : List AnyRow) → IsLeast mode rows least → IsLeast mode (rows ++ row.now ∷ []) result }
{
    if !is_against(mode, row) {
        return least;
    }
    match least {
        Some(session) => Some(session.min(row.session)),
        None => Some(row.session),
    }
}

// The least session that has a row against the mode.
fn least_against(rows: &[Row], mode: Mode) -> Option<SessionId>
    ensures { IsLeast mode rows.now result }
{
    let mut least = None;
    'rows: for row in rows {
        least = lesser(least, mode, row);
    }
    least
}

// The least session that holds a lock against the need.
fn opposed_on(locks: &Table, need: &Need) -> Option<Opposed>
    requires { IsGranule need.now.name }
    ensures { MatchOption result ((s : ℕ) → IsAgainst locks.now need.now s → ⊥) (IsOpposed locks.now need.now) }
{
    let Some(holder) = least_against(locks.on(need.name), need.mode) else {
        return None;
    };
    let Some(mode) = locks.held(holder, need.name) else {
        return None;
    };
    match need.name {
        Name::Granule(granule) => Some(Opposed {
            granule,
            holder,
            mode,
        }),
        Name::Object(_) => None,
    }
}

/// The first of the needs that a held lock is against, with the least session that holds one. Costs the rows on the
/// names of the needs.
pub(crate) fn first_opposed(locks: &Table, needs: &[Need]) -> Option<Opposed>
    requires { (need : AnyNeed) → Among need needs.now → IsGranule need.name }
    ensures { MatchOption result (AreUnopposed locks.now needs.now) (λ o. IsPutOff locks.now needs.now o.granule o.holder o.mode) }
{
    'needs: for need in needs {
        if let Some(found) = opposed_on(locks, need) {
            return Some(found);
        }
    }
    None
}
