// The names on which each session may have rows.
ghost use Rattle.std.specs.Prelude.{◌≡◌, true, false, OnOk};
ghost use Rattle.std.specs.List.{list_any};
ghost use Rattle.sp_locks.specs.Rows.{is_row_of};
ghost use Rattle.sp_locks.specs.Lists.{names_at, is_listed, is_row_listed, KeepsLists, IsWithout};

use crate::row::{Name, Row, SessionId};
use crate::rows;
use indexmap::IndexMap;
use std::alloc::{AllocError, Global};

/// The names of a session.
pub(crate) fn names(lists: &IndexMap<SessionId, Vec<Name>>, session: SessionId) -> &[Name]
    ensures { result.now ≡ names_at (λ v. v.items) session lists.now.entries }
{
    match lists.get(&session) {
        Some(names) => names.as_slice(),
        None => &[],
    }
}

/// Lists a name for a session.
pub(crate) fn list(
    lists: &mut IndexMap<SessionId, Vec<Name>>,
    alloc: Global,
    session: SessionId,
    name: Name,
) -> Result<(), AllocError>
    ensures kept { KeepsLists (λ v. v.items) lists.old.entries lists.new.entries }
    ensures listed { OnOk result (is_listed (λ v. v.items) lists.new.entries session name ≡ true) }
{
    if let Some(names) = lists.get_mut(&session) {
        names.push(name)?;
        return Ok(());
    }
    let mut names = Vec::new(alloc);
    names.push(name)?;
    lists.insert(session, names)?;
    Ok(())
}

/// Lists the name of a row for its session and its duration, unless the session has such a row among
/// those on the name.
pub(crate) fn list_row(
    commits: &mut IndexMap<SessionId, Vec<Name>>,
    shorts: &mut IndexMap<SessionId, Vec<Name>>,
    alloc: Global,
    held: &[Row],
    row: Row,
) -> Result<(), AllocError>
    ensures commits { KeepsLists (λ v. v.items) commits.old.entries commits.new.entries }
    ensures shorts { KeepsLists (λ v. v.items) shorts.old.entries shorts.new.entries }
    ensures listed { OnOk result (list_any (is_row_of row.session row.duration) held.now ≡ false
        → is_row_listed (λ v. v.items) commits.new.entries shorts.new.entries row ≡ true) }
{
    if rows::has_row(held, row.session, row.duration) {
        return Ok(());
    }
    if row.is_short() {
        list(shorts, alloc, row.session, row.name)
    } else {
        list(commits, alloc, row.session, row.name)
    }
}

/// Forgets the names of a session.
pub(crate) fn forget(lists: &mut IndexMap<SessionId, Vec<Name>>, session: SessionId)
    ensures { IsWithout (λ v. v.items) session lists.old.entries lists.new.entries }
{
    lists.swap_remove(&session);
}
