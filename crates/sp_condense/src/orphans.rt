// Members of dropped nodes.
ghost use Rattle.std.specs.Prelude.{◌≡◌, ◌<◌, ◌^◌, ◌++◌, ◌∷◌, [], ℕ, List, IfOk, OnOk, map};
ghost use Rattle.sp_node.specs.declared.node.Entry.{Entry as EntryAt};
ghost use Rattle.sp_condense.specs.declared.orphans.Orphan.{Orphan as Found};
ghost use Rattle.sp_condense.specs.Staging.{Counts, Ready, Goes};
ghost use Rattle.sp_grow.specs.declared.member.Member.TheVariants.{Entry as EntryOf, Child as ChildOf};
ghost use Rattle.sp_condense.specs.Taking.{members_in};

use sp_grow::{Member, Planned, insert};
use sp_list::Duplicate;
use sp_node::{Child, Entry, Node};
use std::alloc::{AllocError, Global};

/// A member of a dropped node, which stood so many steps below the root.
#[derive(Drop)]
pub(crate) struct Orphan {
    pub(crate) depth: usize,
    pub(crate) member: Member,
}

// Adds the entries.
fn push_entries(
    alloc: Global,
    orphans: &mut Vec<Orphan>,
    entries: &[Entry],
    depth: usize,
) -> Result<(), AllocError>
    ensures { OnOk result (orphans.new.items ≡ orphans.old.items ++ map (λ e. record { depth = depth; member = EntryOf e }) entries.now) }
{
    for entry in entries {
        let member = Member::Entry(entry.copy(alloc)?);
        orphans.push(Orphan { depth, member })?;
    }
    Ok(())
}

// Adds the children.
fn push_children(
    orphans: &mut Vec<Orphan>,
    children: &[Child],
    depth: usize,
) -> Result<(), AllocError>
    ensures { OnOk result (orphans.new.items ≡ orphans.old.items ++ map (λ c. record { depth = depth; member = ChildOf c }) children.now) }
{
    for child in children {
        orphans.push(Orphan {
            depth,
            member: Member::Child(*child),
        })?;
    }
    Ok(())
}

/// The members of the node, in order.
pub(crate) fn members_of(
    alloc: Global,
    node: &Node,
    depth: usize,
) -> Result<Vec<Orphan>, AllocError>
    ensures { IfOk result (λ orphans. orphans.items ≡ members_in depth node.now) }
{
    let mut orphans = Vec::new(alloc);
    match node {
        Node::Leaf(entries) => push_entries(alloc, &mut orphans, entries.as_slice(), depth)?,
        Node::Inner(children) => push_children(&mut orphans, children.as_slice(), depth)?,
    }
    Ok(orphans)
}

// The count of new roots after an insertion.
fn counted(before: u64, after: u64, raised: usize) -> usize
    requires { raised < 2 ^ 63 }
    ensures { Counts before after raised result }
{
    if after == before { raised } else { raised + 1 }
}

// Inserts an orphan at its own level. So many new roots were made before it; the answer is how many then.
fn insert_one(
    alloc: Global,
    tree: &mut Planned<'_>,
    orphan: &Orphan,
    raised: usize,
) -> Result<usize, AllocError>
    requires { (e : EntryAt) × (fs : List Found) × Ready e tree.old (orphan.now ∷ fs) raised }
    ensures { IfOk result (λ risen. (e : EntryAt) (fs : List Found) (r : Ready e tree.old (orphan.now ∷ fs) raised) → Goes e tree.old tree.new (orphan.now ∷ fs) fs raised risen r) }
{
    let steps = orphan.depth.saturating_add(raised);
    let plan = insert(alloc, tree, steps, &orphan.member)?;
    let risen = counted(tree.root(), plan.root, raised);
    tree.take(plan)?;
    Ok(risen)
}

/// Inserts the orphans again, each at its own level, in order.
pub(crate) fn insert_all(
    alloc: Global,
    tree: &mut Planned<'_>,
    orphans: &[Orphan],
) -> Result<(), AllocError>
    requires { (e : EntryAt) × Ready e tree.old orphans.now 0 }
    ensures { OnOk result ((e : EntryAt) (r : Ready e tree.old orphans.now 0) → (n : ℕ) × Goes e tree.old tree.new orphans.now [] 0 n r) }
{
    let mut raised = 0usize;
    for orphan in orphans {
        raised = insert_one(alloc, tree, orphan, raised)?;
    }
    Ok(())
}
