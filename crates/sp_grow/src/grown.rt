// Insertion: the changes from the chosen leaf up to the root.
ghost use Rattle.std.specs.Prelude.{◌≡◌, ◌<◌, ◌≤◌, ◌+◌, ◌*◌, ◌^◌, ◌∷◌, [], ℕ, None, IfOk, IfErr, Some, MatchOption, length, take, drop, slice_index_or};
ghost use Rattle.std.specs.Option.{option_copied};
ghost use Rattle.sp_rect.specs.Plane.{IsRectangle};
ghost use Rattle.sp_node.specs.declared.node.Entry.{Entry};
ghost use Rattle.sp_node.specs.Index.{leaf_with};
ghost use Rattle.sp_node.specs.Plan.{IsMadeOf, planned, put_part};
ghost use Rattle.sp_node.specs.Table.{level_of, IsShape};
ghost use Rattle.sp_grow.specs.Grown.{IsGrown};
ghost use Rattle.sp_grow.specs.Grown.{IsDone};
ghost use Rattle.sp_grow.specs.Members.{rects_in, put_left, node_with, Belongs};
ghost use Rattle.sp_grow.specs.Overlay.{table_of};
ghost use Rattle.sp_grow.specs.Reached.{IsPart, Reached};
ghost use Rattle.sp_grow.specs.declared.member.Member.{Member};
ghost use Rattle.sp_grow.specs.declared.member.Member.TheVariants.{Entry as EntryOf};
ghost use Rattle.sp_grow.specs.Below.{IsHome, GoesBelow, Aims, IsStepped, IsSettled, IsGrownAt, IsInsertion, no_draft, no_child, IsRaised};

use crate::choice::choose_child;
use crate::left::{Draft, Left, Step, settle, with_left};
use crate::member::Member;
use crate::members::{bound_of_children, with_member};
use crate::planned::Planned;
use sp_node::{Child, Children, Entry, Node, Part, Parts, Plan, Shape, Tree, put_part};
use std::alloc::{AllocError, Global};

// The node above a child below which an insertion was made.
fn step_up(
    alloc: Global,
    shape: Shape,
    number: u64,
    children: &Children,
    at: usize,
    below: Step,
) -> Result<Step, AllocError>
    requires shape { IsShape shape }
    requires within { at < length children.now }
    requires numbers { below.draft.next + 1 < 2 ^ 64 }
    ensures { IfOk result (λ step. IsStepped shape number (take at children.now) (slice_index_or children.now at no_child) (drop (at + 1) children.now) below step) }
{
    let members = children.as_slice();
    if below.left.is(&members[at]) {
        let rect = bound_of_children(members);
        return Ok(Step {
            left: Left::One(Child { rect, node: number }),
            draft: below.draft,
        });
    }
    let items = with_left(alloc, members, at, below.left)?;
    settle(alloc, shape, below.draft, number, Node::Inner(items))
}

// The children of the node, where the member goes below it.
fn children_below<'a>(node: &'a Node, steps: usize, member: &Member) -> Option<&'a Children>
    ensures { MatchOption (option_copied result) (IsHome node.now member.now steps) (GoesBelow node.now member.now steps) }
{
    match node {
        Node::Leaf(_) => None,
        Node::Inner(children) => {
            if member.goes_below(steps) {
                Some(children)
            } else {
                None
            }
        }
    }
}

// Inserts the member at the node.
fn start(
    alloc: Global,
    base: &Planned<'_>,
    number: u64,
    node: &Node,
    member: &Member,
) -> Result<Step, AllocError>
    requires belongs { Belongs node.now member.now }
    requires shape { IsShape base.now.before.shape }
    requires numbers { base.now.plan.next + 1 < 2 ^ 64 }
    ensures { IfOk result (λ step. IsSettled base.now.before.shape (no_draft base.now.plan.next) number (node_with node.now member.now) step.left step.draft) }
{
    let filled = with_member(alloc, node, member)?;
    let draft = Draft {
        parts: Parts::new(alloc),
        next: base.next(),
    };
    settle(alloc, base.shape(), draft, number, filled)
}

// Inserts the member at the node of this number, or below it: a child so many steps below.
fn grow_below(
    alloc: Global,
    base: &Planned<'_>,
    number: u64,
    steps: usize,
    member: &Member,
) -> Result<Step, AllocError>
    requires { Aims (table_of base.now) member.now steps number }
    ensures { IfOk result (λ step. (a : Aims (table_of base.now) member.now steps number) → IsGrownAt (table_of base.now) a.k a.x a.level number step.left step.draft) }
{
    match base.node(number) {
        Some(node) => match children_below(node, steps, member) {
            Some(children) => {
                let at = choose_child(children.as_slice(), &member.rect());
                let child = children.as_slice()[at].node;
                let below = grow_below(alloc, base, child, steps.saturating_sub(1), member)?;
                step_up(alloc, base.shape(), number, children, at, below)
            }
            None => start(alloc, base, number, node, member),
        },
        None => unreachable!(),
    }
}

// The root above what is left of the old one.
fn raise(alloc: Global, step: Step) -> Result<Plan, AllocError>
    requires { step.draft.next + 1 < 2 ^ 64 }
    ensures { IfOk result (λ plan. IsRaised step plan) }
{
    let mut draft = step.draft;
    let root = match step.left {
        Left::One(root) => root.node,
        Left::Two(a, b) => {
            let root = draft.next;
            draft.next = root + 1;
            let mut children = Children::new(alloc);
            children.push(a)?;
            children.push(b)?;
            put_part(&mut draft.parts, Part::Now(root, Node::Inner(children)))?;
            root
        }
    };
    Ok(Plan {
        parts: draft.parts,
        root,
        next: draft.next,
    })
}

// The insertion of a member, and its steps.
fn insert_at(
    alloc: Global,
    base: &Planned<'_>,
    steps: usize,
    member: &Member,
) -> Result<Plan, AllocError>
    requires { Aims (table_of base.now) member.now steps base.now.plan.root }
    ensures step { IfOk result (λ plan. (a : Aims (table_of base.now) member.now steps base.now.plan.root) → IsInsertion (table_of base.now) a.k a.x a.level plan) }
    ensures reached { IfOk result (λ plan. (a : Aims (table_of base.now) member.now steps base.now.plan.root) → IsPart base.now.before.shape a.k a.x → Reached (table_of base.now) a.k a.x a.level plan) }
{
    let step = grow_below(alloc, base, base.root(), steps, member)?;
    raise(alloc, step)
}

/// The insertion of a member into a tree with changes on it, as a plan for the tree as it stands there: an
/// entry goes into the leaf that is chosen as `choose_leaf` chooses, and a child into a node that is chosen so,
/// as many steps below the root. A node with more than `max` members is split as `grow` says.
///
/// The tree need not be valid: its root may have one child, and members that were taken out may have their
/// nodes in the table still. `Reached` says what the plan makes of it. The one error is want of memory. Costs
/// the members of the nodes on one path, squared where a node is split, and for each node on it the changes.
pub fn insert(
    alloc: Global,
    base: &Planned<'_>,
    steps: usize,
    member: &Member,
) -> Result<Plan, AllocError>
    requires { Aims (table_of base.now) member.now steps base.now.plan.root }
    ensures { IfOk result (λ plan. (a : Aims (table_of base.now) member.now steps base.now.plan.root) → IsPart base.now.before.shape a.k a.x → Reached (table_of base.now) a.k a.x a.level plan) }
{
    insert_at(alloc, base, steps, member)
}

// The insertion of an entry that the caller keeps.
fn plan(alloc: Global, tree: &Tree, entry: &Member) -> Result<Plan, AllocError>
    requires fresh { (e : Entry) × (entry.now ≡ Member.Entry e) × (leaf_with tree.now.table.nodes e.number ≡ None) × IsRectangle e.rect }
    requires numbers { tree.now.table.next < 2 ^ 63 + 2 ^ 32 }
    ensures { IfOk result (λ plan. (e : Entry) → entry.now ≡ Member.Entry e → IsDone tree.now.table e plan) }
{
    let _valid = tree.next();
    let base = Planned::new(alloc, tree);
    insert_at(alloc, &base, 0, entry)
}

// The entry that the member is.
fn entry_of(member: Member) -> Entry
    requires { (e : Entry) × (member ≡ Member.Entry e) }
    ensures { member ≡ Member.Entry result }
{
    match member {
        Member::Entry(entry) => entry,
        Member::Child(_) => unreachable!(),
    }
}

/// The insertion of an entry, as a plan: the nodes that it makes or changes, the root, and the next unused
/// node number. `IsGrown` is its definition, on nested trees.
///
/// The entry goes to the end of the leaf that `choose_leaf` gives. A node with more than `max` members is
/// split by `quadratic`: the first group keeps the node's number, the second gets the next one and stands at
/// the end of the parent's list. A split root goes under a new root, with the number after that. Rectangles
/// above are tightened.
///
/// The plan has exactly the nodes that differ, by ascending number, and at most 2h + 1 of them for a tree of
/// h levels. The one error is want of memory, and the entry comes back with it. Costs the members of the
/// nodes on one path, squared where a node is split.
pub fn grow(alloc: Global, tree: &Tree, entry: Entry) -> Result<Plan, (Entry, AllocError)>
    requires fresh { leaf_with tree.now.table.nodes entry.number ≡ None }
    requires numbers { tree.now.table.next < 2 ^ 63 + 2 ^ 32 }
    ensures made { IfOk result (λ plan. IsMadeOf tree.now.table plan) }
    ensures grown { IfOk result (λ plan. IsGrown tree.now.table entry (planned tree.now.table plan)) }
    ensures parts { IfOk result (λ plan. length plan.parts ≤ 2 * (level_of tree.now.table + 1) + 1) }
    ensures back { IfErr result (λ e. e.0 ≡ entry) }
{
    let _in_space = entry.rect.x1();
    let member = Member::Entry(entry);
    match plan(alloc, tree, &member) {
        Ok(plan) => Ok(plan),
        Err(e) => Err((entry_of(member), e)),
    }
}
