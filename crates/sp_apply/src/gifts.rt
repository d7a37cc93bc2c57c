// The locks that a put gets on new nodes.
ghost use Rattle.std.specs.Prelude.{◌≡◌, ◌↔◌, ◌⊎◌, ◌++◌, ◌∷◌, [], ℕ, map, is_some, true, false, IfOk, OnOk, IsTrue, MatchBool};
ghost use Rattle.std.specs.List.{list_any};
ghost use Rattle.sp_rect.specs.Plane.{Rectangle as AnyRectangle};
ghost use Rattle.sp_locks.specs.declared.mode.Mode.{Mode as AnyMode};
ghost use Rattle.sp_locks.specs.declared.row.Name.{Name as AnyName};
ghost use Rattle.sp_locks.specs.declared.row.Duration.TheVariants.{Commit};
ghost use Rattle.sp_node.specs.Among.{Among};
ghost use Rattle.sp_node.specs.declared.plan.Part.{Part as AnyPart};
ghost use Rattle.sp_node.specs.Look.{look};
ghost use Rattle.sp_node.specs.Marks.{is_marked};
ghost use Rattle.sp_node.specs.Plan.{IsMadeOf, planned};
ghost use Rattle.sp_node.specs.Table.{entries_of};
ghost use Rattle.sp_granule.specs.Granules.{granules, IsMeeting};
ghost use Rattle.sp_protection.specs.Needs.{AreNeedsOf};
ghost use Rattle.sp_ops.specs.Changes.{holes_in};
ghost use Rattle.sp_ops.specs.Wanted.{IsWanted};
ghost use Rattle.sp_model.specs.Plans.{GiftWant};
ghost use Rattle.sp_apply.specs.Given.{PartWant, modes_on};

use sp_granule::space_in;
use sp_locks::{Duration, Mode, Name, Needs};
use sp_node::{Child, Entry, Node, Overlay, Part, Plan, Tree};
use sp_ops::{Want, joined};
use sp_rect::{Records2, Rect};
use sp_region::overlaps;
use sp_state::Seat;
use std::alloc::{AllocError, Global};

// The children's rectangles.
fn rects_of(alloc: Global, children: &[Child]) -> Result<Records2, AllocError>
    ensures { IfOk result (λ rects. rects ≡ map (λ c. c.rect) children.now) }
{
    let mut rects = Vec::with_capacity(alloc, children.len())?;
    'rects: for child in children {
        rects.push(child.rect)?;
    }
    Ok(Records2::from_vec(rects))
}

// The rectangles that a node leaves to its children.
fn holes_of(alloc: Global, node: &Node) -> Result<Records2, AllocError>
    ensures { IfOk result (λ holes. holes ≡ holes_in node.now) }
{
    match node {
        Node::Leaf(_) => Ok(Records2::new(alloc)),
        Node::Inner(children) => rects_of(alloc, children.as_slice()),
    }
}

// Whether the granule of this number has a point of the rectangle.
fn meets(alloc: Global, after: &Overlay, number: u64, rect: &Rect) -> Result<bool, AllocError>
    ensures { IfOk result (λ meets. IsTrue meets ↔ IsMeeting (granules after.now) rect.now number) }
{
    let Some(node) = after.node(number) else {
        return Ok(false);
    };
    let Some(space) = space_in(after, number) else {
        return Ok(false);
    };
    let holes = holes_of(alloc, node)?;
    overlaps(alloc, &space, &holes, rect, &Records2::new(alloc))
}

// Whether the granule of this number has a point of one of the rectangles.
fn meets_any(
    alloc: Global,
    after: &Overlay,
    number: u64,
    rects: &[Rect],
) -> Result<bool, AllocError>
    ensures { IfOk result (λ meets. MatchBool meets
        ((rect : AnyRectangle) × Among rect rects.now × IsMeeting (granules after.now) rect number)
        ((rect : AnyRectangle) → Among rect rects.now → IsMeeting (granules after.now) rect number → ⊥)) }
{
    'rects: for rect in rects {
        if meets(alloc, after, number, rect)? {
            return Ok(true);
        }
    }
    Ok(false)
}

// Whether one of the entries bears a mark of the transaction.
fn has_own(entries: &[Entry], txn: u64) -> bool
    ensures { result ≡ list_any (is_marked txn) entries.now }
{
    entries.iter().any(|entry| entry.is_marked(txn))
}

// Whether the tree has the number.
fn has_node(tree: &Tree, number: u64) -> bool
    ensures { result ≡ is_some (look tree.now.table.nodes number) }
{
    match tree.node(number) {
        Some(_) => true,
        None => false,
    }
}

// Adds what is wanted on the name: IX for an own mark, and S for a search.
fn push_modes(wants: &mut Vec<Want>, name: Name, own: bool, met: bool) -> Result<(), AllocError>
    ensures { OnOk result (wants.new.items ≡ wants.old.items ++ modes_on name own met) }
{
    if own {
        wants.push(Want {
            name,
            mode: Mode::IX,
        })?;
    }
    if met {
        wants.push(Want {
            name,
            mode: Mode::S,
        })?;
    }
    Ok(())
}

// Adds what the transaction wants on the node that the part makes, where it is new.
fn push_wants(
    alloc: Global,
    wants: &mut Vec<Want>,
    tree: &Tree,
    after: &Overlay,
    part: &Part,
    seat: &Seat,
) -> Result<(), AllocError>
    ensures { OnOk result ((name : AnyName) (mode : AnyMode) → IsWanted wants.new.items name mode
        ↔ (IsWanted wants.old.items name mode ⊎ PartWant tree.now.table.nodes (granules after.now) seat.now.txn.number seat.now.txn.searches part.now name mode)) }
{
    let number = part.number();
    if has_node(tree, number) {
        return Ok(());
    }
    let own = has_own(part.entries(), seat.number());
    let met = meets_any(alloc, after, number, seat.searches().as_slice())?;
    push_modes(wants, Name::Granule(number), own, met)
}

// What the transaction wants on the new nodes of the plan.
fn gift_wants(alloc: Global, tree: &Tree, plan: &Plan, seat: &Seat) -> Result<Vec<Want>, AllocError>
    requires { IsMadeOf tree.now.table plan.now }
    ensures { IfOk result (λ wants. (name : AnyName) (mode : AnyMode) → IsWanted wants.items name mode
        ↔ ((part : AnyPart) × Among part plan.now.parts × PartWant tree.now.table.nodes (granules (planned tree.now.table plan.now)) seat.now.txn.number seat.now.txn.searches part name mode)) }
{
    let after = Overlay::planned(tree, plan);
    let mut wants = Vec::new(alloc);
    'parts: for part in plan.parts.as_slice() {
        push_wants(alloc, &mut wants, tree, &after, part, seat)?;
    }
    Ok(wants)
}

/// The locks to the end that the session's transaction gets on the new nodes of the plan: IX on a leaf in which
/// an entry with its mark comes to stand, and S on what meets a rectangle that it searched, joined. Costs the
/// members of the new nodes, and for each new node the rectangles that were searched.
pub(crate) fn gifts(
    alloc: Global,
    tree: &Tree,
    plan: &Plan,
    seat: &Seat,
) -> Result<Needs, AllocError>
    requires { IsMadeOf tree.now.table plan.now }
    ensures { IfOk result (AreNeedsOf (GiftWant (granules tree.now.table) (granules (planned tree.now.table plan.now)) (entries_of (planned tree.now.table plan.now)) seat.now.txn.number seat.now.txn.searches) Commit) }
{
    let _valid = tree.root();
    let wants = gift_wants(alloc, tree, plan, seat)?;
    joined(alloc, wants.as_slice(), Duration::Commit)
}
