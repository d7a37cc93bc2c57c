// The locks that a put gets where its leaf is split.
ghost use Rattle.std.specs.Prelude.{◌≡◌, IfOk};
ghost use Rattle.sp_node.specs.Plan.{IsMadeOf};

use crate::gifts::gifts;
use sp_insertion::plan_insertion;
use sp_locks::{Duration, Mode, Name, Needs};
use sp_node::{Draft, Ended, Entry, Made, Marks, Plan, Shape, Tree};
use sp_rect::{Op, Records, Rect, Reply, Value, WHOLE};
use sp_state::Seat;
use std::alloc::Global;
use std::test::Fail;

// An entry that transaction 7 made.
fn entry(alloc: Global, number: u64, x: u8) -> Result<Entry, &'static str>
    ensures { IfOk result (λ e. e.number ≡ number) }
{
    let left = i64::from(x);
    let rect = Rect::new(left, 0, left + 2, 2).map_err(|_| "no rectangle")?;
    let value = Value::new(b"v").map_err(|_| "no value")?;
    let marks = Marks {
        made: Made::By(7),
        ended: Ended::Nobody,
        draft: Draft::None,
    };
    Ok(Entry {
        number,
        id: number,
        rect,
        value,
        marks,
    })
}

fn plan_of(alloc: Global, tree: &Tree, number: u64, x: u8) -> Result<Plan, &'static str>
    ensures { IfOk result (λ plan. IsMadeOf tree.now.table plan) }
{
    let entry = entry(alloc, number, x)?;
    if tree.next() >= 9223372036854775808 {
        return Err("no number is left");
    }
    match tree.leaf_of(entry.number) {
        Some(_) => Err("the number is used"),
        None => plan_insertion(alloc, tree, entry).map_err(|_| "no memory"),
    }
}

fn put(alloc: Global, tree: &mut Tree, number: u64, x: u8) -> Result<(), &'static str> {
    let plan = plan_of(alloc, tree, number, x)?;
    tree.make_room(&plan).map_err(|_| "no memory")?;
    tree.adopt(plan);
    Ok(())
}

// Two pairs far apart.
fn four_apart(alloc: Global) -> Result<Tree, &'static str> {
    let mut tree = Tree::new(alloc, Shape { max: 4, min: 2 }).map_err(|_| "no memory")?;
    put(alloc, &mut tree, 1, 0)?;
    put(alloc, &mut tree, 2, 8)?;
    put(alloc, &mut tree, 3, 100)?;
    put(alloc, &mut tree, 4, 108)?;
    Ok(tree)
}

// A session of that transaction, which has searched all of space.
fn searched(alloc: Global, number: u64) -> Result<Seat, &'static str> {
    let mut seat = Seat::new(alloc, number, 0, 0);
    seat.start(Op::Find(WHOLE)).map_err(|_| "no memory")?;
    seat.name();
    seat.plan(Needs::new(alloc));
    seat.keep(Reply::Found(Records::new(alloc)))
        .map_err(|_| "no memory")?;
    Ok(seat)
}

// The locks that the session gets where a fifth entry splits the leaf: node 2 is a new leaf, and node 3 the
// new root.
fn gifts_for(alloc: Global, seat: &Seat) -> Result<Needs, &'static str> {
    let tree = four_apart(alloc)?;
    let plan = plan_of(alloc, &tree, 5, 4)?;
    gifts(alloc, &tree, &plan, seat).map_err(|_| "no memory")
}

// Whether the needs are to the end, with these modes on these nodes.
fn are(needs: &Needs, wanted: &[(u64, Mode)]) -> bool {
    if needs.len() != wanted.len() {
        return false;
    }
    for (need, (number, mode)) in needs.as_slice().iter().zip(wanted) {
        let name = Name::Granule(*number);
        if (need.name != name) | (need.mode != *mode) | (need.duration != Duration::Commit) {
            return false;
        }
    }
    true
}

#[test]
fn a_new_leaf_with_own_marks(rt: HostRuntime) -> Result<(), Fail> {
    let alloc = rt.alloc();
    let given = gifts_for(alloc, &Seat::new(alloc, 7, 0, 0))?;
    let same = are(&given, &[(2, Mode::IX)]);
    assert!(rt; same);
    Ok(())
}

#[test]
fn new_nodes_that_were_searched(rt: HostRuntime) -> Result<(), Fail> {
    let alloc = rt.alloc();
    let given = gifts_for(alloc, &searched(alloc, 7)?)?;
    let same = are(&given, &[(2, Mode::SIX), (3, Mode::S)]);
    assert!(rt; same);
    Ok(())
}

#[test]
fn nothing_of_others(rt: HostRuntime) -> Result<(), Fail> {
    let alloc = rt.alloc();
    let given = gifts_for(alloc, &Seat::new(alloc, 8, 0, 0))?;
    let same = are(&given, &[]);
    assert!(rt; same);
    Ok(())
}
