// The short locks that insertions and removals want, over trees whose leaves stand apart, and over one with a leaf as wide
// as its sibling is high.
use crate::trees::{plan_of, rect_of, removal_of, tree_of};
use sp_grow::choose_leaf;
use sp_locks::{Duration, Mode, Name, Needs};
use sp_needs::short_needs;
use sp_node::Tree;
use std::alloc::Global;
use std::test::Fail;

type Corners = (i64, i64, i64, i64);

const APART: [Corners; 5] = [
    (0, 0, 2, 2),
    (8, 8, 10, 10),
    (100, 0, 102, 2),
    (108, 8, 110, 10),
    (4, 4, 6, 6),
];

const CROSSED: [Corners; 5] = [
    (0, 0, 2, 9),
    (98, 0, 100, 9),
    (50, 10, 51, 20),
    (50, 990, 51, 1000),
    (40, 0, 60, 9),
];

// The short needs of inserting a rectangle with a new number.
fn needs_of(alloc: Global, tree: &Tree, number: u64, corners: Corners) -> Result<Needs, Fail> {
    let rect = rect_of(corners)?;
    let plan = plan_of(alloc, tree, number, number, rect)?;
    let chosen = choose_leaf(tree, &rect);
    Ok(short_needs(alloc, tree, &plan, Some(chosen))?)
}

// Whether the needs are just these modes on granules, each for a short time.
fn are(needs: &Needs, wanted: &[(u64, Mode)]) -> bool {
    if needs.len() != wanted.len() {
        return false;
    }
    for (i, need) in needs.as_slice().iter().enumerate() {
        let (number, mode) = wanted[i];
        let same = need.name == Name::Granule(number)
            && need.mode == mode
            && need.duration == Duration::Short;
        if !same {
            return false;
        }
    }
    true
}

// A rectangle that is inserted into a tree of others, and the granules on which that wants short locks.
struct Case {
    tree: &'static [Corners],
    put: Corners,
    wanted: &'static [(u64, Mode)],
}

const CASES: [Case; 7] = [
    // the leaf that grows gains points that lie in no leaf
    Case {
        tree: &APART,
        put: (55, 55, 56, 56),
        wanted: &[(3, Mode::IX)],
    },
    // the leaf that grows gains points of its sibling, and others that lie in no leaf
    Case {
        tree: &CROSSED,
        put: (90, 15, 95, 16),
        wanted: &[(2, Mode::IX), (3, Mode::IX)],
    },
    // the root, a leaf, is split: it loses points and gives entries away
    Case {
        tree: &[
            (0, 0, 2, 2),
            (8, 8, 10, 10),
            (100, 0, 102, 2),
            (108, 8, 110, 10),
        ],
        put: (4, 4, 6, 6),
        wanted: &[(1, Mode::SIX)],
    },
    // a leaf of three grows over points that lie in no leaf
    Case {
        tree: &APART,
        put: (40, 0, 52, 5),
        wanted: &[(3, Mode::IX)],
    },
    // a leaf grows to the right of all
    Case {
        tree: &APART,
        put: (112, 2, 113, 3),
        wanted: &[(3, Mode::IX)],
    },
    // nothing grows
    Case {
        tree: &APART,
        put: (1, 1, 2, 2),
        wanted: &[],
    },
    // an empty leaf, which is the root, stays all of space
    Case {
        tree: &[],
        put: (1, 1, 2, 2),
        wanted: &[],
    },
];

#[test]
fn short_needs_of_insertions(rt: HostRuntime) -> Result<(), Fail> {
    let alloc = rt.alloc();
    for (i, case) in CASES.iter().enumerate() {
        let tree = tree_of(alloc, case.tree)?;
        let needs = needs_of(alloc, &tree, 9, case.put)?;
        assert!(rt; are(&needs, case.wanted), "case {i}");
    }
    Ok(())
}

// The removal of an entry by its number, and the granules on which that wants short locks.
struct Removal {
    tree: &'static [Corners],
    entry: u64,
    wanted: &'static [(u64, Mode)],
}

const REMOVALS: [Removal; 3] = [
    // the second leaf is gone and gives its other entry to the first, which is the root then
    Removal {
        tree: &APART,
        entry: 3,
        wanted: &[(2, Mode::SIX), (3, Mode::IX)],
    },
    // the same where the first leaf is full, and split
    Removal {
        tree: &[
            (0, 0, 2, 2),
            (8, 8, 10, 10),
            (100, 0, 102, 2),
            (108, 8, 110, 10),
            (4, 4, 6, 6),
            (1, 1, 2, 2),
        ],
        entry: 3,
        wanted: &[(1, Mode::SIX), (2, Mode::SIX), (3, Mode::IX)],
    },
    // no granule changes
    Removal {
        tree: &APART,
        entry: 5,
        wanted: &[],
    },
];

#[test]
fn short_needs_of_removals(rt: HostRuntime) -> Result<(), Fail> {
    let alloc = rt.alloc();
    for (i, case) in REMOVALS.iter().enumerate() {
        let tree = tree_of(alloc, case.tree)?;
        let plan = removal_of(alloc, &tree, case.entry)?;
        let needs = short_needs(alloc, &tree, &plan, None)?;
        assert!(rt; are(&needs, case.wanted), "removal {i}");
    }
    Ok(())
}
