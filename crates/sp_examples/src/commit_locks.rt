// The locks that operations need to the end of their transaction, over trees whose leaves stand apart, and over
// one with a leaf as wide as its sibling is high.
use crate::trees::{plan_of, rect_of, tree_of};
use sp_locks::{Duration, Mode, Name, Needs};
use sp_node::{Draft, Ended, Made, Marks, Tree};
use sp_ops::commit_needs;
use sp_rect::{Op, Record, Records2, Value};
use std::alloc::Global;
use std::test::Fail;

type Corners = (i64, i64, i64, i64);

const APART: [Corners; 5] = [
    (0, 0, 2, 2),
    (8, 8, 10, 10),
    (100, 0, 102, 2),
    (108, 8, 110, 10),
    (4, 4, 6, 6),
];

const CROSSED: [Corners; 5] = [
    (0, 0, 2, 9),
    (98, 0, 100, 9),
    (50, 10, 51, 20),
    (50, 990, 51, 1000),
    (40, 0, 60, 9),
];

// An operation, the values of which are all one.
enum Act {
    Drop(u64),
    Set(u64),
    Get(u64),
    Find(Corners),
    Fill(Corners),
    Clear(Corners),
}

fn value_of() -> Result<Value, Fail> {
    match Value::new(b"parcel") {
        Ok(value) => Ok(value),
        Err(_) => Err(Fail::from("no value")),
    }
}

fn op_of(alloc: Global, act: &Act) -> Result<Op, Fail> {
    match act {
        Act::Drop(id) => Ok(Op::Drop(*id)),
        Act::Set(id) => Ok(Op::Set(*id, value_of()?)),
        Act::Get(id) => Ok(Op::Get(*id)),
        Act::Find(corners) => Ok(Op::Find(rect_of(*corners)?)),
        Act::Fill(corners) => Ok(Op::Fill(rect_of(*corners)?, value_of()?)),
        Act::Clear(corners) => Ok(Op::Clear(rect_of(*corners)?)),
    }
}

// Whether the needs are just these, each to the end of the transaction.
fn are(needs: &Needs, wanted: &[(Name, Mode)]) -> bool {
    if needs.len() != wanted.len() {
        return false;
    }
    for (i, need) in needs.as_slice().iter().enumerate() {
        let (name, mode) = wanted[i];
        let same = need.name == name && need.mode == mode && need.duration == Duration::Commit;
        if !same {
            return false;
        }
    }
    true
}

// What an operation of transaction 7 needs over a tree that it leaves as it is.
struct Stay {
    tree: &'static [Corners],
    act: Act,
    wanted: &'static [(Name, Mode)],
}

const STAYS: [Stay; 8] = [
    // an empty corner lies in no leaf
    Stay {
        tree: &APART,
        act: Act::Find((50, 50, 60, 60)),
        wanted: &[(Name::Granule(3), Mode::S)],
    },
    // a part of one leaf alone
    Stay {
        tree: &CROSSED,
        act: Act::Find((50, 12, 51, 13)),
        wanted: &[(Name::Granule(2), Mode::S)],
    },
    Stay {
        tree: &APART,
        act: Act::Drop(3),
        wanted: &[(Name::Granule(2), Mode::IX)],
    },
    Stay {
        tree: &APART,
        act: Act::Set(3),
        wanted: &[(Name::Granule(2), Mode::IX)],
    },
    // what is not there, and what is only read by its id
    Stay {
        tree: &APART,
        act: Act::Drop(9),
        wanted: &[],
    },
    Stay {
        tree: &APART,
        act: Act::Get(3),
        wanted: &[],
    },
    Stay {
        tree: &APART,
        act: Act::Fill((0, 0, 3, 3)),
        wanted: &[(Name::Granule(1), Mode::SIX), (Name::Object(1), Mode::X)],
    },
    // an entry of one leaf, and a part of another with none of its entries
    Stay {
        tree: &APART,
        act: Act::Clear((5, 5, 105, 6)),
        wanted: &[
            (Name::Granule(1), Mode::SIX),
            (Name::Granule(2), Mode::S),
            (Name::Granule(3), Mode::S),
            (Name::Object(5), Mode::X),
        ],
    },
];

#[test]
fn operations_that_leave_the_tree(rt: HostRuntime) -> Result<(), Fail> {
    let alloc = rt.alloc();
    let none = Records2::new(alloc);
    for (i, case) in STAYS.iter().enumerate() {
        let tree = tree_of(alloc, case.tree)?;
        let op = op_of(alloc, &case.act)?;
        let needs = commit_needs(alloc, &tree, None, &op, 7, &none)?;
        assert!(rt; are(&needs, case.wanted), "case {i}");
    }
    Ok(())
}

fn mark(tree: &mut Tree, entry: u64, made: Made, ended: Ended) -> Result<(), Fail> {
    let marks = Marks {
        made,
        ended,
        draft: Draft::None,
    };
    tree.note_marks(entry, &marks)?;
    tree.mark(entry, marks);
    Ok(())
}

// Entry 1 is dead, and entry 5 was made by transaction 9.
#[test]
fn entries_that_are_not_seen(rt: HostRuntime) -> Result<(), Fail> {
    let alloc = rt.alloc();
    let none = Records2::new(alloc);
    let mut tree = tree_of(alloc, &APART)?;
    mark(&mut tree, 1, Made::Committed, Ended::Done)?;
    mark(&mut tree, 5, Made::By(9), Ended::Nobody)?;
    let fill = op_of(alloc, &Act::Fill((0, 0, 6, 6)))?;
    let all = [
        (Name::Granule(1), Mode::SIX),
        (Name::Object(1), Mode::X),
        (Name::Object(5), Mode::X),
    ];
    assert!(rt; are(&commit_needs(alloc, &tree, None, &fill, 7, &none)?, &all));
    let leaf = [(Name::Granule(1), Mode::IX)];
    assert!(rt;
        are(
            &commit_needs(alloc, &tree, None, &Op::Drop(1), 7, &none)?,
            &[]
        )
    );
    assert!(rt;
        are(
            &commit_needs(alloc, &tree, None, &Op::Drop(5), 7, &none)?,
            &[]
        )
    );
    assert!(rt;
        are(
            &commit_needs(alloc, &tree, None, &Op::Drop(5), 9, &none)?,
            &leaf
        )
    );
    Ok(())
}

// What a put needs of a rectangle with a new number, by what its transaction searched.
struct Put {
    tree: &'static [Corners],
    rect: Corners,
    searches: &'static [Corners],
    wanted: &'static [(Name, Mode)],
}

const PUTS: [Put; 7] = [
    // a leaf grows over points that lie in no leaf
    Put {
        tree: &APART,
        rect: (55, 55, 56, 56),
        searches: &[],
        wanted: &[(Name::Granule(2), Mode::IX)],
    },
    // a leaf grows into its sibling
    Put {
        tree: &CROSSED,
        rect: (90, 15, 95, 16),
        searches: &[],
        wanted: &[(Name::Granule(1), Mode::IX)],
    },
    // a leaf grows into what was searched
    Put {
        tree: &APART,
        rect: (40, 0, 52, 5),
        searches: &[(50, 0, 60, 5)],
        wanted: &[(Name::Granule(1), Mode::SIX), (Name::Granule(3), Mode::S)],
    },
    // nothing grows, and so what was searched stays guarded
    Put {
        tree: &APART,
        rect: (1, 1, 2, 2),
        searches: &[(50, 0, 60, 5)],
        wanted: &[(Name::Granule(1), Mode::IX)],
    },
    Put {
        tree: &APART,
        rect: (112, 2, 113, 3),
        searches: &[(1, 1, 3, 3)],
        wanted: &[(Name::Granule(1), Mode::S), (Name::Granule(2), Mode::IX)],
    },
    // a split: what the new leaf and the new root have of the searches needs no lock
    Put {
        tree: &[
            (0, 0, 2, 2),
            (8, 8, 10, 10),
            (100, 0, 102, 2),
            (108, 8, 110, 10),
        ],
        rect: (4, 4, 6, 6),
        searches: &[(50, 50, 60, 60), (101, 1, 101, 1)],
        wanted: &[(Name::Granule(1), Mode::IX)],
    },
    Put {
        tree: &[],
        rect: (1, 1, 2, 2),
        searches: &[(0, 0, 9, 9)],
        wanted: &[(Name::Granule(1), Mode::IX)],
    },
];

fn rects_of(alloc: Global, searches: &[Corners]) -> Result<Records2, Fail> {
    let mut rects = Records2::new(alloc);
    for corners in searches {
        rects.push(rect_of(*corners)?)?;
    }
    Ok(rects)
}

fn put_needs(alloc: Global, case: &Put) -> Result<Needs, Fail> {
    let tree = tree_of(alloc, case.tree)?;
    let rect = rect_of(case.rect)?;
    let plan = plan_of(alloc, &tree, 9, 9, rect)?;
    let searches = rects_of(alloc, case.searches)?;
    let put = Op::Put(Record {
        id: 9,
        rect,
        value: value_of()?,
    });
    Ok(commit_needs(alloc, &tree, Some(&plan), &put, 7, &searches)?)
}

#[test]
fn puts_by_their_plans(rt: HostRuntime) -> Result<(), Fail> {
    let alloc = rt.alloc();
    for (i, case) in PUTS.iter().enumerate() {
        assert!(rt; are(&put_needs(alloc, case)?, case.wanted), "case {i}");
    }
    Ok(())
}
