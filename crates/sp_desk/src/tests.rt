// Scripts of many sessions, and the lines that they are answered.
use crate::play;
use sp_disk::HonestDisk;
use sp_io::{MemSink, MemSource};
use sp_kernel::Kernel;
use sp_node::Shape;
use sp_text::{End, Transcript};
use std::alloc::Global;
use std::test::Fail;

// A script, and what it writes.
type Row = (&'static str, &'static str);

// Runs the script over the kernel, and wants it to write that.
fn check_over(alloc: Global, kernel: &mut Kernel<HonestDisk>, row: Row) -> Result<(), Fail> {
    let mut pieces = Vec::new(alloc);
    pieces.push(row.0.as_bytes().to_vec(alloc)?)?;
    let mut source = MemSource::new(alloc, pieces, Vec::new(alloc))?;
    let mut sink = MemSink::new(alloc, Vec::new(alloc))?;
    let Transcript { items: _, end } = play(alloc, kernel, &mut source, &mut sink);
    if end != End::Input {
        return Err(Fail::from(("it ended otherwise", row.0)));
    }
    if sink.bytes() != row.1.as_bytes() {
        return Err(Fail::from(("other answers", row.0)));
    }
    Ok(())
}

fn started(alloc: Global, disk: HonestDisk) -> Result<Kernel<HonestDisk>, Fail> {
    match Kernel::start(alloc, disk, Shape { max: 4, min: 2 }) {
        Ok(kernel) => Ok(kernel),
        Err((_, error)) => Err(Fail::from(error)),
    }
}

// Runs the script over a new store.
fn check_alone(alloc: Global, row: Row) -> Result<(), Fail> {
    let mut kernel = started(alloc, HonestDisk::new(alloc)?)?;
    check_over(alloc, &mut kernel, row)
}

// Runs the script over the journal that the first one leaves.
fn check_after(alloc: Global, first: Row, row: Row) -> Result<(), Fail> {
    let mut before = started(alloc, HonestDisk::new(alloc)?)?;
    check_over(alloc, &mut before, first)?;
    let (_, disk) = before.finish();
    let mut after = started(alloc, disk)?;
    check_over(alloc, &mut after, row)
}

// Two leaves that stand apart: leaf 1 has the records 1, 2 and 5, leaf 2 has 3 and 4.
const APART: Row = (
    "Z begin\nZ put 1 0 0 2 2 a\nZ put 2 8 8 10 10 b\nZ put 3 100 0 102 2 c\nZ put 4 108 8 110 10 d\nZ put 5 4 4 6 6 e\nZ commit\n",
    "Z began 0\nZ done\nZ done\nZ done\nZ done\nZ done\nZ committed 1\n",
);

// A leaf as wide as its sibling is high: leaf 1 has the records 1, 2 and 5, leaf 2 has 3 and 4.
const CROSSED: Row = (
    "Z begin\nZ put 1 0 0 2 9 a\nZ put 2 98 0 100 9 b\nZ put 3 50 10 51 20 c\nZ put 4 50 990 51 1000 d\nZ put 5 40 0 60 9 e\nZ commit\n",
    "Z began 0\nZ done\nZ done\nZ done\nZ done\nZ done\nZ committed 1\n",
);

const ALONE: [Row; 10] = [
    // Nothing.
    ("", ""),
    // A corner of space.
    (
        "A begin\nA put 1 -1073741824 -1073741824 -1073741824 -1073741824 corner\nA find -1073741824 -1073741824 -1073741824 -1073741824\nA commit\n",
        "A began 0\nA done\nA found 1\nA rec 1 -1073741824 -1073741824 -1073741824 -1073741824 corner\nA committed 1\n",
    ),
    // All of space.
    (
        "A begin\nA find -1073741824 -1073741824 1073741823 1073741823\nA commit\n",
        "A began 0\nA found 0\nA committed 1\n",
    ),
    // Past its edge.
    (
        "A begin\nA put 1 0 0 1073741824 0 x\nA put 1 0 0 0 0 x\n",
        "A began 0\nA bad rect\nA done\nA rolledback\n",
    ),
    // A put that splits the leaf has to wait for the one before it.
    (
        "Z begin\nZ put 1 0 0 2 2 a\nZ put 2 8 8 10 10 b\nZ put 3 100 0 102 2 c\nZ commit\nA begin\nA put 4 108 8 110 10 d\nB begin\nB put 5 4 4 6 6 e\nA commit\nB commit\n",
        "Z began 0\nZ done\nZ done\nZ done\nZ committed 1\nA began 1\nA done\nB began 1\nB waits granule 1 SIX A\nA committed 2\nB done\nB committed 3\n",
    ),
    // A record that another drops, and gives back.
    (
        "Z begin\nZ put 7 0 0 1 1 old\nZ commit\nA begin\nA drop 7\nB begin\nB get 7\nA rollback\nB commit\n",
        "Z began 0\nZ done\nZ committed 1\nA began 1\nA done\nB began 1\nB waits object 7 S A\nA rolledback\nB rec 7 0 0 1 1 old\nB committed 2\n",
    ),
    // Own changes are read back.
    (
        "A begin\nA put 1 0 0 1 1 x\nA put 1 5 5 6 6 y\nA set 2 z\nA set 1 y\nA get 1\nA drop 1\nA drop 1\nA get 1\nA put 1 5 5 5 5 w\nA fill 0 0 9 9 v\nA clear 6 6 9 9\nA commit\nA begin\nA find 0 0 9 9\nA rollback\nA commit\n",
        "A began 0\nA done\nA exists\nA absent\nA done\nA rec 1 0 0 1 1 y\nA done\nA absent\nA absent\nA done\nA count 1\nA count 0\nA committed 1\nA began 1\nA found 1\nA rec 1 5 5 5 5 v\nA rolledback\nA refused notxn\n",
    ),
    // Lines that are no commands, and one that does not end.
    (
        "a begin\nA\nA beginn\nA begin now\nA put 01 0 0 0 0 x\nA put 1 5 0 4 0 x\n\n# nothing\nA get 1",
        "? bad session\nA bad command\nA bad command\nA bad words\nA bad number\nA bad rect\nA refused notxn\n",
    ),
    // A session that waits is refused, and takes its turn.
    (
        "A begin\nB begin\nC begin\nA drop 5\nB put 4 0 0 9 9 x\nC find 0 0 9 9\nA drop 4\nB put 6 0 0 1 1 y\nC begin\nC get 4\nB commit\nC rollback\n",
        "A began 0\nB began 0\nC began 0\nA absent\nB done\nC waits granule 1 S B\nA waits object 4 X B\nB done\nC refused intxn\nC refused busy\nB committed 1\nC found 2\nC rec 4 0 0 9 9 x\nC rec 6 0 0 1 1 y\nA waits granule 1 IX C\nC rolledback\nA done\nA rolledback\n",
    ),
    // One that waits is rolled back, and those that are open at the end.
    (
        "B begin\nA begin\nB put 1 0 0 1 1 x\nA get 1\nA rollback\nC begin\nA begin\n",
        "B began 0\nA began 0\nB done\nA waits object 1 S B\nA rolledback\nC began 0\nA began 0\nA rolledback\nB rolledback\nC rolledback\n",
    ),
];

const OVER_APART: [Row; 5] = [
    // A corner outside all leaves.
    (
        "A begin\nA find 50 50 60 60\nB begin\nB put 6 55 55 56 56 f\nA commit\nB commit\n",
        "A began 0\nA found 0\nB began 0\nB waits granule 3 IX A\nA committed 1\nB done\nB committed 2\n",
    ),
    // Growth into what it searched itself.
    (
        "A begin\nA find 50 0 60 5\nC begin\nC set 1 z\nA put 7 40 0 52 5 g\nC commit\nD begin\nD set 1 y\nA commit\nD commit\n",
        "A began 0\nA found 0\nC began 0\nC done\nA waits granule 1 SIX C\nC committed 1\nA done\nD began 1\nD waits granule 1 IX A\nA committed 2\nD done\nD committed 3\n",
    ),
    // Each puts into what the other searched.
    (
        "A begin\nA find 1 1 3 3\nB begin\nB find 101 1 103 3\nA put 6 104 4 105 5 f\nB put 7 3 3 4 4 g\nA commit\nB commit\n",
        "A began 0\nA found 1\nA rec 1 0 0 2 2 a\nB began 0\nB found 1\nB rec 3 100 0 102 2 c\nA waits granule 2 IX B\nB deadlock 2\nB edge B A granule 1 IX held S\nB edge A B granule 2 IX held S\nA done\nA committed 1\nB refused notxn\n",
    ),
    // A cycle through one who waits before.
    (
        "A begin\nA find 1 1 3 3\nC begin\nC set 3 z\nB begin\nB put 6 3 3 4 4 f\nC find 1 1 3 3\nA get 3\nB commit\nC commit\n",
        "A began 0\nA found 1\nA rec 1 0 0 2 2 a\nC began 0\nC done\nB began 0\nB waits granule 1 IX A\nC waits granule 1 S B\nA deadlock 3\nA edge A C object 3 S held X\nA edge C B granule 1 S waiting IX\nA edge B A granule 1 IX held S\nB done\nB committed 1\nC found 2\nC rec 1 0 0 2 2 a\nC rec 6 3 3 4 4 f\nC committed 2\n",
    ),
    // No needless wait.
    (
        "A begin\nA find 1 1 3 3\nB begin\nB put 6 112 2 113 3 f\nB commit\nA commit\n",
        "A began 0\nA found 1\nA rec 1 0 0 2 2 a\nB began 0\nB done\nB committed 1\nA committed 2\n",
    ),
];

// A leaf that grows into its sibling's space.
const OVER_CROSSED: Row = (
    "A begin\nA find 50 12 51 13\nB begin\nB put 6 90 15 95 16 f\nA commit\nB commit\n",
    "A began 0\nA found 1\nA rec 3 50 10 51 20 c\nB began 0\nB waits granule 2 IX A\nA committed 1\nB done\nB committed 2\n",
);

#[test]
fn scripts_alone(rt: HostRuntime) -> Result<(), Fail> {
    for row in ALONE {
        check_alone(rt.alloc(), row)?;
    }
    Ok(())
}

#[test]
fn scripts_over_a_journal(rt: HostRuntime) -> Result<(), Fail> {
    for row in OVER_APART {
        check_after(rt.alloc(), APART, row)?;
    }
    check_after(rt.alloc(), CROSSED, OVER_CROSSED)
}
