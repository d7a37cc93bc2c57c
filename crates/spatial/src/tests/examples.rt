// The scripts of the folder examples/, with what stands beside them.
use crate::tests::{NO_FILES, Row, check, disks_of};
use std::test::Fail;

// Two parcels of land, and one transaction after the other.
const FIRST: Row = (
    "# Two parcels of land, in metres on the map sheet of a small town.\n# A transaction of session A: nothing counts before its commit.\nA begin\n# Parcel 1 lies at the corner of the market, parcel 2 beside it.\nA put 1 0 0 30 40 market-corner\nA put 2 31 0 55 40 bakery\n# An id is taken once: parcel 2 is there already.\nA put 2 60 0 80 40 stable\n# Who owns what along the lane that is planned from (25, 10) to (35, 12)?\nA find 25 10 35 12\nA commit\n# A point is a rectangle too: what stands on (70, 5)?\nA begin\nA find 70 5 70 5\nA commit\n",
    "A began 0\nA done\nA done\nA exists\nA found 2\nA rec 1 0 0 30 40 market-corner\nA rec 2 31 0 55 40 bakery\nA committed 1\nA began 1\nA found 0\nA committed 2\n",
);

// Two clerks at the same time, one of whom waits and goes on.
const CLERKS: Row = (
    "# Parcels of a new quarter, in metres, and two clerks who work at the same time.\n# Clerk A enters three parcels. Nobody else sees them before the commit.\nA begin\nA put 1 0 0 18 28 free\nA put 2 20 0 38 28 free\nA put 3 40 0 58 28 free\nA commit\n# Both clerks begin. Clerk B sells parcel 1, and takes parcel 3 off the map.\nA begin\nB begin\nB set 1 sold\nB drop 3\n# Nobody changes parcel 2: clerk A reads it at once.\nA get 2\n# Parcel 1 was changed by B, who may still take that back. So A is told to wait: \"A waits object 1 S B\" says that A\n# wants to read (S) the object 1, which is parcel 1, and that B is in the way.\nA get 1\n# As long as its command waits A is refused any other, but for a rollback.\nA commit\n# B adds a parcel and reads what stands along the street now, with its own changes.\nB put 4 60 0 78 28 free\nB find 0 0 100 28\n# With B's commit parcel 1 is sold, nobody is in A's way any more, and A is told what it asked for.\nB commit\nA commit\n# B makes a mistake: every parcel is taken away. C, whose name may have digits as in C7, wants to know what is left.\n# \"C7 waits granule 1 S B\": as long as the map is small all of it is one granule, the granule 1, and B changes that.\nB begin\nB clear 0 0 100 100\nC7 begin\nC7 find 0 0 100 100\n# B undoes the mistake. Nothing of it counts, and C7 finds three parcels.\nB rollback\nC7 commit\n# Lines that are none of the language change nothing.\nA putt 4 0 0 1 1 x\nA put 4 0 0 1 x\n",
    "A began 0\nA done\nA done\nA done\nA committed 1\nA began 1\nB began 1\nB done\nB done\nA rec 2 20 0 38 28 free\nA waits object 1 S B\nA refused busy\nB done\nB found 3\nB rec 1 0 0 18 28 sold\nB rec 2 20 0 38 28 free\nB rec 4 60 0 78 28 free\nB committed 2\nA rec 1 0 0 18 28 sold\nA committed 3\nB began 3\nB count 3\nC7 began 3\nC7 waits granule 1 S B\nB rolledback\nC7 found 3\nC7 rec 1 0 0 18 28 sold\nC7 rec 2 20 0 38 28 free\nC7 rec 4 60 0 78 28 free\nC7 committed 4\nA bad command\nA bad words\n",
);

// Two surveyors who would wait for each other.
const DEADLOCK: Row = (
    "# Two surveyors who each add a house where the other has just looked. Nodes have 2 to 4 members here, so that five\n# houses are two leaves: the leaf 1 in the west with the houses 1, 2 and 5, the leaf 2 in the east with 3 and 4.\nZ begin\nZ put 1 0 0 2 2 mill\nZ put 2 8 8 10 10 school\nZ put 3 100 0 102 2 harbour\nZ put 4 108 8 110 10 customs\nZ put 5 4 4 6 6 smithy\nZ commit\n# A looks at the west. Until A ends, what A found there stays so: A holds S on the granule 1.\nA begin\nA find 1 1 3 3\n# B looks at the east, and holds S on the granule 2.\nB begin\nB find 101 1 103 3\n# A adds a house in the east, where B has looked. A second look of B's would find it, so A has to wait:\n# \"A waits granule 2 IX B\" says that A wants to change something in the granule 2 (IX), and that B is in the way.\nA put 6 104 4 105 5 inn\n# B adds a house in the west, where A has looked. Now each would wait for the other, for ever. So B's transaction is\n# ended instead, as by a rollback. \"B deadlock 2\" says so, and that the circle has two edges. The first is\n# \"B edge B A granule 1 IX held S\": B would wait for A, since B wants IX on the granule 1, where A holds S. The second is\n# \"B edge A B granule 2 IX held S\": A waits for B, since A wants IX on the granule 2, where B held S.\n# With that B is out of A's way, and A's house is done, in the same moment.\nB put 7 3 3 4 4 forge\n# B has no transaction any more: nothing of it counts.\nB commit\nA commit\n# B tries again from the beginning. Now nobody is in the way.\nB begin\nB find 101 1 106 6\nB put 7 3 3 4 4 forge\nB commit\n",
    "Z began 0\nZ done\nZ done\nZ done\nZ done\nZ done\nZ committed 1\nA began 1\nA found 1\nA rec 1 0 0 2 2 mill\nB began 1\nB found 1\nB rec 3 100 0 102 2 harbour\nA waits granule 2 IX B\nB deadlock 2\nB edge B A granule 1 IX held S\nB edge A B granule 2 IX held S\nA done\nB refused notxn\nA committed 2\nB began 2\nB found 2\nB rec 3 100 0 102 2 harbour\nB rec 6 104 4 105 5 inn\nB done\nB committed 3\n",
);

// Parcels that are kept, and one that is not.
const MORNING: Row = (
    "# In the morning the surveyor enters the parcels along a new street, in metres, and commits.\nA begin\nA put 1 0 0 18 28 free\nA put 2 20 0 38 28 free\nA put 3 40 0 58 28 free\nA put 4 60 0 78 28 free\nA commit\n# A fifth parcel is entered and never committed. At the end of the input it is rolled back, and the journal has nothing\n# of it.\nA begin\nA put 5 80 0 98 28 free\n",
    "A began 0\nA done\nA done\nA done\nA done\nA committed 1\nA began 1\nA done\nA rolledback\n",
);

// A sale that waits, over the same journal.
const AFTERNOON: Row = (
    "# In the afternoon the program runs again over the same journal, and finds what the morning committed.\nA begin\nA find 0 0 100 28\n# A notary sells parcel 2 in a transaction of his own. A counts on what it found, so the sale has to wait for A.\nN begin\nN set 2 sold\n# A takes the last parcel off the map: it is too small to build on. With A's commit the notary goes on.\nA drop 4\nA commit\nN get 4\nN commit\n",
    "A began 0\nA found 4\nA rec 1 0 0 18 28 free\nA rec 2 20 0 38 28 free\nA rec 3 40 0 58 28 free\nA rec 4 60 0 78 28 free\nN began 0\nN waits granule 1 IX A\nA done\nA committed 1\nN done\nN absent\nN committed 2\n",
);

// The scripts of one file.
#[test]
fn examples_print_what_stands_beside_them(rt: HostRuntime) -> Result<(), Fail> {
    let alloc = rt.alloc();
    for row in [FIRST, CLERKS] {
        check(alloc, &["play"], row, NO_FILES)?;
    }
    check(
        alloc,
        &["play", "--max", "4", "--min", "2"],
        DEADLOCK,
        NO_FILES,
    )?;
    Ok(())
}

// Two runs over one journal, and what it holds then.
#[test]
fn a_journal_is_gone_on_with(rt: HostRuntime) -> Result<(), Fail> {
    let alloc = rt.alloc();
    let words = ["play", "--journal", "J1"];
    let (main, alt) = disks_of(check(alloc, &words, MORNING, NO_FILES)?)?;
    let ran = check(alloc, &words, AFTERNOON, (main.bytes(), alt.bytes()))?;
    let (main, alt) = disks_of(ran)?;
    let files = (main.bytes(), alt.bytes());
    check(
        alloc,
        &["dump", "--journal", "J1"],
        (
            "",
            "found 3\nrec 1 0 0 18 28 free\nrec 2 20 0 38 28 sold\nrec 3 40 0 58 28 free\n",
        ),
        files,
    )?;
    check(
        alloc,
        &["check", "--journal", "J1"],
        ("", "whole 3 3 3\n"),
        files,
    )?;
    Ok(())
}
