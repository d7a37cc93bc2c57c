// Scripts of commands in memory, and the lines that they are answered. Nodes have 2 to 4 members.
use crate::tests::{NO_FAILS, NO_FILES, Ran, Row, run};
use std::test::Fail;

const WORDS: &[&str] = &["play", "--max", "4", "--min", "2"];

// The script of seed 1 with one round.
const GENERATED: &str =
    "A begin\nB begin\nC begin\nA get 249\nB put 878 7923 7709 7963 7774 v1\nC find 7987 2503 8014 2532\nA put 612 4303 3169 4312 3226 v1\nB put 933 3099 278 3115 313 v1\nC put 826 3512 9267 3522 9300 v1\nA commit\nB commit\nC commit\n";

const ROWS: [Row; 11] = [
    // Nothing.
    ("", ""),
    // A corner of space.
    (
        "A begin\nA put 1 -1073741824 -1073741824 -1073741824 -1073741824 corner\nA find -1073741824 -1073741824 -1073741824 -1073741824\nA commit\n",
        "A began 0\nA done\nA found 1\nA rec 1 -1073741824 -1073741824 -1073741824 -1073741824 corner\nA committed 1\n",
    ),
    // All of space.
    (
        "A begin\nA find -1073741824 -1073741824 1073741823 1073741823\nA commit\n",
        "A began 0\nA found 0\nA committed 1\n",
    ),
    // Past its edge: a bad line changes nothing.
    (
        "A begin\nA put 1 0 0 1073741824 0 x\nA put 1 0 0 0 0 x\n",
        "A began 0\nA bad rect\nA done\nA rolledback\n",
    ),
    // Own changes are read back.
    (
        "A begin\nA put 1 0 0 1 1 x\nA put 1 5 5 6 6 y\nA set 2 z\nA set 1 y\nA get 1\nA drop 1\nA drop 1\nA get 1\nA put 1 5 5 5 5 w\nA fill 0 0 9 9 v\nA clear 6 6 9 9\nA commit\nA begin\nA find 0 0 9 9\nA rollback\nA commit\n",
        "A began 0\nA done\nA exists\nA absent\nA done\nA rec 1 0 0 1 1 y\nA done\nA absent\nA absent\nA done\nA count 1\nA count 0\nA committed 1\nA began 1\nA found 1\nA rec 1 5 5 5 5 v\nA rolledback\nA refused notxn\n",
    ),
    // A put that splits the leaf waits for the one before it.
    (
        "Z begin\nZ put 1 0 0 2 2 a\nZ put 2 8 8 10 10 b\nZ put 3 100 0 102 2 c\nZ commit\nA begin\nA put 4 108 8 110 10 d\nB begin\nB put 5 4 4 6 6 e\nA commit\nB commit\n",
        "Z began 0\nZ done\nZ done\nZ done\nZ committed 1\nA began 1\nA done\nB began 1\nB waits granule 1 SIX A\nA committed 2\nB done\nB committed 3\n",
    ),
    // A record that another drops, and gives back: it is read,
    (
        "Z begin\nZ put 7 0 0 1 1 old\nZ commit\nA begin\nA drop 7\nB begin\nB get 7\nA rollback\nB commit\n",
        "Z began 0\nZ done\nZ committed 1\nA began 1\nA done\nB began 1\nB waits object 7 S A\nA rolledback\nB rec 7 0 0 1 1 old\nB committed 2\n",
    ),
    // or found.
    (
        "Z begin\nZ put 7 0 0 1 1 old\nZ commit\nA begin\nA drop 7\nB begin\nB find 0 0 1 1\nA rollback\nB commit\n",
        "Z began 0\nZ done\nZ committed 1\nA began 1\nA done\nB began 1\nB waits granule 1 S A\nA rolledback\nB found 1\nB rec 7 0 0 1 1 old\nB committed 2\n",
    ),
    // A generated script.
    (
        GENERATED,
        "A began 0\nB began 0\nC began 0\nA absent\nB done\nC waits granule 1 S B\nA waits granule 1 IX C\nB done\nC refused busy\nA refused busy\nB committed 1\nC found 0\nC committed 2\nA done\nA rolledback\n",
    ),
    // One that waits is refused all but a rollback, and those that are open at the end are rolled back in their order: the one that waits, too.
    (
        "B begin\nA begin\nB put 1 0 0 1 1 x\nA get 1\nA begin\nA get 2\nA rollback\nC begin\nA begin\nA find 0 0 1 1\n",
        "B began 0\nA began 0\nB done\nA waits object 1 S B\nA refused intxn\nA refused busy\nA rolledback\nC began 0\nA began 0\nA waits granule 1 S B\nA rolledback\nB rolledback\nC rolledback\n",
    ),
    // Names that differ in their digits are sessions of their own.
    (
        "A begin\nA0 begin\nA00 begin\nZ99 begin\nA put 1 0 0 1 1 x\nA0 set 2 y\nA00 get 1\nA commit\nZ99 commit\nZ9 commit\n",
        "A began 0\nA0 began 0\nA00 began 0\nZ99 began 0\nA done\nA0 absent\nA00 waits object 1 S A\nA committed 1\nA00 rec 1 0 0 1 1 x\nZ99 committed 2\nZ9 refused notxn\nA0 rolledback\nA00 rolledback\n",
    ),
];

// Scripts that are read to their end, and what they write; the pieces in which they come do not matter.
#[test]
fn scripts_write_their_answers(rt: HostRuntime) -> Result<(), Fail> {
    for (script, text) in ROWS {
        for piece in [1, 7, 4096] {
            let Ran { done, sink } = run(rt.alloc(), WORDS, (script, piece), NO_FILES, NO_FAILS)?;
            assert_eq!(rt; done.status, 0);
            assert_eq!(rt; sink.bytes(), text.as_bytes(), "{script}");
        }
    }
    Ok(())
}

// The audit's line follows the answers.
#[test]
fn the_audit_is_written_last(rt: HostRuntime) -> Result<(), Fail> {
    for (script, text, commits, ended) in [
        ("", "{\"base\":[],\"commits\":[],\"ended\":[]}\n", 0, 0),
        (
            "A begin\nA find -1073741824 -1073741824 1073741823 1073741823\nA commit\n",
            "A began 0\nA found 0\nA committed 1\n{\"base\":[],\"commits\":[{\"ops\":[[[\"find\",-1073741824,-1073741824,1073741823,1073741823],[\"found\",[]]]],\"place\":1,\"seen\":0,\"session\":0,\"txn\":1}],\"ended\":[]}\n",
            1,
            0,
        ),
        (
            "A begin\nB begin\nA get 1\nB get 2\nA put 2 0 0 0 0 a\nB put 1 0 0 0 0 b\nA rollback\n",
            "A began 0\nB began 0\nA absent\nB absent\nA waits object 2 X B\nB deadlock 2\nB edge B A object 1 X held S\nB edge A B object 2 X held S\nA done\nA rolledback\n{\"base\":[],\"commits\":[],\"ended\":[{\"cycle\":[[111,0,\"object\",1,\"X\",\"held\",\"S\"],[0,111,\"object\",2,\"X\",\"held\",\"S\"]],\"txn\":2}]}\n",
            0,
            1,
        ),
    ] {
        let Ran { done, sink } = run(
            rt.alloc(),
            &["play", "--audit"],
            (script, 4096),
            NO_FILES,
            NO_FAILS,
        )?;
        assert_eq!(rt; done.status, 0);
        assert_eq!(rt; sink.bytes(), text.as_bytes(), "{script}");
        assert_eq!(rt; done.audit.commits().len(), commits);
        assert_eq!(rt; done.audit.ended().len(), ended);
    }
    Ok(())
}

// A script is made, which reads nothing.
#[test]
fn a_script_is_generated(rt: HostRuntime) -> Result<(), Fail> {
    for (words, text) in [
        (["make", "--seed", "1", "--count", "1"], GENERATED),
        (["make", "--count", "0", "--seed", "2147483646"], ""),
    ] {
        let Ran { done, sink } = run(rt.alloc(), &words, ("unread", 9), NO_FILES, NO_FAILS)?;
        assert_eq!(rt; done.status, 0);
        assert_eq!(rt; sink.bytes(), text.as_bytes());
        assert!(rt; done.disks.is_none());
    }
    Ok(())
}

// A generated script is played, and what came of it is summed up.
#[test]
fn a_generated_script_is_summed_up(rt: HostRuntime) -> Result<(), Fail> {
    for (count, text) in [
        (
            "0",
            "lines 0\ncommits 0\nwaits 0\ndeadlocks 0\nrefused 0\nrecords 0\n",
        ),
        (
            "1",
            "lines 12\ncommits 2\nwaits 2\ndeadlocks 0\nrefused 2\nrecords 2\n",
        ),
    ] {
        let words = ["stress", "--seed", "1", "--count", count];
        let Ran { done, sink } = run(rt.alloc(), &words, ("unread", 9), NO_FILES, NO_FAILS)?;
        assert_eq!(rt; done.status, 0);
        assert_eq!(rt; sink.bytes(), text.as_bytes());
    }
    Ok(())
}
