// The words of a command line: those that are one, and those that are none.
use crate::tests::{NO_FAILS, NO_FILES, Ran, run};
use std::test::Fail;

const SCRIPT: &str = "A begin\nA commit\n";

const TEXT: &str = "A began 0\nA committed 1\n";

// Options in any order, with their values behind them or joined to them.
#[test]
fn words_of_a_run(rt: HostRuntime) -> Result<(), Fail> {
    for words in [
        ["play"].as_slice(),
        &["play", "--max", "4"],
        &["play", "--max=64"],
        &["play", "--min", "2"],
        &["play", "--min=8"],
        &["play", "--min", "32", "--max", "64"],
        &["play", "--max=4", "--min=2"],
        &["play", "--journal", "J1"],
        &["play", "--journal=J1", "--max", "5"],
        &["play", "--journal", "a/b.1_-"],
    ] {
        let Ran { done, sink } = run(rt.alloc(), words, (SCRIPT, 7), NO_FILES, NO_FAILS)?;
        assert_eq!(rt; done.status, 0);
        assert_eq!(rt; sink.bytes(), TEXT.as_bytes());
    }
    Ok(())
}

// The other commands, with the options that each has.
#[test]
fn words_of_other_commands(rt: HostRuntime) -> Result<(), Fail> {
    for (words, text) in [
        (
            ["play", "--audit", "--min=2"].as_slice(),
            "A bad command\n{\"base\":[],\"commits\":[],\"ended\":[]}\n",
        ),
        (&["drill"], "A bad command\n"),
        (
            &["drill", "--max=4", "--audit", "--min", "2", "--journal=J1"],
            "A bad command\n{\"base\":[],\"commits\":[],\"ended\":[]}\n",
        ),
        (&["dump", "--journal", "J1"], "found 0\n"),
        (&["dump", "--journal=J1"], "found 0\n"),
        (&["check", "--journal", "J1"], "whole 0 0 0\n"),
        (&["check", "--journal=J1"], "whole 0 0 0\n"),
        (&["compact", "--journal", "J1"], "compacted 2 0\n"),
        (&["compact", "--journal=J1"], "compacted 2 0\n"),
        (&["make", "--seed", "1", "--count", "0"], ""),
        (&["make", "--count=0", "--seed=1"], ""),
        (
            &[
                "stress", "--seed", "1", "--count", "1", "--max", "4", "--min", "2",
            ],
            "lines 12\ncommits 2\nwaits 2\ndeadlocks 0\nrefused 2\nrecords 2\n",
        ),
        (
            &["stress", "--min=8", "--max=64", "--count=0", "--seed=7"],
            "lines 0\ncommits 0\nwaits 0\ndeadlocks 0\nrefused 0\nrecords 0\n",
        ),
    ] {
        let Ran { done, sink } = run(rt.alloc(), words, ("A no command\n", 7), NO_FILES, NO_FAILS)?;
        assert_eq!(rt; done.status, 0);
        assert_eq!(rt; sink.bytes(), text.as_bytes(), "{words:?}");
    }
    Ok(())
}

#[test]
fn other_words_are_no_command(rt: HostRuntime) -> Result<(), Fail> {
    for words in [
        [].as_slice(),
        &[""],
        &["Play"],
        &["play "],
        &["play", "play"],
        &["--max", "4", "play"],
        &["play", "--max", "3"],
        &["play", "--max", "65"],
        &["play", "--max", "04"],
        &["play", "--max"],
        &["play", "--max="],
        &["play", "--min", "1"],
        &["play", "--min", "9"],
        &["play", "--max", "8", "--min", "5"],
        &["play", "--max", "4", "--max", "4"],
        &["play", "--max=4", "--max", "4"],
        &["play", "--min=2", "--min=2"],
        &["play", "--audit", "--audit"],
        &["play", "--audit", "yes"],
        &["play", "--audit=yes"],
        &["play", "--journal"],
        &["play", "--journal="],
        &["play", "--journal", "-J1"],
        &["play", "--journal", "J 1"],
        &["play", "--journal", "J1", "--journal=J1"],
        &["play", "--seed", "1"],
        &["drill", "--count", "1"],
        &["drill", "J1"],
        &["dump"],
        &["dump", "--journal", "J1", "--audit"],
        &["dump", "--journal", "J1", "--max", "4"],
        &["check"],
        &["compact", "--journal", "-J1"],
        &["make", "--seed", "1"],
        &["make", "--seed", "0", "--count", "1"],
        &["make", "--seed", "2147483647", "--count", "1"],
        &["make", "--seed", "1", "--count", "10001"],
        &["make", "--seed", "1", "--count", "1", "--max", "4"],
        &["stress", "--seed", "1"],
        &["stress", "--seed", "1", "--count", "1", "--journal", "J1"],
        &["stress", "--seed", "1", "--count", "1", "--audit"],
    ] {
        let Ran { done, sink } = run(rt.alloc(), words, (SCRIPT, 7), NO_FILES, NO_FAILS)?;
        assert_eq!(rt; done.status, 1, "{words:?}");
        assert_eq!(rt; sink.bytes(), b"! usage\n".as_slice());
        assert_eq!(rt; done.transcript.items.len(), 0);
        assert!(rt; done.disks.is_none());
    }
    Ok(())
}
