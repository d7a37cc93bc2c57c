// Command lines, each with what it asks for.
use crate::{Run, Task, read_words};
use sp_io::Words;
use std::alloc::{AllocError, Global};
use std::test::Fail;

fn read(alloc: Global, line: &[&str]) -> Result<Option<Task>, AllocError> {
    let mut words = Words::new(alloc);
    for word in line {
        words.push(word)?;
    }
    read_words(alloc, &words)
}

fn run_text(alloc: Global, run: &Run) -> Result<String, AllocError> {
    let journal = match &run.journal {
        Some(name) => name.as_str(),
        None => "none",
    };
    let Run { shape, audit, .. } = run;
    format!(in alloc; "{journal} {} {} {audit}", shape.max, shape.min)
}

// What a task is, in words of the test's own.
fn text(alloc: Global, task: &Task) -> Result<String, AllocError> {
    match task {
        Task::Play(run) => {
            let run = run_text(alloc, run)?;
            format!(in alloc; "play {run}")
        }
        Task::Drill(run) => {
            let run = run_text(alloc, run)?;
            format!(in alloc; "drill {run}")
        }
        Task::Dump { journal } => format!(in alloc; "dump {}", journal.as_str()),
        Task::Check { journal } => format!(in alloc; "check {}", journal.as_str()),
        Task::Compact { journal } => format!(in alloc; "compact {}", journal.as_str()),
        Task::Make { seed, count } => format!(in alloc; "make {seed} {count}"),
        Task::Stress { seed, count, shape } => {
            format!(in alloc; "stress {seed} {count} {} {}", shape.max, shape.min)
        }
    }
}

#[test]
fn words_that_ask_for_something(rt: HostRuntime) -> Result<(), Fail> {
    let alloc = rt.alloc();
    for (line, asked) in [
        (["play"].as_slice(), "play none 16 6 false"),
        (&["play", "--max", "4"], "play none 4 2 false"),
        (&["play", "--max=64"], "play none 64 25 false"),
        (&["play", "--min=8"], "play none 16 8 false"),
        (
            &[
                "drill",
                "--audit",
                "--min",
                "2",
                "--journal=a/b.1_-",
                "--max",
                "5",
            ],
            "drill a/b.1_- 5 2 true",
        ),
        (&["play", "--journal", "J1", "--audit"], "play J1 16 6 true"),
        (&["dump", "--journal", "J1"], "dump J1"),
        (&["check", "--journal=J1"], "check J1"),
        (&["compact", "--journal", "J1"], "compact J1"),
        (&["make", "--seed", "1", "--count", "1"], "make 1 1"),
        (
            &["make", "--count=10000", "--seed=2147483646"],
            "make 2147483646 10000",
        ),
        (
            &["stress", "--count", "0", "--max=64", "--seed", "7"],
            "stress 7 0 64 25",
        ),
    ] {
        let Some(task) = read(alloc, line)? else {
            return Err(Fail::from("no task"));
        };
        let told = text(alloc, &task)?;
        assert_eq!(rt; told.as_str(), asked);
    }
    Ok(())
}

#[test]
fn words_that_ask_for_nothing(rt: HostRuntime) -> Result<(), Fail> {
    let alloc = rt.alloc();
    for line in [
        [].as_slice(),
        &[""],
        &["--max", "4"],
        &["plays"],
        &["play", "play"],
        &["play", "--max", "3"],
        &["play", "--max", "65"],
        &["play", "--max", "8", "--min", "5"],
        &["play", "--min", "9"],
        &["play", "--min", "1"],
        &["play", "--max", "4", "--max", "4"],
        &["play", "--max=4", "--max", "4"],
        &["play", "--max"],
        &["play", "--max="],
        &["play", "--max", "04"],
        &["play", "--max", "+4"],
        &["play", "--max=4=4"],
        &["play", "--max4"],
        &["play", "-max", "4"],
        &["play", "--audit", "--audit"],
        &["play", "--audit=yes"],
        &["play", "--audit="],
        &["play", "--journal", "-J"],
        &["play", "--journal="],
        &["play", "--journal", "a b"],
        &["play", "--seed", "1"],
        &["dump"],
        &["dump", "--journal", "J", "--audit"],
        &["check", "--max", "4", "--journal", "J"],
        &["compact", "--journal", "J", "--journal", "J"],
        &["make", "--seed", "1"],
        &["make", "--seed", "0", "--count", "1"],
        &["make", "--seed", "2147483647", "--count", "1"],
        &["make", "--seed", "1", "--count", "10001"],
        &["make", "--seed", "1", "--count", "1", "--max", "4"],
        &["stress", "--seed", "1", "--count", "1", "--audit"],
        &["stress", "--seed", "1", "--count", "18446744073709551616"],
    ] {
        assert!(rt; read(alloc, line)?.is_none());
    }
    Ok(())
}

// A name has at most 251 characters.
#[test]
fn long_names(rt: HostRuntime) -> Result<(), Fail> {
    let alloc = rt.alloc();
    let mut name = String::new(alloc);
    for _ in 0..251 {
        name.push_str("n")?;
    }
    assert!(rt; read(alloc, &["dump", "--journal", name.as_str()])?.is_some());
    name.push_str("n")?;
    assert!(rt; read(alloc, &["dump", "--journal", name.as_str()])?.is_none());
    Ok(())
}
