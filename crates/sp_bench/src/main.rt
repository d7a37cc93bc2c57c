//! The program that the scripts of bench/ time: it does one kind of work of the libraries many times, and
//! prints what came of it. It reads no clock; the scripts time it as a whole.
#![tactic(auto)]

mod locks;
mod numbers;
mod regions;
mod trees;

use std::alloc::AllocError;
use std::env;
use std::process::ExitCode;

const NO_WORK: u8 = 1;

const NO_MEMORY: u8 = 2;

// What a run counts.
#[derive(Clone, Copy)]
struct Counts {
    first: u64,
    second: u64,
}

fn main(rt: HostRuntime) -> ExitCode {
    let Ok(args) = env::args(&rt) else {
        return ExitCode::from(NO_WORK);
    };
    let mut words = Vec::new(rt.alloc());
    for word in args.skip(1) {
        if words.push(word).is_err() {
            return ExitCode::from(NO_MEMORY);
        }
    }
    match words.as_slice() {
        [kind, first, second] => {
            let (Ok(first), Ok(second)) = (first.parse::<u32>(), second.parse::<u32>()) else {
                return ExitCode::from(NO_WORK);
            };
            let done = match kind.as_str() {
                "trees" => trees::run(rt.alloc(), first, second),
                "removals" => trees::run_removals(rt.alloc(), first, second),
                "locks" => locks::run(rt.alloc(), first, second),
                "regions" => regions::run(rt.alloc(), first, second),
                _ => return ExitCode::from(NO_WORK),
            };
            match done {
                Ok(counts) => match println!(rt; "{} {}", counts.first, counts.second) {
                    Ok(()) => ExitCode::SUCCESS,
                    Err(_) => ExitCode::from(NO_WORK),
                },
                Err(_) => ExitCode::from(NO_MEMORY),
            }
        }
        _ => ExitCode::from(NO_WORK),
    }
}
