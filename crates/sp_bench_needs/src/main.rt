//! The program that bench/needs times: it grows a tree, and then makes the plans of many insertions into it,
//! with the locks that each wants, for the moment or to the end, or without. It reads no clock; the script times it as a whole.
#![tactic(auto)]

mod plans;

use crate::plans::Wanted;
use std::env;
use std::process::ExitCode;

const NO_WORK: u8 = 1;

const NO_MEMORY: u8 = 2;

fn main(rt: HostRuntime) -> ExitCode {
    let Ok(args) = env::args(&rt) else {
        return ExitCode::from(NO_WORK);
    };
    let mut words = Vec::new(rt.alloc());
    for word in args.skip(1) {
        if words.push(word).is_err() {
            return ExitCode::from(NO_MEMORY);
        }
    }
    match words.as_slice() {
        [kind, entries, plans] => {
            let (Ok(entries), Ok(plans)) = (entries.parse::<u32>(), plans.parse::<u32>()) else {
                return ExitCode::from(NO_WORK);
            };
            let wanted = match kind.as_str() {
                "needs" => Wanted::ShortNeeds,
                "commit" => Wanted::CommitNeeds,
                _ => Wanted::Plan,
            };
            match plans::run(rt.alloc(), entries, plans, wanted) {
                Ok(counted) => match println!(rt; "{counted}") {
                    Ok(()) => ExitCode::SUCCESS,
                    Err(_) => ExitCode::from(NO_WORK),
                },
                Err(_) => ExitCode::from(NO_MEMORY),
            }
        }
        _ => ExitCode::from(NO_WORK),
    }
}
