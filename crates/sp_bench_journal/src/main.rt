//! The program that `bench/journal` times: it writes batches to a journal on a real file, or reads one. It
//! reads no clock; the script times it as a whole.
#![tactic(auto)]

mod work;

use sp_disk::{FileShelf, Shelf, ShelfFault};
use sp_journal::inspect;
use std::alloc::AllocError;
use std::env;
use std::process::ExitCode;

// Why a run ended early.
#[derive(Clone, Copy)]
pub enum Stop {
    Words,
    Disk,
    Memory,
}

impl From<AllocError> for Stop {
    fn from(_: AllocError) -> Self {
        Stop::Memory
    }
}

impl From<ShelfFault> for Stop {
    fn from(_: ShelfFault) -> Self {
        Stop::Disk
    }
}

// What a run counts: batches, commits and records.
#[derive(Clone, Copy)]
pub struct Counts {
    pub batches: u64,
    pub commits: u64,
    pub records: u64,
}

fn run(rt: HostRuntime) -> Result<Counts, Stop> {
    let alloc = rt.alloc();
    let Ok(args) = env::args(&rt) else {
        return Err(Stop::Words);
    };
    let mut words = Vec::new(alloc);
    for word in args.skip(1) {
        words.push(word).map_err(|_| Stop::Memory)?;
    }
    match words.as_slice() {
        [kind, path] if kind.as_str() == "recover" => {
            let mut disk = FileShelf::new(rt, alloc).fetch(path.as_str())?;
            let found = inspect(alloc, &mut disk).map_err(|_| Stop::Disk)?;
            Ok(Counts {
                batches: found.batches,
                commits: found.commits,
                records: found.records.len() as u64,
            })
        }
        [kind, path, batches, size] if kind.as_str() == "write" => {
            let (Ok(batches), Ok(size)) = (batches.parse::<u32>(), size.parse::<u16>()) else {
                return Err(Stop::Words);
            };
            let disk = FileShelf::new(rt, alloc).fetch(path.as_str())?;
            work::write(alloc, disk, batches, size)
        }
        _ => Err(Stop::Words),
    }
}

fn main(rt: HostRuntime) -> ExitCode {
    match run(rt) {
        Ok(counts) => match println!(rt;
            "{} {} {}",
            counts.batches, counts.commits, counts.records
        ) {
            Ok(()) => ExitCode::SUCCESS,
            Err(_) => ExitCode::from(4),
        },
        Err(Stop::Words) => ExitCode::from(1),
        Err(Stop::Disk) => ExitCode::from(2),
        Err(Stop::Memory) => ExitCode::from(3),
    }
}
