//! The program `spatial`: rectangles with records, under serializable transactions.
#![tactic(auto)]

mod done;
mod ending;
mod making;
mod offline;

use offline::offline;
use sp_disk::FileShelf;
use sp_io::{Sink, StdSink, StdSource, Words};
use sp_runs::write_last;
use sp_text::End;
use std::env;
use std::io::{BufWriter, ErrorKind};
use std::process::ExitCode;

// The status where there is no memory for the words.
const NO_MEMORY: u8 = 6;

// Nothing is done but to say so.
fn lack_memory<K: Sink>(sink: &mut K) -> ExitCode {
    write_last(sink, End::Memory);
    ExitCode::from(NO_MEMORY)
}

// The words after the program's name go to `offline`, and its status is the program's. Words that are no
// text are no command, so none are handed on. Answers are held back up to the next read.
fn main(rt: HostRuntime) -> ExitCode {
    let Ok(writer) = BufWriter::new(rt.alloc(), rt.stdout()) else {
        return lack_memory(&mut StdSink::new(rt.stdout()));
    };
    let mut sink = StdSink::new(writer);
    let mut words = Words::new(rt.alloc());
    match env::args(&rt) {
        Ok(args) => {
            for word in args.skip(1) {
                if words.push(word.as_str()).is_err() {
                    return lack_memory(&mut sink);
                }
            }
        }
        Err(error) if error.kind() == ErrorKind::OutOfMemory => return lack_memory(&mut sink),
        Err(_) => {}
    }
    let mut source = StdSource::new(rt.stdin());
    let mut shelf = FileShelf::new(rt, rt.alloc());
    let done = offline(rt.alloc(), &words, &mut source, &mut sink, &mut shelf);
    ExitCode::from(done.status)
}

#[cfg(test)]
mod tests;
