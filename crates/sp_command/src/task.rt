// What a command line asks for.
use crate::FileName;
use sp_node::Shape;

/// What the program is asked to do.
#[derive(Drop)]
pub enum Task {
    /// Run a script of lines.
    Play(Run),
    /// Run one event per line.
    Drill(Run),
    /// Write the records of a journal.
    Dump { journal: FileName },
    /// Count what a journal holds.
    Check { journal: FileName },
    /// Write a journal anew, without its history.
    Compact { journal: FileName },
    /// Write the script of this seed, with that many rounds.
    Make { seed: u64, count: u64 },
    /// Play that script, and write a summary.
    Stress { seed: u64, count: u64, shape: Shape },
}

/// How a script is run.
#[derive(Drop)]
pub struct Run {
    /// Where the commits are kept, if they are.
    pub journal: Option<FileName>,
    /// The sizes of the index's nodes.
    pub shape: Shape,
    /// Whether the audit is written at the end.
    pub audit: bool,
}
