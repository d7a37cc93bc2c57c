// What words say.
ghost use Rattle.std.specs.Prelude.{◌≡◌, ◌↔◌, IfOk, IfSome, Some};
ghost use Rattle.sp_command.specs.declared.task.Task.{Task as TaskOf};
ghost use Rattle.sp_command.specs.Bounds.{IsBounded};
ghost use Rattle.sp_command.specs.Grammar.{Says};
ghost use Rattle.sp_command.specs.Reading.{command_of, task_of, task_in, run_of, journal_of, make_of, stress_of};

use crate::options::Options;
use crate::reader::read_options;
use crate::values::shape_of;
use crate::{FileName, Run, Task};
use sp_io::Words;
use std::alloc::{AllocError, Global};

// The first word of a command line.
#[derive(Clone, Copy, Drop)]
pub(crate) enum Command {
    Play,
    Drill,
    Dump,
    Check,
    Compact,
    Make,
    Stress,
}

/// What the words of a command line (those after the program's name) ask for. `None` comes exactly where
/// they are not in the grammar. Costs the length of the words.
pub fn read_words(alloc: Global, words: &Words) -> Result<Option<Task>, AllocError>
    ensures says { IfOk result (λ o. (task : TaskOf) → (o ≡ Some task) ↔ Says words.now task) }
    ensures bounded { IfOk result (λ o. IfSome o IsBounded) }
{
    task_in(alloc, words)
}

fn task_in(alloc: Global, words: &Words) -> Result<Option<Task>, AllocError>
    ensures { IfOk result (λ o. o ≡ task_in words.now) }
{
    let Some(word) = words.word(0) else {
        return Ok(None);
    };
    let Some(command) = command_of(word) else {
        return Ok(None);
    };
    let Some(options) = read_options(alloc, words)? else {
        return Ok(None);
    };
    Ok(task_of(command, options))
}

#[tactic(auto, unfolding(crate::specs::Reading::command_of))]
fn command_of(word: &str) -> Option<Command>
    ensures { result ≡ command_of word.now }
{
    if word == "play" {
        Some(Command::Play)
    } else if word == "drill" {
        Some(Command::Drill)
    } else if word == "dump" {
        Some(Command::Dump)
    } else if word == "check" {
        Some(Command::Check)
    } else if word == "compact" {
        Some(Command::Compact)
    } else if word == "make" {
        Some(Command::Make)
    } else if word == "stress" {
        Some(Command::Stress)
    } else {
        None
    }
}

fn task_of(command: Command, options: Options) -> Option<Task>
    ensures { result ≡ task_of command options }
{
    match command {
        Command::Play => Some(Task::Play(run_of(options)?)),
        Command::Drill => Some(Task::Drill(run_of(options)?)),
        Command::Dump => Some(Task::Dump {
            journal: journal_of(options)?,
        }),
        Command::Check => Some(Task::Check {
            journal: journal_of(options)?,
        }),
        Command::Compact => Some(Task::Compact {
            journal: journal_of(options)?,
        }),
        Command::Make => make_of(&options),
        Command::Stress => stress_of(&options),
    }
}

// A run takes all options but those of a script.
fn run_of(options: Options) -> Option<Run>
    ensures { result ≡ run_of options }
{
    if !options.is_without_script() {
        return None;
    }
    let shape = shape_of(options.max, options.min)?;
    let audit = options.audit;
    Some(Run {
        journal: options.journal,
        shape,
        audit,
    })
}

// The journal, where it is the only option.
fn journal_of(options: Options) -> Option<FileName>
    ensures { result ≡ journal_of options }
{
    if options.is_without_script() && options.is_without_sizes() && !options.audit {
        options.journal
    } else {
        None
    }
}

fn make_of(options: &Options) -> Option<Task>
    ensures { result ≡ make_of options.now }
{
    if !options.is_without_run() || !options.is_without_sizes() {
        return None;
    }
    let seed = options.seed?;
    let count = options.count?;
    Some(Task::Make { seed, count })
}

fn stress_of(options: &Options) -> Option<Task>
    ensures { result ≡ stress_of options.now }
{
    if !options.is_without_run() {
        return None;
    }
    let seed = options.seed?;
    let count = options.count?;
    let shape = shape_of(options.max, options.min)?;
    Some(Task::Stress { seed, count, shape })
}
