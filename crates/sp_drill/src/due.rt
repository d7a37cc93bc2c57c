// What is due after an answer.
ghost use Rattle.std.specs.Prelude.{◌≢◌};
ghost use Rattle.sp_drill.specs.Hearing.{IsDueAfter};

use sp_event::Answer;

/// What is due after an answer.
#[derive(Clone, Copy)]
pub enum Due {
    /// The next line.
    Line,
    /// The places of a batch, from this one on.
    Places(u64),
    /// The end of the run: the disk failed.
    End,
}

/// What is due after the answer, which is not want of memory.
pub(crate) fn due_after(answer: &Answer) -> Due
    requires { answer.now ≢ Answer.Memory }
    ensures { IsDueAfter answer.now result }
{
    match answer {
        Answer::DiskFault => Due::End,
        Answer::Durable { first, .. } => Due::Places(*first),
        _ => Due::Line,
    }
}
