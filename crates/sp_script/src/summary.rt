// The summary of playing a script.
ghost use Rattle.std.specs.Prelude.{◌≡◌, ◌++◌, OnOk};
ghost use Rattle.sp_script.specs.Summary.{counted, summary_text};

use sp_list::Text;
use std::alloc::AllocError;

/// What came of a script that was played.
#[derive(Clone, Copy, Debug, PartialEq, Eq)]
pub struct Summary {
    /// The lines of the script.
    pub lines: u64,
    /// The transactions that were committed.
    pub commits: u64,
    /// The answers that an operation waits, late ones too.
    pub waits: u64,
    /// The deadlocks.
    pub deadlocks: u64,
    /// The answers that a command is refused.
    pub refused: u64,
    /// The records after the last commit.
    pub records: u64,
}

/// Adds the six lines of the summary. Where there is no memory some of them may have been added.
#[tactic(auto, unfolding(crate::specs::Summary::summary_text))]
pub fn push_summary(text: &mut Text, summary: &Summary) -> Result<(), AllocError>
    ensures { OnOk result (text.new ≡ text.old ++ summary_text summary.now) }
{
    push_counted(text, "lines", summary.lines)?;
    push_counted(text, "commits", summary.commits)?;
    push_counted(text, "waits", summary.waits)?;
    push_counted(text, "deadlocks", summary.deadlocks)?;
    push_counted(text, "refused", summary.refused)?;
    push_counted(text, "records", summary.records)
}

#[tactic(auto, unfolding(crate::specs::Summary::counted))]
fn push_counted(text: &mut Text, word: &str, number: u64) -> Result<(), AllocError>
    ensures { OnOk result (text.new ≡ text.old ++ counted word.now number) }
{
    text.push_str(word)?;
    text.push_str(" ")?;
    text.push_number(number)?;
    text.push_str("\n")
}
