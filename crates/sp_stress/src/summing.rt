// The summary of a run.
ghost use Rattle.std.specs.Prelude.{◌≡◌, [], IfOk, OnOk, length, filter};
ghost use Rattle.sp_rect.specs.Serial.{records_after, after_all};
ghost use Rattle.sp_script.specs.Summary.{summary_text};
ghost use Rattle.sp_stress.specs.Summing.{is_of_line, says_waits, says_refused, tells_such, summary_of};

use sp_audit::{Audit, Commit};
use sp_event::Answer;
use sp_list::Text;
use sp_plain::Plain;
use sp_rect::Answered;
use sp_script::{Summary, push_summary};
use sp_text::Item;
use std::alloc::{AllocError, Global};

// The six lines of the summary of a run with these items and this audit.
pub(crate) fn text_of_summary(
    alloc: Global,
    items: &[Item],
    audit: &Audit,
) -> Result<Text, AllocError>
    requires { audit.now.base ≡ [] }
    ensures { IfOk result (λ text. text ≡ summary_text (summary_of items.now audit.now)) }
{
    let mut text = Text::new(alloc);
    let summary = summary_of(alloc, items, audit)?;
    push_summary(&mut text, &summary)?;
    Ok(text)
}

// What came of a run with these items and this audit. Costs a plain store that runs the commits.
fn summary_of(alloc: Global, items: &[Item], audit: &Audit) -> Result<Summary, AllocError>
    requires { audit.now.base ≡ [] }
    ensures { IfOk result (λ s. s ≡ summary_of items.now audit.now) }
{
    let records = records_left(alloc, audit.commits())?;
    Ok(Summary {
        lines: count_lines(items),
        commits: audit.commits().len() as u64,
        waits: count_waits(items),
        deadlocks: audit.ended().len() as u64,
        refused: count_refused(items),
        records,
    })
}

// How many items answer a line of their own.
fn count_lines(items: &[Item]) -> u64
    ensures { result ≡ length (filter is_of_line items.now) }
{
    items.iter().filter(|item| is_of_line(item)).count() as u64
}

// How many items tell that a command waits.
fn count_waits(items: &[Item]) -> u64
    ensures { result ≡ length (filter (tells_such says_waits) items.now) }
{
    items.iter().filter(|item| tells_waits(item)).count() as u64
}

// How many items tell that a command is refused.
fn count_refused(items: &[Item]) -> u64
    ensures { result ≡ length (filter (tells_such says_refused) items.now) }
{
    items.iter().filter(|item| tells_refused(item)).count() as u64
}

#[tactic(auto, unfolding(crate::specs::Summing::is_of_line))]
fn is_of_line(item: &Item) -> bool
    ensures { result ≡ is_of_line item.now }
{
    match item {
        Item::Bad { .. } => true,
        Item::Told { late, .. } | Item::Stepped { late, .. } => !late,
    }
}

#[tactic(auto, unfolding(crate::specs::Summing::tells_such, crate::specs::Summing::says_waits))]
fn tells_waits(item: &Item) -> bool
    ensures { result ≡ tells_such says_waits item.now }
{
    matches!(
        item,
        Item::Told {
            answer: Answer::Waits(..),
            ..
        }
    )
}

#[tactic(auto, unfolding(crate::specs::Summing::tells_such, crate::specs::Summing::says_refused))]
fn tells_refused(item: &Item) -> bool
    ensures { result ≡ tells_such says_refused item.now }
{
    matches!(
        item,
        Item::Told {
            answer: Answer::Refused(_),
            ..
        }
    )
}

// How many records the commits leave, run one after the other on a plain store without records.
fn records_left(alloc: Global, commits: &[Commit]) -> Result<u64, AllocError>
    ensures { IfOk result (λ n. n ≡ length (after_all [] commits.now)) }
{
    let mut plain = Plain::new(alloc);
    'commits: for commit in commits {
        run_pairs(&mut plain, commit.ops.as_slice())?;
    }
    Ok(plain.records().len() as u64)
}

// Runs the operations of these pairs one after the other.
fn run_pairs(plain: &mut Plain, pairs: &[Answered]) -> Result<(), AllocError>
    ensures { OnOk result (plain.new ≡ records_after plain.old pairs.now) }
{
    'pairs: for pair in pairs {
        let _reply = plain.apply(&pair.op)?;
    }
    Ok(())
}
