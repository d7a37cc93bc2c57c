// The texts that tell of a journal.
ghost use Rattle.std.specs.Prelude.{◌≡◌, ◌++◌, [], IfOk, OnOk, map, decimal, codes};
ghost use Rattle.std.specs.Fmt.{signed_decimal};
ghost use Rattle.std.specs.List.{flat_map};
ghost use Rattle.sp_text.specs.Texts.{spaced, corner_words, record_words, line_text};
ghost use Rattle.sp_report.specs.Report.{dump_text, check_text, compact_text};

use sp_journal::Recovered;
use sp_list::Text;
use sp_rect::{Record, Rect};
use std::alloc::{AllocError, Global};

/// The line `found N`, and a line `rec ID X1 Y1 X2 Y2 VALUE` for each of the N records, in the order in
/// which they stand: a journal's stand by ascending id. Costs the length of the text.
pub fn dump_text(alloc: Global, found: &Recovered) -> Result<Text, AllocError>
    ensures { IfOk result (λ text. text ≡ dump_text found.now) }
{
    let mut text = Text::new(alloc);
    push_count(&mut text, found.records.len() as u64)?;
    push_records(&mut text, found.records.as_slice())?;
    Ok(text)
}

/// The line `whole B C R`: how many batches, commits and records were recovered.
#[tactic(auto, unfolding(crate::specs::Report::check_text))]
pub fn check_text(alloc: Global, found: &Recovered) -> Result<Text, AllocError>
    ensures { IfOk result (λ text. text ≡ check_text found.now) }
{
    let mut text = Text::new(alloc);
    text.push_str("whole")?;
    push_spaced_number(&mut text, found.batches)?;
    push_spaced_number(&mut text, found.commits)?;
    push_spaced_number(&mut text, found.records.len() as u64)?;
    text.push_str("\n")?;
    Ok(text)
}

/// The line `compacted G R`: the new generation, and how many records it begins with.
#[tactic(auto, unfolding(crate::specs::Report::compact_text))]
pub fn compact_text(alloc: Global, generation: u64, records: u64) -> Result<Text, AllocError>
    ensures { IfOk result (λ text. text ≡ compact_text generation records) }
{
    let mut text = Text::new(alloc);
    text.push_str("compacted")?;
    push_spaced_number(&mut text, generation)?;
    push_spaced_number(&mut text, records)?;
    text.push_str("\n")?;
    Ok(text)
}

#[tactic(auto, unfolding(sp_text::specs::Texts::line_text))]
fn push_count(text: &mut Text, count: u64) -> Result<(), AllocError>
    ensures { OnOk result (text.new ≡ text.old ++ line_text [] (codes "found " ++ decimal count)) }
{
    text.push_str("found ")?;
    text.push_number(count)?;
    text.push_str("\n")
}

fn push_records(text: &mut Text, records: &[Record]) -> Result<(), AllocError>
    ensures { OnOk result (text.new ≡ text.old ++ flat_map (line_text []) (map record_words records.now)) }
{
    for record in records {
        push_record(text, record)?;
    }
    Ok(())
}

#[tactic(auto, unfolding(sp_text::specs::Texts::line_text, sp_text::specs::Texts::record_words))]
fn push_record(text: &mut Text, entry: &Record) -> Result<(), AllocError>
    ensures { OnOk result (text.new ≡ text.old ++ line_text [] (record_words entry.now)) }
{
    text.push_str("rec")?;
    push_spaced_number(text, entry.id)?;
    push_corners(text, &entry.rect)?;
    push_spaced(text, entry.value.bytes())?;
    text.push_str("\n")
}

#[tactic(auto, unfolding(sp_text::specs::Texts::corner_words))]
fn push_corners(text: &mut Text, rect: &Rect) -> Result<(), AllocError>
    ensures { OnOk result (text.new ≡ text.old ++ corner_words rect.now) }
{
    push_spaced_signed(text, rect.x1())?;
    push_spaced_signed(text, rect.y1())?;
    push_spaced_signed(text, rect.x2())?;
    push_spaced_signed(text, rect.y2())
}

#[tactic(auto, unfolding(sp_text::specs::Texts::spaced))]
fn push_spaced(text: &mut Text, word: &[u8]) -> Result<(), AllocError>
    ensures { OnOk result (text.new ≡ text.old ++ spaced word.now) }
{
    text.push_str(" ")?;
    text.push_bytes(word)
}

#[tactic(auto, unfolding(sp_text::specs::Texts::spaced))]
fn push_spaced_number(text: &mut Text, number: u64) -> Result<(), AllocError>
    ensures { OnOk result (text.new ≡ text.old ++ spaced (decimal number)) }
{
    text.push_str(" ")?;
    text.push_number(number)
}

#[tactic(auto, unfolding(sp_text::specs::Texts::spaced))]
fn push_spaced_signed(text: &mut Text, number: i32) -> Result<(), AllocError>
    ensures { OnOk result (text.new ≡ text.old ++ spaced (signed_decimal number)) }
{
    text.push_str(" ")?;
    text.push_signed(number)
}
