// A reader that takes the lines of a source one by one.
ghost use Rattle.std.specs.Prelude.{◌≡◌, ◌≢◌, ◌⊎◌, ◌≤◌, ◌<◌, ◌+◌, ◌^◌, ℕ, List, [], ◌∷◌, ◌++◌, Option, true, false, IfOk, fold, length, slice_index_or, if◌then◌else◌};
ghost use Rattle.std.specs.Io.KnownBytes.{Appends};
ghost use Rattle.std.specs.Str.Lines.{strip_carriage_return};
ghost use Rattle.sp_io.specs.Faults.{Rose};
ghost use Rattle.sp_text.specs.Lines.{is_blank};
ghost use Rattle.sp_lines.specs.Cutting.{kept_more, cut_after, answered};
ghost use Rattle.sp_lines.specs.Taking.{line_of, CutsOff, CutsTo, HasTaken, IsTaken, ComesTo};

use crate::chunk::{Chunk, Filled};
use sp_io::{Sink, Source};
use sp_rect::Text;
use std::alloc::{AllocError, Global};

/// How many bytes of a line are kept: a longer one is bad or blank whatever follows.
const KEPT: usize = 514;

/// What a reader came to.
#[derive(Clone, Copy, Debug, PartialEq, Eq)]
pub enum Next {
    /// A line that is not blank.
    Line,
    /// The same, and the source has ended behind it.
    Last,
    /// The end of the source.
    End,
    /// The source failed.
    Failed,
    /// The sink failed, as it was flushed before the source was asked.
    Unwritten,
    /// As much was read as is read at most, and the source has not ended.
    Long,
    /// There was no memory.
    Memory,
}

/// Takes the lines of a source. A line comes without its LF and one CR before that; of more than 514
/// bytes only the first 514 are kept; blank ones are passed over.
#[derive(Drop)]
pub struct LineReader {
    pub(crate) chunk: Chunk,
    pub(crate) line: Text,
    pub(crate) ended: bool,
}

impl LineReader {
    /// Before the first line. Takes no memory.
    pub fn new(alloc: Global) -> LineReader
        ensures bytes { result.chunk.bytes ≡ [] }
        ensures room { result.chunk.room ≡ 2 ^ 32 }
    {
        LineReader {
            chunk: Chunk::new(),
            line: Text::new(alloc),
            ended: false,
        }
    }

    /// The line that was taken last.
    pub fn line(&self) -> &[u8]
        ensures { result.now ≡ line_of self.now.ended self.now.line }
    {
        if self.ended {
            self.line.bytes()
        } else {
            without_return(self.line.bytes())
        }
    }

    /// Takes the next line that is not blank, and asks the source only where no further line has ended. Before it
    /// does, it flushes the sink: whoever waits for an answer before the next line has it.
    /// `Failed` comes only where the count of the source rose, `Unwritten` only where that of the sink rose, and
    /// `Long` only where `MAX_INPUT` bytes were read. What is said of the lines holds where each call before
    /// answered `Line`. Costs the bytes that are cut, and takes memory for the line.
    pub fn next<S: Source, K: Sink>(&mut self, source: &mut S, sink: &mut K) -> Next
        ensures comes { (start : Option (List ℕ)) (lines : List (List ℕ)) → HasTaken start (S.left source.old) self.old.chunk [] lines
            → ComesTo result start (S.left source.new) self.new.chunk (line_of self.new.ended self.new.line) lines }
        ensures spoken { IsTaken result → is_blank (line_of self.new.ended self.new.line) ≡ false }
        ensures fewer { result ≡ Next.Line → self.new.chunk.room + length self.new.chunk.bytes < self.old.chunk.room + length self.old.chunk.bytes }
        ensures failed { result ≡ Next.Failed → Rose (S.read_faults source.old) (S.read_faults source.new) }
        ensures later { S.read_faults source.old ≤ S.read_faults source.new }
        ensures taken { Appends (K.taken sink.old) (K.taken sink.new) [] }
        ensures unwritten { result ≡ Next.Unwritten → Rose (K.write_faults sink.old) (K.write_faults sink.new) }
        ensures counts { K.write_faults sink.old ≤ K.write_faults sink.new }
        // Where it has asked the source, nothing is held back.
        ensures asked { result ≢ Next.Unwritten → (source.new ≡ source.old) ⊎ (K.holds_back sink.new ≡ false) }
    {
        self.ended = false;
        self.line.clear();
        loop {
            match self.cut() {
                Ok(true) => return Next::Line,
                Ok(false) => {}
                Err(_) => return Next::Memory,
            }
            if sink.flush().is_err() {
                return Next::Unwritten;
            }
            match self.chunk.fill(source) {
                Filled::Bytes => {}
                Filled::End => return self.last(),
                Filled::Failed => return Next::Failed,
                Filled::Full => return Next::Long,
            }
        }
    }

    // What is kept of a line where the source has ended is the last line, if it is not blank.
    fn last(&mut self) -> Next
        ensures last { result ≡ (if is_blank self.old.line then Next.End else Next.Last) }
        ensures line { self.new.line ≡ self.old.line }
        ensures ended { self.new.ended ≡ true }
        ensures chunk { self.new.chunk ≡ self.old.chunk }
    {
        self.ended = true;
        if is_blank(self.line.bytes()) {
            Next::End
        } else {
            Next::Last
        }
    }

    // Cuts the bytes that are pending, up to a line that is not blank.
    fn cut(&mut self) -> Result<bool, AllocError>
        ensures cut { IfOk result (λ found. CutsTo found self.old.chunk.bytes self.new.chunk.bytes self.old.line self.new.line) }
        ensures spoken { IfOk result (λ found. found ≡ true → is_blank (strip_carriage_return self.new.line) ≡ false) }
        ensures fewer { IfOk result (λ found. found ≡ true → length self.new.chunk.bytes < length self.old.chunk.bytes) }
        ensures room { self.new.chunk.room ≡ self.old.chunk.room }
        ensures ended { self.new.ended ≡ self.old.ended }
    {
        loop {
            self.keep_front()?;
            match self.chunk.next_byte() {
                Some(_) if end_line(&mut self.line) => return Ok(true),
                Some(_) => {}
                None => return Ok(false),
            }
        }
    }

    // Cuts the bytes before the next LF.
    fn keep_front(&mut self) -> Result<(), AllocError>
        ensures cut { IfOk result (λ _. CutsOff self.old.chunk.bytes self.new.chunk.bytes self.old.line [] self.new.line) }
        ensures stops { IfOk result (λ _. slice_index_or self.new.chunk.bytes 0 10 ≡ 10) }
        ensures fewer { length self.new.chunk.bytes ≤ length self.old.chunk.bytes }
        ensures room { self.new.chunk.room ≡ self.old.chunk.room }
        ensures ended { self.new.ended ≡ self.old.ended }
    {
        let front = self.chunk.front();
        keep_bytes(&mut self.line, front)?;
        let count = front.len();
        self.chunk.pass(count);
        Ok(())
    }
}

// Ends a line at its LF, and tells whether it is not blank; a blank one is emptied.
#[tactic(auto, unfolding(crate::specs::Cutting::cut_more))]
fn end_line(line: &mut Text) -> bool
    ensures lines { answered (cut_after line.old (10 ∷ [])).lines ≡ (if result then strip_carriage_return line.new ∷ [] else []) }
    ensures spoken { result ≡ true → is_blank (strip_carriage_return line.new) ≡ false }
    ensures rest { (cut_after line.old (10 ∷ [])).rest ≡ (if result then [] else line.new) }
{
    if is_blank(without_return(line.bytes())) {
        line.clear();
        return false;
    }
    true
}

// Adds bytes to what is kept of a line.
fn keep_bytes(line: &mut Text, bytes: &[u8]) -> Result<(), AllocError>
    ensures { IfOk result (λ _. line.new ≡ fold kept_more line.old bytes.now) }
{
    let room = KEPT.saturating_sub(line.bytes().len());
    line.push_bytes(&bytes[..room.min(bytes.len())])?;
    Ok(())
}

// The line without one CR at its end.
fn without_return(line: &[u8]) -> &[u8]
    ensures { result.now ≡ strip_carriage_return line.now }
{
    match line {
        [front @ .., b'\r'] => front,
        _ => line,
    }
}

// Whether the line is empty or a comment.
fn is_blank(line: &[u8]) -> bool
    ensures { result ≡ is_blank line.now }
{
    match line {
        [] => true,
        [first, ..] => *first == b'#',
    }
}
