// A generated script is played, and summed up.
ghost use Rattle.std.specs.Prelude.{◌≡◌, ◌<◌, ◌≤◌, ◌^◌, [], length, false};
ghost use Rattle.sp_io.specs.Faults.{Rose};
ghost use Rattle.sp_rect.specs.Serial.{Serial};
ghost use Rattle.sp_node.specs.Table.{IsShape};
ghost use Rattle.sp_script.specs.Script.{script_text};
ghost use Rattle.sp_script.specs.Summary.{summary_text};
ghost use Rattle.sp_runs.specs.Opening.{RunsInMemory};
ghost use Rattle.sp_runs.specs.Running.{IsTold, IsNotRun, IsCutShort};
ghost use Rattle.sp_stress.specs.Summing.{summary_of};
ghost use Rattle.sp_stress.specs.Stressing.{HearsScript, PlaysScript, EndsPlaying, EndsStress, WritesSummary};

use crate::generated::Generated;
use crate::silent::Silent;
use crate::summing::text_of_summary;
use sp_audit::Audit;
use sp_io::{Sink, write_all};
use sp_list::Text;
use sp_node::Shape;
use sp_rect::Records;
use sp_runs::{Language, Ran, run_in_memory, write_last};
use sp_script::script;
use sp_text::{End, Item, Items, Transcript};
use std::alloc::Global;

/// Plays the generated script of that seed, of `count` rounds of 12 lines, in memory, over a kernel without records, and writes the six lines of
/// its summary: `lines`, `commits`, `waits`, `deadlocks`, `refused` and `records`, each with its number. `shape` bounds the members of a node.
/// What is handed back is what the run heard and answered, and its audit; its end is that of the whole call.
///
/// | End | Comes |
/// |---|---|
/// | `Input` | the script was played to its end, and the summary written |
/// | `WriteFault` | only where the sink's count of faults rose: the script was played to its end, and a front of the summary written |
/// | `Memory` | there was no memory: `! memory` is written, or a front of it where the sink's count rose |
///
/// Costs what the events of the script cost, and a plain store that runs its commits.
pub fn stress<K: Sink>(alloc: Global, seed: u64, count: u64, shape: Shape, sink: &mut K) -> Ran
    requires seed { seed < 2147483647 }
    requires count { count ≤ 10000 }
    requires shape { IsShape shape }
    ensures ends { EndsStress result.transcript.end }
    ensures heard { HearsScript result.transcript.end (script_text seed count) result.transcript.items }
    ensures runs { RunsInMemory Language.Commands shape result.transcript.end result.transcript.items result.audit }
    ensures told { IsTold result.transcript.end result.transcript.items result.audit }
    ensures serial { Serial result.audit.base result.audit.commits }
    ensures written { WritesSummary result.transcript.end (K.taken sink.old) (K.taken sink.new) (K.write_faults sink.old) (K.write_faults sink.new) (summary_text (summary_of result.transcript.items result.audit)) }
    // Where all was written, nothing is held back.
    ensures handed { result.transcript.end ≡ End.Input → K.holds_back sink.new ≡ false }
    ensures write_fault { result.transcript.end ≡ End.WriteFault → Rose (K.write_faults sink.old) (K.write_faults sink.new) }
    ensures later { K.write_faults sink.old ≤ K.write_faults sink.new }
{
    let Ran { transcript, audit } = play_script(alloc, seed, count, shape);
    let Transcript { items, end } = transcript;
    let end = tell(alloc, end, items.as_slice(), &audit, sink);
    Ran {
        transcript: Transcript { items, end },
        audit,
    }
}

// Plays the script in memory, and forgets the texts of the answers.
fn play_script(alloc: Global, seed: u64, count: u64, shape: Shape) -> Ran
    requires seed { seed < 2147483647 }
    requires count { count ≤ 10000 }
    requires shape { IsShape shape }
    ensures ends { EndsPlaying result.transcript.end }
    ensures plays { PlaysScript shape (script_text seed count) result.transcript.end result.transcript.items result.audit }
{
    match script(alloc, seed, count) {
        Ok(text) => play_text(alloc, text, shape),
        Err(_) => unplayed(alloc),
    }
}

// Plays a script that is shorter than what a run reads at most.
fn play_text(alloc: Global, text: Text, shape: Shape) -> Ran
    requires short { length text < 2 ^ 32 }
    requires shape { IsShape shape }
    ensures ends { EndsPlaying result.transcript.end }
    ensures plays { PlaysScript shape text result.transcript.end result.transcript.items result.audit }
{
    let mut source = Generated { text, at: 0 };
    let mut sink = Silent;
    run_in_memory(
        alloc,
        Language::Commands,
        shape,
        false,
        &mut source,
        &mut sink,
    )
}

// There was no memory for the script: nothing is heard.
fn unplayed(alloc: Global) -> Ran
    ensures end { result.transcript.end ≡ End.Memory }
    ensures none { IsNotRun result.transcript.items result.audit }
    ensures serial { Serial result.audit.base result.audit.commits }
{
    let audit = Audit::new(alloc, Records::new(alloc));
    let _serial = audit.commits();
    Ran {
        transcript: Transcript {
            items: Items::new(alloc),
            end: End::Memory,
        },
        audit,
    }
}

// Writes the summary where the script was played to its end, or else the line of the fault, and says how the call ends.
fn tell<K: Sink>(alloc: Global, end: End, items: &[Item], audit: &Audit, sink: &mut K) -> End
    requires ends { EndsPlaying end }
    requires base { audit.now.base ≡ [] }
    ensures ends { EndsStress result }
    ensures short { IsCutShort end result }
    ensures written { WritesSummary result (K.taken sink.old) (K.taken sink.new) (K.write_faults sink.old) (K.write_faults sink.new) (summary_text (summary_of items.now audit.now)) }
    ensures handed { result ≡ End.Input → K.holds_back sink.new ≡ false }
    ensures write_fault { result ≡ End.WriteFault → Rose (K.write_faults sink.old) (K.write_faults sink.new) }
    ensures later { K.write_faults sink.old ≤ K.write_faults sink.new }
{
    match end {
        End::Input => tell_summary(alloc, items, audit, sink),
        _ => {
            write_last(sink, end);
            end
        }
    }
}

// Writes the summary.
fn tell_summary<K: Sink>(alloc: Global, items: &[Item], audit: &Audit, sink: &mut K) -> End
    requires { audit.now.base ≡ [] }
    ensures ends { EndsStress result }
    ensures written { WritesSummary result (K.taken sink.old) (K.taken sink.new) (K.write_faults sink.old) (K.write_faults sink.new) (summary_text (summary_of items.now audit.now)) }
    ensures handed { result ≡ End.Input → K.holds_back sink.new ≡ false }
    ensures write_fault { result ≡ End.WriteFault → Rose (K.write_faults sink.old) (K.write_faults sink.new) }
    ensures later { K.write_faults sink.old ≤ K.write_faults sink.new }
{
    let Ok(text) = text_of_summary(alloc, items, audit) else {
        write_last(sink, End::Memory);
        return End::Memory;
    };
    match write_all(sink, text.bytes()) {
        Ok(()) => End::Input,
        Err(_) => End::WriteFault,
    }
}
