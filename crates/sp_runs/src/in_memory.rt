// A run over a kernel in memory.
ghost use Rattle.std.specs.Prelude.{◌≡◌, ◌≢◌, [], None, IfOk, false};
ghost use Rattle.sp_io.specs.Faults.{Rose};
ghost use Rattle.sp_rect.specs.Serial.{Serial};
ghost use Rattle.sp_node.specs.Table.{IsShape};
ghost use Rattle.sp_text.specs.Texts.{render};
ghost use Rattle.sp_lines.specs.Hearing.{EndsRun};
ghost use Rattle.sp_lines.specs.Reading.{ReadsTo};
ghost use Rattle.sp_model.specs.Opening.{IsOpened};
ghost use Rattle.sp_runs.specs.Scripts.{form_of};
ghost use Rattle.sp_runs.specs.Running.{IsNotRun, IsTold};
ghost use Rattle.sp_runs.specs.Opening.{RunsInMemory};
ghost use Rattle.sp_runs.specs.Writing.{audit_line, last_line, Writes, WritesOrFails};

use crate::Language;
use crate::ending::write_last;
use crate::running::run;
use sp_audit::Audit;
use sp_disk::HonestDisk;
use sp_io::{Sink, Source};
use sp_kernel::Kernel;
use sp_node::Shape;
use sp_rect::Records;
use sp_text::{End, Items, Transcript};
use std::alloc::{AllocError, Global};

/// What a run leaves: what was heard and answered, and the audit.
#[derive(Drop)]
pub struct Ran {
    pub transcript: Transcript,
    pub audit: Audit,
}

/// Runs the script that the source gives over a kernel without records, whose journal is kept in memory and forgotten. `shape` bounds the members
/// of a node. Where there is no memory for the kernel, nothing is heard. No disk fails.
pub fn run_in_memory<S: Source, K: Sink>(
    alloc: Global,
    language: Language,
    shape: Shape,
    audited: bool,
    source: &mut S,
    sink: &mut K,
) -> Ran
    requires { IsShape shape }
    ensures runs { RunsInMemory language shape result.transcript.end result.transcript.items result.audit }
    ensures told { IsTold result.transcript.end result.transcript.items result.audit }
    ensures serial { Serial result.audit.base result.audit.commits }
    ensures read { ReadsTo (form_of language) result.transcript.end (S.left source.old) (S.left source.new) result.transcript.items }
    ensures written { Writes result.transcript.end (K.taken sink.old) (K.taken sink.new) (K.write_faults sink.old) (K.write_faults sink.new) (render (form_of language) result.transcript.items) (audit_line audited result.audit) }
    ensures read_fault { result.transcript.end ≡ End.ReadFault → Rose (S.read_faults source.old) (S.read_faults source.new) }
    ensures write_fault { result.transcript.end ≡ End.WriteFault → Rose (K.write_faults sink.old) (K.write_faults sink.new) }
    // At the end of the input nothing that was written is held back.
    ensures handed { result.transcript.end ≡ End.Input → K.holds_back sink.new ≡ false }
    ensures ends { EndsRun result.transcript.end }
    ensures no_disk { result.transcript.end ≢ End.DiskFault }
{
    let Ok(mut kernel) = start_in_memory(alloc, shape) else {
        return unstarted(alloc, sink, End::Memory);
    };
    let _begins = kernel.audit();
    let transcript = run(alloc, language, audited, &mut kernel, source, sink);
    let (audit, _) = kernel.finish();
    let _serial = audit.commits();
    Ran { transcript, audit }
}

// A kernel without records. Its disk is empty and never fails, so it is only memory that can be missing.
fn start_in_memory(alloc: Global, shape: Shape) -> Result<Kernel<HonestDisk>, AllocError>
    requires { IsShape shape }
    ensures { IfOk result (λ kernel. IsOpened shape [] kernel.kernel) }
{
    let disk = HonestDisk::new(alloc)?;
    match Kernel::start(alloc, disk, shape) {
        Ok(kernel) => Ok(kernel),
        Err(_) => Err(AllocError),
    }
}

// No kernel was started: the fault's line is written.
pub(crate) fn unstarted<K: Sink>(alloc: Global, sink: &mut K, end: End) -> Ran
    ensures end { result.transcript.end ≡ end }
    ensures none { IsNotRun result.transcript.items result.audit }
    ensures serial { Serial result.audit.base result.audit.commits }
    ensures written { WritesOrFails (K.taken sink.old) (K.taken sink.new) (K.write_faults sink.old) (K.write_faults sink.new) (last_line end) }
{
    write_last(sink, end);
    let audit = Audit::new(alloc, Records::new(alloc));
    let _serial = audit.commits();
    Ran {
        transcript: Transcript {
            items: Items::new(alloc),
            end,
        },
        audit,
    }
}
