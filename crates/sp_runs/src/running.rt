// A run over a kernel that is there.
ghost use Rattle.std.specs.Prelude.{◌≡◌, ◌≤◌, [], None, IsTrue, false};
ghost use Rattle.sp_io.specs.Faults.{Rose};
ghost use Rattle.sp_disk.specs.Faults.{Rose as DiskRose};
ghost use Rattle.sp_disk.specs.Moments.{LeavesOnly};
ghost use Rattle.sp_journal.specs.Kinds.{KeepsOneOf};
ghost use Rattle.sp_text.specs.declared.types.End.TheVariants.{ReadFault, WriteFault, DiskFault, Input};
ghost use Rattle.sp_text.specs.Texts.{render};
ghost use Rattle.sp_lines.specs.Hearing.{EndsRun};
ghost use Rattle.sp_lines.specs.Reading.{ReadsTo};
ghost use Rattle.sp_audit.specs.History.{History};
ghost use Rattle.sp_runs.specs.Scripts.{form_of, IsLeftIn};
ghost use Rattle.sp_runs.specs.Running.{IsAuditOf, Runs};
ghost use Rattle.sp_runs.specs.Writing.{audit_line, Writes};

use crate::Language;
use crate::auditing::tell_audit;
use crate::ending::write_last;
use crate::listening::listen;
use sp_disk::Disk;
use sp_io::{Sink, Source};
use sp_kernel::Kernel;
use sp_text::Transcript;
use std::alloc::Global;

/// Runs the script that the source gives over the kernel, writes the answers, and behind them the audit's line where it is asked for; at a fault,
/// the fault's line. The kernel is one in which no session has a transaction and that was not stopped.
///
/// Each end comes as the contract of the language's run says (`sp_desk::play`, `sp_drill::drill`); a run that came to the end of its input may still end
/// by `WriteFault` or `Memory`, as the audit's line is written. Costs what the events cost, and the audit where it is written.
pub fn run<D: Disk, S: Source, K: Sink>(
    alloc: Global,
    language: Language,
    audited: bool,
    kernel: &mut Kernel<D>,
    source: &mut S,
    sink: &mut K,
) -> Transcript
    ensures read { ReadsTo (form_of language) result.end (S.left source.old) (S.left source.new) result.items }
    // The audit's line is that of each audit which is the kernel's.
    ensures written { (audit : History) → IsAuditOf kernel.new.kernel audit → Writes result.end (K.taken sink.old) (K.taken sink.new) (K.write_faults sink.old) (K.write_faults sink.new) (render (form_of language) result.items) (audit_line audited audit) }
    ensures runs { kernel.old.kernel.sessions ≡ [] → Runs language kernel.old.kernel result.end result.items kernel.new.kernel }
    // A stop at any moment leaves a file that is recovered as a kernel on the way has it, and that keeps the kind and the header of one that a stop before the run
    // might have left.
    ensures crash { IsTrue (D.tells kernel.old.disk) → LeavesOnly (D.moment kernel.old.disk) (D.moment kernel.new.disk) (D.images kernel.old.disk) (D.images kernel.new.disk) (IsLeftIn language kernel.old.kernel kernel.new.kernel) }
    ensures kinds { IsTrue (D.tells kernel.old.disk) → LeavesOnly (D.moment kernel.old.disk) (D.moment kernel.new.disk) (D.images kernel.old.disk) (D.images kernel.new.disk) (KeepsOneOf (D.images kernel.old.disk (D.moment kernel.old.disk))) }
    ensures read_fault { result.end ≡ ReadFault → Rose (S.read_faults source.old) (S.read_faults source.new) }
    ensures write_fault { result.end ≡ WriteFault → Rose (K.write_faults sink.old) (K.write_faults sink.new) }
    ensures disk_fault { kernel.old.kernel.stopped ≡ None → result.end ≡ DiskFault → DiskRose (D.faults kernel.old.disk) (D.faults kernel.new.disk) }
    ensures disk_later { D.faults kernel.old.disk ≤ D.faults kernel.new.disk }
    ensures tells { D.tells kernel.new.disk ≡ D.tells kernel.old.disk }
    // At the end of the input nothing that was written is held back.
    ensures handed { result.end ≡ Input → K.holds_back sink.new ≡ false }
    ensures ends { EndsRun result.end }
{
    let Transcript { items, end } = listen(alloc, language, kernel, source, sink);
    let end = tell_audit(alloc, audited, end, kernel.audit(), sink);
    write_last(sink, end);
    Transcript { items, end }
}
