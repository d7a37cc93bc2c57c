// A script in either language is heard over a kernel.
ghost use Rattle.std.specs.Prelude.{◌≡◌, ◌≤◌, [], None, IsTrue};
ghost use Rattle.sp_io.specs.Faults.{Rose};
ghost use Rattle.sp_disk.specs.Faults.{Rose as DiskRose};
ghost use Rattle.sp_disk.specs.Moments.{LeavesOnly};
ghost use Rattle.sp_journal.specs.Kinds.{KeepsOneOf};
ghost use Rattle.sp_text.specs.declared.types.End.TheVariants.{Input, ReadFault, WriteFault, DiskFault};
ghost use Rattle.sp_text.specs.Texts.{render};
ghost use Rattle.sp_lines.specs.Hearing.{EndsRun};
ghost use Rattle.sp_lines.specs.Reading.{ReadsTo, WritesTo};
ghost use Rattle.sp_runs.specs.Scripts.{form_of, RunsBy, ToldIn, ClosesIn, IsLeftIn};

use crate::Language;
use sp_desk::play;
use sp_disk::Disk;
use sp_drill::drill;
use sp_io::{Sink, Source};
use sp_kernel::Kernel;
use sp_text::Transcript;
use std::alloc::Global;

// Hears the script that the source gives, and writes the answers.
pub(crate) fn listen<D: Disk, S: Source, K: Sink>(
    alloc: Global,
    language: Language,
    kernel: &mut Kernel<D>,
    source: &mut S,
    sink: &mut K,
) -> Transcript
    ensures read { ReadsTo (form_of language) result.end (S.left source.old) (S.left source.new) result.items }
    ensures written { WritesTo result.end (K.taken sink.old) (K.taken sink.new) (render (form_of language) result.items) }
    ensures answers { RunsBy language result.end kernel.old.kernel result.items kernel.new.kernel }
    ensures told { kernel.old.kernel.sessions ≡ [] → ToldIn language result.end kernel.old.kernel.commits result.items kernel.new.kernel }
    ensures closed { result.end ≡ Input → ClosesIn language kernel.new.kernel }
    ensures crash { IsTrue (D.tells kernel.old.disk) → LeavesOnly (D.moment kernel.old.disk) (D.moment kernel.new.disk) (D.images kernel.old.disk) (D.images kernel.new.disk) (IsLeftIn language kernel.old.kernel kernel.new.kernel) }
    ensures kinds { IsTrue (D.tells kernel.old.disk) → LeavesOnly (D.moment kernel.old.disk) (D.moment kernel.new.disk) (D.images kernel.old.disk) (D.images kernel.new.disk) (KeepsOneOf (D.images kernel.old.disk (D.moment kernel.old.disk))) }
    ensures read_fault { result.end ≡ ReadFault → Rose (S.read_faults source.old) (S.read_faults source.new) }
    ensures write_fault { result.end ≡ WriteFault → Rose (K.write_faults sink.old) (K.write_faults sink.new) }
    ensures disk_fault { kernel.old.kernel.stopped ≡ None → result.end ≡ DiskFault → DiskRose (D.faults kernel.old.disk) (D.faults kernel.new.disk) }
    ensures later { K.write_faults sink.old ≤ K.write_faults sink.new }
    ensures disk_later { D.faults kernel.old.disk ≤ D.faults kernel.new.disk }
    ensures tells { D.tells kernel.new.disk ≡ D.tells kernel.old.disk }
    ensures ends { EndsRun result.end }
{
    match language {
        Language::Commands => play(alloc, kernel, source, sink),
        Language::Events => drill(alloc, kernel, source, sink),
    }
}
