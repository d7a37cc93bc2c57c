// A whole script of events.
ghost use Rattle.std.specs.Prelude.{◌≡◌, ◌≤◌, ◌^◌, [], IsTrue};
ghost use Rattle.sp_io.specs.Faults.{Rose};
ghost use Rattle.sp_disk.specs.Faults.{Rose as DiskRose};
ghost use Rattle.sp_disk.specs.Moments.{LeavesOnly};
ghost use Rattle.sp_journal.specs.Kinds.{KeepsOneOf};
ghost use Rattle.sp_rect.specs.Serial.{Serial};
ghost use Rattle.sp_text.specs.declared.form.Form.TheVariants.{Drill};
ghost use Rattle.sp_text.specs.Texts.{render};
ghost use Rattle.sp_lines.specs.Hearing.{EndsRun, RunsTo};
ghost use Rattle.sp_lines.specs.Reading.{ReadsTo, WritesTo};
ghost use Rattle.sp_drill.specs.Leading.{IsLeftBetween};
ghost use Rattle.sp_drill.specs.Drilling.{Next, DrillsTo};
ghost use Rattle.sp_drill.specs.Hearing.{IsReady, Goes, Stops};
ghost use Rattle.sp_drill.specs.Telling.{ToldBy};

use crate::Driller;
use sp_disk::Disk;
use sp_io::{Sink, Source};
use sp_kernel::Kernel;
use sp_lines::{LineReader, Next as Came, end_of};
use sp_text::{End, Transcript};
use std::alloc::Global;

/// Hears the script that the source gives: each line is an event of the kernel, and its answer is written to the sink before the next line is
/// heard. A line that is no event is told so, and changes nothing. Where an answer says that a batch is on the disk, a commit event is added for
/// each of its sessions, in the order of their places, as late items. At the end of the input nothing is added.
///
/// It ends by `Input` where the script was read to its end and all was written; by `ReadFault`, `WriteFault` or `DiskFault` only where that
/// object's count rose; and by `Long` where as much was read as is read at most, and the source has not ended. A fault of the disk is the answer to
/// a flush, the last item. With `Memory` the kernel may be one event further than the items tell. Whatever the end, a stop at any moment leaves a
/// file that is recovered as a kernel on the way has it, and that keeps the kind and the header of one that a stop before the run might have left. Costs what the
/// events cost.
pub fn drill<D: Disk, S: Source, K: Sink>(
    alloc: Global,
    kernel: &mut Kernel<D>,
    source: &mut S,
    sink: &mut K,
) -> Transcript
    ensures read { ReadsTo Drill result.end (S.left source.old) (S.left source.new) result.items }
    ensures written { WritesTo result.end (K.taken sink.old) (K.taken sink.new) (render Drill result.items) }
    ensures answers { DrillsTo result.end kernel.old.kernel result.items kernel.new.kernel }
    // What was told of commits is what the kernel has more than before, where no session had a transaction before.
    ensures told { kernel.old.kernel.sessions ≡ [] → ToldBy result.end kernel.old.kernel.commits result.items kernel.new.kernel }
    ensures crash { IsTrue (D.tells kernel.old.disk) → LeavesOnly (D.moment kernel.old.disk) (D.moment kernel.new.disk) (D.images kernel.old.disk) (D.images kernel.new.disk) (IsLeftBetween kernel.old.kernel kernel.new.kernel) }
    ensures kinds { IsTrue (D.tells kernel.old.disk) → LeavesOnly (D.moment kernel.old.disk) (D.moment kernel.new.disk) (D.images kernel.old.disk) (D.images kernel.new.disk) (KeepsOneOf (D.images kernel.old.disk (D.moment kernel.old.disk))) }
    ensures serial { Serial kernel.new.kernel.base kernel.new.kernel.commits }
    ensures base { kernel.new.kernel.base ≡ kernel.old.kernel.base }
    ensures read_fault { result.end ≡ End.ReadFault → Rose (S.read_faults source.old) (S.read_faults source.new) }
    ensures write_fault { result.end ≡ End.WriteFault → Rose (K.write_faults sink.old) (K.write_faults sink.new) }
    ensures disk_fault { result.end ≡ End.DiskFault → DiskRose (D.faults kernel.old.disk) (D.faults kernel.new.disk) }
    ensures later { K.write_faults sink.old ≤ K.write_faults sink.new }
    ensures disk_later { D.faults kernel.old.disk ≤ D.faults kernel.new.disk }
    ensures tells { D.tells kernel.new.disk ≡ D.tells kernel.old.disk }
    ensures takes { D.takes_memory kernel.new.disk ≡ D.takes_memory kernel.old.disk }
    ensures ends { EndsRun result.end }
{
    let _sound = kernel.audit();
    let mut driller = Driller::new(alloc);
    let mut reader = LineReader::new(alloc);
    let end = run(&mut driller, kernel, &mut reader, source, sink);
    Transcript {
        items: driller.scribe.into_items(),
        end,
    }
}

// Hears line after line, up to the end of the source or a fault.
fn run<D: Disk, S: Source, K: Sink>(
    driller: &mut Driller,
    kernel: &mut Kernel<D>,
    reader: &mut LineReader,
    source: &mut S,
    sink: &mut K,
) -> End
    requires ready { IsReady driller.old.scribe kernel.old.kernel }
    requires unread { reader.old.chunk.bytes ≡ [] }
    requires room { reader.old.chunk.room ≡ 2 ^ 32 }
    ensures runs { RunsTo
        (λ ended lines. Goes D.tells D.takes_memory D.faults D.moment D.images (Next.Tells []) (Next.Tells []) lines driller.old.scribe kernel.old (K.taken sink.old) driller.new.scribe kernel.new (K.taken sink.new))
        (λ fault lines. Stops D.tells D.takes_memory D.faults D.moment D.images (Next.Tells []) fault lines driller.old.scribe kernel.old (K.taken sink.old) driller.new.scribe kernel.new (K.taken sink.new))
        result (S.left source.old) (S.left source.new) }
    ensures ready { IsReady driller.new.scribe kernel.new.kernel }
    ensures read_fault { result ≡ End.ReadFault → Rose (S.read_faults source.old) (S.read_faults source.new) }
    ensures write_fault { result ≡ End.WriteFault → Rose (K.write_faults sink.old) (K.write_faults sink.new) }
    ensures later { K.write_faults sink.old ≤ K.write_faults sink.new }
{
    loop {
        match reader.next(source, sink) {
            Came::Line => {
                if let Err(fault) = driller.hear_line(kernel, sink, reader.line()) {
                    return end_of(fault);
                }
            }
            Came::Last => {
                return match driller.hear_line(kernel, sink, reader.line()) {
                    Ok(()) => End::Input,
                    Err(fault) => end_of(fault),
                };
            }
            Came::End => return End::Input,
            Came::Failed => return End::ReadFault,
            Came::Unwritten => return End::WriteFault,
            Came::Long => return End::Long,
            Came::Memory => return End::Memory,
        }
    }
}
