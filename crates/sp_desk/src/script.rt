// A whole script of commands over a kernel.
ghost use Rattle.std.specs.Prelude.{◌≡◌, ◌≤◌, ◌^◌, [], None, IsTrue};
ghost use Rattle.sp_io.specs.Faults.{Rose};
ghost use Rattle.sp_disk.specs.Faults.{Rose as DiskRose};
ghost use Rattle.sp_disk.specs.Moments.{LeavesOnly};
ghost use Rattle.sp_journal.specs.Kinds.{KeepsOneOf};
ghost use Rattle.sp_rect.specs.Serial.{Serial};
ghost use Rattle.sp_text.specs.declared.form.Form.TheVariants.{Play};
ghost use Rattle.sp_text.specs.Texts.{render};
ghost use Rattle.sp_lines.specs.Hearing.{RunsTo, EndsRun};
ghost use Rattle.sp_lines.specs.Reading.{ReadsTo, WritesTo};
ghost use Rattle.sp_desk.specs.Course.{IsLeftBetween};
ghost use Rattle.sp_desk.specs.Playing.{AreOver};
ghost use Rattle.sp_desk.specs.Hearing.{place, script_sessions, Went, Halted};
ghost use Rattle.sp_desk.specs.Script.{PlaysTo};
ghost use Rattle.sp_desk.specs.Telling.{ToldBy};

use crate::Desk;
use sp_disk::Disk;
use sp_io::{Sink, Source};
use sp_kernel::Kernel;
use sp_lines::{LineReader, Next, end_of};
use sp_text::{End, Transcript};
use std::alloc::Global;

/// Runs the script of commands that the source gives over the kernel, and writes the answers to the sink. Each line runs the events of its
/// command; an operation that has to wait is gone on with, as a late item, after the first line that nobody is in its way any more; and at the end
/// of the input what is left is rolled back, as late items.
///
/// It ends by `Input` where the script was read to its end and all was written; then no session that a script can name has a transaction that can
/// be rolled back. It ends by `ReadFault` or `WriteFault` only where that object's count rose, by `DiskFault` only where the disk's count rose or
/// the kernel was stopped before, and by `Long` where as much was read as is read at most, and the source has not ended. With `DiskFault` and
/// `Memory` events of the next command may be done that no item tells. Whatever the end, a stop at any moment leaves a file that is recovered as a
/// kernel on the way has it, and that keeps the kind and the header of one that a stop before the run might have left. Costs what the events cost, and each line an
/// event for each operation that waits.
pub fn play<D: Disk, S: Source, K: Sink>(
    alloc: Global,
    kernel: &mut Kernel<D>,
    source: &mut S,
    sink: &mut K,
) -> Transcript
    ensures read { ReadsTo Play result.end (S.left source.old) (S.left source.new) result.items }
    ensures written { WritesTo result.end (K.taken sink.old) (K.taken sink.new) (render Play result.items) }
    ensures answers { PlaysTo result.end kernel.old.kernel result.items kernel.new.kernel }
    // What was told of commits is what the kernel has more than before, where no session had a transaction before.
    ensures told { kernel.old.kernel.sessions ≡ [] → ToldBy result.end kernel.old.kernel.commits result.items kernel.new.kernel }
    ensures closed { result.end ≡ End.Input → AreOver kernel.new.kernel script_sessions }
    ensures crash { IsTrue (D.tells kernel.old.disk) → LeavesOnly (D.moment kernel.old.disk) (D.moment kernel.new.disk) (D.images kernel.old.disk) (D.images kernel.new.disk) (IsLeftBetween kernel.old.kernel kernel.new.kernel) }
    ensures kinds { IsTrue (D.tells kernel.old.disk) → LeavesOnly (D.moment kernel.old.disk) (D.moment kernel.new.disk) (D.images kernel.old.disk) (D.images kernel.new.disk) (KeepsOneOf (D.images kernel.old.disk (D.moment kernel.old.disk))) }
    ensures serial { Serial kernel.new.kernel.base kernel.new.kernel.commits }
    ensures base { kernel.new.kernel.base ≡ kernel.old.kernel.base }
    ensures read_fault { result.end ≡ End.ReadFault → Rose (S.read_faults source.old) (S.read_faults source.new) }
    ensures write_fault { result.end ≡ End.WriteFault → Rose (K.write_faults sink.old) (K.write_faults sink.new) }
    ensures disk_fault { kernel.old.kernel.stopped ≡ None → result.end ≡ End.DiskFault → DiskRose (D.faults kernel.old.disk) (D.faults kernel.new.disk) }
    ensures later { K.write_faults sink.old ≤ K.write_faults sink.new }
    ensures read_later { S.read_faults source.old ≤ S.read_faults source.new }
    ensures disk_later { D.faults kernel.old.disk ≤ D.faults kernel.new.disk }
    ensures tells { D.tells kernel.new.disk ≡ D.tells kernel.old.disk }
    ensures takes { D.takes_memory kernel.new.disk ≡ D.takes_memory kernel.old.disk }
    ensures ends { EndsRun result.end }
{
    let _sound = kernel.audit();
    let mut desk = Desk::new(alloc);
    let mut reader = LineReader::new(alloc);
    let end = run(&mut desk, kernel, &mut reader, source, sink);
    Transcript {
        items: desk.into_items(),
        end,
    }
}

// Hears line after line, up to the end of the source or a fault.
fn run<D: Disk, S: Source, K: Sink>(
    desk: &mut Desk,
    kernel: &mut Kernel<D>,
    reader: &mut LineReader,
    source: &mut S,
    sink: &mut K,
) -> End
    requires ready { desk.old.scribe.form ≡ Play }
    requires unread { reader.old.chunk.bytes ≡ [] }
    requires room { reader.old.chunk.room ≡ 2 ^ 32 }
    ensures runs { RunsTo
        (λ ended lines. Went D.tells D.takes_memory D.faults D.moment D.images ended lines (place desk.old.scribe.items desk.old.stalled.items kernel.old.kernel (K.taken sink.old)) kernel.old (place desk.new.scribe.items desk.new.stalled.items kernel.new.kernel (K.taken sink.new)) kernel.new)
        (λ fault lines. Halted D.tells D.takes_memory D.faults D.moment D.images fault lines (place desk.old.scribe.items desk.old.stalled.items kernel.old.kernel (K.taken sink.old)) kernel.old (place desk.new.scribe.items desk.new.stalled.items kernel.new.kernel (K.taken sink.new)) kernel.new)
        result (S.left source.old) (S.left source.new) }
    ensures read_fault { result ≡ End.ReadFault → Rose (S.read_faults source.old) (S.read_faults source.new) }
    ensures write_fault { result ≡ End.WriteFault → Rose (K.write_faults sink.old) (K.write_faults sink.new) }
    ensures read_later { S.read_faults source.old ≤ S.read_faults source.new }
    ensures later { K.write_faults sink.old ≤ K.write_faults sink.new }
{
    loop {
        match reader.next(source, sink) {
            Next::Line => {
                if let Err(fault) = desk.hear_line(kernel, sink, reader.line()) {
                    return end_of(fault);
                }
            }
            Next::Last => {
                return match desk.hear_last(kernel, sink, reader.line()) {
                    Ok(()) => End::Input,
                    Err(fault) => end_of(fault),
                };
            }
            Next::End => {
                return match desk.hear_end(kernel, sink) {
                    Ok(()) => End::Input,
                    Err(fault) => end_of(fault),
                };
            }
            Next::Failed => return End::ReadFault,
            Next::Unwritten => return End::WriteFault,
            Next::Long => return End::Long,
            Next::Memory => return End::Memory,
        }
    }
}
