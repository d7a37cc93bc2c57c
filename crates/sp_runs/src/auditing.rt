// The audit's line behind the answers.
ghost use Rattle.std.specs.Prelude.{◌≡◌, ◌⊎◌, ◌≤◌, [], false};
ghost use Rattle.std.specs.Io.KnownBytes.{Appends};
ghost use Rattle.sp_io.specs.Faults.{Rose};
ghost use Rattle.sp_io.specs.Streams.{AppendsFront};
ghost use Rattle.sp_audit.specs.Line.{audit_text};
ghost use Rattle.sp_runs.specs.Running.{IsCutShort};
ghost use Rattle.sp_runs.specs.Writing.{audit_line};

use sp_audit::{Audit, dump};
use sp_io::{Sink, write_all};
use sp_text::End;
use std::alloc::Global;

// Writes the audit's line where it is asked for and the input has ended, hands on what the sink holds back, and
// says how the run ends now.
pub(crate) fn tell_audit<K: Sink>(
    alloc: Global,
    audited: bool,
    end: End,
    audit: &Audit,
    sink: &mut K,
) -> End
    ensures short { IsCutShort end result }
    ensures whole { result ≡ End.Input → Appends (K.taken sink.old) (K.taken sink.new) (audit_line audited audit.now) }
    ensures front { end ≡ End.Input → result ≡ End.WriteFault → AppendsFront (K.taken sink.old) (K.taken sink.new) (audit_line audited audit.now) }
    ensures failed { end ≡ End.Input → result ≡ End.WriteFault → Rose (K.write_faults sink.old) (K.write_faults sink.new) }
    ensures none { end ≡ End.Input → result ≡ End.Memory → K.taken sink.new ≡ K.taken sink.old }
    ensures other { (end ≡ End.Input → ⊥) → sink.new ≡ sink.old }
    ensures handed { result ≡ End.Input → K.holds_back sink.new ≡ false }
    ensures later { K.write_faults sink.old ≤ K.write_faults sink.new }
{
    match end {
        End::Input => {
            if audited {
                write_audit(alloc, audit, sink)
            } else {
                hand_on(sink)
            }
        }
        end => end,
    }
}

// Hands on what the sink holds back.
fn hand_on<K: Sink>(sink: &mut K) -> End
    ensures ends { (result ≡ End.Input) ⊎ (result ≡ End.WriteFault) }
    ensures kept { result ≡ End.Input → Appends (K.taken sink.old) (K.taken sink.new) [] }
    ensures front { result ≡ End.WriteFault → AppendsFront (K.taken sink.old) (K.taken sink.new) [] }
    ensures handed { result ≡ End.Input → K.holds_back sink.new ≡ false }
    ensures failed { result ≡ End.WriteFault → Rose (K.write_faults sink.old) (K.write_faults sink.new) }
    ensures later { K.write_faults sink.old ≤ K.write_faults sink.new }
{
    match write_all(sink, b"") {
        Ok(()) => End::Input,
        Err(_) => End::WriteFault,
    }
}

// Writes the audit's line: all of it, a front where the sink failed, or nothing where there is no memory.
fn write_audit<K: Sink>(alloc: Global, audit: &Audit, sink: &mut K) -> End
    ensures ends { (result ≡ End.Input) ⊎ ((result ≡ End.WriteFault) ⊎ (result ≡ End.Memory)) }
    ensures whole { result ≡ End.Input → Appends (K.taken sink.old) (K.taken sink.new) (audit_text audit.now) }
    ensures handed { result ≡ End.Input → K.holds_back sink.new ≡ false }
    ensures front { result ≡ End.WriteFault → AppendsFront (K.taken sink.old) (K.taken sink.new) (audit_text audit.now) }
    ensures failed { result ≡ End.WriteFault → Rose (K.write_faults sink.old) (K.write_faults sink.new) }
    ensures none { result ≡ End.Memory → K.taken sink.new ≡ K.taken sink.old }
    ensures later { K.write_faults sink.old ≤ K.write_faults sink.new }
{
    let Ok(line) = dump(alloc, audit) else {
        return End::Memory;
    };
    match write_all(sink, line.bytes()) {
        Ok(()) => End::Input,
        Err(_) => End::WriteFault,
    }
}
