// Who does the events of a script.
ghost use Rattle.std.specs.Prelude.{◌≡◌, ◌≤◌, ◌-◌, ◌≢◌, ◌++◌, ℕ, List, [], ◌∷◌, length, Ok, OnOk, IfOk, IfErr, IsErrOf};
ghost use Rattle.sp_io.specs.Faults.{Rose};
ghost use Rattle.sp_disk.specs.Faults.{Rose as DiskRose};
ghost use Rattle.sp_text.specs.declared.form.Form.TheVariants.{Drill};
ghost use Rattle.std.specs.Io.KnownBytes.{Appends};
ghost use Rattle.sp_text.specs.Grammar.{said};
ghost use Rattle.sp_text.specs.Texts.{item_text};
ghost use Rattle.sp_lines.specs.Keeping.{KeptAt};
ghost use Rattle.sp_drill.specs.Leading.{Leads};
ghost use Rattle.sp_drill.specs.Drilling.{Next};
ghost use Rattle.sp_drill.specs.Hearing.{IsReady, placed_from, IsDueAfter, Does, DoesUntil, Goes, Stops};

use crate::batch::sessions_from;
use crate::due::{Due, due_after};
use crate::event::answer_to;
use sp_disk::Disk;
use sp_event::{Answer, Event};
use sp_io::Sink;
use sp_kernel::Kernel;
use sp_lines::{Fault, Scribe};
use sp_locks::SessionId;
use sp_text::{Form, Item, Said, TextError, read_line};
use std::alloc::Global;

/// Does the events of a script, and keeps each with its answer.
#[derive(Drop)]
pub struct Driller {
    alloc: Global,
    pub scribe: Scribe,
}

impl Driller {
    /// Before the first line. Takes no memory.
    pub fn new(alloc: Global) -> Driller
        ensures form { result.scribe.form ≡ Drill }
        ensures items { result.scribe.items ≡ [] }
    {
        Driller {
            alloc,
            scribe: Scribe::new(alloc, Form::Drill),
        }
    }
    /// Answers a line that is not blank: an event is done, and any other line is told that it is bad.
    pub fn hear_line<D: Disk, K: Sink>(
        &mut self,
        kernel: &mut Kernel<D>,
        sink: &mut K,
        line: &[u8],
    ) -> Result<(), Fault>
        requires { IsReady self.old.scribe kernel.old.kernel }
        ensures ready { IsReady self.new.scribe kernel.new.kernel }
        ensures goes { OnOk result (Goes D.tells D.takes_memory D.faults D.moment D.images (Next.Tells []) (Next.Tells []) (line.now ∷ []) self.old.scribe kernel.old (K.taken sink.old) self.new.scribe kernel.new (K.taken sink.new)) }
        ensures stops { IfErr result (λ fault. Stops D.tells D.takes_memory D.faults D.moment D.images (Next.Tells []) fault (line.now ∷ []) self.old.scribe kernel.old (K.taken sink.old) self.new.scribe kernel.new (K.taken sink.new)) }
        ensures later { K.write_faults sink.old ≤ K.write_faults sink.new }
        ensures failed { IsErrOf result Fault.Write → Rose (K.write_faults sink.old) (K.write_faults sink.new) }
    {
        match read_line(self.alloc, line, Form::Drill) {
            Ok(Said::Step(event)) => self.hear_event(kernel, sink, event),
            Ok(_) => unreachable!(),
            Err(TextError::Bad(session, bad)) => self.scribe.keep(sink, Item::Bad { session, bad }),
            Err(TextError::Memory) => Err(Fault::Memory),
        }
    }

    // Does a line's event, and tells the commits of a batch that it makes durable their places.
    fn hear_event<D: Disk, K: Sink>(
        &mut self,
        kernel: &mut Kernel<D>,
        sink: &mut K,
        event: Event,
    ) -> Result<(), Fault>
        requires { IsReady self.old.scribe kernel.old.kernel }
        ensures ready { IsReady self.new.scribe kernel.new.kernel }
        ensures goes { OnOk result ((line : List ℕ) → said Drill line ≡ Ok (Said.Step event) → Goes D.tells D.takes_memory D.faults D.moment D.images (Next.Tells []) (Next.Tells []) (line ∷ []) self.old.scribe kernel.old (K.taken sink.old) self.new.scribe kernel.new (K.taken sink.new)) }
        ensures stops { IfErr result (λ fault. (line : List ℕ) → said Drill line ≡ Ok (Said.Step event) → Stops D.tells D.takes_memory D.faults D.moment D.images (Next.Tells []) fault (line ∷ []) self.old.scribe kernel.old (K.taken sink.old) self.new.scribe kernel.new (K.taken sink.new)) }
        ensures later { K.write_faults sink.old ≤ K.write_faults sink.new }
        ensures failed { IsErrOf result Fault.Write → Rose (K.write_faults sink.old) (K.write_faults sink.new) }
    {
        match self.step(kernel, sink, event, false)? {
            Due::Line => Ok(()),
            Due::Places(first) => self.tell_places(kernel, sink, first),
            Due::End => Err(Fault::Disk),
        }
    }

    // Tells the commits from that place on their places.
    fn tell_places<D: Disk, K: Sink>(
        &mut self,
        kernel: &mut Kernel<D>,
        sink: &mut K,
        first: u64,
    ) -> Result<(), Fault>
        requires ready { IsReady self.old.scribe kernel.old.kernel }
        requires place { 1 ≤ first }
        requires within { first - 1 ≤ length kernel.old.kernel.commits }
        ensures ready { IsReady self.new.scribe kernel.new.kernel }
        ensures goes { OnOk result (Goes D.tells D.takes_memory D.faults D.moment D.images (Next.Tells (placed_from first kernel.old.kernel)) (Next.Tells []) [] self.old.scribe kernel.old (K.taken sink.old) self.new.scribe kernel.new (K.taken sink.new)) }
        ensures stops { IfErr result (λ fault. Stops D.tells D.takes_memory D.faults D.moment D.images (Next.Tells (placed_from first kernel.old.kernel)) fault [] self.old.scribe kernel.old (K.taken sink.old) self.new.scribe kernel.new (K.taken sink.new)) }
        ensures later { K.write_faults sink.old ≤ K.write_faults sink.new }
        ensures failed { IsErrOf result Fault.Write → Rose (K.write_faults sink.old) (K.write_faults sink.new) }
    {
        match sessions_from(self.alloc, kernel.audit(), first) {
            Ok(batch) => self.tell_each(kernel, sink, batch.as_slice()),
            Err(_) => Err(Fault::Memory),
        }
    }

    // Tells the commits of these sessions their places, one after the other.
    fn tell_each<D: Disk, K: Sink>(
        &mut self,
        kernel: &mut Kernel<D>,
        sink: &mut K,
        batch: &[SessionId],
    ) -> Result<(), Fault>
        requires { IsReady self.old.scribe kernel.old.kernel }
        ensures ready { IsReady self.new.scribe kernel.new.kernel }
        ensures goes { OnOk result (Goes D.tells D.takes_memory D.faults D.moment D.images (Next.Tells batch.now) (Next.Tells []) [] self.old.scribe kernel.old (K.taken sink.old) self.new.scribe kernel.new (K.taken sink.new)) }
        ensures stops { IfErr result (λ fault. Stops D.tells D.takes_memory D.faults D.moment D.images (Next.Tells batch.now) fault [] self.old.scribe kernel.old (K.taken sink.old) self.new.scribe kernel.new (K.taken sink.new)) }
        ensures later { K.write_faults sink.old ≤ K.write_faults sink.new }
        ensures failed { IsErrOf result Fault.Write → Rose (K.write_faults sink.old) (K.write_faults sink.new) }
    {
        for session in batch {
            self.step(kernel, sink, Event::Commit(*session), true)?;
        }
        Ok(())
    }

    // Does one event, and keeps it with its answer.
    fn step<D: Disk, K: Sink>(
        &mut self,
        kernel: &mut Kernel<D>,
        sink: &mut K,
        event: Event,
        late: bool,
    ) -> Result<Due, Fault>
        requires { IsReady self.old.scribe kernel.old.kernel }
        ensures ready { IsReady self.new.scribe kernel.new.kernel }
        ensures does { IfOk result (λ due. Does event late due kernel.old.kernel self.old.scribe (K.taken sink.old) kernel.new.kernel self.new.scribe (K.taken sink.new)) }
        ensures until { IfErr result (λ fault. DoesUntil fault event late kernel.old.kernel self.old.scribe (K.taken sink.old) kernel.new.kernel self.new.scribe (K.taken sink.new)) }
        ensures leads { Leads D.tells D.takes_memory D.faults D.moment D.images kernel.old kernel.new }
        ensures cause { IfOk result (λ due. due ≡ Due.End → DiskRose (D.faults kernel.old.disk) (D.faults kernel.new.disk)) }
        ensures later { K.write_faults sink.old ≤ K.write_faults sink.new }
        ensures failed { IsErrOf result Fault.Write → Rose (K.write_faults sink.old) (K.write_faults sink.new) }
    {
        match answer_to(self.alloc, kernel, event) {
            Ok((event, answer)) => self.keep(sink, event, answer, late),
            Err(fault) => Err(fault),
        }
    }

    // Keeps an event with its answer.
    fn keep<K: Sink>(
        &mut self,
        sink: &mut K,
        event: Event,
        answer: Answer,
        late: bool,
    ) -> Result<Due, Fault>
        requires form { self.old.scribe.form ≡ Drill }
        requires some { answer ≢ Answer.Memory }
        ensures form { self.new.scribe.form ≡ Drill }
        ensures due { IfOk result (IsDueAfter answer) }
        ensures kept { OnOk result (self.new.scribe.items ≡ self.old.scribe.items ++ Item.Stepped event answer late ∷ []) }
        ensures written { OnOk result (Appends (K.taken sink.old) (K.taken sink.new) (item_text Drill (Item.Stepped event answer late))) }
        ensures stops { IfErr result (λ fault. KeptAt fault Drill self.old.scribe.items self.new.scribe.items (Item.Stepped event answer late) (K.taken sink.old) (K.taken sink.new)) }
        ensures later { K.write_faults sink.old ≤ K.write_faults sink.new }
        ensures failed { IsErrOf result Fault.Write → Rose (K.write_faults sink.old) (K.write_faults sink.new) }
    {
        let due = due_after(&answer);
        let item = Item::Stepped {
            event,
            answer,
            late,
        };
        match self.scribe.keep(sink, item) {
            Ok(()) => Ok(due),
            Err(fault) => Err(fault),
        }
    }
}
