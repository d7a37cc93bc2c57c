// The desk hears the commands of a script, and answers each.
ghost use Rattle.std.specs.Prelude.{◌≡◌, ◌≤◌, ◌<◌, ◌+◌, None, Some, false, true, List, ℕ, [], ◌∷◌, ◌++◌, map, length, filter, not, nat_eq, OnOk, IfOk, IfErr, IsErrOf, if◌then◌else◌, is_ok};
ghost use Rattle.std.specs.List.{remove};
ghost use Rattle.std.specs.Io.KnownBytes.{Appends};
ghost use Rattle.sp_io.specs.Faults.{Rose};
ghost use Rattle.sp_text.specs.declared.form.Form.TheVariants.{Play};
ghost use Rattle.sp_text.specs.declared.types.Said.TheVariants.{Do as Tells};
ghost use Rattle.sp_desk.specs.Cleaning.{fault_in};
ghost use Rattle.sp_desk.specs.Course.{Course, StopsAt};
ghost use Rattle.sp_desk.specs.Waiting.{AllWait, WakesSo, stalled_by};
ghost use Rattle.sp_desk.specs.Working.{Operates};
ghost use Rattle.sp_desk.specs.Playing.{Turn, Does, DoesSo, IsOver, AreOver};
ghost use Rattle.sp_desk.specs.Hearing.{place, script_sessions, Passes, Stops, Went, Halted};

use crate::Point;
use crate::cleaning::clean;
use crate::committing::commit;
use crate::course::{failure_of, fault_of, step};
use crate::stalled::{Stalled, wake_first};
use crate::working::{Ending, operate};
use sp_disk::Disk;
use sp_event::{Answer, Event};
use sp_io::Sink;
use sp_kernel::Kernel;
use sp_lines::{Fault, Scribe};
use sp_list::Duplicate;
use sp_locks::SessionId;
use sp_rect::Op;
use sp_text::{Command, Form, Item, Items, SCRIPT_SESSIONS, Said, TextError, read_line};
use std::alloc::Global;

/// A script under way: the items so far, and the operations that wait, in the order in which they go on.
#[derive(Drop)]
pub struct Desk {
    pub alloc: Global,
    pub scribe: Scribe,
    pub stalled: Vec<Stalled>,
}

// An answer that is told.
fn told(answer: Answer) -> Result<Answer, Fault>
    ensures told { IfOk result (λ a. (a ≡ answer) × (fault_in answer ≡ None)) }
    ensures fault { IfErr result (λ fault. fault_in answer ≡ Some fault) }
    ensures unwritten { IsErrOf result Fault.Write → ⊥ }
{
    match fault_of(&answer) {
        Some(fault) => Err(fault),
        None => Ok(answer),
    }
}

impl Desk {
    /// Before the first line. Takes no memory.
    pub fn new(alloc: Global) -> Desk
        ensures items { result.scribe.items ≡ [] }
        ensures form { result.scribe.form ≡ Play }
        ensures stalled { result.stalled.items ≡ [] }
    {
        Desk {
            alloc,
            scribe: Scribe::new(alloc, Form::Play),
            stalled: Vec::new(alloc),
        }
    }

    /// The items so far.
    pub fn into_items(self) -> Items
        ensures { result ≡ self.scribe.items }
    {
        self.scribe.into_items()
    }

    // Runs the events of a session's command, and answers it.
    fn answer<D: Disk>(
        &mut self,
        kernel: &mut Kernel<D>,
        session: SessionId,
        command: &Command,
    ) -> Result<Answer, Fault>
        ensures does { IfOk result (λ answer. Does session kernel.old.kernel self.old.stalled.items command.now answer kernel.new.kernel self.new.stalled.items) }
        ensures told { IfOk result (λ answer. fault_in answer ≡ None) }
        ensures scribe { self.new.scribe ≡ self.old.scribe }
        ensures course { Course D.tells D.takes_memory D.faults D.moment D.images kernel.old kernel.new }
        ensures stops { IfErr result (λ fault. StopsAt (Some fault) kernel.new.kernel) }
        ensures unwritten { IsErrOf result Fault.Write → ⊥ }
    {
        match command {
            Command::Begin => told(step(kernel, Event::Begin(session))),
            Command::Do(op) => self.operate(kernel, session, op),
            Command::Commit => told(commit(kernel, session)?),
            Command::Rollback => told(self.roll_back(kernel, session)),
        }
    }

    // An operation that has to wait joins the end of the list.
    fn operate<D: Disk>(
        &mut self,
        kernel: &mut Kernel<D>,
        session: SessionId,
        op: &Op,
    ) -> Result<Answer, Fault>
        ensures does { IfOk result (λ answer. DoesSo session kernel.old.kernel self.old.stalled.items op.now answer kernel.new.kernel self.new.stalled.items) }
        ensures told { IfOk result (λ answer. fault_in answer ≡ None) }
        ensures scribe { self.new.scribe ≡ self.old.scribe }
        ensures course { Course D.tells D.takes_memory D.faults D.moment D.images kernel.old kernel.new }
        ensures stops { IfErr result (λ fault. StopsAt (Some fault) kernel.new.kernel) }
        ensures unwritten { IsErrOf result Fault.Write → ⊥ }
    {
        let Ok(started) = op.copy(self.alloc) else {
            return Err(Fault::Memory);
        };
        let ending = operate(kernel, session, started);
        self.settle(session, op, ending)
    }

    // Gives the answer of an operation, and keeps the operation where it waits.
    fn settle(&mut self, session: SessionId, op: &Op, ending: Ending) -> Result<Answer, Fault>
        ensures told { IfOk result (λ answer. (answer ≡ ending.answer) × (fault_in answer ≡ None)) }
        ensures stalled { OnOk result (self.new.stalled.items ≡ self.old.stalled.items ++ stalled_by session op.now ending.answer ending.point) }
        ensures scribe { self.new.scribe ≡ self.old.scribe }
        ensures fault { IfErr result (λ fault. (fault ≡ Fault.Memory → ⊥) → fault_in ending.answer ≡ Some fault) }
        ensures unwritten { IsErrOf result Fault.Write → ⊥ }
    {
        let Ending { answer, point } = ending;
        if let Answer::Waits(_, _, _) = &answer {
            let Ok(op) = op.copy(self.alloc) else {
                return Err(Fault::Memory);
            };
            let waiter = Stalled {
                session,
                op,
                point: point.resumed(),
            };
            if self.stalled.push(waiter).is_err() {
                return Err(Fault::Memory);
            }
        }
        told(answer)
    }

    // A session that is rolled back waits no more.
    fn roll_back<D: Disk>(&mut self, kernel: &mut Kernel<D>, session: SessionId) -> Answer
        ensures does { Does session kernel.old.kernel self.old.stalled.items Command.Rollback result kernel.new.kernel self.new.stalled.items }
        ensures scribe { self.new.scribe ≡ self.old.scribe }
        ensures course { Course D.tells D.takes_memory D.faults D.moment D.images kernel.old kernel.new }
        ensures stops { StopsAt (fault_in result) kernel.new.kernel }
    {
        let answer = step(kernel, Event::Rollback(session));
        if let Answer::RolledBack = &answer {
            self.free(session);
        }
        answer
    }

    fn free(&mut self, session: SessionId)
        ensures stalled { self.new.stalled.items ≡ filter (λ x. not (nat_eq x.session session)) self.old.stalled.items }
        ensures scribe { self.new.scribe ≡ self.old.scribe }
    {
        self.stalled.retain(|waiter| waiter.session != session);
    }

    // Answers a session's command.
    fn tell<D: Disk, K: Sink>(
        &mut self,
        kernel: &mut Kernel<D>,
        sink: &mut K,
        session: SessionId,
        command: Command,
    ) -> Result<(), Fault>
        requires { self.old.scribe.form ≡ Play }
        ensures passes { OnOk result (Passes Turn.Hearing Turn.GoingOn (Ok (Tells (Some session) command) ∷ []) (place self.old.scribe.items self.old.stalled.items kernel.old.kernel (K.taken sink.old)) (place self.new.scribe.items self.new.stalled.items kernel.new.kernel (K.taken sink.new))) }
        ensures breaks { IfErr result (λ fault. Stops fault Turn.Hearing (Ok (Tells (Some session) command) ∷ []) (place self.old.scribe.items self.old.stalled.items kernel.old.kernel (K.taken sink.old)) (place self.new.scribe.items self.new.stalled.items kernel.new.kernel (K.taken sink.new))) }
        ensures form { self.new.scribe.form ≡ Play }
        ensures course { Course D.tells D.takes_memory D.faults D.moment D.images kernel.old kernel.new }
        ensures stops { IfErr result (λ fault. StopsAt (Some fault) kernel.new.kernel) }
        ensures later { K.write_faults sink.old ≤ K.write_faults sink.new }
        ensures failed { IsErrOf result Fault.Write → Rose (K.write_faults sink.old) (K.write_faults sink.new) }
    {
        let answer = self.answer(kernel, session, &command)?;
        let item = Item::Told {
            session,
            command,
            answer,
            late: false,
        };
        self.scribe.keep(sink, item)
    }

    // The first operation that no longer waits goes on, if one does. One that waits again goes to the end of the list.
    fn wake_one<D: Disk, K: Sink>(
        &mut self,
        kernel: &mut Kernel<D>,
        sink: &mut K,
    ) -> Result<bool, Fault>
        requires { self.old.scribe.form ≡ Play }
        ensures passes { IfOk result (λ went. Passes Turn.GoingOn Turn.GoingOn [] (place self.old.scribe.items self.old.stalled.items kernel.old.kernel (K.taken sink.old)) (place self.new.scribe.items self.new.stalled.items kernel.new.kernel (K.taken sink.new))) }
        ensures breaks { IfErr result (λ fault. Stops fault Turn.GoingOn [] (place self.old.scribe.items self.old.stalled.items kernel.old.kernel (K.taken sink.old)) (place self.new.scribe.items self.new.stalled.items kernel.new.kernel (K.taken sink.new))) }
        ensures rests { IfOk result (λ went. went ≡ false → AllWait kernel.new.kernel self.new.stalled.items) }
        ensures form { self.new.scribe.form ≡ Play }
        ensures course { Course D.tells D.takes_memory D.faults D.moment D.images kernel.old kernel.new }
        ensures stops { IfErr result (λ fault. StopsAt (Some fault) kernel.new.kernel) }
        ensures later { K.write_faults sink.old ≤ K.write_faults sink.new }
        ensures failed { IsErrOf result Fault.Write → Rose (K.write_faults sink.old) (K.write_faults sink.new) }
    {
        let Some(woken) = wake_first(kernel, self.stalled.as_slice()) else {
            return Ok(false);
        };
        let Stalled { session, op, .. } = self.stalled.remove(woken.at);
        let answer = self.settle(session, &op, woken.ending)?;
        let item = Item::Told {
            session,
            command: Command::Do(op),
            answer,
            late: true,
        };
        match self.scribe.keep(sink, item) {
            Ok(()) => Ok(true),
            Err(fault) => Err(fault),
        }
    }

    // One operation after the other goes on, until all wait.
    fn go_on<D: Disk, K: Sink>(&mut self, kernel: &mut Kernel<D>, sink: &mut K) -> Result<(), Fault>
        requires { self.old.scribe.form ≡ Play }
        ensures passes { OnOk result (Passes Turn.GoingOn Turn.GoingOn [] (place self.old.scribe.items self.old.stalled.items kernel.old.kernel (K.taken sink.old)) (place self.new.scribe.items self.new.stalled.items kernel.new.kernel (K.taken sink.new))) }
        ensures breaks { IfErr result (λ fault. Stops fault Turn.GoingOn [] (place self.old.scribe.items self.old.stalled.items kernel.old.kernel (K.taken sink.old)) (place self.new.scribe.items self.new.stalled.items kernel.new.kernel (K.taken sink.new))) }
        ensures rests { OnOk result (AllWait kernel.new.kernel self.new.stalled.items) }
        ensures form { self.new.scribe.form ≡ Play }
        ensures course { Course D.tells D.takes_memory D.faults D.moment D.images kernel.old kernel.new }
        ensures stops { IfErr result (λ fault. StopsAt (Some fault) kernel.new.kernel) }
        ensures later { K.write_faults sink.old ≤ K.write_faults sink.new }
        ensures failed { IsErrOf result Fault.Write → Rose (K.write_faults sink.old) (K.write_faults sink.new) }
    {
        // An operation that goes on unblocks another only where a deadlock ends it, so no run takes so many turns.
        for _ in 0..u64::MAX {
            if !self.wake_one(kernel, sink)? {
                return Ok(());
            }
        }
        Err(Fault::Memory)
    }

    // Hears a session's command: it is answered, those that wait go on, and dead entries are removed.
    fn hear_command<D: Disk, K: Sink>(
        &mut self,
        kernel: &mut Kernel<D>,
        sink: &mut K,
        session: SessionId,
        command: Command,
    ) -> Result<(), Fault>
        requires { self.old.scribe.form ≡ Play }
        ensures passes { OnOk result (Passes Turn.Hearing Turn.Hearing (Ok (Tells (Some session) command) ∷ []) (place self.old.scribe.items self.old.stalled.items kernel.old.kernel (K.taken sink.old)) (place self.new.scribe.items self.new.stalled.items kernel.new.kernel (K.taken sink.new))) }
        ensures breaks { IfErr result (λ fault. Stops fault Turn.Hearing (Ok (Tells (Some session) command) ∷ []) (place self.old.scribe.items self.old.stalled.items kernel.old.kernel (K.taken sink.old)) (place self.new.scribe.items self.new.stalled.items kernel.new.kernel (K.taken sink.new))) }
        ensures form { self.new.scribe.form ≡ Play }
        ensures course { Course D.tells D.takes_memory D.faults D.moment D.images kernel.old kernel.new }
        ensures stops { IfErr result (λ fault. StopsAt (Some fault) kernel.new.kernel) }
        ensures later { K.write_faults sink.old ≤ K.write_faults sink.new }
        ensures failed { IsErrOf result Fault.Write → Rose (K.write_faults sink.old) (K.write_faults sink.new) }
    {
        self.tell(kernel, sink, session, command)?;
        self.go_on(kernel, sink)?;
        clean(kernel)
    }

    // Rolls the session's transaction back where it has one, as a late item.
    fn close<D: Disk, K: Sink>(
        &mut self,
        kernel: &mut Kernel<D>,
        sink: &mut K,
        session: SessionId,
    ) -> Result<(), Fault>
        requires over { AreOver kernel.old.kernel session }
        requires form { self.old.scribe.form ≡ Play }
        ensures passes { OnOk result (Passes Turn.Closing Turn.Closing [] (place self.old.scribe.items self.old.stalled.items kernel.old.kernel (K.taken sink.old)) (place self.new.scribe.items self.new.stalled.items kernel.new.kernel (K.taken sink.new))) }
        ensures breaks { IfErr result (λ fault. Stops fault Turn.Closing [] (place self.old.scribe.items self.old.stalled.items kernel.old.kernel (K.taken sink.old)) (place self.new.scribe.items self.new.stalled.items kernel.new.kernel (K.taken sink.new))) }
        ensures over { OnOk result (AreOver kernel.new.kernel (session + 1)) }
        ensures form { self.new.scribe.form ≡ Play }
        ensures course { Course D.tells D.takes_memory D.faults D.moment D.images kernel.old kernel.new }
        ensures stops { IfErr result (λ fault. StopsAt (Some fault) kernel.new.kernel) }
        ensures later { K.write_faults sink.old ≤ K.write_faults sink.new }
        ensures failed { IsErrOf result Fault.Write → Rose (K.write_faults sink.old) (K.write_faults sink.new) }
    {
        let answer = step(kernel, Event::Rollback(session));
        match answer {
            Answer::Refused(_) => Ok(()),
            Answer::RolledBack => {
                let item = Item::Told {
                    session,
                    command: Command::Rollback,
                    answer,
                    late: true,
                };
                self.scribe.keep(sink, item)
            }
            answer => Err(failure_of(&answer)),
        }
    }

    /// Hears a line that is not blank. Its command is answered, the operations that no longer wait go on one after the other, and each dead entry
    /// is tried once; a line that is no command is told so, and changes nothing. Where a fault ends this, the items that were told stand, and events
    /// may have been done behind them: `Write` comes only where the sink's count rose, and after `Disk` the kernel is stopped. Costs the events, and
    /// an event for each operation that waits.
    pub fn hear_line<D: Disk, K: Sink>(
        &mut self,
        kernel: &mut Kernel<D>,
        sink: &mut K,
        line: &[u8],
    ) -> Result<(), Fault>
        requires { self.old.scribe.form ≡ Play }
        ensures goes { OnOk result (Went D.tells D.takes_memory D.faults D.moment D.images false (line.now ∷ []) (place self.old.scribe.items self.old.stalled.items kernel.old.kernel (K.taken sink.old)) kernel.old (place self.new.scribe.items self.new.stalled.items kernel.new.kernel (K.taken sink.new)) kernel.new) }
        ensures stops { IfErr result (λ fault. Halted D.tells D.takes_memory D.faults D.moment D.images fault (line.now ∷ []) (place self.old.scribe.items self.old.stalled.items kernel.old.kernel (K.taken sink.old)) kernel.old (place self.new.scribe.items self.new.stalled.items kernel.new.kernel (K.taken sink.new)) kernel.new) }
        ensures form { self.new.scribe.form ≡ Play }
        ensures later { K.write_faults sink.old ≤ K.write_faults sink.new }
        ensures failed { IsErrOf result Fault.Write → Rose (K.write_faults sink.old) (K.write_faults sink.new) }
    {
        match read_line(self.alloc, line, Form::Play) {
            Ok(Said::Do(Some(session), command)) => {
                self.hear_command(kernel, sink, session, command)
            }
            Ok(_) => unreachable!(),
            Err(TextError::Bad(session, bad)) => self.scribe.keep(sink, Item::Bad { session, bad }),
            Err(TextError::Memory) => Err(Fault::Memory),
        }
    }

    /// Hears that the input has ended: what is left is rolled back, by ascending number of the sessions, as late items. Afterwards no session that a
    /// script can name has a transaction that can be rolled back. Faults are those of a line. Costs an event for each session that a script can name.
    pub fn hear_end<D: Disk, K: Sink>(
        &mut self,
        kernel: &mut Kernel<D>,
        sink: &mut K,
    ) -> Result<(), Fault>
        requires { self.old.scribe.form ≡ Play }
        ensures goes { OnOk result (Went D.tells D.takes_memory D.faults D.moment D.images true [] (place self.old.scribe.items self.old.stalled.items kernel.old.kernel (K.taken sink.old)) kernel.old (place self.new.scribe.items self.new.stalled.items kernel.new.kernel (K.taken sink.new)) kernel.new) }
        ensures stops { IfErr result (λ fault. Halted D.tells D.takes_memory D.faults D.moment D.images fault [] (place self.old.scribe.items self.old.stalled.items kernel.old.kernel (K.taken sink.old)) kernel.old (place self.new.scribe.items self.new.stalled.items kernel.new.kernel (K.taken sink.new)) kernel.new) }
        ensures form { self.new.scribe.form ≡ Play }
        ensures later { K.write_faults sink.old ≤ K.write_faults sink.new }
        ensures failed { IsErrOf result Fault.Write → Rose (K.write_faults sink.old) (K.write_faults sink.new) }
    {
        self.close_all(kernel, sink)
    }

    // Rolls back what is left, by ascending number of the sessions.
    fn close_all<D: Disk, K: Sink>(
        &mut self,
        kernel: &mut Kernel<D>,
        sink: &mut K,
    ) -> Result<(), Fault>
        requires { self.old.scribe.form ≡ Play }
        ensures passes { OnOk result (Passes Turn.Closing Turn.Closing [] (place self.old.scribe.items self.old.stalled.items kernel.old.kernel (K.taken sink.old)) (place self.new.scribe.items self.new.stalled.items kernel.new.kernel (K.taken sink.new))) }
        ensures breaks { IfErr result (λ fault. Stops fault Turn.Closing [] (place self.old.scribe.items self.old.stalled.items kernel.old.kernel (K.taken sink.old)) (place self.new.scribe.items self.new.stalled.items kernel.new.kernel (K.taken sink.new))) }
        ensures over { OnOk result (AreOver kernel.new.kernel script_sessions) }
        ensures form { self.new.scribe.form ≡ Play }
        ensures course { Course D.tells D.takes_memory D.faults D.moment D.images kernel.old kernel.new }
        ensures stops { IfErr result (λ fault. StopsAt (Some fault) kernel.new.kernel) }
        ensures later { K.write_faults sink.old ≤ K.write_faults sink.new }
        ensures failed { IsErrOf result Fault.Write → Rose (K.write_faults sink.old) (K.write_faults sink.new) }
    {
        for session in 0..SCRIPT_SESSIONS {
            self.close(kernel, sink, session)?;
        }
        Ok(())
    }

    /// Hears a line that is not blank, and that the input has ended behind it.
    pub fn hear_last<D: Disk, K: Sink>(
        &mut self,
        kernel: &mut Kernel<D>,
        sink: &mut K,
        line: &[u8],
    ) -> Result<(), Fault>
        requires { self.old.scribe.form ≡ Play }
        ensures goes { OnOk result (Went D.tells D.takes_memory D.faults D.moment D.images true (line.now ∷ []) (place self.old.scribe.items self.old.stalled.items kernel.old.kernel (K.taken sink.old)) kernel.old (place self.new.scribe.items self.new.stalled.items kernel.new.kernel (K.taken sink.new)) kernel.new) }
        ensures stops { IfErr result (λ fault. Halted D.tells D.takes_memory D.faults D.moment D.images fault (line.now ∷ []) (place self.old.scribe.items self.old.stalled.items kernel.old.kernel (K.taken sink.old)) kernel.old (place self.new.scribe.items self.new.stalled.items kernel.new.kernel (K.taken sink.new)) kernel.new) }
        ensures form { self.new.scribe.form ≡ Play }
        ensures later { K.write_faults sink.old ≤ K.write_faults sink.new }
        ensures failed { IsErrOf result Fault.Write → Rose (K.write_faults sink.old) (K.write_faults sink.new) }
    {
        self.hear_line(kernel, sink, line)?;
        self.hear_end(kernel, sink)
    }
}
