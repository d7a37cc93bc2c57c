// Laws of all answers, and of all lists of events.
ghost use Rattle.std.specs.Prelude.{◌≡◌, ◌≤◌, IsTrue, List, length};
ghost use Rattle.sp_rect.specs.Plane.{Point as AnyPoint, holds, whole};
ghost use Rattle.sp_rect.specs.declared.record.Record.{Record as AnyRecord};
ghost use Rattle.sp_rect.specs.Store.{IsOrdered};
ghost use Rattle.sp_rect.specs.Serial.{Serial, after_all};
ghost use Rattle.sp_node.specs.declared.node.Shape.{Shape as AnyShape};
ghost use Rattle.sp_node.specs.Table.{IsShape};
ghost use Rattle.sp_waits.specs.Edges.{NoCycle};
ghost use Rattle.sp_granule.specs.Granules.{granules, HasPoint};
ghost use Rattle.sp_granule.specs.Descent.{granule_of};
ghost use Rattle.sp_txn.specs.Visible.{live};
ghost use Rattle.sp_event.specs.declared.event.Event.{Event as AnyEvent};
ghost use Rattle.sp_event.specs.declared.answer.Answer.{Answer as AnyAnswer};
ghost use Rattle.sp_event.specs.declared.step.Step.{Step as AnyStep};
ghost use Rattle.sp_model.specs.State.{Kernel as AnyKernel, entries_in};
ghost use Rattle.sp_model.specs.Opening.{IsOpened};
ghost use Rattle.sp_model.specs.Stepped.{most_entries};
ghost use Rattle.sp_model.specs.Soundness.{Sound};
ghost use Rattle.sp_kernel.specs.Answers.{Answers, Histories};

/// A law: every event keeps a kernel sound, whatever it is answered, want of memory and a fault of the disk among
/// that; and so does every list of events.
pub fn every_answer_keeps_sound()
    ensures event { (k : AnyKernel) (event : AnyEvent) (answer : AnyAnswer) (after : AnyKernel) → Sound k → Answers k event answer after → Sound after }
    ensures history { (k : AnyKernel) (steps : List AnyStep) (last : AnyKernel) → Sound k → Histories k steps last → Sound last }
{}

/// A law: over every list of events with their answers, from the kernel that opening gives, the commits, run one at
/// a time in order of place on the records at opening, give exactly the replies that were told, and leave what is
/// live; every point of space lies in a granule; and no sessions wait for each other in a circle.
pub fn every_history_is_serial()
    ensures serial { (shape : AnyShape) (records : List AnyRecord) (k : AnyKernel) (steps : List AnyStep) (last : AnyKernel)
        → IsShape shape → IsOrdered records → length records ≤ most_entries → IsOpened shape records k → Histories k steps last
        → Serial records last.commits × (live (entries_in last) ≡ after_all records last.commits) }
    ensures covered { (k : AnyKernel) (steps : List AnyStep) (last : AnyKernel) (p : AnyPoint) → Sound k → Histories k steps last
        → IsTrue (holds whole p) → HasPoint (granules last.tree) (granule_of last.tree p) p }
    ensures acyclic { (k : AnyKernel) (steps : List AnyStep) (last : AnyKernel) → Sound k → Histories k steps last → NoCycle last.locks }
{}
