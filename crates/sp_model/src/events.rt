// Laws of all events, and of all lists of events.
ghost use Rattle.std.specs.Prelude.{◌≡◌, ◌≤◌, IsTrue, List, length};
ghost use Rattle.sp_rect.specs.Plane.{Point as AnyPoint, holds, whole};
ghost use Rattle.sp_rect.specs.declared.record.Record.{Record as AnyRecord};
ghost use Rattle.sp_rect.specs.Store.{IsOrdered};
ghost use Rattle.sp_rect.specs.Serial.{Serial, after_all};
ghost use Rattle.sp_node.specs.declared.node.Shape.{Shape as AnyShape};
ghost use Rattle.sp_node.specs.Table.{IsShape};
ghost use Rattle.sp_waits.specs.Edges.{NoCycle};
ghost use Rattle.sp_granule.specs.Granules.{granules, HasPoint};
ghost use Rattle.sp_granule.specs.Descent.{granule_of};
ghost use Rattle.sp_txn.specs.Visible.{live};
ghost use Rattle.sp_event.specs.declared.event.Event.{Event as AnyEvent};
ghost use Rattle.sp_event.specs.declared.answer.Answer.{Answer as AnyAnswer};
ghost use Rattle.sp_event.specs.declared.step.Step.{Step as AnyStep};
ghost use Rattle.sp_model.specs.State.{Kernel, entries_in};
ghost use Rattle.sp_model.specs.Removal.{IsTakenOut};
ghost use Rattle.sp_model.specs.Opening.{IsOpened};
ghost use Rattle.sp_model.specs.Stepped.{Stepped, most_entries};
ghost use Rattle.sp_model.specs.Runs.{Runs};
ghost use Rattle.sp_model.specs.Soundness.{Sound};

/// A law: every event, whatever it is answered, keeps a kernel sound, and so does every list of events.
pub fn every_event_keeps_sound()
    ensures event { (k : Kernel) (event : AnyEvent) (answer : AnyAnswer) (after : Kernel)
        → Sound k → Stepped IsTakenOut k event answer after → Sound after }
    ensures run { (k : Kernel) (steps : List AnyStep) (last : Kernel) → Sound k → Runs IsTakenOut k steps last → Sound last }
{}

/// A law: over every list of events from the kernel that opening gives, the commits, run one at a time in
/// order of place on the records at opening, give exactly the replies that were told, and leave what is
/// live. So they do from every sound kernel; and then every point of space lies in a granule, and no
/// sessions wait for each other in a circle.
pub fn every_run_is_serial()
    ensures opened { (shape : AnyShape) (records : List AnyRecord) (k : Kernel) (steps : List AnyStep) (last : Kernel)
        → IsShape shape → IsOrdered records → length records ≤ most_entries → IsOpened shape records k → Runs IsTakenOut k steps last
        → Serial records last.commits × (live (entries_in last) ≡ after_all records last.commits) }
    ensures serial { (k : Kernel) (steps : List AnyStep) (last : Kernel) → Sound k → Runs IsTakenOut k steps last
        → Serial last.base last.commits }
    ensures current { (k : Kernel) (steps : List AnyStep) (last : Kernel) → Sound k → Runs IsTakenOut k steps last
        → live (entries_in last) ≡ after_all last.base last.commits }
    ensures covered { (k : Kernel) (steps : List AnyStep) (last : Kernel) (p : AnyPoint) → Sound k → Runs IsTakenOut k steps last
        → IsTrue (holds whole p) → HasPoint (granules last.tree) (granule_of last.tree p) p }
    ensures acyclic { (k : Kernel) (steps : List AnyStep) (last : Kernel) → Sound k → Runs IsTakenOut k steps last
        → NoCycle last.locks }
{}
