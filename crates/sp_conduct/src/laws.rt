// Laws of the answers to a script of commands.
ghost use Rattle.std.specs.Prelude.{◌≡◌, ◌≢◌, ℕ, List, []};
ghost use Rattle.sp_rect.specs.declared.record.Record.{Record as AnyRecord};
ghost use Rattle.sp_rect.specs.declared.operation.Op.{Op as AnyOp};
ghost use Rattle.sp_event.specs.declared.answer.Answer.{Answer as AnyAnswer};
ghost use Rattle.sp_node.specs.declared.node.Shape.{Shape as AnyShape};
ghost use Rattle.sp_text.specs.declared.types.Item.{Item as AnyItem};
ghost use Rattle.sp_text.specs.declared.types.End.{End as AnyEnd};
ghost use Rattle.sp_text.specs.declared.types.End.TheVariants.{Input};
ghost use Rattle.sp_model.specs.State.{Kernel as AnyKernel};
ghost use Rattle.sp_model.specs.Opening.{IsOpened};
ghost use Rattle.sp_model.specs.Soundness.{Sound};
ghost use Rattle.sp_desk.specs.Hearing.{script_sessions};
ghost use Rattle.sp_desk.specs.Playing.{AreOver};
ghost use Rattle.sp_desk.specs.Script.{PlaysTo};
ghost use Rattle.sp_conduct.specs.Standing.{Standing as AnyStanding};
ghost use Rattle.sp_conduct.specs.Fitting.{Scene as AnyScene, OperationFits, IsAnsweredAtOnce};
ghost use Rattle.sp_conduct.specs.Transcript.{AreOf, IsConducted, IsClosed, IsAsPlain};

/// A law: over a kernel that opened with some records, every item of a script of commands fits those before it. A
/// session is told that it has no transaction, has one, or is at something else exactly where the transcript says
/// so; a reply is the one of a plain list of records, which are those at the start after all transactions that were
/// told committed and then after the operations of its own; who is told to wait is told of others that have
/// transactions; who is told of a deadlock is told of a circle of sessions, of which each other one was told of
/// its wait; and a commit is told the next place. The records at the start stay the base of the kernel's audit.
/// Where the input ended, every session was told of the end of its transaction.
pub fn every_answer_fits()
    ensures fits { (shape : AnyShape) (records : List AnyRecord) (k n : AnyKernel) (end : AnyEnd) (items : List AnyItem) → IsOpened shape records k → Sound k → PlaysTo end k items n → IsConducted records items }
    ensures base { (shape : AnyShape) (records : List AnyRecord) (k n : AnyKernel) (end : AnyEnd) (items : List AnyItem) → IsOpened shape records k → Sound k → PlaysTo end k items n → n.base ≡ records }
    ensures closed { (shape : AnyShape) (records : List AnyRecord) (k n : AnyKernel) (items : List AnyItem) → IsOpened shape records k → Sound k → PlaysTo Input k items n → AreOver n script_sessions → IsClosed items script_sessions }
{}

/// A law: where all answers are told to one session, each is the one of a plain store, at once, or tells that a limit
/// is reached; only behind the end of the input comes a rollback late.
pub fn one_session_is_as_plain()
    ensures { (records : List AnyRecord) (items : List AnyItem) (s : ℕ) → IsConducted records items → AreOf s items → IsAsPlain records items }
{}

/// A law: where no other session has a transaction, an operation of an open session is answered at once: by its
/// reply, or by a limit that is reached.
pub fn who_is_alone_does_not_wait()
    ensures { (sc : AnyScene) (s : ℕ) (op : AnyOp) (answer : AnyAnswer) → ((v : ℕ) → v ≢ s → sc.at v ≡ AnyStanding.Out) → OperationFits sc s op answer → IsAnsweredAtOnce sc s op answer }
{}
