// The top call: all that the program does.
ghost use Rattle.std.specs.Prelude.{◌≡◌, ◌≢◌, ◌⊎◌, ◌↔◌, ◌++◌, ℕ, List, None, Some, IsTrue, IfNone, IfSome, MatchOption, codes, false};
ghost use Rattle.sp_io.specs.Faults.{Rose};
ghost use Rattle.sp_rect.specs.Serial.{Serial};
ghost use Rattle.sp_rect.specs.declared.record.Record.{Record as AnyRecord};
ghost use Rattle.sp_node.specs.Table.{IsShape};
ghost use Rattle.sp_node.specs.declared.node.Shape.{Shape as AnyShape};
ghost use Rattle.sp_journal.specs.Looking.{OnlyReads};
ghost use Rattle.sp_text.specs.Texts.{render};
ghost use Rattle.sp_lines.specs.Reading.{ReadsTo};
ghost use Rattle.sp_command.specs.Bounds.{IsBounded};
ghost use Rattle.sp_command.specs.Grammar.{Says};
ghost use Rattle.sp_command.specs.declared.task.Run.{Run as AnyRun};
ghost use Rattle.sp_command.specs.declared.task.Task.TheVariants.{Play, Dump, Check, Compact, Make, Stress};
ghost use Rattle.sp_report.specs.Report.{check_text, dump_text};
ghost use Rattle.sp_files.specs.Compacting.{Compacts, IsWorn, Survives};
ghost use Rattle.sp_files.specs.Fetching.{alt_name, names_of, AsksFirst};
ghost use Rattle.sp_files.specs.Reporting.{Reports};
ghost use Rattle.sp_runs.specs.declared.language.Language.{Language as AnyLanguage};
ghost use Rattle.sp_runs.specs.Opening.{RunsFrom, RunsInMemory, RunsOver, RefusesFiles};
ghost use Rattle.sp_runs.specs.Running.{IsNotRun, IsTold};
ghost use Rattle.sp_runs.specs.Scripts.{form_of};
ghost use Rattle.sp_runs.specs.Writing.{audit_line, last_line, Writes, WritesOrFails};
ghost use Rattle.sp_desk.specs.Hearing.{script_sessions};
ghost use Rattle.sp_conduct.specs.Transcript.{AreOf, IsConducted, IsClosed, IsAsPlain};
ghost use Rattle.sp_script.specs.Script.{script_text};
ghost use Rattle.sp_script.specs.Summary.{summary_text};
ghost use Rattle.sp_stress.specs.Stressing.{EndsStress, HearsScript, WritesSummary};
ghost use Rattle.sp_stress.specs.Summing.{summary_of};
ghost use Rattle.spatial.specs.Commands.{status_of, script_task, IsOnFiles, Finishes, Makes, SaysNothing, NamesJournal};
ghost use Rattle.spatial.specs.Completeness.{IsShort, IsAccepted, EndsWell};

use crate::done::{Done, ended, finished, ran, ran_on_files};
use crate::making::make;
use sp_command::{Run, Task, read_words};
use sp_disk::{Disk, Shelf};
use sp_files::{check, compact, dump};
use sp_io::{Sink, Source, Words};
use sp_runs::{Language, run_in_memory, run_on_files, write_last};
use sp_stress::stress;
use sp_text::End;
use std::alloc::Global;

/// Does all that the program does, as the words ask:
///
/// - `play` runs the script of commands that the source gives, of up to 64 sessions at a time, and writes the answers; `drill` does the same with
///   a script of single events. Without a journal the store begins empty and is forgotten; with one it begins with what the
///   journal holds, and each commit that was told is kept there. With `--audit` the audit's line follows the answers;
/// - `stress` plays a generated script in memory, and writes a summary; `make` writes such a script;
/// - `dump` and `check` write what the two files of a journal hold, and `compact` writes it anew.
///
/// It returns on every input. All but `play` and `drill` read nothing of the source.
///
/// | Status | Comes |
/// |---|---|
/// | 0 | all was read and written |
/// | 1 | exactly where the words are no command line |
/// | 2 | only where the source's count of faults rose |
/// | 3 | only where the sink's count of faults rose |
/// | 4 | only where the count of the shelf rose, or that of one of the disks |
/// | 5 | exactly where the journal is foreign, damaged, or for `compact` worn |
/// | 6 | there was no memory |
/// | 8 | exactly where 2^32 bytes were read and the source has not ended |
pub fn offline<S: Source, K: Sink, H: Shelf>(
    alloc: Global,
    words: &Words,
    source: &mut S,
    sink: &mut K,
    shelf: &mut H,
) -> Done<H::Disk>
    ensures usage { result.status ≢ 6 → (result.status ≡ 1) ↔ SaysNothing words.now }
    ensures usage_line { result.status ≡ 1 → WritesOrFails (K.taken sink.old) (K.taken sink.new) (K.write_faults sink.old) (K.write_faults sink.new) (codes "! usage\n") }
    // `play` and `drill`: the status is that of how the script ended.
    ensures status { (language : AnyLanguage) (run : AnyRun) → Says words.now (script_task language run) → result.status ≡ status_of result.transcript.end }
    // What was read, and that the items which are not late are those of its lines: of all lines at status 0.
    ensures read { (language : AnyLanguage) (run : AnyRun) → Says words.now (script_task language run) → ReadsTo (form_of language) result.transcript.end (S.left source.old) (S.left source.new) result.transcript.items }
    // What was written: the texts of the items, and then the audit's line or that of the fault.
    ensures written { (language : AnyLanguage) (run : AnyRun) → Says words.now (script_task language run) → Writes result.transcript.end (K.taken sink.old) (K.taken sink.new) (K.write_faults sink.old) (K.write_faults sink.new) (render (form_of language) result.transcript.items) (audit_line run.audit result.audit) }
    // Without a journal: every answer is the one of a kernel that opened without records, and the audit is the last kernel's.
    ensures in_memory { (language : AnyLanguage) (run : AnyRun) → Says words.now (script_task language run) → run.journal ≡ None → RunsInMemory language run.shape result.transcript.end result.transcript.items result.audit }
    // With one: of a kernel that opened with the records that the two files hold, and keeps its commits there; or why there was none.
    ensures over_files { (language : AnyLanguage) (run : AnyRun) → Says words.now (script_task language run) → (name : List ℕ) → run.journal ≡ Some name → IsTrue (H.tells shelf.old) → IfSome result.disks (λ p. RunsOver H.Disk.reads H.Disk.moment H.Disk.images language run.shape (H.holds shelf.old name) (H.holds shelf.old (alt_name name)) result.transcript.end result.transcript.items result.audit p.main p.alt ⊎ (IsNotRun result.transcript.items result.audit × RefusesFiles result.transcript.end (H.holds shelf.old name) (H.holds shelf.old (alt_name name)))) }
    // The same over files that don't tell their bytes, with some records.
    ensures ran { (language : AnyLanguage) (run : AnyRun) → Says words.now (script_task language run) → ((records : List AnyRecord) × RunsFrom language run.shape records result.transcript.end result.transcript.items result.audit) ⊎ IsNotRun result.transcript.items result.audit }
    // The committed transactions that were told are the audit's first ones, and at the end of a script all of them.
    ensures told { IsTold result.transcript.end result.transcript.items result.audit }
    // They are those of a plain list of records that runs them one at a time, in order of place.
    ensures serial { Serial result.audit.base result.audit.commits }
    // `play`: every answer fits what was told before it; at the end of the input every session was told of the end of its transaction; and where all
    // answers are one session's, each is that of a plain store.
    ensures fits { (run : AnyRun) → Says words.now (Play run) → IsConducted result.audit.base result.transcript.items }
    ensures closed { (run : AnyRun) → Says words.now (Play run) → result.transcript.end ≡ End.Input → IsClosed result.transcript.items script_sessions }
    ensures alone { (run : AnyRun) (s : ℕ) → Says words.now (Play run) → AreOf s result.transcript.items → IsAsPlain result.audit.base result.transcript.items }
    // `play` and `drill` over a short input and a whole journal: where no count of faults rose, all was read and written, or there was no memory.
    ensures complete { (language : AnyLanguage) (run : AnyRun) → Says words.now (script_task language run) → IsShort (S.left source.old) → IsAccepted run.journal (H.tells shelf.old) (H.holds shelf.old) → (Rose (S.read_faults source.old) (S.read_faults source.new) → ⊥) → (Rose (K.write_faults sink.old) (K.write_faults sink.new) → ⊥) → (MatchOption result.disks (Rose (H.faults shelf.old) (H.faults shelf.new)) (λ p. Rose 0 (H.Disk.faults p.main) ⊎ Rose 0 (H.Disk.faults p.alt)) → ⊥) → EndsWell result.status }
    // The same of `dump` and `check` over a whole journal, and of `make` and `stress`.
    ensures complete_reports { (name : List ℕ) → Says words.now (Dump name) ⊎ Says words.now (Check name) → IsAccepted (Some name) (H.tells shelf.old) (H.holds shelf.old) → (Rose (K.write_faults sink.old) (K.write_faults sink.new) → ⊥) → (MatchOption result.disks (Rose (H.faults shelf.old) (H.faults shelf.new)) (λ p. Rose 0 (H.Disk.faults p.main) ⊎ Rose 0 (H.Disk.faults p.alt)) → ⊥) → EndsWell result.status }
    ensures complete_make { (seed count : ℕ) → Says words.now (Make seed count) → (Rose (K.write_faults sink.old) (K.write_faults sink.new) → ⊥) → EndsWell result.status }
    ensures complete_stress { (seed count : ℕ) (shape : AnyShape) → Says words.now (Stress seed count shape) → (Rose (K.write_faults sink.old) (K.write_faults sink.new) → ⊥) → EndsWell result.status }
    // Of `compact` over a whole journal whose generations are not used up.
    ensures complete_compact { (name : List ℕ) → Says words.now (Compact name) → IsAccepted (Some name) (H.tells shelf.old) (H.holds shelf.old) → (IsWorn (H.holds shelf.old name) (H.holds shelf.old (alt_name name)) → ⊥) → (Rose (K.write_faults sink.old) (K.write_faults sink.new) → ⊥) → (MatchOption result.disks (Rose (H.faults shelf.old) (H.faults shelf.new)) (λ p. Rose 0 (H.Disk.faults p.main) ⊎ Rose 0 (H.Disk.faults p.alt)) → ⊥) → EndsWell result.status }
    // `stress`: the generated script is played in memory, and its summary written.
    ensures stress_status { (seed count : ℕ) (shape : AnyShape) → Says words.now (Stress seed count shape) → result.status ≡ status_of result.transcript.end }
    ensures stress_heard { (seed count : ℕ) (shape : AnyShape) → Says words.now (Stress seed count shape) → HearsScript result.transcript.end (script_text seed count) result.transcript.items }
    ensures stress_runs { (seed count : ℕ) (shape : AnyShape) → Says words.now (Stress seed count shape) → RunsInMemory Language.Commands shape result.transcript.end result.transcript.items result.audit }
    ensures stress_written { (seed count : ℕ) (shape : AnyShape) → Says words.now (Stress seed count shape) → WritesSummary result.transcript.end (K.taken sink.old) (K.taken sink.new) (K.write_faults sink.old) (K.write_faults sink.new) (summary_text (summary_of result.transcript.items result.audit)) }
    // No other command reads.
    ensures unread { ((language : AnyLanguage) (run : AnyRun) → Says words.now (script_task language run) → ⊥) → source.new ≡ source.old }
    ensures make { (seed count : ℕ) → Says words.now (Make seed count) → Makes result.status seed count (K.taken sink.old) (K.taken sink.new) (K.write_faults sink.old) (K.write_faults sink.new) }
    // The commands on a journal: what the two files hold by the names that the words say, and what was written.
    ensures dump { (name : List ℕ) → Says words.now (Dump name) → Finishes (λ end. IsTrue (H.tells shelf.old) → Reports dump_text end (H.holds shelf.old name) (H.holds shelf.old (alt_name name)) (K.taken sink.old) (K.taken sink.new)) result.status (K.taken sink.old) (K.taken sink.new) (K.write_faults sink.old) (K.write_faults sink.new) }
    ensures check { (name : List ℕ) → Says words.now (Check name) → Finishes (λ end. IsTrue (H.tells shelf.old) → Reports check_text end (H.holds shelf.old name) (H.holds shelf.old (alt_name name)) (K.taken sink.old) (K.taken sink.new)) result.status (K.taken sink.old) (K.taken sink.new) (K.write_faults sink.old) (K.write_faults sink.new) }
    ensures compact { (name : List ℕ) → Says words.now (Compact name) → Finishes (λ end. IsTrue (H.tells shelf.old) → IfSome result.disks (λ p. Compacts end (H.holds shelf.old name) (H.holds shelf.old (alt_name name)) (H.Disk.reads p.main) (H.Disk.reads p.alt) (K.taken sink.old) (K.taken sink.new))) result.status (K.taken sink.old) (K.taken sink.new) (K.write_faults sink.old) (K.write_faults sink.new) }
    // `dump` and `check` only read the disks that the shelf handed out.
    ensures main_looks { (name : List ℕ) → Says words.now (Dump name) ⊎ Says words.now (Check name) → IsTrue (H.tells shelf.old) → IfSome result.disks (λ p. (was : H.Disk) × (H.Disk.reads was ≡ H.holds shelf.old name) × OnlyReads (H.Disk.moment was) (H.Disk.moment p.main) (H.Disk.reads was) (H.Disk.reads p.main) (H.Disk.images was) (H.Disk.images p.main)) }
    ensures alt_looks { (name : List ℕ) → Says words.now (Dump name) ⊎ Says words.now (Check name) → IsTrue (H.tells shelf.old) → IfSome result.disks (λ p. (was : H.Disk) × (H.Disk.reads was ≡ H.holds shelf.old (alt_name name)) × OnlyReads (H.Disk.moment was) (H.Disk.moment p.alt) (H.Disk.reads was) (H.Disk.reads p.alt) (H.Disk.images was) (H.Disk.images p.alt)) }
    // Whatever a stop leaves of the disks of `compact`, since their first syncs, holds the same records.
    ensures crash { (name : List ℕ) → Says words.now (Compact name) → IsTrue (H.tells shelf.old) → IfSome result.disks (λ p. (main alt : H.Disk) × (H.Disk.reads main ≡ H.holds shelf.old name) × (H.Disk.reads alt ≡ H.holds shelf.old (alt_name name)) × Survives (H.Disk.moment main) (H.Disk.moment p.main) (H.Disk.moment alt) (H.Disk.moment p.alt) (H.Disk.reads main) (H.Disk.reads alt) (H.Disk.reads p.main) (H.Disk.reads p.alt) (H.Disk.images main) (H.Disk.images p.main) (H.Disk.images alt) (H.Disk.images p.alt)) }
    // The shelf is asked for the journal's two names, and where the words name no journal for nothing.
    ensures asked { (name : List ℕ) → NamesJournal words.now name → MatchOption result.disks (AsksFirst (H.asked shelf.old) (H.asked shelf.new) (names_of name)) (λ p. H.asked shelf.new ≡ H.asked shelf.old ++ names_of name) }
    ensures unfetched { (name : List ℕ) → NamesJournal words.now name → IfNone result.disks ((result.status ≡ 4) ⊎ (result.status ≡ 6)) }
    ensures unasked { ((name : List ℕ) → NamesJournal words.now name → ⊥) → (shelf.new ≡ shelf.old) × (result.disks ≡ None) }
    // At status 0 nothing that was written is held back.
    ensures handed { result.status ≡ 0 → K.holds_back sink.new ≡ false }
    ensures read_fault { result.status ≡ 2 → Rose (S.read_faults source.old) (S.read_faults source.new) }
    ensures write_fault { result.status ≡ 3 → Rose (K.write_faults sink.old) (K.write_faults sink.new) }
    ensures disk_fault { result.status ≡ 4 → MatchOption result.disks (Rose (H.faults shelf.old) (H.faults shelf.new)) (λ p. Rose 0 (H.Disk.faults p.main) ⊎ Rose 0 (H.Disk.faults p.alt)) }
{
    match read_words(alloc, words) {
        Ok(Some(task)) => perform(alloc, &task, source, sink, shelf),
        Ok(None) => refuse(alloc, sink, End::Usage),
        Err(_) => refuse(alloc, sink, End::Memory),
    }
}

// Nothing is done: the line of the fault is written.
fn refuse<D: Disk, K: Sink>(alloc: Global, sink: &mut K, end: End) -> Done<D>
    ensures status { result.status ≡ status_of end }
    ensures end { result.transcript.end ≡ end }
    ensures none { IsNotRun result.transcript.items result.audit }
    ensures disks { result.disks ≡ None }
    ensures written { WritesOrFails (K.taken sink.old) (K.taken sink.new) (K.write_faults sink.old) (K.write_faults sink.new) (last_line end) }
{
    write_last(sink, end);
    ended(alloc, end)
}

// Does what the task asks for.
fn perform<S: Source, K: Sink, H: Shelf>(
    alloc: Global,
    task: &Task,
    source: &mut S,
    sink: &mut K,
    shelf: &mut H,
) -> Done<H::Disk>
    requires { IsBounded task.now }
    ensures served { result.status ≢ 1 }
    ensures status { (language : AnyLanguage) (run : AnyRun) → task.now ≡ script_task language run → result.status ≡ status_of result.transcript.end }
    ensures read { (language : AnyLanguage) (run : AnyRun) → task.now ≡ script_task language run → ReadsTo (form_of language) result.transcript.end (S.left source.old) (S.left source.new) result.transcript.items }
    ensures written { (language : AnyLanguage) (run : AnyRun) → task.now ≡ script_task language run → Writes result.transcript.end (K.taken sink.old) (K.taken sink.new) (K.write_faults sink.old) (K.write_faults sink.new) (render (form_of language) result.transcript.items) (audit_line run.audit result.audit) }
    ensures in_memory { (language : AnyLanguage) (run : AnyRun) → task.now ≡ script_task language run → run.journal ≡ None → RunsInMemory language run.shape result.transcript.end result.transcript.items result.audit }
    ensures over_files { (language : AnyLanguage) (run : AnyRun) → task.now ≡ script_task language run → (name : List ℕ) → run.journal ≡ Some name → IsTrue (H.tells shelf.old) → IfSome result.disks (λ p. RunsOver H.Disk.reads H.Disk.moment H.Disk.images language run.shape (H.holds shelf.old name) (H.holds shelf.old (alt_name name)) result.transcript.end result.transcript.items result.audit p.main p.alt ⊎ (IsNotRun result.transcript.items result.audit × RefusesFiles result.transcript.end (H.holds shelf.old name) (H.holds shelf.old (alt_name name)))) }
    ensures ran { (language : AnyLanguage) (run : AnyRun) → task.now ≡ script_task language run → ((records : List AnyRecord) × RunsFrom language run.shape records result.transcript.end result.transcript.items result.audit) ⊎ IsNotRun result.transcript.items result.audit }
    ensures told { IsTold result.transcript.end result.transcript.items result.audit }
    ensures serial { Serial result.audit.base result.audit.commits }
    ensures stress_status { (seed count : ℕ) (shape : AnyShape) → task.now ≡ Stress seed count shape → result.status ≡ status_of result.transcript.end }
    ensures stress_ends { (seed count : ℕ) (shape : AnyShape) → task.now ≡ Stress seed count shape → EndsStress result.transcript.end }
    ensures stress_heard { (seed count : ℕ) (shape : AnyShape) → task.now ≡ Stress seed count shape → HearsScript result.transcript.end (script_text seed count) result.transcript.items }
    ensures stress_runs { (seed count : ℕ) (shape : AnyShape) → task.now ≡ Stress seed count shape → RunsInMemory Language.Commands shape result.transcript.end result.transcript.items result.audit }
    ensures stress_written { (seed count : ℕ) (shape : AnyShape) → task.now ≡ Stress seed count shape → WritesSummary result.transcript.end (K.taken sink.old) (K.taken sink.new) (K.write_faults sink.old) (K.write_faults sink.new) (summary_text (summary_of result.transcript.items result.audit)) }
    ensures unread { ((language : AnyLanguage) (run : AnyRun) → task.now ≡ script_task language run → ⊥) → source.new ≡ source.old }
    ensures make { (seed count : ℕ) → task.now ≡ Make seed count → Makes result.status seed count (K.taken sink.old) (K.taken sink.new) (K.write_faults sink.old) (K.write_faults sink.new) }
    ensures dump { (name : List ℕ) → task.now ≡ Dump name → Finishes (λ end. IsTrue (H.tells shelf.old) → Reports dump_text end (H.holds shelf.old name) (H.holds shelf.old (alt_name name)) (K.taken sink.old) (K.taken sink.new)) result.status (K.taken sink.old) (K.taken sink.new) (K.write_faults sink.old) (K.write_faults sink.new) }
    ensures check { (name : List ℕ) → task.now ≡ Check name → Finishes (λ end. IsTrue (H.tells shelf.old) → Reports check_text end (H.holds shelf.old name) (H.holds shelf.old (alt_name name)) (K.taken sink.old) (K.taken sink.new)) result.status (K.taken sink.old) (K.taken sink.new) (K.write_faults sink.old) (K.write_faults sink.new) }
    ensures compact { (name : List ℕ) → task.now ≡ Compact name → Finishes (λ end. IsTrue (H.tells shelf.old) → IfSome result.disks (λ p. Compacts end (H.holds shelf.old name) (H.holds shelf.old (alt_name name)) (H.Disk.reads p.main) (H.Disk.reads p.alt) (K.taken sink.old) (K.taken sink.new))) result.status (K.taken sink.old) (K.taken sink.new) (K.write_faults sink.old) (K.write_faults sink.new) }
    ensures main_looks { (name : List ℕ) → task.now ≡ Dump name ⊎ task.now ≡ Check name → IsTrue (H.tells shelf.old) → IfSome result.disks (λ p. (was : H.Disk) × (H.Disk.reads was ≡ H.holds shelf.old name) × OnlyReads (H.Disk.moment was) (H.Disk.moment p.main) (H.Disk.reads was) (H.Disk.reads p.main) (H.Disk.images was) (H.Disk.images p.main)) }
    ensures alt_looks { (name : List ℕ) → task.now ≡ Dump name ⊎ task.now ≡ Check name → IsTrue (H.tells shelf.old) → IfSome result.disks (λ p. (was : H.Disk) × (H.Disk.reads was ≡ H.holds shelf.old (alt_name name)) × OnlyReads (H.Disk.moment was) (H.Disk.moment p.alt) (H.Disk.reads was) (H.Disk.reads p.alt) (H.Disk.images was) (H.Disk.images p.alt)) }
    ensures crash { (name : List ℕ) → task.now ≡ Compact name → IsTrue (H.tells shelf.old) → IfSome result.disks (λ p. (main alt : H.Disk) × (H.Disk.reads main ≡ H.holds shelf.old name) × (H.Disk.reads alt ≡ H.holds shelf.old (alt_name name)) × Survives (H.Disk.moment main) (H.Disk.moment p.main) (H.Disk.moment alt) (H.Disk.moment p.alt) (H.Disk.reads main) (H.Disk.reads alt) (H.Disk.reads p.main) (H.Disk.reads p.alt) (H.Disk.images main) (H.Disk.images p.main) (H.Disk.images alt) (H.Disk.images p.alt)) }
    ensures asked { (name : List ℕ) → IsOnFiles name task.now → MatchOption result.disks (AsksFirst (H.asked shelf.old) (H.asked shelf.new) (names_of name)) (λ p. H.asked shelf.new ≡ H.asked shelf.old ++ names_of name) }
    ensures unfetched { (name : List ℕ) → IsOnFiles name task.now → IfNone result.disks ((result.status ≡ 4) ⊎ (result.status ≡ 6)) }
    ensures unasked { ((name : List ℕ) → IsOnFiles name task.now → ⊥) → (shelf.new ≡ shelf.old) × (result.disks ≡ None) }
    ensures handed { result.status ≡ 0 → K.holds_back sink.new ≡ false }
    ensures read_fault { result.status ≡ 2 → Rose (S.read_faults source.old) (S.read_faults source.new) }
    ensures write_fault { result.status ≡ 3 → Rose (K.write_faults sink.old) (K.write_faults sink.new) }
    ensures disk_fault { result.status ≡ 4 → MatchOption result.disks (Rose (H.faults shelf.old) (H.faults shelf.new)) (λ p. Rose 0 (H.Disk.faults p.main) ⊎ Rose 0 (H.Disk.faults p.alt)) }
{
    match task {
        Task::Play(run) => run_script(alloc, Language::Commands, run, source, sink, shelf),
        Task::Drill(run) => run_script(alloc, Language::Events, run, source, sink, shelf),
        Task::Stress { seed, count, shape } => ran(stress(alloc, *seed, *count, *shape, sink)),
        Task::Make { seed, count } => ended(alloc, make(alloc, sink, *seed, *count)),
        Task::Dump { journal } => finished(alloc, dump(alloc, shelf, journal.as_str(), sink)),
        Task::Check { journal } => finished(alloc, check(alloc, shelf, journal.as_str(), sink)),
        Task::Compact { journal } => finished(alloc, compact(alloc, shelf, journal.as_str(), sink)),
    }
}

// Runs the script that the source gives, in memory or over the journal that the run names.
fn run_script<S: Source, K: Sink, H: Shelf>(
    alloc: Global,
    language: Language,
    run: &Run,
    source: &mut S,
    sink: &mut K,
    shelf: &mut H,
) -> Done<H::Disk>
    requires { IsShape run.now.shape }
    ensures served { result.status ≢ 1 }
    ensures status { result.status ≡ status_of result.transcript.end }
    ensures read { ReadsTo (form_of language) result.transcript.end (S.left source.old) (S.left source.new) result.transcript.items }
    ensures written { Writes result.transcript.end (K.taken sink.old) (K.taken sink.new) (K.write_faults sink.old) (K.write_faults sink.new) (render (form_of language) result.transcript.items) (audit_line run.now.audit result.audit) }
    ensures in_memory { run.now.journal ≡ None → RunsInMemory language run.now.shape result.transcript.end result.transcript.items result.audit }
    ensures over_files { (name : List ℕ) → run.now.journal ≡ Some name → IsTrue (H.tells shelf.old) → IfSome result.disks (λ p. RunsOver H.Disk.reads H.Disk.moment H.Disk.images language run.now.shape (H.holds shelf.old name) (H.holds shelf.old (alt_name name)) result.transcript.end result.transcript.items result.audit p.main p.alt ⊎ (IsNotRun result.transcript.items result.audit × RefusesFiles result.transcript.end (H.holds shelf.old name) (H.holds shelf.old (alt_name name)))) }
    ensures ran { ((records : List AnyRecord) × RunsFrom language run.now.shape records result.transcript.end result.transcript.items result.audit) ⊎ IsNotRun result.transcript.items result.audit }
    ensures told { IsTold result.transcript.end result.transcript.items result.audit }
    ensures serial { Serial result.audit.base result.audit.commits }
    ensures asked { (name : List ℕ) → run.now.journal ≡ Some name → MatchOption result.disks (AsksFirst (H.asked shelf.old) (H.asked shelf.new) (names_of name)) (λ p. H.asked shelf.new ≡ H.asked shelf.old ++ names_of name) }
    ensures unfetched { (name : List ℕ) → run.now.journal ≡ Some name → IfNone result.disks ((result.status ≡ 4) ⊎ (result.status ≡ 6)) }
    ensures unasked { run.now.journal ≡ None → (shelf.new ≡ shelf.old) × (result.disks ≡ None) }
    ensures handed { result.status ≡ 0 → K.holds_back sink.new ≡ false }
    ensures read_fault { result.status ≡ 2 → Rose (S.read_faults source.old) (S.read_faults source.new) }
    ensures write_fault { result.status ≡ 3 → Rose (K.write_faults sink.old) (K.write_faults sink.new) }
    ensures disk_fault { result.status ≡ 4 → MatchOption result.disks (Rose (H.faults shelf.old) (H.faults shelf.new)) (λ p. Rose 0 (H.Disk.faults p.main) ⊎ Rose 0 (H.Disk.faults p.alt)) }
{
    match &run.journal {
        None => ran(run_in_memory(alloc, language, run.shape, run.audit, source, sink)),
        Some(name) => ran_on_files(run_on_files(
            alloc,
            language,
            run.shape,
            run.audit,
            shelf,
            name.as_str(),
            source,
            sink,
        )),
    }
}
