// What a run leaves.
ghost use Rattle.std.specs.Prelude.{◌≡◌, [], None};
ghost use Rattle.sp_files.specs.Ending.{status_of as status_of_files};
ghost use Rattle.sp_runs.specs.Running.{IsNotRun};
ghost use Rattle.spatial.specs.Commands.{status_of};

use crate::ending::status_of;
use sp_audit::Audit;
use sp_disk::Disk;
use sp_files::Finished;
use sp_pair::Pair;
use sp_rect::Records;
use sp_runs::{Ran, RanOnFiles};
use sp_text::{End, Items, Transcript};
use std::alloc::Global;

/// What a run leaves: its exit status, what a script said and was answered, the audit of its commits, and the disks of the journal where
/// they were fetched. A command that hears no script leaves an empty transcript and an empty audit.
#[derive(Drop)]
pub struct Done<D: Disk> {
    pub status: u8,
    pub transcript: Transcript,
    pub audit: Audit,
    pub disks: Option<Pair<D>>,
}

// A run in memory.
pub(crate) fn ran<D: Disk>(ran: Ran) -> Done<D>
    ensures status { result.status ≡ status_of ran.transcript.end }
    ensures transcript { result.transcript ≡ ran.transcript }
    ensures audit { result.audit ≡ ran.audit }
    ensures disks { result.disks ≡ None }
{
    let Ran { transcript, audit } = ran;
    Done {
        status: status_of(transcript.end),
        transcript,
        audit,
        disks: None,
    }
}

// A run over the files of a journal.
pub(crate) fn ran_on_files<D: Disk>(ran: RanOnFiles<D>) -> Done<D>
    ensures status { result.status ≡ status_of ran.transcript.end }
    ensures transcript { result.transcript ≡ ran.transcript }
    ensures audit { result.audit ≡ ran.audit }
    ensures disks { result.disks ≡ ran.disks }
{
    let RanOnFiles {
        transcript,
        audit,
        disks,
    } = ran;
    Done {
        status: status_of(transcript.end),
        transcript,
        audit,
        disks,
    }
}

// A command without a script and without files, which ended so.
pub(crate) fn ended<D: Disk>(alloc: Global, end: End) -> Done<D>
    ensures status { result.status ≡ status_of end }
    ensures end { result.transcript.end ≡ end }
    ensures none { IsNotRun result.transcript.items result.audit }
    ensures disks { result.disks ≡ None }
{
    Done {
        status: status_of(end),
        transcript: silence(alloc, end),
        audit: Audit::new(alloc, Records::new(alloc)),
        disks: None,
    }
}

// A command on the files of a journal.
pub(crate) fn finished<D: Disk>(alloc: Global, finished: Finished<D>) -> Done<D>
    ensures status { result.status ≡ status_of_files finished.end }
    ensures none { IsNotRun result.transcript.items result.audit }
    ensures disks { result.disks ≡ finished.disks }
{
    let Finished { end, disks } = finished;
    Done {
        status: end.status(),
        transcript: silence(alloc, End::Input),
        audit: Audit::new(alloc, Records::new(alloc)),
        disks,
    }
}

// Nothing was heard.
fn silence(alloc: Global, end: End) -> Transcript
    ensures { result ≡ record { items = []; end = end } }
{
    Transcript {
        items: Items::new(alloc),
        end,
    }
}
