// Scripts of events over a journal, and the lines that they are answered.
use crate::tests::{J1, NO_FAILS, Ran, Row, run};
use std::test::Fail;

const WORDS: &[&str] = &["drill", "--journal", "J1", "--max", "4", "--min", "2"];

const ROWS: [Row; 7] = [
    // Two entries of one id, of which one is dead.
    (
        "A begin\nA start drop 3\nA name\nA plan\nA ask\nA apply\nA commit\nflush\nflush\nflush\nflush\nB begin\nB start put 3 1 1 2 2 n\nB name\nB plan\nB ask\nB apply\nB commit\nflush\nflush\nflush\nflush\nclean\nclean\n",
        "A began 0\nA started\nA granted\nA planned 1\nA granted\nA done\nA queued\n- wrote\n- wrote\n- wrote\n- durable 1 1\nA committed 1\nB began 1\nB started\nB granted\nB planned 1\nB granted\nB done\nB queued\n- wrote\n- wrote\n- wrote\n- durable 2 1\nB committed 2\n- removed 3\n- nothing\n",
    ),
    // A search beside a change elsewhere.
    (
        "B begin\nB start set 3 z\nB name\nB plan\nB ask\nB apply\nA begin\nA start find 1 1 3 3\nA name\nA plan\nB commit\nflush\nflush\nflush\nflush\nA ask\nA apply\nA commit\n",
        "B began 0\nB started\nB granted\nB planned 1\nB granted\nB done\nA began 0\nA started\nA granted\nA planned 1\nB queued\n- wrote\n- wrote\n- wrote\n- durable 1 1\nB committed 1\nA granted\nA found 1\nA rec 1 0 0 2 2 a\nA committed 2\n",
    ),
    // The latch.
    (
        "A begin\nA start set 1 z\nA name\nA plan\nB begin\nB start find 1 1 3 3\nB name\nB plan\nA rollback\nB plan\nB apply\nB ask\nB apply\n",
        "A began 0\nA started\nA granted\nA planned 1\nB began 0\nB started\nB granted\nB latch A\nA rolledback\nB planned 1\nB refused phase\nB granted\nB found 1\nB rec 1 0 0 2 2 a\n",
    ),
    // A removal that a search holds up.
    (
        "A begin\nA start drop 3\nA name\nA plan\nA ask\nA apply\nA commit\nflush\nflush\nflush\nflush\nB begin\nB start find 101 1 103 3\nB name\nB plan\nB ask\nB apply\nclean\nB commit\nclean\n",
        "A began 0\nA started\nA granted\nA planned 1\nA granted\nA done\nA queued\n- wrote\n- wrote\n- wrote\n- durable 1 1\nA committed 1\nB began 1\nB started\nB granted\nB planned 1\nB granted\nB found 0\n- later granule 2 B S\nB committed 2\n- removed 3\n",
    ),
    // A name that waits.
    (
        "A begin\nA start drop 3\nA name\nA plan\nA ask\nA apply\nB begin\nB start get 3\nB name\nB name\nB plan\nA rollback\nB name\nB plan\nB apply\n",
        "A began 0\nA started\nA granted\nA planned 1\nA granted\nA done\nB began 0\nB started\nB waits object 3 S A\nB still object 3\nB refused phase\nA rolledback\nB granted\nB planned 0\nB rec 3 100 0 102 2 c\n",
    ),
    // Events in a wrong phase, and lines that are none.
    (
        "A begin\nA name\nA start\nA start fly\nA find 1 1 1 1\nA start find 1 1 1\nB name\nflush now\nflush\nA commit\nA commit\nclean\n",
        "A began 0\nA refused phase\nA bad command\nA bad command\nA bad command\nA bad words\nB refused notxn\n? bad session\n- nothing\nA committed 1\nA refused notxn\n- nothing\n",
    ),
    // Two commits in one batch take their places in the order in which they were queued.
    (
        "A begin\nB begin\nA start set 1 x\nA name\nA plan\nA ask\nA apply\nB start set 3 y\nB name\nB plan\nB ask\nB apply\nB commit\nB rollback\nB begin\nA commit\nflush\nflush\nflush\nflush\n",
        "A began 0\nB began 0\nA started\nA granted\nA planned 1\nA granted\nA done\nB started\nB granted\nB planned 1\nB granted\nB done\nB queued\nB refused busy\nB refused busy\nA queued\n- wrote\n- wrote\n- wrote\n- durable 1 2\nB committed 1\nA committed 2\n",
    ),
];

#[test]
fn events_write_their_answers(rt: HostRuntime) -> Result<(), Fail> {
    for (script, text) in ROWS {
        for piece in [7, 4096] {
            let Ran { done, sink } = run(rt.alloc(), WORDS, (script, piece), (J1, b""), NO_FAILS)?;
            assert_eq!(rt; done.status, 0);
            assert_eq!(rt; sink.bytes(), text.as_bytes(), "{script}");
            assert!(rt; done.disks.is_some());
        }
    }
    Ok(())
}
