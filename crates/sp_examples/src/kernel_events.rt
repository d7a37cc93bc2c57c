// Scripts of events over a store of five records, and the lines that a kernel answers to them.
use sp_disk::HonestDisk;
use sp_event::{Answer, Event};
use sp_kernel::{Kernel, StartError};
use sp_list::Duplicate;
use sp_locks::SessionId;
use sp_node::Shape;
use sp_rect::Text;
use sp_text::{Form, Item, Said, TextError, push_item, read_line};
use std::alloc::Global;
use std::test::Fail;

// Lines of events, and the lines of the answers to them, each ended by a line feed.
type Turn = (&'static str, &'static str);

// A kernel that hears a script.
#[derive(Drop)]
struct Drill {
    alloc: Global,
    kernel: Kernel<HonestDisk>,
    // The sessions whose commits were queued, in order, and how many of these have been told their places.
    queued: Vec<SessionId>,
    placed: usize,
    text: Text,
}

fn started(alloc: Global, disk: HonestDisk) -> Result<Drill, Fail> {
    match Kernel::start(alloc, disk, Shape { max: 4, min: 2 }) {
        Ok(kernel) => Ok(Drill {
            alloc,
            kernel,
            queued: Vec::new(alloc),
            placed: 0,
            text: Text::new(alloc),
        }),
        Err((_, error)) => Err(Fail::from(error)),
    }
}

impl Drill {
    // Hears the lines, and leaves the text of the answers.
    fn hear(&mut self, lines: &[u8]) -> Result<(), Fail> {
        self.text.clear();
        for line in lines.split(|b| *b == b'\n') {
            if !line.is_empty() {
                self.hear_line(line)?;
            }
        }
        Ok(())
    }

    fn hear_line(&mut self, line: &[u8]) -> Result<(), Fail> {
        match read_line(self.alloc, line, Form::Drill) {
            Ok(Said::Step(event)) => self.run(event),
            Ok(_) => Err(Fail::from("no event")),
            Err(error) => Err(Fail::from(error)),
        }
    }

    // Does the event, and where it makes a batch durable tells each commit of that its place.
    fn run(&mut self, event: Event) -> Result<(), Fail> {
        let count = self.step(event, false)?;
        for _ in 0..count {
            let Some(session) = self.queued.get(self.placed).copied() else {
                return Err(Fail::from("a place for nobody"));
            };
            self.placed = self.placed.saturating_add(1);
            self.step(Event::Commit(session), true)?;
        }
        Ok(())
    }

    // Does the event, adds the text of the answer, and gives the number of commits that it made durable.
    fn step(&mut self, event: Event, late: bool) -> Result<u64, Fail> {
        let answer = self.kernel.step(event.copy(self.alloc)?);
        let count = self.note(&event, &answer)?;
        let item = Item::Stepped {
            event,
            answer,
            late,
        };
        push_item(&mut self.text, &item, Form::Drill)?;
        Ok(count)
    }

    fn note(&mut self, event: &Event, answer: &Answer) -> Result<u64, Fail> {
        match (event, answer) {
            (Event::Commit(session), Answer::Queued) => {
                self.queued.push(*session)?;
                Ok(0)
            }
            (_, Answer::Durable { count, .. }) => Ok(*count),
            _ => Ok(0),
        }
    }
}

fn check(drill: &mut Drill, turns: &[Turn]) -> Result<(), Fail> {
    for (lines, answers) in turns {
        drill.hear(lines.as_bytes())?;
        if drill.text.bytes() != answers.as_bytes() {
            return Err(Fail::from(("other answers", *lines)));
        }
    }
    Ok(())
}

// The turns, over a kernel that was started anew on the journal which those turns made that come first.
fn check_over(alloc: Global, first: &[Turn], turns: &[Turn]) -> Result<(), Fail> {
    let mut before = started(alloc, HonestDisk::new(alloc)?)?;
    check(&mut before, first)?;
    let (_, disk) = before.kernel.finish();
    let mut after = started(alloc, disk)?;
    check(&mut after, turns)
}

// Two leaves that stand apart: leaf 1 has the records 1, 2 and 5, leaf 2 has 3 and 4. The first put locks the leaf, and
// the last splits it.
const APART: [Turn; 6] = [
    (
        "Z begin\nZ start put 1 0 0 2 2 a\nZ name\nZ plan\nZ ask\nZ apply\n",
        "Z began 0\nZ started\nZ granted\nZ planned 1\nZ granted\nZ done\n",
    ),
    (
        "Z start put 2 8 8 10 10 b\nZ name\nZ plan\nZ apply\n",
        "Z started\nZ granted\nZ planned 0\nZ done\n",
    ),
    (
        "Z start put 3 100 0 102 2 c\nZ name\nZ plan\nZ apply\n",
        "Z started\nZ granted\nZ planned 0\nZ done\n",
    ),
    (
        "Z start put 4 108 8 110 10 d\nZ name\nZ plan\nZ apply\n",
        "Z started\nZ granted\nZ planned 0\nZ done\n",
    ),
    (
        "Z start put 5 4 4 6 6 e\nZ name\nZ plan\nZ ask\nZ apply\n",
        "Z started\nZ granted\nZ planned 1\nZ granted\nZ done\n",
    ),
    (
        "Z commit\nflush\nflush\nflush\nflush\n",
        "Z queued\n- wrote\n- wrote\n- wrote\n- durable 1 1\nZ committed 1\n",
    ),
];

// A leaf as wide as its sibling is high: leaf 1 has the records 1, 2 and 5, leaf 2 has 3 and 4.
const CROSSED: [Turn; 6] = [
    (
        "Z begin\nZ start put 1 0 0 2 9 a\nZ name\nZ plan\nZ ask\nZ apply\n",
        "Z began 0\nZ started\nZ granted\nZ planned 1\nZ granted\nZ done\n",
    ),
    (
        "Z start put 2 98 0 100 9 b\nZ name\nZ plan\nZ apply\n",
        "Z started\nZ granted\nZ planned 0\nZ done\n",
    ),
    (
        "Z start put 3 50 10 51 20 c\nZ name\nZ plan\nZ apply\n",
        "Z started\nZ granted\nZ planned 0\nZ done\n",
    ),
    (
        "Z start put 4 50 990 51 1000 d\nZ name\nZ plan\nZ apply\n",
        "Z started\nZ granted\nZ planned 0\nZ done\n",
    ),
    (
        "Z start put 5 40 0 60 9 e\nZ name\nZ plan\nZ ask\nZ apply\n",
        "Z started\nZ granted\nZ planned 1\nZ granted\nZ done\n",
    ),
    (
        "Z commit\nflush\nflush\nflush\nflush\n",
        "Z queued\n- wrote\n- wrote\n- wrote\n- durable 1 1\nZ committed 1\n",
    ),
];

// B's leaf would grow over the corner that A searched and found empty.
const EMPTY_CORNER: [Turn; 5] = [
    (
        "A begin\nA start find 50 50 60 60\nA name\nA plan\nA ask\nA apply\n",
        "A began 0\nA started\nA granted\nA planned 1\nA granted\nA found 0\n",
    ),
    (
        "B begin\nB start put 6 55 55 56 56 f\nB name\nB plan\nB ask\nB ask\n",
        "B began 0\nB started\nB granted\nB planned 2\nB granted\nB waits granule 3 IX A\n",
    ),
    ("A commit\n", "A committed 1\n"),
    (
        "B plan\nB ask\nB apply\n",
        "B planned 1\nB granted\nB done\n",
    ),
    (
        "B commit\nflush\nflush\nflush\nflush\n",
        "B queued\n- wrote\n- wrote\n- wrote\n- durable 2 1\nB committed 2\n",
    ),
];

#[test]
fn an_empty_corner_outside_all_leaves(rt: HostRuntime) -> Result<(), Fail> {
    check_over(rt.alloc(), &APART, &EMPTY_CORNER)
}

// The first leaf would get points of the second, which A holds, and points of no leaf.
const SIBLINGS_SPACE: [Turn; 5] = [
    (
        "A begin\nA start find 50 12 51 13\nA name\nA plan\nA ask\nA apply\n",
        "A began 0\nA started\nA granted\nA planned 1\nA granted\nA found 1\nA rec 3 50 10 51 20 c\n",
    ),
    (
        "B begin\nB start put 6 90 15 95 16 f\nB name\nB plan\nB ask\nB ask\n",
        "B began 0\nB started\nB granted\nB planned 3\nB granted\nB waits granule 2 IX A\n",
    ),
    ("A commit\n", "A committed 1\n"),
    (
        "B plan\nB ask\nB ask\nB apply\n",
        "B planned 2\nB granted\nB granted\nB done\n",
    ),
    (
        "B commit\nflush\nflush\nflush\nflush\n",
        "B queued\n- wrote\n- wrote\n- wrote\n- durable 2 1\nB committed 2\n",
    ),
];

#[test]
fn a_leaf_that_grows_into_its_siblings_space(rt: HostRuntime) -> Result<(), Fail> {
    check_over(rt.alloc(), &CROSSED, &SIBLINGS_SPACE)
}

// Each puts into what the other searched. B's wait would close a cycle, so B is undone, and A holds what it waited for.
const CROSSWISE: [Turn; 6] = [
    (
        "A begin\nA start find 1 1 3 3\nA name\nA plan\nA ask\nA apply\n",
        "A began 0\nA started\nA granted\nA planned 1\nA granted\nA found 1\nA rec 1 0 0 2 2 a\n",
    ),
    (
        "B begin\nB start find 101 1 103 3\nB name\nB plan\nB ask\nB apply\n",
        "B began 0\nB started\nB granted\nB planned 1\nB granted\nB found 1\nB rec 3 100 0 102 2 c\n",
    ),
    (
        "A start put 6 104 4 105 5 f\nA name\nA plan\nA ask\n",
        "A started\nA granted\nA planned 1\nA waits granule 2 IX B\n",
    ),
    (
        "B start put 7 3 3 4 4 g\nB name\nB plan\nB ask\n",
        "B started\nB granted\nB planned 1\nB deadlock 2\nB edge B A granule 1 IX held S\nB edge A B granule 2 IX held S\n",
    ),
    ("A plan\nA apply\n", "A planned 0\nA done\n"),
    (
        "A commit\nflush\nflush\nflush\nflush\nB commit\n",
        "A queued\n- wrote\n- wrote\n- wrote\n- durable 1 1\nA committed 1\nB refused notxn\n",
    ),
];

#[test]
fn each_puts_into_what_the_other_searched(rt: HostRuntime) -> Result<(), Fail> {
    check_over(rt.alloc(), &APART, &CROSSWISE)
}

// C waits for B, which came before it and waits for A, so A may not wait for C.
const EARLIER_WAITER: [Turn; 8] = [
    (
        "A begin\nA start find 1 1 3 3\nA name\nA plan\nA ask\nA apply\n",
        "A began 0\nA started\nA granted\nA planned 1\nA granted\nA found 1\nA rec 1 0 0 2 2 a\n",
    ),
    (
        "C begin\nC start set 3 z\nC name\nC plan\nC ask\nC apply\n",
        "C began 0\nC started\nC granted\nC planned 1\nC granted\nC done\n",
    ),
    (
        "B begin\nB start put 6 3 3 4 4 f\nB name\nB plan\nB ask\n",
        "B began 0\nB started\nB granted\nB planned 1\nB waits granule 1 IX A\n",
    ),
    (
        "C start find 1 1 3 3\nC name\nC plan\nC ask\n",
        "C started\nC granted\nC planned 1\nC waits granule 1 S B\n",
    ),
    (
        "A start get 3\nA name\n",
        "A started\nA deadlock 3\nA edge A C object 3 S held X\nA edge C B granule 1 S waiting IX\nA edge B A granule 1 IX held S\n",
    ),
    (
        "C plan\nB plan\nB apply\n",
        "C still granule 1\nB planned 0\nB done\n",
    ),
    (
        "B commit\nflush\nflush\nflush\nflush\n",
        "B queued\n- wrote\n- wrote\n- wrote\n- durable 1 1\nB committed 1\n",
    ),
    (
        "C plan\nC apply\nC commit\nflush\nflush\nflush\nflush\n",
        "C planned 0\nC found 2\nC rec 1 0 0 2 2 a\nC rec 6 3 3 4 4 f\nC queued\n- wrote\n- wrote\n- wrote\n- durable 2 1\nC committed 2\n",
    ),
];

#[test]
fn a_cycle_through_an_earlier_waiter(rt: HostRuntime) -> Result<(), Fail> {
    check_over(rt.alloc(), &APART, &EARLIER_WAITER)
}

const DROP_OF_3: Turn = (
    "A begin\nA start drop 3\nA name\nA plan\nA ask\nA apply\nA commit\nflush\nflush\nflush\nflush\n",
    "A began 0\nA started\nA granted\nA planned 1\nA granted\nA done\nA queued\n- wrote\n- wrote\n- wrote\n- durable 1 1\nA committed 1\n",
);

// The id stands in the tree twice until the dead entry is removed, which empties its leaf below the least.
const PUT_ANEW: [Turn; 5] = [
    DROP_OF_3,
    (
        "B begin\nB start put 3 1 1 2 2 n\nB name\nB plan\nB ask\nB apply\nB commit\nflush\nflush\nflush\nflush\n",
        "B began 1\nB started\nB granted\nB planned 1\nB granted\nB done\nB queued\n- wrote\n- wrote\n- wrote\n- durable 2 1\nB committed 2\n",
    ),
    ("clean\nclean\n", "- removed 3\n- nothing\n"),
    // record 4 went to leaf 1, which was split, and stands in leaf 4
    (
        "C begin\nC start set 4 z\nC name\nC plan\nC ask\nC apply\n",
        "C began 2\nC started\nC granted\nC planned 1\nC granted\nC done\n",
    ),
    (
        "D begin\nD start find 9 9 100 9\nD name\nD plan\nD ask\n",
        "D began 2\nD started\nD granted\nD planned 1\nD waits granule 4 S C\n",
    ),
];

#[test]
fn an_id_that_is_put_anew_beside_its_dead_entry(rt: HostRuntime) -> Result<(), Fail> {
    check_over(rt.alloc(), &APART, &PUT_ANEW)
}

// B's commit and its flushes take no latch, so they pass a search that has it.
const COMMIT_UNDER_LATCH: [Turn; 4] = [
    (
        "B begin\nB start set 3 z\nB name\nB plan\nB ask\nB apply\n",
        "B began 0\nB started\nB granted\nB planned 1\nB granted\nB done\n",
    ),
    (
        "A begin\nA start find 1 1 3 3\nA name\nA plan\n",
        "A began 0\nA started\nA granted\nA planned 1\n",
    ),
    (
        "B commit\nflush\nflush\nflush\nflush\n",
        "B queued\n- wrote\n- wrote\n- wrote\n- durable 1 1\nB committed 1\n",
    ),
    (
        "A ask\nA apply\nA commit\n",
        "A granted\nA found 1\nA rec 1 0 0 2 2 a\nA committed 2\n",
    ),
];

#[test]
fn a_commit_while_a_search_has_the_latch(rt: HostRuntime) -> Result<(), Fail> {
    check_over(rt.alloc(), &APART, &COMMIT_UNDER_LATCH)
}

// A change has the latch alone, and a rollback gives it back.
const LATCH: [Turn; 4] = [
    (
        "A begin\nA start set 1 z\nA name\nA plan\n",
        "A began 0\nA started\nA granted\nA planned 1\n",
    ),
    (
        "B begin\nB start find 1 1 3 3\nB name\nB plan\n",
        "B began 0\nB started\nB granted\nB latch A\n",
    ),
    ("A rollback\n", "A rolledback\n"),
    (
        "B plan\nB apply\nB ask\nB apply\n",
        "B planned 1\nB refused phase\nB granted\nB found 1\nB rec 1 0 0 2 2 a\n",
    ),
];

#[test]
fn a_latch_that_is_busy_until_a_rollback(rt: HostRuntime) -> Result<(), Fail> {
    check_over(rt.alloc(), &APART, &LATCH)
}

// B searched the leaf that would be gone without the dead entry.
const LATER: [Turn; 7] = [
    DROP_OF_3,
    (
        "B begin\nB start find 101 1 103 3\nB name\nB plan\nB ask\nB apply\n",
        "B began 1\nB started\nB granted\nB planned 1\nB granted\nB found 0\n",
    ),
    ("clean\n", "- later granule 2 B S\n"),
    ("B commit\n", "B committed 2\n"),
    ("clean\n", "- removed 3\n"),
    // leaf 1 is the root, with all of space
    (
        "C begin\nC start set 4 z\nC name\nC plan\nC ask\nC apply\n",
        "C began 2\nC started\nC granted\nC planned 1\nC granted\nC done\n",
    ),
    (
        "D begin\nD start find 500 500 501 501\nD name\nD plan\nD ask\n",
        "D began 2\nD started\nD granted\nD planned 1\nD waits granule 1 S C\n",
    ),
];

#[test]
fn a_removal_that_waits_for_a_search(rt: HostRuntime) -> Result<(), Fail> {
    check_over(rt.alloc(), &APART, &LATER)
}
