// The smallest scripts, and a summary.
use crate::{Summary, push_summary, script};
use sp_list::Text;
use std::test::Fail;

const ONE_ROUND: &str =
    "A begin\nB begin\nC begin\nA get 249\nB put 878 7923 7709 7963 7774 v1\nC find 7987 2503 8014 2532\nA put 612 4303 3169 4312 3226 v1\nB put 933 3099 278 3115 313 v1\nC put 826 3512 9267 3522 9300 v1\nA commit\nB commit\nC commit\n";

#[test]
fn scripts_of_seed_1(rt: HostRuntime) -> Result<(), Fail> {
    for (count, text) in [(0, ""), (1, ONE_ROUND)] {
        let made = script(rt.alloc(), 1, count)?;
        assert_eq!(rt; made.bytes(), text.as_bytes());
    }
    Ok(())
}

#[test]
fn a_summary(rt: HostRuntime) -> Result<(), Fail> {
    let mut text = Text::new(rt.alloc());
    let summary = Summary {
        lines: 12000,
        commits: 2982,
        waits: 80,
        deadlocks: 0,
        refused: 65,
        records: 766,
    };
    push_summary(&mut text, &summary)?;
    let told = "lines 12000\ncommits 2982\nwaits 80\ndeadlocks 0\nrefused 65\nrecords 766\n";
    assert_eq!(rt; text.bytes(), told.as_bytes());
    Ok(())
}
