// Lines that are no commands, and how lines are cut.
use crate::tests::{NO_FAILS, NO_FILES, Ran, run};
use std::test::Fail;

// What ends a line, what is blank, and the first reason why a line is bad.
#[test]
fn lines_are_cut(rt: HostRuntime) -> Result<(), Fail> {
    for (script, text) in [
        (
            "a begin\nA\nA beginn\nA begin now\nA put 01 0 0 0 0 x\nA put 1 5 0 4 0 x\n\n#\nA get 1",
            "? bad session\nA bad command\nA bad command\nA bad words\nA bad number\nA bad rect\nA refused notxn\n",
        ),
        // The last line needs no line end.
        ("A get 1", "A refused notxn\n"),
        (
            "A begin\nA begin\nA put 7 1 1 1 1 x",
            "A began 0\nA refused intxn\nA done\nA rolledback\n",
        ),
        // A CR before an LF is no part of a line.
        (
            "\n#\r\n# A begin\nA begin\r\nA commit\r\nA commit",
            "A began 0\nA committed 1\nA refused notxn\n",
        ),
        // By ascending id, whatever the order of the puts; rectangles that touch meet.
        (
            "A begin\nA put 18446744073709551615 4 4 9 9 z\nA put 0 0 0 5 5 ~!\nA put 3 5 6 5 6 m\nA find 5 5 5 6\n",
            "A began 0\nA done\nA done\nA done\nA found 3\nA rec 0 0 0 5 5 ~!\nA rec 3 5 6 5 6 m\nA rec 18446744073709551615 4 4 9 9 z\nA rolledback\n",
        ),
    ] {
        for piece in [1, 7, 4096] {
            let Ran { done, sink } = run(
                rt.alloc(),
                &["play"],
                (script, piece),
                NO_FILES,
                NO_FAILS,
            )?;
            assert_eq!(rt; done.status, 0);
            assert_eq!(rt; sink.bytes(), text.as_bytes(), "{script}");
        }
    }
    Ok(())
}

// Lines that are no commands: each is answered with the first reason why, and changes nothing.
#[test]
fn other_lines_are_bad(rt: HostRuntime) -> Result<(), Fail> {
    for (line, text) in [
        ("a begin", "? bad session\n"),
        ("A", "A bad command\n"),
        ("A ", "A bad command\n"),
        (" A begin", "? bad session\n"),
        ("A  begin", "A bad command\n"),
        ("A begin ", "A bad words\n"),
        ("A beginn", "A bad command\n"),
        ("A begin now", "A bad words\n"),
        ("A put 01 0 0 0 0 x", "A bad number\n"),
        ("A put -1 0 0 0 0 x", "A bad number\n"),
        ("A put 18446744073709551616 0 0 0 0 x", "A bad number\n"),
        ("A put 1 -0 0 0 0 x", "A bad number\n"),
        ("A put 1 00 0 0 0 x", "A bad number\n"),
        ("A put 1 + 0 0 0 x", "A bad number\n"),
        ("A put 1 - 0 0 0 x", "A bad number\n"),
        ("A put 1 5 0 4 0 x", "A bad rect\n"),
        ("A put 1 0 0 1073741824 0 x", "A bad rect\n"),
        ("A put 1 -1073741825 0 0 0 x", "A bad rect\n"),
        ("A put 1 0 0 0 99999999999 x", "A bad number\n"),
        ("A put 1 0 0 0 0 ", "A bad value\n"),
        ("A put 1 0 0 0 0", "A bad words\n"),
        ("A put 1 0 0 0 0 x y", "A bad words\n"),
        (
            "A put 1 0 0 0 0 01234567890123456789012345678901234567890123456789012345678901234",
            "A bad value\n",
        ),
        ("A put 1 0 0 0 0 caf\u{e9}", "A bad value\n"),
        ("A put 1 0 0 0 0 x\u{0}", "A bad value\n"),
        ("A find 0 0 0", "A bad words\n"),
        ("A find 0 0 0 0 0", "A bad words\n"),
        ("A find 0 0 0 0\r", "A bad number\n"),
        ("\r", "? bad session\n"),
        ("\u{0}", "? bad session\n"),
        ("A flush", "A bad command\n"),
        ("flush", "? bad session\n"),
        ("A start get 1", "A bad command\n"),
    ] {
        let Ran { done, sink } = run(rt.alloc(), &["play"], (line, 5), NO_FILES, NO_FAILS)?;
        assert_eq!(rt; done.status, 0);
        assert_eq!(rt; sink.bytes(), text.as_bytes(), "at {line}");
    }
    Ok(())
}

// A line of more than 512 bytes is bad however it goes on; a blank line may have any length.
#[test]
fn lines_of_any_length(rt: HostRuntime) -> Result<(), Fail> {
    let alloc = rt.alloc();
    for (spaces, end, first, text) in [
        (505, "\n", "A begin", "A bad words\n"),
        (505, "\r\n", "A begin", "A bad words\n"),
        (506, "\n", "A begin", "? bad long\n"),
        (506, "\r\n", "A begin", "? bad long\n"),
        (505, "\r", "A begin", "? bad long\n"),
        (506, "", "A begin", "? bad long\n"),
        (2000, "\n", "A begin", "? bad long\n"),
        (2000, "\n", "# begin", ""),
        (2000, "", "# begin", ""),
    ] {
        let mut script = String::from_str(alloc, first)?;
        for _ in 0..spaces {
            script.push_str(" ")?;
        }
        script.push_str(end)?;
        let Ran { done, sink } = run(alloc, &["play"], (script.as_str(), 100), NO_FILES, NO_FAILS)?;
        assert_eq!(rt; done.status, 0);
        assert_eq!(rt; sink.bytes(), text.as_bytes());
    }
    Ok(())
}
