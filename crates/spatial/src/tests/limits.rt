// Scripts that come to a limit, and one of two hundred parcels.
use crate::tests::{NO_FILES, check, disks_of};
use std::alloc::Global;
use std::test::Fail;

// The sessions `A` and those of one digit, 11 of them, with that word behind each.
fn push_short(alloc: Global, text: &mut String, word: &str) -> Result<(), Fail> {
    text.push_str(format!(in alloc; "A {word}\n")?.as_str())?;
    for digit in 0..10 {
        text.push_str(format!(in alloc; "A{digit} {word}\n")?.as_str())?;
    }
    Ok(())
}

// The same of the 53 sessions of two digits up to `A52`.
fn push_long(alloc: Global, text: &mut String, word: &str) -> Result<(), Fail> {
    for number in 0..53 {
        let (tens, ones) = (number / 10, number % 10);
        text.push_str(format!(in alloc; "A{tens}{ones} {word}\n")?.as_str())?;
    }
    Ok(())
}

// As many sessions as may have a transaction at a time, in ascending order.
fn push_sessions(alloc: Global, text: &mut String, word: &str) -> Result<(), Fail> {
    push_short(alloc, text, word)?;
    push_long(alloc, text, word)
}

#[test]
fn as_many_transactions_as_there_may_be(rt: HostRuntime) -> Result<(), Fail> {
    let alloc = rt.alloc();
    let mut script = String::new(alloc);
    push_sessions(alloc, &mut script, "begin")?;
    script.push_str("A53 begin\nA begin\n")?;
    let mut text = String::new(alloc);
    push_sessions(alloc, &mut text, "began 0")?;
    text.push_str("A53 full transactions\nA refused intxn\n")?;
    push_sessions(alloc, &mut text, "rolledback")?;
    check(alloc, &["play"], (script.as_str(), text.as_str()), NO_FILES)?;
    Ok(())
}

fn push_times(text: &mut String, line: &str, times: u32) -> Result<(), Fail> {
    for _ in 0..times {
        text.push_str(line)?;
    }
    Ok(())
}

#[test]
fn as_many_operations_as_there_may_be(rt: HostRuntime) -> Result<(), Fail> {
    let alloc = rt.alloc();
    let mut script = String::from_str(alloc, "A begin\n")?;
    push_times(&mut script, "A get 1\n", 4097)?;
    script.push_str("A commit\n")?;
    let mut text = String::from_str(alloc, "A began 0\n")?;
    push_times(&mut text, "A absent\n", 4096)?;
    text.push_str("A full operations\nA committed 1\n")?;
    check(alloc, &["play"], (script.as_str(), text.as_str()), NO_FILES)?;
    Ok(())
}

// The parcel of that number: its id and rectangle, in millimetres. Twenty stand in a row.
fn parcel(alloc: Global, number: u64) -> Result<String, Fail> {
    let x = (number % 20).saturating_mul(20000);
    let y = (number / 20).saturating_mul(30000);
    let id = number.saturating_add(1);
    Ok(format!(in alloc;
        "{id} {x} {y} {} {}",
        x.saturating_add(18000),
        y.saturating_add(28000)
    )?)
}

// The session enters a hundred parcels.
fn push_entry(alloc: Global, script: &mut String, session: &str, first: u64) -> Result<(), Fail> {
    script.push_str(format!(in alloc; "{session} begin\n")?.as_str())?;
    for number in 0..100 {
        let parcel = parcel(alloc, first.saturating_add(number))?;
        script.push_str(format!(in alloc; "{session} put {} free\n", parcel.as_str())?.as_str())?;
    }
    script.push_str(format!(in alloc; "{session} commit\n")?.as_str())?;
    Ok(())
}

// The parcels that are left, each behind that word: the sixth row is cleared, and two corners of five are sold.
fn push_left(alloc: Global, text: &mut String, word: &str) -> Result<(), Fail> {
    for number in 0..200 {
        if number / 20 == 5 {
            continue;
        }
        let parcel = parcel(alloc, number)?;
        let value = if number < 40 && number % 20 < 5 {
            "sold"
        } else {
            "free"
        };
        text.push_str(format!(in alloc; "{word} {} {value}\n", parcel.as_str())?.as_str())?;
    }
    Ok(())
}

// The script of the parcels.
fn parcels_script(alloc: Global) -> Result<String, Fail> {
    let mut script = String::new(alloc);
    push_entry(alloc, &mut script, "A", 0)?;
    push_entry(alloc, &mut script, "B", 100)?;
    script.push_str("C begin\nC fill 0 0 98000 58000 sold\nC clear 0 150000 398000 178000\n")?;
    script.push_str("C find -1073741824 -1073741824 1073741823 1073741823\nC commit\n")?;
    Ok(script)
}

// What it writes.
fn parcels_text(alloc: Global) -> Result<String, Fail> {
    let mut text = String::from_str(alloc, "A began 0\n")?;
    push_times(&mut text, "A done\n", 100)?;
    text.push_str("A committed 1\nB began 1\n")?;
    push_times(&mut text, "B done\n", 100)?;
    text.push_str("B committed 2\nC began 2\nC count 10\nC count 20\nC found 180\n")?;
    push_left(alloc, &mut text, "C rec")?;
    text.push_str("C committed 3\n")?;
    Ok(text)
}

#[test]
fn two_hundred_parcels(rt: HostRuntime) -> Result<(), Fail> {
    let alloc = rt.alloc();
    let script = parcels_script(alloc)?;
    let text = parcels_text(alloc)?;
    let row = (script.as_str(), text.as_str());
    let (main, alt) = disks_of(check(alloc, &["play", "--journal", "J1"], row, NO_FILES)?)?;
    let mut dump = String::from_str(alloc, "found 180\n")?;
    push_left(alloc, &mut dump, "rec")?;
    let files = (main.bytes(), alt.bytes());
    check(
        alloc,
        &["dump", "--journal", "J1"],
        ("", dump.as_str()),
        files,
    )?;
    check(
        alloc,
        &["check", "--journal", "J1"],
        ("", "whole 3 3 180\n"),
        files,
    )?;
    Ok(())
}
