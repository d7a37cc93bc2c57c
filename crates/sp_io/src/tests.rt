use crate::{Got, MemSink, MemSource, Sink, Source, StdSink, StdSource, Took, Words, write_all};
use std::alloc::Global;
use std::test::Fail;

#[test]
fn a_reader_of_std_is_a_source(rt: HostRuntime) -> Result<(), Fail> {
    let mut source = StdSource::new(b"rectangle".as_slice());
    let mut buf = [0u8; 6];
    assert_eq!(rt; source.read(&mut buf), Got::Bytes(6));
    assert_eq!(rt; buf.as_slice(), b"rectan".as_slice());
    assert_eq!(rt; source.read(&mut buf), Got::Bytes(3));
    assert_eq!(rt; source.read(&mut buf), Got::End);
    Ok(())
}

#[test]
fn a_writer_of_std_is_a_sink(rt: HostRuntime) -> Result<(), Fail> {
    let alloc = rt.alloc();
    let written: Vec<u8> = Vec::new(alloc);
    let mut sink = StdSink::new(written);
    assert_eq!(rt; sink.write(b"parcel"), Took::Bytes(6));
    assert!(rt; write_all(&mut sink, b" map").is_ok());
    Ok(())
}

// What is given and taken around calls that are to fail: the pieces stay whole, and nothing is lost.
#[test]
fn calls_in_memory_fail_by_their_numbers(rt: HostRuntime) -> Result<(), Fail> {
    let alloc = rt.alloc();
    let mut source = source_of(alloc, &["ab", "", "cde"], &[2])?;
    let mut buf = [0u8; 2];
    for want in [
        Got::Bytes(2),
        Got::Failed,
        Got::Bytes(2),
        Got::Bytes(1),
        Got::End,
    ] {
        assert_eq!(rt; source.read(&mut buf), want);
    }
    let mut sink = MemSink::new(alloc, [2].to_vec(alloc)?)?;
    assert!(rt; write_all(&mut sink, b"one").is_ok());
    assert!(rt; write_all(&mut sink, b"two").is_err());
    assert!(rt; write_all(&mut sink, b"three").is_ok());
    assert_eq!(rt; sink.bytes(), b"onethree".as_slice());
    Ok(())
}

fn source_of(alloc: Global, pieces: &[&str], fail: &[u64]) -> Result<MemSource, Fail> {
    let mut list = Vec::new(alloc);
    for piece in pieces {
        list.push(piece.as_bytes().to_vec(alloc)?)?;
    }
    Ok(MemSource::new(alloc, list, fail.to_vec(alloc)?)?)
}

#[test]
fn words_stand_in_order(rt: HostRuntime) -> Result<(), Fail> {
    let mut words = Words::new(rt.alloc());
    words.push("play")?;
    words.push("--audit")?;
    assert_eq!(rt; words.len(), 2);
    assert!(rt; words.word(1) == Some("--audit"));
    assert!(rt; words.word(2).is_none());
    Ok(())
}
