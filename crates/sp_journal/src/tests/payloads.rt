use crate::payload::{read_batch, read_checkpoint};
use std::test::Fail;

#[test]
fn a_payload_is_read_exactly(rt: HostRuntime) -> Result<(), Fail> {
    let alloc = rt.alloc();
    let payload = b"\0\0\0\x01\0\0\0\x01\x02\0\0\0\0\0\0\0\x07";
    let commits = read_batch(alloc, payload).map_err(|_| "refused")?;
    assert_eq!(rt; commits.len(), 1);
    for bad in [
        b"".as_slice(),
        b"\0\0\0\0",
        b"\0\0\0\x01\0\0\0\0",
        b"\0\0\0\x01\0\0\0\x01\x02\0\0\0\0\0\0\0",
        b"\0\0\0\x01\0\0\0\x01\x02\0\0\0\0\0\0\0\x07\0",
        b"\xff\xff\xff\xff\0\0\0\x01\x02\0\0\0\0\0\0\0\x07",
        b"\0\0\0\x01\0\0\0\x01\x04\0\0\0\0\0\0\0\x07",
        b"\0\0\0\x01\0\0\0\x01\x03\0\0\0\0\0\0\0\x07\0",
        b"\0\0\0\x01\0\0\0\x01\x03\0\0\0\0\0\0\0\x07\x01 ",
    ] {
        assert!(rt; read_batch(alloc, bad).is_err());
    }
    Ok(())
}

#[test]
fn a_checkpoint_is_read_exactly(rt: HostRuntime) -> Result<(), Fail> {
    let alloc = rt.alloc();
    let empty = b"\0\0\0\0\0\0\0\0";
    assert_eq!(rt;
        read_checkpoint(alloc, empty).map_err(|_| "refused")?.len(),
        0
    );
    let one = b"\0\0\0\0\0\0\0\x01\x01\0\0\0\0\0\0\0\x01\0\0\0\0\0\0\0\0\0\0\0\0\0\0\0\0\x01x";
    assert_eq!(rt;
        read_checkpoint(alloc, one).map_err(|_| "refused")?.len(),
        1
    );
    for bad in [
        b"\0\0\0\x01\0\0\0\0".as_slice(),
        b"\0\0\0\0\0\0\0",
        b"\0\0\0\0\0\0\0\0\0",
        b"\0\0\0\0\xff\xff\xff\xff\x01",
        b"\0\0\0\0\0\0\0\x01\x02\0\0\0\0\0\0\0\x01",
        b"\0\0\0\0\0\0\0\x01\x01\0\0\0\0\0\0\0\x01\0\0\0\x01\0\0\0\0\0\0\0\0\0\0\0\0\x01x",
    ] {
        assert!(rt; read_checkpoint(alloc, bad).is_err());
    }
    Ok(())
}
