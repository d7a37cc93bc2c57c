use super::files::{FIVE_PUTS, NEW, ONE_PUT, Read, attach, held, open_file, read_file};
use sp_disk::MemDisk;
use std::test::Fail;

#[test]
fn worked_files_are_read(rt: HostRuntime) -> Result<(), Fail> {
    let alloc = rt.alloc();
    assert_eq!(rt; read_file(alloc, &NEW)?, Read::Holds(0, 0, 0));
    assert_eq!(rt; read_file(alloc, &ONE_PUT)?, Read::Holds(1, 1, 1));
    assert_eq!(rt; read_file(alloc, &FIVE_PUTS)?, Read::Holds(1, 1, 5));
    assert_eq!(rt; read_file(alloc, &FIVE_PUTS[..100])?, Read::Damaged(16));
    assert_eq!(rt; read_file(alloc, &FIVE_PUTS[..18])?, Read::Damaged(16));
    Ok(())
}

#[test]
fn a_worked_file_with_one_byte_changed(rt: HostRuntime) -> Result<(), Fail> {
    let alloc = rt.alloc();
    for (at, byte, wanted) in [
        (16, 0, Read::Holds(0, 0, 0)),
        (16, 2, Read::Holds(0, 0, 0)),
        (24, 0, Read::Damaged(16)),
        (64, 1, Read::Damaged(16)),
        (164, 1, Read::Damaged(164)),
        (0, 0, Read::Foreign),
    ] {
        let mut file = FIVE_PUTS.to_vec(alloc)?;
        if let Some(place) = file.get_mut(at) {
            *place = byte;
        }
        assert_eq!(rt; read_file(alloc, file.as_slice())?, wanted, "{at} {byte}");
    }
    Ok(())
}

#[test]
fn a_file_of_at_most_seventeen_bytes_is_made_anew(rt: HostRuntime) -> Result<(), Fail> {
    let alloc = rt.alloc();
    for len in 0..18 {
        for content in [&FIVE_PUTS, &[7; 165]] {
            let Some((file, _)) = content.split_at_checked(len) else {
                return Err("short".into());
            };
            assert_eq!(rt; read_file(alloc, file)?, Read::Holds(0, 0, 0));
            let disk = MemDisk::new(alloc, file.to_vec(alloc)?, Vec::new(alloc))?;
            let (journal, found) = attach(alloc, disk)?;
            assert_eq!(rt; held(&found), Read::Holds(0, 0, 0));
            assert_eq!(rt; journal.detach().bytes(), NEW.as_slice());
        }
    }
    Ok(())
}

// Hostile files, and what is read of them.
const HOSTILE: [(&[u8], Read); 55] = [
    // no header: zeros
    (b"\0\0\0\0\0\0\0\0\0\0\0\0\0\0\0\0\0\0", Read::Foreign),
    // twenty zeros
    (b"\0\0\0\0\0\0\0\0\0\0\0\0\0\0\0\0\0\0\0\0", Read::Foreign),
    // version 0
    (b"SPJL\0\0\0\0\0\0\0\0\0\0\0\0\0\0", Read::Foreign),
    // version 3
    (b"SPJL\0\0\0\x03\0\0\0\0\0\0\0\x01\0\0", Read::Foreign),
    // version 1, low byte first
    (b"SPJL\x01\0\0\0\0\0\0\0\0\0\0\0\0\0", Read::Foreign),
    // version 1 with a generation
    (b"SPJL\0\0\0\x01\0\0\0\0\0\0\0\x01\0\0", Read::Foreign),
    // version 2 without one
    (b"SPJL\0\0\0\x02\0\0\0\0\0\0\0\0\0\0", Read::Foreign),
    // generation 2^63
    (b"SPJL\0\0\0\x02\x80\0\0\0\0\0\0\0\0\0", Read::Foreign),
    // the last generation, unfinished
    (
        b"SPJL\0\0\0\x02\x7f\xff\xff\xff\xff\xff\xff\xff\0\0",
        Read::Holds(0, 0, 0),
    ),
    // a closed gate
    (
        b"SPJL\0\0\0\x02\0\0\0\0\0\0\0\x01\0\x01",
        Read::Holds(0, 0, 0),
    ),
    // gate 2
    (
        b"SPJL\0\0\0\x02\0\0\0\0\0\0\0\x01\x02\x01",
        Read::Holds(0, 0, 0),
    ),
    // gate 255
    (
        b"SPJL\0\0\0\x02\0\0\0\0\0\0\0\x01\xff\x01",
        Read::Holds(0, 0, 0),
    ),
    // an open gate alone
    (b"SPJL\0\0\0\x02\0\0\0\0\0\0\0\x01\x01\0", Read::Damaged(16)),
    // a length past the end
    (
        b"SPJL\0\0\0\x02\0\0\0\0\0\0\0\x01\x01\xff\xff\xff\xff\0\0\0\x01\0",
        Read::Damaged(16),
    ),
    // a length past the end by one
    (
        b"SPJL\0\0\0\x02\0\0\0\0\0\0\0\x01\x01\0\0\0#\0\0\0\x01\0\0\0\x01\x01\0\0\0\0\0\0\0\x01\0\0\0\0\0\0\0\0\0\0\0\0\0\0\0\0\x01x",
        Read::Damaged(16),
    ),
    // no payload
    (
        b"SPJL\0\0\0\x02\0\0\0\0\0\0\0\x01\x01\0\0\0\0\0",
        Read::Damaged(16),
    ),
    // no commit
    (
        b"SPJL\0\0\0\x02\0\0\0\0\0\0\0\x01\x01\0\0\0\x04\0\0\0\0\0",
        Read::Damaged(16),
    ),
    // no change
    (
        b"SPJL\0\0\0\x02\0\0\0\0\0\0\0\x01\x01\0\0\0\x08\0\0\0\x01\0\0\0\0\0",
        Read::Damaged(16),
    ),
    // a change cut short
    (
        b"SPJL\0\0\0\x02\0\0\0\0\0\0\0\x01\x01\0\0\0\x22\0\0\0\x01\0\0\0\x01\x01\0\0\0\0\0\0\0\x01\0\0\0\0\0\0\0\0\0\0\0\0\0\0\0\0\x01\0",
        Read::Damaged(16),
    ),
    // a byte too many
    (
        b"SPJL\0\0\0\x02\0\0\0\0\0\0\0\x01\x01\0\0\0$\0\0\0\x01\0\0\0\x01\x01\0\0\0\0\0\0\0\x01\0\0\0\0\0\0\0\0\0\0\0\0\0\0\0\0\x01x\0\0",
        Read::Damaged(16),
    ),
    // more changes than there are
    (
        b"SPJL\0\0\0\x02\0\0\0\0\0\0\0\x01\x01\0\0\0#\0\0\0\x01\xff\xff\xff\xff\x01\0\0\0\0\0\0\0\x01\0\0\0\0\0\0\0\0\0\0\0\0\0\0\0\0\x01x\0",
        Read::Damaged(16),
    ),
    // more commits than there are
    (
        b"SPJL\0\0\0\x02\0\0\0\0\0\0\0\x01\x01\0\0\0#\xff\xff\xff\xff\0\0\0\x01\x01\0\0\0\0\0\0\0\x01\0\0\0\0\0\0\0\0\0\0\0\0\0\0\0\0\x01x\0",
        Read::Damaged(16),
    ),
    // a change of no kind
    (
        b"SPJL\0\0\0\x02\0\0\0\0\0\0\0\x01\x01\0\0\0\x11\0\0\0\x01\0\0\0\x01\x04\0\0\0\0\0\0\0\x01\0",
        Read::Damaged(16),
    ),
    // an empty value
    (
        b"SPJL\0\0\0\x02\0\0\0\0\0\0\0\x01\x01\0\0\0\x22\0\0\0\x01\0\0\0\x01\x01\0\0\0\0\0\0\0\x01\0\0\0\0\0\0\0\0\0\0\0\0\0\0\0\0\0\0",
        Read::Damaged(16),
    ),
    // a value of 65 bytes
    (
        b"SPJL\0\0\0\x02\0\0\0\0\0\0\0\x01\x01\0\0\0c\0\0\0\x01\0\0\0\x01\x01\0\0\0\0\0\0\0\x01\0\0\0\0\0\0\0\0\0\0\0\0\0\0\0\0Avvvvvvvvvvvvvvvvvvvvvvvvvvvvvvvvvvvvvvvvvvvvvvvvvvvvvvvvvvvvvvvvv\0",
        Read::Damaged(16),
    ),
    // a value of 64 bytes
    (
        b"SPJL\0\0\0\x02\0\0\0\0\0\0\0\x01\x01\0\0\0b\0\0\0\x01\0\0\0\x01\x01\0\0\0\0\0\0\0\x01\0\0\0\0\0\0\0\0\0\0\0\0\0\0\0\0@vvvvvvvvvvvvvvvvvvvvvvvvvvvvvvvvvvvvvvvvvvvvvvvvvvvvvvvvvvvvvvvv\0",
        Read::Holds(1, 1, 1),
    ),
    // a value with a space
    (
        b"SPJL\0\0\0\x02\0\0\0\0\0\0\0\x01\x01\0\0\0#\0\0\0\x01\0\0\0\x01\x01\0\0\0\0\0\0\0\x01\0\0\0\0\0\0\0\0\0\0\0\0\0\0\0\0\x01 \0",
        Read::Damaged(16),
    ),
    // a crossed rectangle
    (
        b"SPJL\0\0\0\x02\0\0\0\0\0\0\0\x01\x01\0\0\0#\0\0\0\x01\0\0\0\x01\x01\0\0\0\0\0\0\0\x01\0\0\0\x01\0\0\0\0\0\0\0\0\0\0\0\0\x01x\0",
        Read::Damaged(16),
    ),
    // a rectangle out of space
    (
        b"SPJL\0\0\0\x02\0\0\0\0\0\0\0\x01\x01\0\0\0#\0\0\0\x01\0\0\0\x01\x01\0\0\0\0\0\0\0\x01\0\0\0\0\0\0\0\0@\0\0\0\0\0\0\0\x01x\0",
        Read::Damaged(16),
    ),
    // the corner of space
    (
        b"SPJL\0\0\0\x02\0\0\0\0\0\0\0\x01\x01\0\0\0#\0\0\0\x01\0\0\0\x01\x01\0\0\0\0\0\0\0\x01\xc0\0\0\0\xc0\0\0\0?\xff\xff\xff?\xff\xff\xff\x01x\0",
        Read::Holds(1, 1, 1),
    ),
    // an id twice in a commit
    (
        b"SPJL\0\0\0\x02\0\0\0\0\0\0\0\x01\x01\0\0\0>\0\0\0\x01\0\0\0\x02\x01\0\0\0\0\0\0\0\x01\0\0\0\0\0\0\0\0\0\0\0\0\0\0\0\0\x01x\x01\0\0\0\0\0\0\0\x01\0\0\0\0\0\0\0\0\0\0\0\0\0\0\0\0\x01x\0",
        Read::Damaged(16),
    ),
    // an id twice in a batch
    (
        b"SPJL\0\0\0\x02\0\0\0\0\0\0\0\x01\x01\0\0\0B\0\0\0\x02\0\0\0\x01\x01\0\0\0\0\0\0\0\x01\0\0\0\0\0\0\0\0\0\0\0\0\0\0\0\0\x01x\0\0\0\x01\x01\0\0\0\0\0\0\0\x01\0\0\0\0\0\0\0\0\0\0\0\0\0\0\0\0\x01x\0",
        Read::Damaged(16),
    ),
    // an id twice in two batches
    (
        b"SPJL\0\0\0\x02\0\0\0\0\0\0\0\x01\x01\0\0\0#\0\0\0\x01\0\0\0\x01\x01\0\0\0\0\0\0\0\x01\0\0\0\0\0\0\0\0\0\0\0\0\0\0\0\0\x01x\x01\0\0\0#\0\0\0\x01\0\0\0\x01\x01\0\0\0\0\0\0\0\x01\0\0\0\0\0\0\0\0\0\0\0\0\0\0\0\0\x01x\0",
        Read::Damaged(56),
    ),
    // a drop of none
    (
        b"SPJL\0\0\0\x02\0\0\0\0\0\0\0\x01\x01\0\0\0\x11\0\0\0\x01\0\0\0\x01\x02\0\0\0\0\0\0\0\x01\0",
        Read::Damaged(16),
    ),
    // a set of none
    (
        b"SPJL\0\0\0\x02\0\0\0\0\0\0\0\x01\x01\0\0\0\x13\0\0\0\x01\0\0\0\x01\x03\0\0\0\0\0\0\0\x01\x01y\0",
        Read::Damaged(16),
    ),
    // put, set and drop
    (
        b"SPJL\0\0\0\x02\0\0\0\0\0\0\0\x01\x01\0\0\0;\0\0\0\x02\0\0\0\x02\x01\0\0\0\0\0\0\0\x01\0\0\0\0\0\0\0\0\0\0\0\0\0\0\0\0\x01x\x03\0\0\0\0\0\0\0\x01\x01y\0\0\0\x01\x02\0\0\0\0\0\0\0\x01\0",
        Read::Holds(1, 2, 0),
    ),
    // two batches
    (
        b"SPJL\0\0\0\x02\0\0\0\0\0\0\0\x01\x01\0\0\0#\0\0\0\x01\0\0\0\x01\x01\0\0\0\0\0\0\0\x01\0\0\0\0\0\0\0\0\0\0\0\0\0\0\0\0\x01x\x01\0\0\00\0\0\0\x02\0\0\0\x01\x02\0\0\0\0\0\0\0\x01\0\0\0\x01\x01\0\0\0\0\0\0\0\x02\0\0\0\0\0\0\0\0\0\0\0\0\0\0\0\0\x01x\0",
        Read::Holds(2, 3, 1),
    ),
    // two batches of version 1
    (
        b"SPJL\0\0\0\x01\0\0\0\0\0\0\0\0\x01\0\0\0#\0\0\0\x01\0\0\0\x01\x01\0\0\0\0\0\0\0\x01\0\0\0\0\0\0\0\0\0\0\0\0\0\0\0\0\x01x\x01\0\0\00\0\0\0\x02\0\0\0\x01\x02\0\0\0\0\0\0\0\x01\0\0\0\x01\x01\0\0\0\0\0\0\0\x02\0\0\0\0\0\0\0\0\0\0\0\0\0\0\0\0\x01x\0",
        Read::Holds(2, 3, 1),
    ),
    // an entry behind a closed gate
    (
        b"SPJL\0\0\0\x02\0\0\0\0\0\0\0\x01\x01\0\0\0#\0\0\0\x01\0\0\0\x01\x01\0\0\0\0\0\0\0\x01\0\0\0\0\0\0\0\0\0\0\0\0\0\0\0\0\x01x\0\0\0\0#\0\0\0\x01\0\0\0\x01\x01\0\0\0\0\0\0\0\x02\0\0\0\0\0\0\0\0\0\0\0\0\0\0\0\0\x01x\0",
        Read::Holds(1, 1, 1),
    ),
    // rubbish behind a closed gate
    (
        b"SPJL\0\0\0\x02\0\0\0\0\0\0\0\x01\x01\0\0\0#\0\0\0\x01\0\0\0\x01\x01\0\0\0\0\0\0\0\x01\0\0\0\0\0\0\0\0\0\0\0\0\0\0\0\0\x01x\x07rubbish",
        Read::Holds(1, 1, 1),
    ),
    // the second gate open at the end
    (
        b"SPJL\0\0\0\x02\0\0\0\0\0\0\0\x01\x01\0\0\0#\0\0\0\x01\0\0\0\x01\x01\0\0\0\0\0\0\0\x01\0\0\0\0\0\0\0\0\0\0\0\0\0\0\0\0\x01x\x01",
        Read::Damaged(56),
    ),
    // a checkpoint of none
    (
        b"SPJL\0\0\0\x02\0\0\0\0\0\0\0\x02\x01\0\0\0\x08\0\0\0\0\0\0\0\0\0",
        Read::Holds(0, 0, 0),
    ),
    // a checkpoint of two
    (
        b"SPJL\0\0\0\x02\0\0\0\0\0\0\0\x02\x01\0\0\0>\0\0\0\0\0\0\0\x02\x01\0\0\0\0\0\0\0\x01\0\0\0\0\0\0\0\0\0\0\0\0\0\0\0\0\x01x\x01\0\0\0\0\0\0\0\x07\0\0\0\0\0\0\0\0\0\0\0\0\0\0\0\0\x01x\0",
        Read::Holds(0, 0, 2),
    ),
    // a checkpoint and a batch
    (
        b"SPJL\0\0\0\x02\0\0\0\0\0\0\0\x02\x01\0\0\0>\0\0\0\0\0\0\0\x02\x01\0\0\0\0\0\0\0\x01\0\0\0\0\0\0\0\0\0\0\0\0\0\0\0\0\x01x\x01\0\0\0\0\0\0\0\x07\0\0\0\0\0\0\0\0\0\0\0\0\0\0\0\0\x01x\x01\0\0\0K\0\0\0\x02\0\0\0\x01\x02\0\0\0\0\0\0\0\x07\0\0\0\x02\x01\0\0\0\0\0\0\0\x02\0\0\0\0\0\0\0\0\0\0\0\0\0\0\0\0\x01x\x01\0\0\0\0\0\0\0\x03\0\0\0\0\0\0\0\0\0\0\0\0\0\0\0\0\x01x\0",
        Read::Holds(1, 2, 3),
    ),
    // a checkpoint, and a put of its id
    (
        b"SPJL\0\0\0\x02\0\0\0\0\0\0\0\x02\x01\0\0\0#\0\0\0\0\0\0\0\x01\x01\0\0\0\0\0\0\0\x01\0\0\0\0\0\0\0\0\0\0\0\0\0\0\0\0\x01x\x01\0\0\0#\0\0\0\x01\0\0\0\x01\x01\0\0\0\0\0\0\0\x01\0\0\0\0\0\0\0\0\0\0\0\0\0\0\0\0\x01x\0",
        Read::Damaged(56),
    ),
    // a checkpoint not finished
    (
        b"SPJL\0\0\0\x02\0\0\0\0\0\0\0\x02\0\0\0\0#\0\0\0\0\0\0\0\x01\x01\0\0\0\0\0\0\0\x01\0\0\0\0\0\0\0\0\0\0\0\0\0\0\0\0\x01x\0",
        Read::Holds(0, 0, 0),
    ),
    // a checkpoint out of order
    (
        b"SPJL\0\0\0\x02\0\0\0\0\0\0\0\x02\x01\0\0\0>\0\0\0\0\0\0\0\x02\x01\0\0\0\0\0\0\0\x07\0\0\0\0\0\0\0\0\0\0\0\0\0\0\0\0\x01x\x01\0\0\0\0\0\0\0\x01\0\0\0\0\0\0\0\0\0\0\0\0\0\0\0\0\x01x\0",
        Read::Damaged(16),
    ),
    // a checkpoint with an id twice
    (
        b"SPJL\0\0\0\x02\0\0\0\0\0\0\0\x02\x01\0\0\0>\0\0\0\0\0\0\0\x02\x01\0\0\0\0\0\0\0\x01\0\0\0\0\0\0\0\0\0\0\0\0\0\0\0\0\x01x\x01\0\0\0\0\0\0\0\x01\0\0\0\0\0\0\0\0\0\0\0\0\0\0\0\0\x01x\0",
        Read::Damaged(16),
    ),
    // a checkpoint with a drop
    (
        b"SPJL\0\0\0\x02\0\0\0\0\0\0\0\x02\x01\0\0\0\x11\0\0\0\0\0\0\0\x01\x02\0\0\0\0\0\0\0\x01\0",
        Read::Damaged(16),
    ),
    // a checkpoint that counts too many
    (
        b"SPJL\0\0\0\x02\0\0\0\0\0\0\0\x02\x01\0\0\0#\0\0\0\0\0\0\0\x02\x01\0\0\0\0\0\0\0\x01\0\0\0\0\0\0\0\0\0\0\0\0\0\0\0\0\x01x\0",
        Read::Damaged(16),
    ),
    // a checkpoint without its zero
    (
        b"SPJL\0\0\0\x02\0\0\0\0\0\0\0\x02\x01\0\0\0#\0\0\0\x01\0\0\0\x01\x01\0\0\0\0\0\0\0\x01\0\0\0\0\0\0\0\0\0\0\0\0\0\0\0\0\x01x\0",
        Read::Damaged(16),
    ),
    // a second checkpoint
    (
        b"SPJL\0\0\0\x02\0\0\0\0\0\0\0\x02\x01\0\0\0#\0\0\0\0\0\0\0\x01\x01\0\0\0\0\0\0\0\x01\0\0\0\0\0\0\0\0\0\0\0\0\0\0\0\0\x01x\x01\0\0\0#\0\0\0\0\0\0\0\x01\x01\0\0\0\0\0\0\0\x01\0\0\0\0\0\0\0\0\0\0\0\0\0\0\0\0\x01x\0",
        Read::Damaged(56),
    ),
    // a checkpoint in generation 1
    (
        b"SPJL\0\0\0\x02\0\0\0\0\0\0\0\x01\x01\0\0\0#\0\0\0\0\0\0\0\x01\x01\0\0\0\0\0\0\0\x01\0\0\0\0\0\0\0\0\0\0\0\0\0\0\0\0\x01x\0",
        Read::Damaged(16),
    ),
    // a checkpoint in version 1
    (
        b"SPJL\0\0\0\x01\0\0\0\0\0\0\0\0\x01\0\0\0#\0\0\0\0\0\0\0\x01\x01\0\0\0\0\0\0\0\x01\0\0\0\0\0\0\0\0\0\0\0\0\0\0\0\0\x01x\0",
        Read::Damaged(16),
    ),
    // a batch in place of a checkpoint
    (
        b"SPJL\0\0\0\x02\0\0\0\0\0\0\0\x02\x01\0\0\0#\0\0\0\x01\0\0\0\x01\x01\0\0\0\0\0\0\0\x01\0\0\0\0\0\0\0\0\0\0\0\0\0\0\0\0\x01x\0",
        Read::Damaged(16),
    ),
];

#[test]
fn hostile_files_are_read_as_they_are(rt: HostRuntime) -> Result<(), Fail> {
    let alloc = rt.alloc();
    for (file, wanted) in HOSTILE {
        assert_eq!(rt; read_file(alloc, file)?, wanted, "{file:?}");
        assert_eq!(rt; open_file(alloc, file)?, wanted, "{file:?}");
    }
    Ok(())
}
