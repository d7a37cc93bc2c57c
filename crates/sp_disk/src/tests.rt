use crate::*;
use std::hash::{BuildHasher, RandomState};
use std::test::Fail;
use std::{fs, io};

// Whether the file is one of the images.
fn has(images: &Images, file: &[u8]) -> bool {
    images
        .as_slice()
        .iter()
        .any(|image| image.as_slice() == file)
}

#[test]
fn a_write_and_a_cut_may_be_torn_until_a_sync(rt: HostRuntime) -> Result<(), Fail> {
    let alloc = rt.alloc();
    let mut disk = MemDisk::new(alloc, b"abcd".to_vec(alloc)?, Vec::new(alloc))?;
    disk.write_at(3, b"xy")?;
    disk.cut(2)?;
    disk.write_at(4, b"z")?;
    let mut buf = [b'.'; 6];
    assert_eq!(rt; disk.read_at(1, &mut buf)?, 4);
    assert_eq!(rt; buf, *b"b\0\0z..");
    assert_eq!(rt; disk.len()?, 5);
    let before = disk.samples(alloc, 0)?;
    assert_eq!(rt; before.len(), 1);
    let during = disk.samples(alloc, 5)?;
    assert_eq!(rt; during.len(), 3 * 2 * 3);
    for file in ["abcd", "abcx", "abcxy", "ab", "abcdz", "abcxz", "ab\0\0z"] {
        assert!(rt; has(&during, file.as_bytes()), "{file}");
    }
    disk.sync()?;
    let after = disk.samples(alloc, 6)?;
    assert_eq!(rt; after.len(), 1);
    assert!(rt; has(&after, b"ab\0\0z"));
    Ok(())
}

#[test]
fn a_call_that_fails_counts_as_made_for_a_stop(rt: HostRuntime) -> Result<(), Fail> {
    let alloc = rt.alloc();
    let fail = [2, 3].to_vec(alloc)?;
    let mut disk = MemDisk::new(alloc, b"ab".to_vec(alloc)?, fail)?;
    disk.sync()?;
    assert_eq!(rt; disk.write_at(0, b"xy"), Err(DiskError::Fault));
    assert_eq!(rt; disk.sync(), Err(DiskError::Fault));
    assert_eq!(rt; disk.bytes(), b"ab".as_slice());
    assert_eq!(rt; disk.calls().len(), 3);
    let images = disk.samples(alloc, 3)?;
    assert!(rt; has(&images, b"ab") && has(&images, b"xb") && has(&images, b"xy"));
    assert_eq!(rt; disk.write_at((1 << 63) - 2, b"xy"), Err(DiskError::Memory));
    Ok(())
}

#[test]
fn an_honest_disk_keeps_what_is_written(rt: HostRuntime) -> Result<(), Fail> {
    let alloc = rt.alloc();
    let mut disk = HonestDisk::new(alloc)?;
    disk.write_at(0, b"abc")?;
    disk.cut(1)?;
    disk.sync()?;
    let mut buf = [b'.'; 2];
    assert_eq!(rt; disk.read_at(0, &mut buf)?, 1);
    assert_eq!(rt; disk.len()?, 1);
    assert_eq!(rt; disk.bytes(), b"a".as_slice());
    Ok(())
}

#[test]
fn a_shelf_in_memory_hands_out_each_disk_once(rt: HostRuntime) -> Result<(), Fail> {
    let alloc = rt.alloc();
    let mut disks = Vec::new(alloc);
    disks.push((
        String::from_str(alloc, "a")?,
        MemDisk::new(alloc, b"x".to_vec(alloc)?, Vec::new(alloc))?,
    ))?;
    let mut shelf = MemShelf::new(alloc, disks, [2].to_vec(alloc)?)?;
    assert_eq!(rt; shelf.fetch("a")?.bytes(), b"x".as_slice());
    assert!(rt; shelf.fetch("a").is_err());
    assert_eq!(rt; shelf.fetch("b")?.bytes().len(), 0);
    Ok(())
}

// The path of a file that is not there yet, in the folder where the tests run.
fn new_path(rt: &HostRuntime) -> io::Result<String> {
    let number = RandomState::new(rt)?.hash_one(&0u8);
    Ok(format!(in rt.alloc(); "sp_disk-test-{number}")?)
}

#[test]
fn a_real_file_is_written_cut_and_read(rt: HostRuntime) -> Result<(), Fail> {
    let path = new_path(&rt)?;
    let file = fs::File::create_new(&rt, path.as_str())?;
    let mut disk = FileDisk::new(file);
    disk.write_at(0, b"abcdef")?;
    disk.cut(4)?;
    disk.cut(9)?;
    disk.sync()?;
    let mut buf = [b'.'; 4];
    assert_eq!(rt; disk.read_at(2, &mut buf)?, 2);
    assert_eq!(rt; buf, *b"cd..");
    assert_eq!(rt; disk.len()?, 4);
    assert_eq!(rt; disk.write_at((1 << 63) - 1, b"x"), Err(DiskError::Fault));
    assert_eq!(rt; disk.read_at(u64::MAX, &mut buf)?, 0);
    fs::remove_file(&rt, path.as_str())?;
    Ok(())
}

#[test]
fn a_shelf_of_files_makes_what_is_missing(rt: HostRuntime) -> Result<(), Fail> {
    let path = new_path(&rt)?;
    let mut shelf = FileShelf::new(rt, rt.alloc());
    shelf.fetch(path.as_str())?.write_at(0, b"abc")?;
    assert_eq!(rt; shelf.fetch(path.as_str())?.len()?, 3);
    assert!(rt; shelf.fetch("no-such-folder/file").is_err());
    fs::remove_file(&rt, path.as_str())?;
    Ok(())
}
