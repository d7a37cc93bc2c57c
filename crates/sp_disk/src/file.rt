// A disk and a shelf over real files.
ghost use Rattle.std.specs.Prelude.{◌≡◌, ◌≤◌, ◌<◌, ◌+◌, ◌-◌, ◌^◌, min, ◌∷◌, ◌++◌, [], false, length, IfOk, OnOk, refl};
ghost use Rattle.sp_disk.specs.declared.disk.DiskError.TheVariants.{Fault};
ghost use Rattle.sp_disk.specs.Faults.{HasCause, Rose};

use crate::{Disk, DiskError, Shelf, ShelfFault};
use sp_list::Sequence;
use std::alloc::Global;
use std::fs::{self, File, OpenOptions};
use std::io;
use std::os::unix::fs::FileExt;
use std::path::Path;
use std::rt::Files;

/// The end of the offsets that a file has.
const END: u64 = 1 << 63;

/// A real file. Nobody knows its bytes, so of those nothing is claimed: it counts its faults, takes no
/// memory, and keeps a length below 2^63.
#[derive(Drop)]
pub struct FileDisk {
    file: File,
    faults: u64,
}

impl FileDisk {
    /// The disk of an open file, which has to be open for reading and for writing.
    pub fn new(file: File) -> FileDisk
        ensures { result.faults ≡ 0 }
    {
        FileDisk { file, faults: 0 }
    }
}

// Counts a fault, and answers it.
fn faulty<T>(faults: &mut u64) -> Result<T, DiskError>
    ensures cause { HasCause false faults.old faults.new result }
    ensures error { result ≡ Err Fault }
{
    *faults = faults.saturating_add(1);
    Err(DiskError::Fault)
}

// The length of a file.
fn length_of(file: &File) -> io::Result<u64>
    ensures { IfOk result (λ n. n < 2 ^ 63) }
{
    let len = file.metadata()?.len();
    if len < END {
        Ok(len)
    } else {
        Err(io::ErrorKind::FileTooLarge.into())
    }
}

// Reads until the buffer is full or the file ends.
fn read_full(file: &File, at: u64, buf: &mut [u8]) -> io::Result<usize>
    ensures { IfOk result (λ n. n ≤ length buf.old) }
{
    let mut count = 0;
    for _ in 0..u64::MAX {
        let from = at.saturating_add(count as u64);
        if count == buf.len() || from >= END {
            break;
        }
        match file.read_at(&mut buf[count..], from) {
            Ok(0) => break,
            Ok(n) => count += n,
            Err(error) if error.kind() == io::ErrorKind::Interrupted => {}
            Err(error) => return Err(error),
        }
    }
    Ok(count)
}

// Writes all of the bytes.
fn write_full(file: &File, at: u64, bytes: &[u8]) -> io::Result<()>
    ensures { OnOk result (at + length bytes.now < 2 ^ 63) }
{
    if at >= END || bytes.len() as u64 >= END - at {
        return Err(io::ErrorKind::FileTooLarge.into());
    }
    file.write_all_at(bytes, at)
}

// Makes the file no longer than that.
fn shorten(file: &File, len: u64) -> io::Result<()> {
    if len < length_of(file)? {
        file.set_len(len)?;
    }
    Ok(())
}

impl Disk for FileDisk {
    ghost tells = { λ d. false };

    ghost takes_memory = { λ d. false };

    ghost faults = { λ d. d.faults };

    ghost reads = { λ d. [] };

    ghost moment = { λ d. 0 };

    ghost images = { λ d moment file. file ≡ [] };

    ghost as_it_reads = { λ d tells. refl };

    fn len(&mut self) -> Result<u64, DiskError> {
        match length_of(&self.file) {
            Ok(len) => Ok(len),
            Err(_) => faulty(&mut self.faults),
        }
    }

    fn read_at(&mut self, at: u64, buf: &mut [u8]) -> Result<usize, DiskError> {
        match read_full(&self.file, at, buf) {
            Ok(count) => Ok(count),
            Err(_) => faulty(&mut self.faults),
        }
    }

    fn write_at(&mut self, at: u64, bytes: &[u8]) -> Result<(), DiskError> {
        match write_full(&self.file, at, bytes) {
            Ok(()) => Ok(()),
            Err(_) => faulty(&mut self.faults),
        }
    }

    fn cut(&mut self, len: u64) -> Result<(), DiskError> {
        match shorten(&self.file, len) {
            Ok(()) => Ok(()),
            Err(_) => faulty(&mut self.faults),
        }
    }

    fn sync(&mut self) -> Result<(), DiskError> {
        match self.file.sync_all() {
            Ok(()) => Ok(()),
            Err(_) => faulty(&mut self.faults),
        }
    }
}

/// Files in a folder of the system, by their paths.
#[derive(Drop)]
pub struct FileShelf<R: Files<File = File> + Drop> {
    rt: R,
    alloc: Global,
    asked: Sequence<Sequence<u8>>,
    faults: u64,
}

impl<R: Files<File = File> + Drop> FileShelf<R> {
    /// A shelf of the system's files, which was asked for none yet.
    pub fn new(rt: R, alloc: Global) -> FileShelf<R>
        ensures asked { result.asked ≡ [] }
        ensures unfailed { result.faults ≡ 0 }
    {
        FileShelf {
            rt,
            alloc,
            asked: Sequence::new(alloc),
            faults: 0,
        }
    }
}

// Opens the file for reading and writing. One that is missing is made, and then its folder is synced.
fn open_or_make<R: Files<File = File>>(rt: &R, name: &str) -> io::Result<File> {
    match OpenOptions::new()
        .read(true)
        .write(true)
        .create_new(true)
        .open(rt, name)
    {
        Ok(file) => {
            file.sync_all()?;
            sync_folder(rt, name)?;
            Ok(file)
        }
        Err(error) if error.kind() == io::ErrorKind::AlreadyExists => {
            OpenOptions::new().read(true).write(true).open(rt, name)
        }
        Err(error) => Err(error),
    }
}

// Syncs the folder in which the file stands.
fn sync_folder<R: Files<File = File>>(rt: &R, name: &str) -> io::Result<()> {
    let folder = match Path::new(name).parent() {
        Some(folder) if !folder.as_str().is_empty() => File::open(rt, folder)?,
        _ => File::open(rt, ".")?,
    };
    folder.sync_all()
}

impl<R: Files<File = File> + Drop> Shelf for FileShelf<R> {
    type Disk = FileDisk;

    ghost tells = { λ s. false };

    ghost holds = { λ s name. [] };

    ghost asked = { λ s. s.asked };

    ghost faults = { λ s. s.faults };

    fn fetch(&mut self, name: &str) -> Result<FileDisk, ShelfFault> {
        let asked = Sequence::from_vec(name.as_bytes().to_vec(self.alloc)?);
        self.asked.push(asked)?;
        match open_or_make(&self.rt, name) {
            Ok(file) => Ok(FileDisk::new(file)),
            Err(_) => {
                self.faults = self.faults.saturating_add(1);
                Err(ShelfFault::Fault)
            }
        }
    }
}
