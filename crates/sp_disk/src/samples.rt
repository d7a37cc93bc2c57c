// The files that a stop might have left, as samples.
ghost use Rattle.std.specs.Prelude.{◌≡◌, ℕ, ◌↔◌, List, [], ◌∷◌, take, IfOk, OnOk};
ghost use Rattle.std.specs.List.{flat_map};
ghost use Rattle.sp_disk.specs.Files.{put};
ghost use Rattle.sp_disk.specs.History.{done, left, is_sampled};
ghost use Rattle.sp_disk.specs.Membership.{In};

use crate::DiskCall;
use crate::history::{LONGEST, overwrite};
use sp_list::Sequence;
use std::alloc::{AllocError, Global};

/// A list of files, each a list of bytes.
pub type Images = Sequence<Sequence<u8>>;

/// The samples of what a stop may leave after these calls on a file that had these bytes first.
pub fn samples_after(alloc: Global, start: &[u8], calls: &[DiskCall]) -> Result<Images, AllocError>
    ensures { IfOk result (λ files. (file : List ℕ) → In file files ↔ left is_sampled start.now (λ f. f ≡ start.now) calls.now file) }
{
    let mut files = only(alloc, start)?;
    let mut reads = start.to_vec(alloc)?;
    for call in calls {
        files = spread(alloc, call, reads.as_slice(), files)?;
        advance(call, &mut reads)?;
    }
    Ok(files)
}

// The list of this one file.
fn only(alloc: Global, file: &[u8]) -> Result<Images, AllocError>
    ensures { IfOk result (λ files. files ≡ file.now ∷ []) }
{
    let mut files = Images::new(alloc);
    files.push(Sequence::from_vec(file.to_vec(alloc)?))?;
    Ok(files)
}

// What a read gives after the call, of what it gave before.
fn advance(call: &DiskCall, reads: &mut Vec<u8>) -> Result<(), AllocError>
    ensures { OnOk result (reads.new.items ≡ done call.now reads.old.items) }
{
    match call {
        DiskCall::Write {
            at,
            bytes,
            made: true,
        } => write_into(reads, *at, bytes.as_slice()),
        DiskCall::Cut { len, made: true } => {
            reads.truncate(*len as usize);
            Ok(())
        }
        _ => Ok(()),
    }
}

fn write_into(file: &mut Vec<u8>, at: u64, bytes: &[u8]) -> Result<(), AllocError>
    ensures { OnOk result (file.new.items ≡ put file.old.items at bytes.now) }
{
    let at = at as usize;
    if at > LONGEST - bytes.len() {
        return Err(AllocError);
    }
    overwrite(file, at, bytes)
}

// The samples after the call, of those before it.
fn spread(alloc: Global, call: &DiskCall, reads: &[u8], files: Images) -> Result<Images, AllocError>
    ensures { IfOk result (λ spread. (file : List ℕ) → In file spread ↔ is_sampled call.now reads.now (λ f. In f files) file) }
{
    match call {
        DiskCall::Write { at, bytes, made: _ } => Ok(each_write(
            alloc,
            files.as_slice(),
            *at,
            bytes.as_slice(),
        )?),
        DiskCall::Cut { len, made: _ } => Ok(each_cut(alloc, files.as_slice(), *len)?),
        DiskCall::Sync { made: true } => only(alloc, reads),
        _ => Ok(files),
    }
}

// Each file as it is, with the first byte of the write, and with all of it.
fn each_write(
    alloc: Global,
    files: &[Sequence<u8>],
    at: u64,
    bytes: &[u8],
) -> Result<Images, AllocError>
    ensures { IfOk result (λ spread. spread ≡ flat_map (λ f. f ∷ put f at (take 1 bytes.now) ∷ put f at bytes.now ∷ []) files.now) }
{
    let first = &bytes[..bytes.len().min(1)];
    let mut spread = Images::new(alloc);
    for file in files {
        spread.push(copied(alloc, file)?)?;
        spread.push(written(alloc, file, at, first)?)?;
        spread.push(written(alloc, file, at, bytes)?)?;
    }
    Ok(spread)
}

// Each file as it is, and cut.
fn each_cut(alloc: Global, files: &[Sequence<u8>], len: u64) -> Result<Images, AllocError>
    ensures { IfOk result (λ spread. spread ≡ flat_map (λ f. f ∷ take len f ∷ []) files.now) }
{
    let mut spread = Images::new(alloc);
    for file in files {
        spread.push(copied(alloc, file)?)?;
        spread.push(cut(alloc, file, len)?)?;
    }
    Ok(spread)
}

fn copied(alloc: Global, file: &Sequence<u8>) -> Result<Sequence<u8>, AllocError>
    ensures { IfOk result (λ f. f ≡ file.now) }
{
    Ok(Sequence::from_vec(file.as_slice().to_vec(alloc)?))
}

fn written(
    alloc: Global,
    file: &Sequence<u8>,
    at: u64,
    bytes: &[u8],
) -> Result<Sequence<u8>, AllocError>
    ensures { IfOk result (λ f. f ≡ put file.now at bytes.now) }
{
    let mut copy = file.as_slice().to_vec(alloc)?;
    write_into(&mut copy, at, bytes)?;
    Ok(Sequence::from_vec(copy))
}

fn cut(alloc: Global, file: &Sequence<u8>, len: u64) -> Result<Sequence<u8>, AllocError>
    ensures { IfOk result (λ f. f ≡ take len file.now) }
{
    let mut copy = file.as_slice().to_vec(alloc)?;
    copy.truncate(len as usize);
    Ok(Sequence::from_vec(copy))
}
