// Batches in the form in which they are written.
ghost use Rattle.std.specs.Prelude.{◌≡◌, ◌+◌, ◌-◌, ◌^◌, ◌<◌, ◌≤◌, ◌++◌, ◌∷◌, [], List, length, take, drop, OnOk, OnErr, is_ok, if◌then◌else◌};
ghost use Rattle.sp_plain.specs.declared.change.Change.{Change};
ghost use Rattle.sp_journal.specs.Format.{u32_bytes, commit_bytes, framed};

use byteorder::{BigEndian, ByteOrder};
use std::alloc::AllocError;

/// Writes the size of the payload and the number of its commits at the front.
#[tactic(auto, unfolding(crate::specs::Format::u32_bytes))]
fn frame(buf: &mut [u8], size: u32, count: u32)
    requires { 8 ≤ length buf.old }
    ensures { buf.new ≡ (u32_bytes size ++ u32_bytes count) ++ drop 8 buf.old }
{
    BigEndian::write_u32(buf, size);
    BigEndian::write_u32(&mut buf[4..], count);
}

// Puts the bytes in the place of the last one. Where there is no memory nothing has changed.
fn extend_over_last(buf: &mut Vec<u8>, more: &[u8]) -> Result<(), AllocError>
    requires some { 1 ≤ length buf.old.items }
    requires more { 1 ≤ length more.now }
    ensures { buf.new.items ≡ (if is_ok result then take (length buf.old.items - 1) buf.old.items ++ more.now else buf.old.items) }
{
    let last = buf.len() - 1;
    buf.extend_from_slice(&more[1..])?;
    buf[last] = more[0];
    Ok(())
}

/// Adds a commit, with a closed gate behind it, to a batch of `count - 1` commits. Where there is no
/// memory nothing has changed.
pub fn add(buf: &mut Vec<u8>, commit: &[u8], count: u32) -> Result<(), AllocError>
    requires long { 9 ≤ length buf.old.items }
    requires more { 1 ≤ length commit.now }
    requires short { length buf.old.items + length commit.now < 2 ^ 32 }
    ensures added { OnOk result ((q : List (List Change)) (c : List Change) → buf.old.items ≡ framed q → commit.now ≡ commit_bytes c ++ 0 ∷ [] → count ≡ length q + 1 → buf.new.items ≡ framed (q ++ c ∷ [])) }
    ensures size { OnOk result (length buf.new.items + 1 ≡ length buf.old.items + length commit.now) }
    ensures same { OnErr result (buf.new.items ≡ buf.old.items) }
{
    extend_over_last(buf, commit)?;
    let size = (buf.len() - 5) as u32;
    frame(buf.as_mut_slice(), size, count);
    Ok(())
}

/// Makes it the batch without commits, which takes no memory.
pub fn clear(buf: &mut Vec<u8>)
    requires { 9 ≤ length buf.old.items }
    ensures bytes { buf.new.items ≡ framed [] }
    ensures size { length buf.new.items ≡ 9 }
{
    buf.truncate(9);
    frame(buf.as_mut_slice(), 4, 0);
    buf[8] = 0;
}
