// What a file is, by its length and its first bytes.
ghost use Rattle.std.specs.Prelude.{◌≡◌, ◌≢◌, ◌<◌, ◌≤◌, ◌++◌, ◌∷◌, ℕ, true, false, List, length, take, IsTrue, IfOk, IfSome, IfNone};
ghost use Rattle.sp_disk.specs.Faults.{HasCause};
ghost use Rattle.sp_journal.specs.Format.{header_bytes};
ghost use Rattle.sp_journal.specs.Kinds.{IsKind};
ghost use Rattle.sp_journal.specs.Looking.{OnlyReads};
ghost use Rattle.sp_journal.specs.Recovery.{IsHeader};

use byteorder::{BigEndian, ByteOrder};
use sp_disk::{Disk, DiskError};

/// What a file is.
#[derive(Clone, Copy, Debug, PartialEq, Eq)]
pub enum Kind {
    /// At most 17 bytes are there: an unfinished creation, or a file without an entry.
    Empty,
    /// More bytes are there, and the first 16 are no header.
    Foreign,
    /// The generation is 2 or more, and the gate of the checkpoint is not open.
    Unfinished,
    /// Every other file. The generation is 0 in version 1, and from 1 to 2^63 - 1 in version 2.
    Settled { version: u32, generation: u64 },
}

// The numbers of a header.
#[derive(Clone, Copy)]
struct Header {
    version: u32,
    generation: u64,
}

// Whether a header has these numbers.
fn is_header(version: u32, generation: u64) -> bool
    ensures yes { result ≡ true → IsHeader version generation }
    ensures no { result ≡ false → IsHeader version generation → ⊥ }
{
    match version {
        1 => generation == 0,
        2 => 1 <= generation && generation < GENERATIONS,
        _ => false,
    }
}

// Every generation is below this.
const GENERATIONS: u64 = 1 << 63;

/// The bytes of a header.
#[tactic(auto, unfolding(crate::specs::Format::header_bytes, crate::specs::Format::u32_bytes, crate::specs::Format::u64_bytes))]
pub fn write_header(version: u32, generation: u64) -> [u8; 16]
    ensures { result ≡ header_bytes version generation }
{
    let mut bytes = *b"SPJL\0\0\0\0\0\0\0\0\0\0\0\0";
    BigEndian::write_u32(&mut bytes[4..], version);
    BigEndian::write_u64(&mut bytes[8..], generation);
    bytes
}

// The numbers of the header that the bytes begin with, if they begin with one.
fn read_header(front: &[u8]) -> Option<Header>
    requires { 16 ≤ length front.now }
    ensures some { IfSome result (λ h. IsHeader h.version h.generation × (take 16 front.now ≡ header_bytes h.version h.generation)) }
    ensures none { IfNone result ((version generation : ℕ) → IsHeader version generation → take 16 front.now ≢ header_bytes version generation) }
{
    let version = BigEndian::read_u32(&front[4..]);
    let generation = BigEndian::read_u64(&front[8..]);
    if is_header(version, generation) && front[..16] == write_header(version, generation)[..] {
        Some(Header {
            version,
            generation,
        })
    } else {
        None
    }
}

// What a file of that length is which begins with these bytes, if it has so many.
fn kind_of(len: u64, front: &[u8; 17]) -> Kind
    ensures kind { (file : List ℕ) → length file ≡ len → (17 ≤ len → front.now ≡ take 17 file) → IsKind file result }
    ensures long { (version generation : ℕ) → result ≡ Kind.Settled version generation → 17 < len }
{
    if len <= 17 {
        return Kind::Empty;
    }
    match read_header(front) {
        Some(header) => kind_with(header, front[16]),
        None => Kind::Foreign,
    }
}

// What a file is that has the header and behind it this gate.
fn kind_with(header: Header, gate: u8) -> Kind
    ensures { (file tail : List ℕ) → 17 < length file → IsHeader header.version header.generation → file ≡ header_bytes header.version header.generation ++ gate ∷ tail → IsKind file result }
{
    if header.generation >= 2 && gate != 1 {
        Kind::Unfinished
    } else {
        Kind::Settled {
            version: header.version,
            generation: header.generation,
        }
    }
}

/// What a file of that length is.
pub fn kind_on<D: Disk>(disk: &mut D, len: u64) -> Result<Kind, DiskError>
    ensures kind { IsTrue (D.tells disk.old) → length (D.reads disk.old) ≡ len → IfOk result (IsKind (D.reads disk.old)) }
    ensures long { IfOk result (λ kind. (version generation : ℕ) → kind ≡ Kind.Settled version generation → 17 < len) }
    ensures looks { IsTrue (D.tells disk.old) → OnlyReads (D.moment disk.old) (D.moment disk.new) (D.reads disk.old) (D.reads disk.new) (D.images disk.old) (D.images disk.new) }
    ensures cause { HasCause (D.takes_memory disk.old) (D.faults disk.old) (D.faults disk.new) result }
    ensures tells { D.tells disk.new ≡ D.tells disk.old }
    ensures takes { D.takes_memory disk.new ≡ D.takes_memory disk.old }
{
    let mut front = [0; 17];
    let _read = disk.read_at(0, &mut front)?;
    Ok(kind_of(len, &front))
}
