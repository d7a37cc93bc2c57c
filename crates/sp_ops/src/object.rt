// The lock on a record's id.
ghost use Rattle.std.specs.Prelude.{◌≡◌};
ghost use Rattle.sp_ops.specs.Object.{object_lock};

use sp_locks::{Mode, Name};
use sp_rect::Op;

/// The lock that the operation asks before it is planned, whether or not a record of that id is there:
/// X on the object of the id that a put, a drop or a set names, S on that of a get. A find, a fill and a
/// clear ask none. Takes no memory.
pub fn name_of(op: &Op) -> Option<(Name, Mode)>
    ensures { result ≡ object_lock op.now }
{
    match op {
        Op::Put(record) => Some((Name::Object(record.id), Mode::X)),
        Op::Drop(id) | Op::Set(id, _) => Some((Name::Object(*id), Mode::X)),
        Op::Get(id) => Some((Name::Object(*id), Mode::S)),
        Op::Find(_) | Op::Fill(_, _) | Op::Clear(_) => None,
    }
}
