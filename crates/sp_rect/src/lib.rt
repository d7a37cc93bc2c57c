//! Rectangles of lattice points, the records that they carry, and the operations on a plain list of
//! records: the words that the whole workspace speaks in.
#![tactic(auto)]

mod commit;
mod operation;
mod point;
mod record;
mod rect;
mod value;

pub use commit::{Commit, Commits};
pub use operation::{Answered, Op, Pairs, Reply};
pub use point::Point;
pub use record::{Numbers, Record, Records, Records2};
pub use rect::{BadRect, HIGHEST, LOWEST, Rect, WHOLE};
pub use sp_list::{Duplicate, Sequence, Text};
pub use value::{BadValue, Value};
