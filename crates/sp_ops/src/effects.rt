// What an operation does.

use sp_list::Sequence;
use sp_node::Marks;
use sp_rect::Reply;

/// The numbers of entries, ascending, each with new marks.
pub type Marked = Sequence<(u64, Marks)>;

/// What an operation does.
#[derive(Drop)]
pub struct Effect {
    pub reply: Reply,
    pub marks: Marked,
}
