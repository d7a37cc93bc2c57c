// What six numbers of a generator say.

// `last` is the last of the six numbers.
#[derive(Drop)]
pub(crate) struct Draw {
    pub kind: u64,
    pub id: u64,
    pub x: u64,
    pub y: u64,
    pub width: u64,
    pub height: u64,
    pub last: u64,
}
