// The state of a kernel.
use crate::{Seat, Sketch};
use sp_audit::Audit;
use sp_locks::{SessionId, Table};
use sp_node::Tree;
use std::collections::VecDeque;

/// All of a kernel but its disk: the tree, the next numbers, the locks, the sessions that have a transaction by
/// ascending number, the dead entries in the order in which they are to be removed, the sessions whose commits
/// wait for the next batch and those of the batch in flight, the disk calls that were made for it, the audit,
/// the offset of a fault, how many operations and how many records in replies are kept, and the insertion that was
/// planned last, as long as the tree is the same.
#[derive(Drop)]
pub struct State {
    pub tree: Tree,
    pub next_entry: u64,
    pub next_txn: u64,
    pub locks: Table,
    pub seats: Vec<Seat>,
    pub dead: VecDeque<u64>,
    pub queue: Vec<SessionId>,
    pub flight: Vec<SessionId>,
    pub calls: u8,
    pub audit: Audit,
    pub stopped: Option<u64>,
    pub operations: u64,
    pub records: u64,
    pub sketch: Option<Sketch>,
}
