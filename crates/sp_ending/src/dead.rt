// The dead entries, in the order in which they are to be removed.
ghost use Rattle.std.specs.Prelude.{◌≡◌, ◌<◌, ◌≤◌, ◌++◌, ◌∷◌, [], ℕ, List, MatchOption, length, take, drop, insert};
ghost use Rattle.std.specs.VecDeque.{deque_capacity};
ghost use Rattle.sp_model.specs.Moves.{with_number};
ghost use Rattle.sp_ending.specs.Tail.{Rises};

use std::collections::VecDeque;

/// The first of them.
pub(crate) fn first_dead(dead: &VecDeque<u64>) -> Option<u64>
    ensures { MatchOption result (dead.now.items ≡ []) (λ n. dead.now.items ≡ n ∷ drop 1 dead.now.items) }
{
    dead.front().copied()
}

/// The first goes to the end. Takes no memory.
pub(crate) fn put_off(dead: &mut VecDeque<u64>)
    ensures items { (n : ℕ) (rest : List ℕ) → dead.old.items ≡ n ∷ rest → dead.new.items ≡ rest ++ n ∷ [] }
    ensures room { deque_capacity dead.old ≤ deque_capacity dead.new }
{
    if let Some(first) = dead.pop_front() {
        let _room = dead.push_back(first);
    }
}

// Where the number goes among those from a place on, which ascend. Costs those that stay behind it.
fn place_among(dead: &VecDeque<u64>, from: usize, number: u64) -> usize
    requires from { from ≤ length dead.now.items }
    requires rises { Rises (drop from dead.now.items) }
    ensures bound { result ≤ length dead.now.items }
    ensures place { insert dead.now.items result number ≡ take from dead.now.items ++ with_number number (drop from dead.now.items) }
{
    let mut at = dead.len();
    'back: while from < at {
        if dead[at - 1] < number {
            return at;
        }
        at -= 1;
    }
    at
}

/// The number joins those from a place on, which ascend. Takes no memory. Costs those that stay behind it.
pub(crate) fn bury(dead: &mut VecDeque<u64>, from: usize, number: u64)
    requires from { from ≤ length dead.old.items }
    requires rises { Rises (drop from dead.old.items) }
    requires room { length dead.old.items < deque_capacity dead.old }
    ensures items { dead.new.items ≡ take from dead.old.items ++ with_number number (drop from dead.old.items) }
    ensures room { deque_capacity dead.old ≤ deque_capacity dead.new }
{
    let at = place_among(dead, from, number);
    let _room = dead.insert(at, number);
}
