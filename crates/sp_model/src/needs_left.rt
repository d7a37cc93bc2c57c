// The needs of an operation that are left to ask.
ghost use Rattle.std.specs.Prelude.{◌≡◌, ◌≢◌, [], length, drop, slice_get};
ghost use Rattle.sp_list.specs.Emptiness.{is_empty};

use sp_locks::{Need, Needs};
use std::marker::Model;

/// The needs of an operation that are left to ask, in the order in which they are asked. Contracts see them as
/// a list.
#[derive(Drop)]
pub struct NeedsLeft {
    needs: Needs,
    asked: usize,
}

impl Model for NeedsLeft {
    ghost use Rattle.std.specs.Prelude.{List, drop, length, ◌≤◌};
    ghost use Rattle.sp_locks.specs.declared.needs.Need.{Need};

    ghost Value = { List Need };

    ghost view = { λ a. drop a.asked a.needs };

    ghost invariant = { λ a. a.asked ≤ length a.needs };
}

impl NeedsLeft {
    /// All of these are left. Takes no memory.
    pub fn new(needs: Needs) -> NeedsLeft
        ensures { result ≡ needs }
    {
        NeedsLeft { needs, asked: 0 }
    }

    /// How many are left.
    pub fn len(&self) -> usize
        ensures { result ≡ length self.now }
    {
        self.needs.len() - self.asked
    }

    /// Whether none is left.
    pub fn is_empty(&self) -> bool
        ensures { result ≡ is_empty self.now }
    {
        self.asked == self.needs.len()
    }

    /// The next one, or None exactly where none is left.
    pub fn first(&self) -> Option<Need>
        ensures { result ≡ slice_get self.now 0 }
    {
        self.needs.get(self.asked).copied()
    }

    /// The next one is asked. Takes no memory.
    pub fn advance(&mut self)
        requires { self.old ≢ [] }
        ensures { self.new ≡ drop 1 self.old }
    {
        let _all = self.needs.len();
        self.asked += 1;
    }
}
