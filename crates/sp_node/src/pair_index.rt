// Which entries go under a key: an id, or a transaction.
ghost use Rattle.std.specs.Prelude.{◌≡◌, ◌||◌, ◌&&◌, ℕ, List, [], OnOk, IfOk, cond, true, false, map, nat_eq, MatchOption};
ghost use Rattle.std.specs.List.Sorted.{IsStrictlyIncreasing};
ghost use Rattle.sp_node.specs.Known.{is_known, numbers_under, AreNumbers, HasNoneFrom, IsFirstFrom};

use std::alloc::{AllocError, Global};
use std::collections::BTreeSet;
use std::marker::Model;

/// Pairs of a key and an entry's number, ordered by key and then by number.
#[derive(Drop)]
pub(crate) struct PairIndex {
    pairs: BTreeSet<(u64, u64)>,
}

impl Model for PairIndex {
    ghost use Rattle.std.specs.Prelude.{List, ℕ};
    ghost use Rattle.sp_node.specs.Known.{AreNumbers};

    ghost Value = { List (ℕ × ℕ) };

    ghost view = { λ a. a.pairs.keys };

    ghost invariant = { λ a. AreNumbers a.pairs.keys };
}

impl PairIndex {
    pub(crate) fn new(alloc: Global) -> PairIndex
        ensures { result ≡ [] }
    {
        PairIndex {
            pairs: BTreeSet::new(alloc),
        }
    }

    /// Adds a pair.
    pub(crate) fn note(&mut self, key: u64, number: u64) -> Result<(), AllocError>
        ensures noted { OnOk result (is_known self.new key number ≡ true) }
        ensures kept { (i n : ℕ) → is_known self.old i n ≡ true → is_known self.new i n ≡ true }
    {
        self.pairs.insert((key, number))?;
        Ok(())
    }

    /// Takes a pair out.
    pub(crate) fn forget(&mut self, key: u64, number: u64)
        ensures { (i n : ℕ) → is_known self.new i n ≡ cond (nat_eq i key && nat_eq n number) false (is_known self.old i n) }
    {
        let _ = self.pairs.remove(&(key, number));
    }

    /// The numbers under a key, ascending.
    pub(crate) fn under(&self, alloc: Global, key: u64) -> Result<Vec<u64>, AllocError>
        ensures found { IfOk result (λ v. v.items ≡ numbers_under self.now key) }
        ensures ascending { IfOk result (λ v. IsStrictlyIncreasing v.items) }
    {
        let mut found = Vec::new(alloc);
        for (_, number) in self.pairs.range((key, 0)..=(key, u64::MAX)) {
            found.push(*number)?;
        }
        Ok(found)
    }

    /// The least number under a key that is at least this one. Takes no memory.
    pub(crate) fn first_from(&self, key: u64, start: u64) -> Option<u64>
        ensures first { MatchOption result (HasNoneFrom self.now key start) (IsFirstFrom self.now key start) }
        ensures fits { AreNumbers self.now }
    {
        match self.pairs.range((key, start)..=(key, u64::MAX)).next() {
            Some((_, number)) => Some(*number),
            None => None,
        }
    }
}
