// The plain store.
ghost use Rattle.std.specs.Prelude.{◌≡◌, [], Some, None, false, IfOk, OnErr, is_ok, if◌then◌else◌};
ghost use Rattle.sp_rect.specs.Store.{IsOrdered, replied, after};
ghost use Rattle.sp_plain.specs.Taking.{taken};

use crate::{Changes, operate, undo};
use sp_rect::{Duplicate, Op, Record, Records, Reply};
use std::alloc::{AllocError, Global};
use std::marker::Model;
use std::mem;

/// Records with distinct ids, by ascending id.
#[derive(Drop)]
pub struct Plain {
    alloc: Global,
    records: Records,
}

impl Model for Plain {
    ghost use Rattle.std.specs.Prelude.{List};
    ghost use Rattle.sp_rect.specs.declared.record.Record.{Record};
    ghost use Rattle.sp_rect.specs.Store.{IsOrdered};

    ghost Value = { List Record };

    ghost view = { λ p. p.records };

    ghost invariant = { λ p. IsOrdered p.records };
}

impl Plain {
    /// The store without records. Takes no memory.
    pub fn new(alloc: Global) -> Plain
        ensures { result ≡ [] }
    {
        Plain {
            alloc,
            records: Records::new(alloc),
        }
    }

    /// The records, by ascending id.
    pub fn records(&self) -> &Records
        ensures records { result.now ≡ self.now }
        ensures ordered { IsOrdered self.now }
    {
        &self.records
    }

    /// Runs the operation, and gives its reply. Where there is no memory the store is as it was. An
    /// operation on an id costs the logarithm of the number of records, and a put or a drop the records
    /// that move; one on a rectangle looks at each record.
    pub fn apply(&mut self, op: &Op) -> Result<Reply, AllocError>
        ensures reply { IfOk result (λ reply. reply ≡ replied op.now self.old) }
        ensures after { self.new ≡ (if is_ok result then after op.now self.old else self.old) }
    {
        let mut members = mem::replace(&mut self.records, Records::new(self.alloc)).into_vec();
        let reply = operate::run(self.alloc, &mut members, op);
        self.records = Records::from_vec(members);
        reply
    }

    /// Makes the changes in order, all or none. The answer is whether they can be made: it is false, and
    /// the store as it was, exactly where some change of the list puts an id that is there, drops or sets
    /// one that is not, or would make more than 1048576 records. Where there is no memory the store is as
    /// it was. Costs what the changes cost one by one, and twice that where they can't be made: each
    /// change that is made notes what takes it back.
    pub fn take(&mut self, changes: &Changes) -> Result<bool, AllocError>
        ensures made { IfOk result (λ made. taken changes.now self.old ≡ (if made then Some self.new else None)) }
        ensures refused { IfOk result (λ made. made ≡ false → self.new ≡ self.old) }
        ensures err { OnErr result (self.new ≡ self.old) }
    {
        let mut members = mem::replace(&mut self.records, Records::new(self.alloc)).into_vec();
        let made = undo::make_all(self.alloc, &mut members, changes.as_slice());
        self.records = Records::from_vec(members);
        made
    }
}

impl Duplicate for Plain {
    fn copy(&self, alloc: Global) -> Result<Plain, AllocError> {
        let records = self.records.copy(alloc)?;
        Ok(Plain { alloc, records })
    }
}
