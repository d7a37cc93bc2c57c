// Laws on records by ascending id, for those who stand on them.
ghost use Rattle.std.specs.Prelude.{◌≡◌, List, Some};
ghost use Rattle.sp_rect.specs.Store.{IsOrdered, after};
ghost use Rattle.sp_rect.specs.declared.record.Record.{Record};
ghost use Rattle.sp_rect.specs.declared.operation.Op.{Op};
ghost use Rattle.sp_plain.specs.Taking.{taken};
ghost use Rattle.sp_plain.specs.declared.change.Change.{Change};

/// What an operation leaves of records by ascending id is so too.
pub fn operations_keep_order()
    ensures { (op : Op) (records : List Record) → IsOrdered records → IsOrdered (after op records) }
{}

/// So is what changes make of them.
pub fn changes_keep_order()
    ensures { (changes : List Change) (records made : List Record) → IsOrdered records → taken changes records ≡ Some made → IsOrdered made }
{}
