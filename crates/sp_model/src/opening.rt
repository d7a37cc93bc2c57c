// The law of opening.
ghost use Rattle.std.specs.Prelude.{◌≤◌, List, length};
ghost use Rattle.sp_rect.specs.declared.record.Record.{Record as AnyRecord};
ghost use Rattle.sp_rect.specs.Store.{IsOrdered};
ghost use Rattle.sp_node.specs.declared.node.Shape.{Shape as AnyShape};
ghost use Rattle.sp_node.specs.Table.{IsShape};
ghost use Rattle.sp_model.specs.State.{Kernel};
ghost use Rattle.sp_model.specs.Stepped.{most_entries};
ghost use Rattle.sp_model.specs.Opening.{IsOpened};
ghost use Rattle.sp_model.specs.Soundness.{Sound};

/// A law: a kernel whose tree was rebuilt from records by ascending id, one insertion after the other, and
/// in which nothing has happened, is sound. It has at most 2^20 records.
pub fn opened_is_sound()
    ensures { (shape : AnyShape) (records : List AnyRecord) (k : Kernel)
        → IsShape shape → IsOrdered records → length records ≤ most_entries → IsOpened shape records k → Sound k }
{}
