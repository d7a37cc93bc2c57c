// The insertion that was planned last.
ghost use Rattle.std.specs.Prelude.{◌≡◌, IsTrue, None, IfSome};
ghost use Rattle.sp_node.specs.Plan.{IsMadeOf, planned};
ghost use Rattle.sp_node.specs.Table.{Table};
ghost use Rattle.sp_model.specs.Plans.{IsInserted};
ghost use Rattle.sp_state.specs.Sketches.{IsSketchOf};

use sp_node::{Draft, Entry, Marks, Plan};

/// A new entry, and the plan of its insertion into the present tree. An operation's planning makes one, and its
/// application takes it where nothing has changed the tree since.
#[derive(Drop)]
pub struct Sketch {
    pub entry: Entry,
    pub plan: Plan,
}

// Whether both have the same marks, and no draft.
fn are_same_marks(a: &Marks, b: &Marks) -> bool
    ensures { IsTrue result → a.now ≡ b.now }
{
    let undrafted = matches!((&a.draft, &b.draft), (Draft::None, Draft::None));
    undrafted && a.made == b.made && a.ended == b.ended
}

// Whether both stand for the same record.
fn are_same_records(a: &Entry, b: &Entry) -> bool
    ensures id { IsTrue result → a.now.id ≡ b.now.id }
    ensures rect { IsTrue result → a.now.rect ≡ b.now.rect }
    ensures value { IsTrue result → a.now.value ≡ b.now.value }
{
    let has_same_rect = a.rect == b.rect;
    let has_same_value = a.value.bytes() == b.value.bytes();
    a.id == b.id && has_same_rect && has_same_value
}

// Whether it is the same entry, without a draft.
fn is_same(a: &Entry, b: &Entry) -> bool
    ensures { IsTrue result → a.now ≡ b.now }
{
    if a.number != b.number {
        return false;
    }
    are_same_records(a, b) && are_same_marks(&a.marks, &b.marks)
}

/// Takes the plan of this entry's insertion, where that is what was planned last. Nothing is kept afterwards.
pub fn take_plan(sketch: &mut Option<Sketch>, entry: &Entry) -> Option<Plan>
    ensures gone { sketch.new ≡ None }
    ensures made { (t : Table) → IsSketchOf t sketch.old → IfSome result (IsMadeOf t) }
    ensures inserted { (t : Table) → IsSketchOf t sketch.old → IfSome result (λ plan. IsInserted t entry.now (planned t plan)) }
{
    let kept = sketch.take()?;
    if is_same(&kept.entry, entry) {
        Some(kept.plan)
    } else {
        None
    }
}
