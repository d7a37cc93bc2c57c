// Needs, from locks that are wanted.
ghost use Rattle.std.specs.Prelude.{◌≡◌, ◌++◌, ℕ, OnOk, IfOk, map, if◌then◌else◌, Option, Some};
ghost use Rattle.std.specs.BTreeMap.{IsOrdered, get};
ghost use Rattle.std.specs.Ordering.{nat_cmp};
ghost use Rattle.sp_locks.specs.declared.row.Name.{Name as AnyName};
ghost use Rattle.sp_locks.specs.declared.row.Name.TheVariants.{Granule, Object};
ghost use Rattle.sp_locks.specs.Rows.{same_name, join_onto};
ghost use Rattle.sp_protection.specs.Needs.{AreNeedsOf};
ghost use Rattle.sp_ops.specs.Wanted.{IsWanted, AllMayLast, joined_on, noted, need_on, needs_of};

use sp_locks::{Duration, Mode, Name, Need, Needs, join};
use std::alloc::{AllocError, Global};
use std::collections::BTreeMap;

/// A lock that is wanted, for one reason of maybe many.
#[derive(Clone, Copy, Debug, PartialEq, Eq)]
pub struct Want {
    pub name: Name,
    pub mode: Mode,
}

/// The modes that are wanted on granules, by number, and on objects, by id.
#[derive(Drop)]
struct Modes {
    granules: BTreeMap<u64, Mode>,
    objects: BTreeMap<u64, Mode>,
}

// Joins the mode to the one under the number.
fn raise(modes: &mut BTreeMap<u64, Mode>, number: u64, mode: Mode) -> Result<(), AllocError>
    ensures { OnOk result ((n : ℕ) → get nat_cmp modes.new n
        ≡ (if same_name (Granule n) (Granule number) then join_onto mode (get nat_cmp modes.old n) else get nat_cmp modes.old n)) }
{
    let joined = match modes.get(&number) {
        Some(other) => join(mode, *other),
        None => mode,
    };
    modes.insert(number, joined)?;
    Ok(())
}

// Notes what is wanted.
fn note(modes: &mut Modes, want: &Want) -> Result<(), AllocError>
    ensures { OnOk result ((name : AnyName) → noted modes.new name
        ≡ (if same_name name want.now.name then join_onto want.now.mode (noted modes.old name) else noted modes.old name)) }
{
    match want.name {
        Name::Granule(number) => raise(&mut modes.granules, number, want.mode),
        Name::Object(id) => raise(&mut modes.objects, id, want.mode),
    }
}

// Notes all that is wanted.
fn note_all(alloc: Global, wants: &[Want]) -> Result<Modes, AllocError>
    ensures { IfOk result (λ modes. (name : AnyName) → noted modes name ≡ joined_on name wants.now) }
{
    let mut modes = Modes {
        granules: BTreeMap::new(alloc),
        objects: BTreeMap::new(alloc),
    };
    for want in wants {
        note(&mut modes, want)?;
    }
    Ok(modes)
}

// Adds the needs on granules.
fn push_granules(
    needs: &mut Vec<Need>,
    modes: &BTreeMap<u64, Mode>,
    duration: Duration,
) -> Result<(), AllocError>
    ensures added { OnOk result (needs.new.items ≡ needs.old.items ++ map (need_on Granule duration) modes.now.entries) }
    ensures ordered { IsOrdered nat_cmp modes.now }
{
    for (number, mode) in modes {
        let name = Name::Granule(*number);
        let mode = *mode;
        needs.push(Need {
            name,
            mode,
            duration,
        })?;
    }
    Ok(())
}

// Adds the needs on objects.
fn push_objects(
    needs: &mut Vec<Need>,
    modes: &BTreeMap<u64, Mode>,
    duration: Duration,
) -> Result<(), AllocError>
    ensures added { OnOk result (needs.new.items ≡ needs.old.items ++ map (need_on Object duration) modes.now.entries) }
    ensures ordered { IsOrdered nat_cmp modes.now }
{
    for (id, mode) in modes {
        let name = Name::Object(*id);
        let mode = *mode;
        needs.push(Need {
            name,
            mode,
            duration,
        })?;
    }
    Ok(())
}

/// The needs for that long: on each name that the list wants the join of all modes that it wants there,
/// once, and in the order in which needs are asked: on granules by number, then on objects by id. Short
/// needs are on granules alone. Costs the length of the list, times the logarithm of the number of names.
pub fn joined(alloc: Global, wants: &[Want], duration: Duration) -> Result<Needs, AllocError>
    requires { AllMayLast duration wants.now }
    ensures { IfOk result (AreNeedsOf (IsWanted wants.now) duration) }
{
    let modes = note_all(alloc, wants)?;
    let mut needs = Vec::new(alloc);
    push_granules(&mut needs, &modes.granules, duration)?;
    push_objects(&mut needs, &modes.objects, duration)?;
    Ok(Needs::from_vec(needs))
}
