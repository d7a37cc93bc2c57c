// The two files of a journal are fetched by their names.
ghost use Rattle.std.specs.Prelude.{◌≡◌, ◌≢◌, ◌≤◌, ◌++◌, List, ℕ, IsTrue, IfOk, OnOk, OnErr, IsErrOf, string_bytes};
ghost use Rattle.sp_disk.specs.Faults.{Rose};
ghost use Rattle.sp_files.specs.Fetching.{alt_name, names_of, AsksFirst};

use sp_disk::{Shelf, ShelfFault};
use sp_pair::Pair;
use std::alloc::{AllocError, Global};

/// The two files of the journal of that name, as the shelf hands them out: first that of the name itself,
/// and then that of the name with `.alt` at its end. A file that is missing is made, empty. `Fault` comes
/// only where the shelf's count of faults rose. Costs two calls of the shelf.
pub fn fetch_pair<H: Shelf>(
    alloc: Global,
    shelf: &mut H,
    name: &str,
) -> Result<Pair<H::Disk>, ShelfFault>
    ensures main { IsTrue (H.tells shelf.old) → IfOk result (λ p. IsTrue (H.Disk.tells p.main) × (H.Disk.reads p.main ≡ H.holds shelf.old name.now)) }
    ensures alt { IsTrue (H.tells shelf.old) → IfOk result (λ p. IsTrue (H.Disk.tells p.alt) × (H.Disk.reads p.alt ≡ H.holds shelf.old (alt_name name.now))) }
    ensures unfailed { IfOk result (λ p. (H.Disk.faults p.main ≡ 0) × (H.Disk.faults p.alt ≡ 0)) }
    ensures asked { OnOk result (H.asked shelf.new ≡ H.asked shelf.old ++ names_of name.now) }
    ensures asked_in_vain { OnErr result (AsksFirst (H.asked shelf.old) (H.asked shelf.new) (names_of name.now)) }
    ensures others { IsTrue (H.tells shelf.old) → (other : List ℕ) → other ≢ name.now → other ≢ alt_name name.now → H.holds shelf.new other ≡ H.holds shelf.old other }
    ensures later { H.faults shelf.old ≤ H.faults shelf.new }
    ensures fault { IsErrOf result ShelfFault.Fault → Rose (H.faults shelf.old) (H.faults shelf.new) }
    ensures tells { H.tells shelf.new ≡ H.tells shelf.old }
{
    let alt_name = alt_name(alloc, name)?;
    let main = shelf.fetch(name)?;
    let alt = shelf.fetch(alt_name.as_str())?;
    Ok(Pair { main, alt })
}

// The name of the other file.
fn alt_name(alloc: Global, name: &str) -> Result<String, AllocError>
    ensures { IfOk result (λ other. string_bytes other ≡ alt_name name.now) }
{
    let mut other = String::from_str(alloc, name)?;
    other.push_str(".alt")?;
    Ok(other)
}
