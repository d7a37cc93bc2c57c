// A list of members, which contracts see as a list.
ghost use Rattle.std.specs.Prelude.{◌≡◌, ◌≤◌, ◌<◌, ◌^◌, ◌++◌, ◌∷◌, [], length, slice_get, insert, take, if◌then◌else◌, is_ok, IfOk};
ghost use Rattle.std.specs.Option.{option_copied};
ghost use Rattle.sp_list.specs.Emptiness.{is_empty};

use crate::Duplicate;
use std::alloc::{AllocError, Global};
use std::marker::Model;

/// A list that owns its members, in order. Equality in contracts is equality of the members, never of
/// the buffer that they stand in.
#[derive(Drop)]
pub struct Sequence<T> {
    members: Vec<T>,
}

impl<T> Model for Sequence<T> {
    ghost use Rattle.std.specs.Prelude.{List};

    ghost Value = { List T };

    ghost view = { λ s. s.members.items };
}

impl<T: Drop> Sequence<T> {
    /// The empty list. Takes no memory.
    pub fn new(alloc: Global) -> Sequence<T>
        ensures { result ≡ [] }
    {
        Sequence {
            members: Vec::new(alloc),
        }
    }

    /// The list of a vector's members. Takes no memory.
    pub fn from_vec(members: Vec<T>) -> Sequence<T>
        ensures { result ≡ members.items }
    {
        Sequence { members }
    }

    /// The vector of the members. Takes no memory.
    pub fn into_vec(self) -> Vec<T>
        ensures { result.items ≡ self }
    {
        self.members
    }

    /// Adds the member at the end. Where there is no memory the list is as it was.
    pub fn push(&mut self, member: T) -> Result<(), AllocError>
        ensures { self.new ≡ (if is_ok result then self.old ++ member ∷ [] else self.old) }
    {
        self.members.push(member)?;
        Ok(())
    }

    /// Puts the member in front of the one at that place, or at the end. Where there is no memory the
    /// list is as it was. Costs the members behind it.
    pub fn insert(&mut self, at: usize, member: T) -> Result<(), AllocError>
        requires { at ≤ length self.old }
        ensures { self.new ≡ (if is_ok result then insert self.old at member else self.old) }
    {
        self.members.insert(at, member)?;
        Ok(())
    }

    /// The number of members.
    pub fn len(&self) -> usize
        ensures len { result ≡ length self.now }
        ensures small { result < 2 ^ 63 }
    {
        self.members.len()
    }

    /// Whether there is no member.
    pub fn is_empty(&self) -> bool
        ensures { result ≡ is_empty self.now }
    {
        self.members.is_empty()
    }

    /// The member at place `i`, counted from 0: `None` exactly where `i` is not below `len`.
    pub fn get(&self, i: usize) -> Option<&T>
        ensures { option_copied result ≡ slice_get self.now i }
    {
        self.members.get(i)
    }

    /// The members as a slice.
    pub fn as_slice(&self) -> &[T]
        ensures { result.now ≡ self.now }
    {
        self.members.as_slice()
    }
}

impl<T: Duplicate> Duplicate for Sequence<T> {
    fn copy(&self, alloc: Global) -> Result<Sequence<T>, AllocError> {
        let members = copy_members(alloc, self.members.as_slice())?;
        Ok(Sequence { members })
    }
}

fn copy_members<T: Duplicate>(alloc: Global, members: &[T]) -> Result<Vec<T>, AllocError>
    ensures { IfOk result (λ copied. copied.items ≡ members.now) }
{
    let mut copied = Vec::with_capacity(alloc, members.len())?;
    for member in members {
        copied.push(member.copy(alloc)?)?;
    }
    Ok(copied)
}
