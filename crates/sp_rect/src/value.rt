// Values of records.
ghost use Rattle.std.specs.Prelude.{◌≡◌, IfOk, OnErr, true, false};
ghost use Rattle.sp_rect.specs.Value.{is_printing, is_value};
ghost use Rattle.std.specs.List.{list_all};

use arrayvec::ArrayVec;
use sp_list::Duplicate;
use std::alloc::{AllocError, Global};
use std::marker::Model;

// The most bytes of a value.
const LONGEST: usize = 64;

/// What `Value::new` answers to bytes that are no value.
#[derive(Clone, Copy, Debug, PartialEq, Eq, Drop)]
pub struct BadValue;

/// A record's text: 1 to 64 bytes, each a printing ASCII character and no space (0x21 to 0x7E). The bytes stand
/// in the value itself, so that no value takes memory of its own.
#[derive(Drop)]
pub struct Value {
    bytes: ArrayVec<u8, LONGEST>,
}

impl Model for Value {
    ghost use Rattle.std.specs.Prelude.{List, ℕ, IsTrue};
    ghost use Rattle.sp_rect.specs.Value.{is_value};

    ghost Value = { List ℕ };

    ghost view = { λ v. v.bytes.items };

    ghost invariant = { λ v. IsTrue (is_value v.bytes.items) };
}

impl Value {
    /// The value of these bytes. `BadValue` comes exactly where they are none.
    pub fn new(bytes: &[u8]) -> Result<Value, BadValue>
        ensures ok { IfOk result (λ v. v ≡ bytes.now) }
        ensures fits { IfOk result (λ v. is_value bytes.now ≡ true) }
        ensures bad { OnErr result (is_value bytes.now ≡ false) }
    {
        if !is_value(bytes) {
            return Err(BadValue);
        }
        Ok(Value { bytes: kept(bytes) })
    }

    /// The bytes of the value.
    pub fn bytes(&self) -> &[u8]
        ensures bytes { result.now ≡ self.now }
        ensures valid { is_value self.now ≡ true }
    {
        self.bytes.as_slice()
    }
}

impl Duplicate for Value {
    fn copy(&self, _alloc: Global) -> Result<Value, AllocError> {
        Ok(Value {
            bytes: kept(self.bytes.as_slice()),
        })
    }
}

// The bytes of a value in a vector that holds the longest.
#[tactic(auto, unfolding(crate::specs::Value::is_value))]
fn kept(bytes: &[u8]) -> ArrayVec<u8, LONGEST>
    requires { is_value bytes.now ≡ true }
    ensures { result.items ≡ bytes.now }
{
    let mut kept = ArrayVec::new();
    match kept.try_extend_from_slice(bytes) {
        Ok(()) => kept,
        Err(_) => unreachable!(),
    }
}

// Whether the bytes are a value.
#[tactic(auto, unfolding(crate::specs::Value::is_value))]
fn is_value(bytes: &[u8]) -> bool
    ensures { result ≡ is_value bytes.now }
{
    let len = bytes.len();
    1 <= len && len <= LONGEST && all_printing(bytes)
}

// Whether each byte prints and is no space.
fn all_printing(bytes: &[u8]) -> bool
    ensures { result ≡ list_all is_printing bytes.now }
{
    bytes.iter().all(|b| 0x21 <= *b && *b <= 0x7e)
}
