// JSON arrays of a few values, one after the other.
ghost use Rattle.std.specs.Prelude.{◌≡◌, ◌++◌, ◌∷◌, [], IfOk};
ghost use Rattle.serde_json.specs.Data.{string, array};
ghost use Rattle.serde_json.specs.View.{view, items_of};
ghost use Rattle.sp_audit.specs.Row.{standing};
ghost use Rattle.sp_audit.specs.Line.{whole, signed, corners_told};

use serde_json::Value;
use sp_rect::Rect;
use std::alloc::{AllocError, Global};

// The values so far.
#[derive(Drop)]
pub(crate) struct Row {
    values: Vec<Value>,
}

impl Row {
    pub(crate) fn new(alloc: Global) -> Row
        ensures { standing result ≡ [] }
    {
        Row {
            values: Vec::new(alloc),
        }
    }

    pub(crate) fn with(self, value: Value) -> Result<Row, AllocError>
        ensures { IfOk result (λ row. standing row ≡ standing self ++ view value ∷ []) }
    {
        let mut values = self.values;
        values.push(value)?;
        Ok(Row { values })
    }

    pub(crate) fn word(self, alloc: Global, word: &str) -> Result<Row, AllocError>
        ensures { IfOk result (λ row. standing row ≡ standing self ++ string word.now ∷ []) }
    {
        self.with(Value::try_from_str(alloc, word)?)
    }

    pub(crate) fn whole(self, number: u64) -> Result<Row, AllocError>
        ensures { IfOk result (λ row. standing row ≡ standing self ++ whole number ∷ []) }
    {
        self.with(Value::from(number))
    }

    fn signed(self, number: i32) -> Result<Row, AllocError>
        ensures { IfOk result (λ row. standing row ≡ standing self ++ signed number ∷ []) }
    {
        self.with(Value::from(number))
    }

    pub(crate) fn corners(self, rect: &Rect) -> Result<Row, AllocError>
        ensures { IfOk result (λ row. standing row ≡ standing self ++ corners_told rect.now) }
    {
        let row = self
            .signed(rect.x1())?
            .signed(rect.y1())?
            .signed(rect.x2())?
            .signed(rect.y2())?;
        Ok(row)
    }

    pub(crate) fn into_value(self) -> Value
        ensures { view result ≡ array (items_of (standing self)) }
    {
        Value::Array(self.values)
    }
}
