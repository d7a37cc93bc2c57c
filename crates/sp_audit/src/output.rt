// The audit's line.
ghost use Rattle.std.specs.Prelude.{◌≡◌, ◌++◌, ◌∷◌, [], false, IfOk};
ghost use Rattle.serde_json.specs.View.{view};
ghost use Rattle.serde_json.specs.Written.{compact_text, has_float};
ghost use Rattle.sp_audit.specs.Line.{audit_told, audit_text};

use crate::Audit;
use crate::json::list;
use serde_json::{Value, json};
use sp_rect::Text;
use std::alloc::{AllocError, Global};

/// The audit as one line of compact JSON, with the keys of each object in alphabetical order, and an LF:
/// `{"base":[..],"commits":[..],"ended":[..]}`. `audit_text` of `specs/Line.antt` is that text.
pub fn dump(alloc: Global, audit: &Audit) -> Result<Text, AllocError>
    ensures { IfOk result (λ text. text ≡ audit_text audit.now) }
{
    let value = to_value(alloc, audit)?;
    line_of(alloc, &value)
}

// The value as one line.
fn line_of(alloc: Global, value: &Value) -> Result<Text, AllocError>
    requires { has_float (view value.now) ≡ false }
    ensures { IfOk result (λ text. text ≡ compact_text (view value.now) ++ 10 ∷ []) }
{
    let line = value.to_string(alloc)?;
    let mut text = Text::new(alloc);
    text.push_str(line.as_str())?;
    text.push_byte(b'\n')?;
    Ok(text)
}

#[tactic(auto, unfolding(crate::specs::Line::audit_told))]
fn to_value(alloc: Global, audit: &Audit) -> Result<Value, AllocError>
    ensures { IfOk result (λ v. view v ≡ audit_told audit.now) }
{
    let base = list(alloc, audit.base().as_slice())?;
    let commits = list(alloc, audit.commits())?;
    let ended = list(alloc, audit.ended())?;
    json!(in alloc; {"base": base, "commits": commits, "ended": ended})
}
