//! Lists and texts, as contracts see them: the one list type that serves every list of the
//! workspace, and the text type that output is built in.
#![tactic(auto)]

mod duplicate;
mod sequence;
mod text;

pub use duplicate::Duplicate;
pub use sequence::Sequence;
pub use text::Text;
