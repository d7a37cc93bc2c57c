// The language of a script.

/// What the lines of a script are.
#[derive(Clone, Copy, Debug, PartialEq, Eq)]
pub enum Language {
    /// Commands of sessions.
    Commands,
    /// Single events of the kernel.
    Events,
}
