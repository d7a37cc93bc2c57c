// What is read of a file.
ghost use Rattle.std.specs.Prelude.{◌<◌, ◌^◌};

use crate::Recovered;
use crate::kind::Kind;

/// What was read of a file.
#[derive(Drop)]
pub struct Scan {
    pub kind: Kind,
    /// The offset of the gate behind the entries.
    pub end: u64,
    pub found: Recovered,
    ghost end_fits: { end < 2 ^ 63 },
}
