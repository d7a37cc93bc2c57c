// Generated scripts are written.
ghost use Rattle.std.specs.Prelude.{◌≡◌, ◌<◌, false};
ghost use Rattle.spatial.specs.Commands.{status_of, Makes};

use sp_io::{Sink, write_all};
use sp_runs::write_last;
use sp_script::script;
use sp_text::End;
use std::alloc::Global;

// Writes the script of this seed, with that many rounds, and says how that ended.
pub(crate) fn make<K: Sink>(alloc: Global, sink: &mut K, seed: u64, count: u64) -> End
    requires { seed < 2147483647 }
    ensures handed { result ≡ End.Input → K.holds_back sink.new ≡ false }
    ensures written { Makes (status_of result) seed count (K.taken sink.old) (K.taken sink.new) (K.write_faults sink.old) (K.write_faults sink.new) }
{
    let Ok(text) = script(alloc, seed, count) else {
        write_last(sink, End::Memory);
        return End::Memory;
    };
    match write_all(sink, text.bytes()) {
        Ok(()) => End::Input,
        Err(_) => End::WriteFault,
    }
}
