// A source that gives a text.
ghost use Rattle.std.specs.Prelude.{◌≡◌, ◌≤◌, length, take};

use sp_io::{Got, Source};
use sp_list::Text;

// It gives the bytes of the text from that place on, and never fails.
#[derive(Drop)]
pub(crate) struct Generated {
    pub text: Text,
    pub at: usize,
    ghost in_range: { at ≤ length text },
}

impl Source for Generated {
    ghost use Rattle.std.specs.Prelude.{Some, drop};

    ghost left = { λ s. Some (drop s.at s.text) };

    ghost read_faults = { λ s. 0 };

    fn read(&mut self, buf: &mut [u8]) -> Got {
        let rest = &self.text.bytes()[self.at..];
        if rest.is_empty() {
            return Got::End;
        }
        let count = buf.len().min(rest.len());
        copy_front(rest, buf, count);
        self.at += count;
        Got::Bytes(count)
    }
}

// Copies the first bytes into the front of a buffer.
fn copy_front(bytes: &[u8], buf: &mut [u8], count: usize)
    requires in_bytes { count ≤ length bytes.now }
    requires in_buf { count ≤ length buf.old }
    ensures { take count buf.new ≡ take count bytes.now }
{
    buf[..count].copy_from_slice(&bytes[..count]);
}
