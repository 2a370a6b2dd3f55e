// A table's runs of numbers, 8 bytes each: ports, or times.
ghost use Rattle.std.specs.Prelude.{◌≡◌, ◌+◌, length};
ghost use Rattle.io.specs.Counts.{IsPrefixLen};
ghost use Rattle.defs.specs.Limits.{max_slots};

use crate::frame;
use defs::limits::MAX_CONNECTIONS;

// More than a table may have.
const SLOTS: usize = MAX_CONNECTIONS + 8;

// A run's numbers, of 8 bytes each; past its end 0.
pub fn numbers(bytes: &[u8]) -> [u64; SLOTS]
    ensures { (max_slots + 8) ≡ length result }
{
    let mut all = [0u64; SLOTS];
    for (number, bytes) in all.iter_mut().zip(bytes.chunks_exact(8)) {
        *number = frame::u64_at(bytes, 0);
    }
    all
}

// How many of them are the run's.
pub fn slots(bytes: usize, all: &[u64]) -> usize
    ensures { IsPrefixLen result all.now }
{
    all.len().min(bytes / 8)
}
