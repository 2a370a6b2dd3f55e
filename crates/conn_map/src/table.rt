// When a table is sound.
ghost use Rattle.std.specs.Prelude.{◌≡◌};
ghost use Rattle.conn_map.specs.Table.{sound_table};

use crate::distinct;
use defs::limits;

// Whether the table is sound; `marks` is the length of the third slice that the call lends.
pub fn is_sound(ports: &[u64], used: &[u8], marks: usize) -> bool
    ensures { result ≡ sound_table ports.now used.now marks }
{
    if !limits::is_slot_count(ports.len()) || used.len() != ports.len() || marks != ports.len() {
        return false;
    }
    distinct::are_distinct(ports, used)
}
