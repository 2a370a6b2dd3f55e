// Parts of buffers by a number that may be larger than they are.
ghost use Rattle.std.specs.Prelude.{◌≡◌, take};
ghost use Rattle.text.specs.Part.{FittingSays};

// So many of the room's bytes, or all that it has.
pub fn fitting(bytes: usize, room: &[u8]) -> usize
    ensures { FittingSays bytes room.now result }
{
    bytes.min(room.len())
}

// No more of the bytes than there are.
pub fn front(bytes: &[u8], n: usize) -> &[u8]
    ensures { result.now ≡ take n bytes.now }
{
    bytes.get(..n).unwrap_or(bytes)
}
