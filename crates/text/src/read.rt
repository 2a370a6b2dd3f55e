// Bytes from a reader: from standard input, where a program hands it that.
ghost use Rattle.text.specs.Read.{FillSays};

use std::io;
use std::io::Read;

// Reads until the room is full or the input ends, and says how many bytes stand at its front.
// A loop of its own, since std's `read_exact` fails where the input ends early.
pub fn fill<R: Read>(input: &mut R, room: &mut [u8]) -> io::Result<usize>
    ensures { FillSays room.old room.new (R.remaining input.old) (R.remaining input.new) result }
{
    let mut done = 0;
    while done < room.len() {
        let n = input.read(&mut room[done..])?;
        if n == 0 {
            return Ok(done);
        }
        done += n;
    }
    Ok(done)
}
