// Pushing: all of the bytes or none.
ghost use Rattle.std.specs.Prelude.{◌≡◌, ◌<◌, length};
ghost use Rattle.txbuf.specs.Push.{push_answer, runs, PushIn, push_seen, PushSays, NumberedLeft, NumberedSays};

use crate::record::TxBuf;
use defs::{Answer, Refusal, limits};

impl TxBuf {
    // Pushes all of `src` onto the ring, or nothing.
    pub fn push(self, storage: &mut [u8], src: &[u8]) -> Result<TxBuf, Refusal>
        ensures { PushSays (record { ring = self; store = storage.old; src = src.now }) (push_seen self result storage.new) }
    {
        self.push_answer(storage.len(), src.len())?;
        let at = (self.head % self.size) as usize;
        write_runs(storage, at, src);
        let head = self.head.wrapping_add(src.len() as u32);
        Ok(TxBuf { head, ..self })
    }

    // What a push of so many bytes is answered, over a storage of so many.
    fn push_answer(self, storage: usize, bytes: usize) -> Answer
        ensures { result ≡ push_answer self storage bytes }
    {
        let sound = self.is_sound_over(storage);
        let short = limits::is_packet_length(bytes);
        defs::door(!sound, false, false, !short)?;
        let held = self.used() as usize;
        if storage < held + bytes {
            return Err(Refusal::TxBufFull);
        }
        Ok(())
    }
}

// The same under a C name, by 01's number, by which `txbuf_c` exports it: what scripts/leaf-check
// takes apart and scripts/lend-rings calls.
#[unsafe(no_mangle)]
pub extern "C" fn vsock_ring_push(ring: TxBuf, storage: &mut [u8], src: &[u8]) -> u8
    ensures { NumberedSays (record { ring = ring; store = storage.old; src = src.now }) (record { number = result; store = storage.new }) }
{
    defs::number_of(ring.push(storage, src).and(Ok(())))
}

// Writes `src` into the storage from an offset to its end, then what is left from its start.
fn write_runs(storage: &mut [u8], at: usize, src: &[u8])
    requires { at < length storage.old }
    ensures { storage.new ≡ runs storage.old at src.now }
{
    let first = src.len().min(storage.len() - at);
    defs::copy(&mut storage[at..], src);
    defs::copy(storage, &src[first..]);
}
