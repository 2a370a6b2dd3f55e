// The push of `txbuf` for C, by its answer's number: what scripts/leaf-check takes apart and
// scripts/lend-rings calls. A library exports nothing to C, so it stands once more here, in a
// static library.
#![tactic(auto)]

ghost use Rattle.txbuf.specs.Push.{PushIn, NumberedLeft, NumberedSays};

use txbuf::TxBuf;

#[unsafe(no_mangle)]
pub extern "C" fn vsock_ring_push(ring: TxBuf, storage: &mut [u8], src: &[u8]) -> u8
    ensures { NumberedSays (record { ring = ring; store = storage.old; src = src.now }) (record { number = result; store = storage.new }) }
{
    txbuf::vsock_ring_push(ring, storage, src)
}
