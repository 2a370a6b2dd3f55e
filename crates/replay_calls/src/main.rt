// Replays calls: reads frames from standard input, makes each call on the proved code, and writes
// a frame with the answer and everything that the call left. oracle/FRAMES.md says what stands
// where, docs/TESTING.md who made the calls and the replies that are compared.
#![tactic(auto)]

ghost use Rattle.std.specs.Prelude.{◌≡◌, ◌+◌, length};
ghost use Rattle.defs.specs.Limits.{max_packet};

mod ask_calls;
mod conn_calls;
mod conn_record;
mod frame;
mod hdr_calls;
mod killq_calls;
mod queue_record;
mod replay;
mod ring_calls;
mod rxq_calls;
mod slots;

fn main() {
    let mut storage = room();
    let mut hdr = room();
    let mut buf = room();
    let mut bytes = room();
    let mut out = room();
    replay::vsock_replay(&mut storage, &mut hdr, &mut buf, &mut bytes, &mut out);
}

fn room() -> [u8; frame::ROOM]
    ensures { (max_packet + 64) ≡ length result }
{
    [0u8; frame::ROOM]
}
