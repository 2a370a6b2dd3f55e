// The frames that calls come in and go out as. A frame is a head of 144 bytes and five runs of
// bytes, whose lengths stand at its end; oracle/FRAMES.md says what stands where. Calls, states and
// the stream's answers are matched by the numbers that it gives them: any byte may come.
use defs::limits::MAX_PKT_BUF_SIZE;
use defs::{Answer, Refusal, StreamAnswer, StreamAnswers};

pub const HEAD: usize = 144;

// As much as any run of this program holds: a ring that is no longer than a packet (02, 2026-10), a
// packet or a table, and a little more for those that are refused.
pub const ROOM: usize = MAX_PKT_BUF_SIZE + 64;

// ---- reading: a place that the frame does not have reads as 0

pub fn byte_at(frame: &[u8], at: usize) -> u8 {
    frame.get(at).copied().unwrap_or(0)
}

pub fn yes_at(frame: &[u8], at: usize) -> bool {
    byte_at(frame, at) != 0
}

fn bytes_at<const N: usize>(frame: &[u8], at: usize) -> [u8; N] {
    frame
        .get(at..)
        .and_then(|rest| rest.first_chunk())
        .copied()
        .unwrap_or([0; N])
}

pub fn u64_at(frame: &[u8], at: usize) -> u64 {
    u64::from_le_bytes(bytes_at(frame, at))
}

pub fn u32_at(frame: &[u8], at: usize) -> u32 {
    u32::from_le_bytes(bytes_at(frame, at))
}

pub fn usize_at(frame: &[u8], at: usize) -> usize {
    u64_at(frame, at) as usize
}

// The length of a run, or of a part of one.
pub fn len_at(head: &[u8], at: usize) -> usize {
    u32_at(head, at) as usize
}

// ---- writing: a place that the frame does not have is left out

pub fn put_byte(frame: &mut [u8], at: usize, n: u8) {
    put(frame, at, [n]);
}

pub fn put_yes(frame: &mut [u8], at: usize, yes: bool) {
    put_byte(frame, at, u8::from(yes));
}

pub fn put_u64(frame: &mut [u8], at: usize, n: u64) {
    put(frame, at, n.to_le_bytes());
}

pub fn put_u32(frame: &mut [u8], at: usize, n: u32) {
    put(frame, at, n.to_le_bytes());
}

fn put<const N: usize>(frame: &mut [u8], at: usize, bytes: [u8; N]) {
    if let Some(place) = frame.get_mut(at..).and_then(|rest| rest.first_chunk_mut()) {
        *place = bytes;
    }
}

// ---- runs

// Reads a run of so many bytes to the front of its room, and gives that front.
pub fn filled(bytes: usize, room: &mut [u8]) -> &mut [u8] {
    let n = text::fitting(bytes, room);
    let run = &mut room[..n];
    io::read_full(0, run);
    run
}

// ---- what every call has

// The answers of the stream: kinds at 2 and 3, counts at 104 and 112.
pub fn answers(head: &[u8]) -> StreamAnswers {
    StreamAnswers {
        first: first_answer(head),
        second: stream_answer(byte_at(head, 3), usize_at(head, 112)),
    }
}

pub fn first_answer(head: &[u8]) -> StreamAnswer {
    stream_answer(byte_at(head, 2), usize_at(head, 104))
}

fn stream_answer(kind: u8, count: usize) -> StreamAnswer {
    match kind {
        0 => StreamAnswer::Count(count),
        1 => StreamAnswer::WouldBlock,
        _ => StreamAnswer::Failed,
    }
}

// A reply that has the call's entry and mark, 01's number of its answer, and for number 10 which.
pub fn reply_to(head: &[u8], answer: Answer) -> [u8; HEAD] {
    let mut reply = [0u8; HEAD];
    reply[0] = byte_at(head, 0);
    reply[1] = byte_at(head, 1);
    reply[2] = defs::number_of(answer);
    reply[3] = match answer {
        Err(Refusal::StreamBlocked) => 1,
        Err(Refusal::StreamFailed) => 2,
        _ => 0,
    };
    reply
}

// Writes a reply: its head with the lengths of the runs, then the runs.
pub fn write(reply: &mut [u8], storage: &[u8], hdr: &[u8], buf: &[u8], bytes: &[u8], out: &[u8]) {
    let runs = [storage, hdr, buf, bytes, out];
    for (i, run) in runs.iter().enumerate() {
        put_u32(reply, 120 + 4 * i, (run.len() % 4294967296) as u32);
    }
    io::write_all(1, reply);
    for run in runs {
        io::write_all(1, run);
    }
}
