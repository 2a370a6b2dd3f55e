// Turns to speak.
use crate::show;
use crate::standing::{OVER, SIZE, dots, established, readable};
use connection::VsockConnection;
use csm::ConnState;
use defs::StreamAnswer;
use defs::limits::{MAX_CLOCK_MS, MAX_PKT_BUF_SIZE, VSOCK_PKT_HDR_SIZE};
use std::io;
use std::io::{Stdout, Write};
use text::front;

// What a turn to speak is given.
#[derive(Clone, Copy)]
struct Speaking {
    hdr: usize,
    present: bool,
    buf: usize,
    now_ms: u64,
    supplied: usize,
}

fn usual() -> Speaking {
    Speaking {
        hdr: VSOCK_PKT_HDR_SIZE,
        present: true,
        buf: SIZE,
        now_ms: 1000,
        supplied: SIZE,
    }
}

// The header is shown by its type, op, len and flags, where it was written, the buffer by its first
// bytes.
fn turn(
    stdout: &mut Stdout,
    conn: VsockConnection,
    t: Speaking,
    answer: StreamAnswer,
) -> io::Result<VsockConnection> {
    write!(stdout, "turn hdr {}", t.hdr)?;
    show::buffer(stdout, t.present, t.buf)?;
    write!(stdout, " clock {} supplied {}", t.now_ms, t.supplied)?;
    show::by(stdout, answer)?;
    let mut hdr = [0u8; VSOCK_PKT_HDR_SIZE + 1];
    let mut buf = dots();
    let next = spoken(stdout, conn, t, answer, &mut hdr, &mut buf)?;
    header(stdout, front(&hdr, VSOCK_PKT_HDR_SIZE))?;
    show::bytes(stdout, "buffer", front(&buf, SIZE))?;
    writeln!(stdout)?;
    Ok(next)
}

fn spoken(
    stdout: &mut Stdout,
    conn: VsockConnection,
    t: Speaking,
    answer: StreamAnswer,
    hdr: &mut [u8],
    buf: &mut [u8],
) -> io::Result<VsockConnection> {
    let read = [7u8; 20];
    let h = text::fitting(t.hdr, hdr);
    let b = text::fitting(t.buf, buf);
    let after = connection::recv_pkt(
        conn,
        &mut hdr[..h],
        t.present,
        &mut buf[..b],
        t.now_ms,
        answer,
        front(&read, t.supplied),
    );
    let next = after.conn;
    show::answered(stdout, after.answer)?;
    show::state(stdout, next)?;
    write!(stdout, " sent {}", next.rx_cnt)?;
    show::pending(stdout, next)?;
    show::timer(stdout, next)?;
    Ok(next)
}

fn header(stdout: &mut Stdout, hdr: &[u8]) -> io::Result<()> {
    let Ok(said) = packet::decode(hdr) else {
        return Ok(());
    };
    write!(stdout, " type {} op {}", said.type_, said.op)?;
    write!(stdout, " len {} flags {}", said.len, said.flags)
}

// Header lengths, clocks and buffers on both sides of their limits; a buffer that is absent is not
// measured.
pub fn turns(stdout: &mut Stdout) -> io::Result<()> {
    let usual = usual();
    let late = Speaking {
        now_ms: MAX_CLOCK_MS + 1,
        ..usual
    };
    let last = Speaking {
        now_ms: MAX_CLOCK_MS,
        ..usual
    };
    let speakings = [
        usual,
        Speaking {
            hdr: VSOCK_PKT_HDR_SIZE - 1,
            ..usual
        },
        Speaking {
            hdr: VSOCK_PKT_HDR_SIZE + 1,
            ..late
        },
        late,
        Speaking { buf: OVER, ..last },
        Speaking {
            buf: MAX_PKT_BUF_SIZE,
            ..last
        },
        Speaking {
            buf: OVER,
            present: false,
            ..last
        },
    ];
    for t in speakings {
        turn(stdout, established(), t, StreamAnswer::Failed)?;
    }
    Ok(())
}

// Counts up to what was asked or supplied, and over it; no bytes end the stream; no buffer is 8;
// a state that gives no data is reset, and its answer is not looked at.
pub fn answers(stdout: &mut Stdout) -> io::Result<()> {
    let is = ConnState::Established;
    for count in [16, 17] {
        turn(stdout, readable(is), usual(), StreamAnswer::Count(count))?;
    }
    let three = Speaking {
        supplied: 3,
        ..usual()
    };
    for answer in [
        StreamAnswer::Count(3),
        StreamAnswer::Count(4),
        StreamAnswer::Count(0),
        StreamAnswer::WouldBlock,
        StreamAnswer::Failed,
    ] {
        turn(stdout, readable(is), three, answer)?;
    }
    let absent = Speaking {
        present: false,
        ..three
    };
    for state in [is, ConnState::Killed] {
        turn(stdout, readable(state), absent, StreamAnswer::Count(99))?;
    }
    little_credit(stdout, usual())
}

// Room for 2 bytes at the guest's, then for none: the read asks for 2; without room the guest is
// asked, whether there is a buffer or not.
fn little_credit(stdout: &mut Stdout, t: Speaking) -> io::Result<()> {
    let mut conn = readable(ConnState::Established);
    conn.peer_buf_alloc = 2;
    turn(stdout, conn, t, StreamAnswer::Count(3))?;
    let mut again = turn(stdout, conn, t, StreamAnswer::Count(2))?;
    again.pending_rx.rw = true;
    turn(stdout, again, t, StreamAnswer::Count(99))?;
    Ok(())
}
