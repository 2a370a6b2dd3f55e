// Raw sends: 4, 5, 6 and 10, and one that is done; none leaves an account.
use crate::show;
use crate::standing::{OVER, SIZE, established, sevens};
use defs::limits::MAX_PKT_BUF_SIZE;
use defs::{StreamAnswer, StreamAnswers};
use std::io;
use std::io::{Stdout, Write};
use text::front;

pub fn raw(stdout: &mut Stdout) -> io::Result<()> {
    let buf = sevens();
    let sends = [
        (OVER, StreamAnswer::Count(1), 16),
        (MAX_PKT_BUF_SIZE, StreamAnswer::Count(1), 16),
        (4, StreamAnswer::Count(5), 3),
        (4, StreamAnswer::Count(4), 3),
        (4, StreamAnswer::WouldBlock, 0),
        (4, StreamAnswer::Failed, 0),
        (4, StreamAnswer::Count(3), 3),
    ];
    for (bytes, first, room) in sends {
        send(stdout, front(&buf, bytes), first, room)?;
    }
    Ok(())
}

fn send(stdout: &mut Stdout, buf: &[u8], first: StreamAnswer, room: usize) -> io::Result<()> {
    let answers = StreamAnswers {
        first,
        second: StreamAnswer::Count(99),
    };
    let mut out = [b'.'; SIZE];
    write!(stdout, "raw {} room {room}", buf.len())?;
    show::by(stdout, first)?;
    let o = text::fitting(room, &out);
    let sent = connection::send_bytes_raw(established(), buf, answers, &mut out[..o]);
    show::answered(stdout, sent)?;
    write!(stdout, " count {}", sent.unwrap_or(0))?;
    show::bytes(stdout, "out", &out)?;
    writeln!(stdout)
}
