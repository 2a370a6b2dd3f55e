// Waiting for a stream that would block. There is no `poll` here, but what starts the program has
// one (scripts/carry): it is asked with a letter, and answers when that stream is ready, or that it
// is time to end.
use std::io::ErrorKind;
use std::thread;

const ASK: i32 = 3;

const ANSWER: i32 = 4;

const END: u8 = b'e';

// Whether there is more to come.
pub fn for_input() -> bool {
    wait(b"r") != END
}

pub fn for_output() {
    wait(b"w");
}

// Where nobody is there to ask, the processor goes to others first.
fn wait(side: &[u8]) -> u8 {
    let mut answer = [0u8; 1];
    if io::write_all(ASK, side) {
        io::read_full(ANSWER, &mut answer);
    } else {
        thread::yield_now();
    }
    answer[0]
}

// A call on a stream failed because it would have had to wait, or was interrupted.
pub fn would_block(error: std::io::Error) -> bool {
    matches!(error.kind(), ErrorKind::WouldBlock | ErrorKind::Interrupted)
}
