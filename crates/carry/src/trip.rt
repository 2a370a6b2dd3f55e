// Where the two ends of a trip stand, and the account that is kept of it.
use crate::moods::Moods;
use connection::{Settings, VsockConnection};
use defs::limits::MAX_TIMEOUT_MS;
use defs::{Answer, Refusal, StreamAnswer};

// The connection's addresses, and the space that the guest says it has.
pub const HOST_CID: u64 = 2;

pub const GUEST_CID: u64 = 3;

pub const HOST_PORT: u32 = 1024;

pub const GUEST_PORT: u32 = 5000;

pub const GUEST_SPACE: u32 = 65536;

// What stays as it is throughout: the system, the packets' size, the moods of the stream. The
// buffers are lent beside it: two `&mut` of one struct can't yet be lent to one call.
#[derive(Drop)]
pub struct Given<'a, R> {
    pub rt: &'a R,
    pub packet: usize,
    pub moods: Moods<'a>,
}

#[derive(Clone, Copy)]
pub struct Trip {
    pub conn: VsockConnection,
    // The guest's end: what it has sent, and the space and the count that it last heard of.
    pub sent: u32,
    pub alloc: u32,
    pub heard: u32,
    // Without credit it has asked for news, and not heard yet.
    pub asked: bool,
    // The input has ended; the connection has been reset; how the last call was answered.
    pub ended: bool,
    pub over: bool,
    pub last: Answer,
    // The place in the script of moods.
    pub writes: usize,
    pub packets: u64,
    pub bytes_in: u64,
    pub taken: u64,
    pub most: u32,
    pub updates: u64,
}

impl Trip {
    // A connection that the guest opened, with a ring of this size, and nothing sent yet.
    pub fn opened(size: u32) -> Trip {
        let settings = Settings {
            threshold: size / 2,
            request_timeout: 2000,
            shutdown_timeout: MAX_TIMEOUT_MS,
        };
        let opening = connection::new_peer_init(
            size,
            settings,
            HOST_CID,
            GUEST_CID,
            HOST_PORT,
            GUEST_PORT,
            GUEST_SPACE,
        );
        Trip {
            conn: opening.conn,
            sent: 0,
            alloc: 0,
            heard: 0,
            asked: false,
            ended: false,
            over: false,
            last: Ok(()),
            writes: 0,
            packets: 0,
            bytes_in: 0,
            taken: 0,
            most: 0,
            updates: 0,
        }
    }

    pub fn goes_on(self) -> bool {
        !self.over && self.refusal().is_none()
    }

    // The connection as a call left it, and how the call was answered.
    pub fn moved(self, conn: VsockConnection, answer: Answer) -> Trip {
        Trip {
            conn,
            last: answer,
            most: self.most.max(conn.tx_buf.used()),
            ..self
        }
    }

    // The same after a call that leaves the connection as it was where it is refused.
    pub fn after(self, outcome: Result<VsockConnection, Refusal>) -> Trip {
        match outcome {
            Ok(conn) => self.moved(conn, Ok(())),
            Err(refusal) => self.moved(self.conn, Err(refusal)),
        }
    }

    // Whether the last call was refused; "nothing to say" is no refusal.
    pub fn refusal(self) -> Option<Refusal> {
        self.last
            .err()
            .filter(|refusal| *refusal != Refusal::NoData)
    }
}

// As many bytes as the stream took.
pub fn count_of(answer: StreamAnswer) -> usize {
    let StreamAnswer::Count(n) = answer else {
        return 0;
    };
    n
}

// The bytes that were taken, and as many more.
pub fn more_taken(taken: u64, answer: StreamAnswer) -> u64 {
    taken.saturating_add(count_of(answer) as u64)
}
