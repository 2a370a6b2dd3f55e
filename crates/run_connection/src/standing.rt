// The connections that calls are made on, and the bytes that they are lent.
use connection::{Settings, VsockConnection};
use csm::{ConnState, PendingRxSet};
use defs::limits::MAX_PKT_BUF_SIZE;
use txbuf::TxBuf;

// The ring's size.
pub const SIZE: usize = 16;

// One byte more than a packet's buffer may hold.
pub const OVER: usize = MAX_PKT_BUF_SIZE + 1;

// A connection in the given state: an empty ring, a threshold of 4, timeouts of 2,000 and 3,000,
// and room for 100 bytes at the guest's.
pub fn standing(state: ConnState) -> VsockConnection {
    VsockConnection {
        settings: Settings {
            threshold: 4,
            request_timeout: 2000,
            shutdown_timeout: 3000,
        },
        state,
        local_cid: 2,
        peer_cid: 3,
        local_port: 1024,
        peer_port: 5000,
        tx_buf: TxBuf {
            size: SIZE as u32,
            ..TxBuf::default()
        },
        peer_buf_alloc: 100,
        ..VsockConnection::default()
    }
}

pub fn established() -> VsockConnection {
    standing(ConnState::Established)
}

// A connection with data to read.
pub fn readable(is: ConnState) -> VsockConnection {
    VsockConnection {
        pending_rx: PendingRxSet {
            rw: true,
            ..PendingRxSet::default()
        },
        ..standing(is)
    }
}

pub fn sevens() -> [u8; OVER] {
    [7u8; OVER]
}

pub fn dots() -> [u8; OVER] {
    [b'.'; OVER]
}
