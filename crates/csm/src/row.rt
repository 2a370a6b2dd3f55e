// The table of the steps (01, `recv_pkt`): a row for each, and what a row leaves of state and timer.
ghost use Rattle.std.specs.Prelude.{◌≡◌};
ghost use Rattle.csm.specs.Row.{plain_row, turning_row, row_of, afterwards, armed};

use crate::state::ConnState;
use crate::timer::Timer;
use crate::turn::RxStep;
use defs::{Answer, Refusal};
use packet::uapi;

// What becomes of the state.
#[derive(Clone, Copy, Debug, PartialEq, Eq)]
pub enum After {
    Same,
    Opens,
    Closes,
}

impl After {
    // The state after a row.
    pub fn state_after(self, state: ConnState) -> ConnState
        ensures { result ≡ afterwards self state }
    {
        match self {
            After::Same => state,
            After::Opens => ConnState::Established,
            After::Closes => ConnState::LocalClosed,
        }
    }
}

// What becomes of the timer.
#[derive(Clone, Copy, Debug, PartialEq, Eq)]
pub enum Arms {
    Keep,
    // The guest has the request's time to answer.
    Wait,
    // The guest has the shutdown's time to go.
    Linger,
}

impl Arms {
    // The timer after a row: `wait` where a request goes out, `linger` where the stream has ended.
    pub fn timer_after(self, expiry: Timer, wait: Timer, linger: Timer) -> Timer
        ensures { result ≡ armed self expiry wait linger }
    {
        match self {
            Arms::Keep => expiry,
            Arms::Wait => wait,
            Arms::Linger => linger,
        }
    }
}

// A step's answer, the header's op, flags and len, whether our fwd_cnt counts as told
// to the guest with it, whether a pending update ends with it, and what becomes of state and timer.
// The answer stands beside the rest: by 7 and 8 too a header is written and the record changes.
#[derive(Clone, Copy, Debug, PartialEq, Eq)]
pub struct Row {
    pub answer: Answer,
    pub op: u16,
    pub flags: u32,
    pub count: usize,
    pub tells: bool,
    pub ends: bool,
    pub after: After,
    pub arms: Arms,
}

impl Row {
    // A row that carries no data and leaves state and timer.
    fn plain(answer: Answer, op: u16, tells: bool, ends: bool) -> Row
        ensures { result ≡ plain_row answer op tells ends }
    {
        Row {
            answer,
            op,
            flags: 0,
            count: 0,
            tells,
            ends,
            after: After::Same,
            arms: Arms::Keep,
        }
    }

    // One that moves state or timer; our fwd_cnt does not count as told.
    fn turning(op: u16, after: After, arms: Arms) -> Row
        ensures { result ≡ turning_row op after arms }
    {
        Row {
            after,
            arms,
            ..Row::plain(Ok(()), op, false, false)
        }
    }

    fn data(count: usize) -> Row
        ensures { result ≡ row_of (RxStep.Data count) }
    {
        Row {
            count,
            ..Row::plain(Ok(()), uapi::VSOCK_OP_RW, true, false)
        }
    }

    fn close() -> Row
        ensures { result ≡ row_of RxStep.Close }
    {
        Row {
            flags: uapi::VSOCK_FLAGS_SHUTDOWN_RCV + uapi::VSOCK_FLAGS_SHUTDOWN_SEND,
            after: After::Closes,
            arms: Arms::Linger,
            ..Row::plain(Ok(()), uapi::VSOCK_OP_SHUTDOWN, true, false)
        }
    }
}

impl RxStep {
    // The row of a step.
    pub fn row(self) -> Row
        ensures { result ≡ row_of self }
    {
        match self {
            RxStep::Rst => Row::plain(Ok(()), uapi::VSOCK_OP_RST, false, false),
            RxStep::Response => Row::turning(uapi::VSOCK_OP_RESPONSE, After::Opens, Arms::Keep),
            RxStep::Request => Row::turning(uapi::VSOCK_OP_REQUEST, After::Same, Arms::Wait),
            RxStep::OutOfState => Row::plain(Ok(()), uapi::VSOCK_OP_RST, false, false),
            RxStep::AskCredit => Row::plain(Ok(()), uapi::VSOCK_OP_CREDIT_REQUEST, true, false),
            RxStep::NoBuffer => Row::plain(Err(Refusal::PktBufMissing), 0, false, false),
            RxStep::Data(count) => Row::data(count),
            RxStep::Close => Row::close(),
            RxStep::Fail => Row::plain(Ok(()), uapi::VSOCK_OP_RST, true, false),
            RxStep::Update => Row::plain(Ok(()), uapi::VSOCK_OP_CREDIT_UPDATE, true, true),
            RxStep::Nothing => Row::plain(Err(Refusal::NoData), 0, false, true),
        }
    }
}
