// What is said at a turn to speak (01, `recv_pkt`), by what is pending, the state, the guest's
// credit, its buffer and the stream's answer.
#![tactic(auto, unfolding(defs::specs::Choice::when, crate::specs::Turn::turn_step, crate::specs::Turn::turn_reads))]

ghost use Rattle.std.specs.Prelude.{◌≡◌};
ghost use Rattle.csm.specs.Turn.{read_step, data_step, update_step, rx_step, turn_step, turn_reads};

use crate::pending::PendingRxSet;
use crate::state::ConnState;
use defs::StreamAnswer;

#[derive(Clone, Copy, Debug, PartialEq, Eq)]
pub enum RxStep {
    Rst,
    Response,
    Request,
    // Data is due in a state that gives none.
    OutOfState,
    // Data is due, and the guest has no room.
    AskCredit,
    // Data is due, and no buffer is there to read into.
    NoBuffer,
    Data(usize),
    // The stream has ended.
    Close,
    // The stream failed.
    Fail,
    Update,
    Nothing,
}

// What a turn goes by before the stream is asked.
#[derive(Clone, Copy, Debug, PartialEq, Eq)]
pub struct Turn {
    pub pending: PendingRxSet,
    pub state: ConnState,
    pub no_credit: bool,
    pub present: bool,
}

impl Turn {
    // Whether it reads from the stream.
    pub fn reads(self) -> bool
        ensures { result ≡ turn_reads self.pending self.state self.no_credit self.present }
    {
        let p = self.pending;
        !p.rst
            && !p.response
            && !p.request
            && p.rw
            && self.state.gives()
            && !self.no_credit
            && self.present
    }

    // What it says.
    pub fn step(self, answer: StreamAnswer) -> RxStep
        ensures { result ≡ turn_step self.pending self.state self.no_credit self.present answer }
    {
        let update = update_step(self.pending.credit_update);
        let read = read_step(answer, update);
        let on_rw = data_step(self.state.gives(), self.no_credit, self.present, read);
        rx_step(self.pending, on_rw, update)
    }
}

// The first that is pending of Rst, Response, Request, Rw and CreditUpdate.
fn rx_step(pending: PendingRxSet, on_rw: RxStep, update: RxStep) -> RxStep
    ensures { result ≡ rx_step pending on_rw update }
{
    if pending.rst {
        RxStep::Rst
    } else if pending.response {
        RxStep::Response
    } else if pending.request {
        RxStep::Request
    } else if pending.rw {
        on_rw
    } else {
        update
    }
}

// Credit before buffer: a guest without room is asked for it, whether there is a buffer or not.
fn data_step(allowed: bool, no_credit: bool, present: bool, read: RxStep) -> RxStep
    ensures { result ≡ data_step allowed no_credit present read }
{
    if !allowed {
        RxStep::OutOfState
    } else if no_credit {
        RxStep::AskCredit
    } else if present {
        read
    } else {
        RxStep::NoBuffer
    }
}

// A read of no bytes says that the stream has ended.
fn read_step(answer: StreamAnswer, update: RxStep) -> RxStep
    ensures { result ≡ read_step answer update }
{
    match answer {
        StreamAnswer::Count(0) => RxStep::Close,
        StreamAnswer::Count(count) => RxStep::Data(count),
        StreamAnswer::WouldBlock => update,
        StreamAnswer::Failed => RxStep::Fail,
    }
}

fn update_step(update: bool) -> RxStep
    ensures { result ≡ update_step update }
{
    if update {
        RxStep::Update
    } else {
        RxStep::Nothing
    }
}
