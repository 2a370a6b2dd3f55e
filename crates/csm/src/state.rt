// The state of a connection, and what each state allows.
ghost use Rattle.std.specs.Prelude.{◌≡◌};
ghost use Rattle.csm.specs.State.{polls, gives, takes, asks, is_local_init, recv_off, send_off, shut_by, both_off};

use packet::uapi;

#[derive(Clone, Copy, Debug, Default, PartialEq, Eq)]
pub enum ConnState {
    // Opened by the host, and not confirmed by the guest yet.
    #[default]
    LocalInit,
    // Opened by the guest, and not confirmed by us yet.
    PeerInit,
    Established,
    // The host's stream has ended.
    LocalClosed,
    // The guest shut down: it will receive no more, it will send no more.
    PeerClosed(bool, bool),
    // To be reset at the next turn to speak.
    Killed,
}

impl ConnState {
    // The states in which data could still go to the guest, so that the stream is watched for it.
    pub fn polls(self) -> bool
        ensures { result ≡ polls self }
    {
        matches!(
            self,
            ConnState::LocalInit
                | ConnState::PeerInit
                | ConnState::Established
                | ConnState::PeerClosed(false, _)
        )
    }

    // The states in which data may go to the guest.
    pub(crate) fn gives(self) -> bool
        ensures { result ≡ gives self }
    {
        matches!(
            self,
            ConnState::Established | ConnState::PeerClosed(false, _)
        )
    }

    // The states in which the guest's data is taken.
    pub fn takes(self) -> bool
        ensures { result ≡ takes self }
    {
        matches!(
            self,
            ConnState::Established | ConnState::PeerClosed(_, false)
        )
    }

    // The states in which the guest may ask for our numbers.
    pub fn asks(self) -> bool
        ensures { result ≡ asks self }
    {
        matches!(
            self,
            ConnState::PeerInit | ConnState::Established | ConnState::PeerClosed(_, false)
        )
    }

    // Opened by the host, and not confirmed yet.
    pub fn is_local_init(self) -> bool
        ensures { result ≡ is_local_init self }
    {
        matches!(self, ConnState::LocalInit)
    }

    // The state after a SHUTDOWN: the flags only grow.
    pub fn shut(self, recv_off: bool, send_off: bool) -> ConnState
        ensures { result ≡ shut_by self recv_off send_off }
    {
        match self {
            ConnState::Established => ConnState::PeerClosed(recv_off, send_off),
            ConnState::PeerClosed(a, b) => ConnState::PeerClosed(a || recv_off, b || send_off),
            _ => self,
        }
    }

    // The guest has shut down both ways.
    pub fn both_off(self) -> bool
        ensures { result ≡ both_off self }
    {
        matches!(self, ConnState::PeerClosed(true, true))
    }
}

// A SHUTDOWN whose flags say that the guest will receive no more.
pub fn is_recv_off(flags: u32) -> bool
    ensures { result ≡ recv_off flags }
{
    flags & uapi::VSOCK_FLAGS_SHUTDOWN_RCV != 0
}

// One that says that it will send no more.
pub fn is_send_off(flags: u32) -> bool
    ensures { result ≡ send_off flags }
{
    flags & uapi::VSOCK_FLAGS_SHUTDOWN_SEND != 0
}
