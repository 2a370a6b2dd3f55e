// When the connection is to be ended, if at all, in milliseconds.
ghost use Rattle.std.specs.Prelude.{◌≡◌};
ghost use Rattle.csm.specs.Timer.{is_after, is_due, shut_arms};

use crate::state::ConnState;

// `None` where no timer runs; one that is set runs, be its time to come or past, since the clock
// may go back.
pub type Timer = Option<u64>;

// Set, and its time has not come.
pub fn is_after(expiry: Timer, now_ms: u64) -> bool
    ensures { result ≡ is_after expiry now_ms }
{
    expiry.is_some_and(|time| now_ms < time)
}

// Set, and its time has come.
pub fn is_due(expiry: Timer, now_ms: u64) -> bool
    ensures { result ≡ is_due expiry now_ms }
{
    expiry.is_some_and(|time| time <= now_ms)
}

// Whether a SHUTDOWN from the one state to the other arms the timer: both ways become shut by it,
// bytes are held, and no timer runs.
pub fn shut_arms(before: ConnState, after: ConnState, empty: bool, expiry: Timer) -> bool
    ensures { result ≡ shut_arms before after empty expiry }
{
    after.both_off() && !before.both_off() && !empty && expiry.is_none()
}
