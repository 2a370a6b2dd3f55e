// The packets that are to be handed to the guest.
#![tactic(auto, unfolding(crate::specs::Pending::is_pending))]

ghost use Rattle.std.specs.Prelude.{◌≡◌};
ghost use Rattle.csm.specs.Pending.{is_pending, marked, left_of};

// By `default` none is pending.
#[derive(Clone, Copy, Debug, Default, PartialEq, Eq)]
pub struct PendingRxSet {
    pub request: bool,
    pub response: bool,
    pub rst: bool,
    pub rw: bool,
    pub credit_update: bool,
}

impl PendingRxSet {
    // Any is pending.
    pub fn is_pending(self) -> bool
        ensures { result ≡ is_pending self }
    {
        self.request || self.response || self.rst || self.rw || self.credit_update
    }

    // With Rst, Rw and CreditUpdate set besides, each where it is asked for.
    pub fn mark(self, rst: bool, rw: bool, update: bool) -> PendingRxSet
        ensures { result ≡ marked self rst rw update }
    {
        PendingRxSet {
            rst: self.rst || rst,
            rw: self.rw || rw,
            credit_update: self.credit_update || update,
            ..self
        }
    }

    // After a turn to speak: the indication that was used is gone; those behind it stay.
    pub fn remaining(self, ends: bool) -> PendingRxSet
        ensures { result ≡ left_of self ends }
    {
        PendingRxSet {
            request: self.request && (self.rst || self.response),
            response: self.response && self.rst,
            rst: false,
            rw: self.rw && (self.rst || self.response || self.request),
            credit_update: self.credit_update && !ends,
        }
    }
}
