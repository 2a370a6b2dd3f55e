// What the host's stream answers to a write or a read. The caller tries the stream and hands the
// answer in (01, "What must take another shape": a boxed stream becomes answers).
ghost use Rattle.std.specs.Prelude.{◌≡◌};
ghost use Rattle.defs.specs.Stream.{failed, stopped_by};

use crate::answer::{Answer, Refusal};

// A count of bytes, taken by a write or brought by a read; those of a read are lent beside it.
#[derive(Clone, Copy, Debug, PartialEq, Eq)]
pub enum StreamAnswer {
    Count(usize),
    WouldBlock,
    Failed,
}

// The two answers that a writing call takes: the second is reached only where the first piece was
// taken whole.
#[derive(Clone, Copy, Debug, PartialEq, Eq)]
pub struct StreamAnswers {
    pub first: StreamAnswer,
    pub second: StreamAnswer,
}

impl StreamAnswer {
    // Whether it is a failure.
    pub fn has_failed(self) -> bool
        ensures { result ≡ failed self }
    {
        matches!(self, StreamAnswer::Failed)
    }

    // How a direct call ends by the answer to its first write: done, or number 10 of either kind.
    pub fn stopped_by(self) -> Answer
        ensures { result ≡ stopped_by self }
    {
        match self {
            StreamAnswer::Count(_) => Ok(()),
            StreamAnswer::WouldBlock => Err(Refusal::StreamBlocked),
            StreamAnswer::Failed => Err(Refusal::StreamFailed),
        }
    }
}
