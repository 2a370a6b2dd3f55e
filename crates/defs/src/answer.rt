// What comes back from a call: that it is done, or which of 01's other answers it gives, a case
// each; number 10 is two cases, since the answer tells which. `told` of specs/Answer.antt gives
// 01's number and values for each.
ghost use Rattle.std.specs.Prelude.{◌≡◌, Err};
ghost use Rattle.defs.specs.Answer.{told};

#[derive(Clone, Copy, Debug, PartialEq, Eq)]
pub enum Refusal {
    BadRecord,
    BadHeader,
    BadClock,
    BadLength,
    BadAnswer,
    NoRoom,
    NoData,
    PktBufMissing,
    TxBufFull,
    StreamBlocked,
    StreamFailed,
    NotQueued,
}

pub type Answer = Result<(), Refusal>;

// 01's number of an answer that is not done.
impl From<Refusal> for u8 {
    ghost from_gives = { λ refusal number. number ≡ (told (Err refusal)).number };

    fn from(refusal: Refusal) -> u8 {
        match refusal {
            Refusal::BadRecord => 1,
            Refusal::BadHeader => 2,
            Refusal::BadClock => 3,
            Refusal::BadLength => 4,
            Refusal::BadAnswer => 5,
            Refusal::NoRoom => 6,
            Refusal::NoData => 7,
            Refusal::PktBufMissing => 8,
            Refusal::TxBufFull => 9,
            Refusal::StreamBlocked => 10,
            Refusal::StreamFailed => 10,
            Refusal::NotQueued => 11,
        }
    }
}

// 01's number of an answer. An `Answer` is std's Result, so no `From` of ours gives it.
pub fn number_of(answer: Answer) -> u8
    ensures { result ≡ (told answer).number }
{
    match answer {
        Ok(()) => 0,
        Err(refusal) => refusal.into(),
    }
}
