// The refusal ladder: of several refusals the lowest number (01, "What comes back"). Its parts are
// joined by `?`, or by `and`: a part that refuses goes before all behind it.
#![tactic(auto, unfolding(crate::specs::Ladder::record_answer, crate::specs::Ladder::clock_answer))]

ghost use Rattle.std.specs.Prelude.{◌≡◌};
ghost use Rattle.defs.specs.Ladder.{door_of, late_of, record_answer, clock_answer};

use crate::answer::{Answer, Refusal};
use crate::limits;

// Refusals 1 to 4, which look at no answer of the stream.
pub fn door(bad_record: bool, bad_header: bool, bad_clock: bool, bad_length: bool) -> Answer
    ensures { result ≡ door_of bad_record bad_header bad_clock bad_length }
{
    if bad_record {
        return Err(Refusal::BadRecord);
    }
    if bad_header {
        return Err(Refusal::BadHeader);
    }
    if bad_clock {
        return Err(Refusal::BadClock);
    }
    if bad_length {
        return Err(Refusal::BadLength);
    }
    Ok(())
}

// Refusals 5 and 6, which judge what the stream answered.
pub fn late(bad_answer: bool, no_room: bool) -> Answer
    ensures { result ≡ late_of bad_answer no_room }
{
    if bad_answer {
        return Err(Refusal::BadAnswer);
    }
    if no_room {
        return Err(Refusal::NoRoom);
    }
    Ok(())
}

// The answer of a call that tests nothing but its record: 1 exactly where that is not sound.
pub fn record_answer(sound: bool) -> Answer
    ensures { result ≡ record_answer sound }
{
    door(!sound, false, false, false)
}

// The answer of one that tests its record and its clock: 1, then 3.
pub fn clock_answer(sound: bool, now_ms: u64) -> Answer
    ensures { result ≡ clock_answer sound now_ms }
{
    door(!sound, false, !limits::is_clock(now_ms), false)
}
