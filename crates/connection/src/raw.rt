// The raw send: straight to the stream, past ring and flow control. No account of it is kept.
#![tactic(auto, unfolding(rules::specs::Raw::raw_door))]

ghost use Rattle.defs.specs.Answer.{told, answer_of, given_or};
ghost use Rattle.rules.specs.Raw.{RawIn, RawLeft, RawSays};
ghost use Rattle.rules.specs.Offer.{RawDoorSays};

use crate::record::is_sound;
use defs::{Answer, Refusal, StreamAnswer, StreamAnswers, limits};
use rules::VsockConnection;

// What the raw send of `buf` answers of 1 to 4.
pub fn raw_door(conn: VsockConnection, buf: &[u8]) -> Answer
    ensures { RawDoorSays conn buf.now (told result) }
{
    let short = limits::is_packet_length(buf.len());
    defs::door(!is_sound(conn), false, false, !short)
}

// One write of `buf`: its front, as much as the stream took, goes to the front of `out`. How many
// bytes that is.
pub fn send_bytes_raw(
    conn: VsockConnection,
    buf: &[u8],
    answers: StreamAnswers,
    out: &mut [u8],
) -> Result<usize, Refusal>
    ensures { RawSays (record { conn = conn; buf = buf.now; answers = answers; out = out.old }) (record { answer = told (answer_of result); count = given_or 0 result; out = out.new }) }
{
    raw_door(conn, buf)?;
    let StreamAnswer::Count(count) = answers.first else {
        return answers.first.stopped_by().and(Ok(0));
    };
    defs::late(buf.len() < count, out.len() < count)?;
    defs::copy(out, &buf[..count]);
    Ok(count)
}
