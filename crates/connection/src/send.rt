// A packet from the guest (01, `send_pkt`): peer credit first, then the rule of its op.
//
// First the packet's header is judged, then it is planned what data goes where, in numbers alone;
// then the rule makes the new record, and one function touches bytes.
#![tactic(auto, unfolding(defs::specs::Choice::when, rules::specs::Record::with_state, rules::specs::Send::heard_of, rules::specs::Send::moved_of, rules::specs::Send::updated_of, rules::specs::Send::on_response, rules::specs::Send::on_shutdown, rules::specs::Send::on_credit_request, rules::specs::Send::on_data, rules::specs::Send::goes_of, rules::specs::Send::send_late, rules::specs::Send::kills_of, rules::specs::Send::plan_of))]

ghost use Rattle.std.specs.Prelude.{◌≡◌, true, ◌&&◌, ◌++◌, ◌≤◌, length, take, drop, Ok};
ghost use Rattle.std.specs.Result.{result_and};
ghost use Rattle.defs.specs.Answer.{told, done, answer_of, given_or};
ghost use Rattle.defs.specs.Limits.{max_ring, max_packet};
ghost use Rattle.packet.specs.Header.{decoded};
ghost use Rattle.txbuf.specs.Push.{PushLeft};
ghost use Rattle.rules.specs.Send.{heard_of, moved_of, updated_of, on_response, on_shutdown, on_credit_request, on_data, rule_of, goes_of, writes_of, plan_of, kills_of, too_long, send_door, send_late, Lingers, Killable, carried, Carries, SendIn, SendLeft, SendSays};
ghost use Rattle.connection.specs.Plan.{planned};

use crate::receive::later_by;
use crate::record::{is_quiet, is_sound_over, killed};
use csm::{ConnState, is_recv_off, is_send_off, shut_arms};
use defs::{Answer, Refusal, StreamAnswer, StreamAnswers, limits};
use packet::{VsockPacketHdr, uapi};
use rules::VsockConnection;
use txbuf::TxBuf;

// A packet of the guest's, as it is lent: its header's bytes, and a buffer that counts only where
// it is `present`. Absent differs from empty (01), and a buffer of any length may be absent.
#[derive(Clone, Copy)]
pub struct VsockPacket<'h, 'b> {
    pub hdr: &'h [u8],
    pub present: bool,
    pub buf: &'b [u8],
}

// Delivers a packet of the guest's. What the stream takes goes to the front of `out`, the rest of
// the data to the ring in `storage`.
pub fn send_pkt(
    conn: VsockConnection,
    pkt: VsockPacket<'_, '_>,
    now_ms: u64,
    storage: &mut [u8],
    answers: StreamAnswers,
    out: &mut [u8],
) -> Result<VsockConnection, Refusal>
    ensures { SendSays (record { conn = conn; store = storage.old; hdr = pkt.entry.hdr.now; present = pkt.entry.present; buf = pkt.entry.buf.now; clock = now_ms; answers = answers; out = out.old }) (record { answer = told (answer_of result); conn = given_or conn result; store = storage.new; out = out.new }) }
{
    let hdr = judge(conn, pkt, now_ms, storage.len())?;
    let plan = plan_send(conn, hdr, pkt.present, answers.first);
    late(plan, out.len())?;
    let kills = kills(conn, plan);
    let payload = &pkt.buf[..plan.len];
    let keeps = plan.goes && !kills;
    let left = carry(conn.tx_buf, payload, plan.written, keeps, storage, out);
    let empty = is_quiet(conn.tx_buf);
    Ok(rule(heard(conn, hdr), empty, hdr, plan, kills, left, now_ms))
}

// ---- what is decided

// The packet's header, where the call is refused by none of 1 to 4. `len` is held to the buffer in
// any state.
pub(crate) fn judge(
    conn: VsockConnection,
    pkt: VsockPacket<'_, '_>,
    now_ms: u64,
    storage: usize,
) -> Result<VsockPacketHdr, Refusal>
    ensures { result ≡ result_and (send_door conn storage pkt.entry.hdr.now pkt.entry.present (length pkt.entry.buf.now) now_ms) (Ok (decoded pkt.entry.hdr.now)) }
{
    defs::record_answer(is_sound_over(conn, storage))?;
    let hdr = packet::decode(pkt.hdr)?;
    let long = is_long(hdr, pkt.present, pkt.buf.len());
    defs::door(false, false, !limits::is_clock(now_ms), long)?;
    Ok(hdr)
}

fn is_long(hdr: VsockPacketHdr, present: bool, buf: usize) -> bool
    ensures { result ≡ present && too_long hdr buf }
{
    present
        && (!limits::is_packet_length(buf)
            || (hdr.op == uapi::VSOCK_OP_RW && buf < hdr.len as usize))
}

// What a packet's data does, in numbers: all 0 where no data goes, so that the refusals, the copy
// and the rule go by the same numbers either way.
#[derive(Clone, Copy)]
struct SendPlan {
    goes: bool,
    len: usize,
    written: usize,
    broken: bool,
}

// The one write is made where the ring is empty; a would-block counts as nothing taken.
fn plan_send(
    conn: VsockConnection,
    pkt: VsockPacketHdr,
    present: bool,
    answer: StreamAnswer,
) -> SendPlan
    ensures { planned result ≡ plan_of conn pkt present answer }
{
    let nothing = SendPlan {
        goes: false,
        len: 0,
        written: 0,
        broken: false,
    };
    if !goes(conn, pkt.op, present) {
        return nothing;
    }
    let plan = SendPlan {
        goes: true,
        len: pkt.len as usize,
        ..nothing
    };
    if !is_quiet(conn.tx_buf) {
        return plan;
    }
    let StreamAnswer::Count(written) = answer else {
        return SendPlan {
            broken: answer.has_failed(),
            ..plan
        };
    };
    SendPlan { written, ..plan }
}

// The one write is made: data goes, and the ring is empty.
pub(crate) fn writes(conn: VsockConnection, op: u16, present: bool) -> bool
    ensures { result ≡ writes_of conn op present }
{
    goes(conn, op, present) && is_quiet(conn.tx_buf)
}

// Data goes on: RW in a state that takes it, with a buffer.
fn goes(conn: VsockConnection, op: u16, present: bool) -> bool
    ensures { result ≡ goes_of conn op present }
{
    conn.state.takes() && present && op == uapi::VSOCK_OP_RW
}

// 5 and 6.
fn late(plan: SendPlan, room: usize) -> Answer
    ensures { result ≡ send_late (planned plan) room }
{
    defs::late(plan.len < plan.written, room < plan.written)
}

// A failed write or a full ring kills.
fn kills(conn: VsockConnection, plan: SendPlan) -> bool
    requires { Killable (planned plan) }
    ensures { result ≡ kills_of conn (planned plan) }
{
    let held = conn.tx_buf.used() as usize;
    let full = (conn.tx_buf.size as usize) < held + (plan.len - plan.written);
    plan.goes && (plan.broken || full)
}

// ---- the bytes

// What the stream took goes out; only what it did not take goes to the ring.
fn carry(
    ring: TxBuf,
    payload: &[u8],
    written: usize,
    keeps: bool,
    storage: &mut [u8],
    out: &mut [u8],
) -> TxBuf
    requires { Carries ring storage.old payload.now written keeps out.old }
    ensures storage_after { record { answer = told done; ring = result; store = storage.new } ≡ carried keeps ring storage.old (drop written payload.now) }
    ensures out_after { out.new ≡ take written payload.now ++ drop written out.old }
{
    defs::copy(out, &payload[..written]);
    if keeps {
        ring.push(storage, &payload[written..]).unwrap()
    } else {
        ring
    }
}

// ---- the rules

// The op, 0 to 7 or anything above, selects the rule (01, required form: a match on its number).
fn rule(
    conn: VsockConnection,
    empty: bool,
    pkt: VsockPacketHdr,
    plan: SendPlan,
    kills: bool,
    ring: TxBuf,
    now_ms: u64,
) -> VsockConnection
    requires { Lingers conn now_ms × (plan.written ≤ max_packet) }
    ensures { result ≡ rule_of conn empty pkt (planned plan) kills ring now_ms }
{
    match pkt.op {
        2 => on_response(conn),
        4 => on_shutdown(conn, empty, pkt.flags, now_ms),
        5 => on_data(conn, plan, kills, ring),
        7 => on_credit_request(conn),
        0 | 1 | 3 | 6 | 8..=65535 => conn,
    }
}

// Peer credit is always stored first.
fn heard(conn: VsockConnection, pkt: VsockPacketHdr) -> VsockConnection
    ensures { result ≡ heard_of conn pkt }
{
    VsockConnection {
        peer_buf_alloc: pkt.buf_alloc,
        peer_fwd_cnt: pkt.fwd_cnt,
        ..conn
    }
}

// The guest confirms what we opened.
fn on_response(conn: VsockConnection) -> VsockConnection
    ensures { result ≡ on_response conn }
{
    if conn.state.is_local_init() {
        VsockConnection {
            state: ConnState::Established,
            expiry: None,
            ..conn
        }
    } else {
        conn
    }
}

// Flags only grow. With both set the connection is reset as soon as the ring is empty; where they
// become so while bytes are held, the timer is set, unless one runs: the time that this may take.
fn on_shutdown(conn: VsockConnection, empty: bool, flags: u32, now_ms: u64) -> VsockConnection
    requires { Lingers conn now_ms }
    ensures { result ≡ on_shutdown conn empty flags now_ms }
{
    let after = conn.state.shut(is_recv_off(flags), is_send_off(flags));
    let linger = later_by(now_ms, conn.settings.shutdown_timeout);
    VsockConnection {
        state: after,
        expiry: if shut_arms(conn.state, after, empty, conn.expiry) {
            linger
        } else {
            conn.expiry
        },
        pending_rx: conn
            .pending_rx
            .mark(after.both_off() && empty, false, false),
        ..conn
    }
}

// The guest asks for our numbers, in a state that answers it.
fn on_credit_request(conn: VsockConnection) -> VsockConnection
    ensures { result ≡ on_credit_request conn }
{
    VsockConnection {
        pending_rx: conn.pending_rx.mark(false, false, conn.state.asks()),
        ..conn
    }
}

// Data went on: the ring and the count have moved; a packet that kills resets, any other may owe
// the guest a credit update.
fn on_data(conn: VsockConnection, plan: SendPlan, kills: bool, ring: TxBuf) -> VsockConnection
    requires { plan.written ≤ max_packet }
    ensures { result ≡ on_data conn (planned plan) kills ring }
{
    if !plan.goes {
        return conn;
    }
    let next = moved(conn, ring, plan.written);
    if kills { killed(next) } else { updated(next) }
}

pub(crate) fn moved(conn: VsockConnection, ring: TxBuf, taken: usize) -> VsockConnection
    requires { taken ≤ max_ring }
    ensures { result ≡ moved_of conn ring taken }
{
    VsockConnection {
        tx_buf: ring,
        fwd_cnt: conn.fwd_cnt.wrapping_add(taken as u32),
        ..conn
    }
}

// A credit update is set where the threshold rule says so.
pub(crate) fn updated(conn: VsockConnection) -> VsockConnection
    ensures { result ≡ updated_of conn }
{
    let due = defs::peer_needs_credit_update(
        conn.tx_buf.size,
        conn.settings.threshold,
        conn.fwd_cnt,
        conn.last_fwd_cnt_to_peer,
    );
    VsockConnection {
        pending_rx: conn.pending_rx.mark(false, false, due),
        ..conn
    }
}
