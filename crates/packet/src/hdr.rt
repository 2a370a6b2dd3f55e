// The header's ten numbers, and the way between them and their 44 bytes.
#![tactic(auto, unfolding(defs::specs::Choice::when, defs::specs::Limits::is_header_length, crate::specs::Header::flagged, crate::specs::Header::decode_of, crate::specs::Header::encode_of))]

ghost use Rattle.std.specs.Prelude.{◌≡◌, length};
ghost use Rattle.defs.specs.Answer.{told};
ghost use Rattle.defs.specs.Limits.{header_size};
ghost use Rattle.packet.specs.Header.{encoded, decoded, flagged, told_decoded, DecodeSays, EncodeIn, EncodeLeft, EncodeSays};

use crate::field::{bytes_at, put_at};
use defs::{Answer, Refusal, limits};

// The fields in the order of the standard's struct.
#[derive(Clone, Copy, Debug, PartialEq, Eq)]
pub struct VsockPacketHdr {
    pub src_cid: u64,
    pub dst_cid: u64,
    pub src_port: u32,
    pub dst_port: u32,
    // The payload bytes that follow the header.
    pub len: u32,
    pub type_: u16,
    pub op: u16,
    pub flags: u32,
    // The sender's whole receive space for this connection, and how much it has taken out of it.
    pub buf_alloc: u32,
    pub fwd_cnt: u32,
}

impl VsockPacketHdr {
    // The header with one flag more.
    pub fn set_flag(mut self, flag: u32) -> VsockPacketHdr
        ensures { result ≡ flagged self flag }
    {
        self.flags |= flag;
        self
    }
}

// The header that 44 bytes hold; refused as 2 where there are more or fewer.
pub fn decode(bytes: &[u8]) -> Result<VsockPacketHdr, Refusal>
    ensures { DecodeSays bytes.now (told_decoded result) }
{
    if limits::is_header_length(bytes.len()) {
        Ok(read_hdr(bytes))
    } else {
        Err(Refusal::BadHeader)
    }
}

// Writes the header's 44 bytes; refused as 2, with nothing changed, where `out` holds more or fewer.
pub fn encode(hdr: VsockPacketHdr, out: &mut [u8]) -> Answer
    ensures { EncodeSays (record { hdr = hdr; out = out.old }) (record { answer = told result; out = out.new }) }
{
    if !limits::is_header_length(out.len()) {
        return Err(Refusal::BadHeader);
    }
    write_hdr(hdr, out);
    Ok(())
}

fn read_hdr(bytes: &[u8]) -> VsockPacketHdr
    requires { length bytes.now ≡ header_size }
    ensures { result ≡ decoded bytes.now }
{
    VsockPacketHdr {
        src_cid: u64::from_le_bytes(bytes_at(bytes, 0)),
        dst_cid: u64::from_le_bytes(bytes_at(bytes, 8)),
        src_port: u32::from_le_bytes(bytes_at(bytes, 16)),
        dst_port: u32::from_le_bytes(bytes_at(bytes, 20)),
        len: u32::from_le_bytes(bytes_at(bytes, 24)),
        type_: u16::from_le_bytes(bytes_at(bytes, 28)),
        op: u16::from_le_bytes(bytes_at(bytes, 30)),
        flags: u32::from_le_bytes(bytes_at(bytes, 32)),
        buf_alloc: u32::from_le_bytes(bytes_at(bytes, 36)),
        fwd_cnt: u32::from_le_bytes(bytes_at(bytes, 40)),
    }
}

fn write_hdr(hdr: VsockPacketHdr, out: &mut [u8])
    requires { length out.old ≡ header_size }
    ensures { out.new ≡ encoded hdr }
{
    put_at(out, 0, &hdr.src_cid.to_le_bytes());
    put_at(out, 8, &hdr.dst_cid.to_le_bytes());
    put_at(out, 16, &hdr.src_port.to_le_bytes());
    put_at(out, 20, &hdr.dst_port.to_le_bytes());
    put_at(out, 24, &hdr.len.to_le_bytes());
    put_at(out, 28, &hdr.type_.to_le_bytes());
    put_at(out, 30, &hdr.op.to_le_bytes());
    put_at(out, 32, &hdr.flags.to_le_bytes());
    put_at(out, 36, &hdr.buf_alloc.to_le_bytes());
    put_at(out, 40, &hdr.fwd_cnt.to_le_bytes());
}
