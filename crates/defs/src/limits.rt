// Every limit of document 01, once (01, "The numbers of a connection"), and the tests that keep
// numbers within them, one for each name that 01 has: a test over any two limits would leave it to
// its callers which they are. specs/Limits.antt has the same numbers under the same names.
#![tactic(auto, unfolding(crate::specs::Limits::is_ring_size, crate::specs::Limits::is_threshold, crate::specs::Limits::is_timeout, crate::specs::Limits::is_rxq_limit, crate::specs::Limits::is_killq_limit, crate::specs::Limits::is_slot_count, crate::specs::Limits::is_clock, crate::specs::Limits::is_packet_length, crate::specs::Limits::is_header_length))]

ghost use Rattle.std.specs.Prelude.{◌≡◌};
ghost use Rattle.defs.specs.Limits.{is_ring_size, is_threshold, is_timeout, is_rxq_limit, is_killq_limit, is_slot_count, is_clock, is_packet_length, is_header_length};

// R, the ring's size: a power of two between these.
pub const MIN_RING_SIZE: u32 = 16;

pub const MAX_RING_SIZE: u32 = 1048576;

// T, the credit update threshold: from this to R.
pub const MIN_THRESHOLD: u32 = 1;

// The request and the shutdown timeout, in milliseconds.
pub const MIN_TIMEOUT_MS: u64 = 1;

pub const MAX_TIMEOUT_MS: u64 = 60000;

// Q, the limit of the RX queue.
pub const MIN_RXQ_SIZE: usize = 1;

pub const MAX_RXQ_SIZE: usize = 512;

// K, the limit of the kill queue.
pub const MIN_KILLQ_SIZE: usize = 1;

pub const MAX_KILLQ_SIZE: usize = 128;

// The slots of a connection table.
pub const MIN_CONNECTIONS: usize = 1;

pub const MAX_CONNECTIONS: usize = 1024;

// The bytes of a packet's buffer, of a push or of a raw send.
pub const MAX_PKT_BUF_SIZE: usize = 65536;

// The clock, in milliseconds: 2^62.
pub const MAX_CLOCK_MS: u64 = 4611686018427387904;

// The bytes of a packet header.
pub const VSOCK_PKT_HDR_SIZE: usize = 44;

// At least the smallest and a divisor of the largest: proved to mean a power of two between them.
pub fn is_ring_size(size: u32) -> bool
    ensures { result ≡ is_ring_size size }
{
    MIN_RING_SIZE <= size && MAX_RING_SIZE % size == 0
}

pub fn is_threshold(threshold: u32, size: u32) -> bool
    ensures { result ≡ is_threshold threshold size }
{
    (MIN_THRESHOLD..=size).contains(&threshold)
}

pub fn is_timeout(ms: u64) -> bool
    ensures { result ≡ is_timeout ms }
{
    (MIN_TIMEOUT_MS..=MAX_TIMEOUT_MS).contains(&ms)
}

pub fn is_rxq_limit(limit: usize) -> bool
    ensures { result ≡ is_rxq_limit limit }
{
    (MIN_RXQ_SIZE..=MAX_RXQ_SIZE).contains(&limit)
}

pub fn is_killq_limit(limit: usize) -> bool
    ensures { result ≡ is_killq_limit limit }
{
    (MIN_KILLQ_SIZE..=MAX_KILLQ_SIZE).contains(&limit)
}

pub fn is_slot_count(slots: usize) -> bool
    ensures { result ≡ is_slot_count slots }
{
    (MIN_CONNECTIONS..=MAX_CONNECTIONS).contains(&slots)
}

pub fn is_clock(ms: u64) -> bool
    ensures { result ≡ is_clock ms }
{
    ms <= MAX_CLOCK_MS
}

pub fn is_packet_length(bytes: usize) -> bool
    ensures { result ≡ is_packet_length bytes }
{
    bytes <= MAX_PKT_BUF_SIZE
}

pub fn is_header_length(bytes: usize) -> bool
    ensures { result ≡ is_header_length bytes }
{
    bytes == VSOCK_PKT_HDR_SIZE
}
