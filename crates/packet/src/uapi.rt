// The numbers of virtio 1.2, section 5.10, under the names of the Rust. specs/Uapi.antt has the
// same table. They stay numbers: the op that comes in may be any, and is matched as a number.

// Operations (5.10.6).
pub const VSOCK_OP_REQUEST: u16 = 1;

pub const VSOCK_OP_RESPONSE: u16 = 2;

pub const VSOCK_OP_RST: u16 = 3;

pub const VSOCK_OP_SHUTDOWN: u16 = 4;

pub const VSOCK_OP_RW: u16 = 5;

pub const VSOCK_OP_CREDIT_UPDATE: u16 = 6;

pub const VSOCK_OP_CREDIT_REQUEST: u16 = 7;

// Socket types (5.10.6).
pub const VSOCK_TYPE_STREAM: u16 = 1;

// Flags of a SHUTDOWN (5.10.6.5): its sender will receive no more, will send no more.
pub const VSOCK_FLAGS_SHUTDOWN_RCV: u32 = 1;

pub const VSOCK_FLAGS_SHUTDOWN_SEND: u32 = 2;
