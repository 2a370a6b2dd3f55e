// What names a connection: its local and its peer port.
ghost use Rattle.std.specs.Prelude.{◌≡◌};
ghost use Rattle.conn_map.specs.Key.{key_of};

#[derive(Clone, Copy, Debug, Default, PartialEq, Eq)]
pub struct ConnMapKey {
    pub local_port: u32,
    pub peer_port: u32,
}

// A slot's ports are one number, so that one comparison tells two slots apart: the local port
// times this, and the peer port.
pub const PORT_SPAN: u64 = 4294967296;

// No `From<u64>`: a number alone doesn't say that it is a slot's ports.
pub fn key_of(ports: u64) -> ConnMapKey
    ensures { result ≡ key_of ports }
{
    ConnMapKey {
        local_port: (ports / PORT_SPAN) as u32,
        peer_port: (ports % PORT_SPAN) as u32,
    }
}
