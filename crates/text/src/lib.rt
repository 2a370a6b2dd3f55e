// What the programs share: bytes as digits, words and numbers on a writer, bytes from a reader, parts of buffers.
#![tactic(auto)]

ghost use Rattle.std.specs.Prelude.{◌≡◌, ◌<◌};
ghost use Rattle.io.specs.Digits.{hex_digit_ascii};
ghost use Rattle.text.specs.Hex.{hexed};

mod part;
mod print;
mod read;

pub use part::{fitting, front};
pub use print::{bytes, digits, named, number, say, yes};
pub use read::fill;

// Two hexadecimal digits for each byte, in lower case, at the front of `out`: as many bytes as
// there is room for. The rest of `out` stays. Pairs are written by index: of what goes through
// `chunks_exact_mut` the check knows the length alone.
pub fn hex(bytes: &[u8], out: &mut [u8])
    ensures { out.new ≡ hexed out.old bytes.now }
{
    let n = bytes.len().min(out.len() / 2);
    for (i, byte) in bytes[..n].iter().enumerate() {
        out[2 * i] = digit(byte / 16);
        out[2 * i + 1] = digit(byte % 16);
    }
}

// A byte: `char::from_digit` gives a char, and none for what is no digit.
fn digit(d: u8) -> u8
    requires { d < 16 }
    ensures { result ≡ hex_digit_ascii d }
{
    if d < 10 { 48 + d } else { 87 + d }
}
