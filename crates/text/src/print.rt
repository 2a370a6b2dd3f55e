// Words, numbers and bytes on a writer: on standard output, where a program hands it that.
ghost use Rattle.std.specs.Prelude.{◌++◌, ◌∷◌, []};
ghost use Rattle.std.specs.Fmt.{decimal};
ghost use Rattle.text.specs.Hex.{hex_of};
ghost use Rattle.text.specs.Print.{WriteSays, number_text, yes_text};

use std::io;
use std::io::Write;

// Words are bytes, also in `named`: a `&str` would ask more of callers.
pub fn say<W: Write>(out: &mut W, words: &[u8]) -> io::Result<()>
    ensures { WriteSays words.now (W.contents out.old) (W.contents out.new) result }
{
    out.write_all(words)
}

// The number's digits alone.
pub fn digits<W: Write>(out: &mut W, n: u64) -> io::Result<()>
    ensures { WriteSays (decimal n) (W.contents out.old) (W.contents out.new) result }
{
    write!(out, "{n}")
}

// A blank and the number.
pub fn number<W: Write>(out: &mut W, n: u64) -> io::Result<()>
    ensures { WriteSays (number_text n) (W.contents out.old) (W.contents out.new) result }
{
    write!(out, " {n}")
}

pub fn named<W: Write>(out: &mut W, name: &[u8], n: u64) -> io::Result<()>
    ensures { WriteSays (name.now ++ number_text n) (W.contents out.old) (W.contents out.new) result }
{
    say(out, name)?;
    number(out, n)
}

pub fn yes<W: Write>(out: &mut W, holds: bool) -> io::Result<()>
    ensures { WriteSays (yes_text holds) (W.contents out.old) (W.contents out.new) result }
{
    let word = if holds { " yes" } else { " no" };
    say(out, word.as_bytes())
}

// Two digits for each byte.
pub fn bytes<W: Write>(out: &mut W, shown: &[u8]) -> io::Result<()>
    ensures { WriteSays (hex_of shown.now) (W.contents out.old) (W.contents out.new) result }
{
    for one in shown {
        byte(out, *one)?;
    }
    Ok(())
}

// Both digits at once: standard output has no buffer, and `{:02x}` writes the 0 of a small byte apart.
fn byte<W: Write>(out: &mut W, b: u8) -> io::Result<()>
    ensures { WriteSays (hex_of (b ∷ [])) (W.contents out.old) (W.contents out.new) result }
{
    let mut digits = [0u8; 2];
    crate::hex(&[b], &mut digits);
    say(out, &digits)
}
