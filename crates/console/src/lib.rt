//! What the programs share: an input read into a buffer, and bytes written in hex.
#![tactic(auto)]

ghost use Rattle.std.specs.Prelude.{◌≡◌, ◌<◌, ◌≤◌, ◌/◌, ◌%◌, [], ◌∷◌, IfOk, OnOk, false, length, take};
ghost use Rattle.std.specs.Fmt.{digit_glyph};
ghost use Rattle.std.specs.Io.KnownBytes.{Appends, Consumes, IsAtEnd};
ghost use Rattle.std.specs.List.{flat_map};
ghost use Rattle.console.specs.Used.{used};

use std::io::{self, Read, Write};

/// Reads until the buffer is full or the input ends, and returns how many bytes of it were read: the buffer's length at most.
/// An error of the reader is handed on.
pub fn read_full<R: Read>(input: &mut R, buf: &mut [u8]) -> io::Result<usize>
    ensures bound { IfOk result (λ n. n ≤ length buf.new) }
    ensures len { length buf.new ≡ length buf.old }
    ensures bytes { IfOk result (λ n. Consumes (R.remaining input.old) (R.remaining input.new) (take n buf.new)) }
    ensures end { IfOk result (λ n. n < length buf.new → IsAtEnd (R.remaining input.new)) }
{
    let mut done = 0;
    // std's `read_exact` says little of an input that ends early, and how many bytes there were is wanted
    while done < buf.len() {
        let n = input.read(&mut buf[done..])?;
        if n == 0 {
            break;
        }
        done += n;
    }
    Ok(done)
}

/// How many bytes there are up to the last that is not 0.
pub fn used(bytes: &[u8]) -> usize
    ensures value { result ≡ used bytes.now }
    ensures bound { result ≤ length bytes.now }
{
    match bytes.iter().rposition(|&b| b != 0) {
        Some(i) => i + 1,
        None => 0,
    }
}

// A digit below 16: 0 to 9, then a to f. (`lines` has its own, since it stands on no library of the programs.)
fn digit(d: u8) -> u8
    requires { d < 16 }
    ensures { result ≡ digit_glyph false d }
{
    if d < 10 { 48 + d } else { 87 + d }
}

/// Writes bytes in hex, one after the other: two lower-case digits each, the high one first.
pub fn hex<W: Write>(out: &mut W, bytes: &[u8]) -> io::Result<()>
    ensures wrote { OnOk result (Appends (W.contents out.old) (W.contents out.new)
        (flat_map (λ b. digit_glyph false (b / 16) ∷ digit_glyph false (b % 16) ∷ []) bytes.now)) }
{
    for &b in bytes {
        // `{b:02x}` gives a writer these two digits too, but a leading 0 in a write of its own
        out.write_all(&[digit(b / 16), digit(b % 16)])?;
    }
    Ok(())
}
