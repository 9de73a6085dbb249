//! What the mast's crates share: the refusals, values that stand in bytes as codes, and a copy that does nothing past an end.
#![tactic(auto)]

ghost use Rattle.std.specs.Prelude.{◌≡◌, ℕ, ◌+◌, ◌≤◌, length, replicate, leb};
ghost use Rattle.common.specs.Refusals.{number_of};
ghost use Rattle.common.specs.Bytes.{part, placed, stored};

/// Why the mast says no. The discriminants are the numbers of the table "When the mast says no".
#[derive(Clone, Copy, Debug, PartialEq, Eq)]
pub enum Refusal {
    PacketSize = 1,
    Layout = 2,
    Languages = 3,
    BookLength = 4,
    OtherBook = 5,
    PacketRoom = 6,
    NoData = 7,
    DataRoom = 8,
    BadState = 9,
    BadEvent = 10,
    BadSetup = 11,
    AnswerRoom = 12,
}

impl Refusal {
    /// Its number, 1 to 12.
    pub fn number(self) -> u8
        ensures { result ≡ number_of self }
    {
        self as u8
    }
}

/// A type whose values stand in bytes as codes.
pub trait Coded: Copy {
    ghost code: { Self → ℕ };

    ghost named: { ℕ → Self };

    /// The code of a value.
    fn code(self) -> u8
        ensures { result ≡ code self };

    /// The value of a code. A byte that is no code names some value too.
    fn of_code(n: u8) -> Self
        ensures { result ≡ named n };

    // What is written is read back.
    ghost back: { (x : Self) → named (code x) ≡ x };
}

/// Whether `n` bytes from `at` on lie within `len` bytes.
pub fn within(len: usize, at: usize, n: usize) -> bool
    ensures { result ≡ leb (at + n) len }
{
    at <= len && n <= len - at
}

/// The `n` bytes of `src` from `from` on go to place `at` of `dst`; where either part runs past its end, nothing does.
pub fn put(src: &[u8], from: usize, n: usize, dst: &mut [u8], at: usize)
    ensures { dst.new ≡ stored dst.old at src.now from n }
{
    if !within(src.len(), from, n) {
        return;
    }
    if !within(dst.len(), at, n) {
        return;
    }
    dst[at..at + n].copy_from_slice(&src[from..from + n]);
}

/// Every byte becomes 0.
pub fn clear(dst: &mut [u8])
    ensures { dst.new ≡ replicate (length dst.old) 0 }
{
    dst.fill(0);
}
