//! Streams with trouble in them, each through a device of its own: every malformed field, partial records, numbers of every
//! length. Standard input has them one after the other, each behind its first number (8 bytes) and its length (2 bytes),
//! little-endian. The rooms take three records in a call, so that their end is met too. A line `-` follows each stream.
//! What it prints is held to the file stdout, which model/replay.py made from the rules.
#![tactic(auto)]

use device::Device;
use lines::{BAD, LINE};
use records::EVENT;
use std::io::{self, Write};
use stream::ENTRY;

/// The bytes of standard input that are replayed.
const ROOM: usize = 65536;

/// The event records of a call, and the rooms of their trace entries and their lines.
const RECORDS: usize = 3;

const TRACE: usize = RECORDS * ENTRY;

const OUT: usize = RECORDS * LINE + BAD;

/// A stream of event records, with the number of the first.
#[derive(Clone, Copy)]
struct Stream<'a> {
    number: u64,
    events: &'a [u8],
}

// Replay goes on likewise, but tells of a trouble on standard error and ends with 0; here an error is handed on.
/// The lines of a stream.
fn tell<R: Print>(rt: &R, stream: Stream) -> io::Result<()> {
    let mut device = Device::build(pan::noted(), 0).unwrap_or_else(|unbuilt| unbuilt.device);
    let mut number = stream.number;
    let mut events = stream.events;
    let mut trace = [0; TRACE];
    let mut out = [0; OUT];
    // A proved loop has to end: it counts to a number that no run reaches.
    for _ in 0..u64::MAX {
        let printed = lines::print(&mut device, &[], number, events, &mut trace, &mut out);
        io::writer(rt).write_all(&out[..printed.written.min(OUT)])?;
        if printed.stop.is_some() || printed.count == 0 {
            break;
        }
        number = number.wrapping_add(printed.count as u64);
        let taken = printed.count.saturating_mul(EVENT).min(events.len());
        events = &events[taken..];
    }
    println!(rt; "-")
}

/// The first stream of the bytes, and what stands behind it; `None` where the bytes end before it does.
fn first(bytes: &[u8]) -> Option<(Stream<'_>, &[u8])> {
    let (number, rest) = bytes.split_first_chunk::<8>()?;
    let (length, rest) = rest.split_first_chunk::<2>()?;
    let n = u16::from_le_bytes(*length) as usize;
    if rest.len() < n {
        return None;
    }
    let (events, rest) = rest.split_at(n);
    let number = u64::from_le_bytes(*number);
    Some((Stream { number, events }, rest))
}

/// All streams of the bytes. A stream has ten bytes at least, so no more than the bytes are found.
fn all<R: Print>(rt: &R, bytes: &[u8]) -> io::Result<()> {
    let mut rest = bytes;
    for _ in 0..bytes.len() {
        let Some((stream, behind)) = first(rest) else {
            break;
        };
        tell(rt, stream)?;
        rest = behind;
    }
    Ok(())
}

fn main(rt: HostRuntime) -> io::Result<()> {
    let mut buf = [0; ROOM];
    let n = console::read_full(&mut rt.reader(), &mut buf)?;
    all(&rt, &buf[..n])
}
