//! Replays a stream of event records from standard input: a line for each event, on standard output.
//! A bad record, a partial last one too, prints its number and `! 10`, and ends it; an empty input prints nothing.
//! Where standard input cannot be read (a directory) or standard output not be written (a full disk, a pipe that nobody reads), it
//! stops and says so on standard error. The exit status is 0.
#![tactic(auto)]

use device::Device;
use lines::{BAD, LINE};
use records::EVENT;
use std::fmt;
use std::io::{self, Read, Write};
use stream::ENTRY;

/// The bytes of a read.
const READ: usize = 65536;

/// The event records in them, and the rooms of their trace entries and their lines.
const RECORDS: usize = READ / EVENT;

const TRACE: usize = RECORDS * ENTRY;

const OUT: usize = RECORDS * LINE + BAD;

/// What stops a replay before its input does.
#[derive(Clone, Copy, Debug, PartialEq, Eq)]
enum Trouble {
    Input,
    Output,
}

impl fmt::Display for Trouble {
    fn fmt<W: fmt::Write>(&self, f: &mut fmt::Formatter<W>) -> fmt::Result {
        f.write_str(match self {
            Trouble::Input => "standard input cannot be read",
            Trouble::Output => "standard output cannot be written",
        })
    }
}

/// A device, the number of its next event record, and the rooms of the trace entries and the lines of a call.
#[derive(Drop)]
struct Replay<'a> {
    device: Device,
    number: u64,
    trace: &'a mut [u8],
    out: &'a mut [u8],
}

impl Replay<'_> {
    /// Writes the lines of these event records. Gives how many of them were taken, or `None` where one of them is bad.
    fn tell<R: Print>(&mut self, rt: &R, events: &[u8]) -> Result<Option<usize>, Trouble> {
        let printed = lines::print(
            &mut self.device,
            &[],
            self.number,
            events,
            self.trace,
            self.out,
        );
        self.number = self.number.wrapping_add(printed.count as u64);
        let n = printed.written.min(self.out.len());
        io::writer(rt)
            .write_all(&self.out[..n])
            .map_err(|_| Trouble::Output)?;
        Ok(match printed.stop {
            None => Some(printed.count),
            Some(_) => None,
        })
    }

    /// One read, behind the bytes of a partial record that are held, and the lines of the records that are whole by then; at the
    /// end of the input also of one that is not. Gives how many bytes are held at the front then, or `None` where the replay ends.
    fn turn<I: Read, R: Print>(
        &mut self,
        input: &mut I,
        rt: &R,
        buf: &mut [u8],
        held: usize,
    ) -> Result<Option<usize>, Trouble> {
        let held = held.min(buf.len());
        let n = input.read(&mut buf[held..]).map_err(|_| Trouble::Input)?;
        let total = held + n;
        if n == 0 {
            self.tell(rt, &buf[..total])?;
            return Ok(None);
        }
        let Some(taken) = self.tell(rt, &buf[..total - total % EVENT])? else {
            return Ok(None);
        };
        let used = taken.saturating_mul(EVENT).min(total);
        buf.copy_within(used..total, 0);
        Ok(Some(total - used))
    }

    /// Replays the input. A proved loop has to end, and nothing says that an input does: it counts to a number that no run
    /// reaches.
    fn run<I: Read, R: Print>(
        &mut self,
        input: &mut I,
        rt: &R,
        buf: &mut [u8],
    ) -> Result<(), Trouble> {
        let mut held = 0;
        for _ in 0..u64::MAX {
            let Some(next) = self.turn(input, rt, buf, held)? else {
                break;
            };
            held = next;
        }
        Ok(())
    }
}

/// The room of the lines. `main` takes it from here: with so long an array among its own locals the check ends without a verdict.
fn lines_room() -> [u8; OUT] {
    [0; OUT]
}

fn main(rt: HostRuntime) {
    let mut buf = [0; READ];
    let mut trace = [0; TRACE];
    let mut out = lines_room();
    let mut replay = Replay {
        device: Device::build(pan::noted(), 0).unwrap_or_else(|unbuilt| unbuilt.device),
        number: 1,
        trace: &mut trace,
        out: &mut out,
    };
    if let Err(trouble) = replay.run(&mut rt.reader(), &rt, &mut buf) {
        let _ = eprintln!(rt; "replay: {trouble}");
    }
}
