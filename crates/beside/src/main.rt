//! Replays streams that the Rust crate usb-device 0.3.2 was driven through, and prints what ours says of each event: state, answer
//! and masks, the actions, the packet up to its last byte that is not 0. What it prints is held to the file stdout, which has
//! the Rust's own answers. oracle/sample makes both files. Each `ui` is left out, since the Rust unstalls OUT only.
#![tactic(auto)]

use common::Refusal;
use device::Device;
use record_bytes::RECORD;
use records::EVENT;
use requests::TILE;
use std::io;
use stream::{ENTRY, TOP};

/// How many streams there are.
const STREAMS: usize = 12;

/// The room of a stream's tiles, 70 of them.
const TILES: usize = 70 * TILE as usize;

/// The event records of a stream, their bytes, and the room of their trace entries.
const RECORDS: usize = 250;

const EVENTS: usize = RECORDS * EVENT;

const TRACE: usize = RECORDS * ENTRY;

/// Where the actions stand in a trace entry.
const ACTIONS: usize = 8;

// The code of `ui` in a trace entry, which holds bytes and no actions.
const UNSTALL_IN: u8 = 5;

/// The actions that a stream's line shows, two bytes each: all but none and the `ui`.
fn actions<R: Print>(rt: &R, bytes: &[u8]) -> io::Result<()> {
    for action in bytes.chunks_exact(2) {
        if action[0] != 0 && action[0] != UNSTALL_IN {
            console::hex(&mut io::writer(rt), action)?;
        }
    }
    Ok(())
}

/// The line of a trace entry.
fn line<R: Print>(rt: &R, entry: &[u8; ENTRY]) -> io::Result<()> {
    let packet = &entry[TOP..];
    console::hex(&mut io::writer(rt), &entry[..ACTIONS])?;
    print!(rt; ".")?;
    actions(rt, &entry[ACTIONS..TOP])?;
    print!(rt; ".")?;
    console::hex(&mut io::writer(rt), &packet[..console::used(packet)])?;
    println!(rt;)
}

/// A device of a record, through the events.
fn replay<R: Print>(
    rt: &R,
    record: &[u8; RECORD],
    powered: bool,
    book: &[u8],
    events: &[u8],
) -> io::Result<()> {
    let mut device = Device::build(record_bytes::read(record), book.len()).unwrap_or_else(
        |unbuilt| unbuilt.device,
    );
    // Where this is refused, the run is refused too, and says so.
    let _ = device.set_self_powered(powered);
    let mut trace = [0; TRACE];
    let ran = stream::run(&mut device, book, events, &mut trace);
    let (entries, _) = trace.as_chunks::<ENTRY>();
    for entry in entries.iter().take(ran.count) {
        line(rt, entry)?;
    }
    // 0 for no refusal, as the stored output has it
    println!(rt; "{}", ran.stop.map_or(0, Refusal::number))
}

/// One stream of standard input: the record, whether the device is self-powered, how many tiles the book has, room for the
/// tiles, the events.
fn next<R: Input + Print>(rt: &R) -> io::Result<()> {
    let mut record = [0; RECORD];
    let mut head = [0; 2];
    let mut tiles = [0; TILES];
    let mut events = [0; EVENTS];
    let mut input = rt.reader();
    console::read_full(&mut input, &mut record)?;
    console::read_full(&mut input, &mut head)?;
    console::read_full(&mut input, &mut tiles)?;
    console::read_full(&mut input, &mut events)?;
    let [powered, count] = head;
    if let Some(book) = tiles.get(..TILE as usize * count as usize) {
        replay(rt, &record, powered == 1, book, &events)?;
    }
    Ok(())
}

fn main(rt: HostRuntime) -> io::Result<()> {
    for _ in 0..STREAMS {
        next(&rt)?;
    }
    Ok(())
}
