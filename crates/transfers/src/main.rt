//! Drives whole transfers: the event records of standard input go through a device of each packet size, with a book of three
//! records. A line for each event has its trace entry in hex, without the zero bytes at its end. The last line of each has the
//! packet size, how many events were taken, what stopped it, and the OUT data that is left: its length, its refusal, its bytes.
//! What it prints is held to the file stdout, which model/transfers.py made from the rules.
#![tactic(auto)]

use common::Refusal;
use control_pipe::BUFFER;
use device::Device;
use std::io;
use stream::ENTRY;

/// The bytes of standard input that are replayed, and the room of the trace entries.
const ROOM: usize = 65536;

/// Three records of a tile book.
const TILES: [u8; 48] = [
    100, 101, 102, 103, 104, 105, 106, 107, 108, 109, 110, 111, 112, 113, 114, 115, 116, 117, 118,
    119, 120, 121, 122, 123, 124, 125, 126, 127, 128, 129, 130, 131, 132, 133, 134, 135, 136, 137,
    138, 139, 140, 141, 142, 143, 144, 145, 146, 147,
];

/// The trace entries of the events that were taken, a line for each.
fn entries<R: Print>(rt: &R, trace: &[u8], count: usize) -> io::Result<()> {
    for entry in trace.chunks_exact(ENTRY).take(count) {
        console::hex(&mut io::writer(rt), &entry[..console::used(entry)])?;
        println!(rt;)?;
    }
    Ok(())
}

/// The events, through a device of a packet size.
fn replay<R: Print>(rt: &R, packet: u8, events: &[u8]) -> io::Result<()> {
    let mut device = Device::build(pan::sized(packet), TILES.len()).unwrap_or_else(
        |unbuilt| unbuilt.device,
    );
    let mut trace = [0; ROOM];
    let ran = stream::run(&mut device, &TILES, events, &mut trace);
    let mut room = [0; BUFFER];
    // 0 for no refusal, as the stored output has it
    let (held, denied) = match device.data(&mut room) {
        Ok(n) => (n, 0),
        Err(why) => (0, why.number()),
    };
    let why = ran.stop.map_or(0, Refusal::number);
    entries(rt, &trace, ran.count)?;
    print!(rt; "{packet} {} {why} {held} {denied} ", ran.count)?;
    console::hex(&mut io::writer(rt), &room[..held.min(BUFFER)])?;
    println!(rt;)
}

fn main(rt: HostRuntime) -> io::Result<()> {
    let mut events = [0; ROOM];
    let n = console::read_full(&mut rt.reader(), &mut events)?;
    for packet in [8, 16, 32, 64] {
        replay(&rt, packet, &events[..n])?;
    }
    Ok(())
}
