//! Runs field notes 1 to 6 of document 01 and prints what the code answers.
//! What it prints is held to the file stdout, which was written from document 01.
#![tactic(auto)]

mod say;

use control::Request;
use descriptor::Written;
use std::io;

// Notes 1 to 3: what a SETUP packet says.
fn setup<R: Print>(rt: &R, note: u64, packet: &[u8]) -> io::Result<()> {
    say::number(rt, note)?;
    match Request::parse(packet) {
        Ok(request) => say::request(rt, request)?,
        Err(why) => say::refusal(rt, why)?,
    }
    say::line(rt)
}

const FIRST: [u8; 8] = [0x80, 0x06, 0x00, 0x01, 0x00, 0x00, 0x40, 0x00];

const LONGER: [u8; 9] = [0x80, 0x06, 0x00, 0x01, 0x00, 0x00, 0x40, 0x00, 0x00];

const RESERVED: [u8; 8] = [0x64, 0, 0, 0, 0, 0, 0, 0];

const OTHER: [u8; 8] = [0xc3, 0, 0, 0, 0, 0, 0, 0];

// In note 3, seven bytes and nine.
fn setups<R: Print>(rt: &R) -> io::Result<()> {
    setup(rt, 1, &FIRST)?;
    setup(rt, 2, &RESERVED)?;
    setup(rt, 2, &OTHER)?;
    setup(rt, 3, &FIRST[..7])?;
    setup(rt, 3, &LONGER)
}

// Notes 4 to 6: how many bytes a descriptor has, and what a room of 28 bytes EEh holds then.
fn written<R: Print, F: FnOnce(&mut [u8], usize) -> Written>(
    rt: &R,
    note: u64,
    at: usize,
    write: F,
) -> io::Result<()>
    requires { F.IsAlwaysCallable write }
{
    let mut room = [0xeeu8; 28];
    say::number(rt, note)?;
    match write(&mut room, at) {
        Ok(Some(n)) => say::next(rt, n as u64)?,
        Ok(None) => say::word(rt, b"missing")?,
        Err(why) => say::refusal(rt, why)?,
    }
    say::hex(rt, &room)?;
    say::line(rt)
}

// A string of language 0409h.
fn string<R: Print>(rt: &R, note: u64, number: u8, at: usize) -> io::Result<()> {
    written(rt, note, at, |buf, at| {
        strings::write(&pan::noted(), number, 0x0409, buf, at)
    })
}

// Beside the notes: strings that are not there, and the language list at the last place that holds it, and behind it.
fn main(rt: HostRuntime) -> io::Result<()> {
    setups(&rt)?;
    written(
        &rt,
        4,
        0,
        |buf, at| descriptor::device(&pan::noted(), buf, at),
    )?;
    written(&rt, 5, 0, |buf, at| {
        configuration::write(&pan::noted(), buf, at)
    })?;
    string(&rt, 6, 1, 0)?;
    string(&rt, 6, 0, 0)?;
    string(&rt, 0, 3, 0)?;
    string(&rt, 0, 4, 0)?;
    string(&rt, 0, 0, 24)?;
    string(&rt, 0, 0, 25)
}
