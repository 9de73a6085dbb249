//! Words and numbers on standard output.
use common::Refusal;
use control::{Direction, Recipient, Request, RequestType};
use std::io::{self, Write};

pub(crate) fn number<R: Print>(rt: &R, n: u64) -> io::Result<()> {
    print!(rt; "{n}")
}

// A word after a space.
pub(crate) fn word<R: Print>(rt: &R, text: &[u8]) -> io::Result<()> {
    print!(rt; " ")?;
    io::writer(rt).write_all(text)
}

pub(crate) fn line<R: Print>(rt: &R) -> io::Result<()> {
    println!(rt;)
}

// A number after a space.
pub(crate) fn next<R: Print>(rt: &R, n: u64) -> io::Result<()> {
    print!(rt; " ")?;
    number(rt, n)
}

pub(crate) fn refusal<R: Print>(rt: &R, why: Refusal) -> io::Result<()> {
    word(rt, b"refused")?;
    next(rt, why.number() as u64)
}

pub(crate) fn hex<R: Print>(rt: &R, buf: &[u8]) -> io::Result<()> {
    for &b in buf {
        print!(rt; " {b:02x}")?;
    }
    Ok(())
}

// Direction, type and recipient, by a letter each, then the numbers.
pub(crate) fn request<R: Print>(rt: &R, r: Request) -> io::Result<()> {
    word(
        rt,
        &[direct(r.direction), typed(r.kind), receive(r.recipient)],
    )?;
    next(rt, r.request as u64)?;
    next(rt, r.value as u64)?;
    next(rt, r.index as u64)?;
    next(rt, r.length as u64)
}

// The letters of what this program prints, which no other does.
fn direct(d: Direction) -> u8 {
    match d {
        Direction::Out => b'o',
        Direction::In => b'i',
    }
}

fn typed(t: RequestType) -> u8 {
    match t {
        RequestType::Standard => b's',
        RequestType::Class => b'c',
        RequestType::Vendor => b'v',
        RequestType::Reserved => b'r',
    }
}

fn receive(r: Recipient) -> u8 {
    match r {
        Recipient::Device => b'd',
        Recipient::Interface => b'i',
        Recipient::Endpoint => b'e',
        Recipient::Other => b'o',
        Recipient::Reserved => b'r',
    }
}
