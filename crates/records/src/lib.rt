//! Event records of 80 bytes: an event of the bus as a stream holds it.
#![tactic(auto)]

ghost use Rattle.std.specs.Prelude.{◌≡◌, ◌+◌, ◌≤◌, length, take, drop};
ghost use Rattle.common.specs.Lists.{every};
ghost use Rattle.records.specs.Sizes.{event_room, head_room, packet_room};
ghost use Rattle.records.specs.Records.{is_zero, read_at, write_at, arrival_of, data_fine, plain, data_of, known_of, kind_of};

use common::Refusal;
use control_pipe::Read;
use events::{Arrival, Event, Write};

/// The bytes of an event record.
pub const EVENT: usize = HEAD + PACKET;

/// The bytes of its head: kind, read and write result, packet length, three masks, six zero bytes.
pub const HEAD: usize = 16;

/// The bytes behind the head: the packet, zero-filled.
pub const PACKET: usize = 64;

// Where the zero bytes of the head start.
const FILLING: usize = 10;

/// An event, and how many bytes of the record's packet came with it (at most `PACKET`).
#[derive(Clone, Copy, Debug, PartialEq, Eq)]
pub struct Happening {
    pub event: Event,
    pub length: u8,
}

// A record's own codes, of which `data_fine` has told before: no type here has more to say of them.
fn read_at(n: u8) -> Read
    ensures { result ≡ read_at n }
{
    match n {
        0 => Read::Packet,
        1 => Read::Block,
        _ => Read::Fault,
    }
}

fn write_at(n: u8) -> Write
    ensures { result ≡ write_at n }
{
    match n {
        0 => Write::Taken,
        _ => Write::Refused,
    }
}

// It looks at all the bytes, so that a compiler can take many at once.
#[tactic(auto, using(crate::proofs::Laws::none_seen))]
fn zeros(s: &[u8]) -> bool
    ensures { result ≡ every is_zero s.now }
{
    s.iter().fold(0, |seen, &b| seen | b) == 0
}

// Whether all is 0 behind a packet of n bytes. Most have none or eight: a compiler that knows the bounds takes the bytes at once.
fn filling(s: &[u8; EVENT], n: usize) -> bool
    requires { n ≤ packet_room }
    ensures { result ≡ every is_zero (drop (head_room + n) (take event_room s.now)) }
{
    match n {
        0 => zeros(&s[HEAD..]),
        8 => zeros(&s[HEAD + 8..]),
        _ => zeros(&s[HEAD + n..]),
    }
}

fn data_fine(s: &[u8; EVENT]) -> bool
    ensures { result ≡ data_fine s.now }
{
    s[1] <= 2
        && s[2] <= 1
        && s[3] as usize <= PACKET
        && zeros(&s[FILLING..HEAD])
        && filling(s, s[3] as usize)
}

fn arrival(s: &[u8; EVENT]) -> Arrival
    ensures { result ≡ arrival_of s.now }
{
    Arrival {
        out: u16::from_le_bytes([s[4], s[5]]),
        done: u16::from_le_bytes([s[6], s[7]]),
        setup: u16::from_le_bytes([s[8], s[9]]),
        read: read_at(s[1]),
        write: write_at(s[2]),
    }
}

fn plain(event: Event) -> Result<Happening, Refusal>
    ensures { result ≡ plain event }
{
    Ok(Happening { event, length: 0 })
}

fn data_of(s: &[u8; EVENT]) -> Result<Happening, Refusal>
    ensures { result ≡ data_of s.now }
{
    if !data_fine(s) {
        return Err(Refusal::BadEvent);
    }
    Ok(Happening {
        event: Event::Data(arrival(s)),
        length: s[3],
    })
}

/// The event of a record of `EVENT` bytes; one that is malformed or partial is refusal 10.
pub fn read(s: &[u8]) -> Result<Happening, Refusal>
    ensures { result ≡ known_of s.now }
{
    let Ok(s) = <&[u8; EVENT]>::try_from(s) else {
        return Err(Refusal::BadEvent);
    };
    match s[0] {
        0 => plain(Event::Nothing),
        1 => plain(Event::Reset),
        2 => plain(Event::Suspend),
        3 => plain(Event::Resume),
        4 => data_of(s),
        _ => Err(Refusal::BadEvent),
    }
}
