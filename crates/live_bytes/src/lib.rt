//! What a device holds beside its record and its buffer, as bytes. specs/Layout.antt has the layout; each enum has its codes.
#![tactic(auto)]

ghost use Rattle.std.specs.Prelude.{◌≡◌};
ghost use Rattle.live_bytes.specs.Layout.{top_bytes, request_bytes, reply_bytes, rest_bytes, live_bytes, request_of, reply_of, pipe_of, kept_of, live_of, pipe_coded, rest_coded, live_coded};

use common::Coded;
use control::{BusAddress, Direction, Recipient, Request, RequestType};
use control_pipe::{Coming, Pipe, Reply, Source, Stage};
use live::Live;
use requests::{Kept, State};

/// The bytes of a live part.
pub const LIVE: usize = REST_PLACE + REST;

// The bytes of its parts: of what stands before the request, of the request, of the IN answer, and of what outlives a SETUP.
const TOP: usize = 8;

const REQUEST: usize = 10;

const REPLY: usize = 13;

const REST: usize = 13;

// Where the parts start.
const REQUEST_PLACE: usize = TOP;

const REPLY_PLACE: usize = REQUEST_PLACE + REQUEST;

const REST_PLACE: usize = REPLY_PLACE + REPLY;

// ---- reading

fn request_of(s: &[u8; LIVE]) -> Request
    ensures { result ≡ request_of s.now }
{
    Request {
        direction: Direction::of_code(s[8]),
        kind: RequestType::of_code(s[9]),
        recipient: Recipient::of_code(s[10]),
        request: s[11],
        value: u16::from_le_bytes([s[12], s[13]]),
        index: u16::from_le_bytes([s[14], s[15]]),
        length: u16::from_le_bytes([s[16], s[17]]),
    }
}

fn reply_of(s: &[u8; LIVE]) -> Reply
    ensures { result ≡ reply_of s.now }
{
    Reply {
        source: Source::of_code(s[18]),
        start: u32::from_le_bytes([s[19], s[20], s[21], s[22]]),
        len: u32::from_le_bytes([s[23], s[24], s[25], s[26]]),
        sent: u32::from_le_bytes([s[27], s[28], s[29], s[30]]),
    }
}

fn pipe_of(s: &[u8; LIVE]) -> Pipe
    ensures { result ≡ pipe_of s.now }
{
    Pipe {
        stage: Stage::of_code(s[0]),
        stallout: s[1] == 1,
        stallin: s[2] == 1,
        pending: BusAddress(s[3]),
        request: request_of(s),
        coming: Coming {
            awaited: u16::from_le_bytes([s[4], s[5]]),
            held: u16::from_le_bytes([s[6], s[7]]),
        },
        reply: reply_of(s),
    }
}

fn kept_of(s: &[u8; LIVE]) -> Kept
    ensures { result ≡ kept_of s.now }
{
    Kept {
        state: State::of_code(s[31]),
        wakeup: s[32] == 1,
        powered: s[33] == 1,
        halts: u32::from_le_bytes([s[34], s[35], s[36], s[37]]),
    }
}

/// The live part of bytes. A byte that is no code is read as some code: `fine` tells of it.
#[tactic(auto, unfolding(crate::specs::Layout::live_of))]
pub fn read(s: &[u8; LIVE]) -> Live
    ensures { result ≡ live_of s.now }
{
    Live {
        pipe: pipe_of(s),
        kept: kept_of(s),
        before: State::of_code(s[38]),
        book: u32::from_le_bytes([s[40], s[41], s[42], s[43]]),
        built: s[39] == 1,
    }
}

// ---- which bytes are a live part's

fn pipe_fine(s: &[u8; LIVE]) -> bool
    ensures { result ≡ pipe_coded s.now }
{
    s[0] <= Stage::Error.code()
        && s[1] <= 1
        && s[2] <= 1
        && s[8] <= Direction::In.code()
        && s[9] <= RequestType::Reserved.code()
        && s[10] <= Recipient::Reserved.code()
        && s[18] <= Source::Book.code()
}

fn rest_fine(s: &[u8; LIVE]) -> bool
    ensures { result ≡ rest_coded s.now }
{
    let last = State::Suspend.code();
    s[31] <= last && s[32] <= 1 && s[33] <= 1 && s[38] <= last && s[39] <= 1
}

/// Whether the bytes are what a live part is written as: each flag and each enum is a code.
#[tactic(auto, unfolding(crate::specs::Layout::live_coded))]
pub fn fine(s: &[u8; LIVE]) -> bool
    ensures { result ≡ live_coded s.now }
{
    pipe_fine(s) && rest_fine(s)
}

// ---- writing

#[tactic(auto, using(crate::proofs::Spelt::spelt))]
fn top_bytes(p: &Pipe) -> [u8; TOP]
    ensures { result ≡ top_bytes p.now }
{
    let Coming { awaited, held } = p.coming;
    let [a0, a1] = awaited.to_le_bytes();
    let [h0, h1] = held.to_le_bytes();
    [
        p.stage.code(),
        p.stallout as u8,
        p.stallin as u8,
        p.pending.0,
        a0,
        a1,
        h0,
        h1,
    ]
}

#[tactic(auto, using(crate::proofs::Spelt::spelt))]
fn request_bytes(q: &Request) -> [u8; REQUEST]
    ensures { result ≡ request_bytes q.now }
{
    let Request {
        value,
        index,
        length,
        ..
    } = *q;
    let [v0, v1] = value.to_le_bytes();
    let [i0, i1] = index.to_le_bytes();
    let [n0, n1] = length.to_le_bytes();
    let (direction, kind, recipient) = (q.direction.code(), q.kind.code(), q.recipient.code());
    [
        direction, kind, recipient, q.request, v0, v1, i0, i1, n0, n1,
    ]
}

#[tactic(auto, using(crate::proofs::Spelt::spelt))]
fn reply_bytes(a: &Reply) -> [u8; REPLY]
    ensures { result ≡ reply_bytes a.now }
{
    let Reply {
        start,
        len,
        sent,
        source,
    } = *a;
    let [b0, b1, b2, b3] = start.to_le_bytes();
    let [n0, n1, n2, n3] = len.to_le_bytes();
    let [s0, s1, s2, s3] = sent.to_le_bytes();
    [
        source.code(),
        b0,
        b1,
        b2,
        b3,
        n0,
        n1,
        n2,
        n3,
        s0,
        s1,
        s2,
        s3,
    ]
}

#[tactic(auto, using(crate::proofs::Spelt::spelt))]
fn rest_bytes(l: &Live) -> [u8; REST]
    ensures { result ≡ rest_bytes l.now }
{
    let Kept {
        state,
        wakeup,
        powered,
        halts,
    } = l.kept;
    let Live {
        before,
        book,
        built,
        ..
    } = *l;
    let [h0, h1, h2, h3] = halts.to_le_bytes();
    let [b0, b1, b2, b3] = book.to_le_bytes();
    [
        state.code(),
        wakeup as u8,
        powered as u8,
        h0,
        h1,
        h2,
        h3,
        before.code(),
        built as u8,
        b0,
        b1,
        b2,
        b3,
    ]
}

/// The bytes of a live part.
#[tactic(auto, unfolding(crate::specs::Layout::live_bytes))]
pub fn write(l: &Live) -> [u8; LIVE]
    ensures { result ≡ live_bytes l.now }
{
    let mut d = [0; LIVE];
    d[..REQUEST_PLACE].copy_from_slice(&top_bytes(&l.pipe));
    d[REQUEST_PLACE..REPLY_PLACE].copy_from_slice(&request_bytes(&l.pipe.request));
    d[REPLY_PLACE..REST_PLACE].copy_from_slice(&reply_bytes(&l.pipe.reply));
    d[REST_PLACE..].copy_from_slice(&rest_bytes(l));
    d
}
