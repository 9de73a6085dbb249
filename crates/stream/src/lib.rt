//! A stream of event records goes through one device, and a trace entry is written for each.
#![tactic(auto)]

ghost use Rattle.std.specs.Prelude.{◌≡◌, length};
ghost use Rattle.common.specs.Refusals.{unless};
ghost use Rattle.device.specs.Device.{refused_by};
ghost use Rattle.stream.specs.Trace.{entry_room, action_bytes, top_bytes, entry_of};
ghost use Rattle.stream.specs.Stream.{Turning, Running, clean, turn, turns_by, run_of};

use common::{Coded, Refusal};
use device::{Device, Masks, Polled};
use effects::Action;
use records::{EVENT, HEAD, Happening, PACKET};
use requests::State;

/// The bytes of a trace entry: its head, then the packet, zero-filled to 64.
pub const ENTRY: usize = TOP + PACKET;

/// The bytes of its head: state, answer, three masks, five actions of two bytes.
pub const TOP: usize = 18;

/// How many event records a run took, and what stopped it before their end or the trace's.
#[derive(Clone, Copy, Debug, PartialEq, Eq)]
pub struct Ran {
    pub count: usize,
    pub stop: Option<Refusal>,
}

// The code of an action, and its argument.
fn action_bytes(action: Action) -> [u8; 2]
    ensures { result ≡ action_bytes action }
{
    match action {
        Action::Nothing => [0, 0],
        Action::Resume => [1, 0],
        Action::Suspend => [2, 0],
        Action::Reset => [3, 0],
        Action::UnstallOut => [4, 0],
        Action::UnstallIn => [5, 0],
        Action::StallOut => [6, 0],
        Action::StallIn => [7, 0],
        Action::Halt(e) => [8, e.0],
        Action::Unhalt(e) => [9, e.0],
        Action::Address(a) => [10, a.0],
        Action::Write(n) => [11, n],
        Action::Refused(n) => [12, n],
    }
}

// The head of an entry.
fn top(state: State, polled: &Polled) -> [u8; TOP]
    ensures { result ≡ top_bytes state polled.now }
{
    let Masks { setup, out, done } = polled.masks;
    let [setup, setup_high] = setup.to_le_bytes();
    let [out, out_high] = out.to_le_bytes();
    let [done, done_high] = done.to_le_bytes();
    let [a, ax] = action_bytes(polled.actions.first);
    let [b, bx] = action_bytes(polled.actions.second);
    let [c, cx] = action_bytes(polled.actions.third);
    let [d, dx] = action_bytes(polled.actions.fourth);
    let [e, ex] = action_bytes(polled.actions.fifth);
    [
        state.code(),
        polled.answer as u8,
        setup,
        setup_high,
        out,
        out_high,
        done,
        done_high,
        a,
        ax,
        b,
        bx,
        c,
        cx,
        d,
        dx,
        e,
        ex,
    ]
}

// An entry: its head, then the room. (A slice of known length: `chunks_mut` and its like tell a proof too little.)
fn put_entry(state: State, polled: &Polled, room: &[u8; PACKET], entry: &mut [u8])
    requires { length entry.old ≡ entry_room }
    ensures { entry.new ≡ entry_of state polled.now room.now }
{
    entry[..TOP].copy_from_slice(&top(state, polled));
    entry[TOP..].copy_from_slice(room);
}

// A step with a record's event and packet, and its trace entry. A record or a step that is refused changes nothing; `fit` is what
// the device and the book are refused for.
fn turn(
    fit: Result<(), Refusal>,
    device: &mut Device,
    book: &[u8],
    s: &[u8],
    entry: &mut [u8],
) -> Result<(), Refusal>
    requires { (fit ≡ unless (refused_by device.old book.now clean) tt) × (length entry.old ≡ entry_room) }
    ensures { Turning result device.new entry.new (turn device.old book.now s.now) entry.old }
{
    let Happening { event, length } = records::read(s)?;
    fit?;
    let packet = &s[HEAD..HEAD + length as usize];
    let mut room = [0; PACKET];
    let handled = events::handle(
        event,
        &device.profile,
        &mut device.live,
        packet,
        &mut device.buffer,
        book,
        &mut room,
    );
    let polled = device::said(&handled, &event);
    put_entry(device.live.kept.state, &polled, &room, entry);
    Ok(())
}

// As many as there are event records, a partial one too, and as the trace has room for.
fn turns(events: usize, trace: usize) -> usize
    ensures { result ≡ turns_by events trace }
{
    (trace / ENTRY).min(events.div_ceil(EVENT))
}

/// Steps the device through event records of 80 bytes, and writes a trace entry of 82 bytes for each to the front of `trace`.
///
/// It stops before a record that is refused (10 if it is malformed or partial; 9 or 5 of the device and the book), where the
/// device and the rest of the trace are as they were before it, and before the trace is full.
pub fn run(device: &mut Device, book: &[u8], events: &[u8], trace: &mut [u8]) -> Ran
    ensures { Running result device.new trace.new (run_of device.old book.now events.now trace.old) trace.old }
{
    // once is enough: no step leaves a device that the next may not have
    let fit = device.live.check_step(&device.profile, book.len(), PACKET);
    let turns = turns(events.len(), trace.len());
    // an index for both: after `chunks_mut` a proof knows no more of the trace than its length
    for i in 0..turns {
        let rest = &events[EVENT * i..];
        let s = &rest[..rest.len().min(EVENT)];
        let entry = &mut trace[ENTRY * i..ENTRY * i + ENTRY];
        if let Err(why) = turn(fit, device, book, s, entry) {
            return Ran {
                count: i,
                stop: Some(why),
            };
        }
    }
    Ran {
        count: turns,
        stop: None,
    }
}
