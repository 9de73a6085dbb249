//! The second half of an event: an answer sets out, or an IN-complete is handled (USB 2.0 sections 9.4.1, 9.4.6 and 9.4.9).
#![tactic(auto)]

ghost use Rattle.std.specs.Prelude.{◌≡◌};
ghost use Rattle.effects.specs.Effects.{Halved, halting, effected, action_of, set_out, ticked};

use answers::Verdict;
use control::{BusAddress, EndpointAddress};
use control_pipe::{BUFFER, Bus, Moved, Source, Told};
use live::Live;
use requests::{Effect, State};

/// What the bus is told.
// `Nothing` is a case: the free slots of a step hold it.
#[derive(Clone, Copy, Debug, PartialEq, Eq)]
pub enum Action {
    Nothing,
    Resume,
    Suspend,
    Reset,
    UnstallOut,
    UnstallIn,
    StallOut,
    StallIn,
    Halt(EndpointAddress),
    Unhalt(EndpointAddress),
    Address(BusAddress),
    /// The bus took the packet at the front of the room, of so many bytes.
    Write(u8),
    /// The bus did not take the packet at the front of the room, of so many bytes.
    Refused(u8),
}

/// What the second half of an event tells the bus.
#[derive(Clone, Copy, Debug, PartialEq, Eq)]
pub struct Half {
    pub act: Action,
    pub told: Told,
}

// A halt of endpoint 0 is a stall of the pipe, any other is kept.
fn set_halt(live: &mut Live, e: EndpointAddress, on: bool)
    ensures { live.new ≡ halting e on live.old }
{
    if e.0 % 16 != 0 {
        live.kept.set_halt(e, on);
    } else if e.0 < 128 {
        live.pipe.stallout = on;
    } else {
        live.pipe.stallin = on;
    }
}

// With the quirk the address is taken at once, else when the status stage completes.
fn carry_out(live: &mut Live, effect: Effect, quirk: bool) -> Action
    ensures live { live.new ≡ effected effect quirk live.old }
    ensures action { result ≡ action_of effect quirk }
{
    match effect {
        Effect::Nothing => Action::Nothing,
        Effect::Wakeup(on) => {
            live.kept.wakeup = on;
            Action::Nothing
        }
        Effect::Halt(e) => {
            set_halt(live, e, true);
            Action::Halt(e)
        }
        Effect::Unhalt(e) => {
            set_halt(live, e, false);
            Action::Unhalt(e)
        }
        Effect::Address(address) if quirk => {
            live.kept.state = State::Addressed;
            Action::Address(address)
        }
        Effect::Address(address) => {
            live.pipe.pending = address;
            Action::Nothing
        }
        Effect::Turn(state) => {
            live.kept.state = state;
            Action::Nothing
        }
    }
}

/// An answer sets out: a stall, the first packet of the buffer's or the book's bytes, or the status of an accepted request.
#[tactic(auto, unfolding(crate::specs::Effects::set_out, common::specs::Bytes::front))]
pub fn set_out(
    live: &mut Live,
    verdict: Option<Verdict>,
    bus: &Bus,
    quirk: bool,
    buffer: &[u8; BUFFER],
    room: &mut [u8],
) -> Half
    ensures { Halved result live.new room.new (set_out verdict bus.now.size quirk bus.now.taken bus.now.book.now live.old buffer.now) room.old }
{
    match verdict {
        None => Half {
            act: Action::Nothing,
            told: live.pipe.stall(),
        },
        Some(Verdict::Bytes(n)) => Half {
            act: Action::Nothing,
            told: live.pipe.accept_in(Source::Buffer, 0, n, bus, buffer, room),
        },
        Some(Verdict::Tiles(start)) => {
            let n = live.book.saturating_sub(start) as usize;
            Half {
                act: Action::Nothing,
                told: live
                    .pipe
                    .accept_in(Source::Book, start, n, bus, buffer, room),
            }
        }
        Some(Verdict::Accept(effect)) => {
            let act = carry_out(live, effect, quirk);
            Half {
                act,
                told: live.pipe.accept_out(bus.taken),
            }
        }
    }
}

/// An IN-complete of endpoint 0. A status stage that completes takes the pending address.
#[tactic(auto, unfolding(crate::specs::Effects::ticked))]
pub fn tick(live: &mut Live, bus: &Bus, quirk: bool, buffer: &[u8; BUFFER], room: &mut [u8]) -> Half
    ensures { Halved result live.new room.new (ticked bus.now.size quirk bus.now.taken bus.now.book.now live.old buffer.now) room.old }
{
    let Moved { told, done } = live.pipe.in_complete(bus, buffer, room);
    let address = live.pipe.pending;
    if done && !quirk && address.0 != 0 {
        live.pipe.pending = BusAddress(0);
        live.kept.state = State::Addressed;
        return Half {
            act: Action::Address(address),
            told,
        };
    }
    Half {
        act: Action::Nothing,
        told,
    }
}
