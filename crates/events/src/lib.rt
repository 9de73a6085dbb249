//! One event of the bus, on the parts of a device that no refusal stands against: chapter 8's pipe and chapter 9's answers joined.
#![tactic(auto)]

ghost use Rattle.std.specs.Prelude.{◌≡◌, ◌&&◌};
ghost use Rattle.control_pipe.specs.Stages.{Took};
ghost use Rattle.answers.specs.Answers.{Answered, answer};
ghost use Rattle.events.specs.Events.{Followed, Came, taken_by, odd, arrived, followed, data_come, told_plainly, woken, restarted, dull, happens, handled};

use answers::Verdict;
use control_pipe::{BUFFER, Bus, Heard, Pipe, Read, Told};
use effects::{Action, Half};
use live::Live;
use record::Record;
use requests::State;

/// What the one write of an event will get.
#[derive(Clone, Copy, Debug, PartialEq, Eq)]
pub enum Write {
    Taken,
    Refused,
}

/// What arrived: masks of the endpoints (bit n is endpoint n) with a SETUP, an OUT packet or an IN-complete, the one read and the
/// one write.
// In this order it has ten bytes; eight would be packed into one number and unpacked at every copy.
#[derive(Clone, Copy, Debug, PartialEq, Eq)]
pub struct Arrival {
    pub setup: u16,
    pub read: Read,
    pub out: u16,
    pub done: u16,
    pub write: Write,
}

/// An event of the bus.
#[derive(Clone, Copy, Debug, PartialEq, Eq)]
pub enum Event {
    Nothing,
    Reset,
    Suspend,
    Resume,
    Data(Arrival),
}

/// What an event says. The bus is told, in this order: resume, `first`, `act`, `second`. `answer` is true for data alone.
#[derive(Clone, Copy, Debug, PartialEq, Eq)]
pub struct Handled {
    pub resumed: bool,
    pub first: Told,
    pub act: Action,
    pub second: Told,
    pub answer: bool,
}

// SETUP goes before OUT.
#[tactic(auto, unfolding(crate::specs::Events::arrived))]
fn arrive(pipe: &mut Pipe, arrival: &Arrival, packet: &[u8], buffer: &mut [u8; BUFFER]) -> Heard
    ensures { Took result pipe.new buffer.new (arrived arrival.now packet.now pipe.old buffer.old) }
{
    if arrival.setup % 2 == 1 {
        pipe.setup_come(arrival.read, packet, buffer)
    } else if arrival.out % 2 == 1 {
        pipe.out_come(arrival.read, packet, buffer)
    } else {
        Heard::nothing()
    }
}

// The pipe's request is decided, and what it tells is written into the buffer.
#[tactic(auto, unfolding(answers::specs::Answers::answer))]
fn judge(profile: &Record, live: &Live, buffer: &mut [u8; BUFFER]) -> Option<Verdict>
    ensures { Answered result buffer.new (answer profile.now live.now.kept live.now.pipe live.now.book) buffer.old }
{
    let decision = requests::decide(&live.kept, &live.pipe, live.book);
    answers::write(decision, profile, &live.pipe.request, buffer)
}

// A complete request is decided, else an IN-complete is handled.
#[tactic(auto, using(crate::proofs::Laws::kept), unfolding(crate::specs::Events::followed, common::specs::Bytes::front))]
fn follow(
    profile: &Record,
    live: &mut Live,
    complete: bool,
    arrival: &Arrival,
    buffer: &mut [u8; BUFFER],
    book: &[u8],
    room: &mut [u8],
) -> Half
    ensures { Followed result live.new buffer.new room.new (followed profile.now complete (odd arrival.now.done) (taken_by arrival.now.write) book.now live.old buffer.old) room.old }
{
    let quirk = profile.plan.basics.quirk;
    let bus = Bus {
        size: profile.plan.basics.packet,
        taken: arrival.write == Write::Taken,
        book,
    };
    if complete {
        let verdict = judge(profile, live, buffer);
        effects::set_out(live, verdict, &bus, quirk, buffer, room)
    } else if arrival.done % 2 == 1 {
        effects::tick(live, &bus, quirk, buffer, room)
    } else {
        Half {
            act: Action::Nothing,
            told: Told::Nothing,
        }
    }
}

// The parts of a device are lent one by one: a device stands in a crate above.
#[tactic(auto, unfolding(crate::specs::Events::data_come))]
fn data_come(
    profile: &Record,
    live: &mut Live,
    resumed: bool,
    arrival: &Arrival,
    packet: &[u8],
    buffer: &mut [u8; BUFFER],
    book: &[u8],
    room: &mut [u8],
) -> Handled
    ensures { Came result live.new buffer.new room.new (data_come profile.now resumed arrival.now packet.now book.now live.old buffer.old) room.old }
{
    let heard = arrive(&mut live.pipe, arrival, packet, buffer);
    let half = follow(profile, live, heard.complete, arrival, buffer, book, room);
    Handled {
        resumed,
        first: heard.told,
        act: half.act,
        second: half.told,
        answer: true,
    }
}

fn told_plainly(resumed: bool, act: Action) -> Handled
    ensures { result ≡ told_plainly resumed act }
{
    Handled {
        resumed,
        first: Told::Nothing,
        act,
        second: Told::Nothing,
        answer: false,
    }
}

// The state from before a suspend is restored, and none is remembered from then on.
fn wake(live: &mut Live)
    ensures { live.new ≡ woken live.old }
{
    if live.kept.state == State::Suspend {
        live.kept.state = live.before;
    }
    live.before = State::Default;
}

// A reset keeps the self-powered flag alone.
fn restart(live: &mut Live)
    ensures { live.new ≡ restarted live.old }
{
    let powered = live.kept.powered;
    *live = Live::fresh(live.book, live.built);
    live.kept.powered = powered;
}

// A function of its own: with the test written in `handle` the proof did not close.
fn ignored(asleep: bool, event: &Event) -> bool
    ensures { result ≡ asleep && dull event.now }
{
    asleep && matches!(event, Event::Nothing | Event::Suspend)
}

/// One event. In Suspend, `Nothing` and `Suspend` do nothing; any other event first resumes and restores the state
/// (USB 2.0 section 9.1.1.6).
#[tactic(auto, unfolding(crate::specs::Events::handled, crate::specs::Events::happens, common::specs::Bytes::front))]
pub fn handle(
    event: Event,
    profile: &Record,
    live: &mut Live,
    packet: &[u8],
    buffer: &mut [u8; BUFFER],
    book: &[u8],
    room: &mut [u8],
) -> Handled
    ensures { Came result live.new buffer.new room.new (handled event profile.now packet.now book.now live.old buffer.old) room.old }
{
    let asleep = live.kept.state == State::Suspend;
    if ignored(asleep, &event) {
        return told_plainly(false, Action::Nothing);
    }
    wake(live);
    match event {
        Event::Nothing | Event::Resume => told_plainly(asleep, Action::Nothing),
        Event::Reset => {
            buffer.fill(0);
            restart(live);
            told_plainly(asleep, Action::Reset)
        }
        Event::Suspend => {
            live.before = live.kept.state;
            live.kept.state = State::Suspend;
            told_plainly(asleep, Action::Suspend)
        }
        Event::Data(arrival) => data_come(
            profile, live, asleep, &arrival, packet, buffer, book, room,
        ),
    }
}
