//! The lines that a stream of event records is told in: one for each event, and one where a record is bad.
#![tactic(auto)]

ghost use Rattle.std.specs.Prelude.{◌≡◌, ◌+◌, ◌*◌, ◌<◌, ◌≤◌, eqb, length, drop};
ghost use Rattle.records.specs.Sizes.{packet_room};
ghost use Rattle.stream.specs.Trace.{entry_room, top_room};
ghost use Rattle.stream.specs.Stream.{stop_number, run_of};
ghost use Rattle.lines.specs.Lines.{digit, hex_of, hexes, decimal, joined, letter_of, word_of, words_of};
ghost use Rattle.lines.specs.Entries.{Wrote, Printing, state_at, action_at, action_in, actions_in, entry_line, line_in, stop_line, lines_of, room_for, fitting, lines_for, line_room, bad_room};

use common::{Coded, Refusal};
use control::{BusAddress, EndpointAddress};
use device::Device;
use effects::Action;
use records::{EVENT, PACKET};
use requests::State;
use stream::{ENTRY, Ran, TOP};

// The most digits of a number.
const DIGITS: usize = 20;

// The longest word of an action: a space, a letter, a packet in hex.
const WORD: usize = 2 + 2 * PACKET;

/// The longest line: number, space and letter, five words, the end.
pub const LINE: usize = DIGITS + 2 + 5 * WORD + 1;

/// The longest line of a bad record: number, ` ! 10`, the end.
pub const BAD: usize = DIGITS + 6;

/// How many event records a run took, the bytes of their lines, and what stopped it before their end or the rooms'.
#[derive(Clone, Copy, Debug, PartialEq, Eq)]
pub struct Printed {
    pub count: usize,
    pub written: usize,
    pub stop: Option<Refusal>,
}

// Where lines are written: the room, and the place of the next byte. (The writer of descriptors is another: it appends what fits
// or nothing, and here the room is proved.)
#[derive(Drop)]
struct Writer<'a> {
    out: &'a mut [u8],
    at: usize,
}

// Hex and decimal by hand: std's formatting has no contract that names the bytes of a slice.
fn digit(d: u8) -> u8
    requires { d < 16 }
    ensures { result ≡ digit d }
{
    if d < 10 { 48 + d } else { 87 + d }
}

fn hex(b: u8) -> [u8; 2]
    ensures { result ≡ hex_of b }
{
    [digit(b / 16), digit(b % 16)]
}

// The letters of replay's format.
fn letter(state: State) -> u8
    ensures { result ≡ letter_of state }
{
    match state {
        State::Default => b'D',
        State::Addressed => b'A',
        State::Configured => b'C',
        State::Suspend => b'S',
    }
}

// The action of its code and argument in a trace entry, as `stream` writes them; a code that no run writes is no action. (A code
// that has an argument is no `Coded`.)
#[tactic(auto, unfolding(crate::specs::Entries::action_at))]
fn action_at(code: u8, x: u8) -> Action
    ensures { result ≡ action_at code x }
{
    match code {
        1 => Action::Resume,
        2 => Action::Suspend,
        3 => Action::Reset,
        4 => Action::UnstallOut,
        5 => Action::UnstallIn,
        6 => Action::StallOut,
        7 => Action::StallIn,
        8 => Action::Halt(EndpointAddress(x)),
        9 => Action::Unhalt(EndpointAddress(x)),
        10 => Action::Address(BusAddress(x)),
        11 => Action::Write(x),
        12 => Action::Refused(x),
        _ => Action::Nothing,
    }
}

// Whether a malformed or partial record stopped a run.
fn is_bad(stop: Option<Refusal>) -> bool
    ensures { result ≡ eqb (stop_number stop) 10 }
{
    matches!(stop, Some(Refusal::BadEvent))
}

// Each method needs room of its own, and that the borrow stays the same speaks of before and after: neither is an invariant. An
// entry is a slice of known length, a part of a trace that is cut by its index.
impl Writer<'_> {
    fn put(&mut self, bytes: &[u8])
        requires { self.old.at + length bytes.now ≤ length self.old.out.now }
        ensures wrote { Wrote self.new.at self.new.out.now bytes.now self.old.out.now self.old.at }
        ensures same_borrow { self.new.out.ghost_name ≡ self.old.out.ghost_name }
    {
        self.out[self.at..self.at + bytes.len()].copy_from_slice(bytes);
        self.at += bytes.len();
    }

    fn hexes(&mut self, bytes: &[u8])
        requires { self.old.at + 2 * length bytes.now ≤ length self.old.out.now }
        ensures wrote { Wrote self.new.at self.new.out.now (hexes bytes.now) self.old.out.now self.old.at }
        ensures same_borrow { self.new.out.ghost_name ≡ self.old.out.ghost_name }
    {
        for b in bytes {
            self.put(&hex(*b));
        }
    }

    // A space, a letter, and what is joined on in hex.
    fn joined(&mut self, letter: u8, bytes: &[u8])
        requires { (length bytes.now ≤ packet_room) × (self.old.at + 130 ≤ length self.old.out.now) }
        ensures wrote { Wrote self.new.at self.new.out.now (joined letter bytes.now) self.old.out.now self.old.at }
        ensures same_borrow { self.new.out.ghost_name ≡ self.old.out.ghost_name }
    {
        self.put(&[b' ', letter]);
        self.hexes(bytes);
    }

    // An action's word, with the space before it.
    #[tactic(auto, unfolding(crate::specs::Lines::word_of))]
    fn word(&mut self, action: Action, packet: &[u8])
        requires { (length packet.now ≤ packet_room) × (self.old.at + 130 ≤ length self.old.out.now) }
        ensures wrote { Wrote self.new.at self.new.out.now (word_of action packet.now) self.old.out.now self.old.at }
        ensures same_borrow { self.new.out.ghost_name ≡ self.old.out.ghost_name }
    {
        match action {
            Action::Nothing => {}
            Action::Resume => self.put(b" rs"),
            Action::Suspend => self.put(b" su"),
            Action::Reset => self.put(b" rb"),
            Action::UnstallOut => self.put(b" uo"),
            Action::UnstallIn => self.put(b" ui"),
            Action::StallOut => self.put(b" so"),
            Action::StallIn => self.put(b" si"),
            Action::Halt(e) => self.joined(b'h', &[e.0]),
            Action::Unhalt(e) => self.joined(b'c', &[e.0]),
            Action::Address(a) => self.joined(b'a', &[a.0]),
            Action::Write(n) => self.joined(b'w', &packet[..packet.len().min(n as usize)]),
            Action::Refused(n) => self.joined(b'x', &packet[..packet.len().min(n as usize)]),
        }
    }

    // The word of the action at a place of an entry.
    fn slot(&mut self, entry: &[u8], i: usize)
        requires { (length entry.now ≡ entry_room) × (i ≤ 16) × (self.old.at + 130 ≤ length self.old.out.now) }
        ensures wrote { Wrote self.new.at self.new.out.now (word_of (action_in entry.now i) (drop top_room entry.now)) self.old.out.now self.old.at }
        ensures same_borrow { self.new.out.ghost_name ≡ self.old.out.ghost_name }
    {
        self.word(action_at(entry[i], entry[i + 1]), &entry[TOP..]);
    }

    // One by one, as `Actions` has five fields.
    fn words(&mut self, entry: &[u8])
        requires { (length entry.now ≡ entry_room) × (self.old.at + 650 ≤ length self.old.out.now) }
        ensures wrote { Wrote self.new.at self.new.out.now (words_of (actions_in entry.now) (drop top_room entry.now)) self.old.out.now self.old.at }
        ensures same_borrow { self.new.out.ghost_name ≡ self.old.out.ghost_name }
    {
        self.slot(entry, 8);
        self.slot(entry, 10);
        self.slot(entry, 12);
        self.slot(entry, 14);
        self.slot(entry, 16);
    }

    // A number, its last two digits behind the others: half as many calls as one by one.
    fn decimal(&mut self, n: u64)
        requires { self.old.at + 20 ≤ length self.old.out.now }
        ensures wrote { Wrote self.new.at self.new.out.now (decimal n) self.old.out.now self.old.at }
        ensures same_borrow { self.new.out.ghost_name ≡ self.old.out.ghost_name }
    {
        if n < 10 {
            self.put(&[digit(n as u8)]);
            return;
        }
        if n < 100 {
            self.put(&[digit((n / 10) as u8), digit((n % 10) as u8)]);
            return;
        }
        self.decimal(n / 100);
        self.put(&[digit((n / 10 % 10) as u8), digit((n % 10) as u8)]);
    }

    // The line of an entry, where there is room for the longest.
    fn entry(&mut self, number: u64, entry: &[u8])
        requires { (length entry.now ≡ entry_room) × (self.old.at + line_room ≤ length self.old.out.now) }
        ensures wrote { Wrote self.new.at self.new.out.now (entry_line number entry.now) self.old.out.now self.old.at }
        ensures same_borrow { self.new.out.ghost_name ≡ self.old.out.ghost_name }
    {
        self.decimal(number);
        self.put(&[b' ', letter(State::of_code(entry[0]))]);
        self.words(entry);
        self.put(b"\n");
    }

    // The line of what stops a run: of a bad record alone.
    fn stopped(&mut self, number: u64, stop: Option<Refusal>)
        requires { self.old.at + bad_room ≤ length self.old.out.now }
        ensures wrote { Wrote self.new.at self.new.out.now (stop_line number (stop_number stop)) self.old.out.now self.old.at }
        ensures same_borrow { self.new.out.ghost_name ≡ self.old.out.ghost_name }
    {
        if is_bad(stop) {
            self.decimal(number);
            self.put(b" ! 10\n");
        }
    }
}

/// Writes the line of a trace entry (`stream::run`) from a place on, and returns the place behind it. An entry that has not 82
/// bytes, or less room than the longest line takes (`LINE`): nothing is written, and the place is returned.
pub fn line(number: u64, entry: &[u8], out: &mut [u8], at: usize) -> usize
    ensures { Wrote result out.new (line_in number entry.now out.old at) out.old at }
{
    if entry.len() != ENTRY || !common::within(out.len(), at, LINE) {
        return at;
    }
    let mut writer = Writer { out, at };
    writer.entry(number, entry);
    writer.at
}

// The lines of a run, from its trace: how many bytes they have.
fn all(number: u64, count: usize, stop: Option<Refusal>, trace: &[u8], out: &mut [u8]) -> usize
    requires { (entry_room * count ≤ length trace.now) × (line_room * count + bad_room ≤ length out.old) }
    ensures { Wrote result out.new (lines_of count number trace.now (stop_number stop)) out.old 0 }
{
    let mut n = number;
    let mut writer = Writer { out, at: 0 };
    // an index, as in `stream::run`, whose entries these are; the numbers wrap, which no range does
    for i in 0..count {
        writer.entry(n, &trace[ENTRY * i..ENTRY * i + ENTRY]);
        n = n.wrapping_add(1);
    }
    writer.stopped(n, stop);
    writer.at
}

fn room(out: usize) -> usize
    ensures { result ≡ room_for out }
{
    out.saturating_sub(BAD) / LINE
}

/// Steps the device through event records, as `stream::run` does with its trace, and writes a line for each to the front of `out`,
/// the first with this number; where a record is malformed or partial, its line with `! 10`, and it stops there. It takes
/// as many records as the trace and `out` have room for, each line counted as the longest (`LINE`, `BAD`).
pub fn print(
    device: &mut Device,
    book: &[u8],
    number: u64,
    events: &[u8],
    trace: &mut [u8],
    out: &mut [u8],
) -> Printed
    ensures { Printing result device.new trace.new out.new (run_of device.old book.now (fitting events.now out.old) trace.old) (lines_for number device.old book.now (fitting events.now out.old) trace.old) trace.old out.old }
{
    if out.len() < BAD {
        return Printed {
            count: 0,
            written: 0,
            stop: None,
        };
    }
    let n = (EVENT * room(out.len())).min(events.len());
    let Ran { count, stop } = stream::run(device, book, &events[..n], trace);
    let written = all(number, count, stop, trace, out);
    Printed {
        count,
        written,
        stop,
    }
}
