//! The mast's device for programs in C and Rust: include/mast.h declares these functions, and the crate `link_c` exports them. A caller
//! holds the device as bytes, and lends them, the book, the events and the room to each call. Any bytes get an answer.
#![tactic(auto)]

ghost use Rattle.std.specs.Prelude.{◌≡◌, ◌+◌, ◌*◌, ◌^◌, ◌≤◌, cond, Ok, Err, length};
ghost use Rattle.common.specs.Refusals.{number_of, refusal, unless};
ghost use Rattle.device.specs.Device.{handed_of};
ghost use Rattle.stream.specs.Stream.{stop_number, ran_of};
ghost use Rattle.state.specs.State.{state_size, device_of, state_coded};
ghost use Rattle.link.specs.Link.{Building, Running, Handing, Setting, answer_of, sooner, built_number, built_state, running, ran_state, ran_trace, data_room, flag_number, flag_state};

use common::Refusal;
use device::Device;
use record_bytes::RECORD;
use state::{Parts, STATE};
use stream::Ran;

// The number of what stops a call, or 0, as the C interface has it.
fn number(stop: Option<Refusal>) -> u8
    ensures { result ≡ stop_number stop }
{
    match stop {
        Some(why) => why.number(),
        None => 0,
    }
}

// A count and the number of a refusal in one answer, as the C interface has them.
fn answer(count: usize, stop: Option<Refusal>) -> usize
    requires { 16 * count + 256 ≤ 2 ^ 64 }
    ensures { result ≡ answer_of count (stop_number stop) }
{
    16 * count + number(stop) as usize
}

/// How many bytes a state has.
pub fn mast_size() -> usize
    ensures { result ≡ state_size }
{
    STATE
}

// A flag or a kind that is no code breaks rule 2: its number stands before what the rules gave of the rest, but for 1.
fn sooner(coded: bool, why: Refusal) -> Refusal
    ensures { result ≡ refusal (sooner coded (number_of why)) }
{
    if coded {
        return why;
    }
    match why {
        Refusal::PacketSize => Refusal::PacketSize,
        _ => Refusal::Layout,
    }
}

fn build(profile: &[u8], book: usize, state: &mut [u8]) -> Result<(), Refusal>
    ensures number { result ≡ unless (built_number profile.now book state.old) tt }
    ensures state { state.new ≡ built_state profile.now book state.old }
{
    let Ok(bytes) = <&[u8; RECORD]>::try_from(profile) else {
        return Err(Refusal::PacketSize);
    };
    let coded = record_bytes::fine(bytes);
    match Device::build(record_bytes::read(bytes), book) {
        Ok(device) if coded => state::write(&device, state),
        Ok(_) => Err(Refusal::Layout),
        Err(unbuilt) => Err(sooner(coded, unbuilt.refusal)),
    }
}

/// A state from a record and the length of a book: refusals 1 to 4, and 9 where the state has another length.
pub fn mast_build(profile: &[u8], book: usize, state: &mut [u8]) -> u8
    ensures { Building result state.new profile.now book state.old }
{
    number(build(profile, book, state).err())
}

fn run(state: &mut [u8], book: &[u8], events: &[u8], trace: &mut [u8]) -> Result<Ran, Refusal>
    ensures ran { result ≡ cond (state_coded state.old) (Ok (ran_of (running state.old book.now events.now trace.old))) (Err (refusal 9)) }
    ensures state { state.new ≡ ran_state state.old book.now events.now trace.old }
    ensures trace { trace.new ≡ ran_trace state.old book.now events.now trace.old }
{
    // Made here from its parts: a device that comes in a Result (`state::read`) is copied twice more.
    let parts = Parts::of(state).ok_or(Refusal::BadState)?;
    let mut device = parts.device();
    let ran = stream::run(&mut device, book, events, trace);
    state::keep(&device.live, &device.buffer, state);
    Ok(ran)
}

/// A run of the device through event records: 16 times how many it took, and the number that stopped it.
pub fn mast_run(state: &mut [u8], book: &[u8], events: &[u8], trace: &mut [u8]) -> usize
    ensures { Running result state.new trace.new state.old book.now events.now trace.old }
{
    match run(state, book, events, trace) {
        Ok(ran) => answer(ran.count, ran.stop),
        Err(why) => answer(0, Some(why)),
    }
}

fn data(state: &[u8], room: &mut [u8]) -> Result<usize, Refusal>
    ensures count { result ≡ cond (state_coded state.now) (handed_of (device_of state.now) (length room.old)) (Err (refusal 9)) }
    ensures room { room.new ≡ data_room state.now room.old }
{
    let parts = Parts::of(state).ok_or(Refusal::BadState)?;
    let profile = record_bytes::read(parts.record);
    let live = live_bytes::read(parts.live);
    // a copy: straight from the state to the room, the archive would ask its host for `memmove`
    let buffer = *parts.buffer;
    device::hand_out(&profile, &live, &buffer, room)
}

/// The OUT data goes to the front of the room: 16 times how many bytes, and the number of the refusal.
pub fn mast_data(state: &[u8], room: &mut [u8]) -> usize
    ensures { Handing result room.new state.now room.old }
{
    match data(state, room) {
        Ok(count) => answer(count, None),
        Err(why) => answer(0, Some(why)),
    }
}

fn set_self_powered(state: &mut [u8], on: bool) -> Result<(), Refusal>
    ensures number { result ≡ unless (flag_number state.old) tt }
    ensures state { state.new ≡ flag_state state.old on }
{
    let parts = Parts::of(state).ok_or(Refusal::BadState)?;
    let profile = record_bytes::read(parts.record);
    let mut live = live_bytes::read(parts.live);
    live.set_self_powered(&profile, on)?;
    let buffer = *parts.buffer;
    state::keep(&live, &buffer, state);
    Ok(())
}

/// Whether the device is self-powered now.
pub fn mast_set_self_powered(state: &mut [u8], on: bool) -> u8
    ensures { Setting result state.new state.old on }
{
    number(set_self_powered(state, on).err())
}
