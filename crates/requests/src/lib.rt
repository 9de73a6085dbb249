//! Chapter 9 of USB 2.0: what a request means. A complete request is decided by what outlives a SETUP, by the halts of endpoint 0
//! and by the book's length alone; what a decision says is then written from the record.
#![tactic(auto)]

ghost use Rattle.std.specs.Prelude.{◌≡◌, ◌+◌, ◌<◌};
ghost use Rattle.requests.specs.Requests.{endpoint_of, halt_place, with_halt, halted, status_bits, configured_byte, tiles_from, deconfigured, decided};

use common::Coded;
use control::{BusAddress, EndpointAddress, Request, TileNumber};
use control_pipe::Pipe;

/// The bytes of a record of the tile book.
pub const TILE: u32 = 16;

/// The code of the vendor's tile read.
pub const READ_TILES: u8 = 1;

/// The state of the device (USB 2.0 section 9.1.1). The discriminants are its codes in bytes.
#[derive(Clone, Copy, Debug, PartialEq, Eq)]
pub enum State {
    Default = 0,
    Addressed = 1,
    Configured = 2,
    Suspend = 3,
}

impl Coded for State {
    ghost use Rattle.requests.specs.Codes.{state_code, state_of, state_back};

    ghost code = { state_code };

    ghost named = { state_of };

    ghost back = { state_back };

    fn code(self) -> u8 {
        self as u8
    }

    fn of_code(n: u8) -> State {
        match n {
            0 => State::Default,
            1 => State::Addressed,
            2 => State::Configured,
            _ => State::Suspend,
        }
    }
}

/// What outlives an accepted SETUP. `halts` has endpoint n OUT at bit n and n IN at bit 16 + n, for 1 to 15.
#[derive(Clone, Copy, Debug, PartialEq, Eq)]
pub struct Kept {
    pub state: State,
    pub wakeup: bool,
    pub powered: bool,
    pub halts: u32,
}

/// What an accepted OUT request does.
// `Nothing` is a case: a request that changes nothing is accepted all the same.
#[derive(Clone, Copy, Debug, PartialEq, Eq)]
pub enum Effect {
    Nothing,
    Wakeup(bool),
    Halt(EndpointAddress),
    Unhalt(EndpointAddress),
    Address(BusAddress),
    Turn(State),
}

/// How a request is answered: with a status of two bytes, a byte, a descriptor, or the book from a byte on; or accepted.
#[derive(Clone, Copy, Debug, PartialEq, Eq)]
pub enum Decision {
    Status(u8),
    Byte(u8),
    Describe,
    Tiles(u32),
    Accept(Effect),
}

// The endpoint that an index names. (Fields of bits by quotient and remainder, as the definition has them.)
fn endpoint_of(index: u16) -> EndpointAddress
    ensures { result ≡ endpoint_of index }
{
    let low = (index % 256) as u8;
    EndpointAddress(low / 128 * 128 + low % 16)
}

// Where a halt is kept, by quotient and remainder likewise.
fn halt_place(e: EndpointAddress) -> u32
    ensures place { result ≡ halt_place e }
    ensures small { result < 32 }
{
    (e.0 / 128 * 16 + e.0 % 16) as u32
}

impl Kept {
    /// The halt of an endpoint 1 to 15 is set or ended.
    pub fn set_halt(&mut self, e: EndpointAddress, on: bool)
        ensures { self.new ≡ with_halt e on self.old }
    {
        let bit = 1u32 << halt_place(e);
        if on {
            self.halts |= bit;
        } else {
            self.halts &= !bit;
        }
    }

    // GET_STATUS of the device: bit 0 self-powered, bit 1 remote wakeup.
    fn status(&self) -> u8
        ensures { result ≡ status_bits self.now.powered 1 + status_bits self.now.wakeup 2 }
    {
        self.powered as u8 + 2 * (self.wakeup as u8)
    }

    // GET_CONFIGURATION: 1 if the device is configured.
    fn configuration(&self) -> u8
        ensures { result ≡ configured_byte self.now.state }
    {
        matches!(self.state, State::Configured) as u8
    }
}

// The halts of endpoint 0 are the pipe's stalls.
fn halted(kept: &Kept, pipe: &Pipe, e: EndpointAddress) -> bool
    ensures { result ≡ halted kept.now pipe.now e }
{
    match (e.0 % 16, e.0 < 128) {
        (0, true) => pipe.stallout,
        (0, false) => pipe.stallin,
        _ => (kept.halts >> halt_place(e)) % 2 == 1,
    }
}

// The book from a record of it on, if it has that record.
fn tiles_from(first: TileNumber, book: u32) -> Option<Decision>
    ensures { result ≡ tiles_from first book }
{
    let number = first.0 as u32;
    if number < book / TILE {
        Some(Decision::Tiles(number * TILE))
    } else {
        None
    }
}

// The default state has no configuration to leave.
fn deconfigured(state: State) -> Effect
    ensures { result ≡ deconfigured state }
{
    match state {
        State::Default => Effect::Nothing,
        State::Addressed | State::Configured | State::Suspend => Effect::Turn(State::Addressed),
    }
}

/// How the pipe's request is answered, of a book of so many bytes: USB 2.0 section 9.4, and the vendor's tile read. `None`: both
/// directions of endpoint 0 stall.
#[tactic(auto, unfolding(crate::specs::Requests::decided))]
pub fn decide(kept: &Kept, pipe: &Pipe, book: u32) -> Option<Decision>
    ensures { result ≡ decided kept.now pipe.now book }
{
    use Decision::{Accept, Byte, Describe, Status};
    use Effect::{Address, Halt, Nothing, Turn, Unhalt, Wakeup};
    use control::Direction::{In, Out};
    use control::Recipient::{Device, Endpoint, Interface};
    use control::RequestType::{Standard, Vendor};
    let q = pipe.request;
    let e = endpoint_of(q.index);
    let wakeup = q.value == Request::FEATURE_DEVICE_REMOTE_WAKEUP;
    let halt = q.value == Request::FEATURE_ENDPOINT_HALT;
    match (q.direction, q.kind, q.recipient, q.request) {
        (In, Standard, Device, Request::GET_STATUS) => Some(Status(kept.status())),
        (In, Standard, Device, Request::GET_DESCRIPTOR) => Some(Describe),
        (In, Standard, Device, Request::GET_CONFIGURATION) => Some(Byte(kept.configuration())),
        (In, Standard, Interface, Request::GET_STATUS) => Some(Status(0)),
        (In, Standard, Interface, Request::GET_INTERFACE) if q.index <= 255 => Some(Byte(0)),
        (In, Standard, Endpoint, Request::GET_STATUS) => Some(Status(halted(kept, pipe, e) as u8)),
        (In, Vendor, Device, READ_TILES) if q.index == 0 => tiles_from(TileNumber(q.value), book),
        (Out, Standard, Device, Request::CLEAR_FEATURE) if wakeup => Some(Accept(Wakeup(false))),
        (Out, Standard, Device, Request::SET_FEATURE) if wakeup => Some(Accept(Wakeup(true))),
        (Out, Standard, Device, Request::SET_ADDRESS) if 1 <= q.value && q.value <= 127 => Some(
            Accept(Address(BusAddress(q.value as u8))),
        ),
        (Out, Standard, Device, Request::SET_CONFIGURATION) if q.value == 0 => Some(Accept(
            deconfigured(kept.state),
        )),
        (Out, Standard, Device, Request::SET_CONFIGURATION) if q.value == 1 => Some(Accept(Turn(
            State::Configured,
        ))),
        (Out, Standard, Interface, Request::SET_INTERFACE) if q.value == 0 && q.index <= 255 =>
            Some(Accept(Nothing)),
        (Out, Standard, Endpoint, Request::CLEAR_FEATURE) if halt => Some(Accept(Unhalt(e))),
        (Out, Standard, Endpoint, Request::SET_FEATURE) if halt => Some(Accept(Halt(e))),
        _ => None,
    }
}
