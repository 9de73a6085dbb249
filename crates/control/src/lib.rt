//! A control request read from a SETUP packet, and the three kinds of number that a request can name.
#![tactic(auto)]

ghost use Rattle.std.specs.Prelude.{◌≡◌, ◌+◌, ◌*◌, length};
ghost use Rattle.control.specs.Setup.{direction_of, type_of, recipient_of, parsed, type_index_of};

use common::{Coded, Refusal};

/// The address of a device on the bus.
#[derive(Clone, Copy, Debug, PartialEq, Eq)]
pub struct BusAddress(pub u8);

/// An endpoint's number, with bit 7 set for IN.
#[derive(Clone, Copy, Debug, PartialEq, Eq)]
pub struct EndpointAddress(pub u8);

/// The place of a record in the tile book.
#[derive(Clone, Copy, Debug, PartialEq, Eq)]
pub struct TileNumber(pub u16);

/// Which way a transfer's data goes, as the host sees it.
#[derive(Clone, Copy, Debug, PartialEq, Eq)]
pub enum Direction {
    Out = 0,
    In = 1,
}

/// Who defines a request.
#[derive(Clone, Copy, Debug, PartialEq, Eq)]
pub enum RequestType {
    Standard = 0,
    Class = 1,
    Vendor = 2,
    Reserved = 3,
}

/// What a request is for.
#[derive(Clone, Copy, Debug, PartialEq, Eq)]
pub enum Recipient {
    Device = 0,
    Interface = 1,
    Endpoint = 2,
    Other = 3,
    Reserved = 4,
}

/// A control request: the fields of a SETUP packet (USB 2.0, table 9-2).
#[derive(Clone, Copy, Debug, PartialEq, Eq)]
pub struct Request {
    pub direction: Direction,
    pub kind: RequestType,
    pub recipient: Recipient,
    pub request: u8,
    pub value: u16,
    pub index: u16,
    pub length: u16,
}

/// What the value of a GET_DESCRIPTOR request names.
#[derive(Clone, Copy, Debug, PartialEq, Eq)]
pub struct TypeIndex {
    pub kind: u8,
    pub index: u8,
}

impl Coded for Direction {
    ghost use Rattle.control.specs.Codes.{direction_code, direction_of_code, direction_back};

    ghost code = { direction_code };

    ghost named = { direction_of_code };

    ghost back = { direction_back };

    fn code(self) -> u8 {
        self as u8
    }

    fn of_code(n: u8) -> Direction {
        match n {
            0 => Direction::Out,
            _ => Direction::In,
        }
    }
}

impl Coded for RequestType {
    ghost use Rattle.control.specs.Codes.{type_code, type_of_code, type_back};

    ghost code = { type_code };

    ghost named = { type_of_code };

    ghost back = { type_back };

    fn code(self) -> u8 {
        self as u8
    }

    fn of_code(n: u8) -> RequestType {
        match n {
            0 => RequestType::Standard,
            1 => RequestType::Class,
            2 => RequestType::Vendor,
            _ => RequestType::Reserved,
        }
    }
}

impl Coded for Recipient {
    ghost use Rattle.control.specs.Codes.{recipient_code, recipient_of_code, recipient_back};

    ghost code = { recipient_code };

    ghost named = { recipient_of_code };

    ghost back = { recipient_back };

    fn code(self) -> u8 {
        self as u8
    }

    fn of_code(n: u8) -> Recipient {
        match n {
            0 => Recipient::Device,
            1 => Recipient::Interface,
            2 => Recipient::Endpoint,
            3 => Recipient::Other,
            _ => Recipient::Reserved,
        }
    }
}

/// The word of two bytes, the low one first.
// Its clause is in the words of the definitions, which `from_le_bytes` has not.
pub fn word(first: u8, second: u8) -> u16
    ensures { result ≡ first + 256 * second }
{
    u16::from_le_bytes([first, second])
}

// bmRequestType, bit 7.
fn direction_of(b: u8) -> Direction
    ensures { result ≡ direction_of b }
{
    Direction::of_code(b >> 7)
}

// bmRequestType, bits 6 to 5.
fn type_of(b: u8) -> RequestType
    ensures { result ≡ type_of b }
{
    RequestType::of_code(b >> 5 & 3)
}

// bmRequestType, bits 4 to 0.
fn recipient_of(b: u8) -> Recipient
    ensures { result ≡ recipient_of b }
{
    Recipient::of_code(b & 0x1f)
}

impl Request {
    /// USB 2.0 section 9.4.5.
    pub const GET_STATUS: u8 = 0;

    /// USB 2.0 section 9.4.1.
    pub const CLEAR_FEATURE: u8 = 1;

    /// USB 2.0 section 9.4.9.
    pub const SET_FEATURE: u8 = 3;

    /// USB 2.0 section 9.4.6.
    pub const SET_ADDRESS: u8 = 5;

    /// USB 2.0 section 9.4.3.
    pub const GET_DESCRIPTOR: u8 = 6;

    /// USB 2.0 section 9.4.8.
    pub const SET_DESCRIPTOR: u8 = 7;

    /// USB 2.0 section 9.4.2.
    pub const GET_CONFIGURATION: u8 = 8;

    /// USB 2.0 section 9.4.7.
    pub const SET_CONFIGURATION: u8 = 9;

    /// USB 2.0 section 9.4.4.
    pub const GET_INTERFACE: u8 = 10;

    /// USB 2.0 section 9.4.10.
    pub const SET_INTERFACE: u8 = 11;

    /// USB 2.0 section 9.4.11.
    pub const SYNCH_FRAME: u8 = 12;

    /// The feature of an endpoint (USB 2.0, table 9-6).
    pub const FEATURE_ENDPOINT_HALT: u16 = 0;

    /// The feature of the device (USB 2.0, table 9-6).
    pub const FEATURE_DEVICE_REMOTE_WAKEUP: u16 = 1;

    /// The request that a SETUP packet carries: exactly eight bytes, else refusal 11.
    pub fn parse(packet: &[u8]) -> Result<Request, Refusal>
        ensures { result ≡ parsed packet.now }
    {
        let &[
            kind,
            request,
            value,
            value_high,
            index,
            index_high,
            length,
            length_high,
        ] = packet
        else {
            return Err(Refusal::BadSetup);
        };
        Ok(Request {
            direction: direction_of(kind),
            kind: type_of(kind),
            recipient: recipient_of(kind),
            request,
            value: word(value, value_high),
            index: word(index, index_high),
            length: word(length, length_high),
        })
    }

    /// The type and index of the descriptor that `value` names (USB 2.0, 9.4.3).
    pub fn descriptor_type_index(self) -> TypeIndex
        ensures { result ≡ type_index_of self }
    {
        let [kind, index] = self.value.to_be_bytes();
        TypeIndex { kind, index }
    }
}
