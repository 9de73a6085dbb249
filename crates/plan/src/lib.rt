//! The plan of a device: what its record says apart from languages and strings.
//!
//! A person fills a plan with its methods. What has no place spoils a count, so that refusal 2 tells of it: nothing is dropped
//! in silence. What lies beyond a count is not looked at.
#![tactic(auto)]

ghost use Rattle.std.specs.Prelude.{◌≡◌, ◌≤◌};
ghost use Rattle.plan.specs.Sizes.{spoilt};
ghost use Rattle.plan.specs.Planning.{added, bare, with_interface, with_endpoint};

use common::Coded;
use control::EndpointAddress;

/// The most interfaces of a plan.
pub const INTERFACES: usize = 4;

/// The most endpoints of a plan, endpoint 0 not counted.
pub const ENDPOINTS: usize = 8;

/// A count or a length that no good record has.
// A number and no error: filling a record never fails, and what a state holds is read back as it was.
pub const SPOILT: u8 = 255;

/// What a plan says apart from its lists.
#[derive(Clone, Copy, Debug, PartialEq, Eq)]
pub struct Basics {
    /// Endpoint 0's packet size in bytes: 8, 16, 32 or 64 in a good record.
    pub packet: u8,
    pub class: u8,
    pub subclass: u8,
    pub protocol: u8,
    pub vendor: u16,
    pub product: u16,
    /// The release of the device in binary-coded decimal (`bcdDevice`).
    pub release: u16,
    /// The power that the device draws, in units of 2 mA.
    pub power: u8,
    /// Whether the device may be self-powered.
    pub powered: bool,
    /// Whether the device may wake the host.
    pub wakeup: bool,
    /// Whether an address is set as soon as its request is decided.
    pub quirk: bool,
}

/// An interface; its number is how many stand before it.
#[derive(Clone, Copy, Debug, PartialEq, Eq)]
pub struct Interface {
    pub class: u8,
    pub subclass: u8,
    pub protocol: u8,
}

/// How an endpoint transfers (USB 2.0 sections 5.7 and 5.8).
#[derive(Clone, Copy, Debug, PartialEq, Eq)]
pub enum Kind {
    Bulk = 0,
    Interrupt = 1,
}

/// An endpoint of an interface.
#[derive(Clone, Copy, Debug, PartialEq, Eq)]
pub struct Endpoint {
    pub address: EndpointAddress,
    pub kind: Kind,
    /// The most bytes of a packet.
    pub size: u8,
    /// `bInterval` (USB 2.0, table 9-13).
    pub interval: u8,
    /// The number of the interface that it belongs to.
    pub interface: u8,
}

/// The first `count` of the list are what it holds.
// A count beside the list: any count is a record, whose bytes are written back equal, and refusal 2 names one beyond the list.
#[derive(Clone, Copy, Debug, PartialEq, Eq)]
pub struct Listed<T, const ROOM: usize> {
    pub count: u8,
    pub list: [T; ROOM],
}

/// The interfaces of a plan, numbered from 0 in this order.
pub type Interfaces = Listed<Interface, INTERFACES>;

/// The endpoints of a plan, in record order.
pub type Endpoints = Listed<Endpoint, ENDPOINTS>;

/// The plan of a device.
#[derive(Clone, Copy, Debug, PartialEq, Eq)]
pub struct Plan {
    pub basics: Basics,
    pub interfaces: Interfaces,
    pub endpoints: Endpoints,
    /// How many languages a record adds.
    pub languages: u8,
}

impl Coded for Kind {
    ghost use Rattle.plan.specs.Codes.{kind_code, kind_of, kind_back};

    ghost code = { kind_code };

    ghost named = { kind_of };

    ghost back = { kind_back };

    fn code(self) -> u8 {
        self as u8
    }

    fn of_code(n: u8) -> Kind {
        match n {
            0 => Kind::Bulk,
            _ => Kind::Interrupt,
        }
    }
}

impl<T: Copy, const ROOM: usize> Listed<T, ROOM> {
    // The next place takes x and is counted; beyond the last place the count is spoilt.
    fn add(&mut self, x: T)
        requires { ROOM ≤ spoilt }
        ensures { self.new ≡ added x self.old }
    {
        let at = self.count as usize;
        if at < ROOM {
            self.list[at] = x;
            self.count += 1;
        } else {
            self.count = SPOILT;
        }
    }
}

impl Plan {
    /// A plan with no interface and no endpoint.
    pub fn new(basics: Basics) -> Plan
        ensures { result ≡ bare basics }
    {
        let interface = Interface {
            class: 0,
            subclass: 0,
            protocol: 0,
        };
        let endpoint = Endpoint {
            address: EndpointAddress(0),
            kind: Kind::Bulk,
            size: 0,
            interval: 0,
            interface: 0,
        };
        Plan {
            basics,
            interfaces: Interfaces {
                count: 0,
                list: [interface; INTERFACES],
            },
            endpoints: Endpoints {
                count: 0,
                list: [endpoint; ENDPOINTS],
            },
            languages: 0,
        }
    }

    /// The plan with the next interface; its number is how many were there before it.
    pub fn with_interface(mut self, interface: Interface) -> Plan
        ensures { result ≡ with_interface interface self }
    {
        self.interfaces.add(interface);
        self
    }

    /// The plan with the next endpoint, in record order.
    pub fn with_endpoint(mut self, endpoint: Endpoint) -> Plan
        ensures { result ≡ with_endpoint endpoint self }
    {
        self.endpoints.add(endpoint);
        self
    }
}
