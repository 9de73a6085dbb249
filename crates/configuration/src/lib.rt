//! The configuration descriptor with its interfaces and their endpoints, written into a lent buffer at a position: a slice and a
//! number, over which the writer is thin.
#![tactic(auto)]

ghost use Rattle.std.specs.Prelude.{◌≡◌, true, ◌+◌, ◌≤◌, length, Some};
ghost use Rattle.common.specs.Bytes.{placed};
ghost use Rattle.plan.specs.Sizes.{interface_room, endpoint_room};
ghost use Rattle.limits.specs.Limits.{layout_fine, lowest};
ghost use Rattle.descriptor.specs.Writing.{Put, Wrote};
ghost use Rattle.configuration.specs.Configuration.{transfer_of, endpoint_bytes, interface_bytes, owned, joined, interface_set, interface_sets, head_bytes, configuration_bytes};
ghost use Rattle.configuration.specs.Adding.{Added};

use common::Refusal;
use descriptor::{Written, counted, word_bytes};
use plan::{Endpoint, Interface, Kind, Plan};
use record::Record;

/// How many bytes a configuration descriptor has without its interfaces.
pub const CONFIGURATION: usize = 9;

/// How many bytes an interface descriptor has without its endpoints.
pub const INTERFACE: usize = 9;

/// How many bytes an endpoint descriptor has.
pub const ENDPOINT: usize = 7;

/// The configuration descriptor with its interfaces and their endpoints (USB 2.0 sections 9.6.3, 9.6.5 and 9.6.6) at place
/// `at` of a lent buffer.
pub fn write(profile: &Record, buf: &mut [u8], at: usize) -> Written
    ensures { Wrote result buf.new (lowest profile.now) (Some (configuration_bytes profile.now.plan)) buf.old at }
{
    limits::check(profile)?;
    put_configuration(&profile.plan, buf, at)
}

fn put_configuration(plan: &Plan, buf: &mut [u8], at: usize) -> Written
    requires { layout_fine plan.now ≡ true }
    ensures { Put result buf.new (Some (configuration_bytes plan.now)) buf.old at }
{
    let interfaces = counted(&plan.interfaces.list, plan.interfaces.count);
    let endpoints = counted(&plan.endpoints.list, plan.endpoints.count);
    let total = CONFIGURATION + INTERFACE * interfaces.len() + ENDPOINT * endpoints.len();
    if !common::within(buf.len(), at, total) {
        return Err(Refusal::AnswerRoom);
    }
    let behind = append(&head_bytes(plan, total as u16), buf, at);
    put_interfaces(interfaces, endpoints, buf, behind);
    Ok(Some(total))
}

// Bytes that fit, and the place behind them.
fn append(bytes: &[u8], buf: &mut [u8], at: usize) -> usize
    requires { at + length bytes.now ≤ length buf.old }
    ensures { Added result buf.new bytes.now buf.old at }
{
    let n = bytes.len();
    common::put(bytes, 0, n, buf, at);
    at + n
}

fn head_bytes(plan: &Plan, total: u16) -> [u8; CONFIGURATION]
    ensures { result ≡ head_bytes plan.now total }
{
    let basics = &plan.basics;
    let [low, high] = word_bytes(total);
    [
        CONFIGURATION as u8,
        2,
        low,
        high,
        plan.interfaces.count,
        1,
        0,
        128 + 64 * (basics.powered as u8) + 32 * (basics.wakeup as u8),
        basics.power,
    ]
}

// The interfaces, each followed by its own of the endpoints.
fn put_interfaces(interfaces: &[Interface], endpoints: &[Endpoint], buf: &mut [u8], at: usize)
    requires few { (length interfaces.now ≤ interface_room) × (length endpoints.now ≤ endpoint_room) }
    requires room { at + length (interface_sets endpoints.now 0 interfaces.now) ≤ length buf.old }
    ensures { buf.new ≡ placed buf.old at (interface_sets endpoints.now 0 interfaces.now) }
{
    let mut place = at;
    for (number, interface) in interfaces.iter().enumerate() {
        place = put_interface(interface, number as u8, endpoints, buf, place);
    }
}

fn put_interface(
    interface: &Interface,
    number: u8,
    endpoints: &[Endpoint],
    buf: &mut [u8],
    at: usize,
) -> usize
    requires few { length endpoints.now ≤ endpoint_room }
    requires room { at + length (interface_set endpoints.now number interface.now) ≤ length buf.old }
    ensures { Added result buf.new (interface_set endpoints.now number interface.now) buf.old at }
{
    let owned = count_owned(endpoints, number);
    let behind = append(&interface_bytes(interface, number, owned as u8), buf, at);
    put_endpoints(endpoints, number, buf, behind)
}

fn interface_bytes(interface: &Interface, number: u8, endpoints: u8) -> [u8; INTERFACE]
    ensures { result ≡ interface_bytes number endpoints interface.now }
{
    [
        INTERFACE as u8,
        4,
        number,
        0,
        endpoints,
        interface.class,
        interface.subclass,
        interface.protocol,
        0,
    ]
}

// How many of the endpoints an interface has.
fn count_owned(endpoints: &[Endpoint], number: u8) -> usize
    ensures { result ≡ length (owned number endpoints.now) }
{
    endpoints.iter().filter(|e| e.interface == number).count()
}

// The endpoints of an interface, in record order.
fn put_endpoints(endpoints: &[Endpoint], number: u8, buf: &mut [u8], at: usize) -> usize
    requires { at + length (joined (owned number endpoints.now)) ≤ length buf.old }
    ensures { Added result buf.new (joined (owned number endpoints.now)) buf.old at }
{
    let mut place = at;
    for e in endpoints {
        if e.interface == number {
            place = append(&endpoint_bytes(e), buf, place);
        }
    }
    place
}

fn endpoint_bytes(endpoint: &Endpoint) -> [u8; ENDPOINT]
    ensures { result ≡ endpoint_bytes endpoint.now }
{
    [
        ENDPOINT as u8,
        5,
        endpoint.address.0,
        transfer_of(endpoint.kind),
        endpoint.size,
        0,
        endpoint.interval,
    ]
}

// Table 9-13, bmAttributes.
fn transfer_of(kind: Kind) -> u8
    ensures { result ≡ transfer_of kind }
{
    match kind {
        Kind::Bulk => 2,
        Kind::Interrupt => 3,
    }
}
