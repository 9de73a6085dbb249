//! The device of field notes 4 to 6, which the programs drive: its record, as the table of the notes has it.
#![tactic(auto)]

ghost use Rattle.std.specs.Prelude.{◌≡◌};
ghost use Rattle.notes.specs.Notes.{sized, pan};

use control::EndpointAddress;
use plan::{Basics, Endpoint, Interface, Kind, Plan};
use record::{Name, Record};

/// The packet size of endpoint 0 in the notes, in bytes.
pub const PACKET: u8 = 8;

/// Vendor 1234h, product 0138h, 100 mA; one interface of class FF with endpoint 81h, bulk, 64 bytes; language 0409h with "Pan"
/// for strings 1 and 2.
pub fn noted() -> Record
    ensures { result ≡ pan }
{
    sized(PACKET)
}

/// The same record with another packet size of endpoint 0, in bytes.
pub fn sized(packet: u8) -> Record
    ensures { result ≡ sized packet }
{
    let basics = Basics {
        packet,
        class: 0,
        subclass: 0,
        protocol: 0,
        vendor: 0x1234,
        product: 0x0138,
        release: 0x0100,
        power: 50,
        powered: false,
        wakeup: false,
        quirk: false,
    };
    let interface = Interface {
        class: 0xff,
        subclass: 0,
        protocol: 0,
    };
    let endpoint = Endpoint {
        address: EndpointAddress(0x81),
        kind: Kind::Bulk,
        size: 64,
        interval: 0,
        interface: 0,
    };
    let text = [0x50u16, 0x61, 0x6e];
    let plan = Plan::new(basics)
        .with_interface(interface)
        .with_endpoint(endpoint);
    Record::new(plan)
        .with_language(0x0409)
        .with_string(Name::Manufacturer, &text)
        .with_string(Name::Product, &text)
}
