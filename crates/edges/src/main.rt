//! A record at every limit: one of its numbers runs, and where the refusal becomes another, the number and the refusal are told.
//! What it prints is held to the file stdout, which was written from document 01.
#![tactic(auto)]

use control::EndpointAddress;
use plan::{Basics, Endpoint, Interface, Kind, Plan};
use record::{Name, Record};
use std::io;

// The numbers of a case. A step leads from an endpoint's address, or from a language, to the next.
#[derive(Clone, Copy)]
struct Case {
    packet: u8,
    power: u8,
    interfaces: u8,
    endpoints: u8,
    address: u8,
    size: u8,
    owner: u8,
    languages: u8,
    step: u8,
    units: u8,
}

// One endpoint, one language with a string of one unit: nothing refuses it.
const GOOD: Case = Case {
    packet: 8,
    power: 50,
    interfaces: 1,
    endpoints: 1,
    address: 0x81,
    size: 64,
    owner: 0,
    languages: 1,
    step: 1,
    units: 1,
};

// The same with no string.
const MUTE: Case = Case { units: 0, ..GOOD };

// The same with a step of 0.
const STILL: Case = Case {
    address: 0x01,
    step: 0,
    ..GOOD
};

// All three rules broken.
const BAD: Case = Case {
    packet: 7,
    power: 251,
    interfaces: 0,
    endpoints: 0,
    languages: 0,
    ..GOOD
};

fn bare(packet: u8, power: u8) -> Plan {
    Plan::new(Basics {
        packet,
        class: 0,
        subclass: 0,
        protocol: 0,
        vendor: 0x1234,
        product: 0x0138,
        release: 0x0100,
        power,
        powered: false,
        wakeup: false,
        quirk: false,
    })
}

fn planned(case: &Case) -> Plan {
    let mut plan = bare(case.packet, case.power);
    for _ in 0..case.interfaces {
        plan = plan.with_interface(Interface {
            class: 0xff,
            subclass: 0,
            protocol: 0,
        });
    }
    let mut address = case.address;
    for _ in 0..case.endpoints {
        plan = plan.with_endpoint(Endpoint {
            address: EndpointAddress(address),
            kind: Kind::Bulk,
            size: case.size,
            interval: 0,
            interface: case.owner,
        });
        address = address % 128 + case.step % 128;
    }
    plan
}

// With a string of the language that was added last; of 0 units, none.
fn spoken(case: &Case) -> Record {
    let mut record = Record::new(planned(case));
    let mut id: u16 = 0;
    for _ in 0..case.languages {
        record = record.with_language(id);
        id = id % 256 + case.step as u16;
    }
    match [0x20u16; 32].get(..case.units as usize) {
        Some(text) if case.units != 0 => record.with_string(Name::Serial, text),
        _ => record,
    }
}

// The number that refuses the record of a case; 0 for none, as the stored output has it.
fn number(case: &Case) -> u8 {
    match limits::check(&spoken(case)) {
        Ok(()) => 0,
        Err(why) => why.number(),
    }
}

// A number of a case runs from 0 to `end`: where an answer is another than the one before, it is told.
fn row<R: Print, F: Fn(u8) -> Case>(rt: &R, name: &str, end: u8, case: F) -> io::Result<()>
    requires { F.IsAlwaysCallable case }
{
    let mut last = None;
    for n in 0..=u16::from(end) {
        let answer = number(&case(n as u8));
        if last != Some(answer) {
            print!(rt; "{n}:{answer} ")?;
            last = Some(answer);
        }
    }
    println!(rt; "{name}")
}

// Refusals 1 and 2.
fn plans<R: Print>(rt: &R) -> io::Result<()> {
    row(rt, "packet sizes", 255, |n| Case { packet: n, ..GOOD })?;
    row(rt, "powers", 255, |n| Case { power: n, ..GOOD })?;
    row(
        rt,
        "interfaces",
        5,
        |n| Case {
            interfaces: n,
            ..MUTE
        },
    )?;
    row(
        rt,
        "endpoints",
        9,
        |n| Case {
            endpoints: n,
            ..GOOD
        },
    )?;
    row(
        rt,
        "packet sizes, all rules broken",
        255,
        |n| Case { packet: n, ..BAD },
    )
}

fn endpoints<R: Print>(rt: &R) -> io::Result<()> {
    row(
        rt,
        "endpoint addresses",
        255,
        |n| Case { address: n, ..GOOD },
    )?;
    row(rt, "endpoint sizes", 255, |n| Case { size: n, ..GOOD })?;
    row(
        rt,
        "interfaces of an endpoint",
        255,
        |n| Case { owner: n, ..GOOD },
    )?;
    row(
        rt,
        "endpoints of one address",
        2,
        |n| Case {
            endpoints: n,
            ..STILL
        },
    )
}

// Refusal 3.
fn languages<R: Print>(rt: &R) -> io::Result<()> {
    row(
        rt,
        "languages",
        5,
        |n| Case {
            languages: n,
            ..MUTE
        },
    )?;
    row(
        rt,
        "languages, one with a string",
        5,
        |n| Case {
            languages: n,
            ..GOOD
        },
    )?;
    row(
        rt,
        "languages of one number",
        2,
        |n| Case {
            languages: n,
            ..STILL
        },
    )?;
    row(rt, "units of a string", 32, |n| Case { units: n, ..GOOD })
}

fn main(rt: HostRuntime) -> io::Result<()> {
    plans(&rt)?;
    endpoints(&rt)?;
    languages(&rt)
}
