//! The device changed in place: one thin poll around the step by value, for an owner who holds a device and lends it.
#![tactic(auto)]

ghost use Rattle.poll.specs.Poll.{Polling};

use common::Refusal;
use device::{Device, Polled, Stepped};
use events::Event;

/// One event of the bus: the device, what is said and the room are then those of its step.
///
/// # Errors
///
/// Those of `Device::step`, which leave the device and the room as they were.
pub fn poll(
    device: &mut Device,
    book: &[u8],
    event: Event,
    packet: &[u8],
    room: &mut [u8],
) -> Result<Polled, Refusal>
    ensures { Polling result device.new room.new device.old book.now event packet.now room.old }
{
    let Stepped { device: next, said } = device.step(book, event, packet, room);
    *device = next;
    said
}

/// A device by value, lent to `poll` and taken back.
pub fn lend(
    mut device: Device,
    book: &[u8],
    event: Event,
    packet: &[u8],
    room: &mut [u8],
) -> Stepped
    ensures { Polling result.said result.device room.new device book.now event packet.now room.old }
{
    let said = poll(&mut device, book, event, packet, room);
    Stepped { device, said }
}
