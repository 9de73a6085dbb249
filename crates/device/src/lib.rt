//! The mast's device: built from a record and the length of a book, then stepped through the events of the bus.
//!
//! Any call gets an answer. A refused call says its number and changes nothing.
#![tactic(auto)]

ghost use Rattle.std.specs.Prelude.{◌≡◌};
ghost use Rattle.common.specs.Refusals.{unless};
ghost use Rattle.device.specs.Device.{Stepping, Handing, Setting, of_parts, fresh, build_refusal, build_of, no_masks, masks_of, polled_of};

use actions::Actions;
use common::Refusal;
use control_pipe::BUFFER;
use events::{Event, Handled};
use live::Live;
use record::Record;

/// Everything that a device is. Any value is one: a call on a device that may not be used ([`Live::check`]) is refused with 9.
#[derive(Clone, Copy, Debug, PartialEq, Eq)]
pub struct Device {
    pub profile: Record,
    pub live: Live,
    pub buffer: [u8; BUFFER],
}

/// What came for endpoints 1 to 15: a SETUP, an OUT packet without a SETUP, an IN-complete. Bit n is endpoint n, bit 0 is clear.
#[derive(Clone, Copy, Debug, PartialEq, Eq)]
pub struct Masks {
    pub setup: u16,
    pub out: u16,
    pub done: u16,
}

/// What a step that no number refuses says. `answer` is true for data alone.
#[derive(Clone, Copy, Debug, PartialEq, Eq)]
pub struct Polled {
    pub answer: bool,
    pub masks: Masks,
    pub actions: Actions,
}

/// The device after a step, and what the step says. A refused step leaves the device as it was.
#[derive(Clone, Copy, Debug, PartialEq, Eq)]
pub struct Stepped {
    pub device: Device,
    pub said: Result<Polled, Refusal>,
}

/// Why there is no device, and the unbuilt one, which every call refuses with 9.
// A refused building returns an unbuilt device, so it stands in the error.
#[derive(Clone, Copy, Debug, PartialEq, Eq)]
pub struct Unbuilt {
    pub device: Device,
    pub refusal: Refusal,
}

// All endpoints but 0.
const OTHERS: u16 = 0xfffe;

impl Masks {
    fn none() -> Masks
        ensures { result ≡ no_masks }
    {
        Masks {
            setup: 0,
            out: 0,
            done: 0,
        }
    }

    fn of(event: &Event) -> Masks
        ensures { result ≡ masks_of event.now }
    {
        match event {
            Event::Data(a) => Masks {
                setup: a.setup & OTHERS,
                out: a.out & !a.setup & OTHERS,
                done: a.done & OTHERS,
            },
            Event::Nothing | Event::Reset | Event::Suspend | Event::Resume => Masks::none(),
        }
    }
}

/// What a step says of an event that was handled.
pub fn said(h: &Handled, event: &Event) -> Polled
    ensures { result ≡ polled_of h.now event.now }
{
    Polled {
        answer: h.answer,
        masks: Masks::of(event),
        actions: Actions::tell(h.resumed, h.first, h.act, h.second),
    }
}

/// [`Device::data`] of a device whose parts lie apart, so that none is put together to be read.
///
/// # Errors
///
/// As there.
#[tactic(auto, using(crate::proofs::Laws::tests), unfolding(crate::specs::Device::data_refusal, crate::specs::Device::handed_room))]
pub fn hand_out(
    profile: &Record,
    live: &Live,
    buffer: &[u8; BUFFER],
    room: &mut [u8],
) -> Result<usize, Refusal>
    ensures { Handing result room.new (of_parts profile.now live.now buffer.now) room.old }
{
    let coming = live.pipe.coming;
    live.check(profile)?;
    if coming.awaited == 0 || coming.held < coming.awaited {
        return Err(Refusal::NoData);
    }
    let n = coming.awaited as usize;
    if room.len() < n {
        return Err(Refusal::DataRoom);
    }
    common::put(buffer, 0, n, room, 0);
    Ok(n)
}

// The length of the book, unless a number refuses: lowest first, 1 to 3 of the record, 4 of the length.
#[tactic(auto, using(crate::proofs::Laws::tests), unfolding(crate::specs::Device::build_refusal, live::specs::Live::book_fine))]
fn book_length(profile: &Record, book: usize) -> Result<u32, Refusal>
    ensures { result ≡ unless (build_refusal profile.now book) book }
{
    limits::check(profile)?;
    if !live::book_fine(book) {
        return Err(Refusal::BookLength);
    }
    Ok(book as u32)
}

impl Device {
    fn fresh(profile: Record, book: u32, built: bool) -> Device
        ensures { result ≡ fresh profile book built }
    {
        Device {
            profile,
            live: Live::fresh(book, built),
            buffer: [0; BUFFER],
        }
    }

    /// A device of a record and of a tile book of so many bytes.
    ///
    /// # Errors
    ///
    /// 1 to 3 where the record breaks a limit, 4 where no book is so long.
    #[tactic(auto, using(crate::proofs::Laws::tests), unfolding(crate::specs::Device::build_of, crate::specs::Device::made, crate::specs::Device::build_refusal))]
    pub fn build(profile: Record, book: usize) -> Result<Device, Unbuilt>
        ensures { result ≡ build_of profile book }
    {
        match book_length(&profile, book) {
            Ok(length) => Ok(Device::fresh(profile, length, true)),
            Err(refusal) => Err(Unbuilt {
                device: Device::fresh(profile, 0, false),
                refusal,
            }),
        }
    }

    // By value: `poll::poll` is the same step in place.
    /// One event of the bus, with the tile book and the packet that it brings and a room for the packet that it sends.
    ///
    /// # Errors
    ///
    /// 9 where the device may not be used ([`Live::check`]), 5 where the book is not as long as at building, 6 where the room is
    /// shorter than a packet. Nothing is changed then.
    #[tactic(auto, using(crate::proofs::Laws::tests), unfolding(crate::specs::Device::step_of, crate::specs::Device::room_of))]
    pub fn step(self, book: &[u8], event: Event, packet: &[u8], room: &mut [u8]) -> Stepped
        ensures { Stepping result room.new self book.now event packet.now room.old }
    {
        if let Err(refusal) = self.live.check_step(&self.profile, book.len(), room.len()) {
            return Stepped {
                device: self,
                said: Err(refusal),
            };
        }
        let Device {
            profile,
            mut live,
            mut buffer,
        } = self;
        let h = events::handle(event, &profile, &mut live, packet, &mut buffer, book, room);
        Stepped {
            device: Device {
                profile,
                live,
                buffer,
            },
            said: Ok(said(&h, &event)),
        }
    }

    /// The OUT data of the last accepted SETUP goes to the front of the room: how many bytes ([`hand_out`]).
    ///
    /// # Errors
    ///
    /// 9 where the device may not be used ([`Live::check`]), 7 where no OUT data is complete, 8 where the room is shorter than it.
    /// Nothing is written then.
    pub fn data(&self, room: &mut [u8]) -> Result<usize, Refusal>
        ensures { Handing result room.new self.now room.old }
    {
        hand_out(&self.profile, &self.live, &self.buffer, room)
    }

    /// Sets whether the device is self-powered now, which GET_STATUS tells.
    ///
    /// # Errors
    ///
    /// 9 where the device may not be used ([`Live::check`]). Nothing is changed then.
    #[tactic(auto, using(crate::proofs::Laws::powered_device))]
    pub fn set_self_powered(&mut self, on: bool) -> Result<(), Refusal>
        ensures { Setting result self.new self.old on }
    {
        self.live.set_self_powered(&self.profile, on)
    }
}
