//! A device as bytes, so that a caller in another language can hold it: specs/State.antt has the layout.
#![tactic(auto)]

ghost use Rattle.std.specs.Prelude.{◌≡◌, length, MatchOption, false};
ghost use Rattle.control_pipe.specs.Sizes.{buffer_room};
ghost use Rattle.state.specs.State.{Parted, parts_device, Writing, state_coded, read_of, kept};

use common::Refusal;
use control_pipe::BUFFER;
use device::Device;
use live::Live;
use live_bytes::LIVE;
use record_bytes::RECORD;

// Where the buffer starts.
const BUFFER_PLACE: usize = RECORD + LIVE;

/// The bytes of a state.
pub const STATE: usize = BUFFER_PLACE + BUFFER;

/// The bytes of a state's parts, where they stand: a caller that goes on with the device makes it from them in its own place.
#[derive(Clone, Copy)]
pub struct Parts<'a> {
    pub record: &'a [u8; RECORD],
    pub live: &'a [u8; LIVE],
    pub buffer: &'a [u8; BUFFER],
}

impl<'a> Parts<'a> {
    /// Of bytes that some device is written as.
    pub fn of(s: &'a [u8]) -> Option<Parts<'a>>
        ensures { MatchOption result (state_coded s.now ≡ false) (λ p. Parted p.record.now p.live.now p.buffer.now s.now) }
    {
        let (rest, buffer) = s.split_last_chunk::<BUFFER>()?;
        let (record, live) = rest.split_first_chunk::<RECORD>()?;
        let Ok(live) = <&[u8; LIVE]>::try_from(live) else {
            return None;
        };
        if !record_bytes::fine(record) || !live_bytes::fine(live) {
            return None;
        }
        Some(Parts {
            record,
            live,
            buffer,
        })
    }

    /// The device of these bytes.
    #[inline(always)]
    pub fn device(&self) -> Device
        ensures { result ≡ parts_device self.now.record.now self.now.live.now self.now.buffer.now }
    {
        Device {
            profile: record_bytes::read(self.record),
            live: live_bytes::read(self.live),
            buffer: *self.buffer,
        }
    }
}

/// The device of a state.
///
/// # Errors
///
/// 9 where no device is written as these bytes: there are not `STATE` of them, or a flag or an enum is no code.
pub fn read(s: &[u8]) -> Result<Device, Refusal>
    ensures { result ≡ read_of s.now }
{
    let parts = Parts::of(s).ok_or(Refusal::BadState)?;
    Ok(parts.device())
}

/// Puts the live part and the buffer of a device into the state that holds its record. A room that has not `STATE` bytes is left
/// as it was.
pub fn keep(live: &Live, buffer: &[u8; BUFFER], s: &mut [u8])
    ensures state { s.new ≡ kept live.now buffer.now s.old }
    ensures long { length buffer.now ≡ buffer_room }
{
    if s.len() != STATE {
        return;
    }
    s[RECORD..BUFFER_PLACE].copy_from_slice(&live_bytes::write(live));
    s[BUFFER_PLACE..].copy_from_slice(buffer);
}

/// Writes the state of a device.
///
/// # Errors
///
/// 9 where the room has not `STATE` bytes. It is left as it was then.
pub fn write(device: &Device, s: &mut [u8]) -> Result<(), Refusal>
    ensures { Writing result s.new device.now s.old }
{
    if s.len() != STATE {
        return Err(Refusal::BadState);
    }
    s[..RECORD].copy_from_slice(&record_bytes::write(&device.profile));
    keep(&device.live, &device.buffer, s);
    Ok(())
}
