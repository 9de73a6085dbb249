//! The bytes that a decision answers with (USB 2.0 sections 9.4.2 to 9.4.5), written from the record into the control buffer.
#![tactic(auto)]

ghost use Rattle.std.specs.Prelude.{◌≡◌, ◌≤◌, [], ◌∷◌, length};
ghost use Rattle.control_pipe.specs.Sizes.{buffer_room};
ghost use Rattle.answers.specs.Answers.{Answered, tell, filled_as, described, answered};

use control::Request;
use control_pipe::BUFFER;
use descriptor::Written;
use record::Record;
use requests::{Decision, Effect};
use writer::Which;

/// What the pipe is to do with a request that it does not stall.
#[derive(Clone, Copy, Debug, PartialEq, Eq)]
pub enum Verdict {
    /// Send so many bytes from the front of the control buffer.
    Bytes(usize),
    /// Send the tile book from a byte on.
    Tiles(u32),
    /// Accept the request, with its effect.
    Accept(Effect),
}

#[tactic(auto, unfolding(common::specs::Bytes::placed))]
fn tell(bytes: &[u8], buffer: &mut [u8; BUFFER]) -> Option<Verdict>
    requires { length bytes.now ≤ buffer_room }
    ensures { Answered result buffer.new (tell bytes.now) buffer.old }
{
    buffer[..bytes.len()].copy_from_slice(bytes);
    Some(Verdict::Bytes(bytes.len()))
}

// What is not written stalls.
fn judged(written: Written) -> Option<Verdict>
    ensures { result ≡ filled_as written }
{
    match written {
        Ok(Some(n)) => Some(Verdict::Bytes(n)),
        Ok(None) | Err(_) => None,
    }
}

// The descriptor that the request names.
fn describe(profile: &Record, request: &Request, buffer: &mut [u8; BUFFER]) -> Option<Verdict>
    ensures { Answered result buffer.new (described profile.now request.now) buffer.old }
{
    let named = request.descriptor_type_index();
    let which = Which {
        kind: named.kind,
        index: named.index,
        language: request.index,
    };
    judged(writer::fill(profile, which, buffer))
}

/// What the pipe is to do of a decision; `None`: both directions stall. The bytes that it sends are then at the front of the buffer.
#[tactic(auto, unfolding(crate::specs::Answers::answer_of))]
pub fn write(
    decision: Option<Decision>,
    profile: &Record,
    request: &Request,
    buffer: &mut [u8; BUFFER],
) -> Option<Verdict>
    ensures { Answered result buffer.new (answered profile.now request.now decision) buffer.old }
{
    match decision? {
        Decision::Status(n) => tell(&[n, 0], buffer),
        Decision::Byte(n) => tell(&[n], buffer),
        Decision::Describe => describe(profile, request, buffer),
        Decision::Tiles(start) => Some(Verdict::Tiles(start)),
        Decision::Accept(effect) => Some(Verdict::Accept(effect)),
    }
}
