//! The descriptor writer: it holds a lent answer buffer and the position of its next byte.
//! A descriptor is appended whole. Where the record breaks a limit, where there is no such descriptor, and where less room is
//! left than it takes, no byte is written and the position stays.
#![tactic(auto)]

ghost use Rattle.std.specs.Prelude.{◌≡◌};
ghost use Rattle.limits.specs.Limits.{lowest};
ghost use Rattle.descriptor.specs.Writing.{wrote_answer, Wrote};
ghost use Rattle.writer.specs.Descriptors.{asked};
ghost use Rattle.writer.specs.Appending.{begun, appended, Position};

use descriptor::Written;
use record::Record;

/// The descriptor that a request names (USB 2.0 section 9.4.3).
#[derive(Clone, Copy, Debug, PartialEq, Eq)]
pub struct Which {
    /// The descriptor's type, wValue's high byte.
    pub kind: u8,
    /// The number of a string, wValue's low byte; no other type looks at it.
    pub index: u8,
    /// The identifier of a string's language, wIndex; no other type looks at it.
    pub language: u16,
}

/// A lent buffer, and the position of the next byte.
#[derive(Drop)]
pub struct Writer<'a> {
    pub buf: &'a mut [u8],
    pub at: usize,
}

impl<'a> Writer<'a> {
    /// A writer at the start of a lent buffer.
    pub fn new(buf: &'a mut [u8]) -> Writer<'a>
        ensures value { result ≡ begun buf.entry }
        ensures same_borrow { result.buf.ghost_name ≡ buf.entry.ghost_name }
    {
        Writer { buf, at: 0 }
    }

    /// Appends a descriptor whole, or not at all: then the position stays and no byte changes.
    pub fn append(&mut self, profile: &Record, which: Which) -> Written
        ensures written { result ≡ wrote_answer (lowest profile.now) (asked profile.now which) self.old.buf.now self.old.at }
        ensures writer { self.new ≡ appended self.old (lowest profile.now) (asked profile.now which) }
    {
        let bytes = put(profile, which, self.buf, self.at)?;
        self.at += bytes.unwrap_or(0);
        Ok(bytes)
    }

    /// The position of the next byte.
    pub fn position(&self) -> usize
        ensures { Position result self.now.buf.now self.now }
    {
        self.at
    }
}

// A descriptor at a position of a slice: type 1 is the device's, 2 the configuration, 3 a string. The type is a number as the
// request has it (table 9-5): most of them name no descriptor here.
fn put(profile: &Record, which: Which, buf: &mut [u8], at: usize) -> Written
    ensures { Wrote result buf.new (lowest profile.now) (asked profile.now which) buf.old at }
{
    match which.kind {
        1 => descriptor::device(profile, buf, at),
        2 => configuration::write(profile, buf, at),
        3 => strings::write(profile, which.index, which.language, buf, at),
        _ => {
            limits::check(profile)?;
            Ok(None)
        }
    }
}

/// A descriptor at the start of a buffer, by a writer that lasts for the call. Where none is written, no byte changes.
pub fn fill(profile: &Record, which: Which, buf: &mut [u8]) -> Written
    ensures { Wrote result buf.new (lowest profile.now) (asked profile.now which) buf.old 0 }
{
    Writer::new(buf).append(profile, which)
}
