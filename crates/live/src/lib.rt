//! What a device holds beside its record and its buffer, and the tests that stand before every call: refusals 9, 5 and 6.
#![tactic(auto)]

ghost use Rattle.std.specs.Prelude.{◌≡◌};
ghost use Rattle.common.specs.Refusals.{unless};
ghost use Rattle.live.specs.Live.{fresh, book_fine, coming_fine, reply_fine, pipe_fine, state_fine, live_fine, unfit, step_refusal, Setting};

use common::Refusal;
use control_pipe::{BUFFER, Coming, Pipe, Reply, Source};
use record::Record;
use requests::{Kept, State, TILE};

/// The most bytes of a tile book.
pub const BOOK: u32 = 65536;

/// The highest address on a bus.
pub const ADDRESSES: u8 = 127;

/// The pipe is what an accepted SETUP drops, `kept` what outlives it. `before` is the state under Suspend, `book` the bytes of the
/// book that the device was built with.
#[derive(Clone, Copy, Debug, PartialEq, Eq)]
pub struct Live {
    pub pipe: Pipe,
    pub kept: Kept,
    // plain values and no `Option`: a state with any of them is read back, and refusal 9 tells which may be used
    pub before: State,
    pub book: u32,
    pub built: bool,
}

impl Live {
    /// At building, with a book of so many bytes: in the default state, with no request and no halt.
    pub fn fresh(book: u32, built: bool) -> Live
        ensures { result ≡ fresh book built }
    {
        Live {
            pipe: Pipe::idle(),
            kept: Kept {
                state: State::Default,
                wakeup: false,
                powered: false,
                halts: 0,
            },
            before: State::Default,
            book,
            built,
        }
    }

    #[tactic(auto, unfolding(crate::specs::Live::live_fine))]
    fn fine(&self) -> bool
        ensures { result ≡ live_fine self.now }
    {
        self.built
            && book_fine(self.book as usize)
            && state_fine(self.kept.state, self.before)
            && pipe_fine(&self.pipe, self.book)
    }

    /// Refusal 9 unless a device of this record may be used at all.
    #[tactic(auto, unfolding(crate::specs::Live::unfit))]
    pub fn check(&self, profile: &Record) -> Result<(), Refusal>
        ensures { result ≡ unless (unfit profile.now self.now) tt }
    {
        if self.fine() && limits::check(profile).is_ok() {
            Ok(())
        } else {
            Err(Refusal::BadState)
        }
    }

    /// Refusal 9, 5 or 6, in this order, of a step with a book of so many bytes and a room of so many.
    #[tactic(auto, unfolding(crate::specs::Live::unfit, crate::specs::Live::step_refusal))]
    pub fn check_step(&self, profile: &Record, book: usize, room: usize) -> Result<(), Refusal>
        ensures { result ≡ unless (step_refusal profile.now self.now book room) tt }
    {
        self.check(profile)?;
        if book != self.book as usize {
            return Err(Refusal::OtherBook);
        }
        if room < profile.plan.basics.packet as usize {
            return Err(Refusal::PacketRoom);
        }
        Ok(())
    }

    /// Sets whether the device of this record is self-powered now. Refusal 9 unless it may be used at all; nothing is changed then.
    #[tactic(auto, unfolding(crate::specs::Live::unfit, crate::specs::Live::powered_of))]
    pub fn set_self_powered(&mut self, profile: &Record, on: bool) -> Result<(), Refusal>
        ensures { Setting result self.new profile.now self.old on }
    {
        self.check(profile)?;
        self.kept.powered = on;
        Ok(())
    }
}

/// Whether a tile book may have so many bytes: refusal 4.
#[tactic(auto, unfolding(crate::specs::Live::book_fine))]
pub fn book_fine(book: usize) -> bool
    ensures { result ≡ book_fine book }
{
    book % TILE as usize == 0 && book <= BOOK as usize
}

// Suspend is not remembered under Suspend.
fn state_fine(state: State, before: State) -> bool
    ensures { result ≡ state_fine state before }
{
    !matches!((state, before), (State::Suspend, State::Suspend))
}

fn pipe_fine(pipe: &Pipe, book: u32) -> bool
    ensures { result ≡ pipe_fine pipe.now book }
{
    coming_fine(&pipe.coming) && reply_fine(&pipe.reply, book) && pipe.pending.0 <= ADDRESSES
}

fn coming_fine(coming: &Coming) -> bool
    ensures { result ≡ coming_fine coming.now }
{
    coming.awaited as usize <= BUFFER && coming.held as usize <= BUFFER
}

fn reply_fine(reply: &Reply, book: u32) -> bool
    ensures { result ≡ reply_fine reply.now book }
{
    let room = match reply.source {
        Source::Buffer => BUFFER,
        Source::Book => book as usize,
    };
    reply.sent <= reply.len && reply.start as usize + reply.len as usize <= room
}
