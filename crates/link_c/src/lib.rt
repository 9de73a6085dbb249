//! The static library for programs in C and Rust: what include/mast.h declares, each call that of `link` with the same clauses.
#![tactic(auto)]

ghost use Rattle.std.specs.Prelude.{◌≡◌};
ghost use Rattle.state.specs.State.{state_size};
ghost use Rattle.link.specs.Link.{Building, Running, Handing, Setting};

/// How many bytes a state has.
#[unsafe(no_mangle)]
pub extern "C" fn mast_size() -> usize
    ensures { result ≡ state_size }
{
    link::mast_size()
}

/// A state from a record and the length of a book: refusals 1 to 4, and 9 where the state has another length.
#[unsafe(no_mangle)]
pub extern "C" fn mast_build(profile: &[u8], book: usize, state: &mut [u8]) -> u8
    ensures { Building result state.new profile.now book state.old }
{
    link::mast_build(profile, book, state)
}

/// A run of the device through event records: 16 times how many it took, and the number that stopped it.
#[unsafe(no_mangle)]
pub extern "C" fn mast_run(state: &mut [u8], book: &[u8], events: &[u8], trace: &mut [u8]) -> usize
    ensures { Running result state.new trace.new state.old book.now events.now trace.old }
{
    link::mast_run(state, book, events, trace)
}

/// The OUT data goes to the front of the room: 16 times how many bytes, and the number of the refusal.
#[unsafe(no_mangle)]
pub extern "C" fn mast_data(state: &[u8], room: &mut [u8]) -> usize
    ensures { Handing result room.new state.now room.old }
{
    link::mast_data(state, room)
}

/// Whether the device is self-powered now.
#[unsafe(no_mangle)]
pub extern "C" fn mast_set_self_powered(state: &mut [u8], on: bool) -> u8
    ensures { Setting result state.new state.old on }
{
    link::mast_set_self_powered(state, on)
}
