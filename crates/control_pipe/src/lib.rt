//! Chapter 8 of USB 2.0: how the bytes of a control transfer travel through endpoint 0, stage by stage.
//! Every function is total: a pipe of any numbers, a packet, a book or a room of any length gets an answer.
#![tactic(auto)]

ghost use Rattle.std.specs.Prelude.{◌≡◌, ℕ, cond, false, [], ◌+◌, ◌-◌, ◌≤◌};
ghost use Rattle.control_pipe.specs.declared.Told.TheVariants.{Nothing, Stalls};
ghost use Rattle.control_pipe.specs.Stages.{zeros, Took, Sent, Said, Turned, stalled, fresh, idle, begin_by, setup_come, add_packet, add_read, end_read, bad_read, out_come, written, advanced, send_chunk, send_empty, await_status, in_complete, accept_in, accept_out};

use common::Coded;
use control::{BusAddress, Direction, Recipient, Request, RequestType};

/// The bytes of the control buffer.
pub const BUFFER: usize = 128;

/// Where a control transfer stands (USB 2.0 section 8.5.3). The discriminants are its codes in bytes.
#[derive(Clone, Copy, Debug, PartialEq, Eq)]
pub enum Stage {
    Idle = 0,
    DataIn = 1,
    DataInZlp = 2,
    DataInLast = 3,
    CompleteIn = 4,
    StatusOut = 5,
    CompleteOut = 6,
    DataOut = 7,
    StatusIn = 8,
    Error = 9,
}

impl Coded for Stage {
    ghost use Rattle.control_pipe.specs.Codes.{stage_code, stage_of, stage_back};

    ghost code = { stage_code };

    ghost named = { stage_of };

    ghost back = { stage_back };

    fn code(self) -> u8 {
        self as u8
    }

    fn of_code(n: u8) -> Stage {
        match n {
            0 => Stage::Idle,
            1 => Stage::DataIn,
            2 => Stage::DataInZlp,
            3 => Stage::DataInLast,
            4 => Stage::CompleteIn,
            5 => Stage::StatusOut,
            6 => Stage::CompleteOut,
            7 => Stage::DataOut,
            8 => Stage::StatusIn,
            _ => Stage::Error,
        }
    }
}

/// What the one read of an event gives: a packet, nothing yet, or a fault of the bus.
#[derive(Clone, Copy, Debug, PartialEq, Eq)]
pub enum Read {
    Packet,
    Block,
    Fault,
}

/// What the bus is told of endpoint 0. `Write` and `Refused` count the bytes of the packet at the front of the room.
// `Nothing` is a case, since an `Option` would add a tag to this word at every copy.
#[derive(Clone, Copy, Debug, PartialEq, Eq)]
pub enum Told {
    Nothing,
    Unstalls,
    UnstallsStalls,
    Stalls,
    UnstallOut,
    Write(u8),
    Refused(u8),
}

/// Where the bytes of an IN answer lie. The discriminants are its codes in bytes.
#[derive(Clone, Copy, Debug, PartialEq, Eq)]
pub enum Source {
    Buffer = 0,
    Book = 1,
}

impl Coded for Source {
    ghost use Rattle.control_pipe.specs.Codes.{source_code, source_of, source_back};

    ghost code = { source_code };

    ghost named = { source_of };

    ghost back = { source_back };

    fn code(self) -> u8 {
        self as u8
    }

    fn of_code(n: u8) -> Source {
        match n {
            0 => Source::Buffer,
            _ => Source::Book,
        }
    }
}

/// The IN answer: `len` bytes of its source from `start` on, of which `sent` are sent.
// The source stands last: before `start` the two are packed into one number and unpacked at every copy.
#[derive(Clone, Copy, Debug, PartialEq, Eq)]
pub struct Reply {
    pub start: u32,
    pub len: u32,
    pub sent: u32,
    pub source: Source,
}

/// The OUT data: bytes awaited, and bytes held in the buffer.
#[derive(Clone, Copy, Debug, PartialEq, Eq)]
pub struct Coming {
    pub awaited: u16,
    pub held: u16,
}

/// What an accepted SETUP drops: endpoint 0's stage and halts, the address to take when the status stage completes (0 for none),
/// the request of the last accepted SETUP, and its data.
#[derive(Clone, Copy, Debug, PartialEq, Eq)]
pub struct Pipe {
    pub stage: Stage,
    pub stallout: bool,
    pub stallin: bool,
    // 0 and no `Option`: a state with any byte here is read back, and refusal 9 names those above 127
    pub pending: BusAddress,
    pub request: Request,
    pub coming: Coming,
    pub reply: Reply,
}

/// At a SETUP or an OUT packet: what the bus is told, and whether a request is complete.
#[derive(Clone, Copy, Debug, PartialEq, Eq)]
pub struct Heard {
    pub told: Told,
    pub complete: bool,
}

impl Heard {
    // This is told, and no request is complete.
    fn incomplete(told: Told) -> Heard
        ensures { result ≡ record { told = told; complete = false } }
    {
        Heard {
            told,
            complete: false,
        }
    }

    /// Nothing is told, and no request is complete.
    pub fn nothing() -> Heard
        ensures { result ≡ record { told = Nothing; complete = false } }
    {
        Heard::incomplete(Told::Nothing)
    }
}

/// At an IN-complete: what the bus is told, and whether a status stage is complete.
// `done` is an answer of its own: no value here counts only where it is true.
#[derive(Clone, Copy, Debug, PartialEq, Eq)]
pub struct Moved {
    pub told: Told,
    pub done: bool,
}

/// What a packet is sent with: endpoint 0's packet size, whether the bus takes the write, and the lent book.
// The buffer and the room are lent beside it: a struct that holds a `&mut` costs each caller a clause about its borrow.
#[derive(Clone, Copy)]
pub struct Bus<'a> {
    pub size: u8,
    pub taken: bool,
    pub book: &'a [u8],
}

impl Pipe {
    // The pipe of an accepted SETUP: nothing of the pipe before it is in it.
    fn fresh(stage: Stage, request: Request, awaited: u16) -> Pipe
        ensures { result ≡ fresh stage request awaited }
    {
        Pipe {
            stage,
            stallout: false,
            stallin: false,
            pending: BusAddress(0),
            request,
            coming: Coming { awaited, held: 0 },
            reply: Reply {
                start: 0,
                len: 0,
                sent: 0,
                source: Source::Buffer,
            },
        }
    }

    /// At building, and after a reset: no request, nothing awaited, no halts.
    pub fn idle() -> Pipe
        ensures { result ≡ idle }
    {
        let request = Request {
            direction: Direction::Out,
            kind: RequestType::Standard,
            recipient: Recipient::Device,
            request: 0,
            value: 0,
            index: 0,
            length: 0,
        };
        Pipe::fresh(Stage::Idle, request, 0)
    }

    /// Both directions of endpoint 0 stall until the next SETUP (USB 2.0 section 8.5.3.4).
    pub fn stall(&mut self) -> Told
        ensures { Turned result self.new (stalled self.old []) }
    {
        self.stage = Stage::Error;
        self.stallout = true;
        self.stallin = true;
        Told::Stalls
    }
}

// SETUP
impl Pipe {
    // An accepted SETUP of this request. More OUT data than the buffer holds stalls at once.
    #[tactic(auto, unfolding(crate::specs::Stages::begin_by, crate::specs::Stages::begin_out))]
    fn begin(&mut self, request: Request) -> Heard
        ensures { Took result self.new zeros (begin_by request.direction request) }
    {
        let (stage, awaited, complete) = match (request.direction, request.length) {
            (Direction::In, _) => (Stage::CompleteIn, 0, true),
            (Direction::Out, 0) => (Stage::CompleteOut, 0, true),
            (Direction::Out, n) if n as usize <= BUFFER => (Stage::DataOut, n, false),
            (Direction::Out, _) => {
                *self = Pipe::fresh(Stage::Error, request, 0);
                self.stall();
                return Heard::incomplete(Told::UnstallsStalls);
            }
        };
        *self = Pipe::fresh(stage, request, awaited);
        Heard {
            told: Told::Unstalls,
            complete,
        }
    }

    /// A SETUP of endpoint 0 (USB 2.0 section 8.5.3): accepted if it is read as eight bytes, else ignored. An accepted one clears
    /// the buffer.
    #[tactic(auto, unfolding(crate::specs::Stages::setup_come, crate::specs::Stages::begun))]
    pub fn setup_come(&mut self, read: Read, packet: &[u8], buffer: &mut [u8; BUFFER]) -> Heard
        ensures { Took result self.new buffer.new (setup_come read packet.now self.old buffer.old) }
    {
        let (Read::Packet, Ok(request)) = (read, Request::parse(packet)) else {
            return Heard::nothing();
        };
        common::clear(buffer);
        self.begin(request)
    }
}

// OUT
impl Pipe {
    // A data packet: a fault if the rest of the buffer does not take it, and the request is complete when the bytes so far reach
    // what is awaited.
    #[tactic(auto, using(crate::proofs::Laws::added), unfolding(crate::specs::Stages::add_packet))]
    fn add_packet(&mut self, packet: &[u8], buffer: &mut [u8; BUFFER]) -> Heard
        ensures { Took result self.new buffer.new (add_packet packet.now self.old buffer.old) }
    {
        let n = packet.len();
        let held = self.coming.held as usize;
        if BUFFER.saturating_sub(held) < n {
            return self.fault();
        }
        common::put(packet, 0, n, buffer, held);
        self.coming.held += n as u16;
        let complete = self.coming.awaited <= self.coming.held;
        self.stage = if complete {
            Stage::CompleteOut
        } else {
            Stage::DataOut
        };
        Heard {
            told: Told::Nothing,
            complete,
        }
    }

    fn fault(&mut self) -> Heard
        ensures heard { result ≡ record { told = Stalls; complete = false } }
        ensures pipe { self.new ≡ (stalled self.old []).pipe }
    {
        Heard::incomplete(self.stall())
    }

    /// An OUT packet of endpoint 0 (USB 2.0 sections 8.5.3 and 8.5.3.1): data in the OUT data stage, the host's status in an IN
    /// transfer, else a fault. Where no data is due, only an empty packet counts.
    #[tactic(auto, unfolding(crate::specs::Stages::out_come, crate::specs::Stages::out_at, crate::specs::Stages::add_read, crate::specs::Stages::end_read, crate::specs::Stages::bad_read))]
    pub fn out_come(&mut self, read: Read, packet: &[u8], buffer: &mut [u8; BUFFER]) -> Heard
        ensures { Took result self.new buffer.new (out_come read packet.now self.old buffer.old) }
    {
        match (self.stage, read) {
            (Stage::DataOut, Read::Packet) => self.add_packet(packet, buffer),
            (Stage::DataOut, Read::Fault) => self.fault(),
            (_, Read::Block | Read::Fault) => Heard::nothing(),
            (_, Read::Packet) if !packet.is_empty() => Heard::nothing(),
            (
                Stage::DataIn | Stage::DataInZlp | Stage::DataInLast | Stage::StatusOut,
                Read::Packet,
            ) => {
                self.stage = Stage::Idle;
                Heard::nothing()
            }
            (
                Stage::Idle
                | Stage::CompleteIn
                | Stage::CompleteOut
                | Stage::StatusIn
                | Stage::Error,
                Read::Packet,
            ) => self.fault(),
        }
    }
}

// What the bus is told of a packet of n bytes.
fn written(taken: bool, n: u8) -> Told
    ensures { result ≡ written taken n }
{
    if taken {
        Told::Write(n)
    } else {
        Told::Refused(n)
    }
}

// IN
impl Pipe {
    // A chunk of n bytes is taken. An empty packet follows the last one if it was full.
    #[tactic(auto, unfolding(crate::specs::Stages::advanced, crate::specs::Stages::after_chunk))]
    fn advance(&mut self, size: u8, n: u8)
        requires { n ≤ self.old.reply.len - self.old.reply.sent }
        ensures { self.new ≡ advanced size n self.old }
    {
        let Reply { len, sent, .. } = self.reply;
        let sent = sent + n as u32;
        self.reply.sent = sent;
        self.stage = if sent < len {
            Stage::DataIn
        } else if n == size {
            Stage::DataInZlp
        } else {
            Stage::DataInLast
        };
    }

    // The next chunk goes to the front of the room; a refused write leaves the pipe as it is.
    #[tactic(auto, using(crate::proofs::Laws::fronts), unfolding(crate::specs::Stages::send_chunk))]
    fn send_chunk(&mut self, bus: &Bus, buffer: &[u8; BUFFER], room: &mut [u8]) -> Told
        ensures { Said result self.new room.new (send_chunk bus.now.size bus.now.taken bus.now.book.now self.old buffer.now) room.old }
    {
        let Reply {
            start,
            len,
            sent,
            source,
        } = self.reply;
        let n = len.saturating_sub(sent).min(bus.size as u32) as u8;
        let from = start as usize + sent as usize;
        // a call for each: the archive asks its host for no memmove where a compiler knows whose bytes are copied
        match source {
            Source::Buffer => common::put(buffer, from, n as usize, room, 0),
            Source::Book => common::put(bus.book, from, n as usize, room, 0),
        }
        if bus.taken {
            self.advance(bus.size, n);
        }
        written(bus.taken, n)
    }

    // An empty packet, and the stage that it leads to.
    fn send_empty(&mut self, taken: bool, next: Stage) -> Told
        ensures { Turned result self.new (send_empty taken next self.old []) }
    {
        if taken {
            self.stage = next;
        }
        written(taken, 0)
    }

    // All is sent: the host's status may come.
    fn await_status(&mut self) -> Told
        ensures { Turned result self.new (await_status self.old []) }
    {
        self.stage = Stage::StatusOut;
        self.stallout = false;
        Told::UnstallOut
    }

    /// An IN-complete of endpoint 0 (USB 2.0 sections 8.5.3 and 8.5.3.2): the next packet of an answer, or the end of its stage.
    /// A packet is at the front of the room, which is else as it was; so it is where it does not take the packet.
    #[tactic(auto, using(crate::proofs::Laws::fronts), unfolding(crate::specs::Stages::in_complete, crate::specs::Stages::in_at, crate::specs::Stages::send_chunk))]
    pub fn in_complete(&mut self, bus: &Bus, buffer: &[u8; BUFFER], room: &mut [u8]) -> Moved
        ensures { Sent result self.new room.new (in_complete bus.now.size bus.now.taken bus.now.book.now self.old buffer.now) room.old }
    {
        let told = match self.stage {
            Stage::DataIn => self.send_chunk(bus, buffer, room),
            Stage::DataInZlp => self.send_empty(bus.taken, Stage::DataInLast),
            Stage::DataInLast => self.await_status(),
            Stage::StatusIn => {
                self.stage = Stage::Idle;
                return Moved {
                    told: Told::Nothing,
                    done: true,
                };
            }
            Stage::Idle
            | Stage::CompleteIn
            | Stage::StatusOut
            | Stage::CompleteOut
            | Stage::DataOut
            | Stage::Error => Told::Nothing,
        };
        Moved { told, done: false }
    }
}

// How a complete request is answered.
impl Pipe {
    /// IN: `n` bytes of a source from `start` on, or as many as the host asked for; the first packet goes at once to the front of
    /// the room.
    pub fn accept_in(
        &mut self,
        source: Source,
        start: u32,
        n: usize,
        bus: &Bus,
        buffer: &[u8; BUFFER],
        room: &mut [u8],
    ) -> Told
        ensures { Said result self.new room.new (accept_in source start n bus.now.size bus.now.taken bus.now.book.now self.old buffer.now) room.old }
    {
        self.stage = Stage::DataIn;
        self.reply = Reply {
            start,
            len: n.min(self.request.length as usize) as u32,
            sent: 0,
            source,
        };
        self.send_chunk(bus, buffer, room)
    }

    /// OUT: an empty packet is the status. A refused write leaves the request to be answered.
    pub fn accept_out(&mut self, taken: bool) -> Told
        ensures { Turned result self.new (accept_out taken self.old []) }
    {
        self.send_empty(taken, Stage::StatusIn)
    }
}
