// The machine: registers, flags and 64K of cells, and the three calls that drive it.
ghost use Rattle.std.specs.Prelude.{◌≡◌, length};

use crate::area::{Area, CellUse};
use crate::draft::{Draft, Write};
use crate::memory::{make, put_blocks, spoil};
use crate::numbers::number_in;
use crate::registers::Registers;
use crate::replies::answered;
use crate::sight::Sight;
use crate::turn::{Question, Return, Turn};
use asm80_types::Program80;
use cells::{Cell, Flags, Place, Rule};
use dialogue::{
    Blocks, Event, Reply, Request, Shape, answer_of, dma_after, fits, fits_event, request_of,
    shape_of,
};
use std::alloc::{AllocError, Global};

/// What a step answered: the instruction ran; it asks the system or a port and waits for a reply; the program has ended; or it
/// left the profile by a rule.
#[derive(Clone, Copy, PartialEq, Eq)]
pub enum Step80 {
    Ran,
    Asked,
    Ended,
    Left(Rule),
}

/// Whether a machine runs, waits for a reply, or has ended.
#[derive(Clone, Copy)]
pub enum Phase {
    Running,
    Asking(Question, Return),
    Ended,
}

/// The tagged 8080 with 64K of cells. It keeps what its program makes of each of them, so that each step is fast.
pub struct Cpu80 {
    pub(crate) alloc: Global,
    pub(crate) registers: Registers,
    pub(crate) flags: Flags,
    pub(crate) sp: u16,
    pub(crate) memory: Vec<Cell>,
    pub(crate) uses: Vec<CellUse>,
    pub(crate) place: Place,
    pub(crate) dma: u16,
    pub(crate) phase: Phase,
    ghost full: { length memory.items ≡ 65536 },
    ghost all_used: { length uses.items ≡ 65536 },
}

// Written out, so that letting one go is one call wherever it is done.
impl Drop for Cpu80 {
    fn drop(self) {
        let Cpu80 {
            alloc: _alloc,
            registers: _registers,
            flags: _flags,
            sp: _sp,
            memory: _memory,
            uses: _uses,
            place: _place,
            dma: _dma,
            phase: _phase,
        } = self;
    }
}

impl Cpu80 {
    ghost use Rattle.std.specs.Prelude.{IfOk, true, false, All};
    ghost use Rattle.dialogue.specs.Fits.{fits};
    ghost use Rattle.dialogue.specs.Shape.{seen_by_view};
    ghost use Rattle.asm80_types.specs.Program.{Program};
    ghost use Rattle.cpu80_tagged.specs.Step.{step80};
    ghost use Rattle.cpu80_tagged.specs.Draft.{memory_of, IsFresh, state_of_draft as draft_state};
    ghost use Rattle.cpu80_tagged.specs.Sight.{byte_over, writable_over, closed_in};
    ghost use Rattle.cpu80_tagged.specs.ProcessorState.{tagged_state, asks, seen_of, tagged_shape};
    ghost use Rattle.cpu80_tagged.specs.Reply.{Fits, after_taken_reply};
    ghost use Rattle.cpu80_tagged.specs.Machine.{IsMachineOf, IsTaggedStep, has_asked, IsEventAsked, IsReplyTo};

    /// The place of the instruction that comes next, that asks, or that ended the program.
    pub fn place(&self) -> Place
        ensures { result ≡ (tagged_state self.now).place }
    {
        self.place
    }

    /// What the machine holds, also while it asks: registers, flags, SP, cells, the place that comes next and the DMA address.
    /// Nothing is still to be written.
    pub fn held(&self) -> Draft<'_>
        ensures state { draft_state result ≡ tagged_state self.now }
        ensures fresh { IsFresh result }
    {
        Draft {
            registers: self.registers,
            flags: self.flags,
            sp: self.sp,
            memory: self.memory.as_slice(),
            place: self.place,
            dma: self.dma,
            write: Write::Nothing,
        }
    }

    /// One instruction. Where it leaves the profile nothing changes; while it asks, and after the end, it answers the same
    /// again.
    pub fn step(&mut self, program: &Program80) -> Step80
        requires { IsMachineOf program.now self.old }
        ensures step { IsTaggedStep (step80 program.now (tagged_state self.old)) result (tagged_state self.old) (tagged_state self.new) }
        ensures asked { asks self.new ≡ has_asked result }
        ensures machine { IsMachineOf program.now self.new }
    {
        match self.phase {
            Phase::Running => self.run(program),
            Phase::Asking(_, _) => Step80::Asked,
            Phase::Ended => Step80::Ended,
        }
    }

    // A step of a machine that runs, on a draft that is kept only where the instruction ran.
    fn run(&mut self, program: &Program80) -> Step80
        requires machine { IsMachineOf program.now self.old }
        requires runs { self.old.phase ≡ Phase.Running }
        ensures step { IsTaggedStep (step80 program.now (tagged_state self.old)) result (tagged_state self.old) (tagged_state self.new) }
        ensures asked { asks self.new ≡ has_asked result }
        ensures machine { IsMachineOf program.now self.new }
    {
        let area = Area {
            program,
            uses: self.uses.as_slice(),
        };
        let mut draft = Draft {
            registers: self.registers,
            flags: self.flags,
            sp: self.sp,
            memory: self.memory.as_slice(),
            place: self.place,
            dma: self.dma,
            write: Write::Nothing,
        };
        match draft.step(&area) {
            Ok(turn) => match turn {
                Turn::Ran => {
                    self.registers = draft.registers;
                    self.flags = draft.flags;
                    self.sp = draft.sp;
                    self.place = draft.place;
                    self.dma = draft.dma;
                    let write = draft.write;
                    make(self.memory.as_mut_slice(), write);
                    Step80::Ran
                }
                Turn::Asked(question, back) => {
                    self.phase = Phase::Asking(question, back);
                    Step80::Asked
                }
                Turn::Ended => {
                    self.phase = Phase::Ended;
                    Step80::Ended
                }
            },
            Err(rule) => Step80::Left(rule),
        }
    }

    // What a call sees of memory.
    fn sight(&self, is_popped: bool) -> Sight<'_>
        ensures { seen_by_view (byte_over (closed_in result.uses.now) (memory_of result.memory.now) result.sp) (writable_over (closed_in result.uses.now) result.sp result.is_popped) ≡ seen_of self.now is_popped }
    {
        Sight {
            memory: self.memory.as_slice(),
            uses: self.uses.as_slice(),
            sp: self.sp,
            is_popped,
        }
    }

    // The shape of the call that the registers make.
    fn shape(&self, is_popped: bool) -> Result<Shape, Rule>
        ensures { result ≡ tagged_shape self.now is_popped }
    {
        shape_of(
            number_in(self.registers.c),
            number_in(self.registers.d),
            number_in(self.registers.e),
            self.dma,
            &self.sight(is_popped),
        )
    }

    /// What it asks, a call with the memory that it reads: none exactly where it does not ask.
    pub fn asked(&self, alloc: Global) -> Result<Option<Event>, AllocError>
        ensures idle { asks self.now ≡ false → result ≡ Ok None }
        ensures asked { (p : Program) → IsMachineOf p self.now → IfOk result (IsEventAsked p self.now) }
    {
        let Phase::Asking(question, back) = self.phase else {
            return Ok(None);
        };
        match question {
            Question::System => self.asked_call(alloc, back),
            Question::In(port) => Ok(Some(Event::In(port))),
            Question::Out(port, byte) => Ok(Some(Event::Out(port, byte))),
        }
    }

    // The call that it asks.
    fn asked_call(&self, alloc: Global, back: Return) -> Result<Option<Event>, AllocError>
        requires { self.now.phase ≡ Phase.Asking Question.System back }
        ensures { (p : Program) → IsMachineOf p self.now → IfOk result (IsEventAsked p self.now) }
    {
        match self.shape(back.is_popped) {
            Ok(shape) => {
                let request = request_of(alloc, shape, &self.sight(back.is_popped))?;
                Ok(Some(Event::Call(request)))
            }
            Err(_) => Ok(None),
        }
    }

    /// Takes a reply to what it asks, and runs on: false exactly where it does not ask or the reply does not fit.
    pub fn reply(&mut self, reply: &Reply) -> bool
        ensures { (p : Program) → IsMachineOf p self.old → IsReplyTo p self.old reply.now result self.new }
    {
        let Phase::Asking(question, back) = self.phase else {
            return false;
        };
        match question {
            Question::System => self.reply_to_call(back, reply),
            Question::In(port) => self.reply_to_in(back, port, reply),
            Question::Out(port, byte) => self.reply_to_out(back, port, byte, reply),
        }
    }

    // The reply to a call of the system.
    fn reply_to_call(&mut self, back: Return, reply: &Reply) -> bool
        requires { self.old.phase ≡ Phase.Asking Question.System back }
        ensures { (p : Program) → IsMachineOf p self.old → IsReplyTo p self.old reply.now result self.new }
    {
        let Ok(shape) = self.shape(back.is_popped) else {
            return false;
        };
        // a reply is judged by the shape alone
        let request = Request {
            shape,
            blocks: Blocks::from_vec(Vec::new(self.alloc)),
        };
        if !fits(&request, reply) {
            return false;
        }
        self.take(back, &request, reply);
        true
    }

    // The reply to an IN: its byte is put into A.
    fn reply_to_in(&mut self, back: Return, port: u8, reply: &Reply) -> bool
        requires { self.old.phase ≡ Phase.Asking (Question.In port) back }
        ensures { (p : Program) → IsMachineOf p self.old → IsReplyTo p self.old reply.now result self.new }
    {
        if !fits_event(&Event::In(port), reply) {
            return false;
        }
        self.registers.a = Cell::Num(reply.answer as u8);
        self.place = back.place;
        self.phase = Phase::Running;
        true
    }

    // The reply to an OUT.
    fn reply_to_out(&mut self, back: Return, port: u8, byte: u8, reply: &Reply) -> bool
        requires { self.old.phase ≡ Phase.Asking (Question.Out port byte) back }
        ensures { (p : Program) → IsMachineOf p self.old → IsReplyTo p self.old reply.now result self.new }
    {
        if !fits_event(&Event::Out(port, byte), reply) {
            return false;
        }
        self.place = back.place;
        self.phase = Phase::Running;
        true
    }

    // Takes a reply to a call that fits.
    fn take(&mut self, back: Return, request: &Request, reply: &Reply)
        requires fit { fits request.now reply.now ≡ true }
        requires within { All Fits reply.now.writes }
        ensures state { tagged_state self.new ≡ after_taken_reply (closed_in self.old.uses.items) (tagged_state self.old) back request.now reply.now }
        ensures uses { self.new.uses.items ≡ self.old.uses.items }
        ensures phase { self.new.phase ≡ Phase.Running }
    {
        put_blocks(self.memory.as_mut_slice(), reply.writes.as_slice());
        spoil(self.memory.as_mut_slice(), self.uses.as_slice(), self.sp);
        self.registers = answered(answer_of(request), reply.answer);
        self.flags = Flags::unknown();
        self.dma = dma_after(request, self.dma);
        self.sp = back.sp;
        self.place = back.place;
        self.phase = Phase::Running;
    }
}
