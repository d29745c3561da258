// The machine: code, a processor, and what it has said last.
ghost use Rattle.std.specs.Prelude.{◌≡◌, ℕ, Option, Some, length};
ghost use Rattle.dialogue.specs.declared.request.Shape.{Shape};
ghost use Rattle.cpu86.specs.Step.{uses_stack};
ghost use Rattle.cpu86.specs.ProcessorState.{state_of_86};
ghost use Rattle.cpu86.specs.System.{IsShapeAsked};
ghost use Rattle.cpu86.specs.declared.cpu.Pending.TheVariants.{Answer};
ghost use Rattle.std.proofs.Props.{props};

use crate::flags::Flags;
use crate::initial_memory::start_memory;
use crate::processor::Processor;
use crate::start::Start86;
use crate::system::Interrupt;
use asm86::Image86;
use dialogue::{Blocks, Event, Page, Reply, Request, Shape, fits, fits_event, request_of};
use i86::{Instr86, Reg8, decode_at};
use std::alloc::{AllocError, Global};

/// What a step answers. The stops carry the offset of the instruction, or the function of the call.
#[derive(Clone, Copy, PartialEq, Eq)]
pub enum Step86 {
    /// An instruction ran.
    Ran,
    /// The machine waits for the reply to a call of the system, or to what it asks of a port.
    Asked,
    /// The program has ended.
    Ended,
    /// No instruction of the subset stands at this offset of the code.
    NoInstruction(u16),
    /// The instruction at this offset uses the stack, and SS is not DS.
    StackSegment(u16),
    /// The profile has no such call of this function.
    OddCall(u8),
}

/// What a machine has said last, while that is still open.
#[derive(Clone, Copy)]
enum Pending {
    Nothing,
    /// a call of this shape, which waits for its reply
    Answer(Shape),
    /// an IN of this port, which waits for its byte
    Byte(u8),
    /// an OUT to this port, of this byte, which waits until it is taken
    Taking(u8, u8),
    Ending,
}

/// The 8086 with its code.
pub struct Cpu86 {
    processor: Processor,
    code: Vec<u8>,
    pending: Pending,
    ghost asked: { (shape : Shape) → pending ≡ Answer shape → IsShapeAsked (state_of_86 processor) shape } by { Prim.hlevel props },
}

// Written out, so that letting one go is one call wherever it is done.
impl Drop for Cpu86 {
    fn drop(self) {
        let Cpu86 {
            processor: _processor,
            code: _code,
            pending: _pending,
        } = self;
    }
}

impl Cpu86 {
    ghost use Rattle.std.specs.Prelude.{None, IfOk, IfSome, Bool, ◌&&◌, ◌==◌, not};
    ghost use Rattle.dialogue.specs.Fits.{waits_in};
    ghost use Rattle.dialogue.specs.Lawful.{IsLawfulEvent};
    ghost use Rattle.dialogue.specs.Calls.{settled, stepped, replied, IsOpen, IsStepTold, IsTaken};
    ghost use Rattle.i86.specs.declared.Instr86.{Instr86};
    ghost use Rattle.i86.specs.Code.{ReadsCode};
    ghost use Rattle.cpu86.specs.Call.{call_system, replied86};
    ghost use Rattle.cpu86.specs.Step.{step86, act_from};
    ghost use Rattle.cpu86.specs.Start.{start86};
    ghost use Rattle.cpu86.specs.Starts.{start_of};
    ghost use Rattle.cpu86.specs.Standing.{standing, status_of, code_kept};

    /// The machine at the start of an image, of which it keeps a copy of the code. Memory is the fill, which has a byte for each
    /// of the 65,536 addresses, over it the page from 5CH up, and over both the image's data cells. The offset of the next
    /// instruction is 0, the DMA address is 80H, and nothing is asked.
    pub fn new(
        alloc: Global,
        image: &Image86,
        start: Start86,
        page: &Page,
        fill: &[u8],
    ) -> Result<Cpu86, AllocError>
        requires { length fill.now ≡ 0x10000 }
        ensures state { IfOk result (λ c. (standing c).state ≡ start86 image.now page.now fill.now (start_of start)) }
        ensures idle { IfOk result (λ c. (standing c).said ≡ None) }
        ensures code { IfOk result (λ c. code_kept c ≡ image.now.code) }
    {
        let code = Vec::from_slice(alloc, image.code())?;
        let memory = start_memory(alloc, fill, page.bytes(), image.cells())?;
        let processor = Processor {
            registers: start.registers(),
            sp: start.sp,
            si: start.si,
            ip: 0,
            ds: start.ds,
            ss: start.ss,
            flags: Flags::of_choice(u128::from(start.flags), 0),
            memory,
            dma: 0x80,
        };
        Ok(Cpu86 {
            processor,
            code,
            pending: Pending::Nothing,
        })
    }

    /// One instruction. While the machine asks it answers `Asked`, and after the end `Ended`; these change nothing, nor does a
    /// stop. Where an instruction uses the stack, whether SS is DS is looked at first, before an INT ends or asks. The choice has
    /// what is left undefined: after AND, OR and XOR its bit 0 is AF; after LAHF bits 0 to 2 are bits 1, 3 and 5 of AH; after a
    /// DAA of AL from 0FAH up, or from 9AH to 9FH with AF and without CF, bits 0 to 7 are AL and 8 to 12 SF ZF AF PF CF; at an
    /// INT bits 0 to 47 are the six bytes below SP, the lowest first.
    pub fn step(&mut self, choice: u128) -> Step86
        ensures step { (fetch : ℕ → Option Instr86) → ReadsCode (code_kept self.old) fetch → (status_of result, standing self.new) ≡ stepped (step86 fetch) (standing self.old) choice }
        ensures told { (fetch : ℕ → Option Instr86) → ReadsCode (code_kept self.old) fetch → (standing self.old).said ≡ None → IsStepTold (step86 fetch (standing self.old).state choice) (status_of result) (standing self.old).state (standing self.new) }
        ensures said { IsOpen (status_of result) (standing self.new).said }
        ensures code { code_kept self.new ≡ code_kept self.old }
    {
        match self.pending {
            Pending::Nothing => self.run_one(choice),
            Pending::Answer(_) | Pending::Byte(_) | Pending::Taking(_, _) => Step86::Asked,
            Pending::Ending => Step86::Ended,
        }
    }

    // One instruction, where nothing is open.
    fn run_one(&mut self, choice: u128) -> Step86
        requires { self.old.pending ≡ Pending.Nothing }
        ensures step { (fetch : ℕ → Option Instr86) → ReadsCode (code_kept self.old) fetch → (status_of result, standing self.new) ≡ settled (standing self.old).state (step86 fetch (standing self.old).state choice) }
        ensures said { IsOpen (status_of result) (standing self.new).said }
        ensures code { code_kept self.new ≡ code_kept self.old }
    {
        let at = self.processor.ip;
        match decode_at(self.code.as_slice(), at) {
            None => Step86::NoInstruction(at),
            Some((instr, length)) => self.act(instr, at.wrapping_add(u16::from(length)), choice),
        }
    }

    // An instruction, where nothing is open and the next one stands at `next`.
    fn act(&mut self, instr: Instr86, next: u16, choice: u128) -> Step86
        requires { self.old.pending ≡ Pending.Nothing }
        ensures act { (status_of result, standing self.new) ≡ settled (standing self.old).state (act_from (standing self.old).state.ip instr (record ((standing self.old).state) { ip = next }) choice) }
        ensures said { IsOpen (status_of result) (standing self.new).said }
        ensures code { code_kept self.new ≡ code_kept self.old }
    {
        let at = self.processor.ip;
        if self.lacks_stack(instr) {
            return Step86::StackSegment(at);
        }
        match instr {
            Instr86::Int224 => self.call_system(next, choice),
            Instr86::InAl(port) => {
                self.processor.ip = next;
                self.pending = Pending::Byte(port);
                Step86::Asked
            }
            Instr86::OutAl(port) => {
                self.processor.ip = next;
                self.pending = Pending::Taking(port, self.processor.registers.al);
                Step86::Asked
            }
            _ => {
                self.processor.ip = next;
                self.processor.execute(instr, choice);
                Step86::Ran
            }
        }
    }

    // Whether an instruction uses the stack while SS is not DS.
    fn lacks_stack(&self, instr: Instr86) -> bool
        ensures { result ≡ (uses_stack instr && not ((standing self.now).state.ss == (standing self.now).state.ds)) }
    {
        uses_stack(instr) && self.processor.ss != self.processor.ds
    }

    // INT 224, where nothing is open and the stack may be used.
    fn call_system(&mut self, next: u16, choice: u128) -> Step86
        requires { self.old.pending ≡ Pending.Nothing }
        ensures call { (status_of result, standing self.new) ≡ settled (standing self.old).state (call_system (record ((standing self.old).state) { ip = next }) choice) }
        ensures said { IsOpen (status_of result) (standing self.new).said }
        ensures code { code_kept self.new ≡ code_kept self.old }
    {
        match self.processor.interrupt(next, choice) {
            Interrupt::Ends => {
                self.pending = Pending::Ending;
                Step86::Ended
            }
            Interrupt::Asks(shape) => {
                self.pending = Pending::Answer(shape);
                Step86::Asked
            }
            Interrupt::Odd(function) => Step86::OddCall(function),
        }
    }

    /// What waits for its reply, a call with the memory that it reads; None where the machine does not ask, and then no memory is
    /// taken.
    pub fn asked(&self, alloc: Global) -> Result<Option<Event>, AllocError>
        ensures event { IfOk result (λ r. r ≡ waits_in (standing self.now).said) }
        ensures said { IfOk result (λ r. IfSome r (λ e. Some e ≡ (standing self.now).said)) }
        ensures lawful { IfOk result (λ r. IfSome r (λ e. IsLawfulEvent e)) }
        ensures idle { waits_in (standing self.now).said ≡ None → result ≡ Ok None }
    {
        match self.pending {
            Pending::Answer(shape) => {
                let request = request_of(alloc, shape, &self.processor.memory)?;
                Ok(Some(Event::Call(request)))
            }
            Pending::Byte(port) => Ok(Some(Event::In(port))),
            Pending::Taking(port, byte) => Ok(Some(Event::Out(port, byte))),
            Pending::Nothing | Pending::Ending => Ok(None),
        }
    }

    /// Takes a reply to what was asked. False where the machine does not ask or the reply does not fit; then nothing changes.
    /// After the reply to a call, but for the answer, bits 0 to 79 of the choice are AX CX DX BX SI, and 80 to 84 SF ZF AF PF CF.
    /// After the reply to an IN its byte is in AL. The ports change nothing else, and use no bit of the choice.
    pub fn reply(&mut self, reply: &Reply, choice: u128) -> bool
        ensures reply { (result, standing self.new) ≡ replied replied86 (standing self.old) reply.now choice }
        ensures taken { (e : Event) → (standing self.old).said ≡ Some e → IsTaken replied86 e result reply.now choice (standing self.old).state (standing self.new) }
        ensures code { code_kept self.new ≡ code_kept self.old }
    {
        match self.pending {
            Pending::Answer(shape) => self.reply_to_call(shape, reply, choice),
            Pending::Byte(port) => self.reply_to_in(port, reply, choice),
            Pending::Taking(port, byte) => self.reply_to_out(port, byte, reply, choice),
            Pending::Nothing | Pending::Ending => false,
        }
    }

    // The reply to a call of the system.
    fn reply_to_call(&mut self, shape: Shape, reply: &Reply, choice: u128) -> bool
        requires { self.old.pending ≡ Pending.Answer shape }
        ensures reply { (result, standing self.new) ≡ replied replied86 (standing self.old) reply.now choice }
        ensures code { code_kept self.new ≡ code_kept self.old }
    {
        // a reply is judged by the shape alone
        let request = Request {
            shape,
            blocks: Blocks::from_vec(Vec::new(*self.code.allocator())),
        };
        if !fits(&request, reply) {
            return false;
        }
        self.pending = Pending::Nothing;
        self.processor.take_reply(&request, reply, choice);
        true
    }

    // The reply to an IN: its byte is put into AL. The choice is not used.
    fn reply_to_in(&mut self, port: u8, reply: &Reply, choice: u128) -> bool
        requires { self.old.pending ≡ Pending.Byte port }
        ensures reply { (result, standing self.new) ≡ replied replied86 (standing self.old) reply.now choice }
        ensures code { code_kept self.new ≡ code_kept self.old }
    {
        if !fits_event(&Event::In(port), reply) {
            return false;
        }
        self.pending = Pending::Nothing;
        self.processor.set8(Reg8::Al, reply.answer as u8);
        true
    }

    // The reply to an OUT, which changes nothing.
    fn reply_to_out(&mut self, port: u8, byte: u8, reply: &Reply, choice: u128) -> bool
        requires { self.old.pending ≡ Pending.Taking port byte }
        ensures reply { (result, standing self.new) ≡ replied replied86 (standing self.old) reply.now choice }
        ensures code { code_kept self.new ≡ code_kept self.old }
    {
        if !fits_event(&Event::Out(port, byte), reply) {
            return false;
        }
        self.pending = Pending::Nothing;
        true
    }

    /// The offset of the next instruction, also while the machine asks; after the end that of the INT.
    pub fn ip(&self) -> u16
        ensures { result ≡ (standing self.now).state.ip }
    {
        self.processor.ip
    }

    /// The processor: registers, segments, flags, SP, the offset of the next instruction, the DMA address and memory, also while
    /// the machine asks.
    pub fn processor(&self) -> &Processor
        ensures { state_of_86 result.now ≡ (standing self.now).state }
    {
        &self.processor
    }
}

// Whether an instruction uses the stack.
fn uses_stack(instr: Instr86) -> bool
    ensures { result ≡ uses_stack instr }
{
    matches!(
        instr,
        Instr86::Push(_) | Instr86::Pop(_) | Instr86::CallNear(_) | Instr86::Ret | Instr86::Int224
    )
}
