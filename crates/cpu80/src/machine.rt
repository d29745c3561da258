// The machine: a processor, and what it has said last.
ghost use Rattle.std.specs.Prelude.{◌≡◌};
ghost use Rattle.dialogue.specs.declared.request.Shape.{Shape};
ghost use Rattle.cpu80.specs.ProcessorState.{untagged_state};
ghost use Rattle.cpu80.specs.Back.{IsUntaggedCall};
ghost use Rattle.cpu80.specs.declared.machine.Pending.TheVariants.{Answer};
ghost use Rattle.cpu80.specs.declared.system.Return.{Return};
ghost use Rattle.std.proofs.Props.{props};

use crate::fetch::Fetch80;
use crate::processor::Processor;
use crate::system::Return;
use dialogue::{Blocks, Event, Reply, Request, Shape, fits, fits_event, request_of};
use std::alloc::{AllocError, Global};

/// What a step answers. The stops carry the address that comes next, or the function of the call.
#[derive(Clone, Copy)]
pub enum UntaggedStep {
    /// An instruction ran.
    Ran,
    /// The machine waits for the reply to a call of the system, or to what it asks of a port.
    Asked,
    /// The program has ended.
    Ended,
    /// No instruction stands at this address, which comes next.
    NoInstruction(u16),
    /// A call of this function has no shape.
    OddCall(u8),
}

/// What a machine has said last, while that is still open, and where it goes on after the reply.
#[derive(Clone, Copy)]
pub(crate) enum Pending {
    Nothing,
    /// a call of this shape, which waits for its reply
    Answer(Shape, Return),
    /// an IN of this port, which waits for its byte
    Byte(u8, Return),
    /// an OUT to this port, of this byte, which waits until it is taken
    Taking(u8, u8, Return),
    Ending,
}

/// The untagged 8080, whatever its instructions are taken from.
#[derive(Drop)]
pub struct Untagged80 {
    pub(crate) processor: Processor,
    pub(crate) pending: Pending,
    ghost asked: { (shape : Shape) (back : Return) → pending ≡ Answer shape back → IsUntaggedCall (untagged_state processor) shape } by { Prim.hlevel props },
}

impl Untagged80 {
    ghost use Rattle.std.specs.Prelude.{ℕ, None, Some, IfOk, IfSome};
    ghost use Rattle.dialogue.specs.declared.request.Event.{Event};
    ghost use Rattle.dialogue.specs.Fits.{waits_in};
    ghost use Rattle.dialogue.specs.Lawful.{IsLawfulEvent};
    ghost use Rattle.dialogue.specs.Calls.{stepped, replied, IsOpen, IsStepTold, IsTaken};
    ghost use Rattle.cpu80.specs.Step.{Fetch, step_untagged, replied_untagged};
    ghost use Rattle.cpu80.specs.Standing.{standing, status_of, IsMachineOf};

    /// The machine with a processor, before its first step.
    pub fn new(processor: Processor) -> Untagged80
        ensures state { (standing result).state ≡ untagged_state processor }
        ensures idle { (standing result).said ≡ None }
        ensures machine { (fetch : Fetch) → IsMachineOf fetch result }
    {
        Untagged80 {
            processor,
            pending: Pending::Nothing,
        }
    }

    /// One instruction. While the machine asks it answers `Asked`, and after the end `Ended`; these change nothing, nor does a
    /// stop. The choice has what is unknown: bit 0 is an AC that an operation leaves unknown; bits 0 to 2 are bits 1, 3 and 5 of
    /// the byte that PUSH PSW stores; after a DAA of A from 0FAH up, or from 9AH to 9FH with AC and without CY, bits 0 to 7 are A
    /// and 8 to 12 S Z AC P CY.
    pub fn step<F: Fetch80>(&mut self, code: &F, choice: u128) -> UntaggedStep
        ensures step { (status_of result, standing self.new) ≡ stepped (step_untagged (F.fetch code.now)) (standing self.old) choice }
        ensures told { (standing self.old).said ≡ None → IsStepTold (step_untagged (F.fetch code.now) (standing self.old).state choice) (status_of result) (standing self.old).state (standing self.new) }
        ensures said { IsOpen (status_of result) (standing self.new).said }
        ensures machine { IsMachineOf (F.fetch code.now) self.old → IsMachineOf (F.fetch code.now) self.new }
    {
        match self.pending {
            Pending::Nothing => self.run_one(code, choice),
            Pending::Answer(_, _) | Pending::Byte(_, _) | Pending::Taking(_, _, _) =>
                UntaggedStep::Asked,
            Pending::Ending => UntaggedStep::Ended,
        }
    }

    /// What waits for its reply, a call with the memory that it reads; None where the machine does not ask, and then no memory is
    /// taken.
    pub fn asked(&self, alloc: Global) -> Result<Option<Event>, AllocError>
        ensures event { IfOk result (λ r. r ≡ waits_in (standing self.now).said) }
        ensures said { IfOk result (λ r. IfSome r (λ e. Some e ≡ (standing self.now).said)) }
        ensures lawful { IfOk result (λ r. IfSome r (λ e. IsLawfulEvent e)) }
        ensures idle { waits_in (standing self.now).said ≡ None → result ≡ Ok None }
    {
        match self.pending {
            Pending::Answer(shape, _) => {
                let request = request_of(alloc, shape, &self.processor.memory)?;
                Ok(Some(Event::Call(request)))
            }
            Pending::Byte(port, _) => Ok(Some(Event::In(port))),
            Pending::Taking(port, byte, _) => Ok(Some(Event::Out(port, byte))),
            Pending::Nothing | Pending::Ending => Ok(None),
        }
    }

    /// Takes a reply to what was asked. False where the machine does not ask or the reply does not fit; then nothing changes.
    /// After the reply to a call, but for the answer, A is bits 0 to 7 of the choice, BC, DE and HL are the words from bits 16, 32
    /// and 48 up, and S Z AC P CY are bits 80 to 84. After the reply to an IN its byte is in A. The ports use no bit of the choice.
    pub fn reply(&mut self, reply: &Reply, choice: u128) -> bool
        ensures reply { (fetch : Fetch) → IsMachineOf fetch self.old → (result, standing self.new) ≡ replied (replied_untagged fetch) (standing self.old) reply.now choice }
        ensures taken { (fetch : Fetch) (e : Event) → IsMachineOf fetch self.old → (standing self.old).said ≡ Some e → IsTaken (replied_untagged fetch) e result reply.now choice (standing self.old).state (standing self.new) }
        ensures machine { (fetch : Fetch) → IsMachineOf fetch self.old → IsMachineOf fetch self.new }
    {
        match self.pending {
            Pending::Answer(shape, back) => self.reply_to_call(shape, back, reply, choice),
            Pending::Byte(port, back) => self.reply_to_in(port, back, reply),
            Pending::Taking(port, byte, back) => self.reply_to_out(port, byte, back, reply),
            Pending::Nothing | Pending::Ending => false,
        }
    }

    // The reply to a call of the system.
    fn reply_to_call(&mut self, shape: Shape, back: Return, reply: &Reply, choice: u128) -> bool
        requires { self.old.pending ≡ Pending.Answer shape back }
        ensures reply { (fetch : Fetch) → IsMachineOf fetch self.old → (result, standing self.new) ≡ replied (replied_untagged fetch) (standing self.old) reply.now choice }
        ensures machine { (fetch : Fetch) → IsMachineOf fetch self.old → IsMachineOf fetch self.new }
    {
        // a reply is judged by the shape alone
        let request = Request {
            shape,
            blocks: Blocks::from_vec(Vec::new(*self.processor.memory.bytes.allocator())),
        };
        if !fits(&request, reply) {
            return false;
        }
        self.pending = Pending::Nothing;
        self.processor.take_reply(back, &request, reply, choice);
        true
    }

    // The reply to an IN: its byte is put into A.
    fn reply_to_in(&mut self, port: u8, back: Return, reply: &Reply) -> bool
        requires { self.old.pending ≡ Pending.Byte port back }
        ensures reply { (fetch : Fetch) (choice : ℕ) → IsMachineOf fetch self.old → (result, standing self.new) ≡ replied (replied_untagged fetch) (standing self.old) reply.now choice }
        ensures machine { (fetch : Fetch) → IsMachineOf fetch self.old → IsMachineOf fetch self.new }
    {
        if !fits_event(&Event::In(port), reply) {
            return false;
        }
        self.pending = Pending::Nothing;
        self.processor.registers.a = reply.answer as u8;
        self.processor.place = back.place;
        true
    }

    // The reply to an OUT, which changes nothing but the place.
    fn reply_to_out(&mut self, port: u8, byte: u8, back: Return, reply: &Reply) -> bool
        requires { self.old.pending ≡ Pending.Taking port byte back }
        ensures reply { (fetch : Fetch) (choice : ℕ) → IsMachineOf fetch self.old → (result, standing self.new) ≡ replied (replied_untagged fetch) (standing self.old) reply.now choice }
        ensures machine { (fetch : Fetch) → IsMachineOf fetch self.old → IsMachineOf fetch self.new }
    {
        if !fits_event(&Event::Out(port, byte), reply) {
            return false;
        }
        self.pending = Pending::Nothing;
        self.processor.place = back.place;
        true
    }

    /// The processor: registers, flags, SP, memory, the place that comes next and the DMA address, also while the machine asks.
    pub fn processor(&self) -> &Processor
        ensures { untagged_state result.now ≡ (standing self.now).state }
    {
        &self.processor
    }
}
