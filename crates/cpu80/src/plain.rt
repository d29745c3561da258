// The machine with a program.
ghost use Rattle.std.specs.Prelude.{◌≡◌, None, Some, IfOk, IfSome, length};
ghost use Rattle.dialogue.specs.Fits.{waits_in};
ghost use Rattle.dialogue.specs.Lawful.{IsLawfulEvent};
ghost use Rattle.dialogue.specs.Calls.{stepped, replied, IsOpen};
ghost use Rattle.asm80_types.specs.Program.{Program};
ghost use Rattle.cpu80.specs.Start.{start_untagged};
ghost use Rattle.cpu80.specs.Step.{program_fetch, step_untagged, replied_untagged};
ghost use Rattle.cpu80.specs.Plain.{plain_standing, OfStatus, IsPlainOf};

use crate::machine::{Untagged80, UntaggedStep};
use crate::start::{start_memory, start_processor};
use asm80_types::Program80;
use dialogue::{Event, Page, Reply};
use std::alloc::{AllocError, Global};

/// What a step answers.
#[derive(Clone, Copy, PartialEq, Eq)]
pub enum StepPlain {
    /// An instruction ran.
    Ran,
    /// The machine waits for the reply to a call of the system, or to what it asks of a port.
    Asked,
    /// The program has ended.
    Ended,
    /// No instruction of the program starts at the address that comes next, or a call has no shape.
    Stopped,
}

/// The untagged 8080 that takes its instructions from a program.
#[derive(Drop)]
pub struct Plain80 {
    machine: Untagged80,
}

impl Plain80 {
    /// The machine as a program begins: at 100H, with SP at T-2. Memory is the fill, which has a byte for each of the 65,536
    /// addresses, over it the page from 5CH up, the program's data, T at 6, and zeros at T-2 and T-1; A, B, C, D, E, H and L are
    /// bytes 8 to 14 of the fill, and S, Z, AC, P and CY are bits 0 to 4 of its byte 15.
    pub fn new(
        alloc: Global,
        program: &Program80,
        page: &Page,
        fill: &[u8],
    ) -> Result<Plain80, AllocError>
        requires { length fill.now ≡ 0x10000 }
        ensures state { IfOk result (λ c. (plain_standing c).state ≡ start_untagged program.now page.now fill.now) }
        ensures idle { IfOk result (λ c. (plain_standing c).said ≡ None) }
        ensures machine { IfOk result (λ c. (p : Program) → IsPlainOf p c) }
    {
        let memory = start_memory(alloc, program, page.bytes(), fill)?;
        let processor = start_processor(program.top(), fill, memory);
        Ok(Plain80 {
            machine: Untagged80::new(processor),
        })
    }

    /// One instruction of the program. While the machine asks it answers `Asked`, and after the end `Ended`; these change nothing,
    /// nor does a stop. `Untagged80::step` tells what the choice has.
    pub fn step(&mut self, program: &Program80, choice: u128) -> StepPlain
        ensures step { OfStatus result (λ status. (status, plain_standing self.new) ≡ stepped (step_untagged (program_fetch program.now)) (plain_standing self.old) choice) }
        ensures said { OfStatus result (λ status. IsOpen status (plain_standing self.new).said) }
        ensures machine { IsPlainOf program.now self.old → IsPlainOf program.now self.new }
    {
        match self.machine.step(program, choice) {
            UntaggedStep::Ran => StepPlain::Ran,
            UntaggedStep::Asked => StepPlain::Asked,
            UntaggedStep::Ended => StepPlain::Ended,
            UntaggedStep::NoInstruction(_) => StepPlain::Stopped,
            UntaggedStep::OddCall(_) => StepPlain::Stopped,
        }
    }

    /// What waits for its reply, a call with the memory that it reads; None where the machine does not ask, and then no memory is
    /// taken.
    pub fn asked(&self, alloc: Global) -> Result<Option<Event>, AllocError>
        ensures event { IfOk result (λ r. r ≡ waits_in (plain_standing self.now).said) }
        ensures said { IfOk result (λ r. IfSome r (λ e. Some e ≡ (plain_standing self.now).said)) }
        ensures lawful { IfOk result (λ r. IfSome r (λ e. IsLawfulEvent e)) }
        ensures idle { waits_in (plain_standing self.now).said ≡ None → result ≡ Ok None }
    {
        self.machine.asked(alloc)
    }

    /// Takes a reply to what was asked. False where the machine does not ask or the reply does not fit; then nothing changes.
    /// `Untagged80::reply` tells what the choice has.
    pub fn reply(&mut self, reply: &Reply, choice: u128) -> bool
        ensures reply { (p : Program) → IsPlainOf p self.old → (result, plain_standing self.new) ≡ replied (replied_untagged (program_fetch p)) (plain_standing self.old) reply.now choice }
        ensures machine { (p : Program) → IsPlainOf p self.old → IsPlainOf p self.new }
    {
        self.machine.reply(reply, choice)
    }
}
