// The machines with their programs, one like the other.
use crate::events::is_same;
use crate::states;
use crate::tagged::{Held, push_changes};
use asm80_types::Program80;
use cells::{Place, Rule};
use cpu80::{Cpu80, Plain80, Step80, StepPlain};
use cpu86::processor::Processor;
use cpu86::{Cpu86, Step86};
use dialogue::{Event, Reply};
use std::alloc::{AllocError, Global};

/// What a step answers.
#[derive(Clone, Copy)]
pub enum Step {
    Ran,
    Asked,
    Ended,
    Stopped(&'static str),
    StoppedAt(&'static str, u16),
}

/// A machine with its program.
pub trait Machine {
    // It may go on.
    ghost runs: { Self → Type 0 };

    /// One instruction.
    fn step(&mut self, choice: u128) -> Step
        requires { runs self.old }
        ensures { runs self.new };

    /// Where the next instruction stands; None where the program returns to its end, and where the machine does not tell.
    fn place(&self) -> Option<u16>;

    /// What waits for its reply.
    fn asked(&self, alloc: Global) -> Result<Option<Event>, AllocError>;

    /// Takes a reply, if it fits.
    fn reply(&mut self, reply: &Reply, choice: u128) -> bool
        requires { runs self.old }
        ensures { runs self.new };

    /// Adds the places in which what it holds differs from what it held when this was called last, or at the start. By default
    /// it does not tell.
    fn push_changes(&mut self, _alloc: Global, text: &mut String) -> Result<(), AllocError>
        requires { runs self.old }
        ensures { runs self.new }
    {
        text.push_str(" no such word")
    }
}

/// The tagged 8080, and what it held before.
#[derive(Drop)]
pub struct Running80<'a> {
    pub cpu: Cpu80,
    pub program: &'a Program80,
    pub before: Held,
}

impl<'a> Machine for Running80<'a> {
    ghost use Rattle.cpu80_tagged.specs.Machine.{IsMachineOf};

    ghost runs = { λ m. IsMachineOf m.program.now m.cpu };

    fn step(&mut self, _choice: u128) -> Step {
        match self.cpu.step(self.program) {
            Step80::Ran => Step::Ran,
            Step80::Asked => Step::Asked,
            Step80::Ended => Step::Ended,
            Step80::Left(rule) => Step::StoppedAt(" left by P", number_of(rule)),
        }
    }

    fn place(&self) -> Option<u16> {
        match self.cpu.place() {
            Place::At(at) => Some(at),
            Place::Exit => None,
        }
    }

    fn asked(&self, alloc: Global) -> Result<Option<Event>, AllocError> {
        self.cpu.asked(alloc)
    }

    fn reply(&mut self, reply: &Reply, _choice: u128) -> bool {
        self.cpu.reply(reply)
    }

    fn push_changes(&mut self, alloc: Global, text: &mut String) -> Result<(), AllocError> {
        push_changes(text, &self.before, &self.cpu.held())?;
        self.before = Held::of(alloc, &self.cpu.held())?;
        Ok(())
    }
}

// The number of a rule: that of P1 is 1.
fn number_of(rule: Rule) -> u16 {
    (rule as u16).saturating_add(1)
}

/// The untagged 8080.
#[derive(Drop)]
pub struct Bytes80<'a> {
    pub cpu: Plain80,
    pub program: &'a Program80,
}

impl<'a> Machine for Bytes80<'a> {
    ghost use Rattle.std.specs.Prelude.{⊤};

    ghost runs = { λ m. ⊤ };

    fn step(&mut self, choice: u128) -> Step {
        match self.cpu.step(self.program, choice) {
            StepPlain::Ran => Step::Ran,
            StepPlain::Asked => Step::Asked,
            StepPlain::Ended => Step::Ended,
            StepPlain::Stopped => Step::Stopped(" stopped"),
        }
    }

    fn place(&self) -> Option<u16> {
        None
    }

    fn asked(&self, alloc: Global) -> Result<Option<Event>, AllocError> {
        self.cpu.asked(alloc)
    }

    fn reply(&mut self, reply: &Reply, choice: u128) -> bool {
        self.cpu.reply(reply, choice)
    }
}

/// The 8086, and its processor as it was before.
#[derive(Drop)]
pub struct Bytes86 {
    pub cpu: Cpu86,
    pub before: Processor,
}

impl Machine for Bytes86 {
    ghost use Rattle.std.specs.Prelude.{⊤};

    ghost runs = { λ m. ⊤ };

    fn step(&mut self, choice: u128) -> Step {
        match self.cpu.step(choice) {
            Step86::Ran => Step::Ran,
            Step86::Asked => Step::Asked,
            Step86::Ended => Step::Ended,
            Step86::NoInstruction(at) => Step::StoppedAt(" no instruction at ", at),
            Step86::StackSegment(at) => Step::StoppedAt(" stack segment at ", at),
            Step86::OddCall(function) => Step::StoppedAt(" odd call ", u16::from(function)),
        }
    }

    fn place(&self) -> Option<u16> {
        Some(self.cpu.ip())
    }

    fn asked(&self, alloc: Global) -> Result<Option<Event>, AllocError> {
        self.cpu.asked(alloc)
    }

    fn reply(&mut self, reply: &Reply, choice: u128) -> bool {
        self.cpu.reply(reply, choice)
    }

    fn push_changes(&mut self, alloc: Global, text: &mut String) -> Result<(), AllocError> {
        states::push_changes(text, &self.before, self.cpu.processor())?;
        self.before = states::copy(alloc, self.cpu.processor())?;
        Ok(())
    }
}

/// Both machines of the 8080 side by side.
#[derive(Drop)]
pub struct Both80<'a> {
    pub tagged: Running80<'a>,
    pub bytes: Bytes80<'a>,
}

impl<'a> Machine for Both80<'a> {
    ghost use Rattle.cpu80_tagged.specs.Machine.{IsMachineOf};

    ghost runs = { λ m. IsMachineOf m.tagged.program.now m.tagged.cpu };

    fn step(&mut self, choice: u128) -> Step {
        match (self.tagged.step(choice), self.bytes.step(choice)) {
            (Step::Ran, Step::Ran) => Step::Ran,
            (Step::Asked, Step::Asked) => Step::Asked,
            (Step::Ended, Step::Ended) => Step::Ended,
            _ => Step::Stopped(" unlike steps"),
        }
    }

    fn place(&self) -> Option<u16> {
        self.tagged.place()
    }

    fn asked(&self, alloc: Global) -> Result<Option<Event>, AllocError> {
        let event = self.tagged.asked(alloc)?;
        let other = self.bytes.asked(alloc)?;
        let is_same = is_same(alloc, event.as_ref(), other.as_ref())?;
        Ok(if is_same { event } else { None })
    }

    fn reply(&mut self, reply: &Reply, choice: u128) -> bool {
        self.tagged.reply(reply, choice) && self.bytes.reply(reply, choice)
    }
}
