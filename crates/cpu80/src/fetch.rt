// Where the machine takes its instructions from.
ghost use Rattle.std.specs.Prelude.{◌≡◌, IfSome, IsTrue};
ghost use Rattle.i80.specs.Columns.{is_well_formed};
ghost use Rattle.cpu80.specs.Step.{Fetch, program_fetch};
ghost use Rattle.cpu80.specs.ProcessorState.{untagged_state};

use crate::processor::Processor;
use asm80_types::Program80;
use i80::Instr80;

/// What gives the machine its instructions, as a program does, or the bytes of memory.
pub trait Fetch80 {
    ghost fetch: { Self → Fetch };

    /// The instruction that stands at an address, as the processor is now: none where none does.
    fn fetch(&self, processor: &Processor, at: u16) -> Option<Instr80>
        ensures value { result ≡ fetch self.now (untagged_state processor.now) at }
        ensures well_formed { IfSome result (λ i. IsTrue (is_well_formed i)) };
}

// The program's own instructions, whatever memory holds.
impl Fetch80 for Program80 {
    ghost fetch = { program_fetch };

    fn fetch(&self, _processor: &Processor, at: u16) -> Option<Instr80> {
        self.instr_at(at)
    }
}
