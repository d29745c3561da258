// The tagged 8080 with its program.
ghost use Rattle.std.specs.Prelude.{◌≡◌, IfOk};

use asm80_types::Program80;
use cpu80_tagged::{Cpu80, Step80};
use dialogue::{Event, Page, Reply};
use emulator_loop::{Emulator, Turn, Why};
use std::alloc::{AllocError, Global};

/// The tagged 8080 with its program.
#[derive(Drop)]
pub struct Running80<'a> {
    cpu: Cpu80,
    program: &'a Program80,
}

impl<'a> Running80<'a> {
    ghost use Rattle.cpu80_tagged.specs.Start.{start80};
    ghost use Rattle.cpu80_tagged.specs.ProcessorState.{tagged_state};
    ghost use Rattle.cpu80_tagged.specs.Machine.{IsMachineOf};

    /// The machine as its program begins, with a start page.
    pub fn new(
        alloc: Global,
        program: &'a Program80,
        page: &Page,
    ) -> Result<Running80<'a>, AllocError>
        ensures start { IfOk result (λ m. tagged_state m.cpu ≡ start80 program.now page.now) }
        ensures program { IfOk result (λ m. m.program.now ≡ program.now) }
        ensures machine { IfOk result (λ m. IsMachineOf m.program.now m.cpu) }
    {
        let cpu = Cpu80::new(alloc, program, page)?;
        Ok(Running80 { cpu, program })
    }
}

impl<'a> Emulator for Running80<'a> {
    ghost use Rattle.std.specs.Prelude.{refl, []};
    ghost use Rattle.cpu80_tagged.specs.Step.{machine80, replied80};
    ghost use Rattle.cpu80_tagged.specs.ProcessorState.{tagged_state};
    ghost use Rattle.cpu80_tagged.specs.Machine.{IsMachineOf};
    ghost use Rattle.emulators.specs.Courses.{why80, course80_from, Waits80};
    ghost use Rattle.emulator_loop.proofs.OneRun.{one_run};

    ghost runs = { λ m. IsMachineOf m.program.now m.cpu };

    ghost waits = { λ m e. Waits80 m.program.now m.cpu e };

    ghost course = { λ m. course80_from m.program.now (tagged_state m.cpu) };

    ghost answered = { λ m e y. course80_from m.program.now (replied80 m.program.now (tagged_state m.cpu) e y) };

    fn turn(&mut self, alloc: Global) -> Result<Turn, AllocError> {
        match self.cpu.step(self.program) {
            Step80::Ran => Ok(Turn::Ran),
            Step80::Asked => match self.cpu.asked(alloc)? {
                Some(event) => Ok(Turn::Asks(event)),
                None => Ok(Turn::Ended),
            },
            Step80::Ended => Ok(Turn::Ended),
            Step80::Left(rule) => Ok(Turn::Stopped(Why::Left(self.cpu.place(), rule))),
        }
    }

    fn reply(&mut self, _event: &Event, reply: &Reply) {
        self.cpu.reply(reply);
    }

    ghost begins = { λ m t ys. refl };

    ghost takes = { λ m e y t ys. refl };

    ghost single = { λ m. one_run (machine80 m.program.now) [] why80 (tagged_state m.cpu) };
}
