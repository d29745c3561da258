// The 8086 with the choice that it takes at every step.
ghost use Rattle.std.specs.Prelude.{◌≡◌, ◌∷◌, [], length, IfOk};

use crate::laws::decoded_is_only_reader;
use asm86::Image86;
use cpu86::{Cpu86, Start86, Step86};
use dialogue::{Event, Page, Reply};
use emulator_loop::{Emulator, Turn, Why};
use std::alloc::{AllocError, Global};

/// The 8086 with the choice that it takes at every step.
#[derive(Drop)]
pub struct Running86 {
    cpu: Cpu86,
    choice: u128,
}

impl Running86 {
    ghost use Rattle.cpu86.specs.Start.{start86};
    ghost use Rattle.cpu86.specs.Starts.{start_of};
    ghost use Rattle.cpu86.specs.Standing.{standing, code_kept};
    ghost use Rattle.i86.specs.Decode.{IsOnlyReader};
    ghost use Rattle.i86.specs.Decoder.{decoded};
    ghost use Rattle.emulators.specs.Courses.{Runs86};

    /// The machine at the start of an image.
    pub fn new(
        alloc: Global,
        image: &Image86,
        start: Start86,
        page: &Page,
        fill: &[u8],
        choice: u128,
    ) -> Result<Running86, AllocError>
        requires { length fill.now ≡ 0x10000 }
        ensures state { IfOk result (λ m. (standing m.cpu).state ≡ start86 image.now page.now fill.now (start_of start)) }
        ensures code { IfOk result (λ m. code_kept m.cpu ≡ image.now.code) }
        ensures choice { IfOk result (λ m. m.choice ≡ choice) }
        ensures runs { IfOk result (λ m. Runs86 m.cpu) }
        ensures reader { IsOnlyReader image.now.code (decoded image.now.code) }
    {
        decoded_is_only_reader(image.code());
        let cpu = Cpu86::new(alloc, image, start, page, fill)?;
        Ok(Running86 { cpu, choice })
    }
}

impl Emulator for Running86 {
    ghost use Rattle.std.specs.Prelude.{refl};
    ghost use Rattle.cpu86.specs.Call.{replied86};
    ghost use Rattle.cpu86.specs.Standing.{standing, code_kept};
    ghost use Rattle.i86.specs.Decoder.{decoded};
    ghost use Rattle.cpu86.specs.Step.{machine86};
    ghost use Rattle.emulators.specs.Courses.{why86, course86_from, Runs86, Waits86};
    ghost use Rattle.emulator_loop.proofs.OneRun.{one_run};

    ghost runs = { λ m. Runs86 m.cpu };

    ghost waits = { λ m e. Waits86 m.cpu e };

    ghost course = { λ m. course86_from (code_kept m.cpu) m.choice (standing m.cpu).state };

    ghost answered = { λ m e y. course86_from (code_kept m.cpu) m.choice (replied86 (standing m.cpu).state e y m.choice) };

    fn turn(&mut self, alloc: Global) -> Result<Turn, AllocError> {
        match self.cpu.step(self.choice) {
            Step86::Ran => Ok(Turn::Ran),
            Step86::Asked => match self.cpu.asked(alloc)? {
                Some(event) => Ok(Turn::Asks(event)),
                None => Ok(Turn::Ended),
            },
            Step86::Ended => Ok(Turn::Ended),
            Step86::NoInstruction(at) => Ok(Turn::Stopped(Why::NoInstruction(at))),
            Step86::StackSegment(at) => Ok(Turn::Stopped(Why::StackSegment(at))),
            Step86::OddCall(function) => {
                Ok(Turn::Stopped(Why::OddCall(self.cpu.ip(), function)))
            }
        }
    }

    fn reply(&mut self, _event: &Event, reply: &Reply) {
        self.cpu.reply(reply, self.choice);
    }

    ghost begins = { λ m t ys. refl };

    ghost takes = { λ m e y t ys. refl };

    ghost single = { λ m. one_run (machine86 (decoded (code_kept m.cpu))) (m.choice ∷ []) why86 (standing m.cpu).state };
}
