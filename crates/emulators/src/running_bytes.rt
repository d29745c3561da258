// The 8080 that fetches bytes, with the choice that it takes at every step.
ghost use Rattle.std.specs.Prelude.{◌≡◌, true, length, IfOk};
ghost use Rattle.asm80_types.specs.Program.{is_top};

use dialogue::{Event, Page, Reply};
use emulator_loop::{Emulator, Turn, Why};
use hex_file::HexFile;
use i80_bytes::{Byte80, StepBytes};
use std::alloc::{AllocError, Global};

/// The 8080 that fetches bytes, with the choice that it takes at every step.
#[derive(Drop)]
pub struct RunningBytes {
    machine: Byte80,
    choice: u128,
}

impl RunningBytes {
    ghost use Rattle.i80_bytes.specs.Start.{start_of_bytes};
    ghost use Rattle.i80_bytes.specs.Standing.{byte_standing};
    ghost use Rattle.emulators.specs.ByteCourses.{RunsBytes};

    /// The machine as the cells of a HEX file begin, below a top of the program area, over a fill of memory and with a start page.
    pub fn new(
        alloc: Global,
        hex: &HexFile,
        top: u16,
        page: &Page,
        fill: &[u8],
        choice: u128,
    ) -> Result<RunningBytes, AllocError>
        requires top { is_top top ≡ true }
        requires fill { length fill.now ≡ 0x10000 }
        ensures state { IfOk result (λ m. (byte_standing m.machine).state ≡ start_of_bytes hex.now top page.now fill.now) }
        ensures choice { IfOk result (λ m. m.choice ≡ choice) }
        ensures runs { IfOk result (λ m. RunsBytes m.machine) }
    {
        let machine = Byte80::new(alloc, hex, top, page, fill)?;
        Ok(RunningBytes { machine, choice })
    }
}

impl Emulator for RunningBytes {
    ghost use Rattle.std.specs.Prelude.{refl, ◌∷◌, []};
    ghost use Rattle.cpu80.specs.Step.{replied_untagged, untagged_machine};
    ghost use Rattle.i80_bytes.specs.Fetch.{fetch_of_bytes};
    ghost use Rattle.i80_bytes.specs.Standing.{byte_standing};
    ghost use Rattle.emulators.specs.ByteCourses.{why_bytes, course_bytes_from, RunsBytes, WaitsBytes};
    ghost use Rattle.emulator_loop.proofs.OneRun.{one_run};

    ghost runs = { λ m. RunsBytes m.machine };

    ghost waits = { λ m e. WaitsBytes m.machine e };

    ghost course = { λ m. course_bytes_from m.choice (byte_standing m.machine).state };

    ghost answered = { λ m e y. course_bytes_from m.choice (replied_untagged fetch_of_bytes (byte_standing m.machine).state e y m.choice) };

    fn turn(&mut self, alloc: Global) -> Result<Turn, AllocError> {
        match self.machine.step(self.choice) {
            StepBytes::Ran => Ok(Turn::Ran),
            StepBytes::Asked => match self.machine.asked(alloc)? {
                Some(event) => Ok(Turn::Asks(event)),
                None => Ok(Turn::Ended),
            },
            StepBytes::Ended => Ok(Turn::Ended),
            StepBytes::NoInstruction(at) => Ok(Turn::Stopped(Why::NoInstruction(at))),
            StepBytes::OddCall(function) => Ok(Turn::Stopped(Why::OddCall(
                self.machine.pc(),
                function,
            ))),
        }
    }

    fn reply(&mut self, _event: &Event, reply: &Reply) {
        self.machine.reply(reply, self.choice);
    }

    ghost begins = { λ m t ys. refl };

    ghost takes = { λ m e y t ys. refl };

    ghost single = { λ m. one_run (untagged_machine fetch_of_bytes) (m.choice ∷ []) why_bytes (byte_standing m.machine).state };
}
