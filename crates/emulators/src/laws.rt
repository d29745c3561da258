// Laws of the runs of the machines, and of the code that the 8086 runs.
ghost use Rattle.std.specs.Prelude.{ℕ, List, Option};
ghost use Rattle.i86.specs.declared.Instr86.{Instr86};
ghost use Rattle.i86.specs.Decode.{IsOnlyReader};
ghost use Rattle.i86.specs.Decoder.{decoded};
ghost use Rattle.asm80_types.specs.Program.{Program};
ghost use Rattle.asm86_line_types.specs.Image.{Image};
ghost use Rattle.cpu86.specs.Start.{Start};
ghost use Rattle.emulator_loop.specs.Talk.{HasOneRun};
ghost use Rattle.cpu80.specs.Step.{Fetch};
ghost use Rattle.emulators.specs.Courses.{course80, course86};
ghost use Rattle.emulators.specs.ByteCourses.{course_bytes};

/// A law: over any devices, each program of the 8080, each image of the 8086, and all cells that an 8080 fetches have one run.
pub fn runs_are_one()
    ensures of_80 { (p : Program) (page : List ℕ) → HasOneRun (course80 p page) }
    ensures of_86 { (fetch : ℕ → Option Instr86) (image : Image) (page fill : List ℕ) (start : Start) (choices : List ℕ) → HasOneRun (course86 fetch image page fill start choices) }
    ensures of_bytes { (fetch : Fetch) (cells : List (ℕ × ℕ)) (top : ℕ) (page fill choices : List ℕ) → HasOneRun (course_bytes fetch cells top page fill choices) }
{}

/// A law: what is decoded of a code of bytes is its one reader.
pub fn decoded_is_only_reader(code: &[u8])
    ensures { IsOnlyReader code.now (decoded code.now) }
{}
