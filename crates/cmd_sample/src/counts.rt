// How much there is of what a made source has.
ghost use Rattle.std.specs.Prelude.{◌≡◌, IfOk};
ghost use Rattle.std.specs.String.{string_bytes};
ghost use Rattle.cmd_sample.specs.SampleReport.{sample_line};
ghost use Rattle.cmd_sample.specs.SampleWork.{counts_read};

use std::alloc::{AllocError, Global};

/// How many routines and lines a made source has, how many instructions and data cells its program has, how many bytes the code of
/// the lean text has, and how many of the INX, DCX and DAD have a flag to save, and how many there are.
#[derive(Clone, Copy)]
pub struct Counts {
    pub routines: u32,
    pub lines: u32,
    pub instructions: usize,
    pub cells: usize,
    pub code: usize,
    pub saved: usize,
    pub sums: usize,
}

impl Counts {
    /// The line of status 0.
    pub fn line(self, alloc: Global) -> Result<String, AllocError>
        ensures { IfOk result (λ line. string_bytes line ≡ sample_line (counts_read self)) }
    {
        let Counts {
            routines,
            lines,
            instructions,
            cells,
            code,
            saved,
            sums,
        } = self;
        format!(in alloc;
            "sample {routines}: {lines} lines, {instructions} instructions, {cells} data bytes, {code} code bytes, saves {saved} of {sums}\n"
        )
    }
}
