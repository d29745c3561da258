// The made source with its program, the lean text of that, and the line that says how much it is.
ghost use Rattle.std.specs.Prelude.{◌≡◌, ◌<◌, ◌^◌, IfOk, length};
ghost use Rattle.std.specs.String.{string_bytes};
ghost use Rattle.asm80_text.specs.Intel.{intel_reading};
ghost use Rattle.asm80_source_def.specs.Source.{IsSource};
ghost use Rattle.templates.specs.declared.translation.Mode.TheVariants.{Lean};
ghost use Rattle.templates.specs.Translation.{IsText, CodeFits};
ghost use Rattle.cmd_sample.specs.Sample.{sample_text};
ghost use Rattle.cmd_sample.specs.SampleReport.{counts_of, sample_top, IsSampleLine};
ghost use Rattle.cmd_sample.specs.SampleWork.{counts_read};
ghost use Rattle.cmd_sample.specs.Samples.{IsCount};

use crate::counts::Counts;
use crate::{line_count, sample_code_fits, sample_is_accepted, sample_is_read, sample_text};
use asm80_text::{Intel, stream_has_one_outcome};
use asm80_types::Program80;
use asm86_line_types::{Line86, code_size};
use cmd_common::program_of_bytes;
use cmd_lists::{Saving, saved_among, savings_of};
use std::alloc::{AllocError, Global};
use templates::{CoreFault, Mode, translate};

/// The top of the program area that a made source is for.
const TOP: u16 = 0xF000;

/// A made source, and the line that says how much it is.
#[derive(Drop)]
pub struct Made {
    pub source: Vec<u8>,
    pub line: String,
}

/// The made source of so many routines, 1 to 500.
pub fn make(alloc: Global, routines: u32) -> Result<Made, AllocError>
    requires { IsCount routines }
    ensures source { IfOk result (λ made. made.source.items ≡ sample_text routines) }
    ensures line { IfOk result (λ made. IsSampleLine routines (string_bytes made.line)) }
{
    let source = sample_text(alloc, routines)?;
    let line = line_of(alloc, source.as_slice(), routines)?;
    Ok(Made { source, line })
}

// The line of a made source.
fn line_of(alloc: Global, source: &[u8], routines: u32) -> Result<String, AllocError>
    requires count { IsCount routines }
    requires source { source.now ≡ sample_text routines }
    ensures { IfOk result (λ line. IsSampleLine routines (string_bytes line)) }
{
    let program = made_program(alloc, source, routines)?;
    let lines = lean_text(alloc, &program, routines)?;
    let savings = savings_of(alloc, &program)?;
    let counts = counts_of(routines, &program, lines.as_slice(), savings.as_slice());
    counts.line(alloc)
}

// How much there is of each.
fn counts_of(routines: u32, program: &Program80, lines: &[Line86], savings: &[Saving]) -> Counts
    requires count { IsCount routines }
    requires few { length lines.now < 2 ^ 20 }
    ensures { counts_read result ≡ counts_of routines program.now lines.now savings.now }
{
    Counts {
        routines,
        lines: line_count(routines),
        instructions: program.instrs().len(),
        cells: program.cells().len(),
        code: code_size(lines),
        saved: saved_among(savings),
        sums: savings.len(),
    }
}

// The program of a made source, which no rule refuses.
fn made_program(alloc: Global, source: &[u8], routines: u32) -> Result<Program80, AllocError>
    requires count { IsCount routines }
    requires source { source.now ≡ sample_text routines }
    ensures { IfOk result (IsSource intel_reading (sample_text routines) sample_top) }
{
    sample_is_read();
    sample_is_accepted();
    stream_has_one_outcome::<Intel>();
    match program_of_bytes(alloc, source, false, TOP)? {
        Ok(program) => Ok(program),
        Err(_) => unreachable!(),
    }
}

// The lean text of the program, whose code is never too large.
fn lean_text(alloc: Global, program: &Program80, routines: u32) -> Result<Vec<Line86>, AllocError>
    requires count { IsCount routines }
    requires source { IsSource intel_reading (sample_text routines) sample_top program.now }
    ensures text { IfOk result (λ lines. IsText Lean program.now lines.items) }
    ensures fits { IfOk result (λ lines. CodeFits lines.items) }
    ensures few { IfOk result (λ lines. length lines.items < 2 ^ 20) }
{
    sample_is_read();
    sample_code_fits();
    stream_has_one_outcome::<Intel>();
    match translate(alloc, program, Mode::Lean) {
        Ok(lines) => Ok(lines),
        Err(CoreFault::Memory) => Err(AllocError),
        Err(CoreFault::CodeTooLarge(_)) => unreachable!(),
    }
}
