// Programs and texts of cases.
ghost use Rattle.std.specs.Prelude.{◌≡◌, true};
ghost use Rattle.asm80_types.specs.Program.{is_top};

use asm80_text::Lines;
use asm80_types::{Program80, ReadFault, Stmt80};
use asm80_values::assemble;
use asm86::{Line86, Text86, TextFault};
use std::alloc::{AllocError, Global};
use sym_run::Index86;
use templates::plain_text;

// The bytes of lines, which ` / ` stands between; `N*` in front of one stands for N of it.
fn lines_of(alloc: Global, case: &str, first: &str) -> Result<String, AllocError> {
    let mut text = String::from_str(alloc, first)?;
    for line in case.split(" / ") {
        let (count, line) = line.split_once('*').unwrap_or(("1", line));
        push_times(&mut text, count.parse::<u32>().unwrap_or(0), line)?;
    }
    Ok(text)
}

fn push_times(text: &mut String, count: u32, line: &str) -> Result<(), AllocError> {
    for _ in 0..count {
        text.push_str(line)?;
        text.push_str("\n")?;
    }
    Ok(())
}

/// Whether a program area may have the top.
pub fn is_top(top: u16) -> bool
    ensures { result ≡ is_top top }
{
    top % 0x100 == 0 && 0x1000 <= top && top <= 0xFF00
}

fn statements_of(alloc: Global, source: &str) -> Result<Vec<Stmt80>, ReadFault> {
    let mut reader = Lines::new(alloc)?;
    reader.feed(source.as_bytes())?;
    reader.finish()
}

/// The program of a case, from 0100H on and below a top.
pub fn program_below(alloc: Global, case: &str, top: u16) -> anyhow::Result<Program80>
    requires { is_top top ≡ true }
{
    let source = lines_of(alloc, case, "ORG 100H\n")?;
    let statements = statements_of(alloc, source.as_str())?;
    Ok(assemble(alloc, &statements, top)?)
}

/// The program of a case, from 0100H on and below F000H.
pub fn program_of(alloc: Global, case: &str) -> anyhow::Result<Program80> {
    program_below(alloc, case, 0xF000)
}

fn read_text(alloc: Global, text: &str) -> Result<Vec<Line86>, TextFault> {
    let mut reader = Text86::new(alloc)?;
    reader.feed(text.as_bytes())?;
    reader.feed(b"END\n")?;
    reader.finish()
}

// The statements of a case behind CSEG.
fn text_of(alloc: Global, case: &str) -> anyhow::Result<Vec<Line86>> {
    let text = lines_of(alloc, case, "CSEG\n")?;
    Ok(read_text(alloc, text.as_str())?)
}

/// The statements of a case by their labels.
pub fn text_index(alloc: Global, case: &str) -> anyhow::Result<Index86> {
    let lines = text_of(alloc, case)?;
    Ok(Index86::of(alloc, &lines)?)
}

/// The statements of a program's plain text by their labels.
pub fn plain_index(alloc: Global, program: &Program80) -> anyhow::Result<Index86> {
    let lines = plain_text(alloc, program)?;
    Ok(Index86::of(alloc, &lines)?)
}
