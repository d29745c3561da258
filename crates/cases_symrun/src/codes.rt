// The bytes of an instruction's template.
ghost use Rattle.std.specs.Prelude.{◌≡◌, ◌<◌, ◌^◌, length, true, IfOk};
ghost use Rattle.asm86_line_types.specs.Image.{statements};
ghost use Rattle.asm86_line_types.specs.Order.{at_start, in_order};

use crate::sources::program_of;
use anyhow::bail;
use asm80_types::Program80;
use asm86::{Image86, Label, Line86, Stmt86, Text86, TextFault, image, write_line};
use std::alloc::{AllocError, Global};
use templates::{plain_text, template};

/// The bytes of an instruction of the 8080 as it is written in a source, where HERE is its own label and NEXT that of the instruction
/// behind it: those that stand in the image of the plain text, which is written and read again, from the instruction's label up to
/// the next one's.
pub fn code_text(alloc: Global, instruction: &str) -> anyhow::Result<String> {
    let program = program_with(alloc, instruction)?;
    code_of(alloc, &program)
}

fn code_of(alloc: Global, program: &Program80) -> anyhow::Result<String> {
    let image = image_of(alloc, program)?;
    Ok(digits_of(alloc, first_code(program, &image))?)
}

fn digits_of(alloc: Global, code: Option<&[u8]>) -> Result<String, AllocError> {
    match code {
        Some(code) => hex::encode_upper(alloc, code),
        None => String::from_str(alloc, "not one instruction"),
    }
}

/// The bytes of its template without a save of the flags.
pub fn bare_text(alloc: Global, instruction: &str) -> anyhow::Result<String> {
    let program = program_with(alloc, instruction)?;
    let code = bare_code(alloc, &program)?;
    Ok(hex::encode_upper(alloc, &code)?)
}

// The program of an instruction at 100H and a NOP.
fn program_with(alloc: Global, instruction: &str) -> anyhow::Result<Program80> {
    let source = format!(in alloc; "HERE: {instruction} / NEXT: NOP")?;
    program_of(alloc, source.as_str())
}

fn first_code<'a>(program: &Program80, image: &'a Image86) -> Option<&'a [u8]> {
    let [first, second] = program.instrs() else {
        return None;
    };
    let from = image.offset(Label::At(first.at))?;
    let to = image.offset(Label::At(second.at))?;
    image.code().get(from as usize..to as usize)
}

// The template's statements are instructions alone.
fn bare_code(alloc: Global, program: &Program80) -> anyhow::Result<Vec<u8>> {
    let Some(instruction) = program.instr_at(0x100) else {
        bail!("an instruction at 100H");
    };
    let mut code = Vec::new(alloc);
    for statement in template(instruction, 0x100, false).as_slice() {
        match statement {
            Stmt86::Run(i) => code.extend_from_slice(i86::encode(*i).bytes())?,
            _ => bail!("a bare template is instructions alone"),
        }
    }
    Ok(code)
}

// The lines of a program's plain text, as they are read where the text is written.
fn lines_of(alloc: Global, program: &Program80) -> anyhow::Result<Vec<Line86>>
    ensures in_order { IfOk result (λ v. in_order at_start (statements v.items) ≡ true) }
    ensures few { IfOk result (λ v. length v.items < 2 ^ 28) }
{
    let text = plain_text(alloc, program)?;
    Ok(read_again(alloc, &text)?)
}

fn read_again(alloc: Global, lines: &[Line86]) -> Result<Vec<Line86>, TextFault>
    ensures in_order { IfOk result (λ v. in_order at_start (statements v.items) ≡ true) }
    ensures few { IfOk result (λ v. length v.items < 2 ^ 28) }
{
    let mut reader = Text86::new(alloc)?;
    for line in lines {
        // a fault stands, and is told at the end
        let _ = reader.feed(write_line(line.stmt).as_slice());
    }
    reader.finish()
}

// The image of a program's plain text.
fn image_of(alloc: Global, program: &Program80) -> anyhow::Result<Image86> {
    let lines = lines_of(alloc, program)?;
    Ok(image(alloc, &lines)?)
}
