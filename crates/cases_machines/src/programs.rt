// Machines with the programs of cases.
ghost use Rattle.std.specs.Prelude.{◌≡◌, length, IfOk};
ghost use Rattle.cpu80_tagged.specs.Machine.{IsMachineOf};

use crate::machines::{Both80, Bytes80, Bytes86, Running80};
use crate::scripts::script;
use crate::states;
use crate::tagged::Held;
use crate::words::number_of;
use asm80_text::Lines;
use asm80_types::Program80;
use asm80_values::assemble;
use asm86::{Image86, Text86, image};
use cpu80::{Cpu80, Plain80};
use cpu86::{Cpu86, Start86};
use dialogue::Page;
use std::alloc::{AllocError, Global};

/// Registers are 0, and the stack is not in the data segment.
const START: Start86 = Start86 {
    ax: 0,
    cx: 0,
    dx: 0,
    bx: 0,
    sp: 0,
    si: 0,
    ds: 0,
    ss: 1,
    flags: 0,
};

/// A case: its machine, the options `fill=HEX` and `choice=HEX`, the lines of the source, the words of what the machine is asked to
/// do, and the tail of the command.
#[derive(Clone, Copy)]
pub struct Case<'a> {
    pub kind: &'a str,
    pub options: &'a str,
    pub source: &'a str,
    pub words: &'a str,
    pub tail: &'a str,
}

/// What the machine of a case answers; None where its source or its tail is faulty.
pub fn answer(alloc: Global, case: &Case<'_>) -> Result<Option<String>, AllocError> {
    let Some(page) = Page::of_tail(case.tail.as_bytes()) else {
        return Ok(None);
    };
    if case.kind == "run86" {
        return answer86(alloc, case, &page);
    }
    match program80(alloc, "ORG 100H\n", case.source)? {
        Some(program) => answer80(alloc, case, &program, &page),
        None => Ok(None),
    }
}

fn choice_of(case: &Case<'_>) -> u128 {
    number_of(case.options, "choice").unwrap_or(0)
}

// Memory as it is before a program is put into it.
fn fill_of(alloc: Global, case: &Case<'_>) -> Result<Vec<u8>, AllocError>
    ensures { IfOk result (λ v. length v.items ≡ 0x10000) }
{
    let byte = number_of(case.options, "fill").unwrap_or(0);
    vec![in alloc; (byte % 256) as u8; 0x1_0000]
}

fn answer80(
    alloc: Global,
    case: &Case<'_>,
    program: &Program80,
    page: &Page,
) -> Result<Option<String>, AllocError> {
    match case.kind {
        "tagged80" => tagged80(alloc, case, program, page),
        "bytes80" => bytes80(alloc, case, program, page),
        _ => both80(alloc, case, program, page),
    }
}

fn tagged80(
    alloc: Global,
    case: &Case<'_>,
    program: &Program80,
    page: &Page,
) -> Result<Option<String>, AllocError> {
    let mut machine = running80(alloc, program, page)?;
    Ok(Some(script(alloc, &mut machine, choice_of(case), case.words)?))
}

fn running80<'a>(
    alloc: Global,
    program: &'a Program80,
    page: &Page,
) -> Result<Running80<'a>, AllocError>
    ensures { IfOk result (λ machine. IsMachineOf machine.program.now machine.cpu) }
{
    let cpu = Cpu80::new(alloc, program, page)?;
    let before = Held::of(alloc, &cpu.held())?;
    Ok(Running80 {
        cpu,
        program,
        before,
    })
}

fn bytes80(
    alloc: Global,
    case: &Case<'_>,
    program: &Program80,
    page: &Page,
) -> Result<Option<String>, AllocError> {
    let cpu = plain80(alloc, case, program, page)?;
    let mut machine = Bytes80 { cpu, program };
    Ok(Some(script(alloc, &mut machine, choice_of(case), case.words)?))
}

fn both80(
    alloc: Global,
    case: &Case<'_>,
    program: &Program80,
    page: &Page,
) -> Result<Option<String>, AllocError> {
    let tagged = running80(alloc, program, page)?;
    let cpu = plain80(alloc, case, program, page)?;
    let bytes = Bytes80 { cpu, program };
    let mut machine = Both80 { tagged, bytes };
    Ok(Some(script(alloc, &mut machine, choice_of(case), case.words)?))
}

fn plain80(
    alloc: Global,
    case: &Case<'_>,
    program: &Program80,
    page: &Page,
) -> Result<Plain80, AllocError> {
    let fill = fill_of(alloc, case)?;
    Plain80::new(alloc, program, page, fill.as_slice())
}

fn answer86(alloc: Global, case: &Case<'_>, page: &Page) -> Result<Option<String>, AllocError> {
    match image86(alloc, case.source) {
        Some(image) => bytes86(alloc, case, &image, page),
        None => Ok(None),
    }
}

fn bytes86(
    alloc: Global,
    case: &Case<'_>,
    image: &Image86,
    page: &Page,
) -> Result<Option<String>, AllocError> {
    let cpu = plain86(alloc, case, image, page)?;
    let before = states::copy(alloc, cpu.processor())?;
    let mut machine = Bytes86 { cpu, before };
    Ok(Some(script(alloc, &mut machine, choice_of(case), case.words)?))
}

fn plain86(
    alloc: Global,
    case: &Case<'_>,
    image: &Image86,
    page: &Page,
) -> Result<Cpu86, AllocError> {
    let fill = fill_of(alloc, case)?;
    Cpu86::new(alloc, image, START, page, fill.as_slice())
}

/// The program below 0F000H of a first line and a source, of which a backslash parts the lines; None where it is faulty.
pub fn program80(
    alloc: Global,
    first: &str,
    source: &str,
) -> Result<Option<Program80>, AllocError> {
    let mut lines = Lines::new(alloc)?;
    // a fault stands, and is told at the end
    let _ = lines.feed(first.as_bytes());
    for line in source.split('\\') {
        let _ = lines.feed(line.as_bytes());
        let _ = lines.feed(b"\n");
    }
    match lines.finish() {
        Ok(statements) => Ok(assemble(alloc, statements.as_slice(), 0xF000).ok()),
        Err(_) => Ok(None),
    }
}

// The image of a text of code; None where it has none.
fn image86(alloc: Global, source: &str) -> Option<Image86> {
    let mut text = Text86::new(alloc).ok()?;
    // a fault stands, and is told at the end
    let _ = text.feed(b"CSEG\n");
    for line in source.split('\\') {
        let _ = text.feed(line.as_bytes());
        let _ = text.feed(b"\n");
    }
    let _ = text.feed(b"END\n");
    let lines = text.finish().ok()?;
    image(alloc, lines.as_slice()).ok()
}
